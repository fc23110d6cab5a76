//! Views of values, states, options and references.
ghost use Rattle.liquid_value.specs.meaning.Cow.{cow_view};
ghost use Rattle.liquid_value.specs.meaning.Tree.{state};
ghost use Rattle.liquid_value.specs.meaning.View.{view};
ghost use Rattle.liquid_views.specs.meaning.Trees.{option_tree};

use crate::kind::ViewKind;
use crate::view::ValueView;
use liquid_value::contents::{is_empty_array, is_empty_object};
use liquid_value::render::{ValueRender, ValueSource};
use liquid_value::{State, Value, ValueCow};
use std::alloc::{AllocError, Global};
use std::fmt;
use std::fmt::Display;

impl ValueView for Value {
    ghost tree = { view };

    fn kind(&self) -> ViewKind<'_> {
        match self {
            Value::Scalar(scalar) => ViewKind::Scalar(scalar.as_ref()),
            Value::Array(items) => ViewKind::Array(is_empty_array(items.as_array())),
            Value::Object(members) => ViewKind::Object(is_empty_object(members)),
            Value::State(state) => ViewKind::State(*state),
            Value::Nil => ViewKind::Nil,
        }
    }

    fn to_value(&self, _alloc: Global) -> Result<Value, AllocError> {
        self.clone()
    }

    fn write_render<W: fmt::Write>(&self, f: &mut fmt::Formatter<W>) -> fmt::Result {
        ValueRender::new(self).fmt(f)
    }

    fn write_source<W: fmt::Write>(&self, f: &mut fmt::Formatter<W>) -> fmt::Result {
        ValueSource::new(self).fmt(f)
    }

    fn to_cow(&self, _alloc: Global) -> Result<ValueCow<'_>, AllocError> {
        Ok(ValueCow::Borrowed(self))
    }
}

impl ValueView for ValueCow<'_> {
    ghost tree = { cow_view };

    fn kind(&self) -> ViewKind<'_> {
        self.as_view().kind()
    }

    fn to_value(&self, alloc: Global) -> Result<Value, AllocError> {
        self.as_view().to_value(alloc)
    }

    fn write_render<W: fmt::Write>(&self, f: &mut fmt::Formatter<W>) -> fmt::Result {
        self.as_view().write_render(f)
    }

    fn write_source<W: fmt::Write>(&self, f: &mut fmt::Formatter<W>) -> fmt::Result {
        self.as_view().write_source(f)
    }

    fn to_cow(&self, _alloc: Global) -> Result<ValueCow<'_>, AllocError> {
        Ok(ValueCow::Borrowed(self.as_view()))
    }
}

impl ValueView for State {
    ghost tree = { state };

    fn kind(&self) -> ViewKind<'_> {
        ViewKind::State(*self)
    }

    fn to_value(&self, _alloc: Global) -> Result<Value, AllocError> {
        Ok(Value::State(*self))
    }

    fn write_render<W: fmt::Write>(&self, _f: &mut fmt::Formatter<W>) -> fmt::Result {
        Ok(())
    }

    fn write_source<W: fmt::Write>(&self, f: &mut fmt::Formatter<W>) -> fmt::Result {
        f.write_str(State::type_name(*self))
    }
}

/// `None` is nil.
impl<T: ValueView> ValueView for Option<T> {
    ghost tree = { option_tree T.tree };

    fn kind(&self) -> ViewKind<'_> {
        match self {
            Some(inner) => inner.kind(),
            None => ViewKind::Nil,
        }
    }

    fn to_value(&self, alloc: Global) -> Result<Value, AllocError> {
        match self {
            Some(inner) => inner.to_value(alloc),
            None => Ok(Value::Nil),
        }
    }

    fn write_render<W: fmt::Write>(&self, f: &mut fmt::Formatter<W>) -> fmt::Result {
        match self {
            Some(inner) => inner.write_render(f),
            None => Ok(()),
        }
    }

    fn write_source<W: fmt::Write>(&self, f: &mut fmt::Formatter<W>) -> fmt::Result {
        match self {
            Some(inner) => inner.write_source(f),
            None => f.write_str("nil"),
        }
    }

    fn to_cow(&self, alloc: Global) -> Result<ValueCow<'_>, AllocError> {
        match self {
            Some(inner) => inner.to_cow(alloc),
            None => Ok(ValueCow::Owned(Value::Nil)),
        }
    }
}

impl<V: ValueView> ValueView for &V {
    ghost tree = { λ v. V.tree v.now };

    fn kind(&self) -> ViewKind<'_> {
        (**self).kind()
    }

    fn to_value(&self, alloc: Global) -> Result<Value, AllocError> {
        (**self).to_value(alloc)
    }

    fn write_render<W: fmt::Write>(&self, f: &mut fmt::Formatter<W>) -> fmt::Result {
        (**self).write_render(f)
    }

    fn write_source<W: fmt::Write>(&self, f: &mut fmt::Formatter<W>) -> fmt::Result {
        (**self).write_source(f)
    }

    fn to_cow(&self, alloc: Global) -> Result<ValueCow<'_>, AllocError> {
        (**self).to_cow(alloc)
    }
}
