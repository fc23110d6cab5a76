//! Views of booleans, texts and scalars.
ghost use Rattle.std.specs.Prelude.{string_bytes};
ghost use Rattle.liquid_scalar.specs.meaning.Scalar.{boolean, text, scal};
ghost use Rattle.liquid_value.specs.meaning.Tree.{scalar};

use crate::kind::ViewKind;
use crate::view::ValueView;
use liquid_scalar::{Scalar, ScalarCow, ScalarOf};
use liquid_value::Value;
use std::alloc::{AllocError, Global};
use std::borrow::CowStr;
use std::convert::AsStr;
use std::fmt;
use std::fmt::Display;

impl ValueView for bool {
    ghost tree = { λ b. scalar (boolean b) };

    fn kind(&self) -> ViewKind<'_> {
        ViewKind::Scalar(ScalarCow::Bool(*self))
    }

    fn to_value(&self, _alloc: Global) -> Result<Value, AllocError> {
        Ok(Value::Scalar(Scalar::Bool(*self)))
    }

    fn write_render<W: fmt::Write>(&self, f: &mut fmt::Formatter<W>) -> fmt::Result {
        write!(f, "{self}")
    }

    fn write_source<W: fmt::Write>(&self, f: &mut fmt::Formatter<W>) -> fmt::Result {
        write!(f, "{self}")
    }
}

impl ValueView for &str {
    ghost tree = { λ s. scalar (text s.now) };

    fn kind(&self) -> ViewKind<'_> {
        ViewKind::Scalar(ScalarCow::Str(CowStr::Borrowed(self)))
    }

    fn to_value(&self, alloc: Global) -> Result<Value, AllocError> {
        Ok(Value::Scalar(Scalar::Str(String::from_str(alloc, self)?)))
    }

    fn write_render<W: fmt::Write>(&self, f: &mut fmt::Formatter<W>) -> fmt::Result {
        f.write_str(self)
    }

    fn write_source<W: fmt::Write>(&self, f: &mut fmt::Formatter<W>) -> fmt::Result {
        write!(f, "\"{self}\"")
    }
}

impl ValueView for String {
    ghost tree = { λ s. scalar (text (string_bytes s)) };

    fn kind(&self) -> ViewKind<'_> {
        ViewKind::Scalar(ScalarCow::Str(CowStr::Borrowed(self.as_str())))
    }

    fn to_value(&self, _alloc: Global) -> Result<Value, AllocError> {
        Ok(Value::Scalar(Scalar::Str(self.clone()?)))
    }

    fn write_render<W: fmt::Write>(&self, f: &mut fmt::Formatter<W>) -> fmt::Result {
        f.write_str(self.as_str())
    }

    fn write_source<W: fmt::Write>(&self, f: &mut fmt::Formatter<W>) -> fmt::Result {
        write!(f, "\"{self}\"")
    }
}

impl<T: AsStr> ValueView for ScalarOf<T> {
    ghost tree = { λ s. scalar (scal T.text s) };

    fn kind(&self) -> ViewKind<'_> {
        ViewKind::Scalar(self.as_ref())
    }

    fn to_value(&self, alloc: Global) -> Result<Value, AllocError> {
        Ok(Value::Scalar(self.as_ref().into_owned(alloc)?))
    }

    fn write_render<W: fmt::Write>(&self, f: &mut fmt::Formatter<W>) -> fmt::Result {
        self.render().fmt(f)
    }

    fn write_source<W: fmt::Write>(&self, f: &mut fmt::Formatter<W>) -> fmt::Result {
        self.source().fmt(f)
    }
}
