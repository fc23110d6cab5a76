//! The trait of everything that a template can use as a value.
ghost use Rattle.std.specs.Prelude.{◌≡◌, Some, IfOk, option_map, is_some};
ghost use Rattle.std.specs.Cow.{cow_str_bytes};
ghost use Rattle.std.specs.Fmt.{WritesOnOk};
ghost use Rattle.liquid_scalar.specs.meaning.Scalar.{scal};
ghost use Rattle.liquid_value.specs.meaning.Cow.{cow_view};
ghost use Rattle.liquid_value.specs.meaning.Kind.{type_name, query_state};
ghost use Rattle.liquid_value.specs.meaning.Parts.{as_scalar, as_array, as_object, as_state, is_nil};
ghost use Rattle.liquid_value.specs.meaning.Render.{render, source};
ghost use Rattle.liquid_value.specs.meaning.Tree.{Tree};
ghost use Rattle.liquid_value.specs.meaning.View.{view};
ghost use Rattle.liquid_views.specs.meaning.Outline.{outline, told_outline};

use crate::kind::ViewKind;
use liquid_scalar::ScalarCow;
use liquid_value::{State, Value, ValueCow};
use std::alloc::{AllocError, Global};
use std::borrow::CowStr;
use std::fmt;

/// Whatever can be given to a template as a value.
///
/// Each result is the same as for the value that `to_value` returns.
pub trait ValueView {
    ghost tree: { Self → Tree };

    /// Returns the kind of the value.
    fn kind(&self) -> ViewKind<'_>
        ensures { told_outline result ≡ outline (tree self.now) };

    /// Returns the value, copied.
    fn to_value(&self, alloc: Global) -> Result<Value, AllocError>
        ensures { IfOk result (λ v. view v ≡ tree self.now) };

    /// Writes the text that the value renders as.
    fn write_render<W: fmt::Write>(&self, f: &mut fmt::Formatter<W>) -> fmt::Result
        ensures { WritesOnOk W.write_str_gives f.old result (render (tree self.now)) f.new };

    /// Writes the source text of the value.
    fn write_source<W: fmt::Write>(&self, f: &mut fmt::Formatter<W>) -> fmt::Result
        ensures { WritesOnOk W.write_str_gives f.old result (source (tree self.now)) f.new };

    /// Returns the value. It is borrowed if it is a `Value`, and copied otherwise.
    fn to_cow(&self, alloc: Global) -> Result<ValueCow<'_>, AllocError>
        ensures { IfOk result (λ v. cow_view v ≡ tree self.now) }
    {
        Ok(ValueCow::Owned(self.to_value(alloc)?))
    }

    /// Returns the name of the value's type, such as `whole number`, `string`, `array` or `nil`.
    #[tactic(auto, using(crate::proofs::Outlines::name_of_outline))]
    final fn type_name(&self) -> &'static str
        ensures { result.now ≡ type_name (tree self.now) }
    {
        self.kind().type_name()
    }

    /// Returns `true` if the value is in the state.
    #[tactic(auto, using(crate::proofs::Outlines::state_of_outline))]
    final fn query_state(&self, state: State) -> bool
        ensures { result ≡ query_state (tree self.now) state }
    {
        self.kind().query_state(state)
    }

    /// Returns the scalar, with its text borrowed, and `None` for any other value.
    #[tactic(auto, using(crate::proofs::Outlines::scalar_of_outline))]
    final fn as_scalar(&self) -> Option<ScalarCow<'_>>
        ensures { option_map (scal cow_str_bytes) result ≡ as_scalar (tree self.now) }
    {
        self.kind().into_scalar()
    }

    /// Returns the state, and `None` for any other value.
    #[tactic(auto, using(crate::proofs::Outlines::own_state_of_outline))]
    final fn as_state(&self) -> Option<State>
        ensures { result ≡ as_state (tree self.now) }
    {
        self.kind().as_state()
    }

    /// Returns `true` if the value is a scalar.
    #[tactic(auto, using(crate::proofs::Outlines::scalar_of_outline))]
    final fn is_scalar(&self) -> bool
        ensures { result ≡ is_some (as_scalar (tree self.now)) }
    {
        self.kind().is_scalar()
    }

    /// Returns `true` if the value is an array.
    #[tactic(auto, using(crate::proofs::Outlines::array_of_outline))]
    final fn is_array(&self) -> bool
        ensures { result ≡ is_some (as_array (tree self.now)) }
    {
        self.kind().is_array()
    }

    /// Returns `true` if the value is an object.
    #[tactic(auto, using(crate::proofs::Outlines::object_of_outline))]
    final fn is_object(&self) -> bool
        ensures { result ≡ is_some (as_object (tree self.now)) }
    {
        self.kind().is_object()
    }

    /// Returns `true` if the value is a state.
    #[tactic(auto, using(crate::proofs::Outlines::own_state_of_outline))]
    final fn is_state(&self) -> bool
        ensures { result ≡ is_some (as_state (tree self.now)) }
    {
        self.kind().as_state().is_some()
    }

    /// Returns `true` if the value is nil.
    #[tactic(auto, using(crate::proofs::Outlines::nil_of_outline))]
    final fn is_nil(&self) -> bool
        ensures { result ≡ is_nil (tree self.now) }
    {
        self.kind().is_nil()
    }

    /// Returns the text that the value renders as. It is borrowed if the value has it in this form.
    #[tactic(auto, using(crate::proofs::Outlines::render_of_scalar, crate::proofs::Outlines::render_of_state, crate::proofs::Outlines::render_of_nil))]
    final fn to_kstr(&self, alloc: Global) -> Result<CowStr<'_>, AllocError>
    where
        Self: Sized,
        ensures { IfOk result (λ text. cow_str_bytes text ≡ render (tree self.now)) }
    {
        match self.kind() {
            ViewKind::Scalar(scalar) => scalar.into_cow_str(alloc),
            ViewKind::State(_) | ViewKind::Nil => Ok(CowStr::Borrowed("")),
            ViewKind::Array(_) | ViewKind::Object(_) => Ok(CowStr::Owned(
                self.render().to_string(alloc)?,
            )),
        }
    }

    /// Returns a value that prints the text that the value renders as.
    final fn render(&self) -> ViewRender<'_, Self>
    where
        Self: Sized,
        ensures { result.view.now ≡ self.now }
    {
        ViewRender { view: self }
    }

    /// Returns a value that prints the source text of the value.
    final fn source(&self) -> ViewSource<'_, Self>
    where
        Self: Sized,
        ensures { result.view.now ≡ self.now }
    {
        ViewSource { view: self }
    }
}

/// Prints the text that a value renders as.
#[derive(Drop)]
pub struct ViewRender<'v, V> {
    pub view: &'v V,
}

impl<V: ValueView> fmt::Display for ViewRender<'_, V> {
    ghost output = { λ d. Some (render (V.tree d.view.now)) };

    fn fmt<W: fmt::Write>(&self, f: &mut fmt::Formatter<W>) -> fmt::Result {
        self.view.write_render(f)
    }
}

/// Prints the source text of a value.
#[derive(Drop)]
pub struct ViewSource<'v, V> {
    pub view: &'v V,
}

impl<V: ValueView> fmt::Display for ViewSource<'_, V> {
    ghost output = { λ d. Some (source (V.tree d.view.now)) };

    fn fmt<W: fmt::Write>(&self, f: &mut fmt::Formatter<W>) -> fmt::Result {
        self.view.write_source(f)
    }
}
