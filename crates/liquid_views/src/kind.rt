//! The kind of a value.
ghost use Rattle.std.specs.Prelude.{◌≡◌, option_map, is_some};
ghost use Rattle.std.specs.Cow.{cow_str_bytes};
ghost use Rattle.liquid_scalar.specs.meaning.Scalar.{scal};
ghost use Rattle.liquid_views.specs.meaning.Outline.{told_outline, outline_name, outline_state, outline_scalar, outline_own_state};
ghost use Rattle.liquid_views.specs.meaning.Outline.{is_array_outline, is_object_outline, is_nil_outline};

use liquid_scalar::ScalarCow;
use liquid_value::State;

/// The kind of a value, and what can be said of the value without memory.
#[derive(Debug, Drop)]
pub enum ViewKind<'v> {
    Scalar(ScalarCow<'v>),
    /// An array, and whether it is empty.
    Array(bool),
    /// An object, and whether it is empty.
    Object(bool),
    State(State),
    Nil,
}

impl<'v> ViewKind<'v> {
    /// Returns the name of the value's type.
    pub fn type_name(&self) -> &'static str
        ensures { result.now ≡ outline_name (told_outline self.now) }
    {
        match self {
            ViewKind::Scalar(scalar) => scalar.type_name(),
            ViewKind::Array(_) => "array",
            ViewKind::Object(_) => "object",
            ViewKind::State(state) => state.type_name(),
            ViewKind::Nil => "nil",
        }
    }

    /// Returns `true` if the value is in the state.
    pub fn query_state(&self, state: State) -> bool
        ensures { result ≡ outline_state (told_outline self.now) state }
    {
        match self {
            ViewKind::Scalar(scalar) => state.holds_of_scalar(scalar),
            ViewKind::Array(is_empty) | ViewKind::Object(is_empty) => state.holds_of_container(
                *is_empty,
            ),
            ViewKind::State(_) | ViewKind::Nil => state.holds_of_absent(),
        }
    }

    /// Returns the scalar, and `None` for any other kind.
    pub fn into_scalar(self) -> Option<ScalarCow<'v>>
        ensures { option_map (scal cow_str_bytes) result ≡ outline_scalar (told_outline self.entry) }
    {
        match self {
            ViewKind::Scalar(scalar) => Some(scalar),
            _ => None,
        }
    }

    /// Returns the state, and `None` for any other kind.
    pub fn as_state(&self) -> Option<State>
        ensures { result ≡ outline_own_state (told_outline self.now) }
    {
        match self {
            ViewKind::State(state) => Some(*state),
            _ => None,
        }
    }

    /// Returns `true` if it is a scalar.
    pub fn is_scalar(&self) -> bool
        ensures { result ≡ is_some (outline_scalar (told_outline self.now)) }
    {
        matches!(self, ViewKind::Scalar(_))
    }

    /// Returns `true` if it is an array.
    pub fn is_array(&self) -> bool
        ensures { result ≡ is_array_outline (told_outline self.now) }
    {
        matches!(self, ViewKind::Array(_))
    }

    /// Returns `true` if it is an object.
    pub fn is_object(&self) -> bool
        ensures { result ≡ is_object_outline (told_outline self.now) }
    {
        matches!(self, ViewKind::Object(_))
    }

    /// Returns `true` if it is nil.
    pub fn is_nil(&self) -> bool
        ensures { result ≡ is_nil_outline (told_outline self.now) }
    {
        matches!(self, ViewKind::Nil)
    }
}
