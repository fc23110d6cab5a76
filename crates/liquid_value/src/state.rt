//! The states that a value can be in.
ghost use Rattle.std.specs.Prelude.{◌≡◌};
ghost use Rattle.liquid_scalar.specs.meaning.Scalar.{scal};
ghost use Rattle.liquid_value.specs.meaning.Kind.{state_name, absent_state, boolean_state, number_state};
ghost use Rattle.liquid_value.specs.meaning.Kind.{text_state, scalar_state, container_state};

use liquid_scalar::ScalarOf;
use std::convert::AsStr;

/// A state that a value can be in. As a value itself, it means any value in that state.
#[derive(Clone, Copy, PartialEq, Eq, Hash, Debug)]
pub enum State {
    Truthy,
    DefaultValue,
    Empty,
    Blank,
}

impl State {
    /// Returns the state's name: `truthy`, `default`, `empty` or `blank`.
    pub fn type_name(self) -> &'static str
        ensures { result.now ≡ state_name self }
    {
        match self {
            State::Truthy => "truthy",
            State::DefaultValue => "default",
            State::Empty => "empty",
            State::Blank => "blank",
        }
    }

    /// Returns `true` if nil, or any state, is in this state. It is in all of them but `Truthy`.
    pub fn holds_of_absent(self) -> bool
        ensures { result ≡ absent_state self }
    {
        match self {
            State::Truthy => false,
            State::DefaultValue | State::Empty | State::Blank => true,
        }
    }

    /// Returns `true` if an array or an object is in the state. It is always truthy, and in the other states if it is
    /// empty.
    pub fn holds_of_container(self, is_empty: bool) -> bool
        ensures { result ≡ container_state is_empty self }
    {
        match self {
            State::Truthy => true,
            State::DefaultValue | State::Empty | State::Blank => is_empty,
        }
    }

    /// Returns `true` if the scalar is in the state.
    ///
    /// Numbers and dates are truthy and nothing else. A boolean is truthy if it is true, and default and blank if
    /// it is false. A string is always truthy, default and empty if it has no bytes, and blank if it has nothing but
    /// whitespace.
    pub fn holds_of_scalar<T: AsStr>(self, scalar: &ScalarOf<T>) -> bool
        ensures { result ≡ scalar_state (scal T.text scalar.now) self }
    {
        match scalar {
            ScalarOf::Bool(truth) => self.holds_of_truth(*truth),
            ScalarOf::Str(text) => self.holds_of_text(text.as_str()),
            ScalarOf::Integer(_) | ScalarOf::Date(_) | ScalarOf::DateTime(_) => {
                self.holds_of_number()
            }
        }
    }

    fn holds_of_truth(self, truth: bool) -> bool
        ensures { result ≡ boolean_state truth self }
    {
        match self {
            State::Truthy => truth,
            State::DefaultValue | State::Blank => !truth,
            State::Empty => false,
        }
    }

    fn holds_of_text(self, text: &str) -> bool
        ensures { result ≡ text_state text.now self }
    {
        match self {
            State::Truthy => true,
            State::DefaultValue | State::Empty => text.is_empty(),
            State::Blank => text.trim().is_empty(),
        }
    }

    fn holds_of_number(self) -> bool
        ensures { result ≡ number_state self }
    {
        match self {
            State::Truthy => true,
            State::DefaultValue | State::Empty | State::Blank => false,
        }
    }
}
