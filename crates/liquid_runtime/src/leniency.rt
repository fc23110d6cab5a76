//! What a path without a value, and an index that is not a scalar, lead to.
ghost use Rattle.std.specs.Prelude.{◌≡◌};
ghost use Rattle.liquid_runtime.specs.meaning.Leniency.{includes_indexes, is_lenient, lenient_paths};

/// How lenient a runtime is.
#[derive(Debug, Clone, Copy, PartialEq, Eq, Drop)]
pub enum Leniency {
    /// A path without a value is an error, and so is an index that is not a scalar.
    Strict,
    /// A path without a value is nil. An index that is not a scalar is an error.
    Paths,
    /// A path without a value is nil, and so is a variable with an index that is not a scalar.
    Indexes,
}

impl Leniency {
    /// Returns `true` if a path without a value is nil.
    pub fn is_lenient(self) -> bool
        ensures { result ≡ is_lenient self }
    {
        match self {
            Leniency::Strict => false,
            Leniency::Paths | Leniency::Indexes => true,
        }
    }

    /// Returns `true` if a variable with an index that is not a scalar is nil, too.
    pub fn includes_indexes(self) -> bool
        ensures { result ≡ includes_indexes self }
    {
        match self {
            Leniency::Strict | Leniency::Paths => false,
            Leniency::Indexes => true,
        }
    }

    /// Returns the leniency in which only paths without a value are nil, or that in which they are errors.
    pub fn of_paths(lenient: bool) -> Leniency
        ensures { result ≡ lenient_paths lenient }
    {
        if lenient {
            Leniency::Paths
        } else {
            Leniency::Strict
        }
    }
}
