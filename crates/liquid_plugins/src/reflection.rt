//! What filters say about themselves: their names, and what documentation shows.
ghost use Rattle.std.specs.Prelude.{◌≡◌, ℕ, List};

/// A parameter of a filter.
#[derive(Debug, Clone, Copy, PartialEq, Eq)]
pub struct ParameterReflection {
    pub name: &'static str,
    pub description: &'static str,
    pub is_optional: bool,
}

/// The parameters that a filter takes.
pub trait FilterParametersReflection {
    /// Returns the positional ones, in order.
    fn positional_parameters() -> &'static [ParameterReflection];

    /// Returns those with a keyword.
    fn keyword_parameters() -> &'static [ParameterReflection];
}

/// A filter's name, description and parameters.
pub trait FilterReflection {
    // its name
    ghost filter_name: { Self → List ℕ };

    /// Returns the name that the filter is known by.
    fn name(&self) -> &str
        ensures { result.now ≡ filter_name self.now };

    /// Returns a description of what the filter makes of its input.
    fn description(&self) -> &str;

    /// Returns the positional parameters, in order.
    fn positional_parameters(&self) -> &'static [ParameterReflection];

    /// Returns the parameters with a keyword.
    fn keyword_parameters(&self) -> &'static [ParameterReflection];
}
