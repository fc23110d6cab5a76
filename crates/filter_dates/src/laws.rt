//! Laws over the definitions of `specs/`: each is the clause of a function that does nothing.
ghost use Rattle.filter_dates.specs.laws.Moments.{ValuesHaveOneMoment};
ghost use Rattle.filter_dates.specs.laws.Stamps.{StampsAreRead};

/// No value means two moments.
#[tactic(auto, using(crate::proofs::MomentLemmas::moment_once))]
pub fn values_have_one_moment()
    ensures { ValuesHaveOneMoment }
{}

/// A stamp of the form of RFC 3339, with a whole second, writes the numbers that it was made of.
#[tactic(auto, using(crate::proofs::StampLemmas::stamps_are_read))]
pub fn stamps_are_read()
    ensures { StampsAreRead }
{}
