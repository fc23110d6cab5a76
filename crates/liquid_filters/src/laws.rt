//! Laws of the standard filters. Each function only states its law.
ghost use Rattle.liquid_filters.specs.laws.Dates.{MomentsArePrinted, OthersAreKept};

/// `date` formats the moment that its input means, by the pattern, and returns an input that means none.
pub fn moments_are_printed()
    ensures printed { MomentsArePrinted }
    ensures kept { OthersAreKept }
{}
