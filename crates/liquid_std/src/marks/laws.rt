//! A law of the keys of groups, as the contract of a function.
ghost use Rattle.liquid_std.specs.laws.marks.Keys.{KeysDiffer};

/// Two groups with one key are one group, so the groups of `cycle` never share a place.
pub fn groups_have_keys_of_their_own()
    ensures { KeysDiffer }
{}
