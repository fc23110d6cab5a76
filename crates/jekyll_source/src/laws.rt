//! Laws of the texts. Each function only states its law.
ghost use Rattle.std.specs.Prelude.{◌≡◌};
ghost use Rattle.std.specs.List.{All};
ghost use Rattle.jekyll_source.specs.meaning.Blank.{marked};
ghost use Rattle.jekyll_source.specs.meaning.Pieces.{jekyll_text, joined, pieces};
ghost use Rattle.jekyll_source.specs.laws.Untouched.{LeavesNothingOut, TakesNoName};

/// The pieces of a text, joined, are the text.
#[tactic(auto, using(crate::proofs::UntouchedLemmas::pieces_joined))]
pub fn pieces_joined_are_the_text(text: &str)
    ensures { joined (pieces text.now) ≡ text.now }
{}

/// A text without tags that take a name and without blocks whose whitespace is left out is itself.
pub fn texts_without_names_are_untouched(text: &str)
    ensures { All TakesNoName (pieces text.now) → All LeavesNothingOut (marked (pieces text.now)) → jekyll_text text.now ≡ text.now }
{}
