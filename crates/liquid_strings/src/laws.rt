//! Laws of the operations on strings. Each function only states its law.
ghost use Rattle.std.specs.Prelude.{◌≡◌, ◌++◌, ℕ, List, Some};
ghost use Rattle.liquid_strings.specs.laws.Stripped.{StrippedTextsHaveNoTag};
ghost use Rattle.liquid_strings.specs.laws.Words.{IsOneWord, SpacePartsWords};
ghost use Rattle.liquid_strings.specs.meaning.Cases.{lowercased};
ghost use Rattle.liquid_strings.specs.meaning.Escape.{escaped, escaped_once};
ghost use Rattle.liquid_strings.specs.meaning.Url.{url_decoded, url_encoded};

/// Escaping a string that is already escaped, with entities left alone, changes nothing.
#[tactic(auto, using(crate::proofs::EscapeLemmas::escaped_once_of_escaped))]
pub fn escaped_is_left_alone()
    ensures { (bytes : List ℕ) → escaped_once (escaped bytes) ≡ escaped bytes }
{}

/// A string that is written for a URL is read back.
pub fn url_is_read_back(text: &str)
    ensures { url_decoded (url_encoded text.now) ≡ Some text.now }
{}

/// The lower case of two strings, joined, is that of the first followed by that of the second.
pub fn lower_case_is_by_parts(front: &str, back: &str)
    ensures { lowercased (front.now ++ back.now) ≡ lowercased front.now ++ lowercased back.now }
{}

/// In a string that was stripped of tags no `>` is after a `<`.
#[tactic(auto, using(crate::proofs::StripLemmas::no_tag))]
pub fn stripped_texts_have_no_tag()
    ensures { StrippedTextsHaveNoTag }
{}

/// A whitespace character parts the words before it from those after it, and a string without whitespace is one word,
/// if it is not empty.
pub fn words_are_runs(front: &str, space: char, back: &str)
    ensures parts { SpacePartsWords front.now space back.now }
    ensures one { IsOneWord front.now }
{}
