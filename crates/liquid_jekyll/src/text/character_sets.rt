//! Sets of characters.
ghost use Rattle.std.specs.Prelude.{◌≡◌};
ghost use Rattle.liquid_jekyll.specs.meaning.text.CharacterSets as Spec;

use ucd_category::{GeneralCategory, GeneralCategoryGroup};
use ucd_script::Script;

/// A set of characters.
#[derive(Debug, Clone, Copy, PartialEq, Eq)]
pub enum CharacterSet {
    /// Whitespace of ASCII.
    WhiteSpace,
    /// All but letters, marks and decimal digits.
    BetweenWords,
    /// All but these and the marks that a pretty slug keeps.
    BetweenPretty,
    /// All but letters and digits of ASCII.
    BetweenAscii,
    /// All but whitespace of ASCII.
    Printed,
    /// All but whitespace of ASCII and the scripts Han, Katakana, Hiragana and Hangul.
    Western,
}

impl CharacterSet {
    /// Returns `true` if the set has the character.
    pub fn contains(self, character: char) -> bool
        ensures { result ≡ Spec.contains self character }
    {
        match self {
            CharacterSet::WhiteSpace => is_space(character),
            CharacterSet::BetweenWords => !is_letter_or_digit(character),
            CharacterSet::BetweenPretty => {
                !(is_letter_or_digit(character) || is_pretty_mark(character))
            }
            CharacterSet::BetweenAscii => !character.is_ascii_alphanumeric(),
            CharacterSet::Printed => !is_space(character),
            CharacterSet::Western => !(is_space(character) || is_east_asian(character)),
        }
    }
}

/// Returns `true` for whitespace of ASCII.
pub(crate) fn is_space(character: char) -> bool
    ensures { result ≡ Spec.is_space character }
{
    character == ' ' || ('\t' <= character && character <= '\r')
}

fn is_letter_or_digit(character: char) -> bool
    ensures { result ≡ Spec.is_letter_or_digit character }
{
    let category = GeneralCategory::for_char(character);
    GeneralCategoryGroup::Letter.contains(category)
        || GeneralCategoryGroup::Mark.contains(category)
        || category == GeneralCategory::DecimalNumber
}

/// Returns `true` for a character that words are made of: a letter, a mark, a decimal digit, or a connector such as `_`.
pub(crate) fn is_word(character: char) -> bool
    ensures { result ≡ Spec.is_word character }
{
    is_letter_or_digit(character)
        || GeneralCategory::for_char(character) == GeneralCategory::ConnectorPunctuation
}

fn is_pretty_mark(character: char) -> bool
    ensures { result ≡ Spec.is_pretty_mark character }
{
    matches!(
        character,
        '.' | '_' | '~' | '!' | '$' | '&' | '\'' | '(' | ')' | '+' | ',' | ';' | '=' | '@'
    )
}

/// Returns `true` for a character of the scripts that write no spaces between words.
pub(crate) fn is_east_asian(character: char) -> bool
    ensures { result ≡ Spec.is_east_asian character }
{
    let script = Script::for_char(character);
    script == Script::Han
        || script == Script::Katakana
        || script == Script::Hiragana
        || script == Script::Hangul
}
