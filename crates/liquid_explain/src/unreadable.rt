//! What is said of a text that can't be read.

use crate::elements::find_stop;
use crate::found::found_at;
use crate::hints::find_hint;
use crate::part::{Part, Parts};
use std::alloc::{AllocError, Global};

/// Why no element begins at the braces of a text.
#[derive(Clone, Copy, Debug, PartialEq, Eq)]
pub struct Unreadable<'a> {
    /// The text between the braces and the place.
    pub(crate) front: &'a str,
    /// What is at the place.
    pub(crate) found: &'a str,
    /// Whether that is on a later line, or nothing is there.
    is_later: bool,
    pub(crate) expected: Parts,
    pub(crate) is_tag: bool,
}

/// Returns why neither a tag nor an expression begins with the braces at the beginning of the text. Returns `None` if one
/// begins there.
pub fn explain_unreadable(text: &str) -> Option<Unreadable<'_>> {
    let stop = find_stop(text)?;
    let (front, rest) = text.split_at_checked(text.len().saturating_sub(stop.left))?;
    let between = front.get(front.trim_end().len()..).unwrap_or("");
    let is_later = rest.is_empty() || between.contains("\n");
    Some(Unreadable {
        front,
        found: found_at(rest),
        is_later: is_later && !stop.expected.contains(Part::EndQuote),
        expected: stop.expected,
        is_tag: text.starts_with("{%"),
    })
}

impl Unreadable<'_> {
    /// Returns how many bytes come before the place. If what is there is on a later line, the place is the end of what
    /// comes before it.
    pub fn place(&self) -> usize {
        if self.is_later {
            self.front.trim_end().len()
        } else {
            self.front.len()
        }
    }

    /// Returns how many bytes there are about the error.
    pub fn length(&self) -> usize {
        if self.is_later || self.expects(Part::EndQuote) {
            1
        } else {
            self.found.len()
        }
    }

    /// Returns what was expected, and what is there.
    pub fn label(&self, alloc: Global) -> Result<String, AllocError> {
        if self.expects(Part::EndQuote) {
            return String::from_str(alloc, "this quote has no end");
        }
        let expected = self.expected_words(alloc)?;
        if self.is_later {
            format!(in alloc; "expected {expected} here")
        } else if self.found == "\u{a0}" {
            format!(in alloc; "expected {expected}, found a no-break space")
        } else {
            format!(in alloc; "expected {expected}, found `{}`", self.found)
        }
    }

    /// Returns what may help, if something is known.
    pub fn hint(&self) -> Option<&'static str> {
        if self.is_later || self.expects(Part::EndQuote) {
            None
        } else {
            find_hint(self)
        }
    }

    pub(crate) fn expects(&self, part: Part) -> bool {
        self.expected.contains(part)
    }

    /// Returns the words for the parts that were expected.
    fn expected_words(&self, alloc: Global) -> Result<String, AllocError> {
        let words = [
            self.word(Part::TagName, "the name of a tag"),
            self.word(Part::FilterName, "the name of a filter"),
            self.word(Part::Member, "a name"),
            self.value_word(),
            self.word(Part::CloseBracket, "`]`"),
            self.word(Part::Dots, "`..`"),
            self.word(Part::CloseParen, "`)`"),
            self.word(Part::Colon, "`:`"),
            self.word(Part::Comma, "`,`"),
            self.word(Part::Bar, "`|`"),
            self.word(Part::Closer, if self.is_tag { "`%}`" } else { "`}}`" }),
        ];
        let mut left = words.iter().filter(|word| !word.is_empty()).count();
        let mut text = String::new(alloc);
        for word in words {
            if !word.is_empty() {
                if !text.is_empty() {
                    text.push_str(if left == 1 { " or " } else { ", " })?;
                }
                text.push_str(word)?;
                left = left.saturating_sub(1);
            }
        }
        Ok(text)
    }

    /// Returns the word for a part, or nothing if it was not expected.
    fn word(&self, part: Part, word: &'static str) -> &'static str {
        if self.expects(part) { word } else { "" }
    }

    /// Returns the word for a value or a token of a tag. After a value another token is an operator.
    fn value_word(&self) -> &'static str {
        if self.expects(Part::Token) && self.expects(Part::Bar) {
            "an operator"
        } else if self.expects(Part::Token) || self.expects(Part::Value) {
            "a value"
        } else {
            ""
        }
    }
}
