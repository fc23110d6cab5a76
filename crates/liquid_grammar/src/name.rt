//! Identifiers and names.
ghost use Rattle.std.specs.Prelude.{◌≡◌, ◌<◌, ◌≤◌, length, IfSome};
ghost use Rattle.liquid_grammar.specs.steps.Steps as read;
ghost use Rattle.liquid_grammar.specs.steps.Steps.{Splits};

use crate::bytes::{byte_at, is_word, starts_name};
use crate::literal::literal_word;

/// Returns the longest identifier that the text begins with, and what follows it.
#[tactic(auto, unfolding(crate::specs::steps::Steps::identifier))]
pub(crate) fn identifier(s: &str) -> Option<(&str, &str)>
    ensures value { Splits result (read.identifier s.now) }
    ensures shorter { IfSome result (λ x. length x.1.now < length s.now) }
{
    let bytes = s.as_bytes();
    if bytes.len() > 0 && starts_name(bytes[0]) {
        Some(s.split_at(1 + name_len(bytes.split_at(1).1)))
    } else {
        None
    }
}

/// Returns an identifier that is not a literal word, and what follows it.
#[tactic(auto, unfolding(crate::specs::steps::Steps::name))]
pub(crate) fn name(s: &str) -> Option<(&str, &str)>
    ensures value { Splits result (read.name s.now) }
    ensures shorter { IfSome result (λ x. length x.1.now < length s.now) }
{
    let (word, rest) = identifier(s)?;
    match literal_word(word) {
        Some(_) => None,
        None => Some((word, rest)),
    }
}

/// Returns the number of name bytes at the front. A dash counts only if a word byte follows it.
#[tactic(auto, using(crate::proofs::TextLemmas::name_len_turn, crate::proofs::TextLemmas::name_len_end))]
fn name_len(bytes: &[u8]) -> usize
    ensures len { result ≡ read.name_len bytes.now }
    ensures within { result ≤ length bytes.now }
{
    'bytes: for (at, byte) in bytes.iter().enumerate() {
        if !(is_word(*byte) || (*byte == b'-' && is_word(byte_at(bytes, at + 1)))) {
            return at;
        }
    }
    bytes.len()
}
