//! Literals: words, texts and numbers.
ghost use Rattle.std.specs.Prelude.{◌≡◌, ◌<◌, ◌≤◌, ◌==◌, false, true, not, length, Some, IfSome, MatchOption};
ghost use Rattle.std.specs.List.{prefix_len};
ghost use Rattle.std.specs.Char.{is_ascii_digit};
ghost use Rattle.liquid_grammar.specs.meaning.Grammar.{is_literal_word};
ghost use Rattle.liquid_grammar.specs.meaning.Literals as spec;
ghost use Rattle.liquid_grammar.specs.meaning.Meanings.{FindsLiteral, literal_of};
ghost use Rattle.liquid_grammar.specs.steps.Steps.{Splits, Leaves};
ghost use Rattle.liquid_grammar.specs.steps.TokenSteps as read;

use crate::bytes::{byte_at, starts_name};
use crate::text::{before, eat};

/// A literal. A number is kept as its text, with its sign.
#[derive(Clone, Copy, Debug, PartialEq, Eq)]
pub enum Literal<'a> {
    Nil,
    Empty,
    Blank,
    Truth(bool),
    Text(&'a str),
    Integer(&'a str),
    Decimal(&'a str),
}

/// Returns the text or the number that the text begins with, and what follows it. The first byte decides which of them
/// it can be.
#[inline(always)]
pub(crate) fn text_or_number(s: &str) -> Option<(Literal, &str)>
    ensures value { FindsLiteral result (read.text_or_number s.now) }
    ensures shorter { IfSome result (λ x. length x.1.now < length s.now) }
{
    let first = byte_at(s.as_bytes(), 0);
    if first == b'\'' || first == b'"' {
        let (text, rest) = read_quoted(s, first)?;
        Some((Literal::Text(text), rest))
    } else {
        number(s)
    }
}

/// Returns the literal that the word means, if it is a literal word. Its first byte leaves at most two of them.
#[inline(always)]
pub(crate) fn literal_word(word: &str) -> Option<Literal<'_>>
    ensures { MatchOption result (is_literal_word word.now ≡ false)
        (λ l. (is_literal_word word.now ≡ true) × (literal_of l ≡ spec.word_literal word.now)) }
{
    match byte_at(word.as_bytes(), 0) {
        b'n' if word == "nil" || word == "null" => Some(Literal::Nil),
        b'e' if word == "empty" => Some(Literal::Empty),
        b'b' if word == "blank" => Some(Literal::Blank),
        b't' if word == "true" => Some(Literal::Truth(true)),
        b'f' if word == "false" => Some(Literal::Truth(false)),
        _ => None,
    }
}

/// Returns the text between two quotes.
#[tactic(auto, unfolding(crate::specs::steps::TokenSteps::quoted))]
fn read_quoted(s: &str, quote: u8) -> Option<(&str, &str)>
    requires { quote < 128 }
    ensures value { Splits result (read.quoted quote s.now) }
    ensures shorter { IfSome result (λ x. length x.1.now < length s.now) }
{
    let inside = eat(s, quote)?;
    let (text, rest) = inside.split_at(quoted_len(inside.as_bytes(), quote));
    Some((text, eat(rest, quote)?))
}

fn quoted_len(bytes: &[u8], quote: u8) -> usize
    ensures len { result ≡ prefix_len (λ b. not (b == quote)) bytes.now }
    ensures within { result ≤ length bytes.now }
{
    bytes.iter().take_while(|b| **b != quote).count()
}

#[tactic(auto, unfolding(crate::specs::steps::TokenSteps::number))]
fn number(s: &str) -> Option<(Literal, &str)>
    ensures value { FindsLiteral result (read.number s.now) }
    ensures shorter { IfSome result (λ x. length x.1.now < length s.now) }
{
    let (literal, rest) = longest_number(s)?;
    if starts_name(byte_at(rest.as_bytes(), 0)) {
        None
    } else {
        Some((literal, rest))
    }
}

/// Returns the integer that the text begins with, with the fraction after it if there is one.
fn longest_number(s: &str) -> Option<(Literal, &str)>
    ensures value { FindsLiteral result (read.longest_number s.now) }
    ensures shorter { IfSome result (λ x. length x.1.now < length s.now) }
{
    let (text, end) = whole(s)?;
    match fraction(end) {
        Some(rest) => Some((Literal::Decimal(before(s, rest)), rest)),
        None => Some((Literal::Integer(text), end)),
    }
}

/// Returns what follows `.` and digits.
fn fraction(s: &str) -> Option<&str>
    ensures value { Leaves result (read.fraction s.now) }
    ensures shorter { IfSome result (λ rest. length rest.now < length s.now) }
{
    Some(digits(eat(s, b'.')?)?.1)
}

#[tactic(auto, unfolding(crate::specs::steps::TokenSteps::whole))]
fn whole(s: &str) -> Option<(&str, &str)>
    ensures value { Splits result (read.whole s.now) }
    ensures shorter { IfSome result (λ x. length x.1.now < length s.now) }
{
    let (_, rest) = digits(skip_sign(s))?;
    Some((before(s, rest), rest))
}

#[tactic(auto, unfolding(crate::specs::steps::TokenSteps::sign))]
fn skip_sign(s: &str) -> &str
    ensures value { Leaves (Some result) (read.sign s.now) }
    ensures shorter { length result.now ≤ length s.now }
{
    match eat(s, b'+') {
        Some(rest) => rest,
        None => eat(s, b'-').unwrap_or(s),
    }
}

#[tactic(auto, unfolding(crate::specs::steps::TokenSteps::digits))]
fn digits(s: &str) -> Option<(&str, &str)>
    ensures value { Splits result (read.digits s.now) }
    ensures shorter { IfSome result (λ x. length x.1.now < length s.now) }
{
    let len = digit_len(s.as_bytes());
    if len == 0 {
        None
    } else {
        Some(s.split_at(len))
    }
}

fn digit_len(bytes: &[u8]) -> usize
    ensures len { result ≡ prefix_len is_ascii_digit bytes.now }
    ensures within { result ≤ length bytes.now }
{
    bytes.iter().take_while(|b| b.is_ascii_digit()).count()
}
