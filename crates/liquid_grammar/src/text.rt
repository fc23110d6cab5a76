//! Steps over a text.
ghost use Rattle.std.specs.Prelude.{◌≡◌, ◌-◌, ◌<◌, ◌≤◌, ◌++◌, length, take, Some, IfSome};
ghost use Rattle.std.specs.List.{prefix_len};
ghost use Rattle.liquid_grammar.specs.meaning.Bytes as class;
ghost use Rattle.liquid_grammar.specs.steps.Steps as read;
ghost use Rattle.liquid_grammar.specs.steps.Steps.{Splits, Leaves};

use crate::bytes::is_white;

/// Returns what follows this byte, if the text begins with it.
#[inline]
pub(crate) fn eat(s: &str, byte: u8) -> Option<&str>
    requires { byte < 128 }
    ensures value { Leaves result (read.byte byte s.now) }
    ensures shorter { IfSome result (λ rest. length rest.now < length s.now) }
{
    let bytes = s.as_bytes();
    if bytes.len() > 0 && bytes[0] == byte {
        Some(&s[1..])
    } else {
        None
    }
}

/// Returns the whitespace that the text begins with, and what follows it.
#[inline]
#[tactic(auto, unfolding(crate::specs::steps::Steps::white))]
pub(crate) fn split_white(s: &str) -> (&str, &str)
    ensures value { Splits (Some result) (read.white s.now) }
    ensures shorter { length result.1.now ≤ length s.now }
{
    s.split_at(white_len(s.as_bytes()))
}

/// Returns what follows whitespace.
#[inline]
pub(crate) fn skip_white(s: &str) -> &str
    ensures value { Leaves (Some result) (read.white s.now) }
    ensures shorter { length result.now ≤ length s.now }
{
    split_white(s).1
}

/// Returns the beginning of the text before this end of it.
#[inline]
pub(crate) fn before<'a>(s: &'a str, rest: &str) -> &'a str
    requires within { length rest.now ≤ length s.now }
    requires ends { s.now ≡ take (length s.now - length rest.now) s.now ++ rest.now }
    ensures { result.now ≡ take (length s.now - length rest.now) s.now }
{
    &s[..s.len() - rest.len()]
}

fn white_len(bytes: &[u8]) -> usize
    ensures len { result ≡ prefix_len class.is_white bytes.now }
    ensures within { result ≤ length bytes.now }
{
    bytes.iter().take_while(|b| is_white(**b)).count()
}
