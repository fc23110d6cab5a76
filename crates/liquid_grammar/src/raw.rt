//! Raw text.
ghost use Rattle.std.specs.Prelude.{◌≡◌, ◌-◌, ◌<◌, ◌≤◌, length, IfSome};
ghost use Rattle.liquid_grammar.specs.meaning.Bytes.{open_brace};
ghost use Rattle.liquid_grammar.specs.steps.Steps as read;
ghost use Rattle.liquid_grammar.specs.steps.Steps.{EndsRaw};
ghost use Rattle.memchr.specs.Find.{IsFirst, Passes, is_byte};

use crate::bytes::{byte_at, is_white};
use memchr::memchr;

/// Returns the number of bytes before the first place where an opener begins, or of all bytes.
///
/// The bytes between two open braces are passed once, by vectors, and those of the whitespace before a dashed opener
/// once more.
pub(crate) fn raw_len(s: &str) -> usize
    ensures within { result ≤ length s.now }
    ensures ends { EndsRaw s.now result }
{
    let bytes = s.as_bytes();
    // Most calls follow an element, and an opener often comes next at once.
    if !bytes.is_empty() && begins_braces(bytes, 0) {
        return 0;
    }
    let mut from = 0;
    'braces: while let Some(brace) = next_brace(bytes, from) {
        if begins_braces(bytes, brace) {
            // Whitespace before an opener belongs to the opener if a dash follows the braces.
            if byte_at(bytes, brace + 2) == b'-' {
                return white_start(bytes, from, brace);
            }
            return brace;
        }
        from = brace + 1;
    }
    bytes.len()
}

/// Returns the first `{` at this place or after it.
fn next_brace(bytes: &[u8], from: usize) -> Option<usize>
    requires { from ≤ length bytes.now }
    ensures first { IsFirst (Passes (is_byte open_brace) bytes.now) from (length bytes.now) result }
    ensures within { IfSome result (λ brace. brace < length bytes.now) }
{
    let brace = memchr(b'{', bytes.split_at(from).1)?;
    Some(from + brace)
}

/// Returns where the whitespace that ends at `end` begins, not before `from`.
fn white_start(bytes: &[u8], from: usize, end: usize) -> usize
    requires order { from ≤ end }
    requires fits { end ≤ length bytes.now }
    ensures start { result ≡ read.white_start bytes.now from (end - from) }
    ensures within { result ≤ end }
{
    let mut start = end;
    'white: while start > from && is_white(bytes[start - 1]) {
        start -= 1;
    }
    start
}

fn begins_braces(bytes: &[u8], at: usize) -> bool
    requires { at < length bytes.now }
    ensures { result ≡ read.begins_braces bytes.now at }
{
    let next = byte_at(bytes, at + 1);
    bytes[at] == b'{' && (next == b'{' || next == b'%')
}
