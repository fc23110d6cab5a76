//! Integers at the start of a string.
ghost use Rattle.std.specs.Prelude.{◌≡◌, ◌≤◌, length};
ghost use Rattle.std.specs.List.{prefix_len};
ghost use Rattle.liquid_jekyll.specs.meaning.text.Numerals as Spec;

use crate::text::spaces::without_leading;

/// Returns the sign and the digits with which a string begins after whitespace, or the empty string if there is no digit.
pub fn numeral(text: &str) -> &str
    ensures { result.now ≡ Spec.numeral text.now }
{
    numeral_at(without_leading(text))
}

/// Returns the sign and the digits with which a string begins, or the empty string if there is no digit.
fn numeral_at(text: &str) -> &str
    ensures { result.now ≡ Spec.numeral_at text.now }
{
    let bytes = text.as_bytes();
    let sign = sign_length(bytes);
    match digit_count(&bytes[sign..]) {
        0 => "",
        digits => &text[..sign + digits],
    }
}

fn digit_count(text: &[u8]) -> usize
    ensures value { result ≡ prefix_len Spec.is_digit text.now }
    ensures within { result ≤ length text.now }
{
    text.iter().take_while(|byte| byte.is_ascii_digit()).count()
}

fn sign_length(text: &[u8]) -> usize
    ensures value { result ≡ Spec.sign_length text.now }
    ensures within { result ≤ length text.now }
{
    match text {
        [b'-' | b'+', ..] => 1,
        _ => 0,
    }
}
