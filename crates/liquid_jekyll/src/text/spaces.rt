//! Whitespace at the ends of a string.
ghost use Rattle.std.specs.Prelude.{◌≡◌, ◌≤◌, length, reverse};
ghost use Rattle.std.specs.List.{prefix_len};
ghost use Rattle.liquid_jekyll.specs.meaning.text.CharacterSets.{is_space};
ghost use Rattle.liquid_jekyll.specs.meaning.text.Spaces as Spec;

/// Returns the text without whitespace at its ends.
pub fn strip_spaces(text: &str) -> &str
    ensures { result.now ≡ Spec.stripped text.now }
{
    let text = without_leading(text);
    &text[..text.len() - trailing_length(text.as_bytes())]
}

/// Returns the text without whitespace at its start.
pub(crate) fn without_leading(text: &str) -> &str
    ensures { result.now ≡ Spec.without_leading text.now }
{
    &text[leading_length(text.as_bytes())..]
}

fn leading_length(text: &[u8]) -> usize
    ensures value { result ≡ prefix_len is_space text.now }
    ensures within { result ≤ length text.now }
{
    text.iter().take_while(|byte| is_space_byte(**byte)).count()
}

fn trailing_length(text: &[u8]) -> usize
    ensures value { result ≡ prefix_len is_space (reverse text.now) }
    ensures within { result ≤ length text.now }
{
    text.iter()
        .rev()
        .take_while(|byte| is_space_byte(**byte))
        .count()
}

fn is_space_byte(byte: u8) -> bool
    ensures { result ≡ is_space byte }
{
    byte == b' ' || (b'\t' <= byte && byte <= b'\r')
}
