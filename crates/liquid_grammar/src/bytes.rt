//! The classes of bytes of the grammar.
ghost use Rattle.std.specs.Prelude.{◌≡◌, slice_index};
ghost use Rattle.liquid_grammar.specs.meaning.Bytes as spec;
ghost use Rattle.liquid_grammar.specs.steps.TokenSteps as read;

// 1 at each letter, digit and `_`
#[rattlefmt::skip]
static WORD_BYTES: [u8; 256] = [
    0, 0, 0, 0, 0, 0, 0, 0, 0, 0, 0, 0, 0, 0, 0, 0, 0, 0, 0, 0, 0, 0, 0, 0, 0, 0, 0, 0, 0, 0, 0, 0,
    0, 0, 0, 0, 0, 0, 0, 0, 0, 0, 0, 0, 0, 0, 0, 0, 1, 1, 1, 1, 1, 1, 1, 1, 1, 1, 0, 0, 0, 0, 0, 0,
    0, 1, 1, 1, 1, 1, 1, 1, 1, 1, 1, 1, 1, 1, 1, 1, 1, 1, 1, 1, 1, 1, 1, 1, 1, 1, 1, 0, 0, 0, 0, 1,
    0, 1, 1, 1, 1, 1, 1, 1, 1, 1, 1, 1, 1, 1, 1, 1, 1, 1, 1, 1, 1, 1, 1, 1, 1, 1, 1, 0, 0, 0, 0, 0,
    0, 0, 0, 0, 0, 0, 0, 0, 0, 0, 0, 0, 0, 0, 0, 0, 0, 0, 0, 0, 0, 0, 0, 0, 0, 0, 0, 0, 0, 0, 0, 0,
    0, 0, 0, 0, 0, 0, 0, 0, 0, 0, 0, 0, 0, 0, 0, 0, 0, 0, 0, 0, 0, 0, 0, 0, 0, 0, 0, 0, 0, 0, 0, 0,
    0, 0, 0, 0, 0, 0, 0, 0, 0, 0, 0, 0, 0, 0, 0, 0, 0, 0, 0, 0, 0, 0, 0, 0, 0, 0, 0, 0, 0, 0, 0, 0,
    0, 0, 0, 0, 0, 0, 0, 0, 0, 0, 0, 0, 0, 0, 0, 0, 0, 0, 0, 0, 0, 0, 0, 0, 0, 0, 0, 0, 0, 0, 0, 0,
];

/// Returns the byte at `index`, or 0 past the end.
#[inline]
pub(crate) fn byte_at(bytes: &[u8], index: usize) -> u8
    ensures { result ≡ slice_index bytes.now index }
{
    bytes.get(index).copied().unwrap_or(0)
}

/// Returns `true` for a space, a tab, a carriage return or a line feed.
#[inline]
pub(crate) fn is_white(byte: u8) -> bool
    ensures { result ≡ spec.is_white byte }
{
    byte == b' ' || byte == b'\t' || byte == b'\r' || byte == b'\n'
}

/// Returns `true` for a letter or `_`.
#[inline]
pub(crate) fn starts_name(byte: u8) -> bool
    ensures { result ≡ spec.starts_name byte }
{
    byte.is_ascii_alphabetic() || byte == b'_'
}

/// Returns `true` for a letter, a digit or `_`. This is called for each byte of a name, so the answers are in a table.
#[inline]
pub(crate) fn is_word(byte: u8) -> bool
    ensures { result ≡ spec.is_word byte }
{
    byte_at(&WORD_BYTES, usize::from(byte)) == 1
}

/// Returns `true` if a literal or a name may begin with the byte.
#[inline]
pub(crate) fn begins_value(byte: u8) -> bool
    ensures { result ≡ read.begins_value byte }
{
    starts_name(byte)
        || byte.is_ascii_digit()
        || byte == b'"'
        || byte == b'\''
        || byte == b'-'
        || byte == b'+'
}

/// Returns `true` if an index begins with the byte.
#[inline]
pub(crate) fn begins_index(byte: u8) -> bool
    ensures { result ≡ read.begins_index byte }
{
    byte == b'.' || byte == b'['
}
