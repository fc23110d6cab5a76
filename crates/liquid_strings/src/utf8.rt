//! Bytes as a string.
ghost use Rattle.std.specs.Prelude.{◌≡◌, option_map, string_bytes};
ghost use Rattle.liquid_strings.specs.meaning.Utf8.{text_of_bytes};

/// Returns the bytes as a string, if they are UTF-8.
pub fn text_of_bytes(bytes: Vec<u8>) -> Option<String>
    ensures { option_map string_bytes result ≡ text_of_bytes bytes.items }
{
    match String::from_utf8(bytes) {
        Ok(text) => Some(text),
        Err(_) => None,
    }
}
