//! Characters that mean something in XML, escaped.
ghost use Rattle.std.specs.Prelude.{◌≡◌, option_map, string_bytes, IfOk};
ghost use Rattle.liquid_jekyll.specs.meaning.text.Escape as Spec;

use std::alloc::{AllocError, Global};

/// Returns the text with each of `&`, `<`, `>`, `"` and `'` as its entity in XML.
pub fn xml_escape(alloc: Global, text: &str) -> Result<String, AllocError>
    ensures { IfOk result (λ t. string_bytes t ≡ Spec.xml_escaped text.now) }
{
    let mut escaped = String::with_capacity(alloc, text.len())?;
    let mut kept = 0;
    for (at, byte) in text.as_bytes().iter().enumerate() {
        if let Some(entity) = xml_entity(*byte) {
            escaped.push_str(&text[kept..at])?;
            escaped.push_str(entity)?;
            kept = at + 1;
        }
    }
    escaped.push_str(&text[kept..])?;
    Ok(escaped)
}

fn xml_entity(byte: u8) -> Option<&'static str>
    ensures { option_map (λ e. e.now) result ≡ Spec.xml_entity byte }
{
    match byte {
        b'&' => Some("&amp;"),
        b'<' => Some("&lt;"),
        b'>' => Some("&gt;"),
        b'"' => Some("&quot;"),
        b'\'' => Some("&apos;"),
        _ => None,
    }
}
