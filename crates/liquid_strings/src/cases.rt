//! Upper and lower case, character by character.
ghost use Rattle.std.specs.Prelude.{◌≡◌, ◌++◌, IfOk, OnOk, chars, encode_utf8_all, flat_map, string_bytes};
ghost use Rattle.std.specs.Char.Iter.{case_mapping_chars, case_mapping_first, case_mapping_second, case_mapping_third};
ghost use Rattle.std.specs.Char.Unicode.ToLowercase.{to_lowercase};
ghost use Rattle.liquid_strings.specs.meaning.Cases.{capitalized, lowercased};

use std::alloc::{AllocError, Global};

/// Returns the string with each character in lower case. A sigma at the end of a word is treated as any other.
pub fn to_lowercase(alloc: Global, text: &str) -> Result<String, AllocError>
    ensures { IfOk result (λ t. string_bytes t ≡ lowercased text.now) }
{
    let mut lowercased = String::with_capacity(alloc, text.len())?;
    push_lowercase(&mut lowercased, text)?;
    Ok(lowercased)
}

/// Returns the string with its first character in upper case and the others in lower case.
pub fn capitalize(alloc: Global, text: &str) -> Result<String, AllocError>
    ensures { IfOk result (λ t. string_bytes t ≡ capitalized text.now) }
{
    let mut capitalized = String::with_capacity(alloc, text.len())?;
    let mut characters = text.chars();
    if let Some(first) = characters.next() {
        for character in first.to_uppercase() {
            capitalized.push(character)?;
        }
        push_lowercase(&mut capitalized, characters.as_str())?;
    }
    Ok(capitalized)
}

/// Appends the string with each character in lower case.
fn push_lowercase(to: &mut String, text: &str) -> Result<(), AllocError>
    ensures { OnOk result (string_bytes to.new ≡ string_bytes to.old ++ lowercased text.now) }
{
    for character in text.chars() {
        for lower in character.to_lowercase() {
            to.push(lower)?;
        }
    }
    Ok(())
}
