//! The texts of a page, from bytes.
ghost use Rattle.std.specs.Prelude.{◌≡◌, map, IfErr, OnOk};
ghost use Rattle.std.specs.FinMap.{empty, insert};
ghost use Rattle.liquid_runtime.specs.meaning.Maps.{names_of};
ghost use Rattle.liquid_pages.specs.declared.fault.PageFault.TheVariants.{NoText};
ghost use Rattle.liquid_pages.specs.meaning.Faults.{Returns, text_read};
ghost use Rattle.liquid_pages.specs.meaning.Shown.{bytes_of_partial, names_read, partials_read};

use crate::fault::{PageFault, PageText};
use crate::globals::globals_of;
use liquid_error::Error;
use liquid_partials::InMemorySource;
use liquid_value::Object;
use std::alloc::{AllocError, Global};
use std::str::from_utf8;

/// A partial: its name and its text.
#[repr(C)]
#[derive(Clone, Copy)]
pub struct PartialBytes<'a> {
    pub name: &'a [u8],
    pub text: &'a [u8],
}

/// Returns these bytes as a text.
pub fn text_of(bytes: &[u8], which: PageText) -> Result<&str, PageFault>
    ensures text { Returns (λ text. text.now) result (text_read which bytes.now) }
    ensures fault { IfErr result (λ fault. fault ≡ NoText which) }
{
    match from_utf8(bytes) {
        Ok(text) => Ok(text),
        Err(_) => Err(PageFault::NoText(which)),
    }
}

/// Returns the globals of these bytes, which must be a text of JSON, with decimals or without.
pub fn globals_in(alloc: Global, decimals: bool, bytes: &[u8]) -> Result<Object, PageFault>
    ensures { Returns names_of result (names_read decimals bytes.now) }
{
    globals_of(alloc, decimals, text_of(bytes, PageText::Globals)?)
}

/// Returns a source of these partials. Of two with one name the later is kept.
pub fn partials_in(
    alloc: Global,
    partials: &[PartialBytes<'_>],
) -> Result<InMemorySource, PageFault>
    ensures { Returns (λ source. source) result (partials_read 0 (map bytes_of_partial partials.now) empty) }
{
    let mut source = InMemorySource::new(alloc);
    for (place, partial) in partials.iter().enumerate() {
        let name = text_of(partial.name, PageText::PartialName(place))?;
        let text = text_of(partial.text, PageText::PartialText(place))?;
        if put(alloc, &mut source, name, text).is_err() {
            return Err(PageFault::Refused(Error::Memory));
        }
    }
    Ok(source)
}

/// Adds a copy of the text under the name, in place of any other there.
fn put(alloc: Global, source: &mut InMemorySource, name: &str, text: &str) -> Result<(), AllocError>
    ensures { OnOk result (source.new ≡ insert source.old name.now text.now) }
{
    source.add(
        String::from_str(alloc, name)?,
        String::from_str(alloc, text)?,
    )?;
    Ok(())
}
