//! Texts that are as Jekyll's authors write them, as they are read.
ghost use Rattle.std.specs.Prelude.{◌≡◌, map, IfOk};
ghost use Rattle.liquid_pages.specs.meaning.Shown.{bytes_of_partial};
ghost use Rattle.liquid_c.specs.meaning.Jekyll.{partial_as_read, text_as_read};
ghost use Rattle.liquid_c.specs.steps.Jekyll.{partial_held};

use crate::page::Page;
use jekyll_source::jekyll_text;
use liquid_pages::PartialBytes;
use std::alloc::{AllocError, Global};
use std::str::from_utf8;

/// A partial, with its text as it is read.
#[derive(Drop)]
pub(crate) struct ReadPartial<'a> {
    pub(crate) name: &'a [u8],
    pub(crate) text: Vec<u8>,
}

/// The template and the partials of a page, as they are read.
#[derive(Drop)]
pub(crate) struct ReadTexts<'a> {
    pub(crate) text: Vec<u8>,
    pub(crate) partials: Vec<ReadPartial<'a>>,
}

/// Returns the texts of a page, as they are read.
pub(crate) fn read_texts<'a>(alloc: Global, page: &Page<'a>) -> Result<ReadTexts<'a>, AllocError>
    ensures text { IfOk result (λ texts. texts.text.items ≡ text_as_read page.now.text.now) }
    ensures partials { IfOk result (λ texts. map partial_held texts.partials.items
        ≡ map partial_as_read (map bytes_of_partial page.now.partials.now)) }
{
    Ok(ReadTexts {
        text: read_text(alloc, page.text)?,
        partials: read_partials(alloc, page.partials)?,
    })
}

/// Returns the bytes of a text as it is read. Bytes that are not UTF-8 stay as they are.
fn read_text(alloc: Global, bytes: &[u8]) -> Result<Vec<u8>, AllocError>
    ensures { IfOk result (λ read. read.items ≡ text_as_read bytes.now) }
{
    match from_utf8(bytes) {
        Ok(text) => Ok(jekyll_text(alloc, text)?.into_bytes()),
        Err(_) => Vec::from_slice(alloc, bytes),
    }
}

/// Returns the partials with their texts as they are read.
fn read_partials<'a>(
    alloc: Global,
    partials: &[PartialBytes<'a>],
) -> Result<Vec<ReadPartial<'a>>, AllocError>
    ensures { IfOk result (λ read. map partial_held read.items ≡ map partial_as_read (map bytes_of_partial partials.now)) }
{
    let mut read = Vec::with_capacity(alloc, partials.len())?;
    for partial in partials {
        read.push(ReadPartial {
            name: partial.name,
            text: read_text(alloc, partial.text)?,
        })?;
    }
    Ok(read)
}

/// Returns the bytes of these partials.
pub(crate) fn lend_partials<'t>(
    alloc: Global,
    partials: &'t [ReadPartial<'_>],
) -> Result<Vec<PartialBytes<'t>>, AllocError>
    ensures { IfOk result (λ lent. map bytes_of_partial lent.items ≡ map partial_held partials.now) }
{
    let mut lent = Vec::with_capacity(alloc, partials.len())?;
    for partial in partials {
        lent.push(PartialBytes {
            name: partial.name,
            text: partial.text.as_slice(),
        })?;
    }
    Ok(lent)
}
