//! What may be meant: similar names of plug-ins, the block that is open, and its end.

use crate::notes::Notes;
use crate::open_blocks::{OpenBlock, innermost};
use crate::similar::{find_foreign, offer_listed};
use liquid_core::parser::{BlockReflection, Language, ParseBlock, ParseFilter, TagReflection};
use liquid_explain::{Mark, Span, element_at, write_snippet};
use liquid_grammar::line_and_column;
use std::alloc::AllocError;

impl Notes<'_> {
    /// Offers the names of plug-ins that may be meant, and says which block is open where an end is missing, or where one
    /// is too many.
    pub(crate) fn add_plugins<F: ParseFilter, T: TagReflection + Drop, B: ParseBlock<F>>(
        &mut self,
        text: &str,
        place: usize,
        language: &Language<F, T, B>,
    ) -> Result<(), AllocError> {
        if self.message.is("Unknown filter") {
            for name in language.filters.plugin_names() {
                self.names.offer(self.alloc, name)?;
            }
        }
        let is_unclosed = self.message.is("Unclosed block.");
        if !is_unclosed && !self.message.is("Unknown tag.") {
            return Ok(());
        }
        let following = text.get(place..).unwrap_or("");
        let open = innermost(self.alloc, text, following, language)?;
        if !is_unclosed {
            self.offer_tags(&open, language)?;
        }
        if is_unclosed || following.starts_with("end") {
            self.add_block(text, open, is_unclosed)?;
        }
        Ok(())
    }

    /// Offers the names of tags and blocks, and those that the open block has inside it.
    fn offer_tags<F: ParseFilter, T: TagReflection + Drop, B: ParseBlock<F>>(
        &mut self,
        open: &Option<OpenBlock<'_, B>>,
        language: &Language<F, T, B>,
    ) -> Result<(), AllocError> {
        for name in language.tags.plugin_names() {
            self.names.offer(self.alloc, name)?;
        }
        for name in language.blocks.plugin_names() {
            self.names.offer(self.alloc, name)?;
        }
        if let Some(block) = open {
            self.names.offer(self.alloc, block.kind.end_tag())?;
            for name in block.kind.dividers() {
                self.names.offer(self.alloc, *name)?;
            }
        }
        Ok(())
    }

    /// Adds which end is missing, and the beginning of its block.
    fn add_block<B: BlockReflection>(
        &mut self,
        text: &str,
        open: Option<OpenBlock<'_, B>>,
        is_unclosed: bool,
    ) -> Result<(), AllocError> {
        let Some(block) = open else {
            return self.last_lines.push_str("no block is open here\n");
        };
        let end = block.kind.end_tag();
        let place = text.len().saturating_sub(block.from.len());
        let (line, column) = line_and_column(text.get(..place).unwrap_or(""));
        let note = format!(in self.alloc;
            "{{% {end} %}} ends the block that begins at line {line}, column {column}\n"
        )?;
        self.last_lines.push_str(note.as_str())?;
        if is_unclosed {
            let length = match element_at(text, place) {
                Some(element) => element.len(),
                None => 1,
            };
            let mark = Mark {
                span: Span { place, length },
                line,
            };
            write_snippet(
                self.alloc,
                &mut self.last_lines,
                text,
                mark,
                "this block has no end",
            )?;
        }
        Ok(())
    }

    /// Adds the names that may be meant.
    pub(crate) fn add_names<F: ParseFilter, T: TagReflection + Drop, B: ParseBlock<F>>(
        &mut self,
        language: &Language<F, T, B>,
    ) -> Result<(), AllocError> {
        let json = self.sources.json;
        offer_listed(
            self.alloc,
            self.options,
            json,
            self.message,
            &mut self.names,
        )?;
        let names = self.names.join(self.alloc)?;
        let similar = if names.is_empty() {
            find_foreign(self.message, language).unwrap_or("")
        } else {
            names.as_str()
        };
        if !similar.is_empty() {
            let note = format!(in self.alloc; "similar names: {similar}\n")?;
            self.last_lines.push_str(note.as_str())?;
        }
        Ok(())
    }
}
