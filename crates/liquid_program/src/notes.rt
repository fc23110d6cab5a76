//! What `--explain` adds to an error of a template.
ghost use Rattle.std.specs.Prelude.{◌≡◌, None};
ghost use Rattle.liquid_program.specs.meaning.Requests.{reported};
ghost use Rattle.liquid_program.specs.meaning.Status.{fault_status};

mod meant;

use crate::command::Options;
use crate::fault::Fault;
use crate::marks::{Marking, marking_of};
use crate::message::Message;
use crate::rendering::{plain_language, standard_language};
use crate::similar::{offer_bound, offer_pairs};
use liquid_core::parser::{Language, ParseBlock, ParseFilter, TagReflection};
use liquid_core::partials::{InMemorySource, PartialSource};
use liquid_core::{Error, Place};
use liquid_error::Spot;
use liquid_explain::{Mark, NearNames, element_at, front_of, text_from, write_snippet};
use liquid_grammar::line_and_column;
use liquid_pages::PageLimit;
use std::alloc::{AllocError, Global};

/// How many positions are listed.
const MOST_POSITIONS: usize = 5;
/// How many are listed before the last one, if there are more.
const FIRST_POSITIONS: usize = 3;

/// What a page is made of, as far as an error is explained by it: the path and the text of the template, how many lines of
/// its file come before it, the text of its globals, and the partials; and the limit that stopped it, if one did.
#[derive(Clone, Copy)]
pub(crate) struct Sources<'s> {
    pub(crate) path: &'s str,
    pub(crate) template: &'s str,
    pub(crate) lines_before: usize,
    pub(crate) json: &'s str,
    pub(crate) partials: Option<&'s InMemorySource>,
    pub(crate) stopped_by: Option<PageLimit>,
}

impl<'s> Sources<'s> {
    pub(crate) fn new(
        path: &'s str,
        template: &'s str,
        json: &'s str,
        partials: Option<&'s InMemorySource>,
        stopped_by: Option<PageLimit>,
    ) -> Sources<'s> {
        Sources {
            path,
            template,
            lines_before: 0,
            json,
            partials,
            stopped_by,
        }
    }
}

/// Returns an error as `--explain` prints it, with the lines that explain it.
pub(crate) fn explain_error(
    alloc: Global,
    options: Options,
    sources: Sources<'_>,
    error: &Error,
) -> Result<String, AllocError> {
    let mut shown = format!(in alloc; "{error}")?;
    let notes = collect_notes(alloc, options, sources, error)?;
    for line in notes.as_str().lines() {
        shown.push_str("  ")?;
        shown.push_str(line)?;
        shown.push('\n')?;
    }
    Ok(shown)
}

/// Returns the fault of a template with this error, explained if the options say so.
pub(crate) fn refuse<'w>(
    alloc: Global,
    options: Options,
    sources: Sources<'_>,
    error: Error,
) -> Fault<'w>
    ensures status { fault_status result ≡ 1 }
    ensures trouble { reported result ≡ None }
{
    if !options.explain || error.is_memory() {
        return Fault::Refused(error);
    }
    match collect_notes(alloc, options, sources, &error) {
        Ok(notes) => Fault::Explained(error, notes),
        Err(_) => Fault::Refused(error),
    }
}

/// Returns the lines that explain an error.
fn collect_notes(
    alloc: Global,
    options: Options,
    sources: Sources<'_>,
    error: &Error,
) -> Result<String, AllocError> {
    let shown = format!(in alloc; "{error}")?;
    let message = Message::new(shown.as_str());
    let notes = Notes {
        alloc,
        options,
        sources,
        message,
        lines: String::new(alloc),
        last_lines: String::new(alloc),
        names: NearNames::new(alloc, message.requested_name())?,
    };
    if options.standard {
        let language = standard_language(alloc)?;
        notes.collect(error, &language)
    } else {
        let language = plain_language(alloc)?;
        notes.collect(error, &language)
    }
}

/// The lines that explain an error, as far as they are known.
#[derive(Drop)]
struct Notes<'s> {
    alloc: Global,
    options: Options,
    sources: Sources<'s>,
    message: Message<'s>,
    lines: String,
    /// Those that follow the positions.
    last_lines: String,
    names: NearNames,
}

impl Notes<'_> {
    /// Returns the lines that explain the error: its positions from the inside out, and what may help.
    fn collect<F: ParseFilter, T: TagReflection + Drop, B: ParseBlock<F>>(
        self,
        error: &Error,
        language: &Language<F, T, B>,
    ) -> Result<String, AllocError> {
        let alloc = self.alloc;
        let mut notes = self;
        notes.add_limit()?;
        let here = error.here();
        let inside = error.sites().len();
        let count = if here.is_some() {
            inside.saturating_add(1)
        } else {
            inside
        };
        notes.add_sites(error, count, language)?;
        if let Some(spot) = here {
            let template = notes.sources.template;
            notes.add_position(inside, None, template, spot, language)?;
        }
        notes.add_names(language)?;
        if here.is_none() {
            let path = notes.sources.path;
            let line = format!(in alloc; "rendering {path}\n")?;
            notes.last_lines.push_str(line.as_str())?;
        }
        let Notes {
            mut lines,
            last_lines,
            names,
            ..
        } = notes;
        drop(names);
        lines.push_str(last_lines.as_str())?;
        Ok(lines)
    }

    /// Adds which limit stopped the page.
    fn add_limit(&mut self) -> Result<(), AllocError> {
        let (word, number) = match self.sources.stopped_by {
            Some(PageLimit::Turns) => ("--turns", self.options.max_turns),
            Some(PageLimit::Bytes) => ("--bytes", self.options.max_bytes),
            None => return Ok(()),
        };
        match number {
            Some(number) => self.lines.push_str(format!(in self.alloc;
                "the limit is {word} {number}\n"
            )?.as_str()),
            None => Ok(()),
        }
    }

    /// Adds the positions in the texts of partials, of so many positions in all.
    fn add_sites<F: ParseFilter, T: TagReflection + Drop, B: ParseBlock<F>>(
        &mut self,
        error: &Error,
        count: usize,
        language: &Language<F, T, B>,
    ) -> Result<(), AllocError> {
        for (number, site) in error.sites().iter().enumerate() {
            if is_listed(number, count) {
                self.add_partial(number, site.partial(), site.spot(), language)?;
            } else if number == FIRST_POSITIONS {
                let more = count.saturating_sub(FIRST_POSITIONS).saturating_sub(1);
                self.lines.push_str(format!(in self.alloc; ".. ({more} more calls)\n")?.as_str())?;
            }
        }
        Ok(())
    }

    /// Adds a position in the text of a partial.
    fn add_partial<F: ParseFilter, T: TagReflection + Drop, B: ParseBlock<F>>(
        &mut self,
        number: usize,
        name: &str,
        spot: Spot,
        language: &Language<F, T, B>,
    ) -> Result<(), AllocError> {
        if let Some(partials) = self.sources.partials {
            if let Some(text) = partials.try_get(self.alloc, name)? {
                self.add_position(number, Some(name), text.as_str(), spot, language)?;
            }
        }
        Ok(())
    }

    /// Adds a position in a text: that of the error, if it is the first, and otherwise that of a call.
    fn add_position<F: ParseFilter, T: TagReflection + Drop, B: ParseBlock<F>>(
        &mut self,
        number: usize,
        partial: Option<&str>,
        text: &str,
        spot: Spot,
        language: &Language<F, T, B>,
    ) -> Result<(), AllocError> {
        let Some(place) = offset_of(text, spot) else {
            return Ok(());
        };
        if number == 0 {
            return self.add_error(partial, text, place, language);
        }
        let _ = self.add_place("called at", partial, text, place)?;
        if number == 1 && self.message.is("Unknown variable") {
            if let Some(tag) = element_at(text, place) {
                offer_pairs(self.alloc, tag, &mut self.names)?;
            }
        }
        Ok(())
    }

    /// Adds the position of the error, with its line and what is known of it.
    fn add_error<F: ParseFilter, T: TagReflection + Drop, B: ParseBlock<F>>(
        &mut self,
        partial: Option<&str>,
        text: &str,
        place: usize,
        language: &Language<F, T, B>,
    ) -> Result<(), AllocError> {
        let Marking { span, label, hint } = marking_of(
            self.alloc,
            text,
            place,
            self.message,
            language,
        )?;
        let line = self.add_place("at", partial, text, span.place)?;
        if !self.message.is("Unclosed block.") {
            let mark = Mark { span, line };
            write_snippet(self.alloc, &mut self.lines, text, mark, label.as_str())?;
        }
        if let Some(hint) = hint {
            self.lines.push_str(hint)?;
            self.lines.push('\n')?;
        }
        if self.message.is("Unknown variable") {
            offer_bound(self.alloc, text, &mut self.names)?;
        }
        self.add_plugins(text, place, language)
    }

    /// Adds a line with a place of a text, and returns the number of its line.
    fn add_place(
        &mut self,
        word: &str,
        partial: Option<&str>,
        text: &str,
        place: usize,
    ) -> Result<usize, AllocError> {
        let (line, column) = line_and_column(text.get(..place).unwrap_or(""));
        let (kind, name, line) = match partial {
            Some(name) => ("partial ", name, line),
            None => (
                "",
                self.sources.path,
                line.saturating_add(self.sources.lines_before),
            ),
        };
        let added = format!(in self.alloc; "{word} {kind}{name}, line {line}, column {column}\n")?;
        self.lines.push_str(added.as_str())?;
        Ok(line)
    }
}

/// Returns `true` if a position is listed. Of more than five the first ones and the last one are.
fn is_listed(number: usize, count: usize) -> bool {
    count <= MOST_POSITIONS || number < FIRST_POSITIONS || number.saturating_add(1) == count
}

/// Returns how many bytes of a text come before a spot.
fn offset_of(text: &str, spot: Spot) -> Option<usize> {
    match spot {
        Spot::Left(left) => Some(front_of(text, left as usize)?.len()),
        Spot::Place(Place { line, column }) => text
            .len()
            .checked_sub(text_from(text, line, column)?.len()),
    }
}
