//! What was rendered of a page.
ghost use Rattle.std.specs.Prelude.{◌≡◌, [], Err};
ghost use Rattle.liquid_pages.specs.meaning.Shown.{ended};

use crate::fault::PageFault;
use crate::gate::PageLimit;
use liquid_error::Error;
use liquid_template::{Sink, TextSink};
use std::alloc::Global;

/// What was rendered of a page, whether it was rendered to its end, and the limit that stopped it, if one did.
#[derive(Drop)]
pub struct Rendered {
    pub output: TextSink,
    pub end: Result<(), PageFault>,
    pub stopped_by: Option<PageLimit>,
}

/// Returns how a page ends when its rendering ends in this way.
pub(crate) fn page_answer(answer: Result<(), Error>) -> Result<(), PageFault>
    ensures { result ≡ ended answer }
{
    match answer {
        Ok(()) => Ok(()),
        Err(error) => Err(PageFault::Refused(error)),
    }
}

/// Returns a page of which nothing was rendered.
pub(crate) fn nothing(alloc: Global, fault: PageFault) -> Rendered
    ensures output { (⟦<TextSink as Sink>⟧.sunk result.output).taken ≡ [] }
    ensures end { result.end ≡ Err fault }
{
    Rendered {
        output: TextSink::new(alloc),
        end: Err(fault),
        stopped_by: None,
    }
}
