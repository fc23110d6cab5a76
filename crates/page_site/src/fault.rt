//! Why a page is not made.
ghost use Rattle.std.specs.Prelude.{◌≡◌, ◌≢◌};
ghost use Rattle.page_site.specs.declared.fault.PageFault.TheVariants.{Memory};
ghost use Rattle.page_site.specs.declared.fault.SiteFault.TheVariants.{Page};

use crate::front::FrontFault;
use std::alloc::{AllocError, AllocFailed};

/// Why a page is not made.
#[derive(Debug, Drop, thiserror::Error)]
pub enum PageFault {
    /// Memory ran out.
    #[error("out of memory")]
    Memory,
    /// No partial is the layout of this name.
    #[error("there is no layout '{0}'")]
    NoLayout(String),
    /// The page is within the layout of this name already.
    #[error("the layout '{0}' is within itself")]
    LayoutAgain(String),
    /// The front matter of the text at this path can't be read.
    #[error("{0}: {1}")]
    BadFront(String, FrontFault),
    /// A text can't be rendered, as this message says.
    #[error("{0}")]
    Unrendered(String),
}

impl From<AllocError> for PageFault {
    ghost from_gives = { λ e r. r ≡ Memory };

    fn from(_refused: AllocError) -> PageFault {
        PageFault::Memory
    }
}

impl<T: Drop> From<AllocFailed<T>> for PageFault {
    ghost from_gives = { λ e r. r ≡ Memory };

    fn from(_refused: AllocFailed<T>) -> PageFault {
        PageFault::Memory
    }
}

/// Why a file of a site is not written.
#[derive(Debug, Drop, thiserror::Error)]
pub enum SiteFault {
    /// The file at this path can't be read.
    #[error("cannot read {0}")]
    Unreadable(String),
    /// The template at this path is not UTF-8.
    #[error("cannot read {0}: it is not UTF-8")]
    NoText(String),
    /// The page is not made.
    #[error("{0}")]
    Page(PageFault),
    /// The file at this path can't be written.
    #[error("cannot write {0}")]
    Unwritable(String),
    /// The file at this path is not written, since its page is made from it.
    #[error("cannot write {0}: the page is made from it")]
    OwnFile(String),
}

impl From<AllocError> for SiteFault {
    ghost from_gives = { λ e r. r ≡ Page Memory };

    fn from(_refused: AllocError) -> SiteFault {
        SiteFault::Page(PageFault::Memory)
    }
}

impl SiteFault {
    /// Returns the exit status for the fault: 3 if a file can't be read as what it should be, and otherwise 1.
    pub fn status(&self) -> u8
        ensures { result ≢ 0 }
    {
        match self {
            SiteFault::Unreadable(_)
            | SiteFault::NoText(_)
            | SiteFault::Page(PageFault::BadFront(..)) => 3,
            SiteFault::Page(_) | SiteFault::Unwritable(_) | SiteFault::OwnFile(_) => 1,
        }
    }
}
