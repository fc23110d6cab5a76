//! Why no page is made.
ghost use Rattle.std.specs.Prelude.{◌≡◌, ◌≢◌};
ghost use Rattle.liquid_page.specs.declared.fault.Fault.TheVariants.{Memory};

use page_site::SiteFault;
use std::alloc::{AllocError, AllocFailed};

/// Why no page is made.
#[derive(Debug, Drop, thiserror::Error)]
pub enum Fault {
    /// Memory ran out.
    #[error("out of memory")]
    Memory,
    /// A word can't be what it is given as, as this message says.
    #[error("{0}")]
    Word(String),
    /// A file of data can't be read as what it should be, as this message says.
    #[error("{0}")]
    Data(String),
    /// A file can't be read.
    #[error("{0}")]
    Unread(SiteFault),
    /// The file at this path is not written, since it has data.
    #[error("cannot write {0}: it is a file of data")]
    Own(String),
    /// Two pages would be the file at this path.
    #[error("two pages would be {0}")]
    Clash(String),
}

impl From<AllocError> for Fault {
    ghost from_gives = { λ _ fault. fault ≡ Memory };

    fn from(_refused: AllocError) -> Fault {
        Fault::Memory
    }
}

impl<T: Drop> From<AllocFailed<T>> for Fault {
    ghost from_gives = { λ _ fault. fault ≡ Memory };

    fn from(_refused: AllocFailed<T>) -> Fault {
        Fault::Memory
    }
}

impl From<SiteFault> for Fault {
    ghost use Rattle.liquid_page.specs.declared.fault.Fault.TheVariants.{Unread};

    ghost from_gives = { λ e fault. fault ≡ Unread e };

    fn from(fault: SiteFault) -> Fault {
        Fault::Unread(fault)
    }
}

impl Fault {
    /// Returns the exit status for the fault: 2 for a word, 3 if a file can't be read as what it should be, and otherwise 1.
    pub fn status(&self) -> u8
        ensures { result ≢ 0 }
    {
        match self {
            Fault::Word(_) => 2,
            Fault::Data(_) => 3,
            Fault::Unread(fault) => fault.status(),
            Fault::Memory | Fault::Own(_) | Fault::Clash(_) => 1,
        }
    }
}
