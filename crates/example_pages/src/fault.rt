//! Why a page was not written.
use liquid_core::Error;
use liquid_pages::PageFault;
use std::alloc::{AllocError, AllocFailed};
use std::io;

/// Why a page was not written, or not to its end.
#[derive(Debug, Drop, thiserror::Error)]
pub enum Fault {
    /// A file can't be read, or the output can't be written.
    #[error("example_pages: {0}\n")]
    File(#[from] io::Error),
    /// The page of the shop has an error.
    #[error("{0}")]
    Shop(#[from] Error),
    /// The page of a theme has an error.
    #[error("{0}")]
    Page(#[from] PageFault),
    /// Memory ran out.
    #[error("example_pages: out of memory\n")]
    Memory(#[from] AllocError),
}

impl<T: Drop> From<AllocFailed<T>> for Fault {
    fn from(failed: AllocFailed<T>) -> Fault {
        drop(failed);
        Fault::Memory(AllocError)
    }
}
