//! Why the program stops, and the exit status for that.
ghost use Rattle.std.specs.Prelude.{◌≡◌};

use liquid_core::Error;

/// Why the program stops before it is done.
#[derive(Debug, Drop, thiserror::Error)]
pub enum Fault<'w> {
    /// A template had an error, or memory ran out.
    #[error("{0}")]
    Refused(Error),
    /// A template had an error, and these lines explain it.
    #[error("{0}")]
    Explained(Error, String),
    /// The words are not a command.
    #[error("usage: liquid render [--sandboxed] [--lenient] TEMPLATE GLOBALS.json [DIR]\n")]
    Usage,
    /// The file at this path can't be read as text, or the folder at it can't be listed.
    #[error("liquid: cannot read {0}\n")]
    Unreadable(&'w str),
    /// The file at this path in a folder can't be read as text.
    #[error("liquid: cannot read {0}\n")]
    UnreadableInFolder(String),
    /// The page can't be written to the file at this path.
    #[error("liquid: cannot write {0}\n")]
    Unwritable(String),
    /// The page is not written to the file at this path, which is its template or has its globals.
    #[error("liquid: cannot write {0}: the page is made from it\n")]
    OwnFile(String),
    /// The text of the file at this path is not JSON, which this line explains.
    #[error("liquid: bad JSON in {0}\n")]
    BadJson(&'w str, String),
    /// The JSON of the globals is not an object of values, which this line explains, if there is one.
    #[error("{0}")]
    NoGlobals(Error, String),
}

impl Fault<'_> {
    ghost use Rattle.liquid_program.specs.meaning.Status.{fault_status};

    /// Returns the exit status for the fault.
    pub fn status(&self) -> u8
        ensures { result ≡ fault_status self.now }
    {
        match self {
            Fault::Refused(_) | Fault::Explained(..) | Fault::Unwritable(_) | Fault::OwnFile(_) =>
                1,
            Fault::Usage => 2,
            Fault::Unreadable(_)
            | Fault::UnreadableInFolder(_)
            | Fault::BadJson(..)
            | Fault::NoGlobals(..) => 3,
        }
    }
}
