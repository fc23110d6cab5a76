//! How a page is rendered.
ghost use Rattle.std.specs.Prelude.{◌≡◌};
ghost use Rattle.liquid_pages.specs.meaning.Limited.{room_of};

use liquid_runtime::Leniency;

/// Where the globals of a page are, and where what its template assigns goes.
#[derive(Clone, Copy, Debug, PartialEq, Eq)]
pub enum PageFrame {
    /// The runtime has the globals. What the template assigns is over them.
    Open,
    /// The globals are the data of a sandbox over a runtime without names. The template doesn't see what it assigns.
    Sandboxed,
    /// The globals are the data of an isolated frame over a runtime without names. What the template assigns is seen by
    /// it, and ends with the page.
    Isolated,
}

/// Where the globals are; whether a number of the globals with a fraction is a decimal instead of an error; which names and
/// indexes without a value are nil instead of an error; and how many turns of tags and blocks the page may take and how
/// many bytes it may write, if that is limited.
///
/// At the first turn past its limit, or the first piece of text that is not whole within its limit, rendering ends with
/// the error "Rendering was stopped". If only one of the two is limited, the limit of the other is `u64::MAX`.
#[derive(Clone, Copy, Debug, PartialEq, Eq)]
pub struct PageOptions {
    pub frame: PageFrame,
    pub decimals: bool,
    pub leniency: Leniency,
    pub max_turns: Option<u64>,
    pub max_bytes: Option<u64>,
}

/// How many turns and how many bytes may pass.
#[derive(Clone, Copy)]
pub(crate) struct Room {
    pub(crate) turns: u64,
    pub(crate) bytes: u64,
}

/// Returns the room that the options leave, if they limit anything.
pub(crate) fn room_of(options: PageOptions) -> Option<Room>
    ensures { result ≡ room_of options }
{
    match (options.max_turns, options.max_bytes) {
        (None, None) => None,
        (Some(turns), None) => Some(Room {
            turns,
            bytes: u64::MAX,
        }),
        (None, Some(bytes)) => Some(Room {
            turns: u64::MAX,
            bytes,
        }),
        (Some(turns), Some(bytes)) => Some(Room { turns, bytes }),
    }
}
