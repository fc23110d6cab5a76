//! What crosses the border to C.

use liquid_pages::PartialBytes;

// c/test.c has the same sizes of the header's structs.
const _: () = prove!(size_of::<Page<'static>>() == 88);

const _: () = prove!(size_of::<PartialBytes<'static>>() == 32);

const _: () = prove!(size_of::<Outcome>() == 64);

/// What is rendered, and how.
#[repr(C)]
#[derive(Clone, Copy)]
pub struct Page<'a> {
    /// The template.
    pub text: &'a [u8],
    /// A text of JSON, which is an object.
    pub globals: &'a [u8],
    pub partials: &'a [PartialBytes<'a>],
    /// The sum of `SANDBOXED`, `LENIENT`, `STANDARD`, `DECIMALS`, `NOW` and `JEKYLL`, each at most once.
    pub options: u32,
    /// How many turns of tags and blocks the page may take, and how many bytes it may write; 0 if that is not limited.
    pub max_turns: u64,
    pub max_bytes: u64,
    /// With `NOW`, a text that writes the moment for `now` and `today`. Without it, the bytes are not read.
    pub moment: &'a [u8],
}

/// The globals are the data of a sandbox, over a runtime without names.
pub const SANDBOXED: u32 = 1;
/// A name or an index without a value is nil instead of an error.
pub const LENIENT: u32 = 2;
/// The template is in the standard language instead of that of `liquid_tags` without filters.
pub const STANDARD: u32 = 4;
/// A number of the globals with a fraction is a decimal instead of an error.
pub const DECIMALS: u32 = 8;
/// The page has a moment, which the texts `now` and `today` are for the filter `date`.
pub const NOW: u32 = 16;
/// The template and the partials are as Jekyll's authors write them, in Jekyll's language instead of another. A name or an
/// index without a value is nil.
pub const JEKYLL: u32 = 32;

/// The number of the template in `Outcome::which`.
pub const TEMPLATE: u32 = 0;
/// That of the globals.
pub const GLOBALS: u32 = 1;
/// That of a partial's name.
pub const PARTIAL_NAME: u32 = 2;
/// That of a partial's text.
pub const PARTIAL_TEXT: u32 = 3;

/// The number of the limit of turns in `Outcome::limit`.
pub const TURNS: u32 = 1;
/// That of the limit of bytes.
pub const BYTES: u32 = 2;

/// How a page ended.
#[repr(C)]
#[derive(Clone, Copy, Debug, PartialEq, Eq)]
pub struct Outcome {
    /// The kind, as the header numbers them; 0 if the whole page was rendered and is in `out`.
    pub kind: u32,
    /// Which text is not UTF-8, or has the place of the error.
    pub which: u32,
    /// The number of that partial, from 0.
    pub partial: usize,
    /// The line and the column of an error in that text, from 1; 0 if it has no place.
    pub line: usize,
    pub column: usize,
    /// How many bytes were rendered.
    pub needed: usize,
    /// How many of them are in `out`.
    pub written: usize,
    /// How many bytes the text of the error has. `message` has the first of them.
    pub message_len: usize,
    /// The limit that stopped the page, or 0.
    pub limit: u32,
}

/// A whole page without a byte.
pub const EMPTY: Outcome = Outcome {
    kind: 0,
    which: 0,
    partial: 0,
    line: 0,
    column: 0,
    needed: 0,
    written: 0,
    message_len: 0,
    limit: 0,
};
