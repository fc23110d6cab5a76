//! Kinds of text blocks: the names of the tags, and what each makes of its body.
ghost use Rattle.std.specs.Prelude.{◌≡◌, string_bytes};
ghost use Rattle.liquid_error.specs.meaning.Told.{Gives};
ghost use Rattle.liquid_extend.specs.meaning.Sense.{TextBlockSense};

use liquid_error::Error;
use std::alloc::Global;

/// A kind of block that writes another text in place of the one that its body renders as.
///
/// The body is rendered once, into a text of its own. It sees and assigns the same names as outside of
/// the block. The transformation sees the text alone, so globals that are hidden from a template are
/// hidden from it too.
pub trait TextBlock: Clone + Copy + Drop {
    // the names of its tags, and what it makes of a text
    ghost sense: { Self → TextBlockSense };

    /// Returns the name of its start tag.
    fn start_tag(&self) -> &'static str
        ensures { result.now ≡ (sense self.now).names.start_name };

    /// Returns the name of its end tag.
    fn end_tag(&self) -> &'static str
        ensures { result.now ≡ (sense self.now).names.end_name };

    /// Returns what it does, for documentation.
    fn description(&self) -> &'static str;

    /// Returns the text that is written, or the error that ends the rendering.
    fn transform(&self, alloc: Global, body: &str) -> Result<String, Error>
        ensures { Gives string_bytes result ((sense self.now).transforms body.now) };
}
