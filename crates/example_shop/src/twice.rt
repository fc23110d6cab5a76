//! The block `twice`, which writes the text of its body twice.
ghost use Rattle.example_shop.specs.meaning.Twices.{twice};

use liquid_core::Error;
use liquid_extend::TextBlock;
use std::alloc::Global;

/// The block `twice`.
#[derive(Debug, Clone, Copy, Drop)]
pub struct Twice;

impl TextBlock for Twice {
    ghost sense = { twice };

    fn start_tag(&self) -> &'static str {
        "twice"
    }

    fn end_tag(&self) -> &'static str {
        "endtwice"
    }

    fn description(&self) -> &'static str {
        "Writes the text of its body twice."
    }

    fn transform(&self, alloc: Global, body: &str) -> Result<String, Error> {
        let mut text = String::from_str(alloc, body)?;
        text.push_str(body)?;
        Ok(text)
    }
}
