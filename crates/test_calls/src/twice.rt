//! A block that captures its body.
ghost use Rattle.std.specs.Prelude.{◌++◌, codes, Ok};

use liquid_core::Error;
use liquid_extend::TextBlock;
use std::alloc::Global;

/// The block `twice`, which writes the text of its body twice.
#[derive(Debug, Clone, Copy, Drop)]
pub struct Twice;

impl TextBlock for Twice {
    ghost sense = { λ _. record {
      names = record { start_name = codes "twice"; end_name = codes "endtwice" };
      transforms = λ body. Ok (body ++ body);
    } };

    fn start_tag(&self) -> &'static str {
        "twice"
    }

    fn end_tag(&self) -> &'static str {
        "endtwice"
    }

    fn description(&self) -> &'static str {
        "Writes the text of its body twice."
    }

    fn transform(&self, alloc: Global, body: &str) -> Result<String, Error> {
        let mut text = String::from_str(alloc, body)?;
        text.push_str(body)?;
        Ok(text)
    }
}
