//! What renders the texts of a site.
ghost use Rattle.std.specs.Prelude.{◌≢◌, ℕ, List, Option, None, Some, IfOk, IfErr, string_bytes};
ghost use Rattle.liquid_value.specs.meaning.Tree.{Members};
ghost use Rattle.liquid_value.specs.meaning.View.{members_view};
ghost use Rattle.page_site.specs.meaning.Answers.{StaysWithin};

use liquid_value::Object;
use std::alloc::Global;

/// A text that is rendered, the path of its file, and the number of lines of the file before it.
#[derive(Clone, Copy, Debug)]
pub struct Source<'t> {
    pub path: &'t str,
    pub text: &'t str,
    pub lines_before: usize,
}

/// Why a text was not rendered.
#[derive(Debug, Drop)]
pub enum Failure {
    Memory,
    /// The error, as it is to be printed.
    Error(String),
}

/// Renders texts over names.
pub trait Engine {
    /// What a text over names may come to: its page, or nothing if it fails.
    ghost answers: { Self → List ℕ → Members → Option (List ℕ) → Type 0 };

    /// Returns the page of a text over these names. What other texts come to stays as it is.
    fn render(
        &mut self,
        alloc: Global,
        source: Source<'_>,
        names: Object,
    ) -> Result<String, Failure>
        ensures renders { IfOk result (λ page. answers self.old source.entry.text.now (members_view names.entries)
            (Some (string_bytes page))) }
        ensures fails { IfErr result (λ failure. failure ≢ Failure.Memory →
            answers self.old source.entry.text.now (members_view names.entries) None) }
        ensures same { StaysWithin (answers self.old) (answers self.new) };
}
