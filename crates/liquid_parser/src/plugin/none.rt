//! The plug-in that does nothing.
ghost use Rattle.std.specs.Prelude.{codes, Ok, refl};
ghost use Rattle.liquid_plugins.specs.meaning.Turning.{answers, begins_with, captures_nothing};
ghost use Rattle.liquid_plugins.specs.meaning.Turns.{end_turn};
ghost use Rattle.liquid_parser.specs.laws.NoPluginLaws.{nothing_hides};
ghost use Rattle.liquid_parser.specs.meaning.NoPlugins.{no_block, no_names};
ghost use Rattle.liquid_value.specs.meaning.Tree.{nil};

use crate::cursor::tokens::TagTokenIter;
use crate::plugin::block::{BlockBody, BlockReflection, ParseBlock};
use crate::plugin::tag::{ParseTag, TagReflection};
use liquid_error::Error;
use liquid_plugins::{
    Discreet, Filter, FilterArguments, FilterReflection, Meant, ParameterReflection, ParseFilter,
    PluginRegistry, Renderable, Turn,
};
use liquid_runtime::{Fresh, Runtime};
use liquid_value::{Value, ValueCow};
use std::alloc::Global;

/// The type of the filters, the tags or the blocks of a language that has none.
///
/// It is itself a plug-in that does nothing: a filter that takes any arguments and returns nil, and a tag and a block
/// that take any tokens and write nothing.
#[derive(Debug, Clone, Copy, PartialEq, Eq)]
pub struct NoPlugin;

impl Meant for NoPlugin {
    type Shape = ();

    ghost shape = { λ _. tt };
}

impl FilterReflection for NoPlugin {
    ghost filter_name = { λ _. codes "nothing" };

    fn name(&self) -> &str {
        "nothing"
    }

    fn description(&self) -> &str {
        "Gives nil."
    }

    fn positional_parameters(&self) -> &'static [ParameterReflection] {
        &[]
    }

    fn keyword_parameters(&self) -> &'static [ParameterReflection] {
        &[]
    }
}

impl ParseFilter for NoPlugin {
    type Filter = NoPlugin;

    ghost makes = { λ _ _. Ok tt };

    fn parse(&self, _alloc: Global, _arguments: FilterArguments<'_>) -> Result<NoPlugin, Error> {
        Ok(NoPlugin)
    }
}

impl Filter for NoPlugin {
    ghost means = { record { answers = λ _ _ _. Ok nil; label = λ _. codes "nothing" } };

    fn evaluate<'s, R: Runtime>(
        &'s self,
        _alloc: Global,
        _input: &ValueCow<'_>,
        _runtime: &'s R,
    ) -> Result<Value, Error> {
        Ok(Value::Nil)
    }

    fn label(&self) -> &str {
        "nothing"
    }
}

impl TagReflection for NoPlugin {
    ghost tag_name = { λ _. codes "nothing" };

    fn tag(&self) -> &str {
        "nothing"
    }

    fn description(&self) -> &str {
        "Writes nothing."
    }
}

impl<F: ParseFilter> ParseTag<F> for NoPlugin {
    type Node = NoPlugin;

    ghost gives = { λ _ _ _. Ok tt };

    fn parse(
        &self,
        _alloc: Global,
        _tokens: TagTokenIter<'_>,
        _filters: &PluginRegistry<F>,
    ) -> Result<NoPlugin, Error> {
        Ok(NoPlugin)
    }
}

impl BlockReflection for NoPlugin {
    ghost block_names = { λ _. no_names };

    fn start_tag(&self) -> &str {
        "nothing"
    }

    fn end_tag(&self) -> &str {
        "endnothing"
    }

    fn description(&self) -> &str {
        "Writes nothing, not even its body."
    }
}

impl<F: ParseFilter> ParseBlock<F> for NoPlugin {
    type Plan = NoPlugin;

    type Node = NoPlugin;

    ghost block = { λ _. no_block };

    ghost named = { λ _. refl };

    fn dividers(&self) -> &[&str] {
        &[]
    }

    fn escapes(&self) -> bool {
        false
    }

    fn nests(&self) -> bool {
        false
    }

    fn begin(
        &self,
        _alloc: Global,
        _tokens: TagTokenIter<'_>,
        _filters: &PluginRegistry<F>,
    ) -> Result<NoPlugin, Error> {
        Ok(NoPlugin)
    }

    fn divide(
        &self,
        _alloc: Global,
        _plan: &mut NoPlugin,
        _name: &str,
        _tokens: TagTokenIter<'_>,
    ) -> Result<(), Error> {
        Ok(())
    }

    fn finish(
        &self,
        _alloc: Global,
        _plan: NoPlugin,
        _body: BlockBody<'_>,
    ) -> Result<NoPlugin, Error> {
        Ok(NoPlugin)
    }
}

/// A node takes no turn.
impl<V: Fresh> Renderable<V> for NoPlugin {
    type Progress = NoPlugin;

    ghost means = { record {
      starts = λ _. begins_with tt;
      count = λ _. 0;
      takes = λ _. answers (Ok end_turn);
      catches = captures_nothing;
    } };

    fn start<R: Runtime<Register = V>>(
        &self,
        _alloc: Global,
        _runtime: &mut R,
    ) -> Result<NoPlugin, Error> {
        Ok(NoPlugin)
    }

    fn turns(_progress: &NoPlugin) -> u64 {
        0
    }

    fn turn<R: Runtime<Register = V>>(
        &self,
        _alloc: Global,
        _progress: &mut NoPlugin,
        _runtime: &mut R,
    ) -> Result<Turn, Error> {
        Ok(Turn::End)
    }

    fn caught(&self, _progress: &mut NoPlugin, text: String) {
        drop(text);
    }
}

impl<V: Fresh> Discreet<V> for NoPlugin {
    ghost hides = { record { start = λ _. nothing_hides tt tt; turn = λ _ progress. nothing_hides end_turn progress } };
}
