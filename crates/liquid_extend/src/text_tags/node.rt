//! The nodes of text tags, and how they are rendered.
ghost use Rattle.liquid_error.specs.meaning.Told.{Gives};
ghost use Rattle.liquid_plugins.specs.meaning.TurnOf.{turn_of};
ghost use Rattle.liquid_filters.specs.meaning.Calls.{call_of};
ghost use Rattle.liquid_extend.specs.laws.text_tags.Hiding.{text_tags_hide};
ghost use Rattle.liquid_extend.specs.meaning.text_tags.Nodes.{tag_turn, text_nodes};

use crate::text_tags::kind::{TagAnswer, TextTag};
use liquid_error::Error;
use liquid_filters::FilterCall;
use liquid_filters::call::CallShape;
use liquid_plugins::{Discreet, Filter, Meant, Renderable, Turn};
use liquid_runtime::{Fresh, Runtime};
use liquid_value::render::ValueRender;
use liquid_value::{Value, ValueCow};
use std::alloc::Global;

/// A text tag of a template, with the expressions of its arguments.
#[derive(Drop)]
pub struct TextTagNode<K> {
    pub call: FilterCall<TagAnswer<K>>,
}

impl<K: TextTag> Meant for TextTagNode<K> {
    type Shape = CallShape<TagAnswer<K>>;

    ghost shape = { λ node. call_of node.call };
}

/// It takes one turn; the progress is the number of turns.
impl<K: TextTag, V: Fresh> Renderable<V> for TextTagNode<K> {
    type Progress = u64;

    ghost means = { text_nodes K.sense };

    fn start<R: Runtime<Register = V>>(
        &self,
        _alloc: Global,
        _runtime: &mut R,
    ) -> Result<u64, Error> {
        Ok(1)
    }

    fn turns(progress: &u64) -> u64 {
        *progress
    }

    fn turn<R: Runtime<Register = V>>(
        &self,
        alloc: Global,
        _progress: &mut u64,
        runtime: &mut R,
    ) -> Result<Turn, Error> {
        text_turn(alloc, &self.call, &*runtime)
    }

    fn caught(&self, _progress: &mut u64, text: String) {
        drop(text);
    }
}

impl<K: TextTag, V: Fresh> Discreet<V> for TextTagNode<K> {
    ghost hides = { text_tags_hide K.sense };
}

/// Returns the turn that writes the tag's text.
fn text_turn<K: TextTag, R: Runtime>(
    alloc: Global,
    call: &FilterCall<TagAnswer<K>>,
    runtime: &R,
) -> Result<Turn, Error>
    ensures { Gives turn_of result (tag_turn K.sense (call_of call.now) (R.view runtime.now)) }
{
    let input = ValueCow::Owned(Value::Nil);
    let text = call.evaluate(alloc, &input, runtime)?;
    Ok(Turn::Text(ValueRender::new(&text).to_string(alloc)?))
}
