//! Tags for tests: what they are made into, and how that is rendered.
ghost use Rattle.std.specs.Prelude.{◌≡◌, IfOk, option_map, string_bytes};
ghost use Rattle.liquid_error.specs.meaning.Told.{Gives};
ghost use Rattle.liquid_value.specs.meaning.View.{view as tree_of};
ghost use Rattle.liquid_runtime.specs.meaning.Written.{SameFrames};
ghost use Rattle.liquid_plugins.specs.meaning.Evaluation.{evaluate};
ghost use Rattle.liquid_plugins.specs.meaning.ExpressionOf.{expression_of};
ghost use Rattle.liquid_plugins.specs.meaning.TurnOf.{Leaves};
ghost use Rattle.test_plugins.specs.meaning.Tags.{assigned, leaky_of, leaky_tag_nodes, render_old, tag_nodes, tag_of};
ghost use Rattle.test_plugins.specs.laws.TagLaws.{tags_hide};

use liquid_error::Error;
use liquid_plugins::{Bytes, Discreet, Expression, ExpressionMark, Meant, Renderable, Turn};
use liquid_runtime::{Frame, Fresh, Interrupt, Runtime};
use liquid_value::Value;
use liquid_value::render::ValueRender;
use std::alloc::{AllocError, Global};

/// What a tag of the plain language is made into.
#[derive(Drop)]
pub enum TagNode {
    /// Sets the global of a name to the value of an expression.
    Set(String, Box<Expression>),
    /// Renders the partial of a name, without a frame.
    Inc(String),
    /// Sets the interrupt `Break`.
    Brk,
}

/// Marks the shape of a tag.
pub enum TagShape {
    Set(Bytes, ExpressionMark),
    Inc(Bytes),
    Brk,
}

impl Meant for TagNode {
    type Shape = TagShape;

    ghost shape = { tag_of };
}

/// Each tag takes one turn; the progress is the number of turns.
impl<V: Fresh> Renderable<V> for TagNode {
    type Progress = u64;

    ghost means = { tag_nodes };

    fn start<R: Runtime<Register = V>>(
        &self,
        _alloc: Global,
        _runtime: &mut R,
    ) -> Result<u64, Error> {
        Ok(1)
    }

    fn turns(progress: &u64) -> u64 {
        *progress
    }

    fn turn<R: Runtime<Register = V>>(
        &self,
        alloc: Global,
        _progress: &mut u64,
        runtime: &mut R,
    ) -> Result<Turn, Error> {
        match self {
            TagNode::Set(name, expression) => {
                assign(alloc, name, &**expression, runtime)?;
                Ok(Turn::End)
            }
            TagNode::Inc(name) => Ok(Turn::Partial(name.clone()?, Frame::None, None)),
            TagNode::Brk => {
                runtime.registers_mut().interrupt.set(Interrupt::Break);
                Ok(Turn::End)
            }
        }
    }

    fn caught(&self, _progress: &mut u64, text: String) {
        drop(text);
    }
}

impl<V: Fresh> Discreet<V> for TagNode {
    ghost hides = { tags_hide };
}

/// What a tag is made into in a language with `leak`.
#[derive(Drop)]
pub enum LeakyTagNode {
    /// A tag of the plain language.
    Plain(TagNode),
    /// Sets a global as `set` does, and writes the rendered text of its old value.
    Leak(String, Box<Expression>),
}

/// Marks the shape of such a tag.
pub enum LeakyTagShape {
    Plain(TagShape),
    Leak(Bytes, ExpressionMark),
}

impl Meant for LeakyTagNode {
    type Shape = LeakyTagShape;

    ghost shape = { leaky_of };
}

/// Each tag takes one turn; the progress is the number of turns.
impl<V: Fresh> Renderable<V> for LeakyTagNode {
    type Progress = u64;

    ghost means = { leaky_tag_nodes };

    fn start<R: Runtime<Register = V>>(
        &self,
        _alloc: Global,
        _runtime: &mut R,
    ) -> Result<u64, Error> {
        Ok(1)
    }

    fn turns(progress: &u64) -> u64 {
        *progress
    }

    fn turn<R: Runtime<Register = V>>(
        &self,
        alloc: Global,
        progress: &mut u64,
        runtime: &mut R,
    ) -> Result<Turn, Error> {
        match self {
            LeakyTagNode::Plain(tag) => tag.turn(alloc, progress, runtime),
            LeakyTagNode::Leak(name, expression) => {
                let old = assign(alloc, name, &**expression, runtime)?;
                Ok(Turn::Text(render_old(alloc, old)?))
            }
        }
    }

    fn caught(&self, _progress: &mut u64, text: String) {
        drop(text);
    }
}

/// Sets a global to the value of the expression, and returns its old value.
fn assign<R: Runtime>(
    alloc: Global,
    name: &String,
    expression: &Expression,
    runtime: &mut R,
) -> Result<Option<Value>, Error>
    ensures answer { Gives (option_map tree_of) result (assigned (string_bytes name.now)
        (evaluate (R.view runtime.old) (expression_of expression.now)) (R.view runtime.old)).answer }
    ensures after { Leaves result (assigned (string_bytes name.now) (evaluate (R.view runtime.old) (expression_of expression.now))
        (R.view runtime.old)).written (R.view runtime.old) (R.view runtime.new) }
    ensures frames { SameFrames (R.view runtime.old) (R.view runtime.new) }
    ensures store { R.store runtime.new ≡ R.store runtime.old }
    ensures owes { R.restores runtime.new ≡ R.restores runtime.old }
    ensures borrows { R.lent runtime.new ≡ R.lent runtime.old }
{
    let value = expression.evaluate(alloc, &*runtime)?.into_owned()?;
    runtime.set_global(name.clone()?, value)
}

/// Returns the rendered text of a value, empty if there is none.
fn render_old(alloc: Global, value: Option<Value>) -> Result<String, AllocError>
    ensures { IfOk result (λ text. string_bytes text ≡ render_old (option_map tree_of value)) }
{
    match value {
        Some(value) => ValueRender::new(&value).to_string(alloc),
        None => Ok(String::new(alloc)),
    }
}
