//! Putting out what a node without turns renders as.
ghost use Rattle.std.specs.Prelude.{◌≡◌, IsOk, Ok};
ghost use Rattle.std.specs.Cow.{cow_str_bytes};
ghost use Rattle.liquid_error.specs.meaning.Told.{Gives};
ghost use Rattle.liquid_value.specs.meaning.View.{view as tree_of};
ghost use Rattle.liquid_value.specs.meaning.Render.{render};
ghost use Rattle.liquid_runtime.specs.meaning.LoopNames.{forloop, seen_tree};
ghost use Rattle.liquid_plugins.specs.meaning.Chain.{chain_value};
ghost use Rattle.liquid_plugins.specs.meaning.ExpressionOf.{chain_of};
ghost use Rattle.liquid_plugins.specs.meaning.NodesOf.{name_chain};
ghost use Rattle.liquid_template.specs.meaning.Actions.{writes_value};
ghost use Rattle.liquid_template.specs.meaning.Outcome.{RendersWithin};
ghost use Rattle.liquid_template.specs.steps.PieceOut.{PieceOut, ValueOut};
ghost use Rattle.liquid_template.specs.steps.Place.{target, around};

use crate::outlet::Out;
use liquid_error::Error;
use liquid_plugins::{Filter, FilterChain, named_value};
use liquid_runtime::{Counts, Runtime, Seen};
use liquid_scalar::ScalarOf;
use liquid_value::Value;
use liquid_value::render::ValueRender;
use std::alloc::{AllocError, Global};
use std::borrow::CowStr;

/// Puts a text out, as one piece.
#[inline(never)]
pub(crate) fn put_text<O: Out>(
    alloc: Global,
    text: &str,
    out: &mut O,
    answer: &mut Result<(), Error>,
)
    requires { IsOk answer.old }
    ensures out { PieceOut text.now (target (O.place out.old)) (target (O.place out.new)) answer.new }
    ensures around { around (O.place out.new) ≡ around (O.place out.old) }
{
    out.put(alloc, text, answer)
}

/// Returns the text that a value renders as. A text is borrowed in place.
fn render_text(alloc: Global, value: &Value) -> Result<CowStr<'_>, Error>
    ensures { Gives cow_str_bytes result (Ok (render (tree_of value.now))) }
{
    match value {
        Value::Scalar(scalar) => match scalar.to_kstr(alloc) {
            Ok(text) => Ok(text),
            Err(_) => Err(Error::Memory),
        },
        other => match ValueRender::new(other).to_string(alloc) {
            Ok(text) => Ok(CowStr::Owned(text)),
            Err(_) => Err(Error::Memory),
        },
    }
}

/// Puts out the text that a value renders as, as one piece. A text is put without a copy, and a number takes no memory.
/// If memory runs out, nothing is put.
fn put_value<O: Out>(alloc: Global, value: &Value, out: &mut O, answer: &mut Result<(), Error>)
    requires { IsOk answer.old }
    ensures out { ValueOut (render (tree_of value.now)) (target (O.place out.old)) (target (O.place out.new)) answer.new }
    ensures around { around (O.place out.new) ≡ around (O.place out.old) }
{
    match value {
        Value::Scalar(ScalarOf::Integer(number)) => {
            let mut digits = itoa::Buffer::new();
            put_text(alloc, digits.format(*number), out, answer)
        }
        Value::Scalar(ScalarOf::Bool(true)) => put_text(alloc, "true", out, answer),
        Value::Scalar(ScalarOf::Bool(false)) => put_text(alloc, "false", out, answer),
        Value::Scalar(ScalarOf::Str(text)) => put_text(alloc, text.as_str(), out, answer),
        other => match render_text(alloc, other) {
            Ok(text) => put_text(alloc, text.as_str(), out, answer),
            Err(error) => *answer = Err(error),
        },
    }
}

/// Puts out the value of a name, which is made first if it is an object `forloop`.
fn put_seen<O: Out>(alloc: Global, seen: Seen<'_>, out: &mut O, answer: &mut Result<(), Error>)
    requires { IsOk answer.old }
    ensures out { ValueOut (render (seen_tree seen.entry)) (target (O.place out.old)) (target (O.place out.new)) answer.new }
    ensures around { around (O.place out.new) ≡ around (O.place out.old) }
{
    match seen {
        Seen::Lent(value) => put_value(alloc, value, out, answer),
        Seen::Loop(counts) => put_loop(alloc, counts, out, answer),
    }
}

/// Puts out an object `forloop`.
#[inline(never)]
fn put_loop<O: Out>(alloc: Global, counts: Counts, out: &mut O, answer: &mut Result<(), Error>)
    requires { IsOk answer.old }
    ensures out { ValueOut (render (forloop counts.place counts.size)) (target (O.place out.old)) (target (O.place out.new)) answer.new }
    ensures around { around (O.place out.new) ≡ around (O.place out.old) }
{
    match counts.to_value(alloc) {
        Ok(value) => put_value(alloc, &value, out, answer),
        Err(_) => *answer = Err(Error::Memory),
    }
}

/// Puts out the value of a chain.
#[inline(never)]
pub(crate) fn put_chain<X, R, O>(
    alloc: Global,
    chain: &FilterChain<X>,
    out: &mut O,
    runtime: &R,
    answer: &mut Result<(), Error>,
)
where
    X: Filter,
    R: Runtime,
    O: Out,
    requires { IsOk answer.old }
    ensures renders { RendersWithin (writes_value (chain_value X.means (chain_of X.shape chain.now) (R.view runtime.now))
        (R.view runtime.now))
        (R.view runtime.now) (target (O.place out.old)) (target (O.place out.new)) (R.view runtime.now) answer.new }
    ensures around { around (O.place out.new) ≡ around (O.place out.old) }
{
    match chain.evaluate(alloc, runtime) {
        Ok(value) => put_value(alloc, value.as_view(), out, answer),
        Err(error) => *answer = Err(error),
    }
}

/// Puts out the value of a name alone, as that of its chain. If the name has no value, the chain is built to make the
/// error.
#[inline(never)]
pub(crate) fn put_name<X, R, O>(
    alloc: Global,
    name: &str,
    out: &mut O,
    runtime: &R,
    answer: &mut Result<(), Error>,
)
where
    X: Filter,
    R: Runtime,
    O: Out,
    requires { IsOk answer.old }
    ensures renders { RendersWithin (writes_value (chain_value X.means (name_chain name.now) (R.view runtime.now)) (R.view runtime.now))
        (R.view runtime.now) (target (O.place out.old)) (target (O.place out.new)) (R.view runtime.now) answer.new }
    ensures around { around (O.place out.new) ≡ around (O.place out.old) }
{
    match named_value(name, runtime) {
        Some(seen) => put_seen(alloc, seen, out, answer),
        None => {
            let made: Result<FilterChain<X>, AllocError> = FilterChain::of_name(alloc, name);
            match made {
                Ok(chain) => put_chain(alloc, &chain, out, runtime, answer),
                Err(_) => *answer = Err(Error::Memory),
            }
        }
    }
}
