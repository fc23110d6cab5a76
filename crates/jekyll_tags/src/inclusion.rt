//! Inclusions of partials, and how they are rendered.
ghost use Rattle.std.specs.Prelude.{◌≡◌, ◌++◌, map, string_bytes, IfOk};
ghost use Rattle.liquid_error.specs.meaning.Told.{Gives};
ghost use Rattle.liquid_value.specs.meaning.Members.{put_member};
ghost use Rattle.liquid_value.specs.meaning.Tree.{no_members};
ghost use Rattle.liquid_value.specs.meaning.View.{view as tree_of, members_view};
ghost use Rattle.liquid_runtime.specs.meaning.Calls.{frame_of};
ghost use Rattle.liquid_plugins.specs.meaning.ExpressionOf.{chain_of};
ghost use Rattle.liquid_plugins.specs.meaning.TurnOf.{turn_of};
ghost use Rattle.liquid_tags.specs.meaning.Partials.{pair_of};
ghost use Rattle.jekyll_tags.specs.laws.Hidden.{inclusions_hide};
ghost use Rattle.jekyll_tags.specs.meaning.Inclusions as Spec;
ghost use Rattle.jekyll_tags.specs.meaning.Inclusions.{inclusion_of};
ghost use Rattle.jekyll_tags.specs.meaning.Named.{prefix, word};

use crate::plugin::JekyllTags;
use liquid_core::model::ValueRender;
use liquid_core::parser::{Bytes, ChainMark, FilterChain, ListOf, Meant};
use liquid_core::runtime::ExpressionMark;
use liquid_core::{
    Discreet, Error, Expression, Filter, Frame, Object, Renderable, Runtime, SharedObject, Turn,
    Value, no_names,
};
use liquid_runtime::Fresh;
use liquid_tags::names::bind;
use std::alloc::{AllocError, Global};

/// An inclusion of a partial, over filters `X`.
#[derive(Drop)]
pub struct JekyllInclusion<X> {
    pub tag: JekyllTags,
    /// The chains whose texts, joined, name the partial.
    pub name: Vec<FilterChain<X>>,
    /// What the partial gets as the object `include`.
    pub pairs: Vec<(String, Expression)>,
}

/// Marks the shape of an inclusion, over filters of shape `S`.
pub struct JekyllInclusionShape<S> {
    pub tag: JekyllTags,
    pub name: ListOf<ChainMark<S>>,
    pub pairs: ListOf<(Bytes, ExpressionMark)>,
}

impl<X: Filter> Meant for JekyllInclusion<X> {
    type Shape = JekyllInclusionShape<X::Shape>;

    ghost shape = { inclusion_of X.shape };
}

/// It takes one turn; the progress is the number of turns.
impl<X: Filter, V: Fresh> Renderable<V> for JekyllInclusion<X> {
    type Progress = u64;

    ghost means = { Spec.inclusion_nodes X.means };

    fn start<R: Runtime<Register = V>>(
        &self,
        _alloc: Global,
        _runtime: &mut R,
    ) -> Result<u64, Error> {
        Ok(1)
    }

    fn turns(progress: &u64) -> u64 {
        *progress
    }

    fn turn<R: Runtime<Register = V>>(
        &self,
        alloc: Global,
        _progress: &mut u64,
        runtime: &mut R,
    ) -> Result<Turn, Error> {
        inclusion_turn(alloc, self, &*runtime)
    }

    fn caught(&self, _progress: &mut u64, text: String) {
        drop(text);
    }
}

impl<X: Filter, V: Fresh> Discreet<V> for JekyllInclusion<X> {
    ghost hides = { inclusions_hide X.means };
}

/// Returns the turn with the partial. The name is evaluated before the pairs.
#[inline(never)]
fn inclusion_turn<X: Filter, R: Runtime>(
    alloc: Global,
    inclusion: &JekyllInclusion<X>,
    runtime: &R,
) -> Result<Turn, Error>
    ensures { Gives turn_of result (Spec.inclusion_turn X.means (inclusion_of X.shape inclusion.now) (R.view runtime.now)) }
{
    let name = join_texts(alloc, inclusion.name.as_slice(), runtime)?;
    let members = evaluate_members(alloc, inclusion.pairs.as_slice(), runtime)?;
    Ok(partial_for(
        alloc,
        inclusion.tag,
        name.as_str(),
        inclusion.pairs.len(),
        members,
    )?)
}

/// Returns the texts of chains, joined. They are evaluated from left to right.
pub(crate) fn join_texts<X: Filter, R: Runtime>(
    alloc: Global,
    chains: &[FilterChain<X>],
    runtime: &R,
) -> Result<String, Error>
    ensures { Gives (λ s. string_bytes s) result
        (Spec.joined_texts X.means (R.view runtime.now) (map (chain_of X.shape) chains.now)) }
{
    let mut joined = String::new(alloc);
    for chain in chains {
        let text = chain_text(alloc, chain, runtime)?;
        joined.push_str(text.as_str())?;
    }
    Ok(joined)
}

fn chain_text<X: Filter, R: Runtime>(
    alloc: Global,
    chain: &FilterChain<X>,
    runtime: &R,
) -> Result<String, Error>
    ensures { Gives (λ s. string_bytes s) result
        (Spec.chain_text X.means (R.view runtime.now) (chain_of X.shape chain.now)) }
{
    let value = chain.evaluate(alloc, runtime)?;
    Ok(ValueRender::new(value.as_view()).to_string(alloc)?)
}

/// Returns the members of the object `include`. The values are evaluated from left to right; of two pairs with one name the
/// later wins.
fn evaluate_members<R: Runtime>(
    alloc: Global,
    pairs: &[(String, Expression)],
    runtime: &R,
) -> Result<Object, Error>
    ensures { Gives (λ o. members_view o.entries) result (Spec.members_given (R.view runtime.now) no_members (map pair_of pairs.now)) }
{
    let mut members = Object::new(alloc);
    for pair in pairs {
        let value = pair.1.evaluate(alloc, runtime)?;
        put(alloc, &mut members, pair.0.as_str(), value.into_owned()?)?;
    }
    Ok(members)
}

#[tactic(auto, using(liquid_runtime::proofs::LoopLaws::inserted))]
fn put(alloc: Global, object: &mut Object, name: &str, value: Value) -> Result<(), AllocError>
    ensures { IfOk result (λ _. members_view object.new.entries ≡ put_member name.now (tree_of value) (members_view object.old.entries)) }
{
    drop(object.insert(String::from_str(alloc, name)?, value)?);
    Ok(())
}

/// Returns the turn with the partial of a name, which that many pairs make these members for.
fn partial_for(
    alloc: Global,
    tag: JekyllTags,
    name: &str,
    pairs: usize,
    members: Object,
) -> Result<Turn, AllocError>
    ensures { IfOk result (λ turn. turn_of turn ≡ Spec.partial_for tag name.now pairs (members_view members.entries)) }
{
    let name = join(alloc, prefix(tag), name)?;
    let trace = join(alloc, word(tag), name.as_str())?;
    let frame = frame_for(alloc, pairs, members)?;
    Ok(Turn::Partial(name, frame, Some(trace)))
}

fn join(alloc: Global, front: &str, back: &str) -> Result<String, AllocError>
    ensures { IfOk result (λ s. string_bytes s ≡ front.now ++ back.now) }
{
    let mut text = String::with_capacity(alloc, front.len().saturating_add(back.len()))?;
    text.push_str(front)?;
    text.push_str(back)?;
    Ok(text)
}

/// Returns the frame of a partial: none without pairs, so that the object `include` of an outer partial is seen.
fn frame_for(alloc: Global, pairs: usize, members: Object) -> Result<Frame, AllocError>
    ensures { IfOk result (λ frame. frame_of frame ≡ Spec.frame_for pairs (members_view members.entries)) }
{
    if pairs == 0 {
        drop(members);
        return Ok(Frame::None);
    }
    let mut names = no_names(alloc);
    let include = Value::Object(SharedObject::shared(alloc, members)?);
    bind(alloc, &mut names, "include", include)?;
    Ok(Frame::Stack(names, None))
}

/// Returns what is before the given name in the name of the partial.
fn prefix(tag: JekyllTags) -> &'static str
    ensures { result.now ≡ prefix tag }
{
    match tag {
        JekyllTags::Include | JekyllTags::IncludeCached => "",
        JekyllTags::IncludeRelative => "./",
        JekyllTags::Seo => "seo",
    }
}

/// Returns what is before the partial's name in the trace of an error.
fn word(tag: JekyllTags) -> &'static str
    ensures { result.now ≡ word tag }
{
    match tag {
        JekyllTags::Include | JekyllTags::Seo => "include ",
        JekyllTags::IncludeCached => "include_cached ",
        JekyllTags::IncludeRelative => "include_relative ",
    }
}
