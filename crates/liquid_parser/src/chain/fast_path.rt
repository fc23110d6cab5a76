//! Expressions without an error, read in one walk.
//!
//! If something in an expression may be an error, the walk leaves it undecided, and another reading finds the error.
ghost use Rattle.std.specs.Prelude.{◌≡◌, ◌∷◌, ◌<◌, ◌≤◌, ℕ, List, IfOk, IfSome, codes, length, map};
ghost use Rattle.liquid_error.specs.meaning.Told.{told};
ghost use Rattle.liquid_grammar.specs.meaning.Bytes.{open_brace};
ghost use Rattle.liquid_grammar.specs.meaning.Faults.{filter_fault, chain_fault, first_fault};
ghost use Rattle.liquid_grammar.specs.meaning.Parts.{IsFilter, OpensExpression};
ghost use Rattle.liquid_grammar.specs.meaning.Tokens.{Filter};
ghost use Rattle.liquid_plugins.specs.meaning.ExpressionOf.{chain_of};
ghost use Rattle.liquid_plugins.specs.meaning.Nodes.{chain_node};
ghost use Rattle.liquid_plugins.specs.meaning.NodesOf.{node_of, name_chain};
ghost use Rattle.liquid_parser.specs.meaning.Plugins.{registry_of};
ghost use Rattle.liquid_parser.specs.meaning.Reading.{chain_read, filters_read, filter_read, refused_at};
ghost use Rattle.liquid_parser.specs.steps.Built.{ComesTo, FiltersRule, IfHeaded, Made, WalksToEnd, WalksToNode};

use crate::chain::arguments::build_arguments;
use crate::chain::build::build_from;
use crate::plugin::block::ParseBlock;
use crate::plugin::language::Language;
use crate::plugin::tag::ParseTag;
use crate::reading::place::error_at;
use liquid_error::Error;
use liquid_grammar::{
    ChainStep, FilterStart, Head, chain_step, expression_end, expression_start, value_head,
};
use liquid_plugins::{BRIEF_LIMIT, Brief, FilterChain, Node, ParseFilter, PluginRegistry, left_of};
use std::alloc::{AllocError, Global};

/// The result of a walk over an expression.
#[derive(Drop)]
pub(crate) enum Walked<V> {
    /// It was read to its end, as this.
    Whole(V),
    /// There is no expression here.
    NoExpression,
    /// Something in it may be an error.
    Undecided,
}

/// Returns the node of the expression that the text begins with, and what follows it. The result is undecided, too, if
/// a dash has whitespace before it, or if no expression opens here.
#[inline(always)]
pub(crate) fn fast_expression<'a, F: ParseFilter, T: ParseTag<F>, B: ParseBlock<F>>(
    alloc: Global,
    s: &'a str,
    language: &Language<F, T, B>,
) -> Result<Walked<(Node<F::Filter, T::Node, B::Node>, &'a str)>, AllocError>
    ensures value { (source : List ℕ) → WalksToNode F.Filter.shape T.Node.shape B.Node.shape
        (registry_of F.makes language.now.filters) source s.now result }
    ensures shorter { IfOk result (λ walked. ComesTo walked (λ p. length p.1.now < length s.now) Unit) }
{
    match expression_start(s) {
        Some(start) => fast_from_chain(alloc, start, language),
        None => Ok(Walked::Undecided),
    }
}

/// Reads an expression from its chain on. It is a function of its own, so that the walk over tags and raw text stays short.
#[inline(never)]
fn fast_from_chain<'a, F: ParseFilter, T: ParseTag<F>, B: ParseBlock<F>>(
    alloc: Global,
    start: &'a str,
    language: &Language<F, T, B>,
) -> Result<Walked<(Node<F::Filter, T::Node, B::Node>, &'a str)>, AllocError>
    ensures value { (source s : List ℕ) → OpensExpression s start.now
        → WalksToNode F.Filter.shape T.Node.shape B.Node.shape (registry_of F.makes language.now.filters) source s result }
    ensures shorter { IfOk result (λ walked. ComesTo walked (λ p. length p.1.now < length start.now) Unit) }
{
    let (head, following) = match value_head(start) {
        Some(begun) => begun,
        None => return Ok(Walked::NoExpression),
    };
    // Most expressions are names.
    if let Head::Name(name) = head {
        if let Some(rest) = expression_end(following) {
            let node = name_node::<F, T, B>(alloc, left_of(start), name)?;
            return Ok(Walked::Whole((node, rest)));
        }
    }
    match fast_chain(alloc, head, following, &language.filters)? {
        Walked::Whole((chain, rest)) => {
            Ok(Walked::Whole((Node::Chain(left_of(start), chain), rest)))
        }
        Walked::NoExpression => Ok(Walked::NoExpression),
        Walked::Undecided => Ok(Walked::Undecided),
    }
}

/// Returns the error "Invalid liquid" at the first brace of an opener of neither a tag nor an expression.
pub(crate) fn no_expression(alloc: Global, source: &str, brace: &str) -> Error
    ensures { (following : List ℕ) → brace.now ≡ open_brace ∷ following
        → IfSome (told result) (λ r. r ≡ refused_at source.now (codes "Invalid liquid") (open_brace ∷ following)) }
{
    error_at(alloc, source, "Invalid liquid", brace)
}

/// Returns the node of a name alone, where this many bytes of the source are left.
#[inline(always)]
pub(crate) fn name_node<F: ParseFilter, T: ParseTag<F>, B: ParseBlock<F>>(
    alloc: Global,
    left: u32,
    name: &str,
) -> Result<Node<F::Filter, T::Node, B::Node>, AllocError>
    ensures { IfOk result (λ node. node_of F.Filter.shape T.Node.shape B.Node.shape node ≡ chain_node (name_chain name.now)) }
{
    if name.len() > BRIEF_LIMIT {
        return Ok(Node::Chain(left, FilterChain::of_name(alloc, name)?));
    }
    let mut brief = Brief::new();
    brief.push_str(name);
    Ok(Node::Name(left, brief))
}

/// Returns the chain whose value has this beginning, where the text follows it, and what follows the expression's end.
fn fast_chain<'a, F: ParseFilter>(
    alloc: Global,
    head: Head<'_>,
    s: &'a str,
    registry: &PluginRegistry<F>,
) -> Result<Walked<(FilterChain<F::Filter>, &'a str)>, AllocError>
    ensures value { (source : List ℕ) → IfHeaded head.entry s.now (λ rest c. WalksToEnd (chain_fault c) (chain_of F.Filter.shape) result
        (chain_read (registry_of F.makes registry.now) source c) rest) }
    ensures shorter { IfOk result (λ walked. ComesTo walked (λ p. length p.1.now < length s.now) Unit) }
{
    match build_from(alloc, head, s, 0)? {
        Some((entry, following)) => match fast_filters(alloc, following, registry)? {
            Walked::Whole((filters, rest)) => {
                Ok(Walked::Whole((FilterChain::new(entry, filters), rest)))
            }
            Walked::NoExpression => Ok(Walked::NoExpression),
            Walked::Undecided => Ok(Walked::Undecided),
        },
        None => Ok(Walked::Undecided),
    }
}

/// Returns the filters that begin here, each after `|`, and what follows the expression's end.
fn fast_filters<'a, F: ParseFilter>(
    alloc: Global,
    s: &'a str,
    registry: &PluginRegistry<F>,
) -> Result<Walked<(Vec<F::Filter>, &'a str)>, AllocError>
    ensures value { (source rest : List ℕ) (fs : List Filter) → FiltersRule s.now rest fs
        → WalksToEnd (first_fault filter_fault fs) (λ v. map F.Filter.shape v.items) result
        (filters_read (registry_of F.makes registry.now) source fs) rest }
    ensures shorter { IfOk result (λ walked. ComesTo walked (λ p. length p.1.now < length s.now) Unit) }
{
    let mut filters = Vec::new(alloc);
    let mut rest = s;
    'filters: loop {
        match chain_step(rest) {
            Some(ChainStep::Filter(start)) => match fast_filter(alloc, start, registry)? {
                Some((filter, following)) => {
                    filters.push(filter)?;
                    rest = following;
                }
                None => return Ok(Walked::Undecided),
            },
            Some(ChainStep::End(following)) => return Ok(Walked::Whole((filters, following))),
            None => return Ok(Walked::NoExpression),
        }
    }
}

/// Returns the filter with this beginning, and what follows it. Returns `None` if it may be an error.
fn fast_filter<'a, F: ParseFilter>(
    alloc: Global,
    start: FilterStart<'a>,
    registry: &PluginRegistry<F>,
) -> Result<Option<(F::Filter, &'a str)>, AllocError>
    ensures value { (source rest : List ℕ) (f : Filter) → IsFilter start.entry rest f
        → IfOk result (λ found. IfSome found (λ p. Made (filter_fault f) F.Filter.shape p
        (filter_read (registry_of F.makes registry.now) source f) rest)) }
    ensures within { IfOk result (λ found. IfSome found (λ p. length p.1.now ≤ length start.entry.rest.now)) }
{
    let plug_in = match registry.get(start.name) {
        Some(plug_in) => plug_in,
        None => return Ok(None),
    };
    match build_arguments(alloc, start.rest)? {
        Some((arguments, rest)) => match plug_in.parse(alloc, arguments) {
            Ok(filter) => Ok(Some((filter, rest))),
            Err(error) => {
                if error.is_memory() {
                    Err(AllocError)
                } else {
                    Ok(None)
                }
            }
        },
        None => Ok(None),
    }
}
