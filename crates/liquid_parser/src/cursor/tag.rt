//! A single tag: its name, its text and its tokens.
ghost use Rattle.std.specs.Prelude.{◌≡◌, [], codes, IfSome, MatchOption, ℕ, List};
ghost use Rattle.liquid_grammar.specs.meaning.Elements.{MeansTag};
ghost use Rattle.liquid_grammar.specs.meaning.Tokens.{Tag as MatchedTag, TagRule};
ghost use Rattle.liquid_parser.specs.meaning.Reading.{refused_at};
ghost use Rattle.liquid_parser.specs.meaning.WholeTag.{GivesTag, IfTag, Refuses, WholeTag};
ghost use Rattle.liquid_plugins.specs.meaning.NodesOf.{node_of};
ghost use Rattle.liquid_parser.specs.meaning.BlockReading.{ParsedFrom, Passes};
ghost use Rattle.liquid_parser.specs.meaning.ElementReading.{tag_node_read};
ghost use Rattle.liquid_parser.specs.meaning.Plugins.{language_of};

use crate::cursor::block::TagBlock;
use crate::cursor::tokens::TagTokenIter;
use crate::plugin::block::ParseBlock;
use crate::plugin::language::Language;
use crate::plugin::tag::ParseTag;
use crate::reading::closing::{AROUND, read_after_tag};
use crate::reading::dispatch::dispatch;
use crate::reading::place::{check, error_at};
use crate::reading::stack::ParserState;
use liquid_error::Error;
use liquid_grammar::{Element, TagText, next_element};
use liquid_plugins::{Node, ParseFilter};
use std::alloc::Global;

/// A tag whose literals and brackets have no fault. It borrows the source.
#[derive(Clone, Copy)]
pub struct Tag<'a> {
    pub(crate) name: &'a str,
    /// The text from the name on.
    pub(crate) from: &'a str,
    pub(crate) text: &'a str,
    pub(crate) tokens: TagTokenIter<'a>,
}

impl<'a> Tag<'a> {
    /// Parses a text that is one tag, such as `{% name token token %}`.
    ///
    /// If the whole text is not a tag, the error is `Invalid liquid`, at line 1 and column 1. Otherwise the first
    /// literal or bracket from the left with a fault is an error: `Integer out of range`, `Decimal not supported` or
    /// `Nested too deep`.
    pub fn new(alloc: Global, text: &'a str) -> std::result::Result<Tag<'a>, Error>
        ensures tag { (t : MatchedTag) → TagRule text.now [] t → GivesTag result text.now t }
        ensures none { ¬ (WholeTag text.now) → Refuses result (refused_at text.now (codes "Invalid liquid") text.now) }
    {
        match whole_tag(text) {
            Some(tag) => {
                check(alloc, text, tag.fault)?;
                Ok(Tag {
                    name: tag.name,
                    from: tag.place,
                    text: tag.text,
                    tokens: TagTokenIter {
                        source: text,
                        rest: tag.tokens,
                    },
                })
            }
            None => Err(error_at(alloc, text, "Invalid liquid", text)),
        }
    }

    /// Returns the tag's name.
    pub fn name(&self) -> &'a str
        ensures { result.now ≡ self.now.name.now }
    {
        self.name
    }

    /// Returns the whole text of the tag.
    pub fn as_str(&self) -> &'a str
        ensures { result.now ≡ self.now.text.now }
    {
        self.text
    }

    /// Returns a cursor over the tag's tokens, from the first one on. It is a copy: the tag keeps its tokens.
    pub fn tokens(&self) -> TagTokenIter<'a>
        ensures { result ≡ self.now.tokens }
    {
        self.tokens
    }

    /// Returns the cursor over the tag's tokens.
    pub fn into_tokens(self) -> TagTokenIter<'a>
        ensures { result ≡ self.entry.tokens }
    {
        self.tokens
    }

    /// Returns the node of a tag or a block of the language. A block takes its body and its end from the cursor's
    /// elements.
    ///
    /// Fails for a tag that the language doesn't have ("Unknown tag."), with the error of its plug-in, and with the
    /// first error in a block's body. Then the place of the cursor is unspecified.
    pub fn parse<F: ParseFilter, T: ParseTag<F>, B: ParseBlock<F>>(
        self,
        alloc: Global,
        block: &mut TagBlock<'_, '_>,
        language: &Language<F, T, B>,
    ) -> std::result::Result<Node<F::Filter, T::Node, B::Node>, Error>
        ensures value { IfTag self.entry (λ own t. ParsedFrom (node_of F.Filter.shape T.Node.shape B.Node.shape) result
            block.old block.new (tag_node_read (language_of F.makes T.gives B.block language.now) block.old.source.now 1 own t)) }
        ensures passes { Passes block.old block.new }
        ensures closed { block.new.is_closed ≡ block.old.is_closed }
    {
        let mut state = ParserState {
            open: Vec::new(alloc),
            nodes: Vec::new(alloc),
        };
        let next = dispatch(alloc, AROUND, &mut state, self, language)?;
        let (mut nodes, rest) = read_after_tag(
            alloc,
            block.source,
            block.rest,
            state,
            next,
            language,
        )?;
        block.rest = rest;
        match nodes.pop() {
            Some(node) => Ok(node),
            None => Err(error_at(alloc, block.source, "Invalid liquid", rest)),
        }
    }
}

/// Returns the tag that is the whole text.
fn whole_tag<'a>(text: &'a str) -> Option<TagText<'a>>
    ensures only { (t : MatchedTag) → TagRule text.now [] t → MatchOption result ⊥ (λ found. MeansTag found t text.now) }
    ensures found { IfSome result (λ _. WholeTag text.now) }
{
    let (element, rest) = next_element(text)?;
    match element {
        Element::Tag(tag) => { if rest.is_empty() { Some(tag) } else { None } }
        Element::Raw(_) | Element::Expression(_) | Element::Invalid(_) => None,
    }
}
