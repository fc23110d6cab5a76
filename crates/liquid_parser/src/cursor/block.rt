//! The cursor over the elements of a block.
ghost use Rattle.std.specs.Prelude.{◌≡◌, ◌<◌, ℕ, false, true, List, [], Ok, None, IfOk, is_none};
ghost use Rattle.liquid_error.specs.meaning.Told.{Gives};
ghost use Rattle.liquid_grammar.specs.meaning.Cover.{Cover};
ghost use Rattle.liquid_parser.specs.meaning.BlockReading.{or_end, handed_out, following_first, bytes_left, end_or, next_read};
ghost use Rattle.liquid_parser.specs.meaning.BlockReading.{HandsOut, Passes, Escapes, FindsAll, IsEachReading, ParsedNextFrom};
ghost use Rattle.liquid_parser.specs.meaning.Elements.{StandsFor};
ghost use Rattle.liquid_plugins.specs.meaning.NodesOf.{node_of, shapes_of};
ghost use Rattle.liquid_parser.specs.meaning.Plugins.{language_of};
ghost use Rattle.liquid_grammar.specs.meaning.Cover as cover;
ghost use Rattle.liquid_parser.specs.meaning.Reading as spec;

use crate::cursor::element::{BlockElement, check_element};
use crate::cursor::tag::Tag;
use crate::plugin::block::ParseBlock;
use crate::plugin::language::Language;
use crate::plugin::tag::ParseTag;
use crate::reading::escape::{escape, unclosed_error};
use liquid_error::Error;
use liquid_grammar::next_element;
use liquid_plugins::{Node, ParseFilter};
use std::alloc::Global;

/// The elements of a block's body that are left, up to the block's end tag. It borrows the source.
#[derive(Drop)]
pub struct TagBlock<'a, 'n> {
    pub(crate) source: &'a str,
    pub(crate) rest: &'a str,
    pub(crate) start_name: &'n str,
    pub(crate) end_name: &'n str,
    pub(crate) is_closed: bool,
}

impl<'a, 'n> TagBlock<'a, 'n> {
    /// Returns the cursor over the elements of a block's body and of what follows it. The block is open, and its start
    /// tag and end tag have these names. Places are those in the body's text.
    pub fn new(body_text: &'a str, start_name: &'n str, end_name: &'n str) -> TagBlock<'a, 'n>
        ensures source { result.source.now ≡ body_text.now }
        ensures rest { result.rest.now ≡ body_text.now }
        ensures start_name { result.start_name.now ≡ start_name.now }
        ensures end_name { result.end_name.now ≡ end_name.now }
        ensures open { result.is_closed ≡ false }
    {
        TagBlock {
            source: body_text,
            rest: body_text,
            start_name,
            end_name,
            is_closed: false,
        }
    }

    /// Returns the next element, even an invalid one. Returns `None` at the end tag, which closes the block, and after
    /// it.
    ///
    /// Fails at the first literal or bracket of the element that has a fault, at a token of the end tag ("Unexpected
    /// token"), and if the text ends before the end tag ("Unclosed block."). After an error the block is open, and the
    /// element is passed.
    pub fn next(&mut self, alloc: Global) -> std::result::Result<Option<BlockElement<'a>>, Error>
        ensures open { self.old.is_closed ≡ false → (es : List cover.Element) → Cover self.old.rest.now es
            → HandsOut result self.new (handed_out self.old.source.now self.old.end_name.now es)
            × Cover self.new.rest.now (following_first es) }
        ensures closed { self.old.is_closed ≡ true → (result ≡ Ok None) × (self.new ≡ self.old) }
        ensures ends { IfOk result (λ found. self.new.is_closed ≡ is_none found) }
        ensures passes { Passes self.old self.new }
        ensures shorter { self.old.is_closed ≡ false → IfOk result (λ _. bytes_left self.new < bytes_left self.old) }
    {
        if self.is_closed {
            return Ok(None);
        }
        let place = self.rest;
        match next_element(place) {
            Some((found, following)) => {
                self.rest = following;
                let element = check_element(alloc, self.source, place, found)?;
                let is_end = is_end(alloc, element, self.end_name)?;
                self.is_closed = is_end;
                if is_end { Ok(None) } else { Ok(Some(element)) }
            }
            None => Err(unclosed_error(alloc, self.source, self.end_name)),
        }
    }

    /// Returns the text from the current element up to the end tag, which closes the block. Nothing in it is read.
    /// Everything but an end tag without tokens is content. If nesting is allowed, a start tag in it must have its own
    /// end tag.
    ///
    /// Fails if the text ends before the end tag ("Unclosed block."). Then the block is open at the text's end.
    pub fn escape_liquid(
        &mut self,
        alloc: Global,
        allow_nesting: bool,
    ) -> std::result::Result<&'a str, Error>
        requires { self.old.is_closed ≡ false }
        ensures value { (es : List cover.Element) → Cover self.old.rest.now es
            → Escapes (λ t. t.now) result self.new (spec.escape self.old.end_name.now self.old.start_name.now allow_nesting 0 [] es) }
        ensures passes { Passes self.old self.new }
    {
        match escape(self.rest, self.end_name, self.start_name, allow_nesting) {
            Some((text, following)) => {
                self.rest = following;
                self.is_closed = true;
                Ok(text)
            }
            None => {
                self.rest = self.rest.split_at(self.rest.len()).1;
                Err(unclosed_error(alloc, self.source, self.end_name))
            }
        }
    }

    /// Takes a cursor whose block must be closed.
    pub fn assert_empty(self)
        requires { self.is_closed ≡ true }
    {}

    /// Returns `true` if the end tag was passed.
    pub fn is_closed(&self) -> bool
        ensures { result ≡ self.now.is_closed }
    {
        self.is_closed
    }

    /// Returns the node of the next element. Returns `None` at the end tag, which closes the block, and after it.
    ///
    /// Fails if `next` does, or if parsing the element does. Then the place of the cursor is unspecified.
    pub fn parse_next<F: ParseFilter, T: ParseTag<F>, B: ParseBlock<F>>(
        &mut self,
        alloc: Global,
        language: &Language<F, T, B>,
    ) -> std::result::Result<Option<Node<F::Filter, T::Node, B::Node>>, Error>
        ensures open { self.old.is_closed ≡ false
            → ParsedNextFrom (node_of F.Filter.shape T.Node.shape B.Node.shape) result self.old self.new
            (next_read (language_of F.makes T.gives B.block language.now) self.old.source.now self.old.end_name.now 1) }
        ensures closed { self.old.is_closed ≡ true → (result ≡ Ok None) × (self.new ≡ self.old) }
        ensures ends { IfOk result (λ found. self.new.is_closed ≡ is_none found) }
        ensures passes { Passes self.old self.new }
        ensures shorter { self.old.is_closed ≡ false → IfOk result (λ _. bytes_left self.new < bytes_left self.old) }
    {
        match self.next(alloc)? {
            Some(element) => Ok(Some(element.parse(alloc, self, language)?)),
            None => Ok(None),
        }
    }

    /// Returns the nodes of all elements up to the end tag, which closes the block. A closed block has none.
    ///
    /// Fails with the first error, as `parse_next` does.
    pub fn parse_all<F: ParseFilter, T: ParseTag<F>, B: ParseBlock<F>>(
        &mut self,
        alloc: Global,
        language: &Language<F, T, B>,
    ) -> std::result::Result<Vec<Node<F::Filter, T::Node, B::Node>>, Error>
        ensures found { self.old.is_closed ≡ false → (es : List cover.Element) → Cover self.old.rest.now es
            → FindsAll (λ v. shapes_of F.Filter.shape T.Node.shape B.Node.shape v.items)
            (language_of F.makes T.gives B.block language.now) 1 result self.new es }
        ensures only { self.old.is_closed ≡ false
            → IsEachReading (λ v. shapes_of F.Filter.shape T.Node.shape B.Node.shape v.items)
            (language_of F.makes T.gives B.block language.now) 1 result self.old self.new }
        ensures closed { self.old.is_closed ≡ true → IfOk result (λ v. v.items ≡ []) × (self.new ≡ self.old) }
        ensures ends { IfOk result (λ _. self.new.is_closed ≡ true) }
        ensures passes { Passes self.old self.new }
    {
        let mut nodes = Vec::new(alloc);
        'nodes: while !self.is_closed {
            match self.parse_next(alloc, language)? {
                Some(node) => nodes.push(node)?,
                None => {}
            }
        }
        Ok(nodes)
    }
}

/// Returns `true` if the element is a tag of this end name. A token of such a tag is an error.
fn is_end(
    alloc: Global,
    element: BlockElement<'_>,
    end_name: &str,
) -> std::result::Result<bool, Error>
    ensures { (source following : List ℕ) (e : cover.Element) → StandsFor element.entry source following e
        → Gives (end_or e) result (or_end source end_name.now e) }
{
    match element {
        BlockElement::Tag(tag) => {
            if tag.name == end_name {
                tag.tokens.expect_nothing(alloc)?;
                Ok(true)
            } else {
                Ok(false)
            }
        }
        BlockElement::Raw(_) | BlockElement::Expression(_) | BlockElement::Invalid(_) => Ok(false),
    }
}
