//! The elements of a source, one by one: their texts, and their nodes.
ghost use Rattle.std.specs.Prelude.{◌≡◌, ◌∷◌, ℕ, List, IfOk, IfSome, codes};
ghost use Rattle.liquid_error.specs.meaning.Told.{told, Gives};
ghost use Rattle.liquid_grammar.specs.meaning.Bytes.{open_brace};
ghost use Rattle.liquid_grammar.specs.meaning.Cover.{IsElement, text_of};
ghost use Rattle.liquid_grammar.specs.meaning.Elements.{Means};
ghost use Rattle.liquid_plugins.specs.meaning.NodesOf.{node_of, IsText};
ghost use Rattle.liquid_parser.specs.meaning.Elements.{IfElement, IfExpression, IsInvalid, StandsFor};
ghost use Rattle.liquid_parser.specs.meaning.ElementReading.{HandsOver, node_read};
ghost use Rattle.liquid_parser.specs.meaning.Plugins.{registry_of, language_of};
ghost use Rattle.liquid_parser.specs.meaning.Reading.{expression_read, refused_at};
ghost use Rattle.liquid_parser.specs.meaning.WholeTag.{Refuses};
ghost use Rattle.liquid_parser.specs.meaning.BlockReading.{ParsedFrom, Passes};
ghost use Rattle.liquid_grammar.specs.meaning.Cover as cover;

use crate::chain::fast_path::{name_node, no_expression};
use crate::chain::filters::parse_chain;
use crate::cursor::block::TagBlock;
use crate::cursor::tag::Tag;
use crate::cursor::tokens::TagTokenIter;
use crate::plugin::block::ParseBlock;
use crate::plugin::language::Language;
use crate::plugin::tag::ParseTag;
use crate::reading::place::check;
use liquid_error::Error;
use liquid_grammar::{Element, match_white, parts_are_matches};
use liquid_plugins::{BRIEF_LIMIT, Brief, Node, ParseFilter, left_of};
use std::alloc::{AllocError, Global};

/// Text that is written unchanged. It borrows the source.
#[derive(Clone, Copy)]
pub struct Raw<'a> {
    pub(crate) text: &'a str,
}

/// An expression whose literals and brackets have no fault. It borrows the source.
#[derive(Clone, Copy)]
pub struct Exp<'a> {
    pub(crate) source: &'a str,
    pub(crate) text: &'a str,
    /// The text from the chain on.
    pub(crate) chain: &'a str,
    /// The name of the chain, if it is a name without indexes and filters.
    pub(crate) name: Option<&'a str>,
}

/// The whitespace and one `{` of an opener that begins neither a tag nor an expression. It borrows the source.
#[derive(Clone, Copy)]
pub struct InvalidLiquidToken<'a> {
    pub(crate) source: &'a str,
    pub(crate) text: &'a str,
    /// The text from the `{` on.
    pub(crate) brace: &'a str,
}

/// An element of a source, which it borrows.
#[derive(Clone, Copy)]
pub enum BlockElement<'a> {
    Raw(Raw<'a>),
    Tag(Tag<'a>),
    Expression(Exp<'a>),
    Invalid(InvalidLiquidToken<'a>),
}

impl<'a> Raw<'a> {
    /// Returns the text.
    pub fn as_str(&self) -> &'a str
        ensures { result.now ≡ self.now.text.now }
    {
        self.text
    }

    /// Returns the node that writes the text.
    #[inline(always)]
    pub fn into_renderable<X, N, K>(self, alloc: Global) -> Result<Node<X, N, K>, AllocError>
        ensures { IfOk result (λ node. IsText node self.entry.text.now) }
    {
        if self.text.len() > BRIEF_LIMIT {
            return Ok(Node::Text(String::from_str(alloc, self.text)?));
        }
        let mut brief = Brief::new();
        brief.push_str(self.text);
        Ok(Node::Brief(brief))
    }
}

impl<'a> Exp<'a> {
    /// Returns the whole text of the expression.
    pub fn as_str(&self) -> &'a str
        ensures { result.now ≡ self.now.text.now }
    {
        self.text
    }

    /// Returns the node of the expression's chain. Its filters are made from left to right.
    ///
    /// Fails for a filter that the language doesn't have, and with the error of a filter. The first error from the left
    /// is returned.
    #[inline(always)]
    pub fn parse<F: ParseFilter, T: ParseTag<F>, B: ParseBlock<F>>(
        self,
        alloc: Global,
        language: &Language<F, T, B>,
    ) -> std::result::Result<Node<F::Filter, T::Node, B::Node>, Error>
        ensures { IfExpression self.entry (λ source chain. Gives (node_of F.Filter.shape T.Node.shape B.Node.shape) result
            (expression_read (registry_of F.makes language.now.filters) source chain)) }
    {
        // Most expressions are names, whose text doesn't have to be walked again.
        if let Some(name) = self.name {
            return Ok(name_node::<F, T, B>(alloc, left_of(self.chain), name)?);
        }
        let chain = parse_chain(alloc, self.source, self.chain, &language.filters)?;
        Ok(Node::Chain(left_of(self.chain), chain))
    }
}

impl<'a> InvalidLiquidToken<'a> {
    /// Returns the whitespace before the `{`, and the `{`.
    pub fn as_str(&self) -> &'a str
        ensures { result.now ≡ self.now.text.now }
    {
        self.text
    }

    /// Returns the error "Invalid liquid", at the `{`. The block stays as it is.
    pub fn parse<X, N, K>(
        self,
        alloc: Global,
        block: &mut TagBlock<'_, '_>,
    ) -> std::result::Result<Node<X, N, K>, Error>
        ensures refused { (source following : List ℕ) → IsInvalid self.entry source following
            → Refuses result (refused_at source (codes "Invalid liquid") (open_brace ∷ following)) }
        ensures stays { block.new ≡ block.old }
    {
        let _ = block;
        Err(self.refusal(alloc))
    }

    /// Returns the same error.
    pub(crate) fn refusal(self, alloc: Global) -> Error
        ensures { (source following : List ℕ) → IsInvalid self.entry source following
            → IfSome (told result) (λ r. r ≡ refused_at source (codes "Invalid liquid") (open_brace ∷ following)) }
    {
        no_expression(alloc, self.source, self.brace)
    }
}

impl<'a> BlockElement<'a> {
    /// Returns the text of the element in the source.
    pub fn as_str(&self) -> &'a str
        ensures { (source following : List ℕ) (e : cover.Element) → StandsFor self.now source following e → result.now ≡ text_of e }
    {
        match *self {
            BlockElement::Raw(raw) => raw.as_str(),
            BlockElement::Tag(tag) => tag.as_str(),
            BlockElement::Expression(exp) => exp.as_str(),
            BlockElement::Invalid(token) => token.as_str(),
        }
    }

    /// Returns the node of the element. A block takes its body and its end from the cursor's elements.
    ///
    /// Fails for an invalid element ("Invalid liquid"), and with the error of an expression or a tag. Then the place of
    /// the cursor is unspecified.
    pub fn parse<F: ParseFilter, T: ParseTag<F>, B: ParseBlock<F>>(
        self,
        alloc: Global,
        block: &mut TagBlock<'_, '_>,
        language: &Language<F, T, B>,
    ) -> std::result::Result<Node<F::Filter, T::Node, B::Node>, Error>
        ensures value { IfElement self.entry (λ own following e.
            ParsedFrom (node_of F.Filter.shape T.Node.shape B.Node.shape) result block.old block.new
            (node_read (language_of F.makes T.gives B.block language.now) block.old.source.now 1 own following e)) }
        ensures passes { Passes block.old block.new }
        ensures closed { block.new.is_closed ≡ block.old.is_closed }
    {
        match self {
            BlockElement::Raw(raw) => Ok(raw.into_renderable(alloc)?),
            BlockElement::Tag(tag) => tag.parse(alloc, block, language),
            BlockElement::Expression(exp) => exp.parse(alloc, language),
            BlockElement::Invalid(token) => token.parse(alloc, block),
        }
    }
}

/// Returns an element of the source, after checking its literals and brackets.
#[inline(always)]
pub(crate) fn check_element<'a>(
    alloc: Global,
    source: &'a str,
    place: &'a str,
    element: Element<'a>,
) -> std::result::Result<BlockElement<'a>, Error>
    ensures { (following : List ℕ) (e : cover.Element) → IsElement place.now following e → Means element.entry e
        → HandsOver result source.now following e }
{
    parts_are_matches();
    match element {
        Element::Raw(text) => Ok(BlockElement::Raw(Raw { text })),
        Element::Tag(tag) => {
            check(alloc, source, tag.fault)?;
            Ok(BlockElement::Tag(Tag {
                name: tag.name,
                from: tag.place,
                text: tag.text,
                tokens: TagTokenIter {
                    source,
                    rest: tag.tokens,
                },
            }))
        }
        Element::Expression(expression) => {
            check(alloc, source, expression.fault)?;
            Ok(BlockElement::Expression(Exp {
                source,
                text: expression.text,
                chain: expression.chain,
                name: expression.kind.identifier(),
            }))
        }
        Element::Invalid(text) => Ok(BlockElement::Invalid(InvalidLiquidToken {
            source,
            text,
            brace: match_white(place).1,
        })),
    }
}
