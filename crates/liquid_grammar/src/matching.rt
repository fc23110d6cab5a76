//! Matches of single rules. Each call takes no memory and no stack that grows with the text.
ghost use Rattle.std.specs.Prelude.{◌<◌, ◌≤◌, length, IfSome};
ghost use Rattle.liquid_grammar.specs.meaning.Grammar.{White, Identifier};
ghost use Rattle.liquid_grammar.specs.meaning.Literals.{LiteralRule};
ghost use Rattle.liquid_grammar.specs.meaning.Values.{ValueRule, VariableRule, IndexRule};
ghost use Rattle.liquid_grammar.specs.meaning.Tokens.{ArgumentRule, FilterRule, ChainRule, TokenRule, ExpressionRule, TagRule};
ghost use Rattle.liquid_grammar.specs.meaning.Faults.{value_fault, index_fault, argument_fault, filter_fault};
ghost use Rattle.liquid_grammar.specs.meaning.Faults.{chain_fault, token_fault, tag_fault};
ghost use Rattle.liquid_grammar.specs.meaning.Matches.{Matches, Finds};
ghost use Rattle.liquid_grammar.specs.meaning.Meanings.{literal_of};

use crate::fault::Fault;
use crate::filter::{argument, chain, filter};
use crate::head::read_literal;
use crate::literal::Literal;
use crate::name::identifier;
use crate::text::split_white;
use crate::token::{expression, tag, token};
use crate::value::{index, value, variable};

/// Returns the whitespace that the text begins with, and what follows it.
pub fn match_white(s: &str) -> (&str, &str)
    ensures value { White s.now result.1.now result.0.now }
    ensures within { length result.1.now ≤ length s.now }
{
    split_white(s)
}

/// Returns the longest identifier that the text begins with, and what follows it.
pub fn match_identifier(s: &str) -> Option<(&str, &str)>
    ensures value { Finds Identifier (λ x. x.now) s.now result }
    ensures shorter { IfSome result (λ x. length x.1.now < length s.now) }
{
    identifier(s)
}

/// Returns the literal that the text begins with, and what follows it.
pub fn match_literal(s: &str) -> Option<(Literal<'_>, &str)>
    ensures value { Finds LiteralRule literal_of s.now result }
    ensures shorter { IfSome result (λ x. length x.1.now < length s.now) }
{
    read_literal(s)
}

/// Matches the value that the text begins with. Returns its first fault and what follows it.
pub fn match_value<'a>(s: &'a str) -> Option<(Option<Fault<'a>>, &'a str)>
    ensures value { Matches ValueRule value_fault s.now result }
    ensures shorter { IfSome result (λ x. length x.1.now < length s.now) }
{
    value(s)
}

/// Matches the variable that the text begins with. Returns its first fault and what follows it.
pub fn match_variable<'a>(s: &'a str) -> Option<(Option<Fault<'a>>, &'a str)>
    ensures value { Matches VariableRule value_fault s.now result }
    ensures shorter { IfSome result (λ x. length x.1.now < length s.now) }
{
    variable(s)
}

/// Matches the index that the text begins with. Returns its first fault and what follows it.
pub fn match_index<'a>(s: &'a str) -> Option<(Option<Fault<'a>>, &'a str)>
    ensures value { Matches IndexRule (index_fault 0) s.now result }
    ensures shorter { IfSome result (λ x. length x.1.now < length s.now) }
{
    index(s)
}

/// Matches the argument that the text begins with. Returns its first fault and what follows it.
pub fn match_argument<'a>(s: &'a str) -> Option<(Option<Fault<'a>>, &'a str)>
    ensures value { Matches ArgumentRule argument_fault s.now result }
    ensures shorter { IfSome result (λ x. length x.1.now < length s.now) }
{
    argument(s)
}

/// Matches the filter that the text begins with. Returns its first fault and what follows it.
pub fn match_filter<'a>(s: &'a str) -> Option<(Option<Fault<'a>>, &'a str)>
    ensures value { Matches FilterRule filter_fault s.now result }
    ensures shorter { IfSome result (λ x. length x.1.now < length s.now) }
{
    filter(s)
}

/// Matches the chain that the text begins with. Returns its first fault and what follows it.
pub fn match_chain<'a>(s: &'a str) -> Option<(Option<Fault<'a>>, &'a str)>
    ensures value { Matches ChainRule chain_fault s.now result }
    ensures shorter { IfSome result (λ x. length x.1.now < length s.now) }
{
    chain(s)
}

/// Matches the token that the text begins with. Returns its first fault and what follows it.
pub fn match_token<'a>(s: &'a str) -> Option<(Option<Fault<'a>>, &'a str)>
    ensures value { Matches TokenRule token_fault s.now result }
    ensures shorter { IfSome result (λ x. length x.1.now < length s.now) }
{
    token(s)
}

/// Matches the expression that the text begins with. Returns its first fault and what follows it.
pub fn match_expression<'a>(s: &'a str) -> Option<(Option<Fault<'a>>, &'a str)>
    ensures value { Matches ExpressionRule chain_fault s.now result }
    ensures shorter { IfSome result (λ x. length x.1.now < length s.now) }
{
    match expression(s) {
        Some((_, _kind, fault, rest)) => Some((fault, rest)),
        None => None,
    }
}

/// Matches the tag that the text begins with. Returns its first fault and what follows it.
pub fn match_tag<'a>(s: &'a str) -> Option<(Option<Fault<'a>>, &'a str)>
    ensures value { Matches TagRule tag_fault s.now result }
    ensures shorter { IfSome result (λ x. length x.1.now < length s.now) }
{
    match tag(s) {
        Some(found) => Some((found.fault, found.rest)),
        None => None,
    }
}
