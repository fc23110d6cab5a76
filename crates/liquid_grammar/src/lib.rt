//! The grammar of Liquid templates: rules, elements and places, matched without memory.
#![tactic(auto)]

mod bracket;
mod bytes;
mod element;
mod fault;
mod filter;
mod head;
mod kind;
mod laws;
mod literal;
mod matching;
mod name;
mod opener;
mod parts;
mod place;
mod raw;
mod text;
mod token;
mod value;

pub use bracket::BRACKET_LIMIT;
pub use element::{ChainText, Element, TagText, next_element};
pub use fault::{Fault, FaultKind, integer_of};
pub use head::Head;
pub use kind::{TokenKind, chain_kind, token_kind};
pub use laws::{
    elements_joined_are_the_text, matches_take_bytes, no_index_at_close_bracket,
    no_opener_inside_raw, one_cover, one_element, one_match, parts_are_matches, spans_are_slices,
    value_law,
};
pub use literal::Literal;
pub use matching::{
    match_argument, match_chain, match_expression, match_filter, match_identifier, match_index,
    match_literal, match_tag, match_token, match_value, match_variable, match_white,
};
pub use parts::{
    ArgumentStart, ChainStep, FilterStart, IndexStart, TokenParts, TokenText, chain_step,
    close_bracket, expression_end, expression_start, next_argument, next_filter, next_index,
    next_token, value_head,
};
pub use place::line_and_column;
