//! Texts that the filter `date` can't read.

use crate::uses::{Origin, Uses};
use filter_dates::moment_of;
use liquid_grammar::{
    ChainStep, ChainText, Head, IndexStart, Literal, chain_step, next_index, value_head,
};
use liquid_scalar::Scalar;
use liquid_value::{Object, Value};
use std::alloc::{AllocError, Global};

/// Adds the text that an expression prints as a date, if it is not one: a literal, or a text of the data. So many bytes
/// follow the expression.
pub(crate) fn add_date(
    alloc: Global,
    uses: &mut Uses,
    origin: Origin<'_>,
    expression: ChainText<'_>,
    left: usize,
    data: &Object,
) -> Result<(), AllocError> {
    let Some((text, rest)) = text_at_head(expression.chain, data) else {
        return Ok(());
    };
    if !is_dated(rest) || uses.dates.contains_key(text) || is_date(alloc, text)? {
        return Ok(());
    }
    let length = expression.text.len();
    let place = origin.place_before(alloc, left.saturating_add(length))?;
    uses.dates.insert(String::from_str(alloc, text)?, place)?;
    Ok(())
}

/// Returns the text that a chain begins with, and the rest of the chain.
fn text_at_head<'t>(chain: &'t str, data: &'t Object) -> Option<(&'t str, &'t str)> {
    match value_head(chain)? {
        (Head::Literal(Literal::Text(text)), rest) => Some((text, rest)),
        (Head::Name(name), rest) => text_in(data, name, rest),
        _ => None,
    }
}

/// Returns the text of the data at a path of names, and what follows the path.
fn text_in<'t>(data: &'t Object, name: &str, indexes: &'t str) -> Option<(&'t str, &'t str)> {
    let mut value = data.get(name)?;
    let mut rest = indexes;
    'indexes: while let Some((index, after)) = next_index(rest, 0) {
        let IndexStart::Named(member) = index else {
            return None;
        };
        let Value::Object(object) = value else {
            return None;
        };
        value = object.get(member)?;
        rest = after;
    }
    match value {
        Value::Scalar(Scalar::Str(text)) => Some((text.as_str(), rest)),
        _ => None,
    }
}

/// Returns `true` if the first filter of a chain is `date`.
fn is_dated(rest: &str) -> bool {
    match chain_step(rest) {
        Some(ChainStep::Filter(filter)) => filter.name == "date",
        _ => false,
    }
}

/// Returns `true` if `date` reads a text. What `now` and `today` are is known only to the host.
fn is_date(alloc: Global, text: &str) -> Result<bool, AllocError> {
    if text == "now" || text == "today" {
        return Ok(true);
    }
    let value = Value::Scalar(Scalar::Str(String::from_str(alloc, text)?));
    let moment = moment_of(alloc, &value, None)?;
    Ok(moment.is_some())
}
