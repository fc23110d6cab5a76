//! The warnings of `liquid check`.

use crate::uses::Uses;
use liquid_value::Object;
use page_site::Partials;
use std::io::Write;

/// The names that loops, layouts and front matter give.
const GIVEN: [&str; 4] = ["content", "forloop", "page", "tablerowloop"];

/// Writes a warning for each name that the data lacks, if there are data, for each text that is no date, and for each
/// partial that no text names, if all names are known.
pub(crate) fn warn<E: Write>(
    uses: &Uses,
    data: &Object,
    has_data: bool,
    partials: &Partials,
    err: &mut E,
) {
    if has_data {
        warn_of_names(uses, data, err);
    }
    for (text, place) in &uses.dates {
        let _ = writeln!(
            err,
            "warning: {}:{}:{}: '{text}' is not a date",
            place.path, place.line, place.column,
        );
    }
    if !uses.has_dynamic {
        for name in partials.keys() {
            if !uses.partials.contains(name.as_str()) {
                let _ = writeln!(err, "warning: nothing includes the partial '{name}'");
            }
        }
    }
}

/// Writes a warning for each name that the data lacks.
fn warn_of_names<E: Write>(uses: &Uses, data: &Object, err: &mut E) {
    for (name, place) in &uses.names {
        let word = name.as_str();
        if !uses.bound.contains(word) && !data.contains_key(word) && !GIVEN.contains(&word) {
            let _ = writeln!(
                err,
                "warning: {}:{}:{}: the data has no '{word}'",
                place.path, place.line, place.column,
            );
        }
    }
}
