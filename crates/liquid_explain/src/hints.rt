//! What may help where a text can't be read.

use crate::part::Part;
use crate::unreadable::Unreadable;

/// Returns what may help, by what is there and what was expected.
pub(crate) fn find_hint(text: &Unreadable<'_>) -> Option<&'static str> {
    match hint_of_braces(text) {
        Some(hint) => Some(hint),
        None => match hint_of_quote(text.found) {
            Some(hint) => Some(hint),
            None => match hint_of_sign(text) {
                Some(hint) => Some(hint),
                None => hint_of_value(text),
            },
        },
    }
}

/// Returns what may help at braces.
fn hint_of_braces(text: &Unreadable<'_>) -> Option<&'static str> {
    match text.found {
        "{{" | "{%" if text.expects(Part::Closer) => Some("the braces before this are not closed"),
        "{{" | "{%" => Some("there are no braces inside braces"),
        "}}" if text.is_tag => Some("a tag ends with `%}`"),
        "}" if text.is_tag => Some("a tag ends with `%}`"),
        "-}" | "-}}" if text.is_tag => Some("a tag ends with `-%}`"),
        "}" | "-}" => Some("one `}` is missing"),
        "%}" | "-%}" if !text.is_tag => Some("an expression ends with `}}`"),
        _ => None,
    }
}

/// Returns what may help at a character that only looks like another.
fn hint_of_quote(found: &str) -> Option<&'static str> {
    match found {
        "\u{201c}" | "\u{201d}" | "\u{2018}" | "\u{2019}" => Some(
            "a text has straight quotes, \" or '",
        ),
        "\u{a0}" => Some("write a plain space"),
        _ if !found.is_ascii() => Some(
            "a name has letters a to z, digits, _ and -; write user[\"na\u{ef}ve\"] for another key",
        ),
        _ => None,
    }
}

/// Returns what may help at a sign of another language.
fn hint_of_sign(text: &Unreadable<'_>) -> Option<&'static str> {
    match text.found {
        "#" if text.expects(Part::TagName) => Some(
            "a comment is written `{% comment %}..{% endcomment %}`",
        ),
        _ if text.expects(Part::TagName) => None,
        "&&" | "&" => Some("write `and`"),
        "|" | "||" if text.is_tag => Some("write `or`"),
        "|" | "||" if text.expects(Part::FilterName) => Some(
            "there is no `||`: for another value write `| default:`",
        ),
        "!" => Some("there is no `!`: use the block `unless`"),
        "?" | "??" => Some("there is no `?`: use the block `if`, or the filter `default`"),
        "(" if text.expects(Part::Bar) => Some(
            "nothing is called with parentheses: arguments of a filter come after `:`",
        ),
        "(" => Some("parentheses are for ranges, such as (1..3)"),
        _ if text.expects(Part::Dots) => Some("parentheses are for ranges, such as (1..3)"),
        ".." => Some("a range is written in parentheses, such as (1..3)"),
        "[" => Some("there are no lists in a template: use the filter `split`"),
        "==" | "!=" | "<" | ">" | "<=" | ">=" | "<>" | "and" | "or" | "contains" if !text.is_tag =>
            { Some("a condition belongs in a tag, such as `if`") }
        "=" if text.expects(Part::Comma) => Some("an argument's name is followed by `:`"),
        "+" | "++" | "-" | "--" | "*" | "**" | "/" | "//" | "%" if text.expects(Part::Bar) => {
            Some(
                "there is no arithmetic: use filters such as `plus`, `minus`, `times` and `divided_by`",
            )
        }
        _ => None,
    }
}

/// Returns what may help at a value.
fn hint_of_value(text: &Unreadable<'_>) -> Option<&'static str> {
    let first = text.found.chars().next()?;
    let is_quote = first == '"' || first == '\'';
    if first.is_ascii_digit() && text.expects(Part::Member) {
        return Some("an item is taken by its number in brackets, such as posts[0]");
    }
    if !is_quote && !first.is_ascii_alphanumeric() && first != '_' {
        return None;
    }
    if text.expects(Part::Colon) {
        Some("the arguments of a filter come after `:`")
    } else if text.expects(Part::Comma) {
        Some("arguments are separated by `,`")
    } else if !text.expects(Part::Bar) || text.is_tag {
        None
    } else if text.front.ends_with("\"") || text.front.ends_with("'") {
        Some("the text ends at this quote: to have a quote in it, use the other kind around it")
    } else {
        Some("two values stand side by side: join names by `.`, or put a filter after `|`")
    }
}
