//! Printing a date time by a `strftime` pattern.
ghost use Rattle.std.specs.Prelude.{◌≡◌, ℕ, List, ◌∷◌, ◌++◌, Ok, Err, Result, IfOk, IfErr, OnOk, MatchResult, encode_utf8_all};
ghost use Rattle.std.specs.Str.{chars, IsUtf8};
ghost use Rattle.std.specs.String.{string_bytes};
ghost use Rattle.liquid_dates.specs.meaning.Pattern.{FormatsTo, OnRefusal, IsAnswer};
ghost use Rattle.liquid_dates.specs.steps.PatternReader.{IsPrinted, HasRest, conversion_print, directive_at};

use crate::directive_text::write_directive;
use crate::pattern::{Conversion, read_conversion};
use crate::{DateFormatError, DateTime};
use std::alloc::{AllocError, Global};

// Most directives print more characters than they are written with. This much extra room saves a second allocation for
// the usual pattern.
const ROOM: usize = 16;

impl DateTime {
    /// Prints the date time by a `strftime` pattern such as `%Y-%m-%d`.
    ///
    /// A directive is a `%`, flags of `-`, `_`, `0`, `^` and `#`, a width, `E` or `O`, and a letter. Everything else is
    /// copied.
    ///
    /// A pattern that ends inside a directive and a width that is too great for a `usize` are errors. Room for the
    /// padding of a directive is made before any of it is written, so a width that memory can't hold is an
    /// out-of-memory error.
    pub fn format(&self, alloc: Global, pattern: &str) -> Result<String, DateFormatError>
        ensures text { IfOk result
            (λ s. FormatsTo self.now (chars pattern.now) (Ok (string_bytes s))) }
        ensures refused { IfErr result
            (λ e. OnRefusal e (FormatsTo self.now (chars pattern.now) (Err e))) }

        // The result is the pattern's own answer.
        ensures only { (answer : Result (List ℕ) DateFormatError)
            → FormatsTo self.now (chars pattern.now) answer → IsAnswer result answer }
    {
        let mut out = String::with_capacity(alloc, pattern.len().saturating_add(ROOM))?;
        let mut rest = pattern;
        'directives: while let Some((copied, following)) = rest.split_once('%') {
            write_copied(&mut out, copied)?;
            rest = write_directive_at(&mut out, self, following)?;
        }
        write_copied(&mut out, rest)?;
        Ok(out)
    }
}

// Appends the text between directives, which is often empty.
fn write_copied(out: &mut String, copied: &str) -> Result<(), AllocError>
    ensures { OnOk result (string_bytes out.new ≡ string_bytes out.old ++ copied.now) }
{
    if copied.is_empty() {
        return Ok(());
    }
    out.push_str(copied)
}

// Appends what the directive at the front of a text prints, and returns the rest. The text begins after the per cent.
fn write_directive_at<'a>(
    out: &mut String,
    date_time: &DateTime,
    text: &'a str,
) -> Result<&'a str, DateFormatError>
    ensures ok { IfOk result (λ rest. IsPrinted date_time.now (directive_at (chars text.now))
        (chars rest.now) (string_bytes out.old) (string_bytes out.new)) }
    ensures utf8 { IfOk result (λ rest. IsUtf8 rest.now) }
    ensures err { IfErr result (λ e. OnRefusal e (directive_at (chars text.now) ≡ Err e)) }
{
    let (conversion, rest) = read_conversion(text)?;
    let spelling = front_of(text, rest);
    write_conversion(out, *date_time, conversion, spelling)?;
    Ok(rest)
}

// Appends what a directive prints: its own spelling if its letter means nothing. The spelling is the text after the per
// cent.
fn write_conversion(
    out: &mut String,
    date_time: DateTime,
    conversion: Conversion,
    spelling: &str,
) -> Result<(), AllocError>
    ensures { OnOk result (string_bytes out.new ≡ string_bytes out.old
        ++ conversion_print date_time conversion.flags conversion.width conversion.directive (37 ∷ spelling.now)) }
{
    match conversion.directive {
        Some(directive) => {
            write_directive(
                out,
                date_time,
                conversion.flags,
                conversion.width,
                directive,
            )
        }
        None => {
            out.push_str("%")?;
            out.push_str(spelling)
        }
    }
}

// Returns the part of a text before a rest of it.
fn front_of<'a>(text: &'a str, rest: &str) -> &'a str
    requires { HasRest (chars text.now) (chars rest.now) }
    ensures { (front : List ℕ) → chars text.now ≡ front ++ chars rest.now
        → result.now ≡ encode_utf8_all front }
{
    &text[..text.len() - rest.len()]
}
