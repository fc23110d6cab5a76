//! The dates that texts write.
ghost use Rattle.std.specs.Prelude.{◌≡◌, codes, IfSome, IfNone, IsSomeAnd};
ghost use Rattle.jiff_core.specs.declared.civil.date.Date.{Date as CivilDate};
ghost use Rattle.liquid_dates.specs.steps.DateReader.{IsWholeDate};
ghost use Rattle.liquid_dates.specs.meaning.DateText.{IsDateText, SameDate, date_forms};
ghost use Rattle.liquid_dates.specs.meaning.DateText as Form;

use crate::reading::{Ymd, read_iso_date, read_long_date, read_short_date};
use crate::{Date, DateTime};

impl Date {
    /// Returns the date that a text writes.
    ///
    /// `today` is the date of the moment. Any other text is `DD Month YYYY`, `DD Mon YYYY` or `YYYY-MM-DD`, where the
    /// year may follow a `-`.
    #[allow(clippy::should_implement_trait)]
    pub fn from_str(text: &str, moment: DateTime) -> Option<Date>
        ensures fits { IfSome result (λ d. IsDateText text.now moment d) }

        // If the text writes a date, that date is returned.
        ensures only { (d : CivilDate) → IsDateText text.now moment d
            → IsSomeAnd result (λ r. SameDate r d) }
    {
        if text == "today" {
            return Some(moment.date());
        }
        first_date(text.as_bytes())
    }
}

// Returns the date of the first form that fits.
fn first_date(text: &[u8]) -> Option<Date>
    ensures fits { IfSome result (λ d. date_forms text.now d) }
    ensures none { IfNone result ((d : CivilDate) → ¬ (date_forms text.now d)) }
{
    match long_date(text) {
        Some(date) => Some(date),
        None => match short_date(text) {
            Some(date) => Some(date),
            None => iso_date(text),
        },
    }
}

// Reads `DD Month YYYY`.
fn long_date(text: &[u8]) -> Option<Date>
    ensures fits { IfSome result (λ d. Form.long_date text.now d) }
    ensures none { IfNone result ((d : CivilDate) → ¬ (Form.long_date text.now d)) }
{
    let read = read_long_date(text);
    date_of(read)
}

// Reads `DD Mon YYYY`.
fn short_date(text: &[u8]) -> Option<Date>
    ensures fits { IfSome result (λ d. Form.short_date text.now d) }
    ensures none { IfNone result ((d : CivilDate) → ¬ (Form.short_date text.now d)) }
{
    let read = read_short_date(text);
    date_of(read)
}

// Reads `YYYY-MM-DD`.
fn iso_date(text: &[u8]) -> Option<Date>
    ensures fits { IfSome result (λ d. Form.iso_date text.now d) }
    ensures none { IfNone result ((d : CivilDate) → ¬ (Form.iso_date text.now d)) }
{
    let read = read_iso_date(text);
    date_of(read)
}

// Returns the date of a whole text that was read, if the calendar has it.
fn date_of(read: Option<(Ymd, &[u8])>) -> Option<Date>
    ensures found { IfSome result (λ d. IsWholeDate read.entry d) }
    ensures none { IfNone result ((d : CivilDate) → ¬ (IsWholeDate read.entry d)) }
{
    let (ymd, rest) = read?;
    if rest.is_empty() {
        date_of_parts(ymd)
    } else {
        None
    }
}

fn date_of_parts(ymd: Ymd) -> Option<Date>
    ensures found { IfSome result
        (λ d. (ymd.year ≡ d.year) × (ymd.month ≡ d.month) × (ymd.day ≡ d.day)) }
    ensures none { IfNone result ((d : CivilDate)
        → ¬ ((ymd.year ≡ d.year) × (ymd.month ≡ d.month) × (ymd.day ≡ d.day))) }
{
    match Date::from_ymd(i32::from(ymd.year), ymd.month, ymd.day) {
        Ok(date) => Some(date),
        Err(_) => None,
    }
}
