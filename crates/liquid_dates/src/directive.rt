//! The directives of patterns, and their letters.
ghost use Rattle.std.specs.Prelude.{◌≡◌, codes};
ghost use Rattle.liquid_dates.specs.meaning.Letters as Spec;

use crate::flags::NumberFilling;

/// A number that a directive prints.
#[derive(Clone, Copy)]
pub(crate) enum Number {
    Year,
    Century,
    YearOfCentury,
    Month,
    Day,
    Ordinal,
    Hour,
    HourOf12,
    Minute,
    Second,
    WeekdayFromMonday,
    WeekdayFromSunday,
    WeekFromSunday,
    WeekFromMonday,
    IsoYear,
    IsoYearOfCentury,
    IsoWeek,
    UnixSeconds,
}

/// A name or a character that a directive prints.
#[derive(Clone, Copy)]
pub(crate) enum Name {
    ShortMonth,
    WholeMonth,
    ShortWeekday,
    WholeWeekday,
    /// `AM` or `PM`.
    UpperHalf,
    /// `am` or `pm`.
    LowerHalf,
    LineFeed,
    Tab,
    Percent,
}

/// A text of several parts that a directive prints.
#[derive(Clone, Copy)]
pub(crate) enum Composite {
    /// `YYYY-MM-DD`.
    DashedDate,
    /// ` D-MON-YYYY`.
    NamedDate,
    /// `HH:MM`.
    HourMinute,
    /// `MM/DD/YY`.
    SlashedDate,
    /// `HH:MM:SS`.
    Clock,
    /// `HH:MM:SS AM`.
    ClockOf12,
    /// `Www Mon  D HH:MM:SS YYYY`.
    DateAndTime,
}

/// A form of the offset.
#[derive(Clone, Copy)]
pub(crate) enum Offset {
    /// `+hhmm`.
    Joined,
    /// `+hh:mm`.
    Minutes,
    /// `+hh:mm:ss`.
    Seconds,
}

/// What a directive prints.
#[derive(Clone, Copy)]
pub(crate) enum Directive {
    /// A number, and what pads it if no flag says otherwise.
    OfNumber(Number, NumberFilling),
    OfName(Name),
    OfComposite(Composite),
    /// The fraction, and the number of its digits if no width is given.
    OfFraction(usize),
    OfOffset(Offset),
}

/// Returns the directive that a letter means, if it means any.
#[tactic(auto, unfolding(crate::specs::meaning::Letters::letter_directive))]
#[inline(always)]
pub(crate) fn letter_directive(letter: char) -> Option<Directive>
    ensures { result ≡ Spec.letter_directive letter }
{
    if let Some(number) = number_letter(letter) {
        return Some(Directive::OfNumber(number, letter_filling(letter)));
    }
    if let Some(name) = name_letter(letter) {
        return Some(Directive::OfName(name));
    }
    if let Some(composite) = composite_letter(letter) {
        return Some(Directive::OfComposite(composite));
    }
    fraction_letter(letter)
}

fn letter_filling(letter: char) -> NumberFilling
    ensures { result ≡ Spec.letter_filling letter }
{
    match letter {
        'e' | 'k' | 'l' => NumberFilling::SpacesBeforeSign,
        _ => NumberFilling::ZerosAfterSign,
    }
}

#[tactic(auto, unfolding(crate::specs::meaning::Letters::number_letter))]
fn number_letter(letter: char) -> Option<Number>
    ensures { result ≡ Spec.number_letter letter }
{
    match letter {
        'Y' => Some(Number::Year),
        'C' => Some(Number::Century),
        'y' => Some(Number::YearOfCentury),
        'm' => Some(Number::Month),
        'd' | 'e' => Some(Number::Day),
        'j' => Some(Number::Ordinal),
        'H' | 'k' => Some(Number::Hour),
        'I' | 'l' => Some(Number::HourOf12),
        'M' => Some(Number::Minute),
        'S' => Some(Number::Second),
        'u' => Some(Number::WeekdayFromMonday),
        'w' => Some(Number::WeekdayFromSunday),
        'U' => Some(Number::WeekFromSunday),
        'W' => Some(Number::WeekFromMonday),
        'G' => Some(Number::IsoYear),
        'g' => Some(Number::IsoYearOfCentury),
        'V' => Some(Number::IsoWeek),
        's' => Some(Number::UnixSeconds),
        _ => None,
    }
}

#[tactic(auto, unfolding(crate::specs::meaning::Letters::name_letter))]
fn name_letter(letter: char) -> Option<Name>
    ensures { result ≡ Spec.name_letter letter }
{
    match letter {
        'b' | 'h' => Some(Name::ShortMonth),
        'B' => Some(Name::WholeMonth),
        'a' => Some(Name::ShortWeekday),
        'A' => Some(Name::WholeWeekday),
        'p' => Some(Name::UpperHalf),
        'P' => Some(Name::LowerHalf),
        'n' => Some(Name::LineFeed),
        't' => Some(Name::Tab),
        '%' => Some(Name::Percent),
        _ => None,
    }
}

#[tactic(auto, unfolding(crate::specs::meaning::Letters::composite_letter))]
fn composite_letter(letter: char) -> Option<Composite>
    ensures { result ≡ Spec.composite_letter letter }
{
    match letter {
        'F' => Some(Composite::DashedDate),
        'v' => Some(Composite::NamedDate),
        'R' => Some(Composite::HourMinute),
        'D' | 'x' => Some(Composite::SlashedDate),
        'T' | 'X' => Some(Composite::Clock),
        'r' => Some(Composite::ClockOf12),
        'c' => Some(Composite::DateAndTime),
        _ => None,
    }
}

#[tactic(auto, unfolding(crate::specs::meaning::Letters::fraction_letter))]
fn fraction_letter(letter: char) -> Option<Directive>
    ensures { result ≡ Spec.fraction_letter letter }
{
    match letter {
        'L' => Some(Directive::OfFraction(3)),
        'N' => Some(Directive::OfFraction(9)),
        'z' => Some(Directive::OfOffset(Offset::Joined)),
        'Z' => Some(Directive::OfOffset(Offset::Minutes)),
        _ => None,
    }
}
