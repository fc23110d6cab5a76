//! The names of months and weekdays in texts.
ghost use Rattle.std.specs.Prelude.{◌≡◌, ◌<◌, ◌≤◌, length};
ghost use Rattle.std.specs.Int.{IsInRange};
ghost use Rattle.liquid_dates.specs.meaning.Names as Name;
ghost use Rattle.filter_dates.specs.meaning.Names as Spec;

/// Returns the month that a word names, from 1.
pub(crate) fn month_named(word: &[u8]) -> Option<u8>
    ensures { result ≡ Spec.month_named word.now }
{
    'months: for month in 1..13u8 {
        if is_name(month_name(month), word) {
            return Some(month);
        }
    }
    None
}

/// Returns the weekday that a word names, from 0 for Monday.
pub(crate) fn weekday_named(word: &[u8]) -> Option<u8>
    ensures { result ≡ Spec.weekday_named word.now }
{
    'weekdays: for weekday in 0..7u8 {
        if is_name(weekday_name(weekday), word) {
            return Some(weekday);
        }
    }
    None
}

/// Returns `true` if a word is the name, or its beginning of three letters or more, in any case.
fn is_name(name: &str, word: &[u8]) -> bool
    ensures { result ≡ Spec.is_name name.now word.now }
{
    3 <= word.len()
        && word.len() <= name.len()
        && word.eq_ignore_ascii_case(&name.as_bytes()[..word.len()])
}

/// Returns the English name of a month, from 1.
#[tactic(auto, unfolding(liquid_dates::specs::meaning::Names::month_name))]
fn month_name(month: u8) -> &'static str
    requires { IsInRange 1 12 month }
    ensures { result.now ≡ Name.month_name month }
{
    match month {
        1 => "January",
        2 => "February",
        3 => "March",
        4 => "April",
        5 => "May",
        6 => "June",
        7 => "July",
        8 => "August",
        9 => "September",
        10 => "October",
        11 => "November",
        _ => "December",
    }
}

/// Returns the English name of a weekday, from 0 for Monday.
#[tactic(auto, unfolding(liquid_dates::specs::meaning::Names::weekday_name))]
fn weekday_name(weekday: u8) -> &'static str
    requires { weekday < 7 }
    ensures { result.now ≡ Name.weekday_name weekday }
{
    match weekday {
        0 => "Monday",
        1 => "Tuesday",
        2 => "Wednesday",
        3 => "Thursday",
        4 => "Friday",
        5 => "Saturday",
        _ => "Sunday",
    }
}
