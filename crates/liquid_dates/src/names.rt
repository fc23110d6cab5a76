//! The English names of months and weekdays.
ghost use Rattle.std.specs.Prelude.{◌≡◌, ◌<◌, ◌≤◌, length, true};
ghost use Rattle.liquid_dates.specs.meaning.Filling.{is_ascii_text};
ghost use Rattle.std.specs.Int.{IsInRange};
ghost use Rattle.liquid_dates.specs.meaning.Names as Spec;

/// Returns the English name of a month, from 1.
#[tactic(auto, unfolding(crate::specs::meaning::Names::month_name))]
pub(crate) fn month_name(month: u8) -> &'static str
    requires { IsInRange 1 12 month }
    ensures value { result.now ≡ Spec.month_name month }
    ensures ascii { is_ascii_text result.now ≡ true }
    ensures long { 3 ≤ length result.now }
{
    match month {
        1 => "January",
        2 => "February",
        3 => "March",
        4 => "April",
        5 => "May",
        6 => "June",
        7 => "July",
        8 => "August",
        9 => "September",
        10 => "October",
        11 => "November",
        _ => "December",
    }
}

/// Returns its first three letters.
#[tactic(auto, unfolding(crate::specs::meaning::Names::short_month_name, crate::specs::meaning::Names::month_name))]
pub(crate) fn short_month_name(month: u8) -> &'static str
    requires { IsInRange 1 12 month }
    ensures value { result.now ≡ Spec.short_month_name month }
    ensures ascii { is_ascii_text result.now ≡ true }
{
    match month {
        1 => "Jan",
        2 => "Feb",
        3 => "Mar",
        4 => "Apr",
        5 => "May",
        6 => "Jun",
        7 => "Jul",
        8 => "Aug",
        9 => "Sep",
        10 => "Oct",
        11 => "Nov",
        _ => "Dec",
    }
}

/// Returns the English name of a weekday, from 0 for Monday.
#[tactic(auto, unfolding(crate::specs::meaning::Names::weekday_name))]
pub(crate) fn weekday_name(weekday: u8) -> &'static str
    requires { weekday < 7 }
    ensures value { result.now ≡ Spec.weekday_name weekday }
    ensures ascii { is_ascii_text result.now ≡ true }
{
    match weekday {
        0 => "Monday",
        1 => "Tuesday",
        2 => "Wednesday",
        3 => "Thursday",
        4 => "Friday",
        5 => "Saturday",
        _ => "Sunday",
    }
}

/// Returns its first three letters.
#[tactic(auto, unfolding(crate::specs::meaning::Names::short_weekday_name, crate::specs::meaning::Names::weekday_name))]
pub(crate) fn short_weekday_name(weekday: u8) -> &'static str
    requires { weekday < 7 }
    ensures value { result.now ≡ Spec.short_weekday_name weekday }
    ensures ascii { is_ascii_text result.now ≡ true }
{
    match weekday {
        0 => "Mon",
        1 => "Tue",
        2 => "Wed",
        3 => "Thu",
        4 => "Fri",
        5 => "Sat",
        _ => "Sun",
    }
}
