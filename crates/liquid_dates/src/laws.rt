//! Laws over the definitions of `specs/`: each is the clause of a function that does nothing.
ghost use Rattle.std.specs.Prelude.{◌≡◌, ℕ, List, Option};
ghost use Rattle.liquid_dates.specs.laws.Laws.{PatternsHaveReadings, PatternsHaveOneReading, PrintedDatesAreRead, PrintedDateTimesAreRead};

/// A pattern has exactly one reading: the items whose joined spellings are the text, or such items for a beginning,
/// followed by a rest that is an error.
pub fn patterns_have_one_reading()
    ensures some { PatternsHaveReadings }
    ensures one { PatternsHaveOneReading }
{}

/// A printed date is read back as itself.
pub fn printed_dates_are_read_back()
    ensures { PrintedDatesAreRead }
{}

/// A printed date time is read back as itself if its offset is whole minutes below 20 h. Any other offset is printed as
/// another one, or is not recognized.
pub fn printed_date_times_are_read_back()
    ensures { PrintedDateTimesAreRead }
{}
