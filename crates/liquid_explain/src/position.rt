//! Positions in a text.
ghost use Rattle.std.specs.Prelude.{◌≡◌, ◌-◌, ◌≤◌, length, MatchOption};
ghost use Rattle.std.specs.List.{slice_range};
ghost use Rattle.std.specs.Str.{IsCharBoundary};

/// Returns what comes before the last bytes of a text, so many as are left. Returns `None` if the text has fewer bytes, or
/// if the position is inside a character.
pub fn front_of(text: &str, left: usize) -> Option<&str>
    ensures { MatchOption result (left ≤ length text.now → ¬ (IsCharBoundary text.now (length text.now - left)))
        (λ front. (left ≤ length text.now) × (front.now ≡ slice_range text.now 0 (length text.now - left))) }
{
    text.get(..text.len().checked_sub(left)?)
}

/// Returns the text from a line and a column on. Returns `None` if the text has no such place.
pub fn text_from(text: &str, line: usize, column: usize) -> Option<&str> {
    let mut at_line: usize = 1;
    let mut at_column: usize = 1;
    for (at, character) in text.char_indices() {
        if at_line == line && at_column == column {
            return text.get(at..);
        }
        if character == '\n' {
            at_line = at_line.saturating_add(1);
            at_column = 1;
        } else {
            at_column = at_column.saturating_add(1);
        }
    }
    if at_line == line && at_column == column {
        Some("")
    } else {
        None
    }
}
