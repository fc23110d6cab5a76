//! Line and column of a place.
ghost use Rattle.std.specs.Prelude.{◌≡◌};
ghost use Rattle.liquid_grammar.specs.meaning.Place as spec;

/// Returns the line and the column of the place after this text, both from 1. Lines are counted by line feeds, columns
/// in characters.
pub fn line_and_column(front: &str) -> (usize, usize)
    ensures { result ≡ spec.line_and_column front.now }
{
    let mut line = 1;
    let mut column = 1;
    for byte in front.as_bytes() {
        if *byte == b'\n' {
            line += 1;
            column = 1;
        } else if *byte < 128 || *byte >= 192 {
            column += 1;
        }
    }
    (line, column)
}
