//! Where the rules of the grammar stop.
ghost use Rattle.std.specs.Prelude.{◌≡◌, length, Some};
ghost use Rattle.liquid_explain.specs.meaning.Parts.{only};
ghost use Rattle.liquid_explain.specs.steps.Farther as spec;

use crate::part::{Part, Parts};

/// The farthest place that the rules of the grammar come to in a text that they don't match.
#[derive(Clone, Copy, Debug, PartialEq, Eq)]
pub struct Stop {
    /// How many bytes of the text are left there.
    pub left: usize,
    /// The parts with which some rule would go on.
    pub expected: Parts,
}

/// Returns the stop where the text begins, for want of this part.
pub(crate) fn want(s: &str, part: Part) -> Option<Stop>
    ensures { result ≡ Some (spec.stop_at (length s.now) (only part)) }
{
    Some(Stop {
        left: s.len(),
        expected: Parts::only(part),
    })
}

/// Returns the stop that is farther, with the parts of both if they are at the same place.
pub(crate) fn farther(first: Option<Stop>, second: Option<Stop>) -> Option<Stop>
    ensures { result ≡ spec.farther first second }
{
    match (first, second) {
        (Some(a), Some(b)) => Some(farther_of(a, b)),
        (Some(a), None) => Some(a),
        (None, b) => b,
    }
}

fn farther_of(a: Stop, b: Stop) -> Stop
    ensures { result ≡ spec.farther_of a b }
{
    if a.left < b.left {
        a
    } else if b.left < a.left {
        b
    } else {
        Stop {
            left: a.left,
            expected: a.expected.union(b.expected),
        }
    }
}
