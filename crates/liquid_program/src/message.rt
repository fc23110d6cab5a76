//! What the text of an error says.

/// The text of an error, without the word `liquid:`.
#[derive(Clone, Copy)]
pub(crate) struct Message<'m> {
    text: &'m str,
}

/// The keys of names that are asked for.
const REQUESTED: [&str; 5] = [
    "requested variable",
    "requested index",
    "requested filter",
    "requested partial",
    "requested",
];

impl<'m> Message<'m> {
    /// Returns the message of an error that is printed as this text.
    pub(crate) fn new(shown: &'m str) -> Message<'m> {
        Message {
            text: shown.strip_prefix("liquid: ").unwrap_or(shown),
        }
    }

    /// Returns `true` if the first line begins so.
    pub(crate) fn is(self, beginning: &str) -> bool {
        self.text.starts_with(beginning)
    }

    /// Returns `true` if one of the lines that say what was done is this one.
    pub(crate) fn has_trace(self, trace: &str) -> bool {
        self.text
            .lines()
            .filter_map(|line| line.strip_prefix("from: "))
            .any(|line| line == trace)
    }

    /// Returns `true` if the error is in a partial that sees no globals.
    pub(crate) fn is_rendered(self) -> bool {
        self.text.contains("\nfrom: render ")
    }

    /// Returns the first detail of this name.
    pub(crate) fn detail(self, key: &str) -> Option<&'m str> {
        self.text
            .lines()
            .filter_map(|line| value_of(line, key))
            .next()
    }

    /// Returns the name that is asked for.
    pub(crate) fn requested_name(self) -> &'m str {
        for key in REQUESTED {
            if let Some(name) = self.detail(key) {
                return name;
            }
        }
        ""
    }
}

/// Returns the value of a line with a detail of this name.
fn value_of<'m>(line: &'m str, key: &str) -> Option<&'m str> {
    line.strip_prefix("    ")?
        .strip_prefix(key)?
        .strip_prefix("=")
}
