//! The flags of a directive.
ghost use Rattle.std.specs.Prelude.{◌≡◌};
ghost use Rattle.liquid_dates.specs.meaning.Flags.{is_flag, with_flag, no_flags, is_digit};

/// What a directive is padded with: the last of its flags `_` and `0`.
#[derive(Clone, Copy)]
pub(crate) enum Filling {
    /// Neither flag is given.
    Unset,
    Zeros,
    Spaces,
}

/// What a number is padded with up to its width, and on which side of its sign.
#[derive(Clone, Copy)]
pub(crate) enum NumberFilling {
    SpacesBeforeSign,
    ZerosAfterSign,
}

/// The case in which a directive prints letters: the last of its flags `^` and `#`.
#[derive(Clone, Copy)]
pub(crate) enum Case {
    /// Neither flag is given.
    Plain,
    Upper,
    Change,
}

/// The flags of a directive.
#[derive(Clone, Copy)]
pub(crate) struct Flags {
    /// The flag `-` is given.
    pub unfilled: bool,
    pub filling: Filling,
    pub case: Case,
}

impl Flags {
    /// No flag is given.
    pub const NONE: Flags = Flags {
        unfilled: false,
        filling: Filling::Unset,
        case: Case::Plain,
    };

    /// Returns the flags with one more after them.
    pub fn with(self, flag: char) -> Flags
        ensures { result ≡ with_flag self flag }
    {
        match flag {
            '-' => Flags {
                unfilled: true,
                ..self
            },
            '_' => Flags {
                filling: Filling::Spaces,
                ..self
            },
            '0' => Flags {
                filling: Filling::Zeros,
                ..self
            },
            '^' => Flags {
                case: Case::Upper,
                ..self
            },
            _ => Flags {
                case: Case::Change,
                ..self
            },
        }
    }
}

/// Returns `true` if a character is one of `0` to `9`.
pub(crate) fn is_digit(c: char) -> bool
    ensures { result ≡ is_digit c }
{
    c >= '0' && c <= '9'
}

/// Returns `true` if a character is a flag.
pub(crate) fn is_flag(c: char) -> bool
    ensures { result ≡ is_flag c }
{
    c == '-' || c == '_' || c == '0' || c == '^' || c == '#'
}
