//! The long form of the command line.
ghost use Rattle.std.specs.Prelude.{◌≡◌, map, option_map, string_bytes};
ghost use Rattle.liquid_program.specs.meaning.Command.{
  asked_of,
  awaited_by,
  choices_of,
  is_ending,
  is_output,
  is_place,
  long_command,
  number,
  number_after,
  path_named,
  whole_command,
  with_bytes,
  with_digit,
  with_long_option,
  with_path,
  with_paths,
  with_turns,
  with_word,
};
ghost use Rattle.liquid_program.specs.steps.Words.{words_of};

use crate::command::{Awaited, Choices, Command, Options, Paths, is_path, with_option};

/// The paths that have been read.
#[derive(Clone, Copy)]
pub(crate) enum PathsRead<'w> {
    None,
    One(&'w str),
    Two(&'w str, &'w str),
    Three(&'w str, &'w str, &'w str),
}

/// The path of standard input.
const INPUT: &str = "/dev/stdin";

/// Returns the path that a word names in the place of a template or of globals: `-` is standard input.
fn path_named(word: &str) -> &str
    ensures { result.now ≡ path_named word.now }
{
    if word == "-" { INPUT } else { word }
}

/// Returns the paths with one more, and `None` if there are three, or if two of them would be standard input.
fn with_path<'w>(paths: PathsRead<'w>, path: &'w str) -> Option<PathsRead<'w>>
    ensures { option_map words_of result ≡ with_path (words_of paths.entry) path.now }
{
    match paths {
        PathsRead::None => Some(PathsRead::One(path_named(path))),
        PathsRead::One(template) => {
            let globals = path_named(path);
            if template == INPUT && globals == INPUT {
                None
            } else {
                Some(PathsRead::Two(template, globals))
            }
        }
        PathsRead::Two(template, globals) => Some(PathsRead::Three(template, globals, path)),
        PathsRead::Three(..) => None,
    }
}

/// Returns the paths with all these words.
fn with_paths<'w>(paths: PathsRead<'w>, words: &'w [String]) -> Option<PathsRead<'w>>
    ensures { option_map words_of result ≡ with_paths (words_of paths.entry) (map string_bytes words.now) }
{
    match words {
        [] => Some(paths),
        [word, rest @ ..] => match with_path(paths, word.as_str()) {
            Some(paths) => with_paths(paths, rest),
            None => None,
        },
    }
}

/// Returns the command of these choices and paths, if a template and its globals are among them.
fn whole_command<'w>(choices: Choices<'w>, paths: PathsRead<'w>) -> Option<Command<'w>>
    ensures { option_map asked_of result ≡ whole_command (choices_of choices.entry) (words_of paths.entry) }
{
    if choices.globals.is_some() || choices.partials.is_some() {
        return None;
    }
    match paths {
        PathsRead::None | PathsRead::One(_) => None,
        PathsRead::Two(template, globals) => Some(Command {
            choices,
            paths: Paths {
                template,
                globals,
                folder: None,
            },
        }),
        PathsRead::Three(template, globals, folder) => Some(Command {
            choices,
            paths: Paths {
                template,
                globals,
                folder: Some(folder),
            },
        }),
    }
}

/// Returns the number with one more decimal digit, if it has at most 64 bits.
fn with_digit(n: u64, digit: u8) -> Option<u64>
    ensures { result ≡ with_digit n digit }
{
    if digit < b'0' || digit > b'9' {
        return None;
    }
    match n.checked_mul(10) {
        Some(tens) => tens.checked_add(u64::from(digit - b'0')),
        None => None,
    }
}

/// Returns the number that the digits write after those of `n`.
fn number_after(n: u64, digits: &[u8]) -> Option<u64>
    ensures { result ≡ number_after n digits.now }
{
    match digits {
        [] => Some(n),
        [digit, rest @ ..] => match with_digit(n, *digit) {
            Some(n) => number_after(n, rest),
            None => None,
        },
    }
}

/// Returns the number that a word writes in decimal digits, and nothing else.
fn number(word: &str) -> Option<u64>
    ensures { result ≡ number word.now }
{
    match word.as_bytes() {
        [] => None,
        digits => number_after(0, digits),
    }
}

/// Returns the options with the one that a word is, if it has no word after it and isn't set yet.
pub(crate) fn with_long_option(word: &str, options: Options) -> Option<Options>
    ensures { result ≡ with_long_option word.now options }
{
    if word == "--explain" && !options.explain {
        Some(Options {
            explain: true,
            ..options
        })
    } else if word == "--decimals" && !options.decimals {
        Some(Options {
            decimals: true,
            ..options
        })
    } else {
        with_option(word, options)
    }
}

/// Returns the option whose word comes after this one, if it isn't chosen yet.
pub(crate) fn find_awaited(word: &str, choices: Choices<'_>) -> Option<Awaited>
    ensures { result ≡ awaited_by word.now (choices_of choices.entry) }
{
    if word == "--turns" && choices.options.max_turns.is_none() {
        Some(Awaited::Turns)
    } else if word == "--bytes" && choices.options.max_bytes.is_none() {
        Some(Awaited::Bytes)
    } else if word == "--ext" && choices.ending.is_none() {
        Some(Awaited::Ending)
    } else if word == "-o" && choices.output.is_none() {
        Some(Awaited::Output)
    } else if word == "--globals" && choices.globals.is_none() {
        Some(Awaited::Globals)
    } else if word == "--partials" && choices.partials.is_none() {
        Some(Awaited::Partials)
    } else {
        None
    }
}

/// Returns `true` if a word in the place of a path is not an option.
pub(crate) fn is_place(word: &str) -> bool
    ensures { result ≡ is_place word.now }
{
    is_path(word) && word != "-o"
}

fn is_ending(word: &str) -> bool
    ensures { result ≡ is_ending word.now }
{
    let bytes = word.as_bytes();
    bytes.starts_with(b".") && bytes.len() > 1 && !bytes.contains(&b'/')
}

fn is_output(word: &str) -> bool
    ensures { result ≡ is_output word.now }
{
    !word.is_empty() && is_place(word) && word != "-"
}

fn with_turns<'w>(choices: Choices<'w>, turns: u64) -> Choices<'w>
    ensures { choices_of result ≡ with_turns (choices_of choices.entry) turns }
{
    Choices {
        options: Options {
            max_turns: Some(turns),
            ..choices.options
        },
        ..choices
    }
}

fn with_bytes<'w>(choices: Choices<'w>, bytes: u64) -> Choices<'w>
    ensures { choices_of result ≡ with_bytes (choices_of choices.entry) bytes }
{
    Choices {
        options: Options {
            max_bytes: Some(bytes),
            ..choices.options
        },
        ..choices
    }
}

/// Returns the choices with the word of an option, if it is one that the option can have.
pub(crate) fn with_word<'w>(
    option: Awaited,
    word: &'w str,
    choices: Choices<'w>,
) -> Option<Choices<'w>>
    ensures { option_map choices_of result ≡ with_word option word.now (choices_of choices.entry) }
{
    match option {
        Awaited::Turns => Some(with_turns(choices, number(word)?)),
        Awaited::Bytes => Some(with_bytes(choices, number(word)?)),
        Awaited::Ending if is_ending(word) => Some(Choices {
            ending: Some(word),
            ..choices
        }),
        Awaited::Output if is_output(word) => Some(Choices {
            output: Some(word),
            ..choices
        }),
        Awaited::Globals if is_place(word) => Some(Choices {
            globals: Some(path_named(word)),
            ..choices
        }),
        Awaited::Partials if is_place(word) => Some(Choices {
            partials: Some(word),
            ..choices
        }),
        _ => None,
    }
}

/// Returns the command that the words are after these choices and paths. If `option` is given, the first word is its
/// word.
pub(crate) fn long_command<'w>(
    choices: Choices<'w>,
    paths: PathsRead<'w>,
    option: Option<Awaited>,
    words: &'w [String],
) -> Option<Command<'w>>
    ensures { option_map asked_of result
        ≡ long_command (choices_of choices.entry) (words_of paths.entry) option (map string_bytes words.now) }
{
    let [word, rest @ ..] = words else {
        return match option {
            None => whole_command(choices, paths),
            Some(_) => None,
        };
    };
    let word = word.as_str();
    if let Some(option) = option {
        return match with_word(option, word, choices) {
            Some(choices) => long_command(choices, paths, None, rest),
            None => None,
        };
    }
    if word == "--" {
        return match with_paths(paths, rest) {
            Some(paths) => whole_command(choices, paths),
            None => None,
        };
    }
    if is_place(word) {
        return match with_path(paths, word) {
            Some(paths) => long_command(choices, paths, None, rest),
            None => None,
        };
    }
    match with_long_option(word, choices.options) {
        Some(options) => long_command(Choices { options, ..choices }, paths, None, rest),
        None => long_command(choices, paths, Some(find_awaited(word, choices)?), rest),
    }
}
