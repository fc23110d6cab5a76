//! The command line of one page.
ghost use Rattle.std.specs.Prelude.{◌≡◌, ◌∷◌, IfSome, is_some, map, option_map, string_bytes};
ghost use Rattle.liquid_program.specs.meaning.Command.{
  are_paths,
  asked_of,
  choices_of,
  command_in,
  command_of,
  first_word,
  is_path,
  is_verb,
  options_before,
  path_words,
  plainly,
  short_command,
  with_option,
};

use crate::long_command::{PathsRead, long_command};

/// A command for one page: what its options choose, and the paths of a template, of its globals and of the folder of its
/// partials, if there is one.
///
/// The short form is `render [--standard] [--sandboxed] [--lenient] TEMPLATE GLOBALS.json [DIR]`. Words that are not of
/// this form may be of the long one: `render`, and then options and paths in any order. It has the options
/// `--decimals`, `--explain`, `--turns N`, `--bytes N`, `--ext .EXT` and `-o FILE` too. After the word `--` all words are paths. Each
/// option is given at most once.
#[derive(Clone, Copy)]
pub struct Command<'w> {
    pub choices: Choices<'w>,
    pub paths: Paths<'w>,
}

/// What options choose.
#[derive(Clone, Copy)]
pub struct Choices<'w> {
    /// The options that have no word of their own, and those with a number.
    pub options: Options,
    /// The ending of the files that are partials, if not all are.
    pub ending: Option<&'w str>,
    /// The file or the folder that is written to, if not standard output.
    pub output: Option<&'w str>,
    /// The file of the globals of several pages.
    pub globals: Option<&'w str>,
    /// The folder of the partials of several pages.
    pub partials: Option<&'w str>,
}

/// Whether to render with the standard filters, whether to render in a sandbox, whether a name without a value is nil
/// instead of an error, whether a number of the globals with a fraction is a decimal instead of an error, whether errors
/// are explained, and how many turns and bytes the page may take, if that is limited.
#[derive(Clone, Copy)]
pub struct Options {
    pub standard: bool,
    pub sandboxed: bool,
    pub lenient: bool,
    pub decimals: bool,
    pub explain: bool,
    pub max_turns: Option<u64>,
    pub max_bytes: Option<u64>,
}

/// An option whose word is the next one.
#[derive(Clone, Copy)]
pub(crate) enum Awaited {
    Turns,
    Bytes,
    Ending,
    Output,
    Globals,
    Partials,
}

/// The paths that a command names.
#[derive(Clone, Copy)]
pub struct Paths<'w> {
    pub template: &'w str,
    pub globals: &'w str,
    pub folder: Option<&'w str>,
}

pub(crate) const NO_OPTIONS: Options = Options {
    standard: false,
    sandboxed: false,
    lenient: false,
    decimals: false,
    explain: false,
    max_turns: None,
    max_bytes: None,
};

/// Returns these options, and nothing else chosen.
pub(crate) fn plainly<'w>(options: Options) -> Choices<'w>
    ensures { choices_of result ≡ plainly options }
{
    Choices {
        options,
        ending: None,
        output: None,
        globals: None,
        partials: None,
    }
}

pub(crate) fn is_verb(word: &str) -> bool
    ensures { result ≡ is_verb word.now }
{
    word == "render"
}

pub(crate) fn is_path(word: &str) -> bool
    ensures { result ≡ is_path word.now }
{
    !word.starts_with("--")
}

fn are_paths(template: &str, globals: &str, rest: &[String]) -> bool
    ensures { result ≡ are_paths (template.now ∷ globals.now ∷ map string_bytes rest.now) }
{
    is_path(template) && rest.len() < 2
}

fn first_of(words: &[String]) -> Option<&str>
    ensures { option_map (λ word. word.now) result ≡ first_word (map string_bytes words.now) }
{
    match words.first() {
        Some(word) => Some(word.as_str()),
        None => None,
    }
}

impl<'w> Paths<'w> {
    /// Returns the paths that the words are, and `None` for other words.
    fn from_words(words: &'w [String]) -> Option<Paths<'w>>
        ensures test { is_some result ≡ are_paths (map string_bytes words.now) }
        ensures words { IfSome result (λ p. map string_bytes words.now
            ≡ path_words p.template.now p.globals.now (option_map (λ f. f.now) p.folder)) }
    {
        let (template, rest) = words.split_first()?;
        let (globals, rest) = rest.split_first()?;
        if are_paths(template.as_str(), globals.as_str(), rest) {
            Some(Paths {
                template: template.as_str(),
                globals: globals.as_str(),
                folder: first_of(rest),
            })
        } else {
            None
        }
    }
}

/// Returns the options with the one that a word is. Returns `None` if the word is not an option, or is one that is
/// already set.
pub(crate) fn with_option(word: &str, options: Options) -> Option<Options>
    ensures { result ≡ with_option word.now options }
{
    if word == "--standard" && !options.standard {
        Some(Options {
            standard: true,
            ..options
        })
    } else if word == "--sandboxed" && !options.sandboxed {
        Some(Options {
            sandboxed: true,
            ..options
        })
    } else if word == "--lenient" && !options.lenient {
        Some(Options {
            lenient: true,
            ..options
        })
    } else {
        None
    }
}

/// Splits off the options that the words begin with, and adds them to these.
fn split_options(options: Options, words: &[String]) -> (Options, &[String])
    ensures options { result.0 ≡ (options_before options (map string_bytes words.now)).0 }
    ensures paths { map string_bytes result.1.now ≡ (options_before options (map string_bytes words.now)).1 }
{
    match words {
        [] => (options, words),
        [word, rest @ ..] => match with_option(word.as_str(), options) {
            Some(options) => split_options(options, rest),
            None => (options, words),
        },
    }
}

/// Returns the command that the words after the verb are in the short form.
fn short_command(words: &[String]) -> Option<Command<'_>>
    ensures { option_map asked_of result ≡ short_command (map string_bytes words.now) }
{
    let (options, rest) = split_options(NO_OPTIONS, words);
    let paths = Paths::from_words(rest)?;
    Some(Command {
        choices: plainly(options),
        paths,
    })
}

impl<'w> Command<'w> {
    /// Returns the command that the words after the program's name are, and `None` if they are not a command.
    pub fn from_words(words: &'w [String]) -> Option<Command<'w>>
        ensures { option_map asked_of result ≡ command_of (map string_bytes words.now) }
    {
        let (verb, rest) = words.split_first()?;
        if is_verb(verb.as_str()) {
            command_in(rest)
        } else {
            None
        }
    }
}

/// Returns the command that the words after the verb are, in the short form or in the long one.
fn command_in(words: &[String]) -> Option<Command<'_>>
    ensures { option_map asked_of result ≡ command_in (map string_bytes words.now) }
{
    match short_command(words) {
        Some(command) => Some(command),
        None => long_command(plainly(NO_OPTIONS), PathsRead::None, None, words),
    }
}
