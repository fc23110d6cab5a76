//! The command line of several pages.
ghost use Rattle.std.specs.Prelude.{◌≡◌, map, option_map, string_bytes};
ghost use Rattle.std.specs.Path.{path_file_name};
ghost use Rattle.liquid_program.specs.meaning.Command.{choices_of};
ghost use Rattle.liquid_program.specs.meaning.PagesCommand.{
  are_apart,
  are_places,
  asked_pages,
  is_named,
  is_new,
  pages_in,
  pages_of,
  whole_pages,
};

use crate::command::{Awaited, Choices, NO_OPTIONS, Options, is_verb, plainly};
use crate::long_command::{find_awaited, is_place, with_long_option, with_word};
use std::path::Path;

/// A command for several pages: how they are rendered, the ending of the files that are partials, the folder that the
/// pages are written to, the file of their globals, the folder of their partials, if there is one, and their templates.
///
/// Its words are `render`, options, and the templates. After the word `--`, and after the first template, all words are
/// templates. The options are those of a command for one page, and `--globals FILE`, `--partials DIR` and `-o DIR`, of
/// which the first and the last have to be there. No two templates have the same file name.
#[derive(Clone, Copy)]
pub struct Pages<'w> {
    pub options: Options,
    pub ending: Option<&'w str>,
    pub output: &'w str,
    pub globals: &'w str,
    pub partials: Option<&'w str>,
    pub templates: &'w [String],
}

/// Returns the file name of a path.
pub(crate) fn name_of(path: &str) -> Option<&str>
    ensures { option_map (λ name. name.now) result ≡ path_file_name path.now }
{
    Path::new(path).file_name()
}

fn is_named(name: &str, template: &str) -> bool
    ensures { result ≡ is_named name.now (path_file_name template.now) }
{
    match name_of(template) {
        Some(other) => name == other,
        None => false,
    }
}

/// Returns `true` if none of the templates has this file name.
fn is_new(name: &str, templates: &[String]) -> bool
    ensures { result ≡ is_new (Some name.now) (map string_bytes templates.now) }
{
    match templates {
        [] => true,
        [template, rest @ ..] => if is_named(name, template.as_str()) {
            false
        } else {
            is_new(name, rest)
        },
    }
}

/// Returns `true` if each template has a file name, and no two have the same.
fn are_apart(templates: &[String]) -> bool
    ensures { result ≡ are_apart (map string_bytes templates.now) }
{
    match templates {
        [] => true,
        [template, rest @ ..] => match name_of(template.as_str()) {
            Some(name) if is_new(name, rest) => are_apart(rest),
            _ => false,
        },
    }
}

/// Returns `true` if no word is an option.
fn are_places(words: &[String]) -> bool
    ensures { result ≡ are_places (map string_bytes words.now) }
{
    match words {
        [] => true,
        [word, rest @ ..] => if is_place(word.as_str()) {
            are_places(rest)
        } else {
            false
        },
    }
}

/// Returns the command of these choices and templates, if it has what it needs.
fn whole_pages<'w>(choices: Choices<'w>, templates: &'w [String]) -> Option<Pages<'w>>
    ensures { option_map asked_pages result ≡ whole_pages (choices_of choices.entry) (map string_bytes templates.now) }
{
    match (choices.output, choices.globals) {
        (Some(output), Some(globals)) => if !templates.is_empty() && are_apart(templates) {
            Some(Pages {
                options: choices.options,
                ending: choices.ending,
                output,
                globals,
                partials: choices.partials,
                templates,
            })
        } else {
            None
        },
        _ => None,
    }
}

/// Returns the command that the words are after these choices. If `option` is given, the first word is its word.
fn pages_in<'w>(
    choices: Choices<'w>,
    option: Option<Awaited>,
    words: &'w [String],
) -> Option<Pages<'w>>
    ensures { option_map asked_pages result ≡ pages_in (choices_of choices.entry) option (map string_bytes words.now) }
{
    let [word, rest @ ..] = words else {
        return None;
    };
    let word = word.as_str();
    if let Some(option) = option {
        return match with_word(option, word, choices) {
            Some(choices) => pages_in(choices, None, rest),
            None => None,
        };
    }
    if word == "--" {
        return whole_pages(choices, rest);
    }
    if is_place(word) {
        return if are_places(rest) {
            whole_pages(choices, words)
        } else {
            None
        };
    }
    match with_long_option(word, choices.options) {
        Some(options) => pages_in(Choices { options, ..choices }, None, rest),
        None => match find_awaited(word, choices) {
            Some(option) => pages_in(choices, Some(option), rest),
            None => None,
        },
    }
}

impl<'w> Pages<'w> {
    /// Returns the command that the words after the program's name are, and `None` if they are not one for several pages.
    pub fn from_words(words: &'w [String]) -> Option<Pages<'w>>
        ensures { option_map asked_pages result ≡ pages_of (map string_bytes words.now) }
    {
        let (verb, rest) = words.split_first()?;
        if is_verb(verb.as_str()) {
            pages_in(plainly(NO_OPTIONS), None, rest)
        } else {
            None
        }
    }
}
