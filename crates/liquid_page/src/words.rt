//! The words of `liquid page` and `liquid check`: a table of options, from which reading, usage and help are made.

use crate::names::{data_path, path_named};
use crate::request::Request;
use clap::error::ErrorKind;
use clap::{Arg, ArgAction, ArgMatches, Command, Error};
use liquid_pages::{Leniency, PageFrame, PageOptions};
use std::alloc::{AllocError, AllocFailed, Global};

/// Why words are no request.
#[derive(Debug, Drop)]
pub enum NoRequest {
    Memory,
    /// The words ask for help, which is this text.
    Help(String),
    /// A word is wrong, as this text says.
    Wrong(String),
}

impl From<AllocError> for NoRequest {
    fn from(_refused: AllocError) -> NoRequest {
        NoRequest::Memory
    }
}

impl<T: Drop> From<AllocFailed<T>> for NoRequest {
    fn from(_refused: AllocFailed<T>) -> NoRequest {
        NoRequest::Memory
    }
}

/// What a command does with the templates.
#[derive(Clone, Copy, Debug, PartialEq, Eq)]
pub enum Task {
    /// `liquid page` makes pages of them.
    Page,
    /// `liquid check` only reads them.
    Check,
}

/// The examples at the end of the help.
const EXAMPLES: &str = "Examples:
  liquid page invoice.liquid --data invoice.json > invoice.html
  liquid page mail.liquid --data customer.toml --set subject=Welcome -o mail.txt
  liquid page site --data site.toml --partials parts -o public/

DATA is JSON, TOML or CSV by its ending. Of several the later wins.
NAME=DATA puts it under a name.
A template may begin with front matter between lines '---' or '+++': it is
`page`, and its `layout` names the partial layouts/NAME, which sees the page as
`content`.
'-' is standard input. N may end in k or M.
Status: 1 a page has an error, 2 a word is wrong, 3 a file can't be read.";

/// What the help of `liquid check` says at its end.
const WARNINGS: &str =
    "Each error is shown with its line. Warnings: a name that the data lacks, a text
that is not a date, and a partial that nothing includes. Nothing is rendered.
Status: 1 a template has an error, 2 a word is wrong, 3 a file can't be read.";

/// Returns the table of a command's options.
fn table<'w>(alloc: Global, task: Task) -> Result<Command<'w>, AllocError> {
    match task {
        Task::Page => {
            let command = Command::new(alloc, "page")
                .bin_name("liquid page")?
                .no_binary_name(true)
                .about("Renders templates of standard Liquid over data")
                .after_help(EXAMPLES);
            let command = with_files(alloc, command)?;
            let command = with_output(alloc, command)?;
            with_manners(alloc, command)
        }
        Task::Check => {
            let command = Command::new(alloc, "check")
                .bin_name("liquid check")?
                .no_binary_name(true)
                .about("Reads templates of standard Liquid, and shows their errors")
                .after_help(WARNINGS);
            with_files(alloc, command)
        }
    }
}

/// Returns the table of the options of `liquid render --jekyll`.
fn render_table<'w>(alloc: Global) -> Result<Command<'w>, AllocError> {
    let template = Arg::new(alloc, "templates")
        .value_name("TEMPLATE")
        .required(true)
        .help("A template of Jekyll; what is before its body,\nbetween lines '---', is left out");
    let globals = Arg::new(alloc, "data")
        .value_name("GLOBALS.json")
        .required(true)
        .help("A JSON object, whose members are the names\nthat the template sees");
    let partials = Arg::new(alloc, "partials")
        .value_name("DIR")
        .help("The partials: each file in it, by its path");
    let output = Arg::new(alloc, "output")
        .short('o')
        .long("output")
        .value_name("FILE")
        .help("Writes the page to this file, if it is whole");
    let jekyll = Arg::new(alloc, "jekyll")
        .long("jekyll")
        .action(ArgAction::SetTrue)
        .help("The template is Jekyll's: its tags and filters,\nand a missing name is nil");
    let standard = Arg::new(alloc, "standard")
        .long("standard")
        .action(ArgAction::SetTrue)
        .help("Changes nothing: --jekyll has the standard tags\nand filters too");
    let command = Command::new(alloc, "render")
        .bin_name("liquid render")?
        .no_binary_name(true)
        .about("Renders a template of Jekyll over a JSON object")
        .arg(template)?
        .arg(globals)?
        .arg(partials)?
        .arg(output)?
        .arg(jekyll)?
        .arg(standard)?;
    with_manners(alloc, command)
}

/// Adds the options that name what is read.
fn with_files<'w>(alloc: Global, command: Command<'w>) -> Result<Command<'w>, AllocError> {
    let templates = Arg::new(alloc, "templates")
        .value_name("TEMPLATE")
        .required(true)
        .num_args(1..)
        .action(ArgAction::Append)
        .help("A template, or a folder of templates and other files");
    let data = Arg::new(alloc, "data")
        .long("data")
        .value_name("DATA")
        .action(ArgAction::Append)
        .help("A file whose names the pages see");
    let set = Arg::new(alloc, "set")
        .long("set")
        .value_name("NAME=TEXT")
        .action(ArgAction::Append)
        .help("Sets a text, as in --set site.title=Home");
    let partials = Arg::new(alloc, "partials")
        .long("partials")
        .value_name("FOLDER")
        .help("The partials: each file in it, by its path\nwithout .liquid");
    let jekyll = Arg::new(alloc, "jekyll")
        .long("jekyll")
        .action(ArgAction::SetTrue)
        .help(
            "The templates are Jekyll's: its tags and filters,\nand partials by their whole paths",
        );
    command
        .arg(templates)?
        .arg(data)?
        .arg(set)?
        .arg(partials)?
        .arg(jekyll)
}

/// Adds the options that say where pages go, and when they are made.
fn with_output<'w>(alloc: Global, command: Command<'w>) -> Result<Command<'w>, AllocError> {
    let output = Arg::new(alloc, "output")
        .short('o')
        .long("output")
        .value_name("PATH")
        .help("Writes the page to this file, or the pages\nto this FOLDER/");
    let watch = Arg::new(alloc, "watch")
        .long("watch")
        .action(ArgAction::SetTrue)
        .help("Makes the pages again after each line of standard\ninput, if a file changed");
    let now = Arg::new(alloc, "now")
        .long("now")
        .value_name("DATE")
        .help("The moment that `now` and `today` are");
    command.arg(output)?.arg(watch)?.arg(now)
}

/// Adds the options that say how a page is rendered.
fn with_manners<'w>(alloc: Global, command: Command<'w>) -> Result<Command<'w>, AllocError> {
    let lenient = Arg::new(alloc, "lenient")
        .long("lenient")
        .action(ArgAction::SetTrue)
        .overrides_with("strict")?
        .help("A missing name is nil");
    let strict = Arg::new(alloc, "strict")
        .long("strict")
        .action(ArgAction::SetTrue)
        .overrides_with("lenient")?
        .help("A missing name is an error\n(the default without --jekyll)");
    let sandboxed = Arg::new(alloc, "sandboxed")
        .long("sandboxed")
        .action(ArgAction::SetTrue)
        .help("The names are the data of a sandbox");
    let turns = Arg::new(alloc, "turns")
        .long("turns")
        .value_name("N")
        .help("A page may take N turns of tags and blocks");
    let bytes = Arg::new(alloc, "bytes")
        .long("bytes")
        .value_name("N")
        .help("A page may write N bytes");
    command
        .arg(lenient)?
        .arg(strict)?
        .arg(sandboxed)?
        .arg(turns)?
        .arg(bytes)
}

/// What a request that would read standard input twice is answered.
const INPUT_TWICE: &str =
    "liquid: standard input can be one template, one file of data or the lines of --watch\n";

/// Reads the words after the name of a command.
pub fn read_words<'w>(
    alloc: Global,
    task: Task,
    words: &'w [String],
) -> Result<Request<'w>, NoRequest> {
    match table(alloc, task)?.try_get_matches_from(words) {
        Ok(matches) => read_once(alloc, request_of(alloc, &matches)?),
        Err(error) => Err(no_request(alloc, &error)),
    }
}

/// Returns the request, unless it would read standard input twice.
fn read_once<'w>(alloc: Global, request: Request<'w>) -> Result<Request<'w>, NoRequest> {
    if reads_input_twice(&request) {
        let message = String::from_str(alloc, INPUT_TWICE)?;
        return Err(NoRequest::Wrong(message));
    }
    Ok(request)
}

/// Returns `true` if two of the templates, the data and the watch would read standard input.
fn reads_input_twice(request: &Request<'_>) -> bool {
    let mut is_taken = request.is_watched;
    for word in request.templates.as_slice() {
        if path_named(*word) == path_named("-") {
            if is_taken {
                return true;
            }
            is_taken = true;
        }
    }
    for word in request.data_words.as_slice() {
        if data_path(*word) == path_named("-") {
            if is_taken {
                return true;
            }
            is_taken = true;
        }
    }
    false
}

/// Reads the words after `render`, of which one is `--jekyll`. The template is the one of the request, the JSON object its
/// one word for data, and the folder that of its partials.
pub fn read_render_words<'w>(alloc: Global, words: &'w [String]) -> Result<Request<'w>, NoRequest> {
    match render_table(alloc)?.try_get_matches_from(words) {
        Ok(matches) => read_once(alloc, request_of(alloc, &matches)?),
        Err(error) => Err(no_request(alloc, &error)),
    }
}

/// Returns what the matched words say.
fn request_of<'w>(alloc: Global, matches: &ArgMatches<'w>) -> Result<Request<'w>, NoRequest> {
    Ok(Request {
        templates: all(alloc, matches, "templates")?,
        data_words: all(alloc, matches, "data")?,
        sets: all(alloc, matches, "set")?,
        folder: matches.get_str("partials"),
        output: matches.get_str("output"),
        moment: matches.get_str("now"),
        options: options_of(alloc, matches)?,
        is_jekyll: matches.get_flag("jekyll"),
        is_watched: matches.get_flag("watch"),
    })
}

/// Returns the values of an option.
fn all<'w>(alloc: Global, matches: &ArgMatches<'w>, id: &str) -> Result<Vec<&'w str>, AllocError> {
    let mut values = Vec::new(alloc);
    if let Some(given) = matches.get_strs(id) {
        for value in given {
            values.push(*value)?;
        }
    }
    Ok(values)
}

/// Returns how a page is rendered.
fn options_of(alloc: Global, matches: &ArgMatches<'_>) -> Result<PageOptions, NoRequest> {
    let frame = if matches.get_flag("sandboxed") {
        PageFrame::Isolated
    } else {
        PageFrame::Open
    };
    Ok(PageOptions {
        frame,
        decimals: true,
        leniency: leniency_of(matches),
        max_turns: limit_of(alloc, matches, "turns")?,
        max_bytes: limit_of(alloc, matches, "bytes")?,
    })
}

/// Returns which names and indexes without a value are nil. In Jekyll's templates all are, unless an option makes them
/// errors.
fn leniency_of(matches: &ArgMatches<'_>) -> Leniency {
    if matches.get_flag("jekyll") && !matches.get_flag("strict") {
        Leniency::Indexes
    } else {
        Leniency::of_paths(matches.get_flag("lenient"))
    }
}

/// Returns the limit that an option gives. 0 is no limit.
fn limit_of(alloc: Global, matches: &ArgMatches<'_>, id: &str) -> Result<Option<u64>, NoRequest> {
    let Some(text) = matches.get_str(id) else {
        return Ok(None);
    };
    match number_of(text) {
        Some(0) => Ok(None),
        Some(number) => Ok(Some(number)),
        None => {
            let message = format!(in alloc;
                "liquid: --{id} {text}: not a whole number, such as 1000, 50k or 2M\n"
            )?;
            Err(NoRequest::Wrong(message))
        }
    }
}

/// Returns the number that a text is: digits, perhaps with `k` for thousands or `M` for millions after them.
fn number_of(text: &str) -> Option<u64> {
    if let Some(digits) = text.strip_suffix("k") {
        return whole(digits)?.checked_mul(1_000);
    }
    if let Some(digits) = text.strip_suffix("M") {
        return whole(digits)?.checked_mul(1_000_000);
    }
    whole(text)
}

/// Returns the number of digits alone.
fn whole(digits: &str) -> Option<u64> {
    if digits.as_bytes().iter().all(u8::is_ascii_digit) {
        digits.parse::<u64>().ok()
    } else {
        None
    }
}

/// Returns what an error of the words asks to be said.
fn no_request(alloc: Global, error: &Error) -> NoRequest {
    let Ok(text) = format!(in alloc; "{error}") else {
        return NoRequest::Memory;
    };
    match error.kind() {
        ErrorKind::OutOfMemory => NoRequest::Memory,
        ErrorKind::DisplayHelp => NoRequest::Help(text),
        _ => NoRequest::Wrong(text),
    }
}
