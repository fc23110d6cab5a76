//! The command `liquid`, which renders template files.
#![tactic(auto)]

mod jekyll;
mod page;
mod watch;

use liquid_core::Error;
use liquid_files::Machine;
use liquid_page::Task;
use liquid_program::fault::Fault;
use liquid_program::help;
use liquid_program::run::run;
use std::io::{BufWriter, IsTerminal};
use std::process::ExitCode;
use std::{env, io};

/// What comes before the help for `render`.
const COMMANDS: &str =
    "usage: liquid page TEMPLATE.. [--data FILE].. [--partials FOLDER] [-o PATH] [OPTION..]
       liquid check TEMPLATE.. [--data FILE].. [--partials FOLDER]
       liquid render --jekyll [OPTION..] TEMPLATE GLOBALS.json [DIR]
'liquid page --help', 'liquid check --help' and 'liquid render --jekyll --help' say more.

The command of the first releases, with a language of its own:

";

/// Returns the words after the program's name.
fn words(rt: &HostRuntime) -> Result<Vec<String>, Fault<'static>> {
    match env::args(rt) {
        Ok(args) => match args.skip(1).collect(rt.alloc()) {
            Ok(words) => Ok(words),
            Err(_) => Err(Fault::Refused(Error::Memory)),
        },
        Err(error) => match error.kind() {
            io::ErrorKind::OutOfMemory => Err(Fault::Refused(Error::Memory)),
            _ => Err(Fault::Usage),
        },
    }
}

/// Returns `true` if the words ask for the version.
fn is_version(words: &[String]) -> bool {
    words.iter().any(|word| word.as_str() == "--version")
}

/// Prints texts about the program, and returns the status. If its reader has gone away, no message is due.
fn say(rt: &HostRuntime, first: &str, text: &str) -> Result<u8, Fault<'static>> {
    match rt.print(format_args!("{first}{text}")) {
        Ok(()) => Ok(0),
        Err(error) => match error.kind() {
            io::ErrorKind::BrokenPipe => Ok(1),
            _ => Err(Fault::Refused(Error::with_msg(rt.alloc(), "Failed to render"))),
        },
    }
}

/// Runs the words over the machine's files and streams, with the output collected in a buffer.
fn serve(rt: &HostRuntime) -> Result<u8, Fault<'static>> {
    let words = words(rt)?;
    if let Some((first, rest)) = words.as_slice().split_first() {
        match first.as_str() {
            "page" => return Ok(page::serve(rt, Task::Page, rest)),
            "check" => return Ok(page::serve(rt, Task::Check, rest)),
            "render" => if jekyll::is_asked(rest) {
                return Ok(jekyll::serve(rt, rest));
            },
            _ => {}
        }
    }
    if let Some(text) = help::text_for(words.as_slice()) {
        let first = if is_version(words.as_slice()) {
            ""
        } else {
            COMMANDS
        };
        return say(rt, first, text);
    }
    let output = rt.stdout();
    let Ok(mut out) = BufWriter::new(rt.alloc(), io::writer(&output)) else {
        return Err(Fault::Refused(Error::Memory));
    };
    let errors = rt.stderr();
    let mut err = io::writer(&errors);
    let is_watched = errors.is_terminal();
    let mut files = Machine { rt, is_watched };
    Ok(run(rt.alloc(), words.as_slice(), &mut files, &mut out, &mut err))
}

fn main(rt: HostRuntime) -> ExitCode {
    match serve(&rt) {
        Ok(status) => ExitCode::from(status),
        Err(fault) => {
            let _ = rt.eprint(format_args!("{fault}"));
            ExitCode::from(fault.status())
        }
    }
}
