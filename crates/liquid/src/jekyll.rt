//! The command `liquid render --jekyll`: a template of Jekyll over a JSON object, with the partials of a folder.

use jekyll_language::{SiteBlocks, SiteFilters, SiteTags, site_language};
use jekyll_source::jekyll_text;
use liquid_core::{Error, Object, Sink, WriterSink};
use liquid_files::{Folder, Machine};
use liquid_page::{FromJekyll, NoRequest, Request, SharedSource, read_render_words};
use liquid_pages::{PageFault, globals_of, render_text};
use liquid_program::fault::Fault;
use liquid_std::marks::Marks;
use liquid_template::TextSink;
use page_site::{PartialNames, Partials, SiteFault, read_partials, read_text};
use std::alloc::Global;
use std::collections::BTreeMap;
use std::io::{self, BufWriter, Write};
use std::rc::Rc;

/// Returns `true` if one of the words is the option `--jekyll`. After the word `--` all words are paths.
pub(crate) fn is_asked(words: &[String]) -> bool {
    for word in words {
        match word.as_str() {
            "--jekyll" => return true,
            "--" => return false,
            _ => {}
        }
    }
    false
}

/// Runs the words after `render`, and returns the exit status.
pub(crate) fn serve(rt: &HostRuntime, words: &[String]) -> u8 {
    match read_render_words(rt.alloc(), words) {
        Ok(request) => match render(rt, &request) {
            Ok(()) => 0,
            Err(fault) => {
                let _ = rt.eprint(format_args!("{fault}"));
                fault.status()
            }
        },
        Err(NoRequest::Help(text)) => match rt.print(format_args!("{text}")) {
            Ok(()) => 0,
            Err(_) => 1,
        },
        Err(NoRequest::Wrong(text)) => {
            let _ = rt.eprint(format_args!("{text}"));
            2
        }
        Err(NoRequest::Memory) => {
            let _ = rt.eprint(format_args!("liquid: out of memory\n"));
            1
        }
    }
}

/// Renders the page of a request, and prints it or writes it to a file.
///
/// What was printed before an error stays printed. A file is written only if the page is whole.
fn render<'w>(rt: &HostRuntime, request: &Request<'w>) -> Result<(), Fault<'w>> {
    let alloc = rt.alloc();
    match request.output {
        Some(path) => {
            let mut page = TextSink::new(alloc);
            render_to(rt, request, &mut page)?;
            write_file(rt, request, path, page)
        }
        None => {
            let output = rt.stdout();
            let Ok(mut out) = BufWriter::new(alloc, io::writer(&output)) else {
                return Err(Fault::Refused(Error::Memory));
            };
            let mut sink = WriterSink::new(&mut out);
            let answer = render_to(rt, request, &mut sink);
            match (answer, sink.into_inner().flush()) {
                (Ok(()), Err(_)) => Err(Fault::Refused(Error::with_msg(alloc, "Failed to render"))),
                (answer, _) => answer,
            }
        }
    }
}

/// Writes the page to a file, which is neither its template nor its JSON object.
fn write_file<'w>(
    rt: &HostRuntime,
    request: &Request<'w>,
    path: &str,
    page: TextSink,
) -> Result<(), Fault<'w>> {
    let alloc = rt.alloc();
    let mut files = Machine {
        rt,
        is_watched: false,
    };
    let (template, globals) = paths_of(request)?;
    let Ok(output) = String::from_str(alloc, path) else {
        return Err(Fault::Refused(Error::Memory));
    };
    if files.is_same_file(template, path) || files.is_same_file(globals, path) {
        return Err(Fault::OwnFile(output));
    }
    let Ok(page) = page.into_string() else {
        return Err(Fault::Refused(Error::with_msg(alloc, "Failed to render")));
    };
    match files.replace(alloc, path, page.as_str().as_bytes()) {
        Ok(()) => Ok(()),
        Err(_) => Err(Fault::Unwritable(output)),
    }
}

/// Reads the files of a request, and renders its page to a sink.
fn render_to<'w, K: Sink>(
    rt: &HostRuntime,
    request: &Request<'w>,
    sink: &mut K,
) -> Result<(), Fault<'w>> {
    let alloc = rt.alloc();
    let mut files = Machine {
        rt,
        is_watched: false,
    };
    let (template, globals) = paths_of(request)?;
    let text = text_at(alloc, &mut files, template)?;
    let json = text_at(alloc, &mut files, globals)?;
    let names = names_of(alloc, globals, json.as_str())?;
    let partials = match request.folder {
        Some(folder) => partials_in(alloc, &mut files, folder)?,
        None => BTreeMap::new(alloc),
    };
    match render_names(alloc, request, text.as_str(), names, partials, sink) {
        Ok(()) => Ok(()),
        Err(error) => Err(Fault::Refused(error)),
    }
}

/// Returns the paths of the template and of the JSON object.
fn paths_of<'w>(request: &Request<'w>) -> Result<(&'w str, &'w str), Fault<'w>> {
    match (request.templates.first(), request.data_words.first()) {
        (Some(template), Some(globals)) => Ok((input_at(*template), input_at(*globals))),
        _ => Err(Fault::Usage),
    }
}

/// Returns the path that a word names: `-` is standard input.
fn input_at(word: &str) -> &str {
    if word == "-" { "/dev/stdin" } else { word }
}

/// Returns the text of the file at a path.
fn text_at<'w>(
    alloc: Global,
    files: &mut Machine<'_, HostRuntime>,
    path: &'w str,
) -> Result<String, Fault<'w>> {
    match read_text(alloc, files, path) {
        Ok(text) => Ok(text),
        Err(SiteFault::Page(_)) => Err(Fault::Refused(Error::Memory)),
        Err(_) => Err(Fault::Unreadable(path)),
    }
}

/// Returns the names that a JSON object gives. A number with a fraction is a decimal.
fn names_of<'w>(alloc: Global, path: &'w str, json: &str) -> Result<Object, Fault<'w>> {
    match globals_of(alloc, true, json) {
        Ok(names) => Ok(names),
        Err(PageFault::BadJson(_)) => Err(Fault::BadJson(path, String::new(alloc))),
        Err(PageFault::NoGlobals(error)) => if error.is_memory() {
            Err(Fault::Refused(error))
        } else {
            Err(Fault::NoGlobals(error, String::new(alloc)))
        },
        Err(_) => Err(Fault::Refused(Error::Memory)),
    }
}

/// Returns the partials in a folder.
fn partials_in<'w>(
    alloc: Global,
    files: &mut Machine<'_, HostRuntime>,
    folder: &'w str,
) -> Result<Partials, Fault<'w>> {
    match read_partials(alloc, files, PartialNames::WholePaths, folder) {
        Ok(partials) => Ok(partials),
        Err(SiteFault::Unreadable(path) | SiteFault::NoText(path)) => {
            Err(Fault::UnreadableInFolder(path))
        }
        Err(_) => Err(Fault::Refused(Error::Memory)),
    }
}

/// Renders a text of Jekyll over these names and partials.
fn render_names<K: Sink>(
    alloc: Global,
    request: &Request<'_>,
    text: &str,
    names: Object,
    partials: Partials,
    sink: &mut K,
) -> Result<(), Error> {
    let text = jekyll_text(alloc, without_front_matter(text))?;
    let source = SharedSource::<FromJekyll>::new(Rc::new(alloc, partials)?);
    let mut stopped_by = None;
    let language = Rc::new(alloc, site_language(alloc, None)?)?;
    render_text::<Marks, SiteFilters, SiteTags, SiteBlocks, SharedSource<FromJekyll>, K>(
        alloc,
        request.options,
        text.as_str(),
        &language,
        names,
        Some(source),
        sink,
        &mut stopped_by,
    )
}

/// Returns a text without its front matter: what it begins with, from a line `---` up to the next such line.
fn without_front_matter(text: &str) -> &str {
    let Some(rest) = text.strip_prefix("---\n") else {
        return text;
    };
    match rest.strip_prefix("---\n") {
        Some(body) => body,
        None => match rest.split_once("\n---\n") {
            Some((_, body)) => body,
            None => text,
        },
    }
}
