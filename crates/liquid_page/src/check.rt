//! The command `liquid check`: templates and partials are read, and nothing is rendered or written.
ghost use Rattle.std.specs.Prelude.{◌≡◌, ◌≢◌};

use crate::engine::Explain;
use crate::fault::Fault;
use crate::request::Request;
use crate::rewriting::Rewrite;
use crate::run::{Given, gather, refuse};
use crate::uses::Uses;
use crate::warnings::warn;
use liquid_files::{Folder, Unread};
use liquid_pages::read_template;
use liquid_parser::{Language, ParseBlock, ParseTag};
use liquid_plugins::ParseFilter;
use liquid_scalar::Scalar;
use liquid_value::{Object, Value};
use page_site::front::{FrontFault, split_front_matter};
use page_site::{Item, Partials, Source, is_page};
use std::alloc::{AllocError, AllocFailed, Global};
use std::io::Write;
use std::marker::PhantomData;

/// What is checked against, and what was found so far.
#[derive(Drop)]
struct Found {
    uses: Uses,
    data: Object,
    status: u8,
}

impl Found {
    /// Keeps a status, if it is the first that isn't 0.
    fn add_status(&mut self, status: u8) {
        if self.status == 0 {
            self.status = status;
        }
    }
}

/// Reads the templates and the partials that a request names, each as `R` says, and writes each one's error to `err`. Then
/// it writes warnings: partials that no template names, names that the data lacks if there are data, and texts that are no dates.
///
/// Nothing is rendered, and no file is written. The exit status is 0 if there is no error; 1 if a text has one; 2 if a
/// word can't be what it is given as; and 3 if a file can't be read.
pub fn check_pages<R, F, T, B, X, D, E>(
    alloc: Global,
    language: &Language<F, T, B>,
    explain: &X,
    request: &Request<'_>,
    files: &mut D,
    err: &mut E,
) -> u8
where
    R: Rewrite,
    F: ParseFilter,
    T: ParseTag<F>,
    B: ParseBlock<F>,
    X: Explain,
    D: Folder,
    E: Write,
    ensures same { D.known files.new ≡ D.known files.old }
{
    match gather(alloc, request, files) {
        Ok(given) => match check_given::<R, F, T, B, X, D, E>(
            alloc, language, explain, request, &given, files, err,
        ) {
            Ok(status) => status,
            Err(_) => refuse(files, &Fault::Memory, err).status,
        },
        Err(fault) => refuse(files, &fault, err).status,
    }
}

/// Checks what was read.
fn check_given<R, F, T, B, X, D, E>(
    alloc: Global,
    language: &Language<F, T, B>,
    explain: &X,
    request: &Request<'_>,
    given: &Given,
    files: &mut D,
    err: &mut E,
) -> Result<u8, AllocError>
where
    R: Rewrite,
    F: ParseFilter,
    T: ParseTag<F>,
    B: ParseBlock<F>,
    X: Explain,
    D: Folder,
    E: Write,
    ensures same { D.known files.new ≡ D.known files.old }
{
    let checker = Checker::<R, F, T, B, X> {
        language,
        explain,
        partials: &given.site.partials,
        read_as: PhantomData,
    };
    let mut uses = Uses::new(alloc);
    if request.is_jekyll {
        uses.bound.insert(String::from_str(alloc, "include")?)?;
    }
    let mut found = Found {
        uses,
        data: given.site.names.clone()?.into_object()?,
        status: 0,
    };
    check_partials(alloc, &checker, &mut found, err)?;
    check_items(
        alloc,
        &checker,
        given.items.as_slice(),
        &mut found,
        files,
        err,
    )?;
    let has_data = !request.data_words.is_empty() || !request.sets.is_empty();
    warn(
        &found.uses,
        &found.data,
        has_data,
        &given.site.partials,
        err,
    );
    Ok(found.status)
}

/// What texts are checked by.
#[derive(Drop)]
struct Checker<'c, R, F, T, B, X> {
    language: &'c Language<F, T, B>,
    explain: &'c X,
    partials: &'c Partials,
    read_as: PhantomData<R>,
}

/// Checks each partial.
fn check_partials<R, F, T, B, X, E>(
    alloc: Global,
    checker: &Checker<'_, R, F, T, B, X>,
    found: &mut Found,
    err: &mut E,
) -> Result<(), AllocError>
where
    R: Rewrite,
    F: ParseFilter,
    T: ParseTag<F>,
    B: ParseBlock<F>,
    X: Explain,
    E: Write,
{
    for (name, text) in checker.partials {
        check_text(alloc, checker, name.as_str(), text.as_str(), found, err)?;
    }
    Ok(())
}

/// Checks each template.
fn check_items<R, F, T, B, X, D, E>(
    alloc: Global,
    checker: &Checker<'_, R, F, T, B, X>,
    items: &[Item],
    found: &mut Found,
    files: &mut D,
    err: &mut E,
) -> Result<(), AllocError>
where
    R: Rewrite,
    F: ParseFilter,
    T: ParseTag<F>,
    B: ParseBlock<F>,
    X: Explain,
    D: Folder,
    E: Write,
    ensures same { D.known files.new ≡ D.known files.old }
{
    for item in items {
        let path = item.source.as_str();
        match files.read(alloc, path) {
            Ok(bytes) => if is_page(item, bytes.as_slice()) {
                match String::from_utf8(bytes) {
                    Ok(text) => check_text(alloc, checker, path, text.as_str(), found, err)?,
                    Err(_) => {
                        let _ = writeln!(err, "liquid: cannot read {path}: it is not UTF-8");
                        found.add_status(3);
                    }
                }
            },
            Err(Unread::Memory) => return Err(AllocError),
            Err(Unread::Fault) => {
                let fault = Fault::Unread(page_site::SiteFault::Unreadable(item.source.clone()?));
                found.add_status(refuse(files, &fault, err).status);
            }
        }
    }
    Ok(())
}

/// Checks the text of a file.
fn check_text<R, F, T, B, X, E>(
    alloc: Global,
    checker: &Checker<'_, R, F, T, B, X>,
    path: &str,
    text: &str,
    found: &mut Found,
    err: &mut E,
) -> Result<(), AllocError>
where
    R: Rewrite,
    F: ParseFilter,
    T: ParseTag<F>,
    B: ParseBlock<F>,
    X: Explain,
    E: Write,
{
    let front = match split_front_matter(alloc, text) {
        Ok(front) => front,
        Err(FrontFault::Memory) => return Err(AllocError),
        Err(fault) => {
            let _ = writeln!(err, "liquid: {path}: {fault}");
            found.add_status(3);
            return Ok(());
        }
    };
    if let Some(matter) = &front.matter {
        add_layout(alloc, matter, &mut found.uses)?;
    }
    let source = Source {
        path,
        text: front.body,
        lines_before: front.lines,
    };
    read_source(alloc, checker, source, found, err)
}

/// Adds what a text uses, parses it, and writes its error.
fn read_source<R, F, T, B, X, E>(
    alloc: Global,
    checker: &Checker<'_, R, F, T, B, X>,
    source: Source<'_>,
    found: &mut Found,
    err: &mut E,
) -> Result<(), AllocError>
where
    R: Rewrite,
    F: ParseFilter,
    T: ParseTag<F>,
    B: ParseBlock<F>,
    X: Explain,
    E: Write,
{
    let text = R::rewrite(alloc, source.text)?;
    found.uses.add(
        alloc,
        source.path,
        source.lines_before,
        text.as_str(),
        &found.data,
    )?;
    if let Err(error) = read_template::<F, T, B>(alloc, text.as_str(), checker.language) {
        if error.is_memory() {
            return Err(AllocError);
        }
        let message = checker
            .explain
            .explain(alloc, source, checker.partials, None, &error)?;
        let _ = write!(err, "{message}");
        found.add_status(1);
    }
    Ok(())
}

/// Adds the partial that is the layout of a page.
fn add_layout(alloc: Global, matter: &Object, uses: &mut Uses) -> Result<(), AllocError> {
    if let Some(Value::Scalar(Scalar::Str(name))) = matter.get("layout") {
        uses.partials.insert(format!(in alloc; "layouts/{name}")?)?;
    }
    Ok(())
}
