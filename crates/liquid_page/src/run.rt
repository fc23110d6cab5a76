//! Running `liquid page`.
ghost use Rattle.std.specs.Prelude.{◌≡◌, ◌≢◌, ◌⊎◌, ◌∷◌, ℕ, Bool, List, [], Option, Some, None, IfOk, IfSome, OnOk, is_ok, map, nat_eq};
ghost use Rattle.std.specs.Io.KnownBytes.{Appends};
ghost use Rattle.liquid_files.specs.meaning.Files.{known_in, listed_in, reading};
ghost use Rattle.liquid_parser.specs.meaning.Plugins.{language_of};
ghost use Rattle.liquid_partials.specs.meaning.Sources.{texts_in};
ghost use Rattle.liquid_template.specs.meaning.Runs.{setting};
ghost use Rattle.liquid_value.specs.meaning.View.{object_view};
ghost use Rattle.page_site.specs.meaning.Faults.{partial_text};
ghost use Rattle.page_site.specs.meaning.Items.{item_of};
ghost use Rattle.page_site.specs.meaning.Requested.{Follows};
ghost use Rattle.liquid_page.specs.meaning.Answered.{Answered};
ghost use Rattle.liquid_page.specs.meaning.Command.{
  Ends,
  Fails,
  IsGiven,
  NamesAre,
  Pages,
  PartialsAre,
  Prints,
  data_requests,
  first_requests,
  folder_requests,
  page_items,
  page_requests,
  partial_names,
};
ghost use Rattle.liquid_page.specs.meaning.Names.{text_given};
ghost use Rattle.liquid_page.specs.meaning.Requests.{words_of};
ghost use Rattle.liquid_page.specs.steps.Given.{site_of};

use crate::engine::{Explain, PageEngine};
use crate::fault::Fault;
use crate::names::{data_path, read_all, set_all};
use crate::plan::plan;
use crate::request::Request;
use crate::rewriting::Rewrite;
use liquid_files::Folder;
use liquid_parser::{Language, ParseBlock, ParseTag};
use liquid_plugins::{Discreet, ParseFilter};
use liquid_runtime::Fresh;
use liquid_value::{Object, SharedObject};
use page_site::{
    Engine, Item, PartialNames, Partials, Site, SiteFault, Tally, find_clash, make, read_partials,
    reason_of, report, write_items,
};
use std::alloc::{AllocError, Global};
use std::collections::BTreeMap;
use std::io::{self, ErrorKind, Write};
use std::marker::PhantomData;
use std::rc::Rc;

/// How `liquid page` ended.
#[derive(Clone, Copy, Debug, PartialEq, Eq)]
pub struct Outcome {
    /// The exit status.
    pub status: u8,
    /// The files that were written.
    pub tally: Tally,
}

/// What pages are made of.
#[derive(Drop)]
pub(crate) struct Given {
    pub(crate) site: Site,
    pub(crate) items: Vec<Item>,
}

/// Makes the pages that a request names, in a language, and prints the page or writes the files. Each text and each
/// partial is read as `R` says. An error of a text is explained by `explain`.
///
/// The files of data are read and the texts set, one over another; then the partials are read, and the folders of
/// templates are listed. After that each template is read, rendered and written, and each other file copied. Nothing else
/// is read and no other file written. A page is written as a whole or not at all, and a page that fails does not stop the
/// others. Without an output the one page is printed.
///
/// The exit status is 0 if all was done. Each fault is written to `err`, and the first one gives the status: 1 if a page
/// can't be rendered or written, 2 if a word can't be what it is given as, and 3 if a file can't be read as what it
/// should be.
pub fn run_page<V, R, F, T, B, X, D, W, E>(
    alloc: Global,
    language: Rc<Language<F, T, B>>,
    explain: X,
    request: &Request<'_>,
    files: &mut D,
    out: &mut W,
    err: &mut E,
) -> Outcome
where
    V: Fresh,
    R: Rewrite,
    F: ParseFilter,
    T: ParseTag<F>,
    B: ParseBlock<F>,
    T::Node: Discreet<V>,
    B::Node: Discreet<V>,
    X: Explain + Drop,
    D: Folder,
    W: Write,
    E: Write,
    ensures pages { (all : List ℕ → Option (List ℕ)) (folders : Bool → List ℕ → Option (List (List ℕ)))
        → D.known files.old ≡ known_in all → D.listed files.old ≡ listed_in folders
        → Pages (Answered R.rewritten (setting V.fresh F.Filter.means T.Node.means B.Node.means)
        (language_of F.makes T.gives B.block language.value) request.now.options) all folders (words_of request.now)
        (D.known files.new) (W.contents out.old) (W.contents out.new) result.status }
    ensures requests { (folders : Bool → List ℕ → Option (List (List ℕ))) → D.listed files.old ≡ listed_in folders
        → Follows (page_requests folders (words_of request.now)) (D.requests files.old) (D.requests files.new)
        (nat_eq result.status 0) }
    ensures quiet { result.status ≡ 0 → err.new ≡ err.old }
{
    match gather(alloc, request, files) {
        Ok(given) => make_pages::<V, R, F, T, B, X, D, W, E>(
            alloc, language, explain, request, &given, files, out, err,
        ),
        Err(fault) => refuse(files, &fault, err),
    }
}

/// Makes the pages of what was read.
fn make_pages<V, R, F, T, B, X, D, W, E>(
    alloc: Global,
    language: Rc<Language<F, T, B>>,
    explain: X,
    request: &Request<'_>,
    given: &Given,
    files: &mut D,
    out: &mut W,
    err: &mut E,
) -> Outcome
where
    V: Fresh,
    R: Rewrite,
    F: ParseFilter,
    T: ParseTag<F>,
    B: ParseBlock<F>,
    T::Node: Discreet<V>,
    B::Node: Discreet<V>,
    X: Explain + Drop,
    D: Folder,
    W: Write,
    E: Write,
    ensures ends { Ends (Answered R.rewritten (setting V.fresh F.Filter.means T.Node.means B.Node.means)
        (language_of F.makes T.gives B.block language.value) request.now.options (texts_in given.now.site.partials.value))
        (site_of given.now) (D.known files.old) (D.known files.new) (W.contents out.old) (W.contents out.new)
        (text_given request.now.output) result.status
        ⊎ Fails (D.known files.old) (D.known files.new) (W.contents out.old) (W.contents out.new) result.status }
    ensures requests { Follows (map (λ item. reading item.source) (map item_of given.now.items.items)) (D.requests files.old)
        (D.requests files.new) (nat_eq result.status 0) }
    ensures quiet { result.status ≡ 0 → err.new ≡ err.old }
{
    if let Err(fault) = check_items(alloc, request, &*files, given.items.as_slice()) {
        return refuse(files, &fault, err);
    }
    let Ok(partials) = given.site.partials.clone() else {
        return refuse(files, &Fault::Memory, err);
    };
    let mut engine = PageEngine::<V, R, F, T, B, X> {
        language,
        options: request.options,
        partials,
        explain,
        register: PhantomData,
        read_as: PhantomData,
    };
    finish(alloc, request.output, given, &mut engine, files, out, err)
}

/// Reads what pages are made of.
pub(crate) fn gather<D: Folder>(
    alloc: Global,
    request: &Request<'_>,
    files: &mut D,
) -> Result<Given, Fault>
    ensures given { (all : List ℕ → Option (List ℕ)) (folders : Bool → List ℕ → Option (List (List ℕ)))
        → D.known files.old ≡ known_in all → D.listed files.old ≡ listed_in folders
        → IfOk result (λ given. IsGiven all folders (words_of request.now) (site_of given)) }
    ensures items { (folders : Bool → List ℕ → Option (List (List ℕ))) → D.listed files.old ≡ listed_in folders
        → IfOk result (λ given. map item_of given.items.items ≡ page_items folders (words_of request.now)) }
    ensures same { D.known files.new ≡ D.known files.old }
    ensures requests { (folders : Bool → List ℕ → Option (List (List ℕ))) → D.listed files.old ≡ listed_in folders
        → Follows (first_requests folders (words_of request.now)) (D.requests files.old) (D.requests files.new) (is_ok result) }
{
    let names = read_names(alloc, request, files)?;
    let called = partial_names(request);
    let partials = Rc::new(alloc, partials_of(alloc, files, called, request.folder)?)?;
    let items = plan(alloc, files, request.output, request.templates.as_slice())?;
    Ok(Given {
        site: Site { names, partials },
        items,
    })
}

/// Returns the names that pages see.
fn read_names<D: Folder>(
    alloc: Global,
    request: &Request<'_>,
    files: &mut D,
) -> Result<SharedObject, Fault>
    ensures names { (all : List ℕ → Option (List ℕ)) → D.known files.old ≡ known_in all
        → IfOk result (λ names. NamesAre all (words_of request.now) (object_view names)) }
    ensures same { D.known files.new ≡ D.known files.old }
    ensures listed { D.listed files.new ≡ D.listed files.old }
    ensures requests { Follows (data_requests (words_of request.now)) (D.requests files.old) (D.requests files.new) (is_ok result) }
{
    let names = read_all(
        alloc,
        files,
        request.data_words.as_slice(),
        Object::new(alloc),
    )?;
    let names = set_all(alloc, request.sets.as_slice(), names)?;
    Ok(SharedObject::shared(alloc, names)?)
}

/// Returns what the partials of a request are called.
fn partial_names(request: &Request<'_>) -> PartialNames
    ensures { result ≡ partial_names request.now.is_jekyll }
{
    if request.is_jekyll {
        PartialNames::WholePaths
    } else {
        PartialNames::WithoutEnding
    }
}

/// Returns the partials of a folder, if there is one.
fn partials_of<D: Folder>(
    alloc: Global,
    files: &mut D,
    called: PartialNames,
    folder: Option<&str>,
) -> Result<Partials, SiteFault>
    ensures partials { (all : List ℕ → Option (List ℕ)) (folders : Bool → List ℕ → Option (List (List ℕ)))
        → D.known files.old ≡ known_in all → D.listed files.old ≡ listed_in folders
        → IfOk result (λ partials. PartialsAre all folders called (text_given folder.entry) (partial_text partials)) }
    ensures same { D.known files.new ≡ D.known files.old }
    ensures listed { D.listed files.new ≡ D.listed files.old }
    ensures requests { (folders : Bool → List ℕ → Option (List (List ℕ))) → D.listed files.old ≡ listed_in folders
        → Follows (folder_requests folders (text_given folder.entry)) (D.requests files.old) (D.requests files.new)
        (is_ok result) }
{
    match folder {
        Some(folder) => read_partials(alloc, files, called, folder),
        None => Ok(BTreeMap::new(alloc)),
    }
}

/// Checks that no two pages go to one path, that none goes to a file of data, and that only one page is printed.
fn check_items<D: Folder>(
    alloc: Global,
    request: &Request<'_>,
    files: &D,
    items: &[Item],
) -> Result<(), Fault> {
    if request.output.is_none() {
        return check_single(alloc, items);
    }
    for word in &request.data_words {
        if let Some(path) = find_target(files, items, data_path(*word)) {
            return Err(Fault::Own(String::from_str(alloc, path)?));
        }
    }
    match find_clash(alloc, items)? {
        Some(path) => Err(Fault::Clash(String::from_str(alloc, path)?)),
        None => Ok(()),
    }
}

/// Checks that there is one page.
fn check_single(alloc: Global, items: &[Item]) -> Result<(), Fault> {
    if items.len() == 1 {
        return Ok(());
    }
    let message = String::from_str(alloc, "several pages go to a folder: -o FOLDER/")?;
    Err(Fault::Word(message))
}

/// Returns the path of a page that is the file at a path.
fn find_target<'i, D: Folder>(files: &D, items: &'i [Item], path: &str) -> Option<&'i str> {
    for item in items {
        if files.is_same_file(path, item.target.as_str()) {
            return Some(item.target.as_str());
        }
    }
    None
}

/// Prints the page, or writes the files.
fn finish<M: Engine, D: Folder, W: Write, E: Write>(
    alloc: Global,
    output: Option<&str>,
    given: &Given,
    engine: &mut M,
    files: &mut D,
    out: &mut W,
    err: &mut E,
) -> Outcome
    ensures ends { Ends (M.answers engine.old) (site_of given.now) (D.known files.old) (D.known files.new)
        (W.contents out.old) (W.contents out.new) (text_given output.entry) result.status }
    ensures requests { Follows (map (λ item. reading item.source) (map item_of given.now.items.items)) (D.requests files.old)
        (D.requests files.new) (nat_eq result.status 0) }
    ensures quiet { result.status ≡ 0 → err.new ≡ err.old }
{
    let items = given.items.as_slice();
    let mut tally = Tally::new(items.len());
    let status = match output {
        Some(_) => write_items(alloc, &given.site, engine, files, items, &mut tally, err),
        None => print_one(alloc, given, engine, files, out, err),
    };
    Outcome { status, tally }
}

/// Prints the one page.
fn print_one<M: Engine, D: Folder, W: Write, E: Write>(
    alloc: Global,
    given: &Given,
    engine: &mut M,
    files: &mut D,
    out: &mut W,
    err: &mut E,
) -> u8
    ensures prints { Prints (M.answers engine.old) (site_of given.now) (D.known files.old) (D.known files.new)
        (W.contents out.old) (W.contents out.new) result }
    ensures requests { Follows (map (λ item. reading item.source) (map item_of given.now.items.items)) (D.requests files.old)
        (D.requests files.new) (nat_eq result 0) }
    ensures quiet { result ≡ 0 → err.new ≡ err.old }
{
    let Some(item) = only_item(given.items.as_slice()) else {
        return refuse(files, &Fault::Memory, err).status;
    };
    match make(alloc, &given.site, engine, files, item) {
        Ok(page) => print(page.as_slice(), out, err),
        Err(fault) => report(files, item.source.as_str(), Err(fault), err),
    }
}

/// Returns the item, if there is only one.
fn only_item(items: &[Item]) -> Option<&Item>
    ensures { IfSome result (λ item. map item_of items.now ≡ item_of item.now ∷ []) }
{
    match items.split_first() {
        Some((item, rest)) => if rest.is_empty() { Some(item) } else { None },
        None => None,
    }
}

/// Prints these bytes.
fn print<W: Write, E: Write>(page: &[u8], out: &mut W, err: &mut E) -> u8
    ensures printed { result ≡ 0 → Appends (W.contents out.old) (W.contents out.new) page.now }
    ensures quiet { result ≡ 0 → err.new ≡ err.old }
{
    match write_whole(page, out) {
        Ok(()) => 0,
        Err(error) => {
            if error.kind() != ErrorKind::BrokenPipe {
                let _ = writeln!(err, "liquid: the page can't be printed");
            }
            1
        }
    }
}

fn write_whole<W: Write>(page: &[u8], out: &mut W) -> io::Result<()>
    ensures { OnOk result (Appends (W.contents out.old) (W.contents out.new) page.now) }
{
    out.write_all(page)?;
    out.flush()
}

/// Writes a fault, and returns its outcome.
pub(crate) fn refuse<D: Folder, E: Write>(files: &mut D, fault: &Fault, err: &mut E) -> Outcome
    ensures status { result.status ≢ 0 }
    ensures same { D.known files.new ≡ D.known files.old }
    ensures listed { D.listed files.new ≡ D.listed files.old }
    ensures requests { D.requests files.new ≡ D.requests files.old }
{
    let reason = match fault {
        Fault::Unread(SiteFault::Unreadable(path)) => reason_of(files.why(path.as_str(), false)),
        _ => "",
    };
    let message = match fault {
        Fault::Data(message) => write!(err, "liquid: {message}"),
        _ => writeln!(err, "liquid: {fault}{reason}"),
    };
    let _ = message;
    Outcome {
        status: fault.status(),
        tally: Tally::new(0),
    }
}
