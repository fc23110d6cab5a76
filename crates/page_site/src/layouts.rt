//! A page's text without its front matter, within its layouts.
ghost use Rattle.std.specs.Prelude.{◌≡◌, List, [], Some, None, map, option_map, IfOk, IfErr, IfSome, string_bytes};
ghost use Rattle.liquid_value.specs.meaning.Members.{get_member, put_member};
ghost use Rattle.liquid_value.specs.meaning.View.{view, members_view, object_view};
ghost use Rattle.page_site.specs.meaning.Faults.{partial_text, trouble_of};
ghost use Rattle.page_site.specs.meaning.Front.{Splits};
ghost use Rattle.page_site.specs.meaning.Layouts.{
  Broken,
  HasTrouble,
  IsBroken,
  IsPage,
  Wrapped,
  bad_front,
  is_among,
  layout_in,
  layout_path,
  text_of,
  unrendered,
  with_content,
  with_page,
};
ghost use Rattle.page_site.specs.meaning.Answers.{StaysWithin};
ghost use Rattle.page_site.specs.steps.Wrapping.{StepsTo};

use crate::engine::{Engine, Failure, Source};
use crate::fault::PageFault;
use crate::front::{Front, FrontFault, split_front_matter};
use liquid_scalar::Scalar;
use liquid_value::{Object, SharedObject, Value};
use std::alloc::{AllocError, Global};
use std::collections::BTreeMap;

/// The texts of partials by their names.
pub type Partials = BTreeMap<String, String>;

/// Returns the page of a text: its body, rendered and put into its layout, that into its own, and so on.
///
/// `path` is that of the text's file. The front matter is `page`, and a layout sees what is within it as `content`. The
/// layout of a name is the partial `layouts/NAME`.
pub fn render_page<E: Engine>(
    alloc: Global,
    engine: &mut E,
    partials: &Partials,
    names: &SharedObject,
    path: &str,
    text: &str,
) -> Result<String, PageFault>
    ensures page { IfOk result (λ page. IsPage (E.answers engine.old) (partial_text partials.now) (object_view names.now) text.now
        (string_bytes page)) }
    ensures trouble { IfErr result (λ fault. IfSome (trouble_of fault)
        (HasTrouble (E.answers engine.old) (partial_text partials.now) (object_view names.now) text.now)) }
    ensures same { StaysWithin (E.answers engine.old) (E.answers engine.new) }
{
    let front = split(alloc, path, text)?;
    let next = copy_layout(alloc, &front.matter)?;
    let names = with_page(alloc, names, front.matter)?;
    let source = Source {
        path,
        text: front.body,
        lines_before: front.lines,
    };
    let own = copy_names(&names)?;
    let content = render(alloc, engine, source, own)?;
    wrap(alloc, engine, partials, &names, next, content)
}

/// Takes the front matter off the text of a file.
fn split<'t>(alloc: Global, path: &str, text: &'t str) -> Result<Front<'t>, PageFault>
    ensures splits { IfOk result (λ front. Splits text.now (option_map (λ m. members_view m.entries) front.matter) front.body.now) }
    ensures trouble { IfErr result (λ fault. IfSome (trouble_of fault) (λ trouble. trouble ≡ bad_front)) }
{
    match split_front_matter(alloc, text) {
        Ok(front) => Ok(front),
        Err(FrontFault::Memory) => Err(PageFault::Memory),
        Err(fault) => Err(PageFault::BadFront(String::from_str(alloc, path)?, fault)),
    }
}

/// Returns the page of a text over these names.
fn render<E: Engine>(
    alloc: Global,
    engine: &mut E,
    source: Source<'_>,
    names: Object,
) -> Result<String, PageFault>
    ensures renders { IfOk result (λ page. E.answers engine.old source.entry.text.now (members_view names.entries)
        (Some (string_bytes page))) }
    ensures trouble { IfErr result (λ fault. IfSome (trouble_of fault)
        (λ trouble. (trouble ≡ unrendered) × E.answers engine.old source.entry.text.now (members_view names.entries) None)) }
    ensures same { StaysWithin (E.answers engine.old) (E.answers engine.new) }
{
    match engine.render(alloc, source, names) {
        Ok(page) => Ok(page),
        Err(Failure::Memory) => Err(PageFault::Memory),
        Err(Failure::Error(message)) => Err(PageFault::Unrendered(message)),
    }
}

/// Returns the text of a value that is one.
fn text_of(value: &Value) -> Option<&str>
    ensures { option_map (λ text. text.now) result ≡ text_of (view value.now) }
{
    match value {
        Value::Scalar(Scalar::Str(text)) => Some(text.as_str()),
        _ => None,
    }
}

/// Returns the layout that front matter names.
fn layout_in(matter: &Option<Object>) -> Option<&str>
    ensures { option_map (λ name. name.now) result ≡ layout_in (option_map (λ m. members_view m.entries) matter.now) }
{
    match matter {
        Some(matter) => match member_at(matter, "layout") {
            Some(value) => text_of(value),
            None => None,
        },
        None => None,
    }
}

/// Returns the value of a name.
fn member_at<'v>(members: &'v Object, name: &str) -> Option<&'v Value>
    ensures { option_map (λ x. view x.now) result ≡ get_member name.now (members_view members.now.entries) }
{
    members.get(name)
}

/// Returns a copy of the layout's name that front matter has.
fn copy_layout(alloc: Global, matter: &Option<Object>) -> Result<Option<String>, AllocError>
    ensures { IfOk result (λ next. option_map string_bytes next ≡ layout_in (option_map (λ m. members_view m.entries) matter.now)) }
{
    match layout_in(matter) {
        Some(name) => Ok(Some(String::from_str(alloc, name)?)),
        None => Ok(None),
    }
}

/// Returns the path of the partial that a layout is.
fn layout_path(alloc: Global, name: &str) -> Result<String, AllocError>
    ensures { IfOk result (λ path. string_bytes path ≡ layout_path name.now) }
{
    format!(in alloc; "layouts/{name}")
}

/// Returns a copy of the names.
fn copy_names(names: &SharedObject) -> Result<Object, AllocError>
    ensures { IfOk result (λ copy. members_view copy.entries ≡ object_view names.now) }
{
    names.clone()?.into_object()
}

/// Returns a copy of the names with a value put at one of them.
#[tactic(auto, using(crate::proofs::Names::inserted))]
fn put(alloc: Global, names: &SharedObject, name: &str, value: Value) -> Result<Object, AllocError>
    ensures { IfOk result (λ more. members_view more.entries ≡ put_member name.now (view value) (object_view names.now)) }
{
    let mut more = copy_names(names)?;
    drop(more.insert(String::from_str(alloc, name)?, value)?);
    Ok(more)
}

/// Returns the names that a page with this front matter sees.
fn with_page(
    alloc: Global,
    names: &SharedObject,
    matter: Option<Object>,
) -> Result<SharedObject, AllocError>
    ensures { IfOk result (λ more. object_view more ≡ with_page (option_map (λ m. members_view m.entries) matter) (object_view names.now)) }
{
    match matter {
        Some(matter) => {
            let page = Value::Object(SharedObject::shared(alloc, matter)?);
            SharedObject::shared(alloc, put(alloc, names, "page", page)?)
        }
        None => names.clone(),
    }
}

/// Returns the names that a layout sees, around this content.
fn with_content(alloc: Global, names: &SharedObject, content: String) -> Result<Object, AllocError>
    ensures { IfOk result (λ more. members_view more.entries ≡ with_content (string_bytes content) (object_view names.now)) }
{
    put(alloc, names, "content", Value::Scalar(Scalar::Str(content)))
}

/// Returns the text of a partial.
fn partial_at<'p>(partials: &'p Partials, path: &str) -> Option<&'p str>
    ensures { option_map (λ text. text.now) result ≡ partial_text partials.now path.now }
{
    match partials.get(path) {
        Some(text) => Some(text.as_str()),
        None => None,
    }
}

/// Returns whether a name is among these.
fn is_among(name: &str, names: &[String]) -> bool
    ensures { result ≡ is_among name.now (map string_bytes names.now) }
{
    for other in names {
        if name == other.as_str() {
            return true;
        }
    }
    false
}

/// What a layout made of the content, and the layout around it.
#[derive(Drop)]
struct Made {
    content: String,
    next: Option<String>,
}

/// Puts the content into the layout of this name, if it is not within it already.
fn wrap_once<E: Engine>(
    alloc: Global,
    engine: &mut E,
    partials: &Partials,
    names: &SharedObject,
    seen: &[String],
    name: &str,
    content: String,
) -> Result<Made, PageFault>
    ensures wraps { IfOk result (λ made. StepsTo (E.answers engine.old) (partial_text partials.now) (object_view names.now)
        (map string_bytes seen.now) name.now (string_bytes content) (string_bytes made.content) (option_map string_bytes made.next)) }
    ensures trouble { IfErr result (λ fault. IfSome (trouble_of fault) (IsBroken (E.answers engine.old) (partial_text partials.now)
        (object_view names.now) (map string_bytes seen.now) name.now (string_bytes content))) }
    ensures same { StaysWithin (E.answers engine.old) (E.answers engine.new) }
{
    if is_among(name, seen) {
        return Err(PageFault::LayoutAgain(String::from_str(alloc, name)?));
    }
    let path = layout_path(alloc, name)?;
    match partial_at(partials, path.as_str()) {
        Some(text) => {
            let front = split(alloc, path.as_str(), text)?;
            let next = copy_layout(alloc, &front.matter)?;
            let names = with_content(alloc, names, content)?;
            let source = Source {
                path: path.as_str(),
                text: front.body,
                lines_before: front.lines,
            };
            let content = render(alloc, engine, source, names)?;
            Ok(Made { content, next })
        }
        None => Err(PageFault::NoLayout(String::from_str(alloc, name)?)),
    }
}

/// Puts the content into the layout of this name, that into its own, and so on.
fn wrap<E: Engine>(
    alloc: Global,
    engine: &mut E,
    partials: &Partials,
    names: &SharedObject,
    layout: Option<String>,
    content: String,
) -> Result<String, PageFault>
    ensures page { IfOk result (λ page. Wrapped (E.answers engine.old) (partial_text partials.now) (object_view names.now) []
        (option_map string_bytes layout) (string_bytes content) (string_bytes page)) }
    ensures trouble { IfErr result (λ fault. IfSome (trouble_of fault) (Broken (E.answers engine.old) (partial_text partials.now)
        (object_view names.now) [] (option_map string_bytes layout) (string_bytes content))) }
    ensures same { StaysWithin (E.answers engine.old) (E.answers engine.new) }
{
    let mut seen: Vec<String> = Vec::new(alloc);
    let mut next = layout;
    let mut content = content;
    for _ in 0..u64::MAX {
        match next {
            Some(name) => {
                let made = wrap_once(
                    alloc,
                    engine,
                    partials,
                    names,
                    seen.as_slice(),
                    name.as_str(),
                    content,
                )?;
                seen.push(name)?;
                next = made.next;
                content = made.content;
            }
            None => return Ok(content),
        }
    }
    Err(PageFault::Memory)
}
