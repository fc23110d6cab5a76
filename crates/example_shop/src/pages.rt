//! The shop's page, and what its customers write.
ghost use Rattle.std.specs.Prelude.{◌≡◌, Option, Some, Ok, IfOk, string_bytes};
ghost use Rattle.std.specs.FinMap.{insert};
ghost use Rattle.liquid_json.specs.meaning.Given.{object_read};
ghost use Rattle.liquid_runtime.specs.meaning.Frames.{built_view};
ghost use Rattle.liquid_runtime.specs.meaning.Maps.{names_of};
ghost use Rattle.liquid_runtime.specs.meaning.View.{View};
ghost use Rattle.liquid_partials.specs.meaning.Compiled.{Compiled};
ghost use Rattle.liquid_template.specs.meaning.Partials.{partials_of};
ghost use Rattle.liquid_scalar.specs.meaning.Scalar.{text};
ghost use Rattle.liquid_value.specs.meaning.Tree.{scalar};
ghost use Rattle.liquid_value.specs.meaning.View.{view as tree_of, members_view};
ghost use Rattle.example_shop.specs.meaning.Languages.{meaning_of, the_language};
ghost use Rattle.example_shop.specs.meaning.Pages.{refusal_names, the_partials, visit_names};
ghost use Rattle.example_shop.specs.meaning.Pages.{FindsPartials, PageShown, ReviewShown, SandboxShown, SeesGoods, ShopFound};

use crate::filters::ShopFilters;
use crate::languages::{ShopBlocks, ShopLanguage, ShopTags, language};
use liquid_core::model::{Object, Value, object_from_str};
use liquid_core::parser::{ParseBlock, ParseFilter, ParseTag, parse};
use liquid_core::partials::{InMemorySource, LazyCompiler, LazyStore, PartialCompiler};
use liquid_core::runtime::{BuiltRuntime, Runtime, RuntimeBuilder, Template};
use liquid_core::{Error, PartialStore, Sink, no_names, render_source};
use std::alloc::{AllocError, Global};
use std::rc::Rc;

/// What the shop sells, and what customers must not see.
const GOODS: &str = r#"{
    "shop": {"name": "Field shop", "margin": 40},
    "goods": [
        {"name": "Rain gauge", "left": 3, "mark": "new"},
        {"name": "Heron print", "left": 0, "mark": "signed"}
    ]
}"#;

const PAGE: &str = "<h1>{{ shop.name | upcase }}</h1>
{%- for item in goods %}
{% include 'item' -%}
{%- endfor %}
";

const ITEM: &str = "<p>{{ item.name }} {% badge item.mark %}: \
    {% stock item.left %}{{ item.left }} left{% soldout %}sold out{% endstock %}</p>";

/// The text after a review that has an error.
const REFUSED: &str = "\nRefused: {{ refusal }}";

/// The store of the shop's partials.
type ShopStore = LazyStore<InMemorySource, ShopFilters, ShopTags, ShopBlocks>;

/// The runtime of the shop.
type ShopRuntime = BuiltRuntime<(), ShopStore>;

/// The nodes of the shop's templates.
type ShopFilter = <ShopFilters as ParseFilter>::Filter;

type ShopTag = <ShopTags as ParseTag<ShopFilters>>::Node;

type ShopBlock = <ShopBlocks as ParseBlock<ShopFilters>>::Node;

/// The shop: its language, and a runtime of its goods, which its pages share.
#[derive(Drop)]
pub struct Shop {
    language: Rc<ShopLanguage>,
    runtime: ShopRuntime,
}

/// What contracts see of a shop: the view of its runtime, and what its store finds.
pub trait Seen {
    ghost view: { Self → View (Unit {0}) };

    ghost found: { Self → Option ShopFound };
}

impl Seen for Shop {
    ghost view = { λ shop. ⟦<ShopRuntime as Runtime>⟧.view shop.runtime };

    ghost found = { λ shop. partials_of ⟦<ShopStore as PartialStore<ShopFilter, ShopTag, ShopBlock>>⟧.finds
        (⟦<ShopRuntime as Runtime>⟧.store shop.runtime) };
}

impl Shop {
    /// Opens a shop with its goods and its partials.
    pub fn open(alloc: Global) -> Result<Shop, Error>
        ensures language { IfOk result (λ shop. meaning_of shop.language.value ≡ the_language) }
        ensures goods { IfOk result (λ shop. SeesGoods (⟦<Shop as Seen>⟧.view shop)) }
        ensures partials { IfOk result (λ shop. FindsPartials (⟦<Shop as Seen>⟧.found shop)) }
    {
        let goods = goods(alloc)?;
        let language = shared_language(alloc)?;
        let store = store_of(alloc, &language)?;
        let runtime = runtime_of(alloc, goods, store);
        Ok(Shop { language, runtime })
    }

    /// Writes the shop's page.
    pub fn write_page<K: Sink>(&mut self, alloc: Global, sink: &mut K) -> Result<(), Error>
        ensures shown { PageShown (meaning_of self.old.language.value) (⟦<Shop as Seen>⟧.found self.old)
            (⟦<Shop as Seen>⟧.view self.old) (K.sunk sink.old) (K.sunk sink.new) (⟦<Shop as Seen>⟧.view self.new) result }
        ensures language { self.new.language ≡ self.old.language }
        ensures partials { ⟦<Shop as Seen>⟧.found self.new ≡ ⟦<Shop as Seen>⟧.found self.old }
    {
        render_source(alloc, PAGE, &self.language, &mut self.runtime, sink)
    }

    /// Writes a text of a customer, which sees these names and nothing of the shop's.
    fn write_sandboxed<K: Sink>(
        &mut self,
        alloc: Global,
        text: &str,
        names: Object,
        sink: &mut K,
    ) -> Result<(), Error>
        ensures shown { SandboxShown (meaning_of self.old.language.value) (⟦<Shop as Seen>⟧.found self.old) (names_of names) text.now
            (⟦<Shop as Seen>⟧.view self.old) (K.sunk sink.old) (K.sunk sink.new) (⟦<Shop as Seen>⟧.view self.new) result }
        ensures language { self.new.language ≡ self.old.language }
        ensures partials { ⟦<Shop as Seen>⟧.found self.new ≡ ⟦<Shop as Seen>⟧.found self.old }
    {
        let page = Template::new(parse(alloc, text, &self.language)?);
        page.render_sandboxed(alloc, sink, &mut self.runtime, names, None)
    }
}

/// Writes a review. If it has an error, the error follows what the review wrote.
pub fn write_review<K: Sink>(
    alloc: Global,
    shop: &mut Shop,
    review: &str,
    sink: &mut K,
) -> Result<(), Error>
    ensures shown { ReviewShown (meaning_of shop.old.language.value) (⟦<Shop as Seen>⟧.found shop.old) review.now
        (⟦<Shop as Seen>⟧.view shop.old) (K.sunk sink.old) (K.sunk sink.new) (⟦<Shop as Seen>⟧.view shop.new) result }
    ensures language { shop.new.language ≡ shop.old.language }
    ensures partials { ⟦<Shop as Seen>⟧.found shop.new ≡ ⟦<Shop as Seen>⟧.found shop.old }
{
    match visit(alloc) {
        Ok(names) => match shop.write_sandboxed(alloc, review, names, sink) {
            Ok(()) => Ok(()),
            Err(refusal) => write_refusal(alloc, shop, &refusal, sink),
        },
        Err(_) => Err(Error::Memory),
    }
}

/// Writes the error of a review.
fn write_refusal<K: Sink>(
    alloc: Global,
    shop: &mut Shop,
    refusal: &Error,
    sink: &mut K,
) -> Result<(), Error>
    ensures shown { SandboxShown (meaning_of shop.old.language.value) (⟦<Shop as Seen>⟧.found shop.old)
        (refusal_names refusal.now) REFUSED.now
        (⟦<Shop as Seen>⟧.view shop.old) (K.sunk sink.old) (K.sunk sink.new) (⟦<Shop as Seen>⟧.view shop.new) result }
    ensures language { shop.new.language ≡ shop.old.language }
    ensures partials { ⟦<Shop as Seen>⟧.found shop.new ≡ ⟦<Shop as Seen>⟧.found shop.old }
{
    match refusal_names(alloc, refusal) {
        Ok(names) => shop.write_sandboxed(alloc, REFUSED, names, sink),
        Err(_) => Err(Error::Memory),
    }
}

/// Returns what a review may show.
fn visit(alloc: Global) -> Result<Object, AllocError>
    ensures { IfOk result (λ names. names_of names ≡ visit_names) }
{
    let mut names = no_names(alloc);
    set_text(
        alloc,
        &mut names,
        "visitor",
        String::from_str(alloc, "Ada")?,
    )?;
    set_text(
        alloc,
        &mut names,
        "item",
        String::from_str(alloc, "Rain gauge")?,
    )?;
    Ok(names)
}

/// Returns what the text after a review sees: the text of the review's error.
fn refusal_names(alloc: Global, refusal: &Error) -> Result<Object, AllocError>
    ensures { IfOk result (λ names. names_of names ≡ refusal_names refusal.now) }
{
    let mut names = no_names(alloc);
    set_text(alloc, &mut names, "refusal", refusal.to_string(alloc)?)?;
    Ok(names)
}

/// Gives a name this text.
#[tactic(auto, using(liquid_runtime::proofs::ObjectNames::changed_objects))]
fn set_text(alloc: Global, names: &mut Object, name: &str, value: String) -> Result<(), AllocError>
    ensures { IfOk result (λ _. names_of names.new ≡ insert (names_of names.old) name.now (scalar (text (string_bytes value)))) }
{
    names.insert(String::from_str(alloc, name)?, text_value(value))?;
    Ok(())
}

/// Returns the value of a text.
fn text_value(value: String) -> Value
    ensures { tree_of result ≡ scalar (text (string_bytes value)) }
{
    Value::scalar(value)
}

/// Returns the shop's language, for its pages and its store.
fn shared_language(alloc: Global) -> Result<Rc<ShopLanguage>, AllocError>
    ensures { IfOk result (λ language. meaning_of language.value ≡ the_language) }
{
    Ok(Rc::new(alloc, language(alloc)?)?)
}

/// Returns a store of the shop's partials in this language.
fn store_of(alloc: Global, language: &Rc<ShopLanguage>) -> Result<ShopStore, AllocError>
    ensures { IfOk result (λ store. Compiled (meaning_of language.now.value) the_partials
        (⟦<ShopStore as PartialStore<ShopFilter, ShopTag, ShopBlock>>⟧.finds store)) }
{
    Ok(LazyCompiler::new(partials(alloc)?).compile(alloc, language.clone()?)?)
}

/// Returns the runtime over these goods and this store.
fn runtime_of<P: Drop>(alloc: Global, goods: Object, store: P) -> BuiltRuntime<(), P>
    ensures view { ⟦<BuiltRuntime<(), P> as Runtime>⟧.view result ≡ built_view tt 32 (names_of goods) }
    ensures store { ⟦<BuiltRuntime<(), P> as Runtime>⟧.store result ≡ Some store }
{
    RuntimeBuilder::new(alloc)
        .set_globals(goods)
        .set_partials(store)
        .build()
}

/// Returns what the shop sells, as globals.
fn goods(alloc: Global) -> Result<Object, Error>
    ensures { IfOk result (λ goods. object_read GOODS.now ≡ Some (Ok (members_view goods.entries))) }
{
    match object_from_str(alloc, GOODS) {
        Ok(goods) => goods,
        Err(_) => Err(Error::with_msg(alloc, "The goods are not JSON")),
    }
}

/// Returns the shop's partials.
fn partials(alloc: Global) -> Result<InMemorySource, AllocError>
    ensures { IfOk result (λ source. source ≡ the_partials) }
{
    let mut source = InMemorySource::new(alloc);
    let item = String::from_str(alloc, ITEM)?;
    source.add(String::from_str(alloc, "item")?, item)?;
    Ok(source)
}
