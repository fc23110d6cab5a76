//! Jekyll's tags that write the URL of a file or of the site's feed.
ghost use Rattle.std.specs.Prelude.{◌≡◌, codes, option_map, string_bytes, IfOk, IfSome};
ghost use Rattle.liquid_error.specs.meaning.Told.{Gives, told};
ghost use Rattle.liquid_value.specs.meaning.View.{view as tree_of};
ghost use Rattle.liquid_plugins.specs.meaning.TurnOf.{turn_of};
ghost use Rattle.jekyll_tags.specs.laws.LinksHide.{links_hide};
ghost use Rattle.jekyll_tags.specs.meaning.Links as Spec;
ghost use Rattle.jekyll_tags.specs.meaning.Links.{link_name, link_of};
ghost use Rattle.jekyll_tags.specs.meaning.LinksGiven.{link_given};
ghost use Rattle.jekyll_tags.specs.meaning.Files.{fits};
ghost use Rattle.jekyll_tags.specs.meaning.Seen.{member};

use crate::files::{Wanted, file_url, file_wanted, post_url, post_wanted};
use crate::inclusion::join_texts;
use crate::reading::read_parts;
use crate::seen::{given_text, member, member_text, value_seen};
use liquid_core::parser::{ChainMark, FilterChain, ListOf, Meant, PluginRegistry};
use liquid_core::{
    Discreet, Error, Filter, ParseFilter, ParseTag, Renderable, Runtime, TagReflection,
    TagTokenIter, Turn, Value,
};
use liquid_jekyll::text::xml_escape;
use liquid_jekyll::url::{absolute_url, relative_url};
use liquid_runtime::Fresh;
use liquid_tags::asked::alone;
use std::alloc::{AllocError, Global};

/// Jekyll's tags that write a URL.
///
/// `link` and `post_url` have a name: a chain, or chains between `<` and `>`, whose texts are joined.
#[derive(Debug, Clone, Copy, PartialEq, Eq, Drop)]
pub enum JekyllLinks {
    /// The URL of the file of a name.
    Link,
    /// The URL of the post of a name.
    PostUrl,
    /// The element of HTML that names the site's feed. The tag has no name.
    FeedMeta,
}

/// A tag that writes a URL, over filters `X`.
#[derive(Drop)]
pub struct JekyllLink<X> {
    pub tag: JekyllLinks,
    /// The chains whose texts, joined, are the name.
    pub name: Vec<FilterChain<X>>,
}

/// Marks the shape of a tag that writes a URL, over filters of shape `S`.
pub struct JekyllLinkShape<S> {
    pub tag: JekyllLinks,
    pub name: ListOf<ChainMark<S>>,
}

impl TagReflection for JekyllLinks {
    ghost tag_name = { link_name };

    fn tag(&self) -> &str {
        match self {
            JekyllLinks::Link => "link",
            JekyllLinks::PostUrl => "post_url",
            JekyllLinks::FeedMeta => "feed_meta",
        }
    }

    fn description(&self) -> &str {
        match self {
            JekyllLinks::Link => "Writes the URL of a file of the site.",
            JekyllLinks::PostUrl => "Writes the URL of a post.",
            JekyllLinks::FeedMeta => "Writes the element that names the site's feed.",
        }
    }
}

impl<F: ParseFilter> ParseTag<F> for JekyllLinks {
    type Node = JekyllLink<F::Filter>;

    ghost gives = { link_given };

    fn parse(
        &self,
        alloc: Global,
        tokens: TagTokenIter<'_>,
        filters: &PluginRegistry<F>,
    ) -> Result<JekyllLink<F::Filter>, Error> {
        let mut tokens = tokens;
        let name = match self {
            JekyllLinks::FeedMeta => Vec::new(alloc),
            JekyllLinks::Link | JekyllLinks::PostUrl => read_parts(alloc, &mut tokens, filters)?,
        };
        alone(alloc, tokens, JekyllLink { tag: *self, name })
    }
}

impl<X: Filter> Meant for JekyllLink<X> {
    type Shape = JekyllLinkShape<X::Shape>;

    ghost shape = { link_of X.shape };
}

/// It takes one turn; the progress is the number of turns.
impl<X: Filter, V: Fresh> Renderable<V> for JekyllLink<X> {
    type Progress = u64;

    ghost means = { Spec.link_nodes X.means };

    fn start<R: Runtime<Register = V>>(
        &self,
        _alloc: Global,
        _runtime: &mut R,
    ) -> Result<u64, Error> {
        Ok(1)
    }

    fn turns(progress: &u64) -> u64 {
        *progress
    }

    fn turn<R: Runtime<Register = V>>(
        &self,
        alloc: Global,
        _progress: &mut u64,
        runtime: &mut R,
    ) -> Result<Turn, Error> {
        link_turn(alloc, self, &*runtime)
    }

    fn caught(&self, _progress: &mut u64, text: String) {
        drop(text);
    }
}

impl<X: Filter, V: Fresh> Discreet<V> for JekyllLink<X> {
    ghost hides = { links_hide X.means };
}

/// Returns the turn that writes the URL, or the element with it.
#[inline(never)]
fn link_turn<X: Filter, R: Runtime>(
    alloc: Global,
    link: &JekyllLink<X>,
    runtime: &R,
) -> Result<Turn, Error>
    ensures { Gives turn_of result (Spec.link_turn X.means (link_of X.shape link.now) (R.view runtime.now)) }
{
    let name = join_texts(alloc, link.name.as_slice(), runtime)?;
    match value_seen(alloc, "site", runtime)? {
        Some(site) => site_turn(alloc, link.tag, name.as_str(), site.as_view()),
        None => site_turn(alloc, link.tag, name.as_str(), &Value::Nil),
    }
}

/// Returns the turn of a tag with this name for this site.
fn site_turn(alloc: Global, tag: JekyllLinks, name: &str, site: &Value) -> Result<Turn, Error>
    ensures { Gives turn_of result (Spec.site_turn tag name.now (tree_of site.now)) }
{
    match tag {
        JekyllLinks::FeedMeta => Ok(Turn::Text(feed_element(alloc, site)?)),
        JekyllLinks::Link => {
            let wanted = file_wanted(alloc, name)?;
            url_turn(alloc, "No such file", name, link_url(site, &wanted), site)
        }
        JekyllLinks::PostUrl => {
            let wanted = post_wanted(alloc, name)?;
            url_turn(alloc, "No such post", name, post_url(site, &wanted), site)
        }
    }
}

/// Returns the turn that writes a URL of the site. Without one there is an error with this message and the name.
fn url_turn(
    alloc: Global,
    message: &str,
    name: &str,
    url: Option<&str>,
    site: &Value,
) -> Result<Turn, Error>
    ensures { Gives turn_of result (Spec.written message.now name.now (option_map (λ t. t.now) url.entry) (tree_of site.now)) }
{
    match url {
        Some(url) => {
            let base = member_text(alloc, site, "baseurl")?;
            Ok(Turn::Text(relative_url(alloc, base.as_str(), url)?))
        }
        None => Err(not_found(alloc, message, name)),
    }
}

fn not_found(alloc: Global, message: &str, name: &str) -> Error
    ensures { IfSome (told result) (λ r. r ≡ Spec.not_found message.now name.now) }
{
    Error::with_msg(alloc, message).context(alloc, "name", name)
}

/// Returns the URL of a file: of a page, a document or a static file.
fn link_url<'v>(site: &'v Value, wanted: &Wanted) -> Option<&'v str>
    ensures { option_map (λ url. url.now) result ≡ Spec.link_url (fits wanted.now) (tree_of site.now) }
{
    if let Some(url) = file_url(site, "pages", wanted) {
        return Some(url);
    }
    if let Some(url) = file_url(site, "documents", wanted) {
        return Some(url);
    }
    file_url(site, "static_files", wanted)
}

/// Returns the element of HTML that names the site's feed.
fn feed_element(alloc: Global, site: &Value) -> Result<String, AllocError>
    ensures { IfOk result (λ text. string_bytes text ≡ Spec.feed_element (tree_of site.now)) }
{
    let url = feed_url(alloc, site)?;
    let url = xml_escape(alloc, url.as_str())?;
    let title = title_attribute(alloc, site)?;
    format!(in alloc;
        "<link type=\"application/atom+xml\" rel=\"alternate\" href=\"{url}\"{title} />"
    )
}

/// Returns the URL of the site's feed.
fn feed_url(alloc: Global, site: &Value) -> Result<String, AllocError>
    ensures { IfOk result (λ text. string_bytes text ≡ Spec.feed_url (tree_of site.now)) }
{
    let own = member_text(alloc, site, "url")?;
    let base = member_text(alloc, site, "baseurl")?;
    let path = feed_path(alloc, site)?;
    absolute_url(alloc, own.as_str(), base.as_str(), path.as_str())
}

/// Returns the path of the site's feed.
fn feed_path(alloc: Global, site: &Value) -> Result<String, AllocError>
    ensures { IfOk result (λ text. string_bytes text ≡ Spec.feed_path (member (codes "feed") (tree_of site.now))) }
{
    if let Some(feed) = member(site, "feed") {
        if let Some(path) = given_text(alloc, feed, "path")? {
            return Ok(path);
        }
    }
    String::from_str(alloc, "feed.xml")
}

/// Returns the attribute with the title of the site, or else its name. Without both it is none.
fn title_attribute(alloc: Global, site: &Value) -> Result<String, AllocError>
    ensures { IfOk result (λ text. string_bytes text ≡ Spec.title_attribute (Spec.site_title (tree_of site.now))) }
{
    match title_of(alloc, site)? {
        Some(title) => {
            let title = xml_escape(alloc, title.as_str())?;
            format!(in alloc; " title=\"{title}\"")
        }
        None => Ok(String::new(alloc)),
    }
}

fn title_of(alloc: Global, site: &Value) -> Result<Option<String>, AllocError>
    ensures { IfOk result (λ title. option_map string_bytes title ≡ Spec.site_title (tree_of site.now)) }
{
    match given_text(alloc, site, "title")? {
        Some(title) => Ok(Some(title)),
        None => given_text(alloc, site, "name"),
    }
}
