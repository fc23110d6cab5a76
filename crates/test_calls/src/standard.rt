//! Pages of the standard language with plug-ins of a host's own, over a register of its own.
use crate::desk::Desk;
use crate::link::Link;
use crate::twice::Twice;
use liquid_beside::language_beside;
use liquid_core::model::Object;
use liquid_core::parser::{NoPlugin, PluginRegistry};
use liquid_core::partials::InMemorySource;
use liquid_core::{Error, TextSink, render_page_in};
use liquid_extend::{TextBlockPlugin, TextTagPlugin};
use std::alloc::Global;

/// Renders a text without globals, in the standard language with the tag `link` and the block `twice`.
fn render(alloc: Global, text: &str, sink: &mut TextSink) -> Result<(), Error> {
    let filters: PluginRegistry<NoPlugin> = PluginRegistry::new(alloc);
    let tags = [TextTagPlugin { kind: Link }];
    let blocks = [TextBlockPlugin { kind: Twice }];
    let language = language_beside(alloc, filters, &tags, &blocks)?;
    let globals = Object::new(alloc);
    let partials = InMemorySource::new(alloc);
    render_page_in::<Desk, _, _, _, _, _>(alloc, text, language, globals, partials, sink)
}

/// Returns `true` if a page with each of these plug-ins is written.
pub fn standard_pages_are_rendered(alloc: Global) -> bool {
    let mut sink = TextSink::new(alloc);
    let text = "{% cycle 1, 2 %}{% link '/a' %}{% twice %}b{% endtwice %}{% cycle 1, 2 %}";
    let answer = render(alloc, text, &mut sink);
    answer.is_ok() && sink.as_bytes() == b"1</a|>bb2".as_slice()
}
