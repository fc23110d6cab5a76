//! Rendering as far as limits leave room. `stopped_by` gets the limit that ended it, if one did.
ghost use Rattle.std.specs.Prelude.{◌≡◌, None, Some};
ghost use Rattle.liquid_template.specs.meaning.OfTypes.{isolated_of, sandboxed_of, template_of};
ghost use Rattle.liquid_template.specs.meaning.Partials.{partials_of};
ghost use Rattle.liquid_pages.specs.meaning.Limited.{fresh_gate, limited};
ghost use Rattle.liquid_pages.specs.steps.RoomRuns.{RendersOn};

use crate::gate::{PageGate, PageLimit};
use crate::options::Room;
use liquid_error::Error;
use liquid_plugins::{Discreet, Filter, Renderable};
use liquid_runtime::Runtime;
use liquid_template::{Gate, GatedSink, PartialStore, Sink, Template};
use liquid_value::Object;
use std::alloc::Global;

/// Renders a template in the runtime's view and writes the result, as far as there is room.
pub(crate) fn render_in_room<X, T, B, R, K>(
    alloc: Global,
    room: Option<Room>,
    template: &Template<X, T, B>,
    runtime: &mut R,
    sink: &mut K,
    stopped_by: &mut Option<PageLimit>,
) -> Result<(), Error>
where
    X: Filter,
    T: Renderable<R::Register>,
    B: Renderable<R::Register>,
    R: Runtime,
    R::Store: PartialStore<X, T, B>,
    K: Sink,
    ensures renders { RendersOn R.view K.sunk (limited room
        (template_of R.Register.fresh X.Filter T.Renderable B.Renderable R.Store.finds (R.store runtime.old) template.now))
        runtime.old runtime.new sink.old sink.new result }
    ensures store { partials_of R.Store.finds (R.store runtime.new) ≡ partials_of R.Store.finds (R.store runtime.old) }
{
    match room {
        None => template.render_to(alloc, sink, runtime),
        Some(room) => {
            let mut page = GatedSink::new(sink, PageGate::new(room));
            let answer = render_limited(alloc, room, template, runtime, &mut page);
            *stopped_by = page.gate().refused;
            let _sink = page.into_sink();
            answer
        }
    }
}

/// Renders a template to a sink whose gate leaves this room.
fn render_limited<X, T, B, R, K>(
    alloc: Global,
    room: Room,
    template: &Template<X, T, B>,
    runtime: &mut R,
    page: &mut GatedSink<&mut K, PageGate>,
) -> Result<(), Error>
where
    X: Filter,
    T: Renderable<R::Register>,
    B: Renderable<R::Register>,
    R: Runtime,
    R::Store: PartialStore<X, T, B>,
    K: Sink,
    requires { ⟦<PageGate as Gate>⟧.gated page.old.gate ≡ fresh_gate room }
    ensures renders { RendersOn R.view K.sunk (limited (Some room)
        (template_of R.Register.fresh X.Filter T.Renderable B.Renderable R.Store.finds (R.store runtime.old) template.now))
        runtime.old runtime.new page.old.sink.now page.new.sink.now result }
    ensures store { partials_of R.Store.finds (R.store runtime.new) ≡ partials_of R.Store.finds (R.store runtime.old) }
    ensures same { page.new.sink.ghost_name ≡ page.old.sink.ghost_name }
{
    template.render_within(alloc, page, runtime)
}

/// Renders a template in a sandbox of these names over the runtime and writes the result, as far as there is room.
pub(crate) fn render_sandboxed_in_room<X, T, B, R, K>(
    alloc: Global,
    room: Option<Room>,
    template: &Template<X, T, B>,
    runtime: &mut R,
    data: Object,
    sink: &mut K,
    stopped_by: &mut Option<PageLimit>,
) -> Result<(), Error>
where
    X: Filter,
    T: Discreet<R::Register>,
    B: Discreet<R::Register>,
    R: Runtime,
    R::Store: PartialStore<X, T, B>,
    K: Sink,
    ensures renders { RendersOn R.view K.sunk (limited room
        (sandboxed_of R.Register.fresh X.Filter T.Discreet B.Discreet R.Store.finds (R.store runtime.old) template.now «data» None))
        runtime.old runtime.new sink.old sink.new result }
    ensures store { partials_of R.Store.finds (R.store runtime.new) ≡ partials_of R.Store.finds (R.store runtime.old) }
{
    match room {
        None => template.render_sandboxed(alloc, sink, runtime, data, None),
        Some(room) => {
            let mut page = GatedSink::new(sink, PageGate::new(room));
            let answer = render_sandboxed_limited(alloc, room, template, runtime, data, &mut page);
            *stopped_by = page.gate().refused;
            let _sink = page.into_sink();
            answer
        }
    }
}

/// Renders a template in a sandbox of these names to a sink whose gate leaves this room.
fn render_sandboxed_limited<X, T, B, R, K>(
    alloc: Global,
    room: Room,
    template: &Template<X, T, B>,
    runtime: &mut R,
    data: Object,
    page: &mut GatedSink<&mut K, PageGate>,
) -> Result<(), Error>
where
    X: Filter,
    T: Discreet<R::Register>,
    B: Discreet<R::Register>,
    R: Runtime,
    R::Store: PartialStore<X, T, B>,
    K: Sink,
    requires { ⟦<PageGate as Gate>⟧.gated page.old.gate ≡ fresh_gate room }
    ensures renders { RendersOn R.view K.sunk (limited (Some room)
        (sandboxed_of R.Register.fresh X.Filter T.Discreet B.Discreet R.Store.finds (R.store runtime.old) template.now «data» None))
        runtime.old runtime.new page.old.sink.now page.new.sink.now result }
    ensures store { partials_of R.Store.finds (R.store runtime.new) ≡ partials_of R.Store.finds (R.store runtime.old) }
    ensures same { page.new.sink.ghost_name ≡ page.old.sink.ghost_name }
{
    template.render_sandboxed_within(alloc, page, runtime, data, None)
}

/// Renders a template in isolation with these names over the runtime and writes the result, as far as there is room.
pub(crate) fn render_isolated_in_room<X, T, B, R, K>(
    alloc: Global,
    room: Option<Room>,
    template: &Template<X, T, B>,
    runtime: &mut R,
    data: Object,
    sink: &mut K,
    stopped_by: &mut Option<PageLimit>,
) -> Result<(), Error>
where
    X: Filter,
    T: Renderable<R::Register>,
    B: Renderable<R::Register>,
    R: Runtime,
    R::Store: PartialStore<X, T, B>,
    K: Sink,
    ensures renders { RendersOn R.view K.sunk (limited room
        (isolated_of R.Register.fresh X.Filter T.Renderable B.Renderable R.Store.finds (R.store runtime.old) template.now «data» None))
        runtime.old runtime.new sink.old sink.new result }
    ensures store { partials_of R.Store.finds (R.store runtime.new) ≡ partials_of R.Store.finds (R.store runtime.old) }
{
    match room {
        None => template.render_isolated(alloc, sink, runtime, data, None),
        Some(room) => {
            let mut page = GatedSink::new(sink, PageGate::new(room));
            let answer = render_isolated_limited(alloc, room, template, runtime, data, &mut page);
            *stopped_by = page.gate().refused;
            let _sink = page.into_sink();
            answer
        }
    }
}

/// Renders a template in isolation with these names to a sink whose gate leaves this room.
fn render_isolated_limited<X, T, B, R, K>(
    alloc: Global,
    room: Room,
    template: &Template<X, T, B>,
    runtime: &mut R,
    data: Object,
    page: &mut GatedSink<&mut K, PageGate>,
) -> Result<(), Error>
where
    X: Filter,
    T: Renderable<R::Register>,
    B: Renderable<R::Register>,
    R: Runtime,
    R::Store: PartialStore<X, T, B>,
    K: Sink,
    requires { ⟦<PageGate as Gate>⟧.gated page.old.gate ≡ fresh_gate room }
    ensures renders { RendersOn R.view K.sunk (limited (Some room)
        (isolated_of R.Register.fresh X.Filter T.Renderable B.Renderable R.Store.finds (R.store runtime.old) template.now «data» None))
        runtime.old runtime.new page.old.sink.now page.new.sink.now result }
    ensures store { partials_of R.Store.finds (R.store runtime.new) ≡ partials_of R.Store.finds (R.store runtime.old) }
    ensures same { page.new.sink.ghost_name ≡ page.old.sink.ghost_name }
{
    template.render_isolated_within(alloc, page, runtime, data, None)
}
