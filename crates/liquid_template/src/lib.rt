//! Sinks, and the rendering of parsed templates.
#![tactic(auto)]

mod cycle;
mod end;
mod gate;
mod history;
mod isolated;
mod laws;
mod outlet;
mod partial;
mod piece;
mod put;
mod render;
mod sandbox;
mod sink;
mod start;
mod store;
mod template;
mod text_sink;
mod trace;
mod turn;
mod watched;
mod within;
mod writer_sink;

pub use crate::gate::{Gate, GatedSink, Limits};
pub use crate::history::History;
pub use crate::laws::{
    checkpoints_count_turns, isolated_outsides_agree, isolated_runs_are_apart, outsides_agree,
    sandboxed_runs_are_isolated,
};
pub use crate::sink::{Sink, SinkFault};
pub use crate::store::{PartialStore, unknown_partial};
pub use crate::template::Template;
pub use crate::text_sink::TextSink;
pub use crate::watched::{Watch, Watched};
pub use crate::writer_sink::WriterSink;
