//! Names and frames: what a template sees and changes while it is rendered.
#![tactic(auto)]

mod builder;
mod global_frame;
mod index_frame;
mod laws;
mod leniency;
mod listed;
mod loop_frame;
mod loop_item;
pub mod names;
mod registers;
mod runtime;
mod runtime_core;
mod sandboxed_frame;
mod scopes;
mod stack_frame;

pub use builder::{BuiltRuntime, RuntimeBuilder};
pub use global_frame::GlobalFrame;
pub use index_frame::IndexFrame;
pub use laws::{
    get_agrees_with_try_get, global_frame_keeps_names, globals_are_seen,
    isolated_frames_end_with_their_names, isolated_frames_show_their_names, left_names_first,
    lenient_get_agrees_with_try_get, roots_are_the_names_seen, set_global_changes_no_other_name,
    set_index_changes_no_other_name, stack_names_first,
};
pub use leniency::Leniency;
pub use listed::Listed;
pub use loop_frame::{Counts, LoopFrame, Seen};
pub use loop_item::LoopItem;
pub use registers::{Fresh, Interrupt, InterruptRegister, Registers};
pub use runtime::{Runtime, find_seen};
pub use runtime_core::RuntimeCore;
pub use sandboxed_frame::SandboxedStackFrame;
pub use scopes::{Frame, Scopes};
pub use stack_frame::StackFrame;
