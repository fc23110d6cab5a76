//! The program `liquid` over any folder and streams: its commands, what it reads, what it writes, and its statuses.
#![tactic(auto)]

pub mod command;
pub mod explain;
pub mod fault;
pub mod filters;
pub mod gather;
pub mod help;
pub mod in_memory;
mod json_notes;
pub mod laws;
pub mod long_command;
mod marks;
mod message;
mod notes;
mod open_blocks;
pub mod pages;
pub mod pages_command;
pub mod rendering;
pub mod run;
mod similar;
pub mod write;
