//! A tool that answers from what was recorded, and remembers what it lacks.
#![tactic(auto)]

mod commands;
mod replay_tool;
mod rustc_records;

pub use replay_tool::{RecordedOutputs, RecordedText, ReplayTool, Wanted};
pub use rustc_records::{RecordedAnswer, RecordedCrate, RecordedRustc};
