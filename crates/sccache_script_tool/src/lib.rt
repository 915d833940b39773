//! The scripted tool, which runs commands over a call's files in place of a compiler.
#![tactic(auto)]

mod crate_texts;
mod crates;
mod lines;
mod script;
mod scripting;
mod source;
mod statuses;

pub use crate_texts::CrateTexts;
pub use script::{RetoldTool, ScriptTool};
pub use statuses::{StatusOf, Statuses, error_status, print_status};
