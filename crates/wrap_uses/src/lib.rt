//! What one writes over `wrap` alone, and what follows for it.
#![tactic(auto)]

mod budget;
mod build;
mod capped_tool;
mod door;
mod misses;
mod recorded_keys;
mod step;
mod within;

pub use budget::BudgetStore;
pub use build::{Build, run_steps};
pub use capped_tool::CappedTool;
pub use misses::why_missed;
pub use recorded_keys::{RecordedKey, pieces_of_key};
pub use step::{Outcome, run_step};
pub use within::answer_within;
