//! What one request asks for, of whichever family, and its key: the verdict on it, its account, and what its outputs are kept under.
#![tactic(auto)]

mod keys;
mod laws;
mod rust_verdict;
mod verdict;

pub use keys::{output_names, place_of};
pub use laws::{compiles_give_what_they_made, runs_are_said_by_places};
pub use rust_verdict::{RustVerdict, judge_rust};
pub use verdict::{Plan, Verdict, judge};
