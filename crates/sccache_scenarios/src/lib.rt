//! Scenarios as texts: a JSON text is read into the requests that it lists, each with its own files, which are served in one session, and
//! printed: what the programs run; and laws of such sessions over the scripted tool.
#![tactic(auto)]

mod byte_text;
mod compilers;
mod crates;
mod explaining;
mod laws;
mod members;
mod program;
mod scenario;

pub use laws::{records_fix_scripted_outcomes, scripted_runs_meet_their_premise};
pub use program::{RunFault, run, run_explained};
pub use scenario::{Scenario, ScenarioCall, ScenarioFault, read_scenario};
