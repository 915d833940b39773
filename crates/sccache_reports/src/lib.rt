//! Reports on recorded builds: what a cache would keep of each command line, and why it would pass the others through.
#![tactic(auto)]

mod database;
mod disk;
mod fault;
mod lines;
mod members;
mod program;
mod report;
mod request_texts;
mod room;
mod skipping;
mod tally;
mod texts;
mod usage;

pub use program::{ReportFault, run};
