//! What is known of a call of rustc: files, what rustc answered, what a disk keeps of earlier calls, and what a hit that is compiled too is
//! compared with.
#![tactic(auto)]

mod audits;
mod known;
mod manifests;
mod questions;

pub use audits::AuditedCrate;
pub use known::KnownCrate;
