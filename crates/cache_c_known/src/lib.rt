//! What is known of a call, more from attempt to attempt: its files, its text, what was made of it, and what a disk keeps that may fit.
#![tactic(auto)]

mod audits;
mod compiling;
mod kept;
mod known;
mod manifests;
mod side_files;
mod texts;

pub use kept::{Hint, found, hint_at, hint_name, keep, kept_under, note_hint, renew};
pub use known::{Given, Known};
pub use manifests::Watched;
