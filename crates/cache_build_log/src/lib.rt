//! Logs of builds: texts as their lines have them, and logs as they are read, calls with what they came to, cut into builds, packed into
//! lanes, summed and grouped.
//!
//! Of what is here nothing is promised but that each function is safe and ends, whatever a log has in it.
#![tactic(auto)]

mod builds;
mod call;
mod groups;
mod json_texts;
mod kind;
mod lanes;
mod line;
mod log;
mod ninja;
mod sums;
mod texts;

pub use builds::{beginnings, chosen};
pub use call::{Call, Ran};
pub use groups::{Group, groups_of, maker_of};
pub use json_texts::{push_bytes, push_name, push_text};
pub use kind::Kind;
pub use lanes::pack;
pub use log::{Log, read_log};
pub use ninja::other_commands;
pub use sums::{Share, Sums};
pub use texts::{TextId, Texts};
