//! Counters of what calls came to, in one file of the folder: a record of fixed size is appended for each call, and the records
//! are folded, one for each name, once there are many. And the front of a line of a log: a call as one object of JSON, up to what only the
//! host knows of it.
#![tactic(auto)]

mod calls;
mod counts;
mod error;
mod facts;
mod file;
pub mod front;
mod named;
mod names;
mod record;

pub use calls::{TO_STANDARD_OUTPUT, counters_of};
pub use counts::Counts;
pub use error::StatisticsError;
pub use facts::CallFacts;
pub use file::{count, counts_at, updated_at, zero};
pub use names::{HITS, MISSES, PASSED, REMOTE, ZEROED, is_error, is_passed, name_of};
