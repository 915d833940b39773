//! What the command lines of a recorded build come to.
#![tactic(auto)]

mod beware;
mod deciding;
mod entry;
mod entry_report;
mod executables;
mod reasons;
mod reported_entries;
mod snapshot;
mod summary;
mod tally;
mod verdict;

pub use beware::options_in;
pub use deciding::{Compilers, Decided};
pub use entry::Entry;
pub use entry_report::EntryReport;
pub use executables::{EntryCompiler, compiler_called, compiler_of, is_wrapper};
pub use reasons::reason_of;
pub use reported_entries::{Lines, ReportedEntries};
pub use snapshot::Asked;
pub use summary::Summary;
pub use tally::{Row, Tally};
