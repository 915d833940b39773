//! The macros of date and time in bytes, the moments that files keep, and the days of a zone.
#![tactic(auto)]

mod days;
pub mod holds;
mod laws;
mod metadata_ctime_ext;
mod reader_time_macros;
mod time_macro_finder;
mod timestamp;
mod zone;

pub use days::local_day;
pub use laws::{days_hold_their_seconds, timestamps_are_their_nanoseconds};
pub use metadata_ctime_ext::MetadataCtimeExt;
pub use reader_time_macros::reader_sync_time_macros;
pub use time_macro_finder::TimeMacroFinder;
pub use timestamp::Timestamp;
pub use zone::{Zone, ZoneError};
