//! The folder of what a compiler's wrapper keeps between calls: whole files by kind and name, a limit on what they take of the disk, for which
//! the least recently used ones make room, and digests of files that are read again only where they changed.
#![tactic(auto)]

mod error;
mod file_digests;
mod folder;
mod limit;
mod listing;
mod making_room;
mod sizes;

pub use error::CacheDirError;
pub use file_digests::{digest_of, state_of};
pub use folder::{CacheDir, Kind};
pub use limit::{room_within, takes};
pub use listing::{KeptFile, count_that_fit, order_by_use};
pub use making_room::{hold_limit, kept_in, make_room, remove_unused};
