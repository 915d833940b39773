//! Lists of what to watch of a text: where its compiler looked for files and what lay there, beside the results of a manifest, on this machine
//! and for others. And which file systems are trusted to tell of changes.
#![tactic(auto)]

mod listings;
mod manifests;
mod mounts;
mod shared_lists;
mod unwatched;
mod watch_list;

pub use listings::{Listings, PlainName};
pub use manifests::{
    WatchedResult, looks_for_result, noted_and_rows, with_list, with_results_of, without,
};
pub use mounts::{TrustedDevices, devices_in};
pub use shared_lists::{lists_renewed, lists_taken, lists_to_send};
pub use unwatched::Unwatched;
pub use watch_list::{FileRow, Folder, digest_at, holds};
