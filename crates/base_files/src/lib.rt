//! What an operating system hands over: byte strings, lists of them, paths, and the files of a call.
#![tactic(auto)]

mod file_time;
mod files;
mod listed;
mod lossy;
mod memory_files;
mod os_bytes;
mod path;

pub use file_time::FileTime;
pub use files::{FileFail, Files, Metadata};
pub use listed::Listed;
pub use lossy::Lossy;
pub use memory_files::{MemoryFile, MemoryFiles};
pub use os_bytes::OsBytes;
pub use path::{
    Component, compare_paths, components, extension, file_name, join, paths_have_one_order,
    with_extension,
};
