//! What tests of several crates write: words of a line, files of rows, files and a tool with I/O errors, files that count their calls, a
//! store that forgets and refuses by a list of orders, a reader that fails, a writer of little room, texts that are compared, and facts that
//! are asked for one after the other.
#![tactic(auto)]

mod checks;
mod fail_files;
mod fail_tool;
mod forgetful;
mod narrow_writer;
mod rows;
mod short_reader;
mod texts;
mod watched_files;

pub use checks::Checks;
pub use fail_files::FailFiles;
pub use fail_tool::FailTool;
pub use forgetful::{Forgetful, Order};
pub use narrow_writer::NarrowWriter;
pub use rows::{files_of, insert, words};
pub use short_reader::ShortReader;
pub use texts::{holds, is_that, write_list, write_words};
pub use watched_files::WatchedFiles;
