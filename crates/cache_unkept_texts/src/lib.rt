//! What in a text speaks against keeping what is made of it: directives that take in files, and the time at which it was printed.
#![tactic(auto)]

mod directives;
mod times;

pub use directives::takes_files;
pub use times::tells_time;
