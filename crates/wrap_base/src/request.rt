//! Requests.

use crate::compiler::Compiler;
use base_files::{Listed, OsBytes};

/// A compiler's command line, as a build gives it.
#[derive(Debug, Drop)]
pub struct Request {
    pub compiler: Compiler,
    /// The words after the executable.
    pub words: Listed<OsBytes>,
    /// The directory in which the compiler would run.
    pub dir: OsBytes,
    /// Names and values of the variables, in order.
    pub env: Listed<(OsBytes, OsBytes)>,
    /// When it is asked, in seconds since 1970-01-01 UTC.
    pub moment: i64,
}
