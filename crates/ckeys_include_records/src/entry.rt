//! What is recorded of a file, and of a text.

use crate::key_text::KeyText;
use base_files::{Listed, OsBytes};

/// A file that a text named: its name, its size, the text of its digest; the day, as a count of days since 1970-01-01, where
/// `__DATE__` occurs in it; and the second of its last change since the start of 1970 in UTC, where `__TIMESTAMP__` does.
#[derive(Clone, Debug, Drop, PartialEq, Eq)]
pub struct IncludeEntry {
    pub path: OsBytes,
    pub size: u64,
    pub digest: KeyText,
    pub day: Option<i64>,
    pub second: Option<i64>,
}

/// The key of a text, and the files that it named.
#[derive(Clone, Debug, Drop, PartialEq, Eq)]
pub struct CachedResult {
    pub key: KeyText,
    pub includes: Listed<IncludeEntry>,
}
