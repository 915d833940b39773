//! What a walk answers.

use base_files::{Listed, OsBytes};

/// What a text says of the files that it was made of.
#[derive(Clone, Debug, Drop, PartialEq, Eq)]
pub enum Walk {
    /// It can't be determined, or one of them holds a macro that gives another text each second.
    Refused,
    /// The names of those files, each once, in the order in which they appear first.
    Names(Listed<OsBytes>),
}
