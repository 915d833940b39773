//! Why a request is passed through.

use std::fmt;

/// Why a request is passed through to its compiler.
#[derive(Clone, Debug, Drop, PartialEq, Eq)]
pub enum Reason {
    /// It doesn't compile one input.
    NotCompilation,
    /// An option or the closing table refuses it: why, and what more there is to say.
    CannotCache(&'static str, Option<String>),
    /// An option whose value may be joined or separate was read with an empty value.
    EmptyValue,
    /// A word of a command would open a response file.
    OpensFile,
    /// A hashed word holds the byte 255, which ends a word where it is hashed.
    Byte255,
    /// A word, the directory, or a variable of a request to rustc isn't UTF-8.
    NotUtf8,
}

impl fmt::Display for Reason {
    fn fmt<W: fmt::Write>(&self, f: &mut fmt::Formatter<W>) -> fmt::Result {
        match self {
            Reason::NotCompilation => write!(f, "not a compilation"),
            Reason::CannotCache(reason, None) => write!(f, "{reason}"),
            Reason::CannotCache(reason, Some(more)) => write!(f, "{reason}: {more}"),
            Reason::EmptyValue => write!(f, "empty value"),
            Reason::OpensFile => write!(f, "opens file"),
            Reason::Byte255 => write!(f, "byte 255"),
            Reason::NotUtf8 => write!(f, "not utf-8"),
        }
    }
}
