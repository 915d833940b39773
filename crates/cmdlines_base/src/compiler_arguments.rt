//! What a command line comes to.

/// A request that can be cached, or why there is none.
#[derive(Debug, Drop, PartialEq, Eq)]
pub enum CompilerArguments<T> {
    /// This is asked for.
    Ok(T),
    /// The words don't ask for a compile.
    NotCompilation,
    /// What they ask for can't be cached, for this reason, with more text or none.
    CannotCache(&'static str, Option<String>),
}
