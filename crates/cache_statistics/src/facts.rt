//! What a log says of a call beside its words and what it came to.

/// What a log says of a call beside its words and what it came to.
#[derive(Drop)]
pub struct CallFacts {
    /// What differed, where the call was compiled, from the one before it with these outputs.
    pub why: Option<String>,
    /// How many bytes the outputs have.
    pub bytes: u64,
    /// How many microseconds the last compile of this command line took; 0 where that isn't known.
    pub compile_time: u64,
}

impl CallFacts {
    /// Nothing.
    pub fn nothing() -> CallFacts {
        CallFacts {
            why: None,
            bytes: 0,
            compile_time: 0,
        }
    }
}
