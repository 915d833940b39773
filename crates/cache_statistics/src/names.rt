//! Names of counters: those of ccache where they mean the same, and else what a call came to, in lower case.

use std::alloc::{AllocError, Global};

/// When the counters began at 0 again.
pub const ZEROED: &str = "stats_zeroed_timestamp";

/// Calls that were answered without a compile.
pub const HITS: [&str; 2] = ["direct_cache_hit", "preprocessed_cache_hit"];

/// Calls that were compiled and kept.
pub const MISSES: [&str; 2] = ["cache_miss", "recache"];

/// Names of ccache for calls that are passed through.
pub const PASSED: [&str; 13] = [
    "bad_compiler_arguments",
    "called_for_link",
    "called_for_preprocessing",
    "compile_failed",
    "disabled",
    "multiple_source_files",
    "no_input_file",
    "output_to_stdout",
    "preprocessor_error",
    "unsupported_code_directive",
    "unsupported_compiler_option",
    "unsupported_environment_variable",
    "unsupported_source_language",
];

/// What asking a server for results of other machines came to.
pub const REMOTE: [&str; 4] = [
    "remote_storage_hit",
    "remote_storage_miss",
    "remote_storage_error",
    "remote_storage_timeout",
];

/// What the names of other calls that are passed through begin with.
pub const UNCACHEABLE: &str = "uncacheable_";

/// What the names of failures on this side begin with.
pub const ERROR: &str = "error_";

/// That front, followed by a name of lower-case letters and digits with `_` between them.
pub fn name_of(alloc: Global, front: &str, text: &str) -> Result<String, AllocError> {
    let mut name = String::from_str(alloc, front)?;
    let mut is_apart = false;
    for byte in text.as_bytes() {
        if !byte.is_ascii_alphanumeric() {
            is_apart = true;
            continue;
        }
        if is_apart && name.len() > front.len() {
            name.push('_')?;
        }
        is_apart = false;
        name.push(char::from(byte.to_ascii_lowercase()))?;
    }
    Ok(name)
}

/// Whether it is a call that was passed through.
pub fn is_passed(name: &str) -> bool {
    name.starts_with(UNCACHEABLE) || PASSED.contains(&name)
}

/// Whether it is a failure on this side.
pub fn is_error(name: &str) -> bool {
    name.starts_with(ERROR)
}
