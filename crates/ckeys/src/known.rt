//! What an include record says of a call.

use ckeys_include_records::{KeyText, PreprocessorCacheEntry};

/// The key of the call's text, or nothing; and then the record, for one more result.
#[derive(Drop)]
pub enum Known {
    Found(KeyText),
    Missed(PreprocessorCacheEntry),
}
