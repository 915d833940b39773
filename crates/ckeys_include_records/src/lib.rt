//! Include records: which files a preprocessed text named, what they held, and the key of that text; and what they are kept under: the
//! digest of who asks, and that of what the preprocessor would be given.
#![tactic(auto)]

mod asker;
mod entry;
pub mod entry_key;
mod framed_digest;
mod framing;
mod includes;
mod key_laws;
mod key_text;
mod laws;
mod layout;
mod look_up;
mod moments;
mod record;
mod sighting;
mod sights;

pub use asker::Asker;
pub use entry::{CachedResult, IncludeEntry};
pub use includes::includes_of;
pub use key_laws::{entry_keys_tell_calls, materials_tell_calls};
pub use key_text::KeyText;
pub use laws::include_lists_are_of_each_name;
pub use moments::{day_of, second_at};
pub use record::PreprocessorCacheEntry;
pub use sights::{SeenInput, preprocessor_cache_entry_hash_key};
