//! What a call to a C compiler comes to: the configuration, what a preprocessor answers, the record whose bytes are hashed, its
//! key with the shape that the bytes alone don't determine, and what can go wrong on the way, in which step.
#![tactic(auto)]

mod config;
mod fault;
mod laws;
pub mod output_name;
mod params;
mod preprocessor;
mod rustc_answers;
pub mod shape;
mod step;
mod word_end;

pub use config::{ConfigError, KeyConfig};
pub use fault::Fault;
pub use laws::{folders_in_texts_do_not_count, keys_tell_records, materials_tell_parts};
pub use params::{CACHE_VERSION, HashKeyParams, hash_arguments, is_cached, tell_lengths};
pub use preprocessor::{Preprocessor, Printed, Ticks, ToolFail};
pub use rustc_answers::RustcAnswers;
pub use step::Step;
pub use word_end::{hold_word_end, stripped_words_lack_the_end};
