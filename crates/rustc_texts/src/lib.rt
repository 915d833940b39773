//! The texts in which rustc answers, and what is asked of it, as functions of texts and lists, with no files and no tool.
#![tactic(auto)]

mod dep_info;
mod env_deps;
mod fault;
mod laws;
mod metadata;
mod name_sets;
pub mod output_names;
pub mod outputs;
mod rewriting;
mod variables;
mod words;

pub use dep_info::parse_dep_info;
pub use env_deps::parse_env_dep_info;
pub use fault::TextFault;
pub use laws::{cfg_places_do_not_count, commands_open_nothing, metadata_is_that_of_each_library};
pub use rewriting::dep_info_with_targets;
pub use variables::{compile_env, hashed_variables};
pub use words::{compile_words, dep_info_words, file_names_words, kept_words};
