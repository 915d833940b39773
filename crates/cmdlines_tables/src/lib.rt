//! The options of the C compilers: what each is for, the tables of each compiler, and the languages. What a request asks for by them,
//! and a command as it is run: the values that what parses words, what writes commands and what makes keys speak of.
#![tactic(auto)]

mod command;
mod compiler;
mod compiler_tables;
mod cutting;
mod embedded_tables;
pub mod kind;
pub mod language;
mod language_byte;
mod laws;
mod msvc_table;
mod parsed;
mod tables;
mod value;

pub use command::{Cacheable, command_at};
pub use compiler::{CCompilerKind, Spelling};
pub use compiler_tables::compiler_tree;
pub use cutting::arguments_of;
pub use embedded_tables::{diab_table, tasking_vx_table};
pub use laws::{
    arguments_are_their_items, names_tell_kinds, only_msvc_gives_inputs_by_options,
    options_are_counted, own_words_are_read, tables_share_no_flag,
};
pub use msvc_table::{msvc_dash_table, msvc_slash_table};
pub use parsed::{DependencyOptions, ParsedArguments};
pub use tables::{clang_table, gnu_table};
pub use value::ArgData;
