//! The base of every command line: arguments, tables of options, how a table cuts words, and how arguments are written as words again.
#![tactic(auto)]

mod argument;
mod argument_error;
mod branch;
mod byte_tree;
mod color_mode;
mod command;
mod compiler_arguments;
mod cutting;
mod fork;
mod printing;
mod reading_back;
mod splitting;
mod table;
mod value;

pub use argument::{ArgDisposition, Argument, Delimiter, NormalizedDisposition};
pub use argument_error::{ArgParseError, ArgParseResult, ArgToStringError, ArgToStringResult};
pub use byte_tree::ByteTree;
pub use color_mode::ColorMode;
pub use command::{ArtifactDescriptor, SingleCompileCommand};
pub use compiler_arguments::CompilerArguments;
pub use cutting::{ArgsIter, DoubleDashes, First, words_have_one_reading};
pub use printing::{
    Iter, IterStrings, Piece, Pieces, arguments_print_one_or_two_words,
    arguments_print_what_was_read,
};
pub use reading_back::{items_read_again, items_read_together};
pub use splitting::split_os_string_arg;
pub use table::{ArgInfo, SearchableArgInfo, Table, after, entry_has_the_longest_flag};
pub use value::{ArgumentValue, FromArg, IntoArg, path_to_string, word_to_string};
