//! Command lines of C compilers: what their words come to, and the commands that are run for them; and with it all that a caller of
//! a parse names.
#![tactic(auto)]

mod any_found;
mod closing;
mod command;
mod engine;
mod facts;
mod found;
pub mod gcc;
mod kinds;
mod laws;
mod lists;
pub mod msvc;
pub mod uncached_words;

pub use any_found::AnyFoundCompiler;
pub use base_files::{
    FileFail, FileTime, Files, Listed, MemoryFile, MemoryFiles, Metadata, OsBytes,
};
pub use cmdlines_base::{
    ArgDisposition, ArgInfo, ArgParseError, ArgParseResult, ArgToStringError, ArgToStringResult,
    ArgsIter, Argument, ArgumentValue, ArtifactDescriptor, ByteTree, ColorMode, CompilerArguments,
    Delimiter, FromArg, IntoArg, Iter, IterStrings, NormalizedDisposition, SearchableArgInfo,
    SingleCompileCommand, Table, split_os_string_arg,
};
pub use cmdlines_response_files::gcc::GnuFiles;
pub use cmdlines_response_files::msvc::MsvcFiles;
pub use cmdlines_response_files::{
    DiabFiles, ExpandAtArgs, ExpandedWords, ParseFault, SplitMsvcResponseFileArgs,
    decode_response_text, split_gnu_response_file_args,
};
pub use cmdlines_tables::kind::ArgKind;
pub use cmdlines_tables::language::{Language, language_to_clang_arg, language_to_gcc_arg};
pub use cmdlines_tables::{
    ArgData, CCompilerKind, Cacheable, DependencyOptions, ParsedArguments, compiler_tree,
};
pub use command::CommandError;
pub use found::{FoundCompiler, HasKind};
pub use kinds::{
    Clang, ClangKind, Diab, DiabKind, EachKind, Gcc, GccKind, Msvc, MsvcKind, TaskingVX,
    TaskingVXKind,
};
pub use laws::{
    commands_read_as_wanted, inputs_are_safe, requests_have_a_known_language,
    requests_have_an_object,
};
pub use uncached_words::{empty_value, opens_file};
