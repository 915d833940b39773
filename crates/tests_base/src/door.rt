//! The names of a caller of a parse, by `cmdlines` alone: this is built only while it hands on each of them.

pub use cmdlines::{
    ArgData, ArgDisposition, ArgInfo, ArgKind, ArgParseError, ArgParseResult, ArgToStringError,
    ArgToStringResult, ArgsIter, Argument, ArgumentValue, ArtifactDescriptor, ByteTree,
    CCompilerKind, Cacheable, Clang, ColorMode, CommandError, CompilerArguments, Delimiter,
    DependencyOptions, Diab, DiabFiles, ExpandAtArgs, ExpandedWords, FileFail, FileTime, Files,
    FromArg, Gcc, GnuFiles, IntoArg, Iter, IterStrings, Language, Listed, MemoryFile, MemoryFiles,
    Metadata, Msvc, MsvcFiles, NormalizedDisposition, OsBytes, ParseFault, ParsedArguments,
    SearchableArgInfo, SingleCompileCommand, SplitMsvcResponseFileArgs, Table, TaskingVX,
    compiler_tree, decode_response_text, empty_value, language_to_clang_arg, language_to_gcc_arg,
    opens_file, split_gnu_response_file_args, split_os_string_arg,
};

/// The words that Gcc and Clang open, and those that Msvc opens.
pub mod expansions {
    pub use cmdlines::gcc::ExpandIncludeFile as GccWords;
    pub use cmdlines::msvc::ExpandIncludeFile as MsvcWords;
}
