//! The parts of which keys are made.

use std::fmt;

/// A part of what a request's outputs are kept under. Those of a request to a C compiler come first, in their order, then those of one
/// to rustc; both begin with the family and end with the names.
#[derive(Clone, Copy, Debug, PartialEq, Eq, Drop)]
pub enum Part {
    /// Whose request it is.
    Family,
    /// The digest that represents a C compiler.
    Compiler,
    /// Whether it compiles C++ by itself.
    Plusplus,
    /// The language of the input.
    Language,
    /// The words that count, without the folders that don't.
    Words,
    /// The variables that count.
    Variables,
    /// The contents of extra files.
    ExtraContents,
    /// The digest of the assembler.
    Assembler,
    /// The text, without the folders that don't count.
    Text,
    /// The names of the outputs, with their marks.
    Names,
    /// The digests of rustc's libraries and of its archive.
    Toolchain,
    /// What rustc says of its version.
    Version,
    /// The words that count.
    KeptWords,
    /// The contents of the files of which the source is made.
    Sources,
    /// The contents of the crates that it names.
    Externs,
    /// The digests of the static libraries.
    Archives,
    /// The contents of the file that describes the target.
    Target,
    /// The contents of the profile that code generation uses.
    Profile,
    /// The variables that the source names.
    EnvDeps,
    /// The variables of the call that count.
    CargoPairs,
    /// The directory.
    Directory,
}

impl fmt::Display for Part {
    fn fmt<W: fmt::Write>(&self, f: &mut fmt::Formatter<W>) -> fmt::Result {
        f.write_str(match self {
            Part::Family => "family",
            Part::Compiler => "compiler",
            Part::Plusplus => "C++ compiler",
            Part::Language => "language",
            Part::Words | Part::KeptWords => "words",
            Part::Variables | Part::CargoPairs => "variables",
            Part::ExtraContents => "extra files",
            Part::Assembler => "assembler",
            Part::Text => "text",
            Part::Names => "output names",
            Part::Toolchain => "toolchain",
            Part::Version => "version",
            Part::Sources => "sources",
            Part::Externs => "crates",
            Part::Archives => "static libraries",
            Part::Target => "target file",
            Part::Profile => "profile",
            Part::EnvDeps => "variables of the source",
            Part::Directory => "directory",
        })
    }
}
