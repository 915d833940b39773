//! What an option is for, and in which list of a request it goes.

ghost use Rattle.std.specs.Prelude.{◌≡◌};
ghost use Rattle.cmdlines_tables.specs.Kinds.{list_of, blocks_preprocessor_cache};

/// The kinds of options that a table of a C compiler knows.
#[derive(Clone, Copy, Debug, PartialEq, Eq)]
pub enum ArgKind {
    /// An option under which nothing is kept.
    TooHard,
    /// Compile, and don't link.
    DoCompilation,
    /// Where the object goes.
    Output,
    /// The language of the input.
    Language,
    /// The input is C.
    LanguageC,
    /// The input is C++.
    LanguageCxx,
    /// The input, which is C.
    InputC,
    /// The input, which is C++.
    InputCxx,
    /// An architecture to compile for.
    Arch,
    /// An option of the preprocessor.
    PreprocessorArgument,
    /// An option of the preprocessor that hands on what isn't looked at.
    PreprocessorTooHard,
    /// Write a dependency file.
    NeedDepTarget,
    /// What a dependency file holds.
    DepFlag,
    /// Where the dependency file goes.
    DepArgumentPath,
    /// The target that the dependency file names.
    DepTarget,
    /// An option of the compile.
    PassThrough,
    /// A file whose content the compile depends on.
    ExtraHashFile,
    /// Where the compiler's messages go, in bytes that tools read.
    SerializeDiagnostics,
    /// Whether messages are coloured, by the value.
    DiagnosticsColor,
    /// Messages are coloured.
    DiagnosticsColorFlag,
    /// Messages aren't coloured.
    NoDiagnosticsColorFlag,
    /// A word for Clang's front end.
    XClang,
}

/// The lists of a request's options.
#[derive(Clone, Copy, Debug, PartialEq, Eq)]
pub enum OptionList {
    /// What is passed to the preprocessor.
    Preprocessor,
    /// What dependency files are to hold, and where they go.
    Dependency,
    /// What doesn't show in the object.
    Unhashed,
    /// What is hashed.
    Common,
    /// The architectures, which are hashed too.
    Arch,
    /// None of them: what an option of these kinds says goes elsewhere.
    Nowhere,
}

impl ArgKind {
    /// The list in which options of this kind go.
    pub fn list(self) -> OptionList
        ensures { result ≡ list_of self }
    {
        match self {
            ArgKind::TooHard
            | ArgKind::DoCompilation
            | ArgKind::Output
            | ArgKind::Language
            | ArgKind::LanguageC
            | ArgKind::LanguageCxx
            | ArgKind::InputC
            | ArgKind::InputCxx => OptionList::Nowhere,
            ArgKind::Arch => OptionList::Arch,
            ArgKind::PreprocessorArgument | ArgKind::PreprocessorTooHard => {
                OptionList::Preprocessor
            }
            ArgKind::NeedDepTarget
            | ArgKind::DepFlag
            | ArgKind::DepArgumentPath
            | ArgKind::DepTarget => OptionList::Dependency,
            ArgKind::PassThrough
            | ArgKind::ExtraHashFile
            | ArgKind::DiagnosticsColor
            | ArgKind::DiagnosticsColorFlag
            | ArgKind::NoDiagnosticsColorFlag
            | ArgKind::XClang => OptionList::Common,
            ArgKind::SerializeDiagnostics => OptionList::Unhashed,
        }
    }

    /// Whether the preprocessor cache can't be asked about a request with such an option: one whose value it doesn't
    /// look at, or one that makes the preprocessor write a file.
    pub fn blocks_preprocessor_cache(self) -> bool
        ensures { result ≡ blocks_preprocessor_cache self }
    {
        self == ArgKind::PreprocessorTooHard || self.list() == OptionList::Dependency
    }
}
