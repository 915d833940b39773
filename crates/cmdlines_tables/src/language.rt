//! The languages of inputs: by the extension of a file, by a name, and as an option names them.

ghost use Rattle.std.specs.Prelude.{◌≡◌};
ghost use Rattle.std.specs.Option.{option_copied, option_map};
ghost use Rattle.cmdlines_tables.specs.Languages.{language_of_extension, language_named, name_of, language_option};

/// What an input is written in.
#[derive(Clone, Copy, Debug, PartialEq, Eq, PartialOrd, Ord, Hash)]
pub enum Language {
    C,
    Cxx,
    /// C that the preprocessor has gone over.
    CPreprocessed,
    /// C++ that the preprocessor has gone over.
    CxxPreprocessed,
    Assembler,
    /// Assembler that the preprocessor is to go over.
    AssemblerToPreprocess,
    Rust,
}

impl Language {
    /// The language of files with this extension, as the C compilers know them.
    pub fn from_extension(extension: &[u8]) -> Option<Language>
        ensures { result ≡ language_of_extension extension.now }
    {
        if extension == b"c".as_slice() {
            Some(Language::C)
        } else if extension == b"cc".as_slice()
            || extension == b"cp".as_slice()
            || extension == b"cpp".as_slice()
            || extension == b"CPP".as_slice()
            || extension == b"cxx".as_slice()
            || extension == b"c++".as_slice()
            || extension == b"C".as_slice()
        {
            Some(Language::Cxx)
        } else if extension == b"i".as_slice() {
            Some(Language::CPreprocessed)
        } else if extension == b"ii".as_slice() {
            Some(Language::CxxPreprocessed)
        } else if extension == b"s".as_slice() {
            Some(Language::Assembler)
        } else if extension == b"S".as_slice() || extension == b"sx".as_slice() {
            Some(Language::AssemblerToPreprocess)
        } else {
            None
        }
    }

    /// The language that `-x` means by this word.
    pub fn from_name(name: &[u8]) -> Option<Language>
        ensures { result ≡ language_named name.now }
    {
        if name == b"c".as_slice() {
            Some(Language::C)
        } else if name == b"c++".as_slice() {
            Some(Language::Cxx)
        } else if name == b"cpp-output".as_slice() {
            Some(Language::CPreprocessed)
        } else if name == b"c++-cpp-output".as_slice() {
            Some(Language::CxxPreprocessed)
        } else if name == b"assembler".as_slice() {
            Some(Language::Assembler)
        } else if name == b"assembler-with-cpp".as_slice() {
            Some(Language::AssemblerToPreprocess)
        } else {
            None
        }
    }

    /// The name, as it is in keys.
    pub fn as_str(self) -> &'static str
        ensures { result.now ≡ name_of self }
    {
        match self {
            Language::C => "c",
            Language::Cxx => "c++",
            Language::CPreprocessed => "cpp-output",
            Language::CxxPreprocessed => "c++-cpp-output",
            Language::Assembler => "assembler",
            Language::AssemblerToPreprocess => "assembler-with-cpp",
            Language::Rust => "rust",
        }
    }
}

/// What follows `-x` where Gcc is to read an input in this language; None for Rust, which it doesn't read. It takes no
/// memory.
pub fn language_to_gcc_arg(language: Language) -> Option<&'static str>
    ensures { option_copied result ≡ language_option language }
{
    match language {
        Language::Rust => None,
        known => Some(known.as_str()),
    }
}

/// The same for Clang, which knows these languages by the same names. It takes no memory.
pub fn language_to_clang_arg(language: Language) -> Option<&'static str>
    ensures { option_copied result ≡ language_option language }
{
    language_to_gcc_arg(language)
}
