//! The C compilers, and what differs between them. specs/CompilerFacts.antt says the same of each.

ghost use Rattle.std.specs.Prelude.{◌≡◌, IfOk};
ghost use Rattle.std.specs.Option.{option_copied};
ghost use Rattle.cmdlines_tables.specs.CompilerFacts.{has_executable, kind_name, kind_named, spelling_of, style_of};
ghost use Rattle.cmdlines_tables.specs.Languages.{knows};
ghost use Rattle.cmdlines_tables.specs.Tables.{ends_options, in_order, tables_of};
ghost use Rattle.cmdlines_tables.specs.OwnWords.{color_word, writes_dependencies};

use crate::embedded_tables::{diab_table, tasking_vx_table};
use crate::language::Language;
use crate::msvc_table::{msvc_dash_table, msvc_slash_table};
use crate::tables::{clang_table, gnu_table};
use crate::value::ArgData;
use cmdlines_base::Table;
use cmdlines_response_files::Style;
use std::alloc::{AllocError, Global};

/// The C compilers whose command lines are read.
#[derive(Clone, Copy, Debug, PartialEq, Eq)]
pub enum CCompilerKind {
    Gcc,
    Clang,
    Diab,
    Msvc,
    TaskingVX,
}

/// How a compiler writes the words that commands have of their own: the language, the output, and what dependency files lack.
#[derive(Clone, Copy, Debug, PartialEq, Eq)]
pub enum Spelling {
    /// As Gcc: `-x` names any language, `-o` the output, `-MF` and `-MT` a dependency file and its target.
    Gnu,
    /// `-o` names the output; no option names a language, of which there are C and C++, nor a dependency file.
    Plain,
    /// As Msvc: `-TC` and `-TP` name C and C++, and `-Fo` the output in one word, which may be a folder.
    Msvc,
}

impl CCompilerKind {
    /// All of them.
    pub const ALL: [CCompilerKind; 5] = [
        CCompilerKind::Gcc,
        CCompilerKind::Clang,
        CCompilerKind::Diab,
        CCompilerKind::Msvc,
        CCompilerKind::TaskingVX,
    ];

    /// The name, as keys, scenarios and reports have it.
    pub fn name(self) -> &'static str
        ensures { result.now ≡ kind_name self }
    {
        match self {
            CCompilerKind::Gcc => "gcc",
            CCompilerKind::Clang => "clang",
            CCompilerKind::Diab => "diab",
            CCompilerKind::Msvc => "msvc",
            CCompilerKind::TaskingVX => "taskingvx",
        }
    }

    /// The compiler of that name.
    pub fn from_name(name: &str) -> Option<CCompilerKind>
        ensures { result ≡ kind_named name.now }
    {
        CCompilerKind::ALL
            .iter()
            .copied()
            .find(|kind| kind.name() == name)
    }

    /// Whether an executable of it has that file name, where no target comes before it and no version after it.
    pub fn has_executable(self, name: &[u8]) -> bool
        ensures { result ≡ has_executable self name.now }
    {
        match self {
            CCompilerKind::Gcc => {
                name == b"cc".as_slice()
                    || name == b"gcc".as_slice()
                    || name == b"c++".as_slice()
                    || name == b"g++".as_slice()
            }
            CCompilerKind::Clang => name == b"clang".as_slice() || name == b"clang++".as_slice(),
            CCompilerKind::Diab => name == b"dcc".as_slice(),
            CCompilerKind::Msvc => name == b"cl".as_slice(),
            CCompilerKind::TaskingVX => name == b"cctc".as_slice(),
        }
    }

    /// Its tables: the first, and the second where there is one.
    pub fn tables(
        self,
        alloc: Global,
    ) -> Result<(Table<ArgData>, Option<Table<ArgData>>), AllocError>
        ensures { IfOk result (λ tables. in_order tables.0 tables.1 ≡ tables_of self) }
    {
        match self {
            CCompilerKind::Gcc => Ok((gnu_table(alloc)?, None)),
            CCompilerKind::Clang => Ok((gnu_table(alloc)?, Some(clang_table(alloc)?))),
            CCompilerKind::Diab => Ok((diab_table(alloc)?, None)),
            CCompilerKind::Msvc => Ok((msvc_dash_table(alloc)?, Some(msvc_slash_table(alloc)?))),
            CCompilerKind::TaskingVX => Ok((tasking_vx_table(alloc)?, None)),
        }
    }

    /// How it writes what commands have of their own.
    pub fn spelling(self) -> Spelling
        ensures { result ≡ spelling_of self }
    {
        match self {
            CCompilerKind::Gcc | CCompilerKind::Clang => Spelling::Gnu,
            CCompilerKind::Diab | CCompilerKind::TaskingVX => Spelling::Plain,
            CCompilerKind::Msvc => Spelling::Msvc,
        }
    }

    /// How it opens words that name response files; None where it opens none.
    pub fn style(self) -> Option<Style>
        ensures { result ≡ style_of self }
    {
        match self {
            CCompilerKind::Gcc | CCompilerKind::Clang => Some(Style::Gnu),
            CCompilerKind::Diab => Some(Style::Diab),
            CCompilerKind::Msvc => Some(Style::Msvc),
            CCompilerKind::TaskingVX => None,
        }
    }

    /// Whether `--` ends the options, so that all words after it are inputs.
    pub fn ends_options(self) -> bool
        ensures { result ≡ ends_options self }
    {
        match self {
            CCompilerKind::Clang => true,
            CCompilerKind::Gcc
            | CCompilerKind::Diab
            | CCompilerKind::Msvc
            | CCompilerKind::TaskingVX => false,
        }
    }

    /// The word that makes the compiler colour its messages, where there is one.
    pub fn color_word(self) -> Option<&'static str>
        ensures { option_copied result ≡ color_word self }
    {
        match self {
            CCompilerKind::Gcc => Some("-fdiagnostics-color=always"),
            CCompilerKind::Clang => Some("-fcolor-diagnostics"),
            CCompilerKind::Diab | CCompilerKind::Msvc | CCompilerKind::TaskingVX => None,
        }
    }

    /// Whether its options can ask for dependency files.
    pub fn writes_dependencies(self) -> bool
        ensures { result ≡ writes_dependencies self }
    {
        match self.spelling() {
            Spelling::Gnu => true,
            Spelling::Plain | Spelling::Msvc => false,
        }
    }

    /// Whether it knows inputs in this language: Gcc and those like it know all, the others C and C++ alone.
    pub fn knows(self, language: Language) -> bool
        ensures { result ≡ knows self language }
    {
        match self.spelling() {
            Spelling::Gnu => true,
            Spelling::Plain | Spelling::Msvc => {
                language == Language::C || language == Language::Cxx
            }
        }
    }
}
