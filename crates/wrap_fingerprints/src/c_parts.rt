//! What counts of a request to a C compiler.

ghost use Rattle.std.specs.Prelude.{◌≡◌, ◌↔◌, true};
ghost use Rattle.wrap_fingerprints.specs.Explaining.{AgreeByC};

use crate::part::Part;
use base_files::{Listed, OsBytes};
use ckeys_records::output_name::OutputName;
use cmdlines_tables::language::Language;

/// The parts of a request to a C compiler, in the order in which two requests are compared. Digests are texts.
#[derive(Clone, Debug, Drop, PartialEq, Eq)]
pub struct CParts {
    /// The digest that represents the compiler.
    pub compiler: OsBytes,
    /// Whether the compiler compiles C++ by itself.
    pub plusplus: bool,
    /// The language of the input.
    pub language: Language,
    /// The words that count, without the folders that don't; those that name architectures are the last ones.
    pub words: Listed<OsBytes>,
    /// The variables that count, each with its value.
    pub variables: Listed<(OsBytes, OsBytes)>,
    /// The digests of the extra files.
    pub extra_hashes: Listed<OsBytes>,
    /// The digest of the assembler, where there is one.
    pub assembler: Option<OsBytes>,
    /// The text, without the folders that don't count.
    pub text: OsBytes,
    /// The names of the outputs, with their marks.
    pub names: Listed<OutputName>,
}

impl CParts {
    /// Whether both have the same in this part; of parts of rustc they have.
    pub(crate) fn agree(&self, other: &CParts, part: Part) -> bool
        ensures { (result ≡ true) ↔ AgreeByC self.now other.now part }
    {
        match part {
            Part::Compiler => self.compiler == other.compiler,
            Part::Plusplus => self.plusplus == other.plusplus,
            Part::Language => self.language == other.language,
            Part::Words => self.words == other.words,
            Part::Variables => self.variables == other.variables,
            Part::ExtraContents => self.extra_hashes == other.extra_hashes,
            Part::Assembler => self.assembler == other.assembler,
            Part::Text => self.text == other.text,
            Part::Names => self.names == other.names,
            _ => true,
        }
    }
}
