//! For tests: a preprocessor that prints one text.

ghost use Rattle.std.specs.Prelude.{pos, Some, [], ◌∷◌};
ghost use Rattle.ckeys_records.specs.Meaning.{made_of};

use base_files::{Files, OsBytes};
use ckeys_records::{Preprocessor, Printed, Ticks, ToolFail};
use cmdlines_base::SingleCompileCommand;
use cmdlines_tables::CCompilerKind;
use std::alloc::Global;

/// For tests: whatever the command, it prints this text and ends with 0.
#[derive(Drop)]
pub(crate) struct PrintTool {
    text: &'static [u8],
    /// How often it ran.
    pub(crate) preprocessed: u64,
}

impl PrintTool {
    /// One that prints this text.
    pub(crate) fn new(text: &'static [u8]) -> PrintTool {
        PrintTool {
            text,
            preprocessed: 0,
        }
    }
}

impl Preprocessor for PrintTool {
    ghost meaning = { λ t. λ step asked outputs scene. made_of (pos 0) (Some t.text.now ∷ []) };

    ghost preprocessed = { λ t. t.preprocessed };

    ghost compiled = { λ _. 0 };

    ghost failed = { λ _. 0 };

    /// It has no I/O errors.
    ghost fails_in = { λ t _ u. ⊥ };

    fn preprocess<F: Files>(
        &mut self,
        alloc: Global,
        _kind: CCompilerKind,
        _command: &SingleCompileCommand,
        _files: &mut F,
        _moment: i64,
    ) -> Result<Printed, ToolFail> {
        self.preprocessed = self.preprocessed.wrapping_add(1);
        Ok(Printed {
            status: 0,
            text: OsBytes::from_slice(alloc, self.text)?,
        })
    }

    fn ticks(&self) -> Ticks {
        Ticks {
            preprocess: self.preprocessed,
            compile: 0,
            failure: 0,
        }
    }
}
