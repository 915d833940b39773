//! For tests: a rustc that answers with the texts that it was given, and tells how it was asked.

ghost use Rattle.tests_keys.specs.Answering.{answering};

use base_files::{Files, OsBytes};
use ckeys_records::{Preprocessor, Printed, RustcAnswers, Ticks, ToolFail};
use cmdlines_base::SingleCompileCommand;
use cmdlines_tables::CCompilerKind;
use std::alloc::{AllocError, Global};
use tests_kit::write_words;

/// For tests: what rustc answers, whatever the command. It ends with 0.
#[derive(Drop)]
pub(crate) struct AnswerTool {
    dep_info: &'static [u8],
    file_names: &'static [u8],
    /// The digest of each static library.
    digest: &'static [u8],
    /// The words of each command that asked it, each after a space, and `;` after the last one.
    pub(crate) asked: String,
    preprocessed: u64,
    archived: u64,
}

impl AnswerTool {
    /// A tool of these answers that nothing has asked yet.
    pub(crate) fn new(
        alloc: Global,
        dep_info: &'static [u8],
        file_names: &'static [u8],
        digest: &'static [u8],
    ) -> AnswerTool {
        AnswerTool {
            dep_info,
            file_names,
            digest,
            asked: String::new(alloc),
            preprocessed: 0,
            archived: 0,
        }
    }
}

/// Adds the words of a command.
fn push_asked(asked: &mut String, command: &SingleCompileCommand) -> Result<(), AllocError> {
    write_words(asked, command.arguments.as_slice())?;
    asked.push(';')
}

impl Preprocessor for AnswerTool {
    ghost meaning = { λ t. answering t.dep_info.now t.file_names.now t.digest.now };

    ghost preprocessed = { λ t. t.preprocessed };

    ghost compiled = { λ _. 0 };

    ghost failed = { λ _. 0 };

    /// It has no I/O errors.
    ghost fails_in = { λ t _ u. ⊥ };

    fn preprocess<F: Files>(
        &mut self,
        alloc: Global,
        _kind: CCompilerKind,
        _command: &SingleCompileCommand,
        _files: &mut F,
        _moment: i64,
    ) -> Result<Printed, ToolFail> {
        self.preprocessed = self.preprocessed.wrapping_add(1);
        Ok(Printed {
            status: 1,
            text: OsBytes::empty(alloc),
        })
    }

    fn ticks(&self) -> Ticks {
        Ticks {
            preprocess: self.preprocessed,
            compile: 0,
            failure: 0,
        }
    }
}

impl RustcAnswers for AnswerTool {
    ghost archived = { λ t. t.archived };

    fn dep_info<F: Files>(
        &mut self,
        alloc: Global,
        command: &SingleCompileCommand,
        _files: &mut F,
    ) -> Result<Printed, ToolFail> {
        self.preprocessed = self.preprocessed.wrapping_add(1);
        push_asked(&mut self.asked, command)?;
        Ok(Printed {
            status: 0,
            text: OsBytes::from_slice(alloc, self.dep_info)?,
        })
    }

    fn file_names<F: Files>(
        &mut self,
        alloc: Global,
        command: &SingleCompileCommand,
        _files: &mut F,
    ) -> Result<Printed, ToolFail> {
        self.preprocessed = self.preprocessed.wrapping_add(1);
        push_asked(&mut self.asked, command)?;
        Ok(Printed {
            status: 0,
            text: OsBytes::from_slice(alloc, self.file_names)?,
        })
    }

    fn archive_digest<F: Files>(
        &mut self,
        alloc: Global,
        _path: &OsBytes,
        _files: &mut F,
    ) -> Result<OsBytes, ToolFail> {
        self.archived = self.archived.wrapping_add(1);
        Ok(OsBytes::from_slice(alloc, self.digest)?)
    }
}
