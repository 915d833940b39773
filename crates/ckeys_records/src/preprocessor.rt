//! Preprocessors.

ghost use Rattle.std.specs.Prelude.{◌≡◌, ◌⊎◌, ℕ, [], ◌∷◌, Some, IfOk, IsErrOf};
ghost use Rattle.base_files.specs.Bytes.{ticked};
ghost use Rattle.ckeys_records.specs.Meaning.{Meaning, scene_of, made_of, asked_of};
ghost use Rattle.ckeys_records.specs.declared.step.Step.{Step};

use crate::step::Step;
use base_files::{Files, OsBytes};
use cmdlines_base::SingleCompileCommand;
use cmdlines_tables::CCompilerKind;
use std::alloc::{AllocError, Global};
use thiserror::Error;

/// What a preprocessor printed, and its status.
#[derive(Clone, Debug, Drop, PartialEq, Eq)]
pub struct Printed {
    pub status: i32,
    pub text: OsBytes,
}

/// Why a tool gave no answer.
#[derive(Clone, Copy, Debug, Error, PartialEq, Eq)]
pub enum ToolFail {
    /// Out of memory.
    #[error("memory")]
    Memory,
    /// An I/O error of the tool, or of the files that it read.
    #[error("the tool's device failed")]
    Device,
}

impl From<AllocError> for ToolFail {
    ghost use Rattle.ckeys_records.specs.declared.preprocessor.ToolFail.TheVariants.{Memory};

    ghost from_gives = { λ _ f. f ≡ Memory };

    fn from(_error: AllocError) -> ToolFail {
        ToolFail::Memory
    }
}

/// How often a tool's steps ran and how often it had an I/O error, each modulo 2^64.
#[derive(Clone, Copy, Debug, PartialEq, Eq)]
pub struct Ticks {
    pub preprocess: u64,
    pub compile: u64,
    pub failure: u64,
}

/// A preprocessor whose answers are those of one function.
pub trait Preprocessor {
    /// What each step gives for the reading of the command, the outputs asked for and the scene. No call changes it.
    ghost meaning: { Self → Meaning };

    /// The ticks.
    ghost preprocessed: { Self → ℕ };

    ghost compiled: { Self → ℕ };

    ghost failed: { Self → ℕ };

    /// A call of that step that answered `Device` led from the one state to the other.
    ghost fails_in: { Self → Step → Self → Type 0 };

    /// Runs the command and gives what it prints.
    fn preprocess<F: Files>(
        &mut self,
        alloc: Global,
        kind: CCompilerKind,
        command: &SingleCompileCommand,
        files: &mut F,
        moment: i64,
    ) -> Result<Printed, ToolFail>
        ensures answer { IfOk result
            (λ p. made_of p.status (Some p.text ∷ [])
            ≡ meaning self.old Step.Preprocess (asked_of kind command.now.arguments) []
            (scene_of command.now (F.tree files.old) moment)) }
        ensures meaning { meaning self.new ≡ meaning self.old }
        ensures tree { F.tree files.new ≡ F.tree files.old }
        ensures device { IsErrOf result ToolFail.Device
            → (failed self.new ≡ ticked (failed self.old))
            × fails_in self.old Step.Preprocess self.new }
        ensures files_device { IsErrOf result ToolFail.Device
            → (F.failed files.new ≡ F.failed files.old)
            ⊎ (F.failed files.new ≡ ticked (F.failed files.old)) }
        ensures steady { (IsErrOf result ToolFail.Device → ⊥)
            → (failed self.new ≡ failed self.old) × (F.failed files.new ≡ F.failed files.old) }
        ensures runs { preprocessed self.new ≡ ticked (preprocessed self.old) }
        ensures compiles { compiled self.new ≡ compiled self.old };

    /// The ticks of all steps.
    fn ticks(&self) -> Ticks
        ensures { result
            ≡ record {
              preprocess = preprocessed self.now;
              compile = compiled self.now;
              failure = failed
                  self.now;
            } };
}
