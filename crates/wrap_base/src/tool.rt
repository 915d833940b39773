//! Tools: a compiler of either family, beside what it answers before a key is there.

ghost use Rattle.std.specs.Prelude.{◌≡◌, ◌⊎◌, IfOk, IsErrOf};
ghost use Rattle.base_files.specs.Bytes.{ticked};
ghost use Rattle.ckeys_records.specs.Meaning.{scene_of, made_of, names_of};
ghost use Rattle.wrap_base.specs.AskedBy.{asked_by};

use base_files::{Files, Listed, OsBytes};
use ckeys_records::{RustcAnswers, Step, ToolFail};
use cmdlines_base::{ArtifactDescriptor, SingleCompileCommand};
use cmdlines_tables::CCompilerKind;
use std::alloc::Global;

/// What a compiler made, and its status.
#[derive(Clone, Debug, Drop, PartialEq, Eq)]
pub struct Compiled {
    pub status: i32,
    /// For each output that was asked for its contents, or None where it wasn't made.
    pub contents: Listed<Option<OsBytes>>,
}

/// A compiler with its preprocessor and what rustc answers, whose answers are those of one function.
pub trait Tool: RustcAnswers {
    /// Runs the command and gives the outputs that it made: one to the C compiler of that kind, or to rustc where there is
    /// none.
    fn compile<F: Files>(
        &mut self,
        alloc: Global,
        kind: Option<CCompilerKind>,
        command: &SingleCompileCommand,
        outputs: &[(OsBytes, ArtifactDescriptor)],
        files: &mut F,
        moment: i64,
    ) -> Result<Compiled, ToolFail>
        ensures answer { IfOk result
            (λ made. made_of made.status made.contents
            ≡ Self.meaning self.old Step.Compile (asked_by kind command.now.arguments)
            (names_of outputs.now) (scene_of command.now (F.tree files.old) moment)) }
        ensures meaning { Self.meaning self.new ≡ Self.meaning self.old }
        ensures tree { F.tree files.new ≡ F.tree files.old }
        ensures device { IsErrOf result ToolFail.Device
            → (Self.failed self.new ≡ ticked (Self.failed self.old))
            × Self.fails_in self.old Step.Compile self.new }
        ensures files_device { IsErrOf result ToolFail.Device
            → (F.failed files.new ≡ F.failed files.old)
            ⊎ (F.failed files.new ≡ ticked (F.failed files.old)) }
        ensures steady { (IsErrOf result ToolFail.Device → ⊥)
            → (Self.failed self.new ≡ Self.failed self.old)
            × (F.failed files.new ≡ F.failed files.old) }
        ensures runs { Self.compiled self.new ≡ ticked (Self.compiled self.old) }
        ensures preprocesses { Self.preprocessed self.new ≡ Self.preprocessed self.old };
}
