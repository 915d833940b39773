//! Tools that report what rustc depends on and what it writes.

ghost use Rattle.std.specs.Prelude.{◌≡◌, ◌⊎◌, ℕ, ℤ, pos, [], ◌∷◌, Some, IfOk, IsErrOf};
ghost use Rattle.base_files.specs.Bytes.{ticked};
ghost use Rattle.ckeys_records.specs.Meaning.{Scene, archive, made_of, scene_of, words};

use crate::preprocessor::{Preprocessor, Printed, ToolFail};
use crate::step::Step;
use base_files::{Files, OsBytes};
use cmdlines_base::SingleCompileCommand;
use std::alloc::Global;

/// What rustc answers before a request has its key. Its answers don't depend on the moment.
pub trait RustcAnswers: Preprocessor {
    /// How often the digest of a static library was asked for, modulo 2 ^ 64.
    ghost archived: { Self → ℕ };

    /// Runs the command, and gives the text in which rustc reports what the crate depends on.
    fn dep_info<F: Files>(
        &mut self,
        alloc: Global,
        command: &SingleCompileCommand,
        files: &mut F,
    ) -> Result<Printed, ToolFail>
        ensures answer { (moment : ℤ) → IfOk result
            (λ p. made_of p.status (Some p.text ∷ [])
            ≡ Self.meaning self.old Step.DepInfo (words command.now.arguments) []
            (scene_of command.now (F.tree files.old) moment)) }
        ensures meaning { Self.meaning self.new ≡ Self.meaning self.old }
        ensures tree { F.tree files.new ≡ F.tree files.old }
        ensures device { IsErrOf result ToolFail.Device
            → (Self.failed self.new ≡ ticked (Self.failed self.old))
            × Self.fails_in self.old Step.DepInfo self.new }
        ensures files_device { IsErrOf result ToolFail.Device
            → (F.failed files.new ≡ F.failed files.old)
            ⊎ (F.failed files.new ≡ ticked (F.failed files.old)) }
        ensures steady { (IsErrOf result ToolFail.Device → ⊥)
            → (Self.failed self.new ≡ Self.failed self.old)
            × (F.failed files.new ≡ F.failed files.old) }
        ensures runs { Self.preprocessed self.new ≡ ticked (Self.preprocessed self.old) }
        ensures archives { archived self.new ≡ archived self.old }
        ensures compiles { Self.compiled self.new ≡ Self.compiled self.old };

    /// Runs the command, and gives the names that rustc reports of what it writes, a line each.
    fn file_names<F: Files>(
        &mut self,
        alloc: Global,
        command: &SingleCompileCommand,
        files: &mut F,
    ) -> Result<Printed, ToolFail>
        ensures answer { (moment : ℤ) → IfOk result
            (λ p. made_of p.status (Some p.text ∷ [])
            ≡ Self.meaning self.old Step.FileNames (words command.now.arguments) []
            (scene_of command.now (F.tree files.old) moment)) }
        ensures meaning { Self.meaning self.new ≡ Self.meaning self.old }
        ensures tree { F.tree files.new ≡ F.tree files.old }
        ensures device { IsErrOf result ToolFail.Device
            → (Self.failed self.new ≡ ticked (Self.failed self.old))
            × Self.fails_in self.old Step.FileNames self.new }
        ensures files_device { IsErrOf result ToolFail.Device
            → (F.failed files.new ≡ F.failed files.old)
            ⊎ (F.failed files.new ≡ ticked (F.failed files.old)) }
        ensures steady { (IsErrOf result ToolFail.Device → ⊥)
            → (Self.failed self.new ≡ Self.failed self.old)
            × (F.failed files.new ≡ F.failed files.old) }
        ensures runs { Self.preprocessed self.new ≡ ticked (Self.preprocessed self.old) }
        ensures archives { archived self.new ≡ archived self.old }
        ensures compiles { Self.compiled self.new ≡ Self.compiled self.old };

    /// The digest of a static library, as it's handed in: of nothing but the path and the files.
    fn archive_digest<F: Files>(
        &mut self,
        alloc: Global,
        path: &OsBytes,
        files: &mut F,
    ) -> Result<OsBytes, ToolFail>
        ensures answer { (scene : Scene) → scene.files ≡ F.tree files.old → IfOk result
            (λ digest. made_of (pos 0) (Some digest ∷ [])
            ≡ Self.meaning self.old Step.ArchiveDigest (archive path.now) [] scene) }
        ensures meaning { Self.meaning self.new ≡ Self.meaning self.old }
        ensures tree { F.tree files.new ≡ F.tree files.old }
        ensures device { IsErrOf result ToolFail.Device
            → (Self.failed self.new ≡ ticked (Self.failed self.old))
            × Self.fails_in self.old Step.ArchiveDigest self.new }
        ensures files_device { IsErrOf result ToolFail.Device
            → (F.failed files.new ≡ F.failed files.old)
            ⊎ (F.failed files.new ≡ ticked (F.failed files.old)) }
        ensures steady { (IsErrOf result ToolFail.Device → ⊥)
            → (Self.failed self.new ≡ Self.failed self.old)
            × (F.failed files.new ≡ F.failed files.old) }
        ensures runs { Self.preprocessed self.new ≡ Self.preprocessed self.old }
        ensures archives { archived self.new ≡ ticked (archived self.old) }
        ensures compiles { Self.compiled self.new ≡ Self.compiled self.old };
}
