//! A tool that runs nothing: it gives recorded answers, and remembers the command of which it has none.

ghost use Rattle.std.specs.Prelude.{◌≡◌, ◌⊎◌, pos, true, [], ◌∷◌, Some, None, IfOk, IsErrOf};
ghost use Rattle.std.specs.Option.{option_copied};
ghost use Rattle.base_files.specs.Bytes.{ticked};
ghost use Rattle.ckeys_records.specs.Meaning.{Scene, archive, asked_of, made_of, names_of, words};
ghost use Rattle.wrap_base.specs.AskedBy.{asked_by};
ghost use Rattle.wrap_replay_base.specs.Recorded.{Wants, compiled_for, crate_of, digest_for, library_digest, on_dependencies, on_names, paths_in, printed_for, recorded, same_outputs, told_for};

use crate::commands::{copies, have_names, is_of, made_again, one_word, paths_of, same_words};
use crate::rustc_records::{RecordedAnswer, RecordedCrate, RecordedRustc};
use base_files::{Files, Listed, OsBytes};
use ckeys_records::output_name::OutputName;
use ckeys_records::{Preprocessor, Printed, RustcAnswers, Step, Ticks, ToolFail};
use cmdlines_base::{ArtifactDescriptor, SingleCompileCommand};
use cmdlines_tables::CCompilerKind;
use std::alloc::Global;
use wrap_base::{Compiled, Tool};

/// What a preprocessor printed for these words.
#[derive(Drop)]
pub struct RecordedText {
    pub kind: CCompilerKind,
    pub words: Listed<OsBytes>,
    pub printed: Printed,
}

/// What a compiler made for these words, asked for outputs of these names.
#[derive(Drop)]
pub struct RecordedOutputs {
    pub kind: CCompilerKind,
    pub words: Listed<OsBytes>,
    pub names: Listed<OutputName>,
    pub made: Compiled,
}

/// A command that was asked for and has no recorded answer.
#[derive(Drop)]
pub struct Wanted {
    pub step: Step,
    /// Its words; where the digest of a static library was asked for, the library's path alone.
    pub words: Listed<OsBytes>,
    /// Where the outputs go that it is to make.
    pub paths: Listed<OsBytes>,
}

/// Recorded answers, at most one for each step, and the last command that was asked for and has none.
#[derive(Drop)]
pub struct ReplayTool {
    pub text: Option<RecordedText>,
    pub outputs: Option<RecordedOutputs>,
    /// Where the compiler is rustc, what that answered.
    pub rustc: Option<RecordedRustc>,
    pub wanted: Option<Wanted>,
    preprocessed: u64,
    archived: u64,
    compiled: u64,
    failed: u64,
}

impl RecordedText {
    /// Whether it is the answer to these words.
    fn answers(&self, kind: CCompilerKind, words: &Listed<OsBytes>) -> bool
        ensures same { result ≡ true → (self.now.kind ≡ kind) × (self.now.words ≡ words.now) }
        ensures own { self.now.kind ≡ kind → self.now.words ≡ words.now → result ≡ true }
    {
        self.kind == kind && same_words(&self.words, words)
    }
}

impl RecordedOutputs {
    /// Whether it is the answer to these words and outputs.
    fn answers(
        &self,
        kind: Option<CCompilerKind>,
        words: &Listed<OsBytes>,
        outputs: &[(OsBytes, ArtifactDescriptor)],
    ) -> bool
        ensures same { result ≡ true → (kind ≡ Some self.now.kind)
            × (self.now.words ≡ words.now) × (same_outputs outputs.now self.now.names ≡ true) }
        ensures own { kind ≡ Some self.now.kind → self.now.words ≡ words.now
            → same_outputs outputs.now self.now.names ≡ true → result ≡ true }
    {
        is_of(kind, self.kind)
            && same_words(&self.words, words)
            && have_names(outputs, self.names.as_slice())
    }
}

impl ReplayTool {
    /// A tool that has no answers yet.
    pub fn new() -> ReplayTool
        ensures text { result.text ≡ None }
        ensures outputs { result.outputs ≡ None }
        ensures rustc { result.rustc ≡ None }
        ensures wanted { result.wanted ≡ None }
    {
        ReplayTool {
            text: None,
            outputs: None,
            rustc: None,
            wanted: None,
            preprocessed: 0,
            archived: 0,
            compiled: 0,
            failed: 0,
        }
    }

    /// What rustc reported of dependencies, where that is recorded.
    fn on_dependencies(&self) -> Option<&RecordedAnswer>
        ensures { option_copied result ≡ on_dependencies self.now.rustc }
    {
        match &self.rustc {
            Some(rustc) => rustc.dep_info.as_ref(),
            None => None,
        }
    }

    /// What it reported of the names of its outputs, where that is recorded.
    fn on_names(&self) -> Option<&RecordedAnswer>
        ensures { option_copied result ≡ on_names self.now.rustc }
    {
        match &self.rustc {
            Some(rustc) => rustc.file_names.as_ref(),
            None => None,
        }
    }

    /// What it made, where that is recorded.
    fn made_crate(&self) -> Option<&RecordedCrate>
        ensures { option_copied result ≡ crate_of self.now.rustc }
    {
        match &self.rustc {
            Some(rustc) => rustc.outputs.as_ref(),
            None => None,
        }
    }

    /// The digest of the static library of that path, where it is recorded.
    fn library_digest(&self, path: &OsBytes) -> Option<&OsBytes>
        ensures { option_copied result ≡ library_digest self.now.rustc path.now }
    {
        match &self.rustc {
            Some(rustc) => rustc.digests.get(path),
            None => None,
        }
    }

    /// Remembers what was asked for, and fails.
    fn want(
        &mut self,
        alloc: Global,
        step: Step,
        words: &[OsBytes],
        outputs: &[(OsBytes, ArtifactDescriptor)],
    ) -> ToolFail
        ensures text { self.new.text ≡ self.old.text }
        ensures outputs { self.new.outputs ≡ self.old.outputs }
        ensures rustc { self.new.rustc ≡ self.old.rustc }
        ensures preprocessed { self.new.preprocessed ≡ self.old.preprocessed }
        ensures archived { self.new.archived ≡ self.old.archived }
        ensures compiled { self.new.compiled ≡ self.old.compiled }
        ensures failed { result ≡ ToolFail.Device → self.new.failed ≡ ticked self.old.failed }
        ensures wanted { result ≡ ToolFail.Device →
            self.new.wanted ≡ Some (record { step = step; words = words.now; paths = paths_in outputs.now }) }
        ensures steady { result ≡ ToolFail.Memory → self.new.failed ≡ self.old.failed }
    {
        let Ok(words) = copies(alloc, words) else {
            return ToolFail::Memory;
        };
        let Ok(paths) = paths_of(alloc, outputs) else {
            return ToolFail::Memory;
        };
        self.wanted = Some(Wanted { step, words, paths });
        self.failed = self.failed.wrapping_add(1);
        ToolFail::Device
    }
}

impl Preprocessor for ReplayTool {
    ghost meaning = { λ t. recorded t.text t.outputs t.rustc };

    ghost preprocessed = { λ t. t.preprocessed };

    ghost compiled = { λ t. t.compiled };

    ghost failed = { λ t. t.failed };

    /// The command is remembered.
    ghost fails_in = { λ t step u. Wants step u.wanted };

    fn preprocess<F: Files>(
        &mut self,
        alloc: Global,
        kind: CCompilerKind,
        command: &SingleCompileCommand,
        files: &mut F,
        _moment: i64,
    ) -> Result<Printed, ToolFail>
        ensures answer { IfOk result
            (λ p. made_of p.status (Some p.text ∷ [])
            ≡ printed_for self.old.text (asked_of kind command.now.arguments)) }
        ensures meaning { recorded self.new.text self.new.outputs self.new.rustc
            ≡ recorded self.old.text self.old.outputs self.old.rustc }
        ensures tree { F.tree files.new ≡ F.tree files.old }
        ensures device { IsErrOf result ToolFail.Device
            → (self.new.failed ≡ ticked self.old.failed) × Wants Step.Preprocess self.new.wanted }
        ensures files_device { IsErrOf result ToolFail.Device
            → (F.failed files.new ≡ F.failed files.old)
            ⊎ (F.failed files.new ≡ ticked (F.failed files.old)) }
        ensures steady { (IsErrOf result ToolFail.Device → ⊥)
            → (self.new.failed ≡ self.old.failed) × (F.failed files.new ≡ F.failed files.old) }
        ensures runs { self.new.preprocessed ≡ ticked self.old.preprocessed }
        ensures compiles { self.new.compiled ≡ self.old.compiled }

        // What was recorded stays, and is given for its compiler and its words.
        ensures recorded { (self.new.text ≡ self.old.text)
            × (self.new.outputs ≡ self.old.outputs) × (self.new.rustc ≡ self.old.rustc) }
        ensures given { (r : RecordedText) → self.old.text ≡ Some r → r.kind ≡ kind
            → r.words ≡ command.now.arguments → IsErrOf result ToolFail.Device → ⊥ }
        // What is lacking is this command.
        ensures lacking { IsErrOf result ToolFail.Device → self.new.wanted
            ≡ Some (record { step = Step.Preprocess; words = command.now.arguments; paths = [] }) }
    {
        let _ = files;
        self.preprocessed = self.preprocessed.wrapping_add(1);
        if let Some(recorded) = &self.text {
            if recorded.answers(kind, &command.arguments) {
                return Ok(recorded.printed.clone()?);
            }
        }
        Err(self.want(alloc, Step::Preprocess, command.arguments.as_slice(), &[]))
    }

    fn ticks(&self) -> Ticks {
        Ticks {
            preprocess: self.preprocessed,
            compile: self.compiled,
            failure: self.failed,
        }
    }
}

impl RustcAnswers for ReplayTool {
    ghost archived = { λ t. t.archived };

    fn dep_info<F: Files>(
        &mut self,
        alloc: Global,
        command: &SingleCompileCommand,
        files: &mut F,
    ) -> Result<Printed, ToolFail>
        ensures answer { IfOk result
            (λ p. made_of p.status (Some p.text ∷ [])
            ≡ told_for (on_dependencies self.old.rustc) (words command.now.arguments)
            command.now.cwd) }
        ensures meaning { recorded self.new.text self.new.outputs self.new.rustc
            ≡ recorded self.old.text self.old.outputs self.old.rustc }
        ensures tree { F.tree files.new ≡ F.tree files.old }
        ensures device { IsErrOf result ToolFail.Device
            → (self.new.failed ≡ ticked self.old.failed) × Wants Step.DepInfo self.new.wanted }
        ensures files_device { IsErrOf result ToolFail.Device
            → (F.failed files.new ≡ F.failed files.old)
            ⊎ (F.failed files.new ≡ ticked (F.failed files.old)) }
        ensures steady { (IsErrOf result ToolFail.Device → ⊥)
            → (self.new.failed ≡ self.old.failed) × (F.failed files.new ≡ F.failed files.old) }
        ensures runs { self.new.preprocessed ≡ ticked self.old.preprocessed }
        ensures archives { self.new.archived ≡ self.old.archived }
        ensures compiles { self.new.compiled ≡ self.old.compiled }

        // What was recorded stays, and is given for its words and its folder.
        ensures recorded { (self.new.text ≡ self.old.text)
            × (self.new.outputs ≡ self.old.outputs) × (self.new.rustc ≡ self.old.rustc) }
        ensures given { (r : RecordedAnswer) → on_dependencies self.old.rustc ≡ Some r
            → r.words ≡ command.now.arguments → r.dir ≡ command.now.cwd
            → IsErrOf result ToolFail.Device → ⊥ }
        // What is lacking is this command.
        ensures lacking { IsErrOf result ToolFail.Device → self.new.wanted
            ≡ Some (record { step = Step.DepInfo; words = command.now.arguments; paths = [] }) }
    {
        let _ = files;
        self.preprocessed = self.preprocessed.wrapping_add(1);
        if let Some(recorded) = self.on_dependencies() {
            if recorded.answers(command) {
                return Ok(recorded.printed.clone()?);
            }
        }
        Err(self.want(alloc, Step::DepInfo, command.arguments.as_slice(), &[]))
    }

    fn file_names<F: Files>(
        &mut self,
        alloc: Global,
        command: &SingleCompileCommand,
        files: &mut F,
    ) -> Result<Printed, ToolFail>
        ensures answer { IfOk result
            (λ p. made_of p.status (Some p.text ∷ [])
            ≡ told_for (on_names self.old.rustc) (words command.now.arguments)
            command.now.cwd) }
        ensures meaning { recorded self.new.text self.new.outputs self.new.rustc
            ≡ recorded self.old.text self.old.outputs self.old.rustc }
        ensures tree { F.tree files.new ≡ F.tree files.old }
        ensures device { IsErrOf result ToolFail.Device
            → (self.new.failed ≡ ticked self.old.failed) × Wants Step.FileNames self.new.wanted }
        ensures files_device { IsErrOf result ToolFail.Device
            → (F.failed files.new ≡ F.failed files.old)
            ⊎ (F.failed files.new ≡ ticked (F.failed files.old)) }
        ensures steady { (IsErrOf result ToolFail.Device → ⊥)
            → (self.new.failed ≡ self.old.failed) × (F.failed files.new ≡ F.failed files.old) }
        ensures runs { self.new.preprocessed ≡ ticked self.old.preprocessed }
        ensures archives { self.new.archived ≡ self.old.archived }
        ensures compiles { self.new.compiled ≡ self.old.compiled }

        // What was recorded stays, and is given for its words and its folder.
        ensures recorded { (self.new.text ≡ self.old.text)
            × (self.new.outputs ≡ self.old.outputs) × (self.new.rustc ≡ self.old.rustc) }
        ensures given { (r : RecordedAnswer) → on_names self.old.rustc ≡ Some r
            → r.words ≡ command.now.arguments → r.dir ≡ command.now.cwd
            → IsErrOf result ToolFail.Device → ⊥ }
        // What is lacking is this command.
        ensures lacking { IsErrOf result ToolFail.Device → self.new.wanted
            ≡ Some (record { step = Step.FileNames; words = command.now.arguments; paths = [] }) }
    {
        let _ = files;
        self.preprocessed = self.preprocessed.wrapping_add(1);
        if let Some(recorded) = self.on_names() {
            if recorded.answers(command) {
                return Ok(recorded.printed.clone()?);
            }
        }
        Err(self.want(alloc, Step::FileNames, command.arguments.as_slice(), &[]))
    }

    fn archive_digest<F: Files>(
        &mut self,
        alloc: Global,
        path: &OsBytes,
        files: &mut F,
    ) -> Result<OsBytes, ToolFail>
        ensures answer { IfOk result
            (λ digest. made_of (pos 0) (Some digest ∷ [])
            ≡ digest_for self.old.rustc (archive path.now)) }
        ensures meaning { recorded self.new.text self.new.outputs self.new.rustc
            ≡ recorded self.old.text self.old.outputs self.old.rustc }
        ensures tree { F.tree files.new ≡ F.tree files.old }
        ensures device { IsErrOf result ToolFail.Device
            → (self.new.failed ≡ ticked self.old.failed) × Wants Step.ArchiveDigest self.new.wanted }
        ensures files_device { IsErrOf result ToolFail.Device
            → (F.failed files.new ≡ F.failed files.old)
            ⊎ (F.failed files.new ≡ ticked (F.failed files.old)) }
        ensures steady { (IsErrOf result ToolFail.Device → ⊥)
            → (self.new.failed ≡ self.old.failed) × (F.failed files.new ≡ F.failed files.old) }
        ensures runs { self.new.preprocessed ≡ self.old.preprocessed }
        ensures archives { self.new.archived ≡ ticked self.old.archived }
        ensures compiles { self.new.compiled ≡ self.old.compiled }

        // What was recorded stays, and is given for its path.
        ensures recorded { (self.new.text ≡ self.old.text)
            × (self.new.outputs ≡ self.old.outputs) × (self.new.rustc ≡ self.old.rustc) }
        ensures given { (library_digest self.old.rustc path.now ≡ None → ⊥)
            → IsErrOf result ToolFail.Device → ⊥ }
        // What is lacking is the digest of this static library.
        ensures lacking { IsErrOf result ToolFail.Device → self.new.wanted
            ≡ Some (record { step = Step.ArchiveDigest; words = path.now ∷ []; paths = [] }) }
    {
        let _ = files;
        self.archived = self.archived.wrapping_add(1);
        if let Some(digest) = self.library_digest(path) {
            return Ok(digest.clone()?);
        }
        let words = one_word(alloc, path)?;
        Err(self.want(alloc, Step::ArchiveDigest, &words, &[]))
    }
}

impl Tool for ReplayTool {
    fn compile<F: Files>(
        &mut self,
        alloc: Global,
        kind: Option<CCompilerKind>,
        command: &SingleCompileCommand,
        outputs: &[(OsBytes, ArtifactDescriptor)],
        files: &mut F,
        _moment: i64,
    ) -> Result<Compiled, ToolFail>
        ensures answer { IfOk result
            (λ made. made_of made.status made.contents
            ≡ compiled_for self.old.outputs (crate_of self.old.rustc)
            (asked_by kind command.now.arguments) (names_of outputs.now) command.now.cwd) }
        ensures meaning { recorded self.new.text self.new.outputs self.new.rustc
            ≡ recorded self.old.text self.old.outputs self.old.rustc }
        ensures tree { F.tree files.new ≡ F.tree files.old }
        ensures device { IsErrOf result ToolFail.Device
            → (self.new.failed ≡ ticked self.old.failed) × Wants Step.Compile self.new.wanted }
        ensures files_device { IsErrOf result ToolFail.Device
            → (F.failed files.new ≡ F.failed files.old)
            ⊎ (F.failed files.new ≡ ticked (F.failed files.old)) }
        ensures steady { (IsErrOf result ToolFail.Device → ⊥)
            → (self.new.failed ≡ self.old.failed) × (F.failed files.new ≡ F.failed files.old) }
        ensures runs { self.new.compiled ≡ ticked self.old.compiled }
        ensures preprocesses { self.new.preprocessed ≡ self.old.preprocessed }

        // What was recorded stays, and is given for its compiler, its words and its outputs' names.
        ensures recorded { (self.new.text ≡ self.old.text)
            × (self.new.outputs ≡ self.old.outputs) × (self.new.rustc ≡ self.old.rustc) }
        ensures given { (r : RecordedOutputs) → self.old.outputs ≡ Some r → kind ≡ Some r.kind
            → r.words ≡ command.now.arguments → same_outputs outputs.now r.names ≡ true
            → IsErrOf result ToolFail.Device → ⊥ }
        // Of rustc it is given in its folder.
        ensures given_of_rustc { (r : RecordedCrate) → crate_of self.old.rustc ≡ Some r
            → kind ≡ None → r.words ≡ command.now.arguments → r.dir ≡ command.now.cwd
            → same_outputs outputs.now r.names ≡ true → IsErrOf result ToolFail.Device → ⊥ }
        // What is lacking is this command, with the paths where its outputs go.
        ensures lacking { IsErrOf result ToolFail.Device → self.new.wanted
            ≡ Some (record {
              step = Step.Compile;
              words = command.now.arguments;
              paths = paths_in outputs.now;
            }) }
    {
        let _ = files;
        self.compiled = self.compiled.wrapping_add(1);
        if let Some(recorded) = &self.outputs {
            if recorded.answers(kind, &command.arguments, outputs) {
                return Ok(made_again(alloc, &recorded.made)?);
            }
        }
        if let Some(recorded) = self.made_crate() {
            if recorded.answers(kind, command, outputs) {
                return Ok(made_again(alloc, &recorded.made)?);
            }
        }
        Err(self.want(alloc, Step::Compile, command.arguments.as_slice(), outputs))
    }
}
