//! For tests: a tool with an I/O error at one call.

ghost use Rattle.std.specs.Prelude.{◌≡◌, ◌⊎◌, ◌+◌, ◌-◌, ◌%◌, ◌^◌, None, Some, OnOk, OnErr, IfErr};
ghost use Rattle.base_files.specs.Bytes.{ticked};
ghost use Rattle.ckeys_records.specs.Meaning.{StepTicks};

use base_files::{Files, OsBytes};
use ckeys_records::{Preprocessor, Printed, RustcAnswers, Step, Ticks, ToolFail};
use cmdlines_base::{ArtifactDescriptor, SingleCompileCommand};
use cmdlines_tables::CCompilerKind;
use std::alloc::Global;
use wrap_base::{Compiled, Tool};

/// For tests: a tool with an I/O error at one call, of whichever step. No later call fails here.
#[derive(Drop)]
pub struct FailTool<T> {
    pub tool: T,
    /// How many calls come before the one that fails.
    pub calls_left: u64,
    /// How often steps failed here, which the tool itself never ran.
    pub own: Ticks,
    /// How often the digest of a static library was asked for.
    archived: u64,
    /// The step of the failing call.
    pub failed_step: Option<Step>,
    /// The step of the last call.
    pub last_step: Option<Step>,
}

impl<T> FailTool<T> {
    /// This tool, with an I/O error at the call after that many.
    pub fn new(tool: T, calls_left: u64) -> FailTool<T>
        ensures tool { result.tool ≡ tool }
        ensures calls_left { result.calls_left ≡ calls_left }
        ensures own { result.own ≡ record { preprocess = 0; compile = 0; failure = 0 } }
        ensures failed_step { result.failed_step ≡ None }
    {
        FailTool {
            tool,
            calls_left,
            own: Ticks {
                preprocess: 0,
                compile: 0,
                failure: 0,
            },
            archived: 0,
            failed_step: None,
            last_step: None,
        }
    }

    /// Counts a call of that step, and fails at the one that is to fail.
    fn count(&mut self, step: Step) -> Result<(), ToolFail>
        ensures tool { self.new.tool ≡ self.old.tool }
        ensures archived { self.new.archived ≡ self.old.archived }
        ensures counted { self.new.calls_left ≡ self.old.calls_left - 1 }
        ensures fails { self.old.calls_left ≡ 0 → self.old.failed_step ≡ None → OnOk result ⊥ }
        ensures ok { OnOk result (self.new.own ≡ self.old.own) }
        ensures device { IfErr result (λ e. e ≡ ToolFail.Device) }
        ensures due { OnErr result
            ((self.old.calls_left ≡ 0) × (self.old.failed_step ≡ None)
            × (self.new.failed_step ≡ Some step)) }
        ensures failure { OnErr result (self.new.own.failure ≡ ticked self.old.own.failure) }
        ensures ticks { OnErr result
            (StepTicks step self.old.own.preprocess self.new.own.preprocess self.old.own.compile
            self.new.own.compile) }
    {
        self.last_step = Some(step);
        if self.calls_left > 0 {
            self.calls_left -= 1;
            return Ok(());
        }
        if self.failed_step.is_some() {
            return Ok(());
        }
        match step {
            Step::Preprocess => self.own.preprocess = self.own.preprocess.wrapping_add(1),
            Step::Compile => self.own.compile = self.own.compile.wrapping_add(1),
            Step::DepInfo | Step::FileNames => self.own.preprocess = self
                .own
                .preprocess
                .wrapping_add(1),
            Step::ArchiveDigest => {}
        }
        self.own.failure = self.own.failure.wrapping_add(1);
        self.failed_step = Some(step);
        Err(ToolFail::Device)
    }
}

impl<T: Preprocessor> Preprocessor for FailTool<T> {
    ghost meaning = { λ t. T.meaning t.tool };

    ghost preprocessed = { λ t. (T.preprocessed t.tool + t.own.preprocess) % 2 ^ 64 };

    ghost compiled = { λ t. (T.compiled t.tool + t.own.compile) % 2 ^ 64 };

    ghost failed = { λ t. (T.failed t.tool + t.own.failure) % 2 ^ 64 };

    /// It was due here and failed in that very step, or the tool in it failed in it.
    ghost fails_in = { λ t step u. ((t.calls_left ≡ 0) × (t.failed_step ≡ None) × (u.own.failure ≡ ticked t.own.failure) × (u.failed_step ≡ Some step)) ⊎ T.fails_in t.tool step u.tool };

    fn preprocess<F: Files>(
        &mut self,
        alloc: Global,
        kind: CCompilerKind,
        command: &SingleCompileCommand,
        files: &mut F,
        moment: i64,
    ) -> Result<Printed, ToolFail> {
        self.count(Step::Preprocess)?;
        self.tool.preprocess(alloc, kind, command, files, moment)
    }

    fn ticks(&self) -> Ticks {
        let inner = self.tool.ticks();
        Ticks {
            preprocess: inner.preprocess.wrapping_add(self.own.preprocess),
            compile: inner.compile.wrapping_add(self.own.compile),
            failure: inner.failure.wrapping_add(self.own.failure),
        }
    }
}

impl<T: RustcAnswers> RustcAnswers for FailTool<T> {
    ghost archived = { λ t. t.archived };

    fn dep_info<F: Files>(
        &mut self,
        alloc: Global,
        command: &SingleCompileCommand,
        files: &mut F,
    ) -> Result<Printed, ToolFail> {
        self.count(Step::DepInfo)?;
        self.tool.dep_info(alloc, command, files)
    }

    fn file_names<F: Files>(
        &mut self,
        alloc: Global,
        command: &SingleCompileCommand,
        files: &mut F,
    ) -> Result<Printed, ToolFail> {
        self.count(Step::FileNames)?;
        self.tool.file_names(alloc, command, files)
    }

    fn archive_digest<F: Files>(
        &mut self,
        alloc: Global,
        path: &OsBytes,
        files: &mut F,
    ) -> Result<OsBytes, ToolFail> {
        self.archived = self.archived.wrapping_add(1);
        self.count(Step::ArchiveDigest)?;
        self.tool.archive_digest(alloc, path, files)
    }
}

impl<T: Tool> Tool for FailTool<T> {
    fn compile<F: Files>(
        &mut self,
        alloc: Global,
        kind: Option<CCompilerKind>,
        command: &SingleCompileCommand,
        outputs: &[(OsBytes, ArtifactDescriptor)],
        files: &mut F,
        moment: i64,
    ) -> Result<Compiled, ToolFail> {
        self.count(Step::Compile)?;
        self.tool
            .compile(alloc, kind, command, outputs, files, moment)
    }
}
