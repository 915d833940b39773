//! A tool that compiles at most so many times: how a build runner stops a build.

ghost use Rattle.std.specs.Prelude.{◌≡◌, ◌⊎◌, IfOk, IsErrOf};
ghost use Rattle.wrap.specs.Bytes.{ticked};
ghost use Rattle.wrap.specs.Meaning.{made_of, names_of, scene_of};
ghost use Rattle.wrap_base.specs.AskedBy.{asked_by};
ghost use Rattle.wrap_uses.specs.Caps.{IsSpent, TakesOne};

use std::alloc::Global;
use wrap::{
    ArtifactDescriptor, CCompilerKind, Compiled, Files, OsBytes, Preprocessor, Printed,
    RustcAnswers, SingleCompileCommand, Step, Ticks, Tool, ToolFail,
};

/// Runs the steps of another tool, but no more than so many compiles: a further one fails as if by an I/O error, and nothing runs.
#[derive(Drop)]
pub struct CappedTool<T> {
    inner: T,
    left: u64,
    compiled: u64,
    failed: u64,
}

impl<T: Tool> CappedTool<T> {
    /// That tool, which may compile so many times.
    pub fn new(inner: T, compiles: u64) -> CappedTool<T>
        ensures inner { result.inner ≡ inner }
        ensures left { result.left ≡ compiles }
    {
        CappedTool {
            inner,
            left: compiles,
            compiled: 0,
            failed: 0,
        }
    }

    /// How many compiles may still run.
    pub fn left(&self) -> u64
        ensures { result ≡ self.now.left }
    {
        self.left
    }
}

impl<T: Tool> Preprocessor for CappedTool<T> {
    ghost meaning = { λ s. T.meaning s.inner };

    ghost preprocessed = { λ s. T.preprocessed s.inner };

    ghost compiled = { λ s. s.compiled };

    ghost failed = { λ s. s.failed };

    ghost fails_in = { λ old step new. T.fails_in old.inner step new.inner ⊎ IsSpent step old.left };

    fn preprocess<F: Files>(
        &mut self,
        alloc: Global,
        kind: CCompilerKind,
        command: &SingleCompileCommand,
        files: &mut F,
        moment: i64,
    ) -> Result<Printed, ToolFail> {
        match self.inner.preprocess(alloc, kind, command, files, moment) {
            Err(ToolFail::Device) => {
                self.failed = self.failed.wrapping_add(1);
                Err(ToolFail::Device)
            }
            printed => printed,
        }
    }

    fn ticks(&self) -> Ticks {
        Ticks {
            preprocess: self.inner.ticks().preprocess,
            compile: self.compiled,
            failure: self.failed,
        }
    }
}

impl<T: Tool> RustcAnswers for CappedTool<T> {
    ghost archived = { λ s. T.archived s.inner };

    fn dep_info<F: Files>(
        &mut self,
        alloc: Global,
        command: &SingleCompileCommand,
        files: &mut F,
    ) -> Result<Printed, ToolFail> {
        match self.inner.dep_info(alloc, command, files) {
            Err(ToolFail::Device) => {
                self.failed = self.failed.wrapping_add(1);
                Err(ToolFail::Device)
            }
            told => told,
        }
    }

    fn file_names<F: Files>(
        &mut self,
        alloc: Global,
        command: &SingleCompileCommand,
        files: &mut F,
    ) -> Result<Printed, ToolFail> {
        match self.inner.file_names(alloc, command, files) {
            Err(ToolFail::Device) => {
                self.failed = self.failed.wrapping_add(1);
                Err(ToolFail::Device)
            }
            told => told,
        }
    }

    fn archive_digest<F: Files>(
        &mut self,
        alloc: Global,
        path: &OsBytes,
        files: &mut F,
    ) -> Result<OsBytes, ToolFail> {
        match self.inner.archive_digest(alloc, path, files) {
            Err(ToolFail::Device) => {
                self.failed = self.failed.wrapping_add(1);
                Err(ToolFail::Device)
            }
            digest => digest,
        }
    }
}

impl<T: Tool> Tool for CappedTool<T> {
    fn compile<F: Files>(
        &mut self,
        alloc: Global,
        kind: Option<CCompilerKind>,
        command: &SingleCompileCommand,
        outputs: &[(OsBytes, ArtifactDescriptor)],
        files: &mut F,
        moment: i64,
    ) -> Result<Compiled, ToolFail>
        ensures answer { IfOk result
            (λ made. made_of made.status made.contents
            ≡ T.meaning self.old.inner Step.Compile (asked_by kind command.now.arguments)
            (names_of outputs.now) (scene_of command.now (F.tree files.old) moment)) }
        ensures meaning { T.meaning self.new.inner ≡ T.meaning self.old.inner }
        ensures tree { F.tree files.new ≡ F.tree files.old }
        ensures device { IsErrOf result ToolFail.Device
            → (self.new.failed ≡ ticked self.old.failed)
            × (T.fails_in self.old.inner Step.Compile self.new.inner ⊎ (self.old.left ≡ 0)) }
        ensures files_device { IsErrOf result ToolFail.Device
            → (F.failed files.new ≡ F.failed files.old)
            ⊎ (F.failed files.new ≡ ticked (F.failed files.old)) }
        ensures steady { (IsErrOf result ToolFail.Device → ⊥)
            → (self.new.failed ≡ self.old.failed)
            × (F.failed files.new ≡ F.failed files.old) }
        ensures runs { self.new.compiled ≡ ticked self.old.compiled }
        ensures preprocesses { T.preprocessed self.new.inner ≡ T.preprocessed self.old.inner }

        // Each compile of the other tool takes one from what is left, and with nothing left none runs.
        ensures capped { TakesOne self.old.left self.new.left
            (T.compiled self.old.inner) (T.compiled self.new.inner) }
    {
        self.compiled = self.compiled.wrapping_add(1);
        if self.left == 0 {
            self.failed = self.failed.wrapping_add(1);
            return Err(ToolFail::Device);
        }
        self.left -= 1;
        match self
            .inner
            .compile(alloc, kind, command, outputs, files, moment)
        {
            Err(ToolFail::Device) => {
                self.failed = self.failed.wrapping_add(1);
                Err(ToolFail::Device)
            }
            made => made,
        }
    }
}
