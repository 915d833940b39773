//! A tool with the behaviour of a short script: its preprocessor prints a text, and its C compiler makes outputs of that text without
//! the configured folders. Its rustc reports texts, and makes outputs of the sources that they name.

ghost use Rattle.std.specs.Prelude.{◌≡◌, ℤ, None, Some, IfOk, IsErrOf};
ghost use Rattle.base_files.specs.Bytes.{ticked};
ghost use Rattle.cmdlines_tables.specs.Tables.{reading_of};
ghost use Rattle.ckeys_records.specs.Meaning.{StepTicks, scene_of};
ghost use Rattle.sccache_script_tool.specs.Scripted.{scripted, source_in, text_of};

use crate::crate_texts::CrateTexts;
use crate::crates::{compiled_crate, crate_text};
use crate::scripting::{compiled, printed, text_of};
use crate::statuses::Statuses;
use base_files::{FileFail, Files, OsBytes};
use ckeys_records::{KeyConfig, Preprocessor, Printed, RustcAnswers, Step, Ticks, ToolFail};
use cmdlines::EachKind;
use cmdlines_base::{ArtifactDescriptor, SingleCompileCommand};
use cmdlines_tables::CCompilerKind;
use std::alloc::Global;
use wrap_base::{Compiled, Tool};

/// A tool that counts how often its steps ran and how often an I/O error occurred in them.
#[derive(Drop)]
pub struct ScriptTool {
    /// Whose folders its outputs don't show.
    pub config: KeyConfig,
    /// What rustc reports.
    pub crate_texts: CrateTexts,
    /// By which its commands to C compilers are read.
    compilers: EachKind,
    /// What its compilers end with.
    statuses: Statuses,
    pub preprocessed: u64,
    archived: u64,
    pub compiled: u64,
    pub failed: u64,
    /// The step in which the last I/O error occurred.
    pub failed_step: Option<Step>,
}

impl ScriptTool {
    /// A tool that has not run yet, whose C compiler strips these folders and whose rustc reports this.
    pub fn new(
        config: KeyConfig,
        crate_texts: CrateTexts,
        compilers: EachKind,
        statuses: Statuses,
    ) -> ScriptTool
        ensures config { result.config ≡ config }
        ensures told { result.crate_texts ≡ crate_texts }
        ensures preprocessed { result.preprocessed ≡ 0 }
        ensures compiled { result.compiled ≡ 0 }
        ensures failed { result.failed ≡ 0 }
        ensures failed_step { result.failed_step ≡ None }
    {
        ScriptTool {
            config,
            crate_texts,
            compilers,
            statuses,
            preprocessed: 0,
            archived: 0,
            compiled: 0,
            failed: 0,
            failed_step: None,
        }
    }

    /// What a step's failure is. An I/O error is counted, and the step is remembered.
    fn failure(&mut self, step: Step, fault: FileFail) -> ToolFail
        ensures device { result ≡ ToolFail.Device → fault ≡ FileFail.Device }
        ensures counted { result ≡ ToolFail.Device
            → (self.new.failed ≡ ticked self.old.failed) × (self.new.failed_step ≡ Some step) }
        ensures steady { (result ≡ ToolFail.Device → ⊥)
            → (fault ≡ FileFail.Memory) × (self.new.failed ≡ self.old.failed) }
        ensures config { self.new.config ≡ self.old.config }
        ensures told { self.new.crate_texts ≡ self.old.crate_texts }
        ensures preprocessed { self.new.preprocessed ≡ self.old.preprocessed }
        ensures compiled { self.new.compiled ≡ self.old.compiled }
    {
        match fault {
            FileFail::Memory => ToolFail::Memory,
            FileFail::Device => {
                self.failed = self.failed.wrapping_add(1);
                self.failed_step = Some(step);
                ToolFail::Device
            }
        }
    }

    /// The text that a step goes over. An I/O error is counted.
    fn text<F: Files>(
        &mut self,
        alloc: Global,
        step: Step,
        kind: CCompilerKind,
        command: &SingleCompileCommand,
        files: &mut F,
    ) -> Result<Option<OsBytes>, ToolFail>
        ensures text { (moment : ℤ)
            → IfOk result
            (λ text. text
            ≡ text_of step (scene_of command.now (F.tree files.old) moment)
            (source_in (reading_of kind command.now.arguments))) }
        ensures tree { F.tree files.new ≡ F.tree files.old }
        ensures device { IsErrOf result ToolFail.Device
            → (self.new.failed ≡ ticked self.old.failed) × (self.new.failed_step ≡ Some step)
            × (F.failed files.new ≡ ticked (F.failed files.old)) }
        ensures steady { (IsErrOf result ToolFail.Device → ⊥)
            → (self.new.failed ≡ self.old.failed) × (F.failed files.new ≡ F.failed files.old) }
        ensures config { self.new.config ≡ self.old.config }
        ensures told { self.new.crate_texts ≡ self.old.crate_texts }
        ensures preprocessed { self.new.preprocessed ≡ self.old.preprocessed }
        ensures compiled { self.new.compiled ≡ self.old.compiled }
    {
        match text_of(alloc, &self.compilers, step, kind, command, files) {
            Ok(text) => Ok(text),
            Err(fault) => Err(self.failure(step, fault)),
        }
    }
}

/// A tool whose rustc can be given other texts.
pub trait RetoldTool: Tool {
    /// From now on its rustc reports these.
    fn tell(&mut self, crate_texts: CrateTexts);
}

impl RetoldTool for ScriptTool {
    fn tell(&mut self, crate_texts: CrateTexts) {
        self.crate_texts = crate_texts;
    }
}

impl Preprocessor for ScriptTool {
    ghost meaning = { λ t. scripted t.config.basedirs t.crate_texts };

    ghost preprocessed = { λ t. t.preprocessed };

    ghost compiled = { λ t. t.compiled };

    ghost failed = { λ t. t.failed };

    /// The failure was counted, and so was the one step, which is remembered.
    ghost fails_in = { λ t step u. (u.failed ≡ ticked t.failed) × (u.failed_step ≡ Some step) × StepTicks step t.preprocessed u.preprocessed t.compiled u.compiled };

    fn preprocess<F: Files>(
        &mut self,
        alloc: Global,
        kind: CCompilerKind,
        command: &SingleCompileCommand,
        files: &mut F,
        _moment: i64,
    ) -> Result<Printed, ToolFail> {
        self.preprocessed = self.preprocessed.wrapping_add(1);
        let text = self.text(alloc, Step::Preprocess, kind, command, files)?;
        Ok(printed(alloc, &self.statuses, text))
    }

    fn ticks(&self) -> Ticks {
        Ticks {
            preprocess: self.preprocessed,
            compile: self.compiled,
            failure: self.failed,
        }
    }
}

impl RustcAnswers for ScriptTool {
    ghost archived = { λ t. t.archived };

    fn dep_info<F: Files>(
        &mut self,
        _alloc: Global,
        _command: &SingleCompileCommand,
        _files: &mut F,
    ) -> Result<Printed, ToolFail> {
        self.preprocessed = self.preprocessed.wrapping_add(1);
        let text = self.crate_texts.dep_info.clone()?;
        Ok(Printed { status: 0, text })
    }

    fn file_names<F: Files>(
        &mut self,
        _alloc: Global,
        _command: &SingleCompileCommand,
        _files: &mut F,
    ) -> Result<Printed, ToolFail> {
        self.preprocessed = self.preprocessed.wrapping_add(1);
        let text = self.crate_texts.file_names.clone()?;
        Ok(Printed { status: 0, text })
    }

    fn archive_digest<F: Files>(
        &mut self,
        alloc: Global,
        path: &OsBytes,
        _files: &mut F,
    ) -> Result<OsBytes, ToolFail> {
        self.archived = self.archived.wrapping_add(1);
        Ok(self.crate_texts.digest_of(alloc, path)?)
    }
}

impl Tool for ScriptTool {
    fn compile<F: Files>(
        &mut self,
        alloc: Global,
        kind: Option<CCompilerKind>,
        command: &SingleCompileCommand,
        outputs: &[(OsBytes, ArtifactDescriptor)],
        files: &mut F,
        _moment: i64,
    ) -> Result<Compiled, ToolFail> {
        self.compiled = self.compiled.wrapping_add(1);
        match kind {
            Some(kind) => {
                let text = self.text(alloc, Step::Compile, kind, command, files)?;
                let folders = self.config.basedirs();
                Ok(compiled(alloc, &self.statuses, text, folders, outputs)?)
            }
            None => match crate_text(alloc, &self.crate_texts.dep_info, command, files) {
                Ok(text) => Ok(compiled_crate(alloc, &self.statuses, text, outputs)?),
                Err(fault) => Err(self.failure(Step::Compile, fault)),
            },
        }
    }
}
