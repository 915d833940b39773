//! What a C compiler has to offer so that its requests have keys.

ghost use Rattle.std.specs.Prelude.{◌≡◌, ◌↔◌, ◌⊎◌, [], ◌∷◌, Some, None, IfOk, IfErr, IsErrOf, OnOk};
ghost use Rattle.std.specs.Option.{option_map};
ghost use Rattle.base_files.specs.Bytes.{ticked};
ghost use Rattle.base_files.specs.Views.{FilesFail};
ghost use Rattle.cmdlines_response_files.specs.Causes.{CauseOf};
ghost use Rattle.cmdlines.specs.Opening.{IsAskedByKind, opened_words};
ghost use Rattle.cmdlines.specs.Commands.{object_path, HasObjectIn, preprocess_words, output_path, compile_words};
ghost use Rattle.cmdlines_tables.specs.Small.{command_at};
ghost use Rattle.cmdlines.specs.Compilers.{Traits, kind_in, text_in, traits_in};
ghost use Rattle.cmdlines.specs.Parsing.{decision_of, parse_of, HasSafeInputIn};
ghost use Rattle.cmdlines.specs.ReadBack.{ReadsAsCompile, ReadsAsPreprocess};
ghost use Rattle.cmdlines_tables.specs.declared.compiler.CCompilerKind.{CCompilerKind};
ghost use Rattle.ckeys_records.specs.Meaning.{AtMostOnce};
ghost use Rattle.ckeys_records.specs.Meaning.{scene_with, made_of, asked_of};

use base_files::{Files, Listed, OsBytes};
use ckeys_records::{Preprocessor, Printed, Step, ToolFail};
use cmdlines::{AnyFoundCompiler, CommandError, FoundCompiler, HasKind};
use cmdlines_base::{CompilerArguments, SingleCompileCommand};
use cmdlines_response_files::ParseFault;
use cmdlines_tables::{CCompilerKind, Cacheable, ParsedArguments, command_at};
use std::alloc::{AllocError, Global};

/// A C compiler: what is known of it, how it reads words, and the commands for it.
pub trait CCompilerImpl {
    /// The kind, by whose tables its words are read.
    ghost kind_of: { Self → CCompilerKind };

    /// What is known of it beside its kind.
    ghost traits: { Self → Traits };

    fn kind(&self) -> CCompilerKind
        ensures { result ≡ kind_of self.now };

    /// Whether it compiles C++ by itself.
    fn plusplus(&self) -> bool
        ensures { result ≡ (traits self.now).plusplus };

    fn version(&self) -> Option<&str>
        ensures { option_map text_in result ≡ (traits self.now).version };

    fn assembler_digest(&self) -> Option<&str>
        ensures { option_map text_in result ≡ (traits self.now).assembler_digest };

    /// What these words come to, with the response files that they name opened from that directory. `Read` names one on which an
    /// I/O error occurred.
    fn parse_arguments<F: Files>(
        &self,
        alloc: Global,
        words: &[OsBytes],
        dir: &OsBytes,
        files: &mut F,
    ) -> Result<CompilerArguments<ParsedArguments>, ParseFault>
        ensures decision { IfOk result
            (λ answer. decision_of answer
            ≡ parse_of (kind_of self.now)
            (opened_words (kind_of self.now) dir.now (F.tree files.old) words.now)) }
        ensures cause { IfErr result
            (CauseOf (FilesFail F.Files files.old files.new)) }
        ensures asked { IfErr result
            (CauseOf (IsAskedByKind (kind_of self.now) dir.now (F.tree files.old) words.now)) }
        ensures input { IfOk result
            (λ answer. HasSafeInputIn (kind_of self.now)
            (opened_words (kind_of self.now) dir.now (F.tree files.old) words.now)
            (decision_of answer)) }
        ensures object { IfOk result (λ answer. HasObjectIn (decision_of answer)) }
        ensures tree { F.tree files.new ≡ F.tree files.old }
        ensures steady { OnOk result (F.failed files.new ≡ F.failed files.old) }
        ensures memory { IsErrOf result ParseFault.Memory →
            F.failed files.new ≡ F.failed files.old };

    /// The words of the preprocess command.
    fn preprocess_words(
        &self,
        alloc: Global,
        parsed: &ParsedArguments,
    ) -> Result<Listed<OsBytes>, AllocError>
        ensures words { IfOk result
            (λ words. words ≡ preprocess_words (kind_of self.now) parsed.now) }
        ensures again { IfOk result (λ words. ReadsAsPreprocess (kind_of self.now) parsed.now words) };

    /// The compile command: this executable with the request's words, in that directory, under these variables.
    fn generate_compile_commands(
        &self,
        alloc: Global,
        executable: &OsBytes,
        parsed: &ParsedArguments,
        dir: &OsBytes,
        env: &[(OsBytes, OsBytes)],
    ) -> Result<(SingleCompileCommand, Cacheable), CommandError>
        ensures command { IfOk result
            (λ made. made.0
            ≡ command_at executable.now
            (compile_words (kind_of self.now) parsed.now (output_path parsed.now)) env.now
            dir.now) }
        ensures cacheable { IfOk result (λ made. made.1 ≡ Cacheable.Yes) }
        ensures missing { IsErrOf result CommandError.NoObjOutput ↔ (object_path parsed.now ≡ None) }
        ensures again { IfOk result
            (λ made. ReadsAsCompile (kind_of self.now) parsed.now made.0.arguments) };

    /// Runs the preprocess command: what it prints is what the tool means by what the compiler's tables read of it.
    fn preprocess<F: Files, T: Preprocessor>(
        &self,
        alloc: Global,
        executable: &OsBytes,
        parsed: &ParsedArguments,
        dir: &OsBytes,
        env: &[(OsBytes, OsBytes)],
        moment: i64,
        files: &mut F,
        tool: &mut T,
    ) -> Result<Printed, ToolFail>
        ensures answer { IfOk result
            (λ p. made_of p.status (Some p.text ∷ [])
            ≡ T.meaning tool.old Step.Preprocess
            (asked_of (kind_of self.now) (preprocess_words (kind_of self.now) parsed.now)) []
            (scene_with executable.now dir.now env.now (F.tree files.old) moment)) }
        ensures meaning { T.meaning tool.new ≡ T.meaning tool.old }
        ensures tree { F.tree files.new ≡ F.tree files.old }
        ensures device { IsErrOf result ToolFail.Device
            → (T.failed tool.new ≡ ticked (T.failed tool.old))
            × T.fails_in tool.old Step.Preprocess tool.new }
        ensures steady { (IsErrOf result ToolFail.Device → ⊥)
            → (T.failed tool.new ≡ T.failed tool.old) × (F.failed files.new ≡ F.failed files.old) }
        ensures runs { (IsErrOf result ToolFail.Memory → ⊥)
            → T.preprocessed tool.new ≡ ticked (T.preprocessed tool.old) }
        ensures once { AtMostOnce (T.preprocessed tool.old) (T.preprocessed tool.new) }
        ensures compiles { T.compiled tool.new ≡ T.compiled tool.old }
    {
        let words = self.preprocess_words(alloc, parsed)?;
        let command = command_at(alloc, executable, words, env, dir)?;
        tool.preprocess(alloc, self.kind(), &command, files, moment)
    }
}

impl CCompilerImpl for AnyFoundCompiler {
    ghost kind_of = { kind_in };

    ghost traits = { traits_in };

    fn kind(&self) -> CCompilerKind {
        AnyFoundCompiler::kind(self)
    }

    fn plusplus(&self) -> bool {
        AnyFoundCompiler::plusplus(self)
    }

    fn version(&self) -> Option<&str> {
        AnyFoundCompiler::version(self)
    }

    fn assembler_digest(&self) -> Option<&str> {
        AnyFoundCompiler::assembler_digest(self)
    }

    fn parse_arguments<F: Files>(
        &self,
        alloc: Global,
        words: &[OsBytes],
        dir: &OsBytes,
        files: &mut F,
    ) -> Result<CompilerArguments<ParsedArguments>, ParseFault> {
        AnyFoundCompiler::parse_arguments(self, alloc, words, dir, files)
    }

    fn preprocess_words(
        &self,
        alloc: Global,
        parsed: &ParsedArguments,
    ) -> Result<Listed<OsBytes>, AllocError> {
        AnyFoundCompiler::preprocess_words(self, alloc, parsed)
    }

    fn generate_compile_commands(
        &self,
        alloc: Global,
        executable: &OsBytes,
        parsed: &ParsedArguments,
        dir: &OsBytes,
        env: &[(OsBytes, OsBytes)],
    ) -> Result<(SingleCompileCommand, Cacheable), CommandError> {
        AnyFoundCompiler::generate_compile_commands(self, alloc, executable, parsed, dir, env)
    }
}

impl<K: HasKind> CCompilerImpl for FoundCompiler<K> {
    ghost kind_of = { λ _. K.kind };

    ghost traits = { λ compiler. compiler };

    fn kind(&self) -> CCompilerKind {
        K::kind()
    }

    fn plusplus(&self) -> bool {
        FoundCompiler::plusplus(self)
    }

    fn version(&self) -> Option<&str> {
        FoundCompiler::version(self)
    }

    fn assembler_digest(&self) -> Option<&str> {
        FoundCompiler::assembler_digest(self)
    }

    fn parse_arguments<F: Files>(
        &self,
        alloc: Global,
        words: &[OsBytes],
        dir: &OsBytes,
        files: &mut F,
    ) -> Result<CompilerArguments<ParsedArguments>, ParseFault> {
        FoundCompiler::parse_arguments(self, alloc, words, dir, files)
    }

    fn preprocess_words(
        &self,
        alloc: Global,
        parsed: &ParsedArguments,
    ) -> Result<Listed<OsBytes>, AllocError> {
        FoundCompiler::preprocess_words(self, alloc, parsed)
    }

    fn generate_compile_commands(
        &self,
        alloc: Global,
        executable: &OsBytes,
        parsed: &ParsedArguments,
        dir: &OsBytes,
        env: &[(OsBytes, OsBytes)],
    ) -> Result<(SingleCompileCommand, Cacheable), CommandError> {
        FoundCompiler::generate_compile_commands(self, alloc, executable, parsed, dir, env)
    }
}
