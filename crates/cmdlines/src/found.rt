//! A C compiler as it is found, of a kind that is known where the program is built. What it does is done by its kind as a value.

ghost use Rattle.std.specs.Prelude.{◌≡◌, ◌↔◌, None, IfOk, IfErr, IsErrOf, OnOk};
ghost use Rattle.std.specs.Option.{option_map};
ghost use Rattle.base_files.specs.Views.{FilesFail};
ghost use Rattle.cmdlines_response_files.specs.Causes.{CauseOf};
ghost use Rattle.cmdlines_tables.specs.declared.compiler.CCompilerKind.{CCompilerKind};
ghost use Rattle.cmdlines.specs.Opening.{IsAskedByKind, opened_words};
ghost use Rattle.cmdlines.specs.Commands.{object_path, HasObjectIn, preprocess_words, output_path, compile_words};
ghost use Rattle.cmdlines_tables.specs.Small.{command_at};
ghost use Rattle.cmdlines.specs.Compilers.{traits_of, text_in};
ghost use Rattle.cmdlines.specs.Parsing.{decision_of, parse_of, HasSafeInputIn};
ghost use Rattle.cmdlines.specs.ReadBack.{ReadsAsCompile, ReadsAsPreprocess};

use crate::any_found::AnyFoundCompiler;
use crate::command::CommandError;
use base_files::{Files, Listed, OsBytes};
use cmdlines_base::{CompilerArguments, SingleCompileCommand};
use cmdlines_response_files::ParseFault;
use cmdlines_tables::{CCompilerKind, Cacheable, ParsedArguments};
use std::alloc::{AllocError, Global};
use std::fmt;
use std::marker::{Model, PhantomData};

/// A kind of compiler that is known where the program is built.
pub trait HasKind {
    ghost kind: { CCompilerKind };

    fn kind() -> CCompilerKind
        ensures { result ≡ kind };
}

/// A compiler of that kind as it is found.
#[derive(Drop)]
pub struct FoundCompiler<K: HasKind> {
    found: AnyFoundCompiler,
    kind: PhantomData<K>,
}

impl<K: HasKind> Model for FoundCompiler<K> {
    ghost use Rattle.std.specs.Prelude.{◌≡◌};
    ghost use Rattle.cmdlines.specs.Compilers.{Traits};

    ghost Value = { Traits };

    ghost view = { λ a. a.found.traits };

    ghost invariant = { λ a. a.found.kind ≡ K.kind };
}

/// What is known of it, without its tables.
impl<K: HasKind> fmt::Debug for FoundCompiler<K> {
    fn fmt<W: fmt::Write>(&self, f: &mut fmt::Formatter<W>) -> fmt::Result {
        self.found.fmt(f)
    }
}

impl<K: HasKind> FoundCompiler<K> {
    pub fn new(
        alloc: Global,
        plusplus: bool,
        version: Option<String>,
        assembler_digest: Option<String>,
    ) -> Result<FoundCompiler<K>, AllocError>
        ensures { IfOk result (λ compiler. compiler ≡ traits_of plusplus version assembler_digest) }
    {
        let found = AnyFoundCompiler::new(alloc, K::kind(), plusplus, version, assembler_digest)?;
        let kind = PhantomData;
        Ok(FoundCompiler { found, kind })
    }

    /// The same with its kind as a value.
    pub fn found(&self) -> &AnyFoundCompiler
        ensures kind { result.now.kind ≡ K.kind }
        ensures traits { result.now.traits ≡ self.now }
    {
        &self.found
    }

    /// Whether it compiles C++ by itself, as `g++` does.
    pub fn plusplus(&self) -> bool
        ensures { result ≡ self.now.plusplus }
    {
        self.found.plusplus()
    }

    pub fn version(&self) -> Option<&str>
        ensures { option_map text_in result ≡ self.now.version }
    {
        self.found.version()
    }

    pub fn assembler_digest(&self) -> Option<&str>
        ensures { option_map text_in result ≡ self.now.assembler_digest }
    {
        self.found.assembler_digest()
    }

    /// What these words come to, with the response files that they name opened from that directory; words that name none aren't
    /// copied. `Read` names one on which there was an I/O error.
    pub fn parse_arguments<F: Files>(
        &self,
        alloc: Global,
        words: &[OsBytes],
        dir: &OsBytes,
        files: &mut F,
    ) -> Result<CompilerArguments<ParsedArguments>, ParseFault>
        ensures decision { IfOk result
            (λ answer. decision_of answer
            ≡ parse_of K.kind (opened_words K.kind dir.now (F.tree files.old) words.now)) }
        ensures cause { IfErr result
            (CauseOf (FilesFail F.Files files.old files.new)) }
        ensures asked { IfErr result
            (CauseOf (IsAskedByKind K.kind dir.now (F.tree files.old) words.now)) }
        ensures input { IfOk result
            (λ answer. HasSafeInputIn K.kind
            (opened_words K.kind dir.now (F.tree files.old) words.now) (decision_of answer)) }
        ensures object { IfOk result (λ answer. HasObjectIn (decision_of answer)) }
        ensures tree { F.tree files.new ≡ F.tree files.old }
        ensures steady { OnOk result (F.failed files.new ≡ F.failed files.old) }
        ensures memory { IsErrOf result ParseFault.Memory →
            F.failed files.new ≡ F.failed files.old }
    {
        self.found.parse_arguments(alloc, words, dir, files)
    }

    /// The words of the preprocess command.
    pub fn preprocess_words(
        &self,
        alloc: Global,
        parsed: &ParsedArguments,
    ) -> Result<Listed<OsBytes>, AllocError>
        ensures words { IfOk result (λ words. words ≡ preprocess_words K.kind parsed.now) }
        ensures again { IfOk result (λ words. ReadsAsPreprocess K.kind parsed.now words) }
    {
        self.found.preprocess_words(alloc, parsed)
    }

    /// The compile command: this executable with the request's words, in that directory, under these variables.
    pub fn generate_compile_commands(
        &self,
        alloc: Global,
        executable: &OsBytes,
        parsed: &ParsedArguments,
        dir: &OsBytes,
        env: &[(OsBytes, OsBytes)],
    ) -> Result<(SingleCompileCommand, Cacheable), CommandError>
        ensures command { IfOk result
            (λ made. made.0
            ≡ command_at executable.now (compile_words K.kind parsed.now (output_path parsed.now))
            env.now dir.now) }
        ensures cacheable { IfOk result (λ made. made.1 ≡ Cacheable.Yes) }
        ensures missing { IsErrOf result CommandError.NoObjOutput ↔ (object_path parsed.now ≡ None) }
        ensures again { IfOk result (λ made. ReadsAsCompile K.kind parsed.now made.0.arguments) }
    {
        self.found
            .generate_compile_commands(alloc, executable, parsed, dir, env)
    }
}
