//! A C compiler as it is found, with its kind as a value: its words and the commands for it. All of them are read and written by
//! one mechanism, over their tables and what differs between their kinds.

ghost use Rattle.std.specs.Prelude.{◌≡◌, ◌↔◌, None, IfOk, IfErr, IsErrOf, OnOk};
ghost use Rattle.std.specs.Option.{option_map};
ghost use Rattle.base_files.specs.Views.{FilesFail};
ghost use Rattle.cmdlines_response_files.specs.Causes.{CauseOf};
ghost use Rattle.cmdlines.specs.Opening.{IsAskedByKind, opened_words};
ghost use Rattle.cmdlines.specs.Commands.{object_path, HasObjectIn, preprocess_words, output_path, compile_words};
ghost use Rattle.cmdlines_tables.specs.Small.{command_at};
ghost use Rattle.cmdlines.specs.Compilers.{traits_of, text_in};
ghost use Rattle.cmdlines_tables.specs.Tables.{tables_of};
ghost use Rattle.cmdlines.specs.Parsing.{decision_of, parse_of, HasSafeInputIn};
ghost use Rattle.cmdlines.specs.ReadBack.{ReadsAsCompile, ReadsAsPreprocess};

use crate::command::{CommandError, compile_command, preprocess_words_again};
use crate::engine::parse;
use crate::laws::{inputs_are_safe, requests_have_an_object};
use base_files::{Files, Listed, OsBytes};
use cmdlines_base::{ByteTree, CompilerArguments, SingleCompileCommand};
use cmdlines_response_files::{ParseFault, expand, other_words_stay};
use cmdlines_tables::{ArgData, CCompilerKind, Cacheable, ParsedArguments, compiler_tree};
use std::alloc::{AllocError, Global};
use std::fmt;
use std::marker::Model;

/// A C compiler of any kind as it is found: whether it compiles C++ by itself, its version, and the digest of its assembler,
/// where these are known.
#[derive(Drop)]
pub struct AnyFoundCompiler {
    kind: CCompilerKind,
    plusplus: bool,
    version: Option<String>,
    assembler_digest: Option<String>,
    tree: ByteTree<ArgData>,
}

impl Model for AnyFoundCompiler {
    ghost use Rattle.std.specs.Prelude.{◌≡◌};
    ghost use Rattle.cmdlines.specs.Compilers.{Found, traits_of};
    ghost use Rattle.cmdlines_tables.specs.Tables.{tables_of};

    ghost Value = { Found };

    ghost view = { λ a. record { kind = a.kind; traits = traits_of a.plusplus a.version a.assembler_digest } };

    ghost invariant = { λ a. a.tree ≡ tables_of a.kind };
}

/// What is known of it, without its tables.
impl fmt::Debug for AnyFoundCompiler {
    fn fmt<W: fmt::Write>(&self, f: &mut fmt::Formatter<W>) -> fmt::Result {
        f.debug_struct("FoundCompiler")
            .field("kind", &self.kind)
            .field("plusplus", &self.plusplus)
            .field("version", &self.version)
            .field("assembler_digest", &self.assembler_digest)
            .finish()
    }
}

impl AnyFoundCompiler {
    pub fn new(
        alloc: Global,
        kind: CCompilerKind,
        plusplus: bool,
        version: Option<String>,
        assembler_digest: Option<String>,
    ) -> Result<AnyFoundCompiler, AllocError>
        ensures kind { IfOk result (λ compiler. compiler.kind ≡ kind) }
        ensures traits { IfOk result
            (λ compiler. compiler.traits ≡ traits_of plusplus version assembler_digest) }
    {
        Ok(AnyFoundCompiler {
            kind,
            plusplus,
            version,
            assembler_digest,
            tree: compiler_tree(alloc, kind)?,
        })
    }

    pub fn kind(&self) -> CCompilerKind
        ensures { result ≡ self.now.kind }
    {
        self.kind
    }

    /// The tree of its flags.
    pub fn tree(&self) -> &ByteTree<ArgData>
        ensures { result.now ≡ tables_of self.now.kind }
    {
        &self.tree
    }

    /// Whether it compiles C++ by itself, as `g++` does.
    pub fn plusplus(&self) -> bool
        ensures { result ≡ self.now.traits.plusplus }
    {
        self.plusplus
    }

    pub fn version(&self) -> Option<&str>
        ensures { option_map text_in result ≡ self.now.traits.version }
    {
        self.version.as_deref()
    }

    pub fn assembler_digest(&self) -> Option<&str>
        ensures { option_map text_in result ≡ self.now.traits.assembler_digest }
    {
        self.assembler_digest.as_deref()
    }

    /// What these words come to, with the response files that they name opened from that directory; words that name none aren't
    /// copied. `Read` names one on which there was an I/O error.
    pub fn parse_arguments<F: Files>(
        &self,
        alloc: Global,
        words: &[OsBytes],
        dir: &OsBytes,
        files: &mut F,
    ) -> Result<CompilerArguments<ParsedArguments>, ParseFault>
        ensures decision { IfOk result
            (λ answer. decision_of answer
            ≡ parse_of self.now.kind (opened_words self.now.kind dir.now (F.tree files.old) words.now)) }
        ensures cause { IfErr result
            (CauseOf (FilesFail F.Files files.old files.new)) }
        ensures asked { IfErr result
            (CauseOf (IsAskedByKind self.now.kind dir.now (F.tree files.old) words.now)) }
        ensures input { IfOk result
            (λ answer. HasSafeInputIn self.now.kind
            (opened_words self.now.kind dir.now (F.tree files.old) words.now) (decision_of answer)) }
        ensures object { IfOk result (λ answer. HasObjectIn (decision_of answer)) }
        ensures tree { F.tree files.new ≡ F.tree files.old }
        ensures steady { OnOk result (F.failed files.new ≡ F.failed files.old) }
        ensures memory { IsErrOf result ParseFault.Memory →
            F.failed files.new ≡ F.failed files.old }
    {
        // Laws, which cost nothing: what follows from them is said above.
        inputs_are_safe();
        requests_have_an_object();
        other_words_stay();
        match self.kind.style() {
            Some(style) if style.opens_any(words) => {
                let opened = expand(alloc, style, dir, words, files)?;
                Ok(parse(alloc, self.kind, &self.tree, opened.as_slice())?)
            }
            _ => Ok(parse(alloc, self.kind, &self.tree, words)?),
        }
    }

    /// The words of the preprocess command.
    pub fn preprocess_words(
        &self,
        alloc: Global,
        parsed: &ParsedArguments,
    ) -> Result<Listed<OsBytes>, AllocError>
        ensures words { IfOk result (λ words. words ≡ preprocess_words self.now.kind parsed.now) }
        ensures again { IfOk result (λ words. ReadsAsPreprocess self.now.kind parsed.now words) }
    {
        preprocess_words_again(alloc, self.kind, parsed)
    }

    /// The compile command: this executable with the request's words, in that directory, under these variables.
    pub fn generate_compile_commands(
        &self,
        alloc: Global,
        executable: &OsBytes,
        parsed: &ParsedArguments,
        dir: &OsBytes,
        env: &[(OsBytes, OsBytes)],
    ) -> Result<(SingleCompileCommand, Cacheable), CommandError>
        ensures command { IfOk result
            (λ made. made.0
            ≡ command_at executable.now (compile_words self.now.kind parsed.now (output_path parsed.now))
            env.now dir.now) }
        ensures cacheable { IfOk result (λ made. made.1 ≡ Cacheable.Yes) }
        ensures missing { IsErrOf result CommandError.NoObjOutput ↔ (object_path parsed.now ≡ None) }
        ensures again { IfOk result (λ made. ReadsAsCompile self.now.kind parsed.now made.0.arguments) }
    {
        compile_command(alloc, self.kind, executable, parsed, dir, env)
    }
}
