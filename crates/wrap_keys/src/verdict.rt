//! The verdict on a request's words to a C compiler: it is passed through, or there is a plan of what is run for it.

ghost use Rattle.std.specs.Prelude.{◌≡◌, ◌||◌, if◌then◌else◌, is_some, true, List, None, Some, IfOk, IfErr, OnOk};
ghost use Rattle.base_files.specs.Bytes.{Bytes};
ghost use Rattle.base_files.specs.Views.{FilesFail};
ghost use Rattle.cmdlines.specs.Commands.{object_path, preprocess_words};
ghost use Rattle.cmdlines.specs.Hazards.{opens_file};
ghost use Rattle.cmdlines.specs.Parsing as parsing;
ghost use Rattle.cmdlines.specs.ReadBack.{ReadsAsCompile, ReadsAsPreprocess};
ghost use Rattle.wrap_base.specs.Commands.{by_c, compile_command_of, found_of, kind_of, words_at};
ghost use Rattle.wrap_keys.specs.Answers.{EarlyCause};
ghost use Rattle.wrap_keys.specs.Early.{IsAskedEarly};
ghost use Rattle.wrap_keys.specs.Verdicts.{asks, hashed_words, passes, verdict_of, why_of, with_hazards};
ghost use Rattle.wrap_keys.specs.Plans.{judgement_of, IsPlanOf, IsReadAgain, IsReadAgainUnlessGiven, IsReadAgainWhereSafe, OnAsks};
ghost use Rattle.ckeys_records.specs.Records.{hold_end};
ghost use Rattle.ckeys_records.specs.Untouched.{FilesUntouched};

use base_files::{Files, OsBytes};
use ckeys_records::{Fault, hold_word_end};
use cmdlines::CommandError;
use cmdlines::uncached_words::{empty_value, opens_file};
use cmdlines_base::{CompilerArguments, SingleCompileCommand};
use cmdlines_response_files::ParseFault;
use cmdlines_tables::{CCompilerKind, ParsedArguments};
use std::alloc::{AllocError, Global};
use wrap_base::{AnyC, Reason, Request};

/// What is run for a request: what it asks for, and its compile command.
#[derive(Drop)]
pub struct Plan {
    pub parsed: ParsedArguments,
    pub compile: SingleCompileCommand,
}

/// What a request comes to by its words: it is passed through, or this is run for it.
#[derive(Drop)]
pub enum Verdict {
    Passes(Reason),
    Asks(Plan),
}

/// The compile command of a request that asks for this.
fn compile_command(
    alloc: Global,
    compiler: AnyC<'_>,
    request: &Request,
    parsed: &ParsedArguments,
) -> Result<SingleCompileCommand, AllocError>
    requires object { is_some (object_path parsed.now) ≡ true }
    ensures command { IfOk result
        (λ compile. compile ≡ compile_command_of (found_of compiler.entry) request.now parsed.now) }
    ensures again { IfOk result
        (λ compile. ReadsAsCompile (kind_of compiler.entry) parsed.now compile.arguments) }
{
    let executable = compiler.executable;
    let env = request.env.as_slice();
    match compiler
        .found
        .generate_compile_commands(alloc, executable, parsed, &request.dir, env)
    {
        Ok((compile, _)) => Ok(compile),
        Err(CommandError::Memory) => Err(AllocError),
        Err(CommandError::NoObjOutput) => unreachable!(),
    }
}

/// Why a request with these commands is passed through, where it is: a word of a command would open a response file, or a hashed
/// word holds the byte that ends one.
fn reason_by(
    kind: CCompilerKind,
    parsed: &ParsedArguments,
    compile: &[OsBytes],
    preprocess: &[OsBytes],
) -> Option<Reason>
    ensures { result
        ≡ (if opens_file kind compile.now || opens_file kind preprocess.now
        then Some Reason.OpensFile
        else if hold_end (hashed_words parsed.now) then Some Reason.Byte255
        else None) }
{
    if opens_file(compile, kind) || opens_file(preprocess, kind) {
        return Some(Reason::OpensFile);
    }
    if hold_word_end(parsed.common_args.as_slice()) || hold_word_end(parsed.arch_args.as_slice()) {
        return Some(Reason::Byte255);
    }
    None
}

/// The compile command of a request that asks for this, or why it is passed through.
fn compile_or_reason(
    alloc: Global,
    compiler: AnyC<'_>,
    request: &Request,
    parsed: &ParsedArguments,
) -> Result<Result<SingleCompileCommand, Reason>, AllocError>
    requires object { is_some (object_path parsed.now) ≡ true }
    ensures asks { IfOk result
        (λ found. OnOk found
        (with_hazards (kind_of compiler.entry) (parsing.asks parsed.now) ≡ asks parsed.now)) }
    ensures passes { IfOk result
        (λ found. IfErr found
        (λ reason. with_hazards (kind_of compiler.entry) (parsing.asks parsed.now)
        ≡ passes (why_of reason))) }
    ensures plan { IfOk result
        (λ found. IfOk found
        (λ compile. IsPlanOf (found_of compiler.entry) request.now
        (record { parsed = parsed.now; compile = compile }))) }
    ensures again { IfOk result
        (λ found. IfOk found
        (λ compile. ReadsAsCompile (kind_of compiler.entry) parsed.now compile.arguments)) }
    ensures preprocess { IfOk result
        (λ found. OnOk found
        (ReadsAsPreprocess (kind_of compiler.entry) parsed.now
        (preprocess_words (kind_of compiler.entry) parsed.now))) }
{
    if empty_value(parsed) {
        return Ok(Err(Reason::EmptyValue));
    }
    let preprocess = compiler.found.preprocess_words(alloc, parsed)?;
    let compile = compile_command(alloc, compiler, request, parsed)?;
    let words = compile.arguments.as_slice();
    match reason_by(compiler.found.kind(), parsed, words, preprocess.as_slice()) {
        None => Ok(Ok(compile)),
        Some(reason) => Ok(Err(reason)),
    }
}

/// The verdict on a request that asks for this: an option whose value may be joined or separate has an empty one, or a word
/// of a command would open a response file, or a hashed word holds the byte that ends one.
fn after_hazards(
    alloc: Global,
    compiler: AnyC<'_>,
    request: &Request,
    parsed: ParsedArguments,
) -> Result<Verdict, AllocError>
    requires object { is_some (object_path parsed) ≡ true }
    ensures verdict { IfOk result
        (λ verdict. judgement_of verdict
        ≡ with_hazards (kind_of compiler.entry) (parsing.asks parsed)) }
    ensures plan { IfOk result
        (λ verdict. OnAsks verdict (IsPlanOf (found_of compiler.entry) request.now)) }
    ensures again { (words : List Bytes)
        → parsing.parse_of (kind_of compiler.entry) words ≡ parsing.asks parsed
        → parsing.HasSafeInput (kind_of compiler.entry) parsed
        → IfOk result (λ verdict. OnAsks verdict (IsReadAgain (found_of compiler.entry) words)) }
    ensures safe { (words : List Bytes)
        → parsing.parse_of (kind_of compiler.entry) words ≡ parsing.asks parsed
        → IfOk result (λ verdict. OnAsks verdict (IsReadAgainWhereSafe (found_of compiler.entry) words)) }
{
    match compile_or_reason(alloc, compiler, request, &parsed) {
        Ok(Ok(compile)) => Ok(Verdict::Asks(Plan { parsed, compile })),
        Ok(Err(reason)) => {
            drop(parsed);
            Ok(Verdict::Passes(reason))
        }
        Err(error) => {
            drop(parsed);
            Err(error)
        }
    }
}

/// The verdict on a request to this C compiler, with the response files that it names opened.
pub fn judge<F: Files>(
    alloc: Global,
    compiler: AnyC<'_>,
    request: &Request,
    files: &mut F,
) -> Result<Verdict, Fault>
    ensures verdict { let found = found_of compiler.entry in IfOk result
        (λ verdict. judgement_of verdict
        ≡ verdict_of found.kind (words_at found request.now (F.tree files.old))) }
    // The commands are those of the request, and its compiler reads them again as what was wanted, unless an option of Msvc gave an
    // input that can't be put where it's written.
    ensures plan { IfOk result
        (λ verdict. OnAsks verdict (IsPlanOf (found_of compiler.entry) request.now)) }
    ensures again { let found = found_of compiler.entry in IfOk result
        (λ verdict. OnAsks verdict
        (IsReadAgainUnlessGiven found (words_at found request.now (F.tree files.old)))) }
    ensures safe { let found = found_of compiler.entry in IfOk result
        (λ verdict. OnAsks verdict
        (IsReadAgainWhereSafe found (words_at found request.now (F.tree files.old)))) }
    ensures cause { IfErr result
        (EarlyCause (FilesFail F.Files files.old files.new)) }
    // No file is asked for but those of words.
    ensures asked { let compiler = by_c (found_of compiler.entry) in IfErr result
        (EarlyCause (IsAskedEarly compiler request.now (F.tree files.old))) }
    ensures untouched { FilesUntouched F.Files files.old files.new result }
{
    let words = request.words.as_slice();
    match compiler
        .found
        .parse_arguments(alloc, words, &request.dir, files)
    {
        Ok(CompilerArguments::Ok(parsed)) => Ok(after_hazards(alloc, compiler, request, parsed)?),
        Ok(CompilerArguments::NotCompilation) => Ok(Verdict::Passes(Reason::NotCompilation)),
        Ok(CompilerArguments::CannotCache(reason, more)) => {
            Ok(Verdict::Passes(Reason::CannotCache(reason, more)))
        }
        Err(ParseFault::Memory) => Err(Fault::Memory),
        Err(ParseFault::Read(path)) => Err(Fault::Read(path)),
    }
}
