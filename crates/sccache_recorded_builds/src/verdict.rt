//! The verdict on an entry: what its words come to, unless a hazard has it passed through, as a session passes it through.

ghost use Rattle.std.specs.Prelude.{◌≡◌, ◌||◌, IfOk, is_some, true};
ghost use Rattle.std.specs.List.{list_all, list_any};
ghost use Rattle.std.specs.Option.{option_map};
ghost use Rattle.std.specs.Str.{is_utf8};
ghost use Rattle.cmdlines.specs.Commands.{object_path};
ghost use Rattle.cmdlines.specs.Opening.{opened_words};
ghost use Rattle.cmdlines.specs.Parsing as parsing;
ghost use Rattle.cmdlines_base.specs.Reading.{begins_with_at};
ghost use Rattle.rustc_options.specs.Asks.{asks_in};
ghost use Rattle.rustc_texts.specs.Words as rustc;
ghost use Rattle.rustkeys_base.specs.Parsing as rust_parsing;
ghost use Rattle.sccache_recorded_builds.specs.Outcomes.{outcome_in};
ghost use Rattle.sccache_recorded_builds.specs.Verdicts.{are_text, commands_open_file, hazard_of, holds_255, rust_verdict, verdict_of, with_hazards, with_rust_hazard};

use crate::deciding::{Compilers, Decided};
use crate::entry::Entry;
use crate::executables::EntryCompiler;
use base_files::{Files, OsBytes};
use cmdlines::uncached_words::{empty_value, opens_file};
use cmdlines::{AnyFoundCompiler, CommandError};
use cmdlines_base::CompilerArguments;
use cmdlines_response_files::ParseFault;
use cmdlines_tables::{CCompilerKind, ParsedArguments};
use rustc_options::parsed as rust;
use rustc_texts::compile_words;
use rustkeys_base::parse;
use std::alloc::{AllocError, Global};

/// Whether a word of a command would make this compiler open a response file.
fn opens_by(
    alloc: Global,
    compiler: &AnyFoundCompiler,
    parsed: &ParsedArguments,
    dir: &OsBytes,
) -> Result<bool, AllocError>
    requires object { is_some (object_path parsed.now) ≡ true }
    ensures { IfOk result (λ opens. opens ≡ commands_open_file compiler.now.kind parsed.now) }
{
    let preprocess = compiler.preprocess_words(alloc, parsed)?;
    let compile = match compiler.generate_compile_commands(alloc, dir, parsed, dir, &[]) {
        Ok((compile, _)) => compile,
        Err(CommandError::Memory) => return Err(AllocError),
        Err(CommandError::NoObjOutput) => unreachable!(),
    };
    let kind = compiler.kind();
    Ok(opens_file(compile.arguments.as_slice(), kind) || opens_file(preprocess.as_slice(), kind))
}

/// Whether one of these words holds the byte 255.
fn hold_255(words: &[OsBytes]) -> bool
    ensures { result ≡ list_any holds_255 words.now }
{
    words.iter().any(|word| holds_255(word.as_bytes()))
}

fn holds_255(word: &[u8]) -> bool
    ensures { result ≡ holds_255 word.now }
{
    word.contains(&255)
}

/// Whether bytes are UTF-8.
#[tactic(auto, using(crate::proofs::Utf8Laws::text_is, crate::proofs::Utf8Laws::text_is_not))]
fn is_text(bytes: &[u8]) -> bool
    ensures { result ≡ is_utf8 bytes.now }
{
    match str::from_utf8(bytes) {
        Ok(_) => true,
        Err(_) => false,
    }
}

/// Whether all of these words are UTF-8.
fn are_all_text(words: &[OsBytes]) -> bool
    ensures { result ≡ list_all is_utf8 words.now }
{
    words.iter().all(|word| is_text(word.as_bytes()))
}

/// Whether these words and that folder are UTF-8.
fn are_text(words: &[OsBytes], dir: &OsBytes) -> bool
    ensures { result ≡ are_text dir.now words.now }
{
    are_all_text(words) && is_text(dir.as_bytes())
}

/// Whether a word with which it is compiled would make rustc open a response file.
fn opens_words(alloc: Global, parsed: &rust::ParsedArguments) -> Result<bool, AllocError>
    ensures { IfOk result (λ opens.
        opens ≡ list_any begins_with_at (rustc.compile_words (asks_in parsed.now))) }
{
    let words = compile_words(alloc, parsed)?;
    let list = words.as_slice();
    Ok(list.iter().any(|word| word.as_bytes().starts_with(b"@")))
}

/// It is asked for, unless it would make rustc open a response file.
fn past_rust_hazard(
    alloc: Global,
    parsed: rust::ParsedArguments,
) -> Result<CompilerArguments<rust::ParsedArguments>, AllocError>
    ensures { IfOk result (λ answer. rust_parsing.decision_of answer
        ≡ with_rust_hazard rust_parsing.asks (asks_in parsed)) }
{
    match opens_words(alloc, &parsed) {
        Ok(false) => Ok(CompilerArguments::Ok(parsed)),
        Ok(true) => {
            drop(parsed);
            Ok(CompilerArguments::CannotCache("opens file", None))
        }
        Err(error) => {
            drop(parsed);
            Err(error)
        }
    }
}

/// The verdict on words of rustc.
fn judge_rust<F: Files>(
    alloc: Global,
    words: &[OsBytes],
    dir: &OsBytes,
    files: &mut F,
) -> Result<CompilerArguments<rust::ParsedArguments>, ParseFault>
    ensures decision { IfOk result (λ answer. rust_parsing.decision_of answer
        ≡ rust_verdict dir.now (F.tree files.old) words.now) }
    ensures tree { F.tree files.new ≡ F.tree files.old }
{
    if !are_text(words, dir) {
        return Ok(CompilerArguments::CannotCache("not utf-8", None));
    }
    match parse::parse_arguments(alloc, words, dir, files)? {
        CompilerArguments::Ok(parsed) => Ok(past_rust_hazard(alloc, parsed)?),
        other => Ok(other),
    }
}

impl Compilers {
    /// Whether a word of a command would make the compiler of that kind open a response file.
    fn commands_open_file(
        &self,
        alloc: Global,
        kind: CCompilerKind,
        parsed: &ParsedArguments,
        dir: &OsBytes,
    ) -> Result<bool, AllocError>
        requires object { is_some (object_path parsed.now) ≡ true }
        ensures { IfOk result (λ opens. opens ≡ commands_open_file kind parsed.now) }
    {
        opens_by(alloc, self.of(kind), parsed, dir)
    }

    /// What keeps a request from being kept that words ask for.
    fn hazard_of(
        &self,
        alloc: Global,
        kind: CCompilerKind,
        parsed: &ParsedArguments,
        dir: &OsBytes,
    ) -> Result<Option<&'static str>, AllocError>
        requires object { is_some (object_path parsed.now) ≡ true }
        ensures { IfOk result (λ hazard.
            option_map (λ text. text.now) hazard ≡ hazard_of kind parsed.now) }
    {
        if empty_value(parsed) {
            return Ok(Some("empty value"));
        }
        if self.commands_open_file(alloc, kind, parsed, dir)? {
            return Ok(Some("opens file"));
        }
        if hold_255(parsed.common_args.as_slice()) || hold_255(parsed.arch_args.as_slice()) {
            return Ok(Some("byte 255"));
        }
        Ok(None)
    }

    /// It is asked for, unless a hazard keeps it from being kept.
    fn past_hazards(
        &self,
        alloc: Global,
        kind: CCompilerKind,
        parsed: ParsedArguments,
        dir: &OsBytes,
    ) -> Result<CompilerArguments<ParsedArguments>, AllocError>
        requires object { is_some (object_path parsed) ≡ true }
        ensures { IfOk result (λ answer. parsing.decision_of answer
            ≡ with_hazards kind (parsing.asks parsed)) }
    {
        match self.hazard_of(alloc, kind, &parsed, dir) {
            Ok(None) => Ok(CompilerArguments::Ok(parsed)),
            Ok(Some(reason)) => {
                drop(parsed);
                Ok(CompilerArguments::CannotCache(reason, None))
            }
            Err(error) => {
                drop(parsed);
                Err(error)
            }
        }
    }

    /// The verdict on words by a C compiler of that kind.
    fn judge_c<F: Files>(
        &self,
        alloc: Global,
        kind: CCompilerKind,
        words: &[OsBytes],
        dir: &OsBytes,
        files: &mut F,
    ) -> Result<CompilerArguments<ParsedArguments>, ParseFault>
        ensures decision { IfOk result
            (λ answer. parsing.decision_of answer ≡ with_hazards kind
            (parsing.parse_of kind (opened_words kind dir.now (F.tree files.old) words.now))) }
        ensures tree { F.tree files.new ≡ F.tree files.old }
    {
        match self.parse(alloc, kind, words, dir, files)? {
            CompilerArguments::Ok(parsed) => Ok(self.past_hazards(alloc, kind, parsed, dir)?),
            other => Ok(other),
        }
    }

    /// The verdict on an entry, with the response files that it names opened.
    pub fn judge<F: Files>(
        &self,
        alloc: Global,
        entry: &Entry,
        files: &mut F,
    ) -> Result<Decided, ParseFault>
        ensures verdict { IfOk result
            (λ decided. outcome_in decided ≡ verdict_of (F.tree files.old) entry.now) }
        ensures tree { F.tree files.new ≡ F.tree files.old }
    {
        let words = entry.words.as_slice();
        match entry.compiler {
            None => Ok(Decided::Unknown),
            Some(EntryCompiler::C(kind)) => {
                let answer = self.judge_c(alloc, kind, words, &entry.dir, files)?;
                Ok(Decided::C(kind, answer))
            }
            Some(EntryCompiler::Rustc) => {
                let answer = judge_rust(alloc, words, &entry.dir, files)?;
                Ok(Decided::Rustc(answer))
            }
        }
    }
}
