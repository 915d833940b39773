//! The fingerprint of a request: of what its key is made, with no store asked and nothing compiled.

ghost use Rattle.std.specs.Prelude.{◌≡◌, false, true, filter, IfOk, IfErr, OnOk};
ghost use Rattle.base_files.specs.Bytes.{ticked};
ghost use Rattle.base_files.specs.Views.{FilesFail};
ghost use Rattle.ckeys.specs.Calls.{needs_preprocessing};
ghost use Rattle.ckeys.specs.EntryTurns.{RunsUntilKey};
ghost use Rattle.ckeys_records.specs.Faults.{KeyCause};
ghost use Rattle.ckeys_records.specs.Meaning.{names_of};
ghost use Rattle.ckeys_records.specs.Params.{is_cached, stripped_words};
ghost use Rattle.ckeys_records.specs.Records.{hold_end};
ghost use Rattle.ckeys_records.specs.Views.{ToolFails};
ghost use Rattle.ckeys_records.specs.Untouched.{Untouched};
ghost use Rattle.rustc_options.specs.Asks.{asks_in};
ghost use Rattle.rustkeys.specs.Runs.{AtMostTwice};
ghost use Rattle.wrap_base.specs.Commands.{by_c, digest_of, found_of, named_by, traits_of};
ghost use Rattle.wrap_keys.specs.Account.{account_at, account_named, call_at, rust_account_by, rust_call_at, rust_work_at, work_at};
ghost use Rattle.wrap_keys.specs.Asking.{RunsOf, StopsEarly};
ghost use Rattle.wrap_keys.specs.RustVerdicts.{is_rust_no_text, is_text, rust_verdict_of};
ghost use Rattle.wrap_keys.specs.Verdicts.{hashed_words};
ghost use Rattle.wrap_fingerprints.specs.Fingerprints.{IsFingerprintOf};
ghost use Rattle.wrap_fingerprints.specs.declared.fingerprint.Fingerprint.TheVariants.{Rustc};
ghost use Rattle.wrap_fingerprints.specs.Telling.{OnReason, Tells};

use crate::c_parts::CParts;
use crate::pieces::{assembler_of, cached_variables, stripped};
use base_files::{Files, Listed, OsBytes};
use ckeys::KeyContents;
use ckeys_base::HashState;
use ckeys_records::output_name::OutputName;
use ckeys_records::{Fault, KeyConfig, stripped_words_lack_the_end};
use cmdlines_tables::ParsedArguments;
use rustc_compiler::Rust;
use rustc_options::parsed::ParsedArguments as RustArguments;
use rustc_parts::parts::Parts;
use rustkeys::{RustCompilation, RustHasher};
use std::alloc::{AllocError, Global};
use wrap_base::{AnyC, Named, Reason, Request, Tool};
use wrap_keys::{RustVerdict, Verdict, judge, judge_rust, output_names, place_of};

/// Of what a request's key is made: the parts by its family, with digests in the place of files' contents.
#[derive(Clone, Debug, Drop, PartialEq, Eq)]
pub enum Fingerprint {
    C(CParts),
    /// The pieces that are hashed, and the names of the outputs with their marks.
    Rustc(Parts, Listed<OutputName>),
}

/// The parts of a request to this C compiler that asks for this, of what its key is made of.
fn c_parts(
    alloc: Global,
    config: &KeyConfig,
    compiler: AnyC<'_>,
    request: &Request,
    parsed: &ParsedArguments,
    made: KeyContents,
) -> Result<CParts, AllocError>
    ensures { IfOk result
        (λ parts. parts ≡ record {
          compiler = digest_of compiler.entry;
          plusplus = (traits_of compiler.entry).plusplus;
          language = parsed.now.language;
          words = stripped_words config.now.basedirs (hashed_words parsed.now);
          variables = filter is_cached request.now.env;
          extra_hashes = made.extra_hashes;
          assembler = (traits_of compiler.entry).assembler_digest;
          text = made.text;
          names = names_of parsed.now.outputs;
        }) }
{
    let digest = compiler.executable_digest.as_bytes();
    let common = parsed.common_args.as_slice();
    let arch = parsed.arch_args.as_slice();
    let folders = config.basedirs();
    let outputs = parsed.outputs.as_slice();
    let executable = OsBytes::from_slice(alloc, digest)?;
    let words = stripped(alloc, common, arch, folders)?;
    let assembler = assembler_of(alloc, compiler)?;
    let names = output_names(alloc, outputs)?;
    let variables = cached_variables(alloc, request.env.as_slice())?;
    Ok(CParts {
        compiler: executable,
        plusplus: compiler.found.plusplus(),
        language: parsed.language,
        words,
        variables,
        extra_hashes: made.extra_hashes,
        assembler,
        text: made.text,
        names,
    })
}

/// The fingerprint of a request to this C compiler that asks for this.
fn c_fingerprint<H: HashState, F: Files, T: Tool>(
    alloc: Global,
    config: &KeyConfig,
    compiler: AnyC<'_>,
    request: &Request,
    parsed: &ParsedArguments,
    files: &mut F,
    tool: &mut T,
) -> Result<Fingerprint, Fault>
    requires told { hold_end (hashed_words parsed.now) ≡ false }
    ensures is { let w = work_at (T.meaning tool.old)
        (call_at (found_of compiler.entry) request.now (F.tree files.old) config.now parsed.now) in
        IfOk result (IsFingerprintOf H.digest_of w) }
    ensures cause { let w = work_at (T.meaning tool.old)
        (call_at (found_of compiler.entry) request.now (F.tree files.old) config.now parsed.now) in
        IfErr result
        (KeyCause w.fault (FilesFail F.Files files.old files.new)
        (ToolFails T.Preprocessor tool.old tool.new)) }
    ensures untouched { Untouched T.Preprocessor F.Files
        tool.old files.old tool.new files.new result }
    ensures runs { needs_preprocessing parsed.now.language ≡ true
        → OnOk result (T.preprocessed tool.new ≡ ticked (T.preprocessed tool.old)) }
    ensures until { needs_preprocessing parsed.now.language ≡ true →
        IfErr result (RunsUntilKey (T.preprocessed tool.old) (T.preprocessed tool.new)) }
    ensures idle { needs_preprocessing parsed.now.language ≡ false →
        T.preprocessed tool.new ≡ T.preprocessed tool.old }
    ensures early { let w = work_at (T.meaning tool.old)
        (call_at (found_of compiler.entry) request.now (F.tree files.old) config.now parsed.now) in
        StopsEarly w (T.preprocessed tool.old) (T.preprocessed tool.new) }
    ensures compiles { T.compiled tool.new ≡ T.compiled tool.old }
{
    // A law, which costs nothing: what follows from it is said above.
    stripped_words_lack_the_end();
    let place = place_of(request, config);
    let hasher = compiler.hasher(parsed);
    let made = hasher.key_contents::<H, F, T>(alloc, &place, files, tool)?;
    Ok(Fingerprint::C(c_parts(alloc, config, compiler, request, parsed, made)?))
}

/// The fingerprint of a request to rustc whose key is that of this compile.
fn by_compilation(alloc: Global, compilation: RustCompilation) -> Result<Fingerprint, AllocError>
    ensures { IfOk result
        (λ made. made ≡ Rustc compilation.parts (names_of compilation.outputs)) }
{
    match output_names(alloc, compilation.outputs()) {
        Ok(names) => Ok(Fingerprint::Rustc(compilation.parts, names)),
        Err(error) => {
            drop(compilation);
            Err(error)
        }
    }
}

/// The fingerprint of a request to this rustc that asks for this.
fn rust_fingerprint<H: HashState, F: Files, T: Tool>(
    alloc: Global,
    rust: &Rust,
    request: &Request,
    parsed: &RustArguments,
    files: &mut F,
    tool: &mut T,
) -> Result<Fingerprint, Fault>
    ensures is { let w = rust_work_at (T.meaning tool.old)
        (rust_call_at rust.now request.now (F.tree files.old) (asks_in parsed.now)) in
        IfOk result (IsFingerprintOf H.digest_of w) }
    ensures cause { let w = rust_work_at (T.meaning tool.old)
        (rust_call_at rust.now request.now (F.tree files.old) (asks_in parsed.now)) in
        IfErr result
        (KeyCause w.fault (FilesFail F.Files files.old files.new)
        (ToolFails T.Preprocessor tool.old tool.new)) }
    ensures untouched { Untouched T.Preprocessor F.Files
        tool.old files.old tool.new files.new result }
    ensures runs { OnOk result
        (T.preprocessed tool.new ≡ ticked (ticked (T.preprocessed tool.old))) }
    ensures twice { AtMostTwice (T.preprocessed tool.old) (T.preprocessed tool.new) }
    ensures early { let w = rust_work_at (T.meaning tool.old)
        (rust_call_at rust.now request.now (F.tree files.old) (asks_in parsed.now)) in
        StopsEarly w (T.preprocessed tool.old) (T.preprocessed tool.new) }
    ensures compiles { T.compiled tool.new ≡ T.compiled tool.old }
{
    let hasher = RustHasher {
        compiler: rust,
        parsed,
    };
    let env = request.env.as_slice();
    let (compilation, _, _, _) = hasher.generate_hash_key::<H, F, T>(
        alloc,
        &request.dir,
        env,
        files,
        tool,
    )?;
    Ok(by_compilation(alloc, compilation)?)
}

/// What a request to this C compiler comes to: why it is passed through, or its fingerprint.
fn of_c<H: HashState, F: Files, T: Tool>(
    alloc: Global,
    config: &KeyConfig,
    compiler: AnyC<'_>,
    request: &Request,
    files: &mut F,
    tool: &mut T,
) -> Result<Result<Fingerprint, Reason>, Fault>
    ensures tells { let a = account_named (T.meaning tool.old) (F.tree files.old) config.now
        request.now (by_c (found_of compiler.entry)) in
        Tells H.digest_of a (FilesFail F.Files files.old files.new)
        (ToolFails T.Preprocessor tool.old tool.new) result }
    ensures quiet { OnReason result
        ((T.preprocessed tool.new ≡ T.preprocessed tool.old)
        × (T.failed tool.new ≡ T.failed tool.old)) }
    ensures runs { let a = account_named (T.meaning tool.old) (F.tree files.old) config.now
        request.now (by_c (found_of compiler.entry)) in
        RunsOf a false result (T.preprocessed tool.old) (T.preprocessed tool.new) }
    ensures compiles { T.compiled tool.new ≡ T.compiled tool.old }
    ensures untouched { Untouched T.Preprocessor F.Files
        tool.old files.old tool.new files.new result }
{
    match judge(alloc, compiler, request, files)? {
        Verdict::Passes(reason) => Ok(Err(reason)),
        Verdict::Asks(plan) => {
            let parsed = &plan.parsed;
            let made = c_fingerprint::<H, F, T>(
                alloc, config, compiler, request, parsed, files, tool,
            );
            drop(plan);
            Ok(Ok(made?))
        }
    }
}

/// What a request to this rustc comes to: why it is passed through, or its fingerprint.
fn of_rustc<H: HashState, F: Files, T: Tool>(
    alloc: Global,
    rust: &Rust,
    request: &Request,
    files: &mut F,
    tool: &mut T,
) -> Result<Result<Fingerprint, Reason>, Fault>
    ensures tells { let a = rust_account_by (T.meaning tool.old) (F.tree files.old) rust.now
        request.now (rust_verdict_of request.now (F.tree files.old)) in
        Tells H.digest_of a (FilesFail F.Files files.old files.new)
        (ToolFails T.Preprocessor tool.old tool.new) result }
    ensures quiet { OnReason result
        ((T.preprocessed tool.new ≡ T.preprocessed tool.old)
        × (T.failed tool.new ≡ T.failed tool.old)) }
    ensures runs { let a = rust_account_by (T.meaning tool.old) (F.tree files.old) rust.now
        request.now (rust_verdict_of request.now (F.tree files.old)) in
        RunsOf a false result (T.preprocessed tool.old) (T.preprocessed tool.new) }
    ensures no_text { is_text request.now ≡ false → files.new ≡ files.old }
    ensures compiles { T.compiled tool.new ≡ T.compiled tool.old }
    ensures untouched { Untouched T.Preprocessor F.Files
        tool.old files.old tool.new files.new result }
{
    match judge_rust(alloc, rust, request, files)? {
        RustVerdict::Passes(reason) => Ok(Err(reason)),
        RustVerdict::Asks(parsed) => {
            let made = rust_fingerprint::<H, F, T>(alloc, rust, request, &parsed, files, tool);
            drop(parsed);
            Ok(Ok(made?))
        }
    }
}

/// The fingerprint of a request on these files by that tool, under that configuration, or why it is passed through. No store is asked
/// and nothing is compiled; where include records are kept none of them is used, so the text is printed.
///
/// Refused as a call of the request is refused before its compile.
pub fn request_fingerprint<H: HashState, F: Files, T: Tool>(
    alloc: Global,
    config: &KeyConfig,
    request: &Request,
    files: &mut F,
    tool: &mut T,
) -> Result<Result<Fingerprint, Reason>, Fault>
    // The parts are those of the request's record, with digests for files' contents; it is passed through exactly where the verdict
    // says, unless memory was refused first; a fault has its cause.
    ensures tells { let a = account_at (T.meaning tool.old) (F.tree files.old) config.now
        request.now in
        Tells H.digest_of a (FilesFail F.Files files.old files.new)
        (ToolFails T.Preprocessor tool.old tool.new) result }
    // A pass moves no tick.
    ensures quiet { OnReason result
        ((T.preprocessed tool.new ≡ T.preprocessed tool.old)
        × (T.failed tool.new ≡ T.failed tool.old)) }
    // A request to rustc that isn't UTF-8 touches no file.
    ensures no_text { is_rust_no_text (named_by request.now.compiler) request.now ≡ true
        → files.new ≡ files.old }
    // The text is printed once where there is one to print, and rustc asked twice; before a fault as far as the call came.
    ensures runs { let a = account_at (T.meaning tool.old) (F.tree files.old) config.now
        request.now in
        RunsOf a false result (T.preprocessed tool.old) (T.preprocessed tool.new) }
    ensures compiles { T.compiled tool.new ≡ T.compiled tool.old }
    // Files and meaning stay as they are, and no I/O error occurred unless a fault reports it.
    ensures untouched { Untouched T.Preprocessor F.Files
        tool.old files.old tool.new files.new result }
{
    match request.compiler.named() {
        Named::C(compiler) => of_c::<H, F, T>(alloc, config, compiler, request, files, tool),
        Named::Rustc(rust) => of_rustc::<H, F, T>(alloc, rust, request, files, tool),
    }
}
