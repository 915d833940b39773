//! The verdict on a request to rustc: it is passed through, or this is asked for.

ghost use Rattle.std.specs.Prelude.{◌≡◌, false, IfOk, IfErr};
ghost use Rattle.std.specs.List.{list_all};
ghost use Rattle.std.specs.Str.{is_utf8};
ghost use Rattle.base_files.specs.Views.{FilesFail};
ghost use Rattle.rustc_options.specs.Asks.{asks_in};
ghost use Rattle.wrap_base.specs.Commands.{by_rustc};
ghost use Rattle.wrap_keys.specs.Answers.{EarlyCause};
ghost use Rattle.wrap_keys.specs.Early.{IsAskedEarly};
ghost use Rattle.wrap_keys.specs.RustPlans.{OnAsks, OpensNothing, judgement_of};
ghost use Rattle.wrap_keys.specs.RustVerdicts.{is_text, is_text_variable, opens_words, rust_verdict_of, with_hazards};
ghost use Rattle.ckeys_records.specs.Untouched.{FilesUntouched};

use base_files::{Files, OsBytes};
use ckeys_records::Fault;
use cmdlines_base::CompilerArguments;
use cmdlines_response_files::ParseFault;
use rustc_compiler::Rust;
use rustc_options::parsed::ParsedArguments;
use rustc_texts::{commands_open_nothing, compile_words};
use std::alloc::{AllocError, Global};
use wrap_base::{Reason, Request};

/// What a request to rustc comes to by its words: it is passed through, or it asks for this.
#[derive(Drop)]
pub enum RustVerdict {
    Passes(Reason),
    Asks(ParsedArguments),
}

#[tactic(auto, using(crate::proofs::Utf8Lemmas::text_is, crate::proofs::Utf8Lemmas::text_is_not))]
fn is_utf8(bytes: &[u8]) -> bool
    ensures { result ≡ is_utf8 bytes.now }
{
    match str::from_utf8(bytes) {
        Ok(_) => true,
        Err(_) => false,
    }
}

/// Whether all of these words are UTF-8.
fn are_text(words: &[OsBytes]) -> bool
    ensures { result ≡ list_all is_utf8 words.now }
{
    words.iter().all(|word| is_utf8(word.as_bytes()))
}

/// Whether the name and the value of a variable are UTF-8.
fn is_text_variable(pair: &(OsBytes, OsBytes)) -> bool
    ensures { result ≡ is_text_variable pair.now }
{
    is_utf8(pair.0.as_bytes()) && is_utf8(pair.1.as_bytes())
}

/// Whether the names and values of these variables are UTF-8.
fn are_text_variables(env: &[(OsBytes, OsBytes)]) -> bool
    ensures { result ≡ list_all is_text_variable env.now }
{
    env.iter().all(|pair| is_text_variable(pair))
}

/// Whether its words, its directory, and the names and values of its variables are UTF-8. It takes no memory.
fn is_text(request: &Request) -> bool
    ensures { result ≡ is_text request.now }
{
    are_text(request.words.as_slice())
        && (is_utf8(request.dir.as_bytes()) && are_text_variables(request.env.as_slice()))
}

/// Whether a word with which it is compiled would make rustc open a response file.
fn opens_words(alloc: Global, parsed: &ParsedArguments) -> Result<bool, AllocError>
    ensures { IfOk result (λ opens. opens ≡ opens_words (asks_in parsed.now)) }
{
    let words = compile_words(alloc, parsed)?;
    let list = words.as_slice();
    Ok(list.iter().any(|word| word.as_bytes().starts_with(b"@")))
}

/// The verdict on a request that asks for this: whether a word of its compile names a response file.
fn after_hazards(alloc: Global, parsed: ParsedArguments) -> Result<RustVerdict, AllocError>
    ensures verdict { IfOk result
        (λ verdict. judgement_of verdict ≡ with_hazards (asks_in parsed)) }
    ensures opens { IfOk result (λ verdict. OnAsks verdict OpensNothing) }
{
    // A law, which costs nothing: what follows from it is said above.
    commands_open_nothing();
    match opens_words(alloc, &parsed) {
        Ok(false) => Ok(RustVerdict::Asks(parsed)),
        Ok(true) => {
            drop(parsed);
            Ok(RustVerdict::Passes(Reason::OpensFile))
        }
        Err(error) => {
            drop(parsed);
            Err(error)
        }
    }
}

/// The verdict on a request to this rustc, with the response files that it names opened. What isn't UTF-8 is found before any file
/// is touched.
pub fn judge_rust<F: Files>(
    alloc: Global,
    rust: &Rust,
    request: &Request,
    files: &mut F,
) -> Result<RustVerdict, Fault>
    ensures verdict { IfOk result
        (λ verdict. judgement_of verdict ≡ rust_verdict_of request.now (F.tree files.old)) }
    // None of the commands of what is asked for makes rustc open a response file.
    ensures opens { IfOk result (λ verdict. OnAsks verdict OpensNothing) }
    ensures no_text { is_text request.now ≡ false → files.new ≡ files.old }
    ensures cause { IfErr result
        (EarlyCause (FilesFail F.Files files.old files.new)) }
    // No file is asked for but those that the words ask for.
    ensures asked { IfErr result
        (EarlyCause (IsAskedEarly (by_rustc rust.now) request.now (F.tree files.old))) }
    ensures untouched { FilesUntouched F.Files files.old files.new result }
{
    if !is_text(request) {
        return Ok(RustVerdict::Passes(Reason::NotUtf8));
    }
    let words = request.words.as_slice();
    match rust.parse_arguments(alloc, words, &request.dir, files) {
        Ok(CompilerArguments::Ok(parsed)) => Ok(after_hazards(alloc, parsed)?),
        Ok(CompilerArguments::NotCompilation) => Ok(RustVerdict::Passes(Reason::NotCompilation)),
        Ok(CompilerArguments::CannotCache(reason, more)) => {
            Ok(RustVerdict::Passes(Reason::CannotCache(reason, more)))
        }
        Err(ParseFault::Memory) => Err(Fault::Memory),
        Err(ParseFault::Read(path)) => Err(Fault::Read(path)),
    }
}
