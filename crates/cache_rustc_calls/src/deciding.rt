//! The decision on one call of rustc: the session is asked again and again, each time with more that is known.

ghost use Rattle.std.specs.Prelude.{◌≡◌, ◌≤◌};

use crate::finishing::{give, have_places, keep_made, paths_of};
use base_blake2::Blake2b256;
use base_files::{Listed, OsBytes};
use cache_host::{Additions, CommandLine, Host, HostError, into_text};
use cache_rustc_known::KnownCrate;
use cache_rustc_requests::{
    FoundCrate, PartRows, additions_of, found, reason_against, rustc_at, toolchain_word,
    variable_of, variables_of,
};
use cache_source_files::Audit;
use ckeys_records::{ConfigError, Fault, Step};
use ckeys_time_macros::Zone;
use cmdlines_base::CompilerArguments;
use cmdlines_response_files::ParseFault;
use rustc_compiler::Rust;
use rustc_options::parsed::ParsedArguments;
use rustkeys_base::parse::parse_arguments;
use std::alloc::Global;
use std::fs::File;
use std::io::Read;
use std::rt::Files;
use wrap_base::store_key::StoreKey;
use wrap_base::{Answer, Compiler, Config, How, Output, Request};
use wrap_replay::{SessionAnswer, answered, session_over};

/// What a call came to: the outputs are there, or rustc is to run, or its status is the answer where it ran, and why.
#[derive(Drop)]
pub enum RustcWhat {
    Done(How),
    Pass(String),
}

/// What a call came to, and what comparing showed where it was a hit that was compiled too.
#[derive(Drop)]
pub struct RustcEnd {
    pub what: RustcWhat,
    pub audit: Audit,
    /// What differed from the call before it, where it was compiled.
    pub why: Option<String>,
}

impl RustcEnd {
    /// A pass for that reason.
    fn pass(reason: String) -> RustcEnd {
        RustcEnd {
            what: RustcWhat::Pass(reason),
            audit: Audit::None,
            why: None,
        }
    }
}

/// How often a session is asked, each time with more that is known.
const ATTEMPTS: u32 = 64;

/// How many files words may name that are looked at as they are parsed.
const FILES_OF_WORDS: u32 = 64;

/// The words that are passed to the session: without the one that names a toolchain.
fn words_of(line: &CommandLine) -> &[OsBytes] {
    let words = line.words.as_slice();
    match (toolchain_word(words), words.split_first()) {
        (Some(_), Some((_, rest))) => rest,
        (_, _) => words,
    }
}

/// What the words come to, with the files that they name.
fn parse<R: Files + AllocGlobal>(
    rt: &R,
    line: &CommandLine,
    words: &[OsBytes],
    known: &mut KnownCrate,
) -> Result<CompilerArguments<ParsedArguments>, HostError> {
    for _ in 0..FILES_OF_WORDS {
        match parse_arguments(rt.alloc(), words, &line.dir, &mut known.files) {
            Ok(arguments) => return Ok(arguments),
            Err(ParseFault::Memory) => return Err(HostError::Memory),
            Err(ParseFault::Read(path)) => known.load_file(rt, path)?,
        }
    }
    Err(HostError::Unreadable)
}

/// A pass for that reason, as the session reports it.
fn pass(alloc: Global, reason: &str, more: Option<String>) -> Result<RustcEnd, HostError> {
    let reason = match more {
        Some(more) => format!(in alloc; "pass: {reason}: {}", more.as_str())?,
        None => format!(in alloc; "pass: {reason}")?,
    };
    Ok(RustcEnd::pass(reason))
}

/// The target that a word names.
fn target_in(alloc: Global, words: &[OsBytes]) -> Result<Option<String>, HostError> {
    let mut is_next = false;
    for word in words {
        let word = word.as_bytes();
        if is_next {
            let target = OsBytes::from_slice(alloc, word)?;
            return Ok(Some(into_text(target)?));
        }
        is_next = word == b"--target".as_slice();
        if let Some(target) = word.strip_prefix(b"--target=".as_slice()) {
            let target = OsBytes::from_slice(alloc, target)?;
            return Ok(Some(into_text(target)?));
        }
    }
    Ok(None)
}

/// Copies of words.
fn copies(alloc: Global, words: &[OsBytes]) -> Result<Listed<OsBytes>, HostError> {
    let mut copies = Listed::new(alloc);
    for word in words {
        copies.push(word.clone()?)?;
    }
    Ok(copies)
}

/// Copies of the words and the folder of a call.
fn words_and_dir(
    alloc: Global,
    line: &CommandLine,
) -> Result<(Listed<OsBytes>, OsBytes), HostError> {
    let words = copies(alloc, words_of(line))?;
    Ok((words, line.dir.clone()?))
}

/// Notes of what the key of a request is made, but for its files.
fn note_request(
    alloc: Global,
    rust: &Rust,
    words: &[OsBytes],
    env: &[(OsBytes, OsBytes)],
    additions: &Additions,
    parts: &mut PartRows,
) -> Result<(), HostError> {
    for digest in rust.toolchain_digests() {
        parts.add(alloc, "toolchain", digest.as_bytes())?;
    }
    for (number, word) in words.iter().enumerate() {
        let name = format!(in alloc; "word {}", number.saturating_add(1))?;
        parts.add(alloc, name.as_str(), word.as_bytes())?;
    }
    parts.add_all(additions.again(alloc)?)?;
    for (name, value) in env {
        let name = format!(in alloc; "{name}")?;
        parts.add(alloc, name.as_str(), value.as_bytes())?;
    }
    Ok(())
}

/// The variables of a request, with what is bound to its key, of which is noted what it is made of.
fn env_of<R: Files + AllocGlobal>(
    rt: &R,
    line: &CommandLine,
    rust: &Rust,
    known: &mut KnownCrate,
) -> Result<Listed<(OsBytes, OsBytes)>, HostError> {
    let alloc = rt.alloc();
    let words = words_of(line);
    let additions = additions_of(rt, line, words, &mut known.files)?;
    let mut env = variables_of(alloc, line)?;
    let parts = &mut known.parts;
    note_request(alloc, rust, words, env.as_slice(), &additions, parts)?;
    env.push(variable_of(alloc, &additions)?)?;
    Ok(env)
}

/// The request of a call with these variables to that rustc.
fn request_with(
    alloc: Global,
    line: &CommandLine,
    rust: Rust,
    env: Listed<(OsBytes, OsBytes)>,
) -> Result<Request, HostError> {
    let (words, dir) = words_and_dir(alloc, line)?;
    Ok(Request {
        compiler: Compiler::Rust(rust),
        words,
        dir,
        env,
        moment: line.second(),
    })
}

/// The request of a call to that rustc, whose crates are loaded. In a box, so that no other function has to hold it.
fn request_of<R: Files + AllocGlobal>(
    rt: &R,
    line: &CommandLine,
    rust: Rust,
    known: &mut KnownCrate,
) -> Result<Box<Request>, HostError> {
    let env = env_of(rt, line, &rust, known)?;
    let request = request_with(rt.alloc(), line, rust, env)?;
    Ok(Box::new(rt.alloc(), request)?)
}

/// What the session answers by what is known.
fn answer_by(
    alloc: Global,
    request: &Request,
    known: &mut KnownCrate,
) -> Result<SessionAnswer<Blake2b256>, HostError> {
    let config = match Config::new(alloc, &[], Zone::utc(), false, None) {
        Ok(config) => config,
        Err(ConfigError::Memory) => return Err(HostError::Memory),
        Err(ConfigError::BadFolder(_)) => return Err(HostError::Folder),
    };
    let pair = match known.found.take() {
        Some(FoundCrate { pair, errors }) => {
            known.found_errors = Some(OsBytes::from_vec(errors));
            Some(pair)
        }
        None => None,
    };
    let session = session_over::<Blake2b256>(alloc, config, None, pair);
    Ok(answered(session, request, &mut known.files, &mut known.tool))
}

/// Asks the disk for the key that the store was asked for, once. False where it has nothing.
fn look_up<R: Files + AllocGlobal>(
    rt: &R,
    line: &CommandLine,
    key: Option<&StoreKey>,
    known: &mut KnownCrate,
) -> Result<bool, HostError> {
    let Some(key) = key else {
        return Ok(false);
    };
    if known.looked_up.as_ref() == Some(&key.digest) {
        return Ok(false);
    }
    known.looked_up = Some(key.digest.clone()?);
    known.found = found(rt, line, key, known.wishes())?;
    Ok(known.found.is_some())
}

/// Finds out what a fault says is lacking. False where nothing is.
fn find_out<P: Print + Files<File = File> + AllocGlobal, I: Read>(
    rt: &P,
    line: &CommandLine,
    host: &mut Host<I>,
    request: &Request,
    fault: &Fault,
    answered: &SessionAnswer<Blake2b256>,
    known: &mut KnownCrate,
) -> Result<bool, HostError>
    requires { host.old.compiled ≤ 1 }
    ensures { host.new.compiled ≤ 1 }
{
    match fault {
        Fault::Read(path) => known.load_once(rt, path.clone()?),
        Fault::Tool(Step::ArchiveDigest) => known.take_library(rt, line),
        Fault::Tool(Step::Compile) => {
            let key = answered.session.objects().asked();
            if look_up(rt, line, key, known)? {
                return Ok(true);
            }
            known.compile(rt, line, host, key)
        }
        Fault::Tool(Step::FileNames) => known.learn_names(rt, line, host, request),
        _ => Ok(false),
    }
}

/// Gives outputs that were kept. None where they are to be compiled too, and are a miss from now on.
fn act_on_hit<P: Files<File = File> + AllocGlobal>(
    rt: &P,
    line: &CommandLine,
    key: &StoreKey,
    how: How,
    outputs: &[Output],
    dep_info: Option<&OsBytes>,
    known: &mut KnownCrate,
) -> Result<Option<RustcEnd>, HostError> {
    let paths = paths_of(rt.alloc(), line, outputs)?;
    if !have_places(rt, paths.as_slice(), known.dep_info.as_ref())? {
        return Ok(Some(pass(rt.alloc(), "output is no plain file", None)?));
    }
    if known.is_to_audit(rt.alloc(), line, key, how, outputs, dep_info)? {
        return Ok(None);
    }
    give(rt, line, key, outputs, paths.as_slice(), dep_info, known)?;
    Ok(Some(RustcEnd {
        what: RustcWhat::Done(how),
        audit: Audit::None,
        why: None,
    }))
}

/// Keeps outputs that were made, unless they were made in the place of a hit, with which they are compared.
fn act_on_fresh<P: Files<File = File> + AllocGlobal>(
    rt: &P,
    line: &CommandLine,
    key: &StoreKey,
    outputs: &[Output],
    dep_info: Option<&OsBytes>,
    known: &mut KnownCrate,
) -> Result<Option<RustcEnd>, HostError> {
    let audit = known.compare(rt, line, outputs)?;
    let how = match (&audit, &known.audited) {
        (Audit::Alike, Some(audited)) => audited.how,
        (_, _) => How::Fresh,
    };
    let mut why = None;
    if known.audited.is_none() {
        keep_made(rt, line, key, outputs, dep_info, known)?;
        // What was made is there, whatever becomes of this.
        why = known.note_parts(rt, line).ok();
    }
    let what = RustcWhat::Done(how);
    Ok(Some(RustcEnd { what, audit, why }))
}

/// Acts on outputs with which the session answered. None where they are compiled too.
fn act_on_outputs<P: Files<File = File> + AllocGlobal>(
    rt: &P,
    line: &CommandLine,
    answered: &SessionAnswer<Blake2b256>,
    known: &mut KnownCrate,
) -> Result<Option<RustcEnd>, HostError> {
    let Ok(Answer::Outputs { map, how, dep_info }) = &answered.answer else {
        return Ok(None);
    };
    let Some(key) = answered.session.objects().asked() else {
        return Err(HostError::Unreadable);
    };
    let outputs = map.as_slice();
    let dep_info = dep_info.as_ref();
    match how {
        How::Fresh => act_on_fresh(rt, line, key, outputs, dep_info, known),
        _ => act_on_hit(rt, line, key, *how, outputs, dep_info, known),
    }
}

/// Ends the comparison of a hit where the compile in its place failed.
fn end_audit<R: Files<File = File> + AllocGlobal>(
    rt: &R,
    line: &CommandLine,
    known: &KnownCrate,
    end: RustcEnd,
) -> Result<RustcEnd, HostError> {
    let RustcEnd { what, audit, why } = end;
    let audit = match &what {
        RustcWhat::Pass(_) if known.audited.is_some() => {
            known.differs(rt, line, String::from_str(rt.alloc(), "status")?)?
        }
        _ => audit,
    };
    Ok(RustcEnd { what, audit, why })
}

/// Acts on what the session answered. None where more is known then.
fn act_on<P: Print + Files<File = File> + AllocGlobal, I: Read>(
    rt: &P,
    line: &CommandLine,
    host: &mut Host<I>,
    request: &Request,
    answered: &SessionAnswer<Blake2b256>,
    known: &mut KnownCrate,
) -> Result<Option<RustcEnd>, HostError>
    requires { host.old.compiled ≤ 1 }
    ensures { host.new.compiled ≤ 1 }
{
    let alloc = rt.alloc();
    match &answered.answer {
        Ok(Answer::Outputs { .. }) => act_on_outputs(rt, line, answered, known),
        Ok(Answer::Pass(reason)) => {
            Ok(Some(RustcEnd::pass(format!(in alloc; "pass: {reason}")?)))
        }
        Err(fault) => {
            if find_out(rt, line, host, request, fault, answered, known)? {
                return Ok(None);
            }
            Ok(Some(RustcEnd::pass(format!(in alloc; "fault: {fault}")?)))
        }
    }
}

/// One attempt. None where more is known after it.
fn attempt<P: Print + Files<File = File> + AllocGlobal, I: Read>(
    rt: &P,
    line: &CommandLine,
    host: &mut Host<I>,
    request: &Request,
    known: &mut KnownCrate,
) -> Result<Option<RustcEnd>, HostError>
    requires { host.old.compiled ≤ 1 }
    ensures { host.new.compiled ≤ 1 }
{
    let answered = answer_by(rt.alloc(), request, known)?;
    let end = act_on(rt, line, host, request, &answered, known);
    drop(answered);
    end
}

/// Asks the session about the request until it answers, each time with more that is known.
fn ask_until<P: Print + Files<File = File> + AllocGlobal, I: Read>(
    rt: &P,
    line: &CommandLine,
    host: &mut Host<I>,
    request: &Request,
    known: &mut KnownCrate,
) -> Result<RustcEnd, HostError>
    requires { host.old.compiled ≤ 1 }
    // However often the session is asked, the host compiles at most once.
    ensures once { host.new.compiled ≤ 1 }
{
    for _ in 0..ATTEMPTS {
        let end = attempt(rt, line, host, request, known)?;
        if let Some(end) = end {
            return Ok(end);
        }
    }
    Ok(RustcEnd::pass(String::from_str(rt.alloc(), "fault: too many attempts")?))
}

/// Asks the session about a request, of which it is learned first what the crate is made of.
fn ask_with<P: Print + Files<File = File> + AllocGlobal, I: Read>(
    rt: &P,
    line: &CommandLine,
    host: &mut Host<I>,
    request: &mut Request,
    parsed: &ParsedArguments,
    known: &mut KnownCrate,
) -> Result<RustcEnd, HostError>
    requires { host.old.compiled ≡ 0 }
    ensures once { host.new.compiled ≤ 1 }
{
    known.learn_sources(rt, line, host, request, parsed)?;
    let end = ask_until(rt, line, host, request, known)?;
    end_audit(rt, line, known, end)
}

/// Asks the session about a call to that rustc, whose crates are loaded.
fn ask_of<P: Print + Files<File = File> + AllocGlobal, I: Read>(
    rt: &P,
    line: &CommandLine,
    host: &mut Host<I>,
    rust: Rust,
    parsed: &ParsedArguments,
    known: &mut KnownCrate,
) -> Result<RustcEnd, HostError>
    requires { host.old.compiled ≡ 0 }
    ensures once { host.new.compiled ≤ 1 }
{
    let mut request = request_of(rt, line, rust, known)?;
    ask_with(rt, line, host, request.as_mut(), parsed, known)
}

/// Asks the session about a call whose words come to that.
fn ask_about<P: Print + Files<File = File> + AllocGlobal, I: Read>(
    rt: &P,
    line: &CommandLine,
    host: &mut Host<I>,
    parsed: &ParsedArguments,
    known: &mut KnownCrate,
) -> Result<RustcEnd, HostError>
    requires { host.old.compiled ≡ 0 }
    ensures once { host.new.compiled ≤ 1 }
{
    let alloc = rt.alloc();
    let words = words_of(line);
    known.take_words(alloc, line, words, parsed)?;
    known.load_crates(rt, line, parsed)?;
    let target = target_in(alloc, words)?;
    let rust = rustc_at(rt, line, host, target.as_deref())?;
    ask_of(rt, line, host, rust, parsed, known)
}

/// Parses the words of a call, and asks the session where they ask for what can be kept.
fn ask_parsed<P: Print + Files<File = File> + AllocGlobal, I: Read>(
    rt: &P,
    line: &CommandLine,
    host: &mut Host<I>,
    known: &mut KnownCrate,
) -> Result<RustcEnd, HostError>
    requires { host.old.compiled ≡ 0 }
    ensures once { host.new.compiled ≤ 1 }
{
    match parse(rt, line, words_of(line), known)? {
        CompilerArguments::Ok(parsed) => {
            let end = ask_about(rt, line, host, &parsed, known);
            drop(parsed);
            end
        }
        CompilerArguments::NotCompilation => pass(rt.alloc(), "not a compilation", None),
        CompilerArguments::CannotCache(reason, more) => pass(rt.alloc(), reason, more),
    }
}

/// Decides on a command line of rustc.
pub fn decide_on_rustc<P: Print + Files<File = File> + AllocGlobal, I: Read>(
    rt: &P,
    line: &CommandLine,
    host: &mut Host<I>,
) -> Result<RustcEnd, HostError>
    requires { host.old.compiled ≡ 0 }
    // The host is asked to compile at most once, whatever it, the disk and rustc do.
    ensures once { host.new.compiled ≤ 1 }
{
    let alloc = rt.alloc();
    if let Some(reason) = reason_against(rt, line, words_of(line))? {
        return pass(alloc, reason.as_str(), None);
    }
    let mut known = Box::new(alloc, KnownCrate::new(alloc))?;
    ask_parsed(rt, line, host, known.as_mut())
}
