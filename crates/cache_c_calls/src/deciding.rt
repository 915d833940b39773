//! The decision on one call of a C compiler: the session is asked again and again, each time with more that is known.

ghost use Rattle.std.specs.Prelude.{◌≡◌, ◌≤◌};

use crate::finding::{find_out, lacking_by, load_ahead};
use crate::finishing::{keep_or_give, paths_of};
use base_blake2::Blake2b256;
use base_files::{Listed, OsBytes};
use cache_c_known::{Given, Known, hint_name};
use cache_c_requests::{Call, call_of, kind_of, reason_against};
use cache_c_why::note_fingerprint;
use cache_files::results::Kept;
use cache_format::KeptMessages;
use cache_host::{CommandLine, Host, HostError};
use cache_known_options::{Beside, PlacedWords};
use cache_settings::Key;
use cache_source_files::{Audit, have_plain_places};
use cache_statistics::CallFacts;
use cache_watch_lists::Unwatched;
use ckeys_records::ConfigError;
use ckeys_time_macros::Zone;
use cmdlines_tables::CCompilerKind;
use std::alloc::Global;
use std::fs;
use std::fs::File;
use std::io::Read;
use std::os::unix::fs::MetadataExt;
use std::rt::Files;
use wrap_base::store_key::StoreKey;
use wrap_base::{Answer, Config, How, Request};
use wrap_fingerprints::request_fingerprint;
use wrap_replay::{SessionAnswer, answered, session_over};

/// What a call came to.
#[derive(Drop)]
pub enum What {
    /// The outputs are there: kept ones, or those that the compiler made; and why no manifest says of what the text is made, if so.
    Done(How, Option<Unwatched>),
    /// The compiler is to run, or its status is the answer where it ran; and why.
    Pass(String),
}

/// What a call came to, and what comparing showed where it was a hit that was compiled too.
#[derive(Drop)]
pub struct End {
    pub what: What,
    pub audit: Audit,
    /// What a log says of it beside that.
    pub facts: CallFacts,
}

impl End {
    /// A pass for that reason.
    pub fn pass(reason: String) -> End {
        End {
            what: What::Pass(reason),
            audit: Audit::None,
            facts: CallFacts::nothing(),
        }
    }
}

/// What the session is asked about, again and again.
#[derive(Clone, Copy)]
pub(crate) struct AskedCall<'a> {
    pub(crate) line: &'a CommandLine,
    pub(crate) request: &'a Request,
    /// The name of its hint.
    pub(crate) hint: &'a str,
}

/// How often a request is tried, each time with more that is known.
const ATTEMPTS: u32 = 64;

/// A pass for that reason.
fn pass(alloc: Global, reason: &str) -> Result<End, HostError> {
    Ok(End::pass(String::from_str(alloc, reason)?))
}

/// What is fixed for a session: which folders don't count, and in direct mode the zone in which days are given. Outputs of any size are
/// kept: `cache_dir` has a rule of its own on what is larger than most of its limit.
fn config_of(
    alloc: Global,
    basedirs: &[OsBytes],
    zone: &Option<Zone>,
) -> Result<Config, HostError> {
    let config = match zone {
        Some(zone) => Config::new(alloc, basedirs, *zone, true, None),
        None => Config::new(alloc, basedirs, Zone::utc(), false, None),
    };
    match config {
        Ok(config) => Ok(config),
        Err(ConfigError::Memory) => Err(HostError::Memory),
        Err(ConfigError::BadFolder(_)) => Err(HostError::Folder),
    }
}

/// What the session answers by what is known, with what was printed beside the kept outputs that it had for it.
fn answer_by(
    alloc: Global,
    request: &Request,
    known: &mut Known,
) -> Result<(SessionAnswer<Blake2b256>, Option<KeptMessages>), HostError> {
    let config = config_of(alloc, known.basedirs.as_slice(), &known.zone)?;
    let kept_manifest = known.manifest_again()?;
    let (entry, messages) = match known.entry.take() {
        Some(Kept { pair, messages }) => (Some(pair), Some(messages)),
        None => (None, None),
    };
    let session = session_over::<Blake2b256>(alloc, config, kept_manifest, entry);
    let answer = answered(session, request, &mut known.files, &mut known.tool);
    Ok((answer, messages))
}

/// What becomes of outputs with which the session answered.
enum Turn {
    /// They are the answer.
    Give,
    /// More is known now, so the session is asked again.
    Ask,
    /// They were kept, and for that reason they aren't put where they belong: only the compiler writes there as it does, or refuses to.
    Pass(&'static str),
}

/// The file that lies under a path, by its device and its number there, where there is one.
fn file_at<R: Files>(rt: &R, path: &OsBytes) -> Option<(u64, u64)> {
    let path = str::from_utf8(path.as_bytes()).ok()?;
    let found = fs::metadata(rt, path).ok()?;
    Some((found.dev(), found.ino()))
}

/// Whether that file is an input of the call.
fn is_input<R: Files>(rt: &R, line: &CommandLine, file: (u64, u64)) -> bool {
    for placed in PlacedWords::of(line.words.as_slice()) {
        if placed.is_input() && matches!(file_at(rt, placed.word), Some(found) if found == file) {
            return true;
        }
    }
    false
}

/// Whether one of these paths is an input's, which compilers refuse to write over.
fn are_inputs<R: Files>(rt: &R, line: &CommandLine, paths: &[OsBytes]) -> bool {
    for path in paths {
        if let Some(file) = file_at(rt, path) {
            if is_input(rt, line, file) {
                return true;
            }
        }
    }
    false
}

/// What becomes of kept outputs.
fn turn_of<R: Files + AllocGlobal>(
    rt: &R,
    call: AskedCall<'_>,
    key: Option<&StoreKey>,
    given: &Given<'_>,
    known: &mut Known,
) -> Result<Turn, HostError> {
    let messages = given.messages;
    if !known.may_go_by_manifest(rt, call.line, key, messages)?
        || !known.may_give(rt, key, messages)?
    {
        return Ok(Turn::Ask);
    }
    let paths = known.with_side_paths(&paths_of(rt.alloc(), given.outputs)?)?;
    if !have_plain_places(rt, paths.as_slice())? {
        return Ok(Turn::Pass("pass: output is no plain file"));
    }
    if are_inputs(rt, call.line, paths.as_slice()) {
        return Ok(Turn::Pass("pass: output is an input"));
    }
    match known.is_to_audit(rt.alloc(), call.line, call.hint, key, given)? {
        true => Ok(Turn::Ask),
        false => Ok(Turn::Give),
    }
}

/// Acts on outputs with which the session answered. None where more is known then.
fn act_on_outputs<P: Print + Files<File = File> + AllocGlobal, I: Read>(
    rt: &P,
    call: AskedCall<'_>,
    host: &mut Host<I>,
    answered: &SessionAnswer<Blake2b256>,
    given: &Given<'_>,
    known: &mut Known,
) -> Result<Option<End>, HostError>
    ensures { host.new.compiled ≡ host.old.compiled }
{
    let key = answered.session.objects().asked();
    let turn = match given.how {
        How::Fresh => Turn::Give,
        _ => turn_of(rt, call, key, given, known)?,
    };
    match turn {
        Turn::Give => Ok(Some(keep_or_give(rt, call, host, answered, given, known)?)),
        Turn::Ask => Ok(None),
        Turn::Pass(reason) => Ok(Some(pass(rt.alloc(), reason)?)),
    }
}

/// Acts on what the session answered, and on what was printed beside the kept outputs that it had for it. None where more is known then.
fn act_on<P: Print + Files<File = File> + AllocGlobal, I: Read>(
    rt: &P,
    call: AskedCall<'_>,
    host: &mut Host<I>,
    answered: &SessionAnswer<Blake2b256>,
    messages: Option<&KeptMessages>,
    known: &mut Known,
) -> Result<Option<End>, HostError>
    requires { host.old.compiled ≤ 1 }
    ensures { host.new.compiled ≤ 1 }
{
    let alloc = rt.alloc();
    match &answered.answer {
        Ok(Answer::Outputs { map, how, .. }) => {
            let given = Given {
                how: *how,
                outputs: map.as_slice(),
                messages,
            };
            act_on_outputs(rt, call, host, answered, &given, known)
        }
        Ok(Answer::Pass(reason)) => Ok(Some(End::pass(format!(in alloc; "pass: {reason}")?))),
        Err(fault) => {
            if find_out(rt, call, host, lacking_by(fault, answered), known)? {
                return Ok(None);
            }
            Ok(Some(End::pass(format!(in alloc; "fault: {fault}")?)))
        }
    }
}

/// One attempt. None where more is known after it.
fn attempt<P: Print + Files<File = File> + AllocGlobal, I: Read>(
    rt: &P,
    call: AskedCall<'_>,
    host: &mut Host<I>,
    known: &mut Known,
) -> Result<Option<End>, HostError>
    requires { host.old.compiled ≤ 1 }
    ensures { host.new.compiled ≤ 1 }
{
    let (answered, messages) = answer_by(rt.alloc(), call.request, known)?;
    let end = act_on(rt, call, host, &answered, messages.as_ref(), known);
    let noted = match &end {
        Ok(None) => known.take_put(answered.session.entries().newest()),
        _ => Ok(()),
    };
    drop(answered);
    drop(messages);
    noted?;
    end
}

/// Asks the session about a call until it answers, each time with more that is known.
fn ask_until<P: Print + Files<File = File> + AllocGlobal, I: Read>(
    rt: &P,
    call: AskedCall<'_>,
    host: &mut Host<I>,
    known: &mut Known,
) -> Result<End, HostError>
    requires { host.old.compiled ≤ 1 }
    // However often the session is asked, the host compiles at most once.
    ensures once { host.new.compiled ≤ 1 }
{
    for number in 0..ATTEMPTS {
        if number == 1 {
            load_ahead(rt, call, known)?;
        }
        let end = attempt(rt, call, host, known)?;
        if let Some(end) = end {
            return Ok(end);
        }
    }
    pass(rt.alloc(), "fault: too many attempts")
}

/// The zone in which days are given, where direct mode is asked for.
fn zone_of(line: &CommandLine) -> Option<Zone> {
    if !line.settings.is_on(Key::DirectMode) {
        return None;
    }
    Zone::new(line.zone.as_str()).ok()
}

/// The folders that don't count: those that are set, with colons between them.
fn basedirs_of(alloc: Global, line: &CommandLine) -> Result<Listed<OsBytes>, HostError> {
    let mut folders = Listed::new(alloc);
    for folder in line.settings.value_of(Key::BaseDir).split(':') {
        if !folder.is_empty() {
            folders.push(OsBytes::from_slice(alloc, folder.as_bytes())?)?;
        }
    }
    Ok(folders)
}

/// Whether the compiler made the outputs, and they were kept.
fn was_compiled(end: &Result<End, HostError>) -> bool {
    match end {
        Ok(end) => matches!(end.what, What::Done(How::Fresh, _)),
        Err(_) => false,
    }
}

/// Ends the comparison of a hit where the compile in its place failed.
fn end_audit<R: Files<File = File> + AllocGlobal>(
    rt: &R,
    line: &CommandLine,
    known: &Known,
    end: End,
) -> Result<End, HostError> {
    let End { what, audit, facts } = end;
    let audit = match &what {
        What::Pass(_) if known.audited.is_some() => {
            known.differs(rt, line, String::from_str(rt.alloc(), "status")?)?
        }
        _ => audit,
    };
    Ok(End { what, audit, facts })
}

/// Keeps of what the key of a request was made, where it was compiled, and gives what differed. What it takes is known, so that nothing runs.
fn note_made<R: Files + AllocGlobal>(
    rt: &R,
    call: AskedCall<'_>,
    end: &Result<End, HostError>,
    known: &mut Known,
) -> Result<Option<String>, HostError> {
    if !was_compiled(end) {
        return Ok(None);
    }
    let alloc = rt.alloc();
    let config = config_of(alloc, known.basedirs.as_slice(), &known.zone)?;
    let files = &mut known.files;
    match request_fingerprint::<Blake2b256, _, _>(
        alloc,
        &config.keys,
        call.request,
        files,
        &mut known.tool,
    ) {
        Ok(Ok(fingerprint)) => Ok(Some(note_fingerprint(
            rt,
            call.line,
            call.request,
            fingerprint,
            &mut known.files,
        )?)),
        Ok(Err(_)) | Err(_) => Ok(None),
    }
}

/// Asks the session about a call until it answers, and notes what was compiled.
fn ask_and_note<P: Print + Files<File = File> + AllocGlobal, I: Read>(
    rt: &P,
    call: AskedCall<'_>,
    host: &mut Host<I>,
    known: &mut Known,
) -> Result<End, HostError>
    requires { host.old.compiled ≡ 0 }
    ensures once { host.new.compiled ≤ 1 }
{
    let end = ask_until(rt, call, host, known);
    // What was made is there, whatever becomes of this.
    let why = note_made(rt, call, &end, known).unwrap_or(None);
    let mut end = end_audit(rt, call.line, known, end?)?;
    end.facts.why = why;
    Ok(end)
}

/// What is known of a call of a compiler of that kind before anything was asked. In a box, so that no other function has to hold it.
fn known_of(
    alloc: Global,
    line: &CommandLine,
    kind: CCompilerKind,
    takes_color: bool,
    beside: Option<Beside>,
) -> Result<Box<Known>, HostError> {
    let basedirs = basedirs_of(alloc, line)?;
    let zone = zone_of(line);
    let known = Known::new(alloc, kind, takes_color, beside, zone, basedirs);
    Ok(Box::new(alloc, known)?)
}

/// Asks the session about a request, with what is known of it.
fn ask_with<P: Print + Files<File = File> + AllocGlobal, I: Read>(
    rt: &P,
    line: &CommandLine,
    host: &mut Host<I>,
    request: &Request,
    known: &mut Known,
) -> Result<End, HostError>
    requires { host.old.compiled ≡ 0 }
    ensures once { host.new.compiled ≤ 1 }
{
    let name = hint_name(rt.alloc(), line)?;
    let hint = name.as_str();
    let call = AskedCall {
        line,
        request,
        hint,
    };
    ask_and_note(rt, call, host, known)
}

/// Asks the session about a call of a compiler of that kind, of which nothing is known yet.
fn ask_about<P: Print + Files<File = File> + AllocGlobal, I: Read>(
    rt: &P,
    line: &CommandLine,
    host: &mut Host<I>,
    kind: CCompilerKind,
    call: &mut Call,
) -> Result<End, HostError>
    requires { host.old.compiled ≡ 0 }
    ensures once { host.new.compiled ≤ 1 }
{
    let beside = call.beside.take();
    let mut known = known_of(rt.alloc(), line, kind, call.takes_color, beside)?;
    ask_with(rt, line, host, &call.request, known.as_mut())
}

/// The call of a compiler of that kind that the command line is. In a box, so that no other function has to hold it.
fn boxed_call<P: Print + Files<File = File> + AllocGlobal, I: Read>(
    rt: &P,
    line: &CommandLine,
    host: &mut Host<I>,
    kind: CCompilerKind,
) -> Result<Box<Call>, HostError>
    requires { host.old.compiled ≡ 0 }
    ensures { host.new.compiled ≡ 0 }
{
    let call = call_of(rt, line, host, kind)?;
    Ok(Box::new(rt.alloc(), call)?)
}

/// Asks the session about the command line of a compiler of that kind.
fn ask<P: Print + Files<File = File> + AllocGlobal, I: Read>(
    rt: &P,
    line: &CommandLine,
    host: &mut Host<I>,
    kind: CCompilerKind,
) -> Result<End, HostError>
    requires { host.old.compiled ≡ 0 }
    ensures once { host.new.compiled ≤ 1 }
{
    let mut call = boxed_call(rt, line, host, kind)?;
    ask_about(rt, line, host, kind, call.as_mut())
}

/// Decides on a command line of a C compiler.
pub fn decide_on_c<P: Print + Files<File = File> + AllocGlobal, I: Read>(
    rt: &P,
    line: &CommandLine,
    host: &mut Host<I>,
) -> Result<End, HostError>
    requires { host.old.compiled ≡ 0 }
    // The host is asked to compile at most once, whatever it, the disk and the compiler do.
    ensures once { host.new.compiled ≤ 1 }
{
    let Some(kind) = kind_of(rt, line.executable.as_str())? else {
        return pass(rt.alloc(), "pass: unknown compiler");
    };
    match reason_against(rt.alloc(), line, kind)? {
        Some(reason) => Ok(End::pass(format!(in rt.alloc(); "pass: {reason}")?)),
        None => ask(rt, line, host, kind),
    }
}
