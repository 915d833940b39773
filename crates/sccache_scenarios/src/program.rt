//! The programs: they read a scenario, serve its requests in order and print what each is answered, and one of them why it was compiled.

ghost use Rattle.std.specs.Prelude.{◌≡◌, ◌⊎◌, ◌<◌, ◌↔◌, false, length, OnOk, IfOk, IfErr, IsErrOf};
ghost use Rattle.std.specs.Io.KnownBytes.{IsAtEnd};

use crate::explaining::Explainer;
use crate::scenario::{Scenario, ScenarioCall, ScenarioFault, read_scenario};
use base_bounded_store::LruStore;
use base_files::{Listed, MemoryFiles, OsBytes};
use ckeys::{EntryKey, PreprocessorCacheEntry, Store};
use ckeys_records::{Fault, Preprocessor};
use cmdlines::EachKind;
use sccache_script_tool::{
    CrateTexts, RetoldTool, ScriptTool, StatusOf, Statuses, error_status, print_status,
};
use sha2::Sha256;
use std::alloc::{AllocError, AllocFailed, Global};
use std::io::{ErrorKind, Read, Write};
use thiserror::Error;
use wrap::{Fingerprint, Session};
use wrap_base::store_key::{Pairs, StoreKey};
use wrap_base::{Answer, How, MapStore, Output, Request, Tool};

/// How many bytes are read at a time.
const PIECE: usize = 8192;

/// The include records.
type Entries = MapStore<EntryKey, PreprocessorCacheEntry>;

/// Why a run stopped.
#[derive(Debug, Drop, Error)]
pub enum RunFault {
    /// There is an argument.
    #[error("sccache-wrap: no arguments are taken")]
    Arguments,
    /// The scenario can't be read, or the reader failed, by whatever error.
    #[error("sccache-wrap: scenario cannot be read")]
    Scenario,
    /// The writer failed, by whatever error.
    #[error("sccache-wrap: output cannot be written")]
    Output,
    /// Out of memory while no request was served.
    #[error("sccache-wrap: memory")]
    Memory,
}

impl From<AllocError> for RunFault {
    ghost use Rattle.sccache_scenarios.specs.declared.program.RunFault.TheVariants.{Memory};

    ghost from_gives = { λ _ f. f ≡ Memory };

    fn from(_error: AllocError) -> RunFault {
        RunFault::Memory
    }
}

impl<T: Drop> From<AllocFailed<T>> for RunFault {
    ghost use Rattle.sccache_scenarios.specs.declared.program.RunFault.TheVariants.{Memory};

    ghost from_gives = { λ _ f. f ≡ Memory };

    fn from(_error: AllocFailed<T>) -> RunFault {
        RunFault::Memory
    }
}

impl From<ScenarioFault> for RunFault {
    ghost use Rattle.sccache_scenarios.specs.declared.program.RunFault.TheVariants.{Memory, Scenario};

    ghost from_gives = { λ _ f. (f ≡ Scenario) ⊎ (f ≡ Memory) };

    fn from(fault: ScenarioFault) -> RunFault {
        match fault {
            ScenarioFault::Unreadable => RunFault::Scenario,
            ScenarioFault::Memory => RunFault::Memory,
        }
    }
}

/// Reads a scenario from the reader to its end, serves the requests in one session by one tool, and writes a line for each and then how often a compiler ran.
///
/// `args` are the arguments after the program's name. Nothing is written before the whole scenario is read.
pub fn run<R: Read, W: Write>(
    alloc: Global,
    args: &[String],
    reader: &mut R,
    writer: &mut W,
) -> Result<(), RunFault>
    ensures arguments { IsErrOf result RunFault.Arguments ↔ (0 < length args.now) }
    ensures unread { 0 < length args.now → R.remaining reader.new ≡ R.remaining reader.old }
    ensures silent { 0 < length args.now → W.contents writer.new ≡ W.contents writer.old }
    ensures read { OnOk result (IsAtEnd (R.remaining reader.new)) }
    ensures unwritten { IsErrOf result RunFault.Scenario
        → W.contents writer.new ≡ W.contents writer.old }
{
    run_with(alloc, None, args, reader, writer)
}

/// The same, and at the end of the line of each request whose outputs were compiled it says in which part, and where, it differs from the
/// latest earlier request with the same outputs: `2 fresh obj:22 # word 1: -DA=2, earlier -DA=1`.
pub fn run_explained<R: Read, W: Write>(
    alloc: Global,
    args: &[String],
    reader: &mut R,
    writer: &mut W,
) -> Result<(), RunFault>
    ensures arguments { IsErrOf result RunFault.Arguments ↔ (0 < length args.now) }
    ensures unread { 0 < length args.now → R.remaining reader.new ≡ R.remaining reader.old }
    ensures silent { 0 < length args.now → W.contents writer.new ≡ W.contents writer.old }
    ensures read { OnOk result (IsAtEnd (R.remaining reader.new)) }
    ensures unwritten { IsErrOf result RunFault.Scenario
        → W.contents writer.new ≡ W.contents writer.old }
{
    run_with(alloc, Some(Explainer::new(alloc)), args, reader, writer)
}

/// Runs with that explainer, or without one.
fn run_with<R: Read, W: Write>(
    alloc: Global,
    explainer: Option<Explainer>,
    args: &[String],
    reader: &mut R,
    writer: &mut W,
) -> Result<(), RunFault>
    ensures arguments { IsErrOf result RunFault.Arguments ↔ (0 < length args.now) }
    ensures unread { 0 < length args.now → R.remaining reader.new ≡ R.remaining reader.old }
    ensures silent { 0 < length args.now → W.contents writer.new ≡ W.contents writer.old }
    ensures read { OnOk result (IsAtEnd (R.remaining reader.new)) }
    ensures unwritten { IsErrOf result RunFault.Scenario
        → W.contents writer.new ≡ W.contents writer.old }
{
    if !args.is_empty() {
        return Err(RunFault::Arguments);
    }
    let scenario = whole_scenario(alloc, reader)?;
    serve_scenario(alloc, scenario, explainer, writer)
}

/// The scenario that the reader gives to its end.
fn whole_scenario<R: Read>(alloc: Global, reader: &mut R) -> Result<Scenario, RunFault>
    ensures fault { IfErr result (λ f. (f ≡ RunFault.Scenario) ⊎ (f ≡ RunFault.Memory)) }
    ensures read { OnOk result (IsAtEnd (R.remaining reader.new)) }
{
    let mut bytes = Vec::new(alloc);
    read_whole(reader, &mut bytes)?;
    Ok(read_scenario(alloc, bytes.as_slice())?)
}

/// Adds the bytes that the reader gives to its end. `Memory` is of these bytes alone: a reader that fails is `Scenario`, also where it does
/// so for want of memory.
fn read_whole<R: Read>(reader: &mut R, bytes: &mut Vec<u8>) -> Result<(), RunFault>
    ensures fault { IfErr result (λ f. (f ≡ RunFault.Scenario) ⊎ (f ≡ RunFault.Memory)) }
    ensures read { OnOk result (IsAtEnd (R.remaining reader.new)) }
{
    let mut piece = [0u8; PIECE];
    for _ in 0..u64::MAX {
        if !read_piece(reader, &mut piece, bytes)? {
            return Ok(());
        }
    }
    Err(RunFault::Scenario)
}

/// Adds what one read into this room gives, and says whether there may be more. A read that was interrupted gives nothing.
fn read_piece<R: Read>(
    reader: &mut R,
    room: &mut [u8],
    bytes: &mut Vec<u8>,
) -> Result<bool, RunFault>
    requires { 0 < length room.old }
    ensures fault { IfErr result (λ f. (f ≡ RunFault.Scenario) ⊎ (f ≡ RunFault.Memory)) }
    ensures end { IfOk result (λ more. more ≡ false → IsAtEnd (R.remaining reader.new)) }
{
    match reader.read(room) {
        Ok(0) => Ok(false),
        Ok(count) => {
            bytes.extend_from_slice(&room[..count])?;
            Ok(true)
        }
        Err(error) => {
            if error.kind() == ErrorKind::Interrupted {
                Ok(true)
            } else {
                Err(RunFault::Scenario)
            }
        }
    }
}

/// Serves the calls over a store of objects that is bounded where the scenario says so.
fn serve_scenario<W: Write>(
    alloc: Global,
    scenario: Scenario,
    explainer: Option<Explainer>,
    writer: &mut W,
) -> Result<(), RunFault>
    ensures fault { IfErr result (λ f. (f ≡ RunFault.Output) ⊎ (f ≡ RunFault.Memory)) }
{
    match scenario.capacity {
        None => serve_calls(alloc, scenario, explainer, MapStore::new(alloc), writer),
        Some(capacity) => {
            let objects = LruStore::new(alloc, capacity)?;
            serve_calls(alloc, scenario, explainer, objects, writer)
        }
    }
}

/// Serves the calls in one session over that store of objects, by one scripted tool.
fn serve_calls<O: Store<StoreKey, Pairs> + Drop, W: Write>(
    alloc: Global,
    scenario: Scenario,
    explainer: Option<Explainer>,
    objects: O,
    writer: &mut W,
) -> Result<(), RunFault>
    ensures fault { IfErr result (λ f. (f ≡ RunFault.Output) ⊎ (f ≡ RunFault.Memory)) }
{
    let print: StatusOf = Box::new(alloc, |text: &[u8]| print_status(text))?;
    let compile: StatusOf = Box::new(alloc, |text: &[u8]| error_status(text))?;
    let statuses = Statuses::new(print, compile);
    serve_by(alloc, scenario, statuses, explainer, objects, writer)
}

/// Serves the calls in one session by a tool whose compilers end with these statuses.
fn serve_by<O: Store<StoreKey, Pairs> + Drop, W: Write>(
    alloc: Global,
    scenario: Scenario,
    statuses: Statuses,
    explainer: Option<Explainer>,
    objects: O,
    writer: &mut W,
) -> Result<(), RunFault>
    ensures fault { IfErr result (λ f. (f ≡ RunFault.Output) ⊎ (f ≡ RunFault.Memory)) }
{
    let compilers = EachKind::new(alloc)?;
    let Scenario {
        session_config,
        tool_config,
        capacity: _,
        calls,
    } = scenario;
    let mut tool = ScriptTool::new(tool_config, CrateTexts::empty(alloc), compilers, statuses);
    let mut session = Session::new(alloc, session_config, MapStore::new(alloc), objects);
    let served = serve_in_order(alloc, calls, explainer, &mut session, &mut tool, writer);
    drop(session);
    drop(tool);
    served
}

/// Serves the calls in order, and writes a line for each and then how often a compiler ran.
fn serve_in_order<O: Store<StoreKey, Pairs> + Drop, T: RetoldTool, W: Write>(
    alloc: Global,
    calls: Vec<ScenarioCall>,
    explainer: Option<Explainer>,
    session: &mut Session<Sha256, Entries, O>,
    tool: &mut T,
    writer: &mut W,
) -> Result<(), RunFault>
    ensures fault { IfErr result (λ f. (f ≡ RunFault.Output) ⊎ (f ≡ RunFault.Memory)) }
{
    let mut explainer = explainer;
    for (number, call) in (1u64..).zip(calls) {
        serve_call(alloc, number, call, &mut explainer, session, tool, writer)?;
    }
    write_count(alloc, tool.ticks().compile, writer)
}

/// Serves the call of this number and writes its line.
fn serve_call<O: Store<StoreKey, Pairs> + Drop, T: RetoldTool, W: Write>(
    alloc: Global,
    number: u64,
    call: ScenarioCall,
    explainer: &mut Option<Explainer>,
    session: &mut Session<Sha256, Entries, O>,
    tool: &mut T,
    writer: &mut W,
) -> Result<(), RunFault>
    ensures fault { IfErr result (λ f. (f ≡ RunFault.Output) ⊎ (f ≡ RunFault.Memory)) }
{
    let (mut made, answer) = answered(call, explainer.is_some(), session, tool);
    let line = whole_line(alloc, number, explainer, &mut made, &answer);
    drop(made);
    drop(answer);
    write_line(writer, &line?)
}

/// Writes how often a compiler ran, which is the last line.
fn write_count<W: Write>(alloc: Global, compiles: u64, writer: &mut W) -> Result<(), RunFault>
    ensures fault { IfErr result (λ f. (f ≡ RunFault.Output) ⊎ (f ≡ RunFault.Memory)) }
{
    write_line(writer, &format!(in alloc; "compiles {compiles}\n")?)?;
    writer.flush().map_err(|_| RunFault::Output)
}

/// The line of an answer with its end, and before that what the explainer has to say of it.
fn whole_line(
    alloc: Global,
    number: u64,
    explainer: &mut Option<Explainer>,
    made: &mut Option<Fingerprint>,
    answer: &Result<Answer, Fault>,
) -> Result<String, AllocError> {
    let mut line = line_of(alloc, number, answer)?;
    if let Some(explainer) = explainer {
        explainer.push_remark(alloc, made, answer, &mut line)?;
    }
    line.push('\n')?;
    Ok(line)
}

/// What a call is answered by the tool, whose rustc reports what the call says; and before it the call's fingerprint, where that is asked
/// for and there is one. Before both all that the stores hold is dropped where the call says so.
fn answered<O: Store<StoreKey, Pairs> + Drop, T: RetoldTool>(
    call: ScenarioCall,
    is_explained: bool,
    session: &mut Session<Sha256, Entries, O>,
    tool: &mut T,
) -> (Option<Fingerprint>, Result<Answer, Fault>) {
    let ScenarioCall {
        request,
        mut files,
        crate_texts,
        forget,
    } = call;
    tool.tell(crate_texts);
    if forget {
        session.forget_all();
    }
    let answered = made_and_answer(&request, is_explained, session, &mut files, tool);
    drop(request);
    answered
}

/// What a request is answered by the tool, and before it its fingerprint.
fn made_and_answer<O: Store<StoreKey, Pairs> + Drop, T: Tool>(
    request: &Request,
    is_explained: bool,
    session: &mut Session<Sha256, Entries, O>,
    files: &mut MemoryFiles,
    tool: &mut T,
) -> (Option<Fingerprint>, Result<Answer, Fault>) {
    let made = match is_explained {
        true => fingerprint_of(request, session, files, tool),
        false => None,
    };
    let answer = session.serve(request, files, tool);
    (made, answer)
}

/// The fingerprint of a request, where there is one: it isn't passed through, and there is no fault.
fn fingerprint_of<O: Store<StoreKey, Pairs> + Drop, T: Tool>(
    request: &Request,
    session: &Session<Sha256, Entries, O>,
    files: &mut MemoryFiles,
    tool: &mut T,
) -> Option<Fingerprint> {
    match session.fingerprint(request, files, tool) {
        Ok(Ok(made)) => Some(made),
        Ok(Err(_)) | Err(_) => None,
    }
}

fn write_line<W: Write>(writer: &mut W, line: &String) -> Result<(), RunFault>
    ensures fault { IfErr result (λ f. (f ≡ RunFault.Output) ⊎ (f ≡ RunFault.Memory)) }
{
    writer
        .write_all(line.as_bytes())
        .map_err(|_| RunFault::Output)
}

/// The line that says what the request of this number is answered, without its end.
fn line_of(
    alloc: Global,
    number: u64,
    answer: &Result<Answer, Fault>,
) -> Result<String, AllocError> {
    match answer {
        Ok(Answer::Pass(reason)) => format!(in alloc; "{number} pass {reason}"),
        Ok(Answer::Outputs { map, how, dep_info }) => {
            line_of_outputs(alloc, number, map, *how, dep_info)
        }
        Err(fault) => format!(in alloc; "{number} fault {fault}"),
    }
}

/// The line of an answer with outputs.
fn line_of_outputs(
    alloc: Global,
    number: u64,
    outputs: &Listed<Output>,
    how: How,
    dep_info: &Option<OsBytes>,
) -> Result<String, AllocError> {
    let how = how_word(how);
    let mut line = format!(in alloc; "{number} {how}")?;
    push_outputs(&mut line, outputs)?;
    if let Some(text) = dep_info {
        let length = text.as_bytes().len();
        write!(line, " dep-info:{length}")?;
    }
    Ok(line)
}

fn push_outputs(line: &mut String, outputs: &Listed<Output>) -> Result<(), AllocError> {
    for output in outputs.as_slice() {
        let name = &output.name;
        let length = output.contents.as_bytes().len();
        write!(line, " {name}:{length}")?;
    }
    Ok(())
}

fn how_word(how: How) -> &'static str {
    match how {
        How::Direct => "direct",
        How::Stored => "stored",
        How::Fresh => "fresh",
    }
}
