//! Runs of a scenario in one session: texts and numbers come of them.

use crate::answers::AnswerTexts;
use crate::stores::{Seen, Served, Watched};
use base_files::{Files, OsBytes};
use ckeys::{EntryKey, PreprocessorCacheEntry};
use ckeys_records::{KeyConfig, Preprocessor, Step, Ticks};
use cmdlines::EachKind;
use sccache_scenarios::{Scenario, ScenarioCall, ScenarioFault, read_scenario};
use sccache_script_tool::{
    CrateTexts, RetoldTool, ScriptTool, StatusOf, Statuses, error_status, print_status,
};
use sha2::Sha256;
use std::alloc::{AllocError, AllocFailed, Global};
use tests_kit::{FailFiles, FailTool};
use thiserror::Error;
use wrap::Session;
use wrap_base::store_key::{Pairs, StoreKey};
use wrap_base::{MapStore, Request, Tool};

/// Why nothing is printed.
#[derive(Debug, Drop, Error)]
pub enum Stop {
    /// The words aren't those that are taken.
    #[error("hostile_runs: one argument is taken: growths, record or key")]
    Arguments,
    /// A line is no scenario, or standard input failed.
    #[error("hostile_runs: a scenario cannot be read")]
    Scenario,
    /// Standard output failed.
    #[error("hostile_runs: output cannot be written")]
    Output,
    /// Out of memory outside of a request.
    #[error("hostile_runs: out of memory")]
    Memory,
}

impl From<AllocError> for Stop {
    fn from(_error: AllocError) -> Stop {
        Stop::Memory
    }
}

impl<T: Drop> From<AllocFailed<T>> for Stop {
    fn from(_error: AllocFailed<T>) -> Stop {
        Stop::Memory
    }
}

impl From<ScenarioFault> for Stop {
    fn from(fault: ScenarioFault) -> Stop {
        match fault {
            ScenarioFault::Unreadable => Stop::Scenario,
            ScenarioFault::Memory => Stop::Memory,
        }
    }
}

/// How many calls of each device come before the one that fails.
#[derive(Clone, Copy)]
pub(crate) struct Limits {
    pub(crate) files: u64,
    pub(crate) tool: u64,
}

/// No call fails.
pub(crate) const NONE_FAILS: Limits = Limits {
    files: u64::MAX,
    tool: u64::MAX,
};

/// The state of the session and the tool between two calls.
#[derive(Clone, Copy)]
pub(crate) struct State {
    pub(crate) records: Seen,
    pub(crate) outputs: Seen,
    /// How often the tool's steps ran and failed.
    pub(crate) ticks: Ticks,
    /// Whether the tool's call that was to fail has failed.
    failed: bool,
}

/// What came of one request.
#[derive(Drop)]
pub(crate) struct Turn {
    /// The state before it, and after its first answer.
    pub(crate) before: State,
    pub(crate) after: State,
    pub(crate) answer: AnswerTexts,
    /// Where an I/O call failed, the fault that is due for it.
    pub(crate) due: Option<String>,
    /// What it was answered when it was served again, after such a failure or after it ran out of memory.
    pub(crate) again: Option<AnswerTexts>,
}

/// What a run came to.
#[derive(Drop)]
pub(crate) struct Run {
    /// Request by request.
    pub(crate) turns: Vec<Turn>,
    /// The state at the end.
    pub(crate) end: State,
}

/// The state of the session and the tool.
fn state_of<S: Served, T: Tool>(session: &S, tool: &FailTool<T>) -> State {
    State {
        records: session.records(),
        outputs: session.outputs(),
        ticks: tool.ticks(),
        failed: tool.failed_step.is_some(),
    }
}

/// The fault that is due where an I/O call failed: that of the tool's last step, where it was in that.
fn due_fault(
    alloc: Global,
    before: &State,
    after: &State,
    step: Option<Step>,
    name: Option<&OsBytes>,
) -> Result<Option<String>, AllocError> {
    let failures = after.ticks.failure.wrapping_sub(before.ticks.failure);
    let due = match (failures, step, name) {
        (0, _, None) if after.failed == before.failed => return Ok(None),
        (0, _, Some(name)) => format!(in alloc; "read {name}")?,
        (1, Some(step), _) => format!(in alloc; "tool {step}")?,
        _ => format!(in alloc; "{failures} failures of the tool")?,
    };
    Ok(Some(due))
}

/// Adds the first answer to a request.
fn push_answer(
    before: State,
    after: State,
    answer: AnswerTexts,
    turns: &mut Vec<Turn>,
) -> Result<(), AllocError> {
    let turn = Turn {
        before,
        after,
        answer,
        due: None,
        again: None,
    };
    turns.push(turn).map_err(AllocError::from)
}

/// Serves the request, and serves it again where an I/O call failed or memory ran out.
fn push_served<S: Served, F: Files, T: Tool>(
    alloc: Global,
    session: &mut S,
    request: &Request,
    files: &mut FailFiles<F>,
    tool: &mut FailTool<T>,
    turns: &mut Vec<Turn>,
) -> Result<(), AllocError> {
    let before = state_of(session, tool);
    let answer = session.answered(alloc, request, files, tool)?;
    let after = state_of(session, tool);
    push_answer(before, after, answer, turns)?;
    let Some(turn) = turns.last_mut() else {
        return Ok(());
    };
    let name = files.failed_name.as_ref();
    turn.due = due_fault(alloc, &before, &after, tool.last_step, name)?;
    if turn.due.is_some() || turn.answer.is_fault("memory") {
        turn.again = Some(session.answered(alloc, request, files, tool)?);
    }
    Ok(())
}

/// How many calls of these files come before the one that fails, which no later one does where one has failed.
fn files_left<F: Files>(files: &FailFiles<F>) -> u64 {
    if files.failed_name.is_some() {
        u64::MAX
    } else {
        files.calls_left
    }
}

/// Serves the call, and adds what came of it. The files' call after that many fails. Returns after how many that is in the calls to come.
fn push_turn<S: Served, T: RetoldTool>(
    alloc: Global,
    call: ScenarioCall,
    left: u64,
    session: &mut S,
    tool: &mut FailTool<T>,
    turns: &mut Vec<Turn>,
) -> Result<u64, AllocError> {
    let ScenarioCall {
        request,
        files,
        crate_texts,
        forget: _,
    } = call;
    tool.tool.tell(crate_texts);
    let mut files = FailFiles::new(files, left);
    let pushed = push_served(alloc, session, &request, &mut files, tool, turns);
    let left = files_left(&files);
    drop(files);
    drop(request);
    pushed?;
    Ok(left)
}

/// Serves the calls in order, and adds what came of each. The files' call after that many fails.
fn push_turns<S: Served, T: RetoldTool>(
    alloc: Global,
    calls: Vec<ScenarioCall>,
    files_left: u64,
    session: &mut S,
    tool: &mut FailTool<T>,
    turns: &mut Vec<Turn>,
) -> Result<(), AllocError> {
    let mut left = files_left;
    for call in calls {
        left = push_turn(alloc, call, left, session, tool, turns)?;
    }
    Ok(())
}

/// Serves the calls in order. The files' call after that many fails.
fn turns_of<S: Served, T: RetoldTool>(
    alloc: Global,
    calls: Vec<ScenarioCall>,
    files_left: u64,
    session: &mut S,
    tool: &mut FailTool<T>,
) -> Result<Run, AllocError> {
    let mut turns = Vec::new(alloc);
    match push_turns(alloc, calls, files_left, session, tool, &mut turns) {
        Ok(()) => {
            let end = state_of(session, tool);
            Ok(Run { turns, end })
        }
        Err(error) => {
            drop(turns);
            Err(error)
        }
    }
}

/// Serves the calls by a scripted tool of this configuration. One call of each device fails.
fn run_calls<S: Served>(
    alloc: Global,
    config: KeyConfig,
    calls: Vec<ScenarioCall>,
    limits: Limits,
    session: &mut S,
) -> Result<Run, AllocError> {
    let print: StatusOf = Box::new(alloc, |text: &[u8]| print_status(text))?;
    let compile: StatusOf = Box::new(alloc, |text: &[u8]| error_status(text))?;
    let statuses = Statuses::new(print, compile);
    run_by(alloc, config, statuses, calls, limits, session)
}

/// Serves the calls by a scripted tool whose compilers end with these statuses.
fn run_by<S: Served>(
    alloc: Global,
    config: KeyConfig,
    statuses: Statuses,
    calls: Vec<ScenarioCall>,
    limits: Limits,
    session: &mut S,
) -> Result<Run, AllocError> {
    let compilers = EachKind::new(alloc)?;
    let tool = ScriptTool::new(config, CrateTexts::empty(alloc), compilers, statuses);
    let mut tool = FailTool::new(tool, limits.tool);
    let run = turns_of(alloc, calls, limits.files, session, &mut tool);
    drop(tool);
    run
}

/// A run of the scenario of this line over these stores, in which one call of each device fails. All calls are served, whatever is to be
/// forgotten before one of them.
pub(crate) fn run_over<E: Watched<EntryKey, PreprocessorCacheEntry>, O: Watched<StoreKey, Pairs>>(
    alloc: Global,
    line: &[u8],
    limits: Limits,
    entries: E,
    objects: O,
) -> Result<Run, Stop> {
    let Scenario {
        session_config,
        tool_config,
        capacity: _,
        calls,
    } = read_scenario(alloc, line)?;
    let mut session = Session::<Sha256, E, O>::new(alloc, session_config, entries, objects);
    let run = run_calls(alloc, tool_config, calls, limits, &mut session);
    drop(session);
    Ok(run?)
}

/// A run over stores that keep all unless memory runs out, in which one call of each device fails.
pub(crate) fn plain_run(alloc: Global, line: &[u8], limits: Limits) -> Result<Run, Stop> {
    let entries = MapStore::new(alloc);
    let objects = MapStore::new(alloc);
    run_over(alloc, line, limits, entries, objects)
}

/// Adds these answers in brief.
pub(crate) fn push_answers(turns: &[Turn], text: &mut String) -> Result<(), AllocError> {
    for turn in turns {
        write!(text, "{}{}; ", turn.answer.word, turn.answer.brief)?;
    }
    Ok(())
}
