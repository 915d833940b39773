//! All calls of a scenario as one list, in a build and in a session: each is answered as in its own turn.

use crate::answers::{answer_texts, push_unless};
use crate::runs::{Stop, Turn};
use base_files::Files;
use ckeys_records::{Fault, KeyConfig};
use cmdlines::EachKind;
use sccache_scenarios::{Scenario, ScenarioCall, read_scenario};
use sccache_script_tool::{ScriptTool, StatusOf, Statuses, error_status, print_status};
use sha2::Sha256;
use std::alloc::{AllocError, Global};
use tests_kit::{FailFiles, FailTool};
use wrap::Session;
use wrap_base::{Answer, Call, Config, MapStore, Tool};
use wrap_uses::run_steps;

/// Adds the words of the answers, and a line where one of them isn't that of its own turn.
fn push_answered(
    alloc: Global,
    name: &str,
    answers: &[Result<Answer, Fault>],
    turns: &[Turn],
    text: &mut String,
) -> Result<(), AllocError> {
    let mut same = answers.len() == turns.len();
    text.push_str(name)?;
    for (number, answer) in answers.iter().enumerate() {
        let Some(turn) = turns.get(number) else {
            break;
        };
        let said = answer_texts(alloc, answer)?;
        let word = said.word;
        same = same && word == turn.answer.word && said.agrees(&turn.answer);
        drop(said);
        write!(text, " {word}")?;
    }
    text.push('\n')?;
    push_unless(same, "each answer is that of its own turn", text)
}

/// Adds what a build of these steps is answered. Who calls this loads none of what a build promises.
fn push_build<F: Files, T: Tool>(
    alloc: Global,
    config: &Config,
    steps: &mut [Call<F, T>],
    turns: &[Turn],
    text: &mut String,
) -> Result<(), AllocError> {
    let build = run_steps::<Sha256, F, T>(alloc, config.clone()?, steps)?;
    let pushed = push_answered(alloc, "build:", build.answers.as_slice(), turns, text);
    let kept_all = build.kept_all;
    drop(build);
    pushed?;
    push_unless(kept_all, "a build keeps all", text)
}

/// What a session over empty stores answers these calls. Who calls this loads none of what a session promises.
fn answers_of<F: Files, T: Tool>(
    alloc: Global,
    config: Config,
    calls: &mut [Call<F, T>],
) -> Result<Vec<Result<Answer, Fault>>, AllocError> {
    let (entries, objects) = (MapStore::new(alloc), MapStore::new(alloc));
    let mut session = Session::<Sha256, _, _>::new(alloc, config, entries, objects);
    let answers = session.serve_all(calls);
    drop(session);
    answers
}

/// Adds what a session answers these calls.
fn push_list<F: Files, T: Tool>(
    alloc: Global,
    config: Config,
    calls: &mut [Call<F, T>],
    turns: &[Turn],
    text: &mut String,
) -> Result<(), AllocError> {
    let answers = answers_of(alloc, config, calls)?;
    let pushed = push_answered(alloc, "list:", answers.as_slice(), turns, text);
    drop(answers);
    pushed
}

/// What a call's tool is made of, but for what the call and its compilers say.
#[derive(Drop)]
struct ToolParts {
    config: KeyConfig,
    compilers: EachKind,
}

/// Those of one tool of that configuration.
fn tool_parts(alloc: Global, config: &KeyConfig) -> Result<ToolParts, AllocError> {
    let config = config.clone()?;
    let compilers = EachKind::new(alloc)?;
    Ok(ToolParts { config, compilers })
}

/// Those of so many tools.
fn all_parts(
    alloc: Global,
    config: &KeyConfig,
    tools: usize,
) -> Result<Vec<ToolParts>, AllocError> {
    let mut all = Vec::new(alloc);
    for _ in 0..tools {
        all.push(tool_parts(alloc, config)?)?;
    }
    Ok(all)
}

/// Adds what these steps are answered as a build and as a list.
fn push_steps<F: Files, T: Tool>(
    alloc: Global,
    config: Config,
    steps: &mut [Call<F, T>],
    turns: &[Turn],
    text: &mut String,
) -> Result<(), AllocError> {
    push_build(alloc, &config, steps, turns, text)?;
    push_list(alloc, config, steps, turns, text)
}

/// Adds what these calls are answered as one list, each by a tool of its own, of one of as many parts.
fn push_calls(
    alloc: Global,
    config: Config,
    calls: Vec<ScenarioCall>,
    parts: Vec<ToolParts>,
    turns: &[Turn],
    text: &mut String,
) -> Result<(), AllocError> {
    let mut parts = parts;
    let mut steps = Vec::new(alloc);
    for call in calls {
        let Some(parts) = parts.pop() else {
            break;
        };
        let print: StatusOf = Box::new(alloc, |text: &[u8]| print_status(text))?;
        let compile: StatusOf = Box::new(alloc, |text: &[u8]| error_status(text))?;
        let statuses = Statuses::new(print, compile);
        let tool = ScriptTool::new(parts.config, call.crate_texts, parts.compilers, statuses);
        steps.push(Call {
            request: call.request,
            files: FailFiles::new(call.files, u64::MAX),
            tool: FailTool::new(tool, u64::MAX),
        })?;
    }
    let pushed = push_steps(alloc, config, steps.as_mut_slice(), turns, text);
    drop(steps);
    pushed
}

/// Adds what the calls of this scenario are answered as one list.
fn push_scenario(
    alloc: Global,
    scenario: Scenario,
    turns: &[Turn],
    text: &mut String,
) -> Result<(), AllocError> {
    let parts = all_parts(alloc, &scenario.tool_config, scenario.calls.len())?;
    let (config, calls) = (scenario.session_config, scenario.calls);
    push_calls(alloc, config, calls, parts, turns, text)
}

/// Adds what the calls of the scenario of this line are answered as one list, where these came of each in its turn.
pub(crate) fn push_built(
    alloc: Global,
    line: &[u8],
    turns: &[Turn],
    text: &mut String,
) -> Result<(), Stop> {
    let scenario = read_scenario(alloc, line)?;
    Ok(push_scenario(alloc, scenario, turns, text)?)
}
