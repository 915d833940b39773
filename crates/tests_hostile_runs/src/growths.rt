//! Two runs of a scenario, in one of which one allocation may be refused.

use crate::answers::{AnswerTexts, push_unless};
use crate::refusals::push_unless_kept;
use crate::runs::{NONE_FAILS, Run, Stop, Turn, plain_run, push_answers};
use std::alloc::{AllocError, Global};

/// What the request is answered at last.
fn last_of(turn: &Turn) -> &AnswerTexts {
    match &turn.again {
        Some(again) => again,
        None => &turn.answer,
    }
}

/// Whether no allocation was refused in the run, as far as can be seen: no request was served again, and both stores kept all.
fn is_whole(run: &Run) -> bool {
    let served_again = run.turns.iter().any(|turn| turn.again.is_some());
    run.end.outputs.kept && run.end.records.kept && !served_again
}

/// Adds a line where a call that ran out of memory changed the stores, or where its answer reports an I/O error.
fn push_refused(turn: &Turn, text: &mut String) -> Result<(), AllocError> {
    let compiles = turn
        .after
        .ticks
        .compile
        .wrapping_sub(turn.before.ticks.compile);
    let failed = turn.after.ticks.failure != turn.before.ticks.failure;
    push_unless(
        turn.due.is_none() && !failed,
        "no failure of a device",
        text,
    )?;
    push_unless(compiles <= 1, "one compile at most", text)?;
    let kept = turn.after.records.kept == turn.before.records.kept;
    push_unless(kept, "no fault where a record is refused", text)?;
    push_unless_kept(turn, text)
}

/// Adds a line where outputs that weren't kept are answered as others than those of a compile, or are held.
fn push_unkept(turn: &Turn, text: &mut String) -> Result<(), AllocError> {
    let (before, after) = (&turn.before.outputs, &turn.after.outputs);
    push_unless(
        matches!(turn.answer.word, "fresh"),
        "fresh where outputs aren't kept",
        text,
    )?;
    push_unless(
        after.held == before.held,
        "nothing held of what is refused",
        text,
    )?;
    push_unless(
        after.puts == before.puts.wrapping_add(1),
        "one put of what is refused",
        text,
    )
}

/// Adds lines where a request of the run isn't answered as in the whole one. Returns how many refused allocations it shows.
fn push_turn(turn: &Turn, whole: &Turn, text: &mut String) -> Result<u64, AllocError> {
    let agrees = last_of(turn).agrees(&whole.answer);
    push_unless(agrees, "the same outputs at last", text)?;
    if turn.again.is_some() {
        push_refused(turn, text)?;
        return Ok(1);
    }
    let (before, after) = (&turn.before, &turn.after);
    if before.outputs.kept && !after.outputs.kept {
        push_unkept(turn, text)?;
        return Ok(1);
    }
    Ok(u64::from(before.records.kept && !after.records.kept))
}

/// Whether a request that was served again is answered by the record that it put before memory ran out, where it printed its text in the
/// whole run.
fn is_of_own_record(turn: &Turn, whole: &Turn) -> bool {
    match &turn.again {
        Some(again) => { matches!(again.word, "direct") && matches!(whole.answer.word, "stored") }
        None => false,
    }
}

/// Adds lines where the run's requests aren't answered as those of the whole run, where more than one allocation was refused, and where
/// outputs come from elsewhere although all was kept.
fn push_compared(run: &Run, whole: &Run, text: &mut String) -> Result<(), AllocError> {
    let all_kept = run.end.outputs.kept && run.end.records.kept;
    let mut refused = 0u64;
    push_unless(
        run.turns.len() == whole.turns.len(),
        "as many answers",
        text,
    )?;
    for (number, turn) in run.turns.as_slice().iter().enumerate() {
        let Some(due) = whole.turns.as_slice().get(number) else {
            break;
        };
        refused = refused.saturating_add(push_turn(turn, due, text)?);
        let same = last_of(turn).word == due.answer.word || is_of_own_record(turn, due);
        push_unless(same || !all_kept, "the same word where all is kept", text)?;
    }
    push_unless(refused <= 1, "one refusal", text)
}

/// Adds the answers of the whole one of two runs in brief, and lines where those of the other aren't as they have to be.
fn push_two(first: &Run, second: &Run, text: &mut String) -> Result<(), AllocError> {
    let (run, whole) = match is_whole(second) {
        true => (first, second),
        false => (second, first),
    };
    push_answers(whole.turns.as_slice(), text)?;
    text.push('\n')?;
    push_unless(is_whole(whole), "one whole run", text)?;
    push_compared(run, whole, text)
}

/// Adds what came of that run and of a second one of the scenario of this line.
fn push_second(alloc: Global, line: &[u8], first: &Run, text: &mut String) -> Result<(), Stop> {
    let second = plain_run(alloc, line, NONE_FAILS)?;
    let pushed = push_two(first, &second, text);
    drop(second);
    Ok(pushed?)
}

/// Adds what came of two runs of the scenario of this line.
pub(crate) fn push_growths(alloc: Global, line: &[u8], text: &mut String) -> Result<(), Stop> {
    let first = plain_run(alloc, line, NONE_FAILS)?;
    let pushed = push_second(alloc, line, &first, text);
    drop(first);
    pushed
}
