//! Runs in which one I/O call fails.

use crate::answers::push_unless;
use crate::runs::{Limits, Run, Stop, Turn, plain_run};
use std::alloc::{AllocError, Global};

/// Adds a line where after a refused call the stores aren't as they were, except for one include record.
pub(crate) fn push_unless_kept(turn: &Turn, text: &mut String) -> Result<(), AllocError> {
    let (before, after) = (&turn.before, &turn.after);
    let put = after.records.puts.wrapping_sub(before.records.puts);
    let (held, held_before) = (after.outputs.held, before.outputs.held);
    push_unless(held == held_before, "no outputs of a refused call", text)?;
    let puts_none = after.outputs.puts == before.outputs.puts;
    push_unless(puts_none, "no put in a refused call", text)?;
    let one_more = before.records.held.saturating_add(1);
    push_unless(after.records.held <= one_more, "one record at most", text)?;
    push_unless(put <= 1, "one put of a record at most", text)
}

/// Adds a line where a refused call isn't answered by that fault, changed the stores, or is served otherwise at last. A compile ran only
/// where that is what failed.
fn push_refused(turn: &Turn, plain: &Turn, due: &str, text: &mut String) -> Result<(), AllocError> {
    push_unless(
        turn.answer.is_fault(due),
        "the fault of the call that failed",
        text,
    )?;
    push_unless_kept(turn, text)?;
    let compiles = turn
        .after
        .ticks
        .compile
        .wrapping_sub(turn.before.ticks.compile);
    let is_due = compiles == u64::from(matches!(due, "tool compile"));
    push_unless(is_due, "a compile only where that failed", text)?;
    let agrees = match &turn.again {
        Some(again) => again.agrees(&plain.answer),
        None => false,
    };
    push_unless(agrees, "the same outputs at last", text)
}

/// Adds a line where a request isn't answered as it has to be: where nothing failed in it, as in the plain run.
fn push_turn(turn: &Turn, plain: &Turn, text: &mut String) -> Result<(), AllocError> {
    if let Some(due) = &turn.due {
        return push_refused(turn, plain, due.as_str(), text);
    }
    let same = turn.answer.word == plain.answer.word && turn.answer.agrees(&plain.answer);
    push_unless(same, "the same answer", text)
}

/// Adds lines where requests aren't answered as they have to be.
fn push_turns(turns: &[Turn], plain: &[Turn], text: &mut String) -> Result<(), AllocError> {
    push_unless(turns.len() == plain.len(), "as many answers", text)?;
    for (number, turn) in turns.iter().enumerate() {
        let Some(plain) = plain.get(number) else {
            break;
        };
        push_turn(turn, plain, text)?;
    }
    Ok(())
}

/// The fault of the call that failed.
fn due_of(turns: &[Turn]) -> Option<&str> {
    for turn in turns {
        if let Some(due) = &turn.due {
            return Some(due.as_str());
        }
    }
    None
}

/// A part that does I/O: each of its calls fails in turn.
#[derive(Clone, Copy)]
enum Device {
    Files,
    Tool,
}

/// The call of that device after that many fails.
fn limits_of(device: Device, calls_left: u64) -> Limits {
    match device {
        Device::Files => Limits {
            files: calls_left,
            tool: u64::MAX,
        },
        Device::Tool => Limits {
            files: u64::MAX,
            tool: calls_left,
        },
    }
}

/// Whether a fault of that device is to be reported: each of the tool's is, and of the files' each that wasn't reported yet.
fn is_told(device: Device, fault: &str, faults: &str) -> bool {
    match device {
        Device::Files => !faults.contains(fault),
        Device::Tool => true,
    }
}

/// Adds the fault of this run, and lines where requests aren't answered as they have to be. Says whether a call failed.
fn push_fault(
    run: &Run,
    plain: &[Turn],
    device: Device,
    faults: &mut String,
    text: &mut String,
) -> Result<bool, AllocError> {
    push_turns(run.turns.as_slice(), plain, text)?;
    let Some(fault) = due_of(run.turns.as_slice()) else {
        return Ok(false);
    };
    if is_told(device, fault, faults.as_str()) {
        write!(faults, " {fault},")?;
    }
    Ok(true)
}

/// Adds the fault of the run in which the call of the device after that many fails. Says whether one failed.
fn push_run_fault(
    alloc: Global,
    line: &[u8],
    plain: &[Turn],
    device: Device,
    calls_left: u64,
    faults: &mut String,
    text: &mut String,
) -> Result<bool, Stop> {
    let run = plain_run(alloc, line, limits_of(device, calls_left))?;
    let failed = push_fault(&run, plain, device, faults, text);
    drop(run);
    Ok(failed?)
}

/// Adds the faults where each call of the device fails in turn, up to the first run in which none does.
fn push_faults(
    alloc: Global,
    line: &[u8],
    plain: &[Turn],
    device: Device,
    text: &mut String,
) -> Result<(), Stop> {
    let mut faults = String::new(alloc);
    for calls_left in 0..u64::MAX {
        if !push_run_fault(alloc, line, plain, device, calls_left, &mut faults, text)? {
            break;
        }
    }
    writeln!(text, "{faults}")?;
    Ok(())
}

/// Adds what came of the runs of the scenario of this line in which an I/O call fails.
pub(crate) fn push_refusals(
    alloc: Global,
    line: &[u8],
    plain: &[Turn],
    text: &mut String,
) -> Result<(), Stop> {
    text.push_str("files fail:")?;
    push_faults(alloc, line, plain, Device::Files, text)?;
    text.push_str("tool fails:")?;
    push_faults(alloc, line, plain, Device::Tool, text)
}
