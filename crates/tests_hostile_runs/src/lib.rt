//! Hostile use, for the program `tests_calls`: reads scenarios, a line each, from standard input, and serves each again and again, while
//! each I/O call fails in turn, while stores forget and refuse, and as one list. It prints what came of it, and what isn't as it has to be.
//!
//! Of each scenario these lines are printed:
//!
//! - what each request is answered where nothing fails, and how often a step before the compile and a compile ran:
//!   `1: fresh obj:22; stored obj:22; preprocesses 2; compiles 1`;
//! - the faults of the runs in which each call of the files fails in turn, each fault once, and of those in which each of the tool does:
//!   `files fail: tool preprocess, tool compile,`;
//! - how often the store of include records and that of outputs are asked, and then, for each run in which one of them drops all at one
//!   call, or at each, or refuses one pair, or each: `drop at 3: fresh fresh; compiles 2; forgot 1; lost some; holds 1`;
//! - where the scenario has a capacity, the same of a store of outputs that holds no more: `capacity 1: fresh stored fresh; ..`;
//! - what a build of all requests (`run_steps`) and one list of them (`serve_all`) are answered: `build: fresh stored`.
//!
//! In each of these runs a request is answered the outputs of the first run, or the fault of the call that failed, and then its outputs
//! when it is served again. In a build and in a list its outputs come from where they came from in the first run, too. Where it isn't so,
//! a line says it: `not so: ..`. What a scenario says of dropping all that is held before a request isn't followed in any run.
//!
//! With the argument `growths` each scenario is only served twice, and one allocation may be refused meanwhile: what is printed
//! is then the same, or nothing, with status 2. `bin/refusals` refuses each allocation in turn.
//!
//! With `record` or `key` it says what is read of the bytes of standard input as an include record, or, after three lines with its shape,
//! as what is hashed of a request to rustc. `bin/hostile` changes such bytes at random.
#![tactic(auto)]

mod answers;
mod builds;
mod forgetting;
mod growths;
mod readings;
mod refusals;
mod runs;
mod stores;

use crate::builds::push_built;
use crate::forgetting::push_forgetting;
use crate::growths::push_growths;
use crate::readings::{push_key, push_record};
use crate::refusals::push_refusals;
pub use crate::runs::Stop;
use crate::runs::{NONE_FAILS, Run, plain_run, push_answers};
use std::alloc::{AllocError, Global};
use std::io;
use std::io::{ErrorKind, Read, Write};

/// What is done with what standard input gives.
#[derive(Clone, Copy)]
enum Mode {
    /// I/O calls of scenarios fail, and stores forget and refuse.
    Devices,
    /// An allocation may be refused.
    Growths,
    /// A record is read.
    Record,
    /// What is hashed is read.
    Key,
}

/// Reads standard input to its end, and prints what comes of it. `words` are no word, or one of `growths`, `record` and `key`: any others
/// are `Stop::Arguments`. Nothing is printed where it stops before.
pub fn run<R: Print + Input + AllocGlobal>(rt: &R, words: &[String]) -> Result<(), Stop> {
    let mode = mode_of(words)?;
    let bytes = input_of(rt)?;
    let mut text = String::new(rt.alloc());
    push_bytes(rt.alloc(), mode, bytes.as_slice(), &mut text)?;
    io::writer(rt)
        .write_all(text.as_bytes())
        .map_err(|error| stop_of(&error, Stop::Output))
}

/// The bytes of standard input.
fn input_of<R: Input + AllocGlobal>(rt: &R) -> Result<Vec<u8>, Stop> {
    let mut bytes = Vec::new(rt.alloc());
    match rt.reader().read_to_end(&mut bytes) {
        Ok(_) => Ok(bytes),
        Err(error) => Err(stop_of(&error, Stop::Scenario)),
    }
}

/// Out of memory where that is the cause of an I/O error, and the other reason where it is anything else.
fn stop_of(error: &io::Error, other: Stop) -> Stop {
    if error.kind() == ErrorKind::OutOfMemory {
        Stop::Memory
    } else {
        other
    }
}

/// What the words say.
fn mode_of(words: &[String]) -> Result<Mode, Stop> {
    match words {
        [] => Ok(Mode::Devices),
        [word] => mode_named(word.as_str()),
        _ => Err(Stop::Arguments),
    }
}

/// What that word says.
fn mode_named(word: &str) -> Result<Mode, Stop> {
    match word {
        "growths" => Ok(Mode::Growths),
        "record" => Ok(Mode::Record),
        "key" => Ok(Mode::Key),
        _ => Err(Stop::Arguments),
    }
}

/// Adds what is printed of these bytes.
fn push_bytes(alloc: Global, mode: Mode, bytes: &[u8], text: &mut String) -> Result<(), Stop> {
    match mode {
        Mode::Devices => push_lines(alloc, false, bytes, text),
        Mode::Growths => push_lines(alloc, true, bytes, text),
        Mode::Record => push_record(alloc, bytes, text),
        Mode::Key => push_key(alloc, bytes, text),
    }
}

/// Adds what is printed of the scenarios of these lines. An empty line is none.
fn push_lines(
    alloc: Global,
    is_growths: bool,
    bytes: &[u8],
    text: &mut String,
) -> Result<(), Stop> {
    let mut number = 0u64;
    for line in bytes.split(|byte| *byte == b'\n') {
        if !line.is_empty() {
            number = number.wrapping_add(1);
            write!(text, "{number}: ")?;
            push_scenario(alloc, is_growths, line, text)?;
        }
    }
    Ok(())
}

/// Adds what is printed of the scenario of this line.
fn push_scenario(
    alloc: Global,
    is_growths: bool,
    line: &[u8],
    text: &mut String,
) -> Result<(), Stop> {
    if is_growths {
        return push_growths(alloc, line, text);
    }
    push_devices(alloc, line, text)
}

/// Adds what came of the runs in which I/O calls fail, and stores forget and refuse.
fn push_devices(alloc: Global, line: &[u8], text: &mut String) -> Result<(), Stop> {
    let plain = plain_run(alloc, line, NONE_FAILS)?;
    let pushed = push_beside(alloc, line, &plain, text);
    drop(plain);
    pushed
}

/// Adds what came of the run in which nothing fails, and of the others beside it.
fn push_beside(alloc: Global, line: &[u8], plain: &Run, text: &mut String) -> Result<(), Stop> {
    let turns = plain.turns.as_slice();
    push_plain(plain, text)?;
    push_refusals(alloc, line, turns, text)?;
    push_forgetting(alloc, line, plain, text)?;
    push_built(alloc, line, turns, text)
}

/// Adds what came of the run in which nothing fails.
fn push_plain(plain: &Run, text: &mut String) -> Result<(), AllocError> {
    push_answers(plain.turns.as_slice(), text)?;
    let ticks = plain.end.ticks;
    writeln!(
        text,
        "preprocesses {}; compiles {}",
        ticks.preprocess, ticks.compile
    )
}
