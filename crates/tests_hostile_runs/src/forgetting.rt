//! Runs in which a store forgets or refuses.

use crate::answers::push_unless;
use crate::runs::{NONE_FAILS, Run, Stop, Turn, run_over};
use crate::stores::Seen;
use base_bounded_store::LruStore;
use sccache_scenarios::read_scenario;
use std::alloc::{AllocError, Global};
use std::num::NonZeroUsize;
use tests_kit::{Forgetful, Order};
use wrap_base::MapStore;

/// Which of the stores follows orders.
#[derive(Clone, Copy)]
enum Which {
    Records,
    Outputs,
}

/// At which calls a store gets an order. It keeps at all others.
#[derive(Clone, Copy)]
enum At {
    /// At the one after so many.
    Call(u64),
    /// At each of the first so many.
    Each(u64),
}

/// That order at these calls.
fn orders(alloc: Global, order: Order, at: At) -> Result<Vec<Order>, AllocError> {
    let (kept, ordered) = match at {
        At::Call(calls) => (calls, 1),
        At::Each(calls) => (0, calls),
    };
    let mut orders = Vec::new(alloc);
    for _ in 0..kept {
        orders.push(Order::Keep)?;
    }
    for _ in 0..ordered {
        orders.push(order)?;
    }
    Ok(orders)
}

/// A run in which that store gets that order at these calls.
fn ordered_run(
    alloc: Global,
    line: &[u8],
    which: Which,
    order: Order,
    at: At,
) -> Result<Run, Stop> {
    let orders = orders(alloc, order, at)?;
    let none = Vec::new(alloc);
    let (records, outputs) = match which {
        Which::Records => (orders, none),
        Which::Outputs => (none, orders),
    };
    let records = Forgetful::new(alloc, records);
    let outputs = Forgetful::new(alloc, outputs);
    run_over(alloc, line, NONE_FAILS, records, outputs)
}

/// What is seen of that store at the end of the run.
fn seen_in(run: &Run, which: Which) -> Seen {
    match which {
        Which::Records => run.end.records,
        Which::Outputs => run.end.outputs,
    }
}

/// Adds a line where an answer has other outputs than that of the plain run.
fn push_unless_agreed(turns: &[Turn], plain: &[Turn], text: &mut String) -> Result<(), AllocError> {
    push_unless(turns.len() == plain.len(), "as many answers", text)?;
    for (number, turn) in turns.iter().enumerate() {
        let Some(due) = plain.get(number) else {
            break;
        };
        push_unless(turn.answer.agrees(&due.answer), "the same outputs", text)?;
    }
    Ok(())
}

/// Adds the words of the answers, how often a compiler ran, and what is seen of a store.
fn push_run(run: &Run, seen: Seen, text: &mut String) -> Result<(), AllocError> {
    for turn in run.turns.as_slice() {
        write!(text, " {}", turn.answer.word)?;
    }
    let kept = if seen.kept { "kept all" } else { "lost some" };
    let (compiles, forgot, held) = (run.end.ticks.compile, seen.forgot, seen.held);
    writeln!(
        text,
        "; compiles {compiles}; forgot {forgot}; {kept}; holds {held}"
    )
}

/// Adds which order a store got, and when.
fn push_order(order: Order, at: At, text: &mut String) -> Result<(), AllocError> {
    let order = match order {
        Order::Keep => "keep",
        Order::DropAll => "drop",
        Order::Refuse => "refuse",
    };
    match at {
        At::Call(calls) => write!(text, "{order} at {}:", calls.wrapping_add(1)),
        At::Each(_) => write!(text, "{order} at each:"),
    }
}

/// Adds what came of a run in which that store got that order, and a line where outputs are others than those of the plain run. A run in
/// which an order to refuse met no pair isn't reported.
fn push_told(
    run: &Run,
    plain: &[Turn],
    which: Which,
    order: Order,
    at: At,
    text: &mut String,
) -> Result<(), AllocError> {
    push_unless_agreed(run.turns.as_slice(), plain, text)?;
    let seen = seen_in(run, which);
    if order == Order::Refuse && seen.refused == 0 {
        return Ok(());
    }
    push_order(order, at, text)?;
    push_run(run, seen, text)
}

/// Adds what came of the run in which that store gets that order.
fn push_ordered(
    alloc: Global,
    line: &[u8],
    plain: &[Turn],
    which: Which,
    order: Order,
    at: At,
    text: &mut String,
) -> Result<(), Stop> {
    let run = ordered_run(alloc, line, which, order, at)?;
    let pushed = push_told(&run, plain, which, order, at, text);
    drop(run);
    Ok(pushed?)
}

/// Adds what came of the runs in which that store gets that order at one of so many calls, or at each: a request makes two calls at most.
fn push_each(
    alloc: Global,
    line: &[u8],
    plain: &[Turn],
    which: Which,
    order: Order,
    calls: u64,
    text: &mut String,
) -> Result<(), Stop> {
    for call in 0..calls {
        push_ordered(alloc, line, plain, which, order, At::Call(call), text)?;
    }
    if calls == 0 {
        return Ok(());
    }
    let each = At::Each((plain.len() as u64).saturating_mul(2));
    push_ordered(alloc, line, plain, which, order, each, text)
}

/// Adds how often that store is asked in the plain run, and what came of the runs in which it forgets or refuses.
fn push_store(
    alloc: Global,
    line: &[u8],
    plain: &Run,
    which: Which,
    text: &mut String,
) -> Result<(), Stop> {
    let seen = seen_in(plain, which);
    let calls = seen.gets.saturating_add(seen.puts);
    let name = match which {
        Which::Records => "records",
        Which::Outputs => "outputs",
    };
    writeln!(text, "{name}: {calls} calls")?;
    let turns = plain.turns.as_slice();
    push_each(alloc, line, turns, which, Order::DropAll, calls, text)?;
    push_each(alloc, line, turns, which, Order::Refuse, calls, text)
}

/// A run over a store of outputs that holds no more than so many.
fn bounded_run(alloc: Global, line: &[u8], capacity: NonZeroUsize) -> Result<Run, Stop> {
    let outputs = LruStore::new(alloc, capacity)?;
    run_over(alloc, line, NONE_FAILS, MapStore::new(alloc), outputs)
}

/// Adds what came of a run, and where it disagrees with the plain one.
fn push_agreed(run: &Run, plain: &[Turn], text: &mut String) -> Result<(), AllocError> {
    push_unless_agreed(run.turns.as_slice(), plain, text)?;
    push_run(run, run.end.outputs, text)
}

/// How many outputs are held at most in the scenario of this line, where it says so.
fn capacity_of(alloc: Global, line: &[u8]) -> Result<Option<NonZeroUsize>, Stop> {
    let scenario = read_scenario(alloc, line)?;
    let capacity = scenario.capacity;
    drop(scenario);
    Ok(capacity)
}

/// Adds what came of a run over a store of outputs that holds no more than the scenario's capacity, where it has one.
fn push_bounded(alloc: Global, line: &[u8], plain: &[Turn], text: &mut String) -> Result<(), Stop> {
    let Some(capacity) = capacity_of(alloc, line)? else {
        return Ok(());
    };
    write!(text, "capacity {capacity}:")?;
    let run = bounded_run(alloc, line, capacity)?;
    let pushed = push_agreed(&run, plain, text);
    drop(run);
    Ok(pushed?)
}

/// Adds what came of the runs of the scenario of this line in which a store forgets or refuses, beside the plain run.
pub(crate) fn push_forgetting(
    alloc: Global,
    line: &[u8],
    plain: &Run,
    text: &mut String,
) -> Result<(), Stop> {
    push_store(alloc, line, plain, Which::Records, text)?;
    push_store(alloc, line, plain, Which::Outputs, text)?;
    push_bounded(alloc, line, plain.turns.as_slice(), text)
}
