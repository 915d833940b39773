//! Calls that take no memory: rows, a line each, name them. What they are asked about is made first. Then `ready` is said on standard error,
//! and from there on no memory grows. Of each row a line is printed: `a table: right`, or `wrong` where a call isn't answered as it has to be.
//!
//! `bin/refusals` gives each row to a process of its own, and refuses each allocation after `ready`. The row `a copy` allocates there, so it
//! shows that allocations are refused.

mod keys;
mod stores;
mod texts;
mod words;

use crate::{Fault, fault_of};
use keys::{compare_keys, compare_moments, count_includes, explain_fingerprints};
use std::io;
use std::io::Read;
use stores::{bounded_store, map_store};
use texts::{copy, digest, finder, slices};
use words::{argument, empty_value, file_of_words, table, tree};

/// Makes the calls of each row of standard input.
pub(crate) fn make_calls<R: Print + Eprint + Input + AllocGlobal>(rt: &R) -> Result<(), Fault> {
    let mut rows = String::new(rt.alloc());
    rt.reader()
        .read_to_string(&mut rows)
        .map_err(|error| fault_of(&error, Fault::Input))?;
    for row in rows.as_str().lines() {
        let word = if is_right(rt, row)? { "right" } else { "wrong" };
        println!(rt; "{row}: {word}").map_err(|_error: io::Error| Fault::Output)?;
    }
    Ok(())
}

/// Says that what the calls are asked about is made: from here on no memory grows.
fn say_ready<E: Eprint>(rt: &E) {
    let _ = eprintln!(rt; "ready");
}

/// Makes the calls of this row. Whether each is answered as it has to be.
fn is_right<R: Eprint + AllocGlobal>(rt: &R, row: &str) -> Result<bool, Fault> {
    match row {
        "a table" => table(rt),
        "a tree" => tree(rt),
        "an argument" => argument(rt),
        "an empty value" => empty_value(rt),
        "a file of words" => file_of_words(rt),
        "a digest" => Ok(digest(rt)),
        "time macros" => Ok(finder(rt)),
        "slices" => slices(rt),
        "a copy" => copy(rt),
        _ => is_kept_right(rt, row),
    }
}

/// The same of rows on what is kept.
fn is_kept_right<R: Eprint + AllocGlobal>(rt: &R, row: &str) -> Result<bool, Fault> {
    match row {
        "a map store" => map_store(rt),
        "a bounded store" => bounded_store(rt),
        "an include record" => count_includes(rt),
        "keys" => compare_keys(rt),
        "moments" => Ok(compare_moments(rt)),
        "fingerprints" => explain_fingerprints(rt),
        _ => Err(Fault::Row),
    }
}
