//! The program that `bench/run` times, whose allocations `bin/refusals` refuses, and that serves hostile runs. On a file it copies the
//! bytes, strips folders from them, splits them into words, walks over their markers or digests them; words in a file it cuts by a
//! compiler's tree or tables, parses or copies; on a chain of files in memory, each of which names the next one, it opens the chain or
//! copies it; and it makes trees, and looks into include records, makes keys, looks into stores, and reads and writes texts on dependencies
//! and bytes of rustc's keys: as often as it is asked. It prints one line of what the last call gave.
//!
//! With the argument `rows` alone it makes calls that take no memory, by rows that it reads from standard input. With `hostile`, and perhaps
//! `growths`, `record` or `key` after it, it does what `tests_hostile_runs` does with standard input.
#![tactic(auto)]

ghost use Rattle.std.specs.Prelude.{◌≡◌, IfOk, length};
ghost use Rattle.ckeys_base.specs.FolderPlaces.{text_places};
ghost use Rattle.ckeys_base.specs.FromTheLeft.{stripped_of};

mod commands;
mod keys;
mod recorded;
mod rustc;
mod stores;
mod walking;
mod without_memory;
mod words;

use crate::commands::{parses, table_cuttings, tree_cuttings, trees, word_copies};
use crate::keys::{copy_digests, keys, text_digests};
use crate::recorded::{file_digests, look_ups};
use crate::rustc::{key_copies, key_readings, key_writings, rewritings, source_readings};
use crate::stores::{bounded_turns, map_turns};
use crate::walking::{byte_searches, marker_tallies, walks};
use crate::without_memory::make_calls;
use crate::words::{Tally, chain_copies, gnu_splittings, msvc_splittings, openings};
use base_blake2::Blake2b256;
use base_files::OsBytes;
use ckeys_base::{Digest, HashState, error, strip_basedirs};
use ckeys_time_macros::reader_sync_time_macros;
use cmdlines_response_files::{ParseFault, split_gnu_response_file_args};
use cmdlines_tables::CCompilerKind;
use rustc_texts::TextFault;
use sha2::Sha256;
use std::alloc::{AllocError, AllocFailed, Global};
use std::fmt::Display;
use std::io::ErrorKind;
use std::process::ExitCode;
use std::rt::{Env, Files};
use std::{env, fs, io};
use thiserror::Error;

/// The status of a program that couldn't run.
const FAILED: u8 = 2;

/// Why nothing was called, or not to its end.
#[derive(Debug, Drop, Error)]
enum Fault {
    /// The words aren't those that are wanted.
    #[error("tests_calls: wanted are `rows`, `hostile`, or a work, a number of repeats, a file, a number of files, results or pairs, or a compiler, and folders, a file of names or a compiler")]
    Words,
    /// The file can't be read.
    #[error("tests_calls: the file cannot be read")]
    File,
    /// Standard input can't be read.
    #[error("tests_calls: rows cannot be read")]
    Input,
    /// A row names no calls.
    #[error("tests_calls: a row names no calls")]
    Row,
    /// The line can't be written.
    #[error("tests_calls: the line cannot be written")]
    Output,
    /// Out of memory.
    #[error("tests_calls: out of memory")]
    Memory,
}

impl From<AllocError> for Fault {
    fn from(_error: AllocError) -> Fault {
        Fault::Memory
    }
}

impl<T: Drop> From<AllocFailed<T>> for Fault {
    fn from(_error: AllocFailed<T>) -> Fault {
        Fault::Memory
    }
}

impl From<error::Error> for Fault {
    fn from(error: error::Error) -> Fault {
        match error {
            error::Error::Memory => Fault::Memory,
            _ => Fault::File,
        }
    }
}

impl From<ParseFault> for Fault {
    fn from(fault: ParseFault) -> Fault {
        match fault {
            ParseFault::Read(_) => Fault::File,
            ParseFault::Memory => Fault::Memory,
        }
    }
}

impl From<TextFault> for Fault {
    fn from(fault: TextFault) -> Fault {
        match fault {
            TextFault::NoRule => Fault::File,
            TextFault::Memory => Fault::Memory,
        }
    }
}

/// What the line says of a text: its length, and the byte in its middle, which the calls have to have written.
#[derive(Clone, Copy, Debug, PartialEq, Eq)]
struct Glance {
    length: usize,
    middle: u8,
}

impl Glance {
    /// A glance at this text. The byte is 0 where there is none.
    fn at(text: &[u8]) -> Glance
        ensures { result.length ≡ length text.now }
    {
        Glance {
            length: text.len(),
            middle: text.get(text.len() / 2).copied().unwrap_or(0),
        }
    }
}

fn main(rt: HostRuntime) -> ExitCode {
    match words_of(&rt) {
        Ok(words) => run_words(&rt, words.as_slice()),
        Err(fault) => failed(&rt, &fault),
    }
}

/// The arguments after the program's name.
fn words_of<R: Env + AllocGlobal>(rt: &R) -> Result<Vec<String>, Fault> {
    let words = env::args(rt).map_err(|error| fault_of(&error, Fault::Words))?;
    Ok(words.skip(1).collect(rt.alloc())?)
}

/// Out of memory where that is the cause of an I/O error, and the other fault where it is anything else.
fn fault_of(error: &io::Error, other: Fault) -> Fault {
    if error.kind() == ErrorKind::OutOfMemory {
        Fault::Memory
    } else {
        other
    }
}

/// Does what the words ask for: hostile runs, or calls.
fn run_words<R: Print + Eprint + Input + Files + AllocGlobal>(
    rt: &R,
    words: &[String],
) -> ExitCode {
    match words {
        [word, rest @ ..] if matches!(word.as_str(), "hostile") => {
            ended(rt, &tests_hostile_runs::run(rt, rest))
        }
        words => ended(rt, &do_words(rt, words)),
    }
}

/// The status of what was asked for, and why it wasn't done, if so.
fn ended<R: Eprint, E: Display + Drop>(rt: &R, done: &Result<(), E>) -> ExitCode {
    match done {
        Ok(()) => ExitCode::SUCCESS,
        Err(fault) => failed(rt, fault),
    }
}

/// Says why nothing was done, or not to its end.
fn failed<R: Eprint, E: Display>(rt: &R, fault: &E) -> ExitCode {
    let _ = eprintln!(rt; "{fault}");
    ExitCode::from(FAILED)
}

/// Makes the calls of rows, or prints the line that the words ask for: the work, the number of repeats, what the work is done on, and
/// folders, a file of names or a compiler.
fn do_words<R: Print + Eprint + Input + Files + AllocGlobal>(
    rt: &R,
    words: &[String],
) -> Result<(), Fault> {
    match words {
        [word] if matches!(word.as_str(), "rows") => make_calls(rt),
        [work, repeats, given, others @ ..] => {
            let line = line_for(rt, work, number_of(repeats)?, given, others)?;
            println!(rt; "{line}").map_err(|_error: io::Error| Fault::Output)
        }
        _ => Err(Fault::Words),
    }
}

/// Does the work so often on the file of that name, or on a chain of that number of files, and gives its line.
fn line_for<R: Files + AllocGlobal>(
    rt: &R,
    work: &String,
    repeats: u32,
    given: &String,
    others: &[String],
) -> Result<String, Fault> {
    match work.as_str() {
        "copy" | "strip" | "key" | "digest_text" | "digest_copy" => {
            text_line(rt, work, repeats, given, others)
        }
        "digest" => digests::<Sha256, R>(rt, given, repeats),
        "blake2b" => digests::<Blake2b256, R>(rt, given, repeats),
        "macros" => macro_digests(rt, given, repeats),
        _ => {
            let tally = tally_for(rt, work, repeats, given, others)?;
            Ok(tally_line(rt.alloc(), tally)?)
        }
    }
}

/// Does the work so often, and counts what it gives.
fn tally_for<R: Files + AllocGlobal>(
    rt: &R,
    work: &String,
    repeats: u32,
    given: &String,
    others: &[String],
) -> Result<Tally, Fault> {
    match work.as_str() {
        "gnu" | "msvc" | "markers" | "byte" => bytes_tally(rt, work, repeats, given),
        "walk" => walk_tally(rt, repeats, given, others),
        "expand" | "copy_chain" | "look_up" | "file_digests" => {
            file_tally(rt.alloc(), work, repeats, number_of(given)?)
        }
        "bounded_hits" | "bounded_misses" | "map_hits" | "map_misses" => {
            store_tally(rt.alloc(), work, repeats, number_of(given)?)
        }
        "read_deps" | "rewrite_deps" => text_tally(rt, work, repeats, given),
        "write_key" | "read_key" | "copy_key" => {
            key_tally(rt.alloc(), work, repeats, number_of(given)?)
        }
        "make_tree" => Ok(trees(rt.alloc(), kind_of(given)?, repeats)?),
        "by_tree" | "by_table" | "parse" | "copy_words" => {
            word_tally(rt, work, repeats, given, others)
        }
        _ => Err(Fault::Words),
    }
}

/// Does the work so often on the bytes of the file of that name.
fn bytes_tally<R: Files + AllocGlobal>(
    rt: &R,
    work: &String,
    repeats: u32,
    given: &String,
) -> Result<Tally, Fault> {
    let bytes = bytes_of(rt, given)?;
    match work.as_str() {
        "gnu" => Ok(gnu_splittings(rt.alloc(), &bytes, repeats)?),
        "msvc" => Ok(msvc_splittings(rt.alloc(), &bytes, repeats)?),
        "markers" => Ok(marker_tallies(&bytes, repeats)),
        _ => Ok(byte_searches(&bytes, repeats)),
    }
}

/// Walks so often over the text in the file of that name, with the files that the other one names.
fn walk_tally<R: Files + AllocGlobal>(
    rt: &R,
    repeats: u32,
    given: &String,
    others: &[String],
) -> Result<Tally, Fault> {
    let [names] = others else {
        return Err(Fault::Words);
    };
    let names = bytes_of(rt, names)?;
    let text = bytes_of(rt, given)?;
    Ok(walks(rt.alloc(), &text, &names, repeats)?)
}

/// Does the work so often on so many files in memory, or on the results over them.
fn file_tally(alloc: Global, work: &String, repeats: u32, files: u32) -> Result<Tally, Fault> {
    match work.as_str() {
        "expand" => Ok(openings(alloc, files, repeats)?),
        "copy_chain" => Ok(chain_copies(alloc, files, repeats)?),
        "look_up" => Ok(look_ups(alloc, files, repeats)?),
        _ => Ok(file_digests(alloc, repeats)?),
    }
}

/// Does the work so often on the text in the file of that name, perhaps without these folders.
fn text_line<R: Files + AllocGlobal>(
    rt: &R,
    work: &String,
    repeats: u32,
    given: &String,
    folders: &[String],
) -> Result<String, Fault> {
    let folders = list_of(rt.alloc(), folders)?;
    let text = bytes_of(rt, given)?;
    Ok(line_on(rt.alloc(), work, repeats, &text, &folders)?)
}

/// Does the work so often on that text, perhaps without these folders. It owns nothing, so that its ends cost no proof of drops.
fn line_on(
    alloc: Global,
    work: &String,
    repeats: u32,
    text: &[u8],
    folders: &[OsBytes],
) -> Result<String, AllocError> {
    match work.as_str() {
        "copy" => line_of(alloc, copies(alloc, text, repeats)?),
        "strip" => line_of(alloc, strippings(alloc, text, folders, repeats)?),
        "key" => keys(alloc, text, folders, repeats),
        "digest_text" => text_digests(alloc, text, repeats),
        _ => copy_digests(alloc, text, folders, repeats),
    }
}

/// Does the work so often on a store of so many pairs.
fn store_tally(alloc: Global, work: &String, repeats: u32, pairs: u32) -> Result<Tally, Fault> {
    let tally = match work.as_str() {
        "bounded_hits" => bounded_turns(alloc, true, pairs, repeats)?,
        "bounded_misses" => bounded_turns(alloc, false, pairs, repeats)?,
        "map_hits" => map_turns(alloc, true, pairs, repeats),
        "map_misses" => map_turns(alloc, false, pairs, repeats),
        _ => return Err(Fault::Words),
    };
    Ok(tally)
}

/// Does the work so often on the text on dependencies in the file of that name.
fn text_tally<R: Files + AllocGlobal>(
    rt: &R,
    work: &String,
    repeats: u32,
    given: &String,
) -> Result<Tally, Fault> {
    let bytes = bytes_of(rt, given)?;
    let Ok(text) = str::from_utf8(bytes.as_slice()) else {
        return Err(Fault::File);
    };
    match work.as_str() {
        "read_deps" => Ok(source_readings(rt.alloc(), text, repeats)?),
        _ => Ok(rewritings(rt.alloc(), text, repeats)?),
    }
}

/// Does the work so often on the bytes of a key of so many sources.
fn key_tally(alloc: Global, work: &String, repeats: u32, sources: u32) -> Result<Tally, Fault> {
    let tally = match work.as_str() {
        "write_key" => key_writings(alloc, sources, repeats)?,
        "read_key" => key_readings(alloc, sources, repeats)?,
        _ => key_copies(alloc, sources, repeats)?,
    };
    Ok(tally)
}

/// Does the work so often on the words in the file of that name, by the compiler that the other word names where it cuts them.
fn word_tally<R: Files + AllocGlobal>(
    rt: &R,
    work: &String,
    repeats: u32,
    given: &String,
    others: &[String],
) -> Result<Tally, Fault> {
    let text = bytes_of(rt, given)?;
    let words = split_gnu_response_file_args(rt.alloc(), &text)?;
    tally_on(rt.alloc(), work, repeats, &words, others)
}

/// Does the work so often on these words, by the compiler that the other word names where it cuts them.
fn tally_on(
    alloc: Global,
    work: &String,
    repeats: u32,
    words: &[OsBytes],
    others: &[String],
) -> Result<Tally, Fault> {
    match (work.as_str(), others) {
        ("by_tree", [kind]) => Ok(tree_cuttings(alloc, kind_of(kind)?, words, repeats)?),
        ("by_table", [kind]) => Ok(table_cuttings(alloc, kind_of(kind)?, words, repeats)?),
        ("parse", []) => Ok(parses(alloc, words, repeats)?),
        ("copy_words", []) => Ok(word_copies(alloc, words, repeats)?),
        _ => Err(Fault::Words),
    }
}

/// The kind of compiler that the word names.
fn kind_of(word: &String) -> Result<CCompilerKind, Fault> {
    CCompilerKind::from_name(word.as_str()).ok_or(Fault::Words)
}

/// The number that the word says.
fn number_of(word: &String) -> Result<u32, Fault> {
    match word.parse::<u32>() {
        Ok(number) => Ok(number),
        Err(_) => Err(Fault::Words),
    }
}

/// The file's bytes.
fn bytes_of<R: Files + AllocGlobal>(rt: &R, file: &String) -> Result<Vec<u8>, Fault> {
    fs::read(rt, file.as_str()).map_err(|error| fault_of(&error, Fault::File))
}

/// These folders as byte strings.
fn list_of(alloc: Global, folders: &[String]) -> Result<Vec<OsBytes>, AllocError> {
    let mut list = Vec::with_capacity(alloc, folders.len())?;
    for folder in folders {
        list.push(OsBytes::from_slice(alloc, folder.as_bytes())?)
            .map_err(AllocError::from)?;
    }
    Ok(list)
}

/// The line of a text.
fn line_of(alloc: Global, glance: Glance) -> Result<String, AllocError> {
    let Glance { length, middle } = glance;
    format!(in alloc; "{length} bytes, the middle one {middle}")
}

/// The line of a tally.
fn tally_line(alloc: Global, tally: Tally) -> Result<String, AllocError> {
    let Tally { count, bytes } = tally;
    format!(in alloc; "{count} strings of {bytes} bytes together")
}

/// A glance at a copy of the text.
fn copy(alloc: Global, text: &[u8]) -> Result<Glance, AllocError>
    ensures { IfOk result (λ seen. seen.length ≡ length text.now) }
{
    let copy = Vec::from_slice(alloc, text)?;
    Ok(Glance::at(copy.as_slice()))
}

/// A glance at the text without the folders that count in it.
fn strip(alloc: Global, text: &[u8], folders: &[OsBytes]) -> Result<Glance, AllocError>
    ensures { IfOk result
        (λ seen. seen.length ≡ length (stripped_of text_places folders.now text.now)) }
{
    let left = strip_basedirs(alloc, text, folders)?;
    Ok(Glance::at(left.as_slice()))
}

/// Copies the text so often.
fn copies(alloc: Global, text: &[u8], repeats: u32) -> Result<Glance, AllocError> {
    let mut last = Glance::at(text);
    for _ in 0..repeats {
        last = copy(alloc, text)?;
    }
    Ok(last)
}

/// Strips the folders from the text so often.
fn strippings(
    alloc: Global,
    text: &[u8],
    folders: &[OsBytes],
    repeats: u32,
) -> Result<Glance, AllocError> {
    let mut last = Glance::at(text);
    for _ in 0..repeats {
        last = strip(alloc, text, folders)?;
    }
    Ok(last)
}

/// Opens and digests the file so often.
fn digests<H: HashState, R: Files + AllocGlobal>(
    rt: &R,
    file: &String,
    repeats: u32,
) -> Result<String, Fault> {
    let mut last = String::new(rt.alloc());
    for _ in 0..repeats {
        let reader = fs::open(rt, file.as_str()).map_err(|_error: io::Error| Fault::File)?;
        last = Digest::<H>::reader_sync(rt.alloc(), reader)?;
    }
    Ok(last)
}

/// Opens the file so often, digests it, and looks for the macros of date and time in it.
fn macro_digests<R: Files + AllocGlobal>(
    rt: &R,
    file: &String,
    repeats: u32,
) -> Result<String, Fault> {
    let mut last = String::new(rt.alloc());
    for _ in 0..repeats {
        let reader = fs::open(rt, file.as_str()).map_err(|_error: io::Error| Fault::File)?;
        let (digest, finder) = reader_sync_time_macros::<Sha256, _>(rt.alloc(), reader)?;
        let found = u8::from(finder.found_time_macros());
        last = format!(in rt.alloc(); "{digest}, {found}")?;
    }
    Ok(last)
}
