//! Words of commands: cut by the tree of a compiler's flags or by its tables one after the other, parsed, or copied.

use crate::words::{Tally, copy};
use base_files::{MemoryFiles, OsBytes};
use cmdlines::Gcc;
use cmdlines_base::{ArgInfo, ArgParseError, CompilerArguments, SearchableArgInfo};
use cmdlines_response_files::ParseFault;
use cmdlines_tables::{ArgData, CCompilerKind, ParsedArguments, arguments_of, compiler_tree};
use std::alloc::{AllocError, Global};

/// Tallies the flags of the arguments that the words are cut into: there are as many as arguments, and no bytes of one that has none.
fn cut<S: SearchableArgInfo<ArgData>>(
    alloc: Global,
    kind: CCompilerKind,
    table: &S,
    words: &[OsBytes],
) -> Result<Tally, AllocError> {
    let mut tally = Tally::none();
    for next in arguments_of(alloc, kind, table, words) {
        let argument = match next {
            Ok(argument) => argument,
            Err(ArgParseError::Memory) => return Err(AllocError),
            Err(_) => return Ok(tally),
        };
        let flag = argument.flag_str().map_or(0, str::len);
        tally.count = tally.count.wrapping_add(1);
        tally.bytes = tally.bytes.wrapping_add(flag);
    }
    Ok(tally)
}

/// Cuts the words by that table so often.
fn cuttings<S: SearchableArgInfo<ArgData>>(
    alloc: Global,
    kind: CCompilerKind,
    table: &S,
    words: &[OsBytes],
    repeats: u32,
) -> Result<Tally, AllocError> {
    let mut last = Tally::none();
    for _ in 0..repeats {
        last = cut(alloc, kind, table, words)?;
    }
    Ok(last)
}

/// Cuts the words so often by the compiler's tree.
pub(crate) fn tree_cuttings(
    alloc: Global,
    kind: CCompilerKind,
    words: &[OsBytes],
    repeats: u32,
) -> Result<Tally, AllocError> {
    let tree = compiler_tree(alloc, kind)?;
    cuttings(alloc, kind, &tree, words, repeats)
}

/// Cuts the words so often by the compiler's table, or by its two, one after the other.
pub(crate) fn table_cuttings(
    alloc: Global,
    kind: CCompilerKind,
    words: &[OsBytes],
    repeats: u32,
) -> Result<Tally, AllocError> {
    match kind.tables(alloc)? {
        (table, None) => cuttings(alloc, kind, &table, words, repeats),
        (first, Some(second)) => cuttings(alloc, kind, &(first, second), words, repeats),
    }
}

/// Makes the compiler's tree so often, and searches it for `-c`: what is tallied are the nodes that were looked at, and the flag.
pub(crate) fn trees(alloc: Global, kind: CCompilerKind, repeats: u32) -> Result<Tally, AllocError> {
    let mut last = Tally::none();
    for _ in 0..repeats {
        let tree = compiler_tree(alloc, kind)?;
        let (entry, count) = tree.search_counted(b"-c");
        let bytes = entry.map_or(0, |entry: &ArgInfo<ArgData>| entry.flag().len());
        last = Tally { count, bytes };
    }
    Ok(last)
}

/// Parses the words for Gcc so often, by the tree of one compiler, and tallies the options of its preprocessor.
pub(crate) fn parses(alloc: Global, words: &[OsBytes], repeats: u32) -> Result<Tally, ParseFault> {
    let gcc = Gcc::new(alloc, false, None, None)?;
    parses_by(alloc, &gcc, words, repeats)
}

/// Tallies the options of the preprocessor that a request has.
fn tally_of(asked: &CompilerArguments<ParsedArguments>) -> Tally {
    match asked {
        CompilerArguments::Ok(parsed) => Tally::of(parsed.preprocessor_args.as_slice()),
        _ => Tally::none(),
    }
}

/// Parses the words by this compiler so often.
fn parses_by(
    alloc: Global,
    gcc: &Gcc,
    words: &[OsBytes],
    repeats: u32,
) -> Result<Tally, ParseFault> {
    let dir = OsBytes::from_slice(alloc, b"/w")?;
    let mut files = MemoryFiles::new(alloc);
    let mut last = Tally::none();
    for _ in 0..repeats {
        let asked = gcc.parse_arguments(alloc, words, &dir, &mut files)?;
        last = tally_of(&asked);
        drop(asked);
    }
    Ok(last)
}

/// Copies the words so often.
pub(crate) fn word_copies(
    alloc: Global,
    words: &[OsBytes],
    repeats: u32,
) -> Result<Tally, AllocError> {
    let mut last = Tally::none();
    for _ in 0..repeats {
        last = copy(alloc, words)?;
    }
    Ok(last)
}
