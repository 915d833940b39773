//! Why a call of rustc was compiled, for `--why`.

use crate::noted_parts::{name_of_parts, told_of_parts};
use base_files::{Listed, OsBytes};
use base_snapshots::SnapshotFiles;
use cache_host::HostError;
use cmdlines_base::CompilerArguments;
use rustc_options::parsed::ParsedArguments;
use rustkeys_base::parse::parse_arguments;
use std::alloc::Global;
use std::rt::Files;
use wrap_base::Reason;

/// How many names words may ask about as they are parsed.
const NAMES: u32 = 64;

/// What words ask rustc for.
type Asked = CompilerArguments<ParsedArguments>;

/// What words ask rustc for, where no file lies under any name.
fn asked_of(alloc: Global, words: &[OsBytes], dir: &OsBytes) -> Result<Asked, HostError> {
    let mut files = SnapshotFiles::new(alloc);
    for _ in 0..NAMES {
        if let Ok(arguments) = parse_arguments(alloc, words, dir, &mut files) {
            return Ok(arguments);
        }
        let Some(name) = files.wanted() else {
            break;
        };
        let name = name.clone()?;
        files.load_absent(name)?;
    }
    Err(HostError::Unreadable)
}

/// Says in a line of the last call in that folder with these outputs that was compiled.
fn tell<R: Print + Files + AllocGlobal>(
    rt: &R,
    kept: &str,
    dir: &OsBytes,
    parsed: &ParsedArguments,
) -> Result<(), HostError> {
    let name = name_of_parts(rt.alloc(), dir.as_bytes(), parsed)?;
    let difference = told_of_parts(rt, kept, name.as_str())?;
    let made = &parsed.crate_name;
    println!(rt; "{made}: {difference}")?;
    Ok(())
}

/// Says that words are passed through.
fn tell_pass<R: Print>(rt: &R, reason: Reason) -> Result<(), HostError> {
    println!(rt; "pass: {reason}")?;
    Ok(())
}

/// Reports on a call in that folder that asks for this.
fn tell_asked<R: Print + Files + AllocGlobal>(
    rt: &R,
    kept: &str,
    dir: &OsBytes,
    asked: Asked,
) -> Result<(), HostError> {
    match asked {
        CompilerArguments::Ok(parsed) => {
            let told = tell(rt, kept, dir, &parsed);
            drop(parsed);
            told
        }
        CompilerArguments::NotCompilation => tell_pass(rt, Reason::NotCompilation),
        CompilerArguments::CannotCache(reason, more) => {
            tell_pass(rt, Reason::CannotCache(reason, more))
        }
    }
}

/// The words as bytes.
fn words_in(alloc: Global, words: &[String]) -> Result<Listed<OsBytes>, HostError> {
    let mut copies = Listed::new(alloc);
    for word in words {
        copies.push(OsBytes::from_slice(alloc, word.as_bytes())?)?;
    }
    Ok(copies)
}

/// Says in a line, of the last call in that folder with the outputs of this command that was compiled, what differed from the one before it.
pub fn why_of_rustc<R: Print + Files + AllocGlobal>(
    rt: &R,
    kept: &str,
    dir: &str,
    words: &[String],
) -> Result<(), HostError> {
    let dir = OsBytes::from_slice(rt.alloc(), dir.as_bytes())?;
    let words = words_in(rt.alloc(), words)?;
    let asked = asked_of(rt.alloc(), words.as_slice(), &dir)?;
    tell_asked(rt, kept, &dir, asked)
}
