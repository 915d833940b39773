//! What is bound to the key of a call beside what the session hashes of it.

use crate::parts::{archives_in, has_loaded};
use crate::words::begins_with;
use base_files::{Files as CallFiles, Listed, OsBytes, join};
use base_snapshots::SnapshotFiles;
use cache_dir::digest_of;
use cache_disk::read_whole;
use cache_host::{Additions, CommandLine, HostError, into_text};
use memchr::{memchr, memmem};
use std::alloc::Global;
use std::rt::Files;

/// What the names of variables begin with that pass to the session what is bound to a key: it hashes cargo's variables.
const OWN: &str = "CARGO_GULMAAT_";

/// The variable that passes all additions to it.
const VARIABLE: &str = "CARGO_GULMAAT_ADDITIONS";

/// Variables by which rustc makes something else, though no text on dependencies names them.
const READ: [&str; 7] = [
    "IPHONEOS_DEPLOYMENT_TARGET",
    "MACOSX_DEPLOYMENT_TARGET",
    "RUSTC_BOOTSTRAP",
    "RUSTC_FORCE_RUSTC_VERSION",
    "RUSTC_OVERRIDE_VERSION_STRING",
    "SDKROOT",
    "SOURCE_DATE_EPOCH",
];

/// Crates that lie in the folder of rustc's own toolchain.
const OWN_CRATES: [&str; 5] = ["alloc", "core", "proc_macro", "std", "test"];

/// What a file says of this machine's processor.
const PROCESSOR: &str = "/proc/cpuinfo";

/// What the lines of that file begin with that count.
const OF_PROCESSOR: [&str; 5] = ["cpu family", "flags", "model", "stepping", "vendor_id"];

/// The values of an option, which come right after it, for a long one after `=`, or are the next word.
fn values_of<'a>(
    alloc: Global,
    words: &'a [OsBytes],
    option: &str,
) -> Result<Vec<&'a [u8]>, HostError> {
    let mut values = Vec::new(alloc);
    let mut is_next = false;
    for word in words {
        let word = word.as_bytes();
        if is_next {
            values.push(word)?;
            is_next = false;
        } else if let Some(rest) = word.strip_prefix(option.as_bytes()) {
            is_next = rest.is_empty();
            let value = match option.starts_with("--") {
                true => rest.strip_prefix(b"=".as_slice()),
                false => Some(rest),
            };
            if let (false, Some(value)) = (is_next, value) {
                values.push(value)?;
            }
        }
    }
    Ok(values)
}

/// Adds the first processor of this machine, where code is made for whatever it is.
fn add_processor<R: Files + AllocGlobal>(
    rt: &R,
    words: &[OsBytes],
    additions: &mut Additions,
) -> Result<(), HostError> {
    let is_native = words
        .iter()
        .any(|word| memmem::find(word.as_bytes(), b"native").is_some());
    if !is_native {
        return Ok(());
    }
    let said = read_whole(rt, PROCESSOR)?;
    for line in said.as_slice().split(|byte| *byte == b'\n') {
        if line.is_empty() {
            break;
        }
        if begins_with(&OF_PROCESSOR, line) {
            additions.add(rt.alloc(), "processor", line)?;
        }
    }
    Ok(())
}

/// A crate that a word names: what comes before its path, and that path as it is written, where there is one.
fn crate_in(value: &[u8]) -> (&[u8], Option<&[u8]>) {
    match memchr(b'=', value) {
        Some(at) => {
            let (name, rest) = value.split_at_checked(at).unwrap_or((value, &[]));
            (name, rest.get(1..))
        }
        None => (value, None),
    }
}

/// Adds the folders from which libraries may be loaded in the place of those of rustc and the system. Cargo names the folder of the build's own
/// crates too, in which there are none.
fn add_loaded<R: Files + AllocGlobal>(
    rt: &R,
    line: &CommandLine,
    additions: &mut Additions,
) -> Result<(), HostError> {
    let folders = line.value_of(b"LD_LIBRARY_PATH");
    for folder in folders.split(|byte| *byte == b':') {
        let Ok(place) = str::from_utf8(folder) else {
            return Err(HostError::Unreadable);
        };
        if !place.is_empty() && has_loaded(rt, place)? {
            additions.add(rt.alloc(), "library path", folder)?;
        }
    }
    Ok(())
}

/// Adds the libraries of each folder in which libraries are searched: a source may have one of them put into the crate.
fn add_libraries<R: Files + AllocGlobal>(
    rt: &R,
    line: &CommandLine,
    words: &[OsBytes],
    additions: &mut Additions,
) -> Result<(), HostError> {
    for value in values_of(rt.alloc(), words, "-L")? {
        let Some(folder) = value.strip_prefix(b"native=".as_slice()) else {
            continue;
        };
        let folder = into_text(join(rt.alloc(), line.dir.as_bytes(), folder)?)?;
        let libraries = archives_in(rt, folder.as_str())?;
        if !libraries.is_empty() {
            let digest = line.folder.digest_of_files(rt, libraries.as_slice())?;
            additions.add(rt.alloc(), "libraries", digest.as_bytes())?;
        }
    }
    Ok(())
}

/// Whether a word names a crate that lies in the folder of rustc's own toolchain.
fn is_own_crate(name: &[u8]) -> bool {
    for own in &OWN_CRATES {
        if name.ends_with(own.as_bytes()) {
            return true;
        }
    }
    false
}

/// Adds under which name each crate is known to the source: the session hashes them in the order of their places. A crate without a place
/// that isn't rustc's own is searched, and so is refused.
fn add_crates(
    alloc: Global,
    line: &CommandLine,
    words: &[OsBytes],
    files: &mut SnapshotFiles,
    additions: &mut Additions,
) -> Result<(), HostError> {
    for value in values_of(alloc, words, "--extern")? {
        let (name, place) = crate_in(value);
        additions.add(alloc, "crate", name)?;
        match place {
            Some(place) => {
                let path = join(alloc, line.dir.as_bytes(), place)?;
                let Ok(Some(digest)) = files.read(alloc, &path) else {
                    return Err(HostError::Unreadable);
                };
                additions.add(alloc, "crate's digest", digest.as_bytes())?;
            }
            None if is_own_crate(name) => {}
            None => return Err(HostError::Parts),
        }
    }
    Ok(())
}

/// What is bound to the key of a call with these words, whose crates are loaded.
pub fn additions_of<R: Files + AllocGlobal>(
    rt: &R,
    line: &CommandLine,
    words: &[OsBytes],
    files: &mut SnapshotFiles,
) -> Result<Additions, HostError> {
    let alloc = rt.alloc();
    let mut additions = Additions::new(alloc);
    for name in &READ {
        additions.add_if_any(alloc, name, line.value_of(name.as_bytes()))?;
    }
    for value in values_of(alloc, words, "--check-cfg")? {
        additions.add(alloc, "checked configuration", value)?;
    }
    add_crates(alloc, line, words, files, &mut additions)?;
    add_libraries(rt, line, words, &mut additions)?;
    add_loaded(rt, line, &mut additions)?;
    add_processor(rt, words, &mut additions)?;
    Ok(additions)
}

/// The variables of a call that are passed to the session: those that it hashes.
pub fn variables_of(
    alloc: Global,
    line: &CommandLine,
) -> Result<Listed<(OsBytes, OsBytes)>, HostError> {
    let mut env = Listed::new(alloc);
    for (name, value) in line.env.as_slice() {
        let bytes = name.as_bytes();
        if bytes.starts_with(b"CARGO_") && !bytes.starts_with(OWN.as_bytes()) {
            env.push((name.clone()?, value.clone()?))?;
        }
    }
    Ok(env)
}

/// The variable that stands for all additions. The session takes text alone, so it is given their digest.
pub fn variable_of(alloc: Global, additions: &Additions) -> Result<(OsBytes, OsBytes), HostError> {
    let digest = digest_of(alloc, additions.variable(alloc)?.1.as_bytes())?;
    let name = OsBytes::from_slice(alloc, VARIABLE.as_bytes())?;
    Ok((name, OsBytes::from_vec(digest.into_bytes())))
}
