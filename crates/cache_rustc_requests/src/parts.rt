//! The files that a rustc runs and takes from its own folder. They may be replaced without it, so its digest is theirs too.

use crate::words::begins_with;
use cache_host::HostError;
use memchr::memmem;
use std::alloc::Global;
use std::collections::BTreeSet;
use std::fs;
use std::rt::Files;

/// Adds the regular files of a folder whose names are wanted, where it is there.
fn add_files<R: Files + AllocGlobal>(
    rt: &R,
    folder: &str,
    wanted: Wanted,
    files: &mut BTreeSet<String>,
) -> Result<(), HostError> {
    let Ok(entries) = fs::read_dir(&rt, folder) else {
        return Ok(());
    };
    for entry in entries {
        let Ok(entry) = entry else {
            continue;
        };
        if !wanted.has(entry.file_name().as_bytes()) {
            continue;
        }
        let path = format!(in rt.alloc(); "{folder}/{}", entry.file_name())?;
        if fs::metadata(rt, path.as_str()).is_ok_and(|found| found.is_file()) {
            files.insert(path)?;
        }
    }
    Ok(())
}

/// Which files of a folder are wanted.
#[derive(Clone, Copy)]
enum Wanted {
    All,
    SharedLibraries,
    Archives,
    /// Libraries of a name by which rustc, or what it runs, asks for one.
    Loaded,
}

/// What the names of libraries begin with that are a rustc's own.
const OWN_LIBRARIES: [&str; 3] = ["libLLVM", "librustc_driver", "libstd-"];

impl Wanted {
    /// Whether a file of that name is.
    fn has(self, name: &[u8]) -> bool {
        match self {
            Wanted::All => true,
            Wanted::SharedLibraries => has_part(name, b".so"),
            Wanted::Loaded => has_part(name, b".so.") || is_own_library(name),
            Wanted::Archives => name.ends_with(b".a") || name.ends_with(b".lib"),
        }
    }
}

/// Whether a name contains these bytes.
fn has_part(name: &[u8], part: &[u8]) -> bool {
    memmem::find(name, part).is_some()
}

/// Whether a file of that name is one of a rustc's own libraries.
fn is_own_library(name: &[u8]) -> bool {
    begins_with(&OWN_LIBRARIES, name)
}

/// Whether a folder of the variable `LD_LIBRARY_PATH` has libraries that may be loaded in the place of those of a rustc and the system.
pub fn has_loaded<R: Files + AllocGlobal>(rt: &R, folder: &str) -> Result<bool, HostError> {
    let mut files = BTreeSet::new(rt.alloc());
    add_files(rt, folder, Wanted::Loaded, &mut files)?;
    Ok(!files.is_empty())
}

/// The static libraries of a folder.
pub fn archives_in<R: Files + AllocGlobal>(rt: &R, folder: &str) -> Result<Vec<String>, HostError> {
    let mut files = BTreeSet::new(rt.alloc());
    add_files(rt, folder, Wanted::Archives, &mut files)?;
    in_row(rt.alloc(), files)
}

/// The machine in the version that a rustc prints, in its line `host: `.
fn machine_in(version: &str) -> Option<&str> {
    for line in version.lines() {
        if let Some(machine) = line.strip_prefix("host: ") {
            return Some(machine);
        }
    }
    None
}

/// The rustc and the shared libraries that it runs.
pub fn driver_files<R: Files + AllocGlobal>(
    rt: &R,
    file: &str,
    sysroot: &str,
) -> Result<Vec<String>, HostError> {
    let mut files = BTreeSet::new(rt.alloc());
    let folder = format!(in rt.alloc(); "{sysroot}/lib")?;
    add_files(rt, folder.as_str(), Wanted::SharedLibraries, &mut files)?;
    files.insert(String::from_str(rt.alloc(), file)?)?;
    in_row(rt.alloc(), files)
}

/// Adds the crates of the standard library for a machine, and what else lies beside them.
fn add_machine<R: Files + AllocGlobal>(
    rt: &R,
    sysroot: &str,
    machine: &str,
    files: &mut BTreeSet<String>,
) -> Result<(), HostError> {
    let folder = format!(in rt.alloc(); "{sysroot}/lib/rustlib/{machine}/lib")?;
    add_files(rt, folder.as_str(), Wanted::All, files)
}

/// The crates of the standard library for these machines, and what else lies beside them.
pub fn library_files<R: Files + AllocGlobal>(
    rt: &R,
    sysroot: &str,
    version: &str,
    target: Option<&str>,
) -> Result<Vec<String>, HostError> {
    let mut files = BTreeSet::new(rt.alloc());
    if let Some(machine) = machine_in(version) {
        add_machine(rt, sysroot, machine, &mut files)?;
    }
    if let Some(machine) = target {
        add_machine(rt, sysroot, machine, &mut files)?;
    }
    in_row(rt.alloc(), files)
}

/// These in a row.
fn in_row(alloc: Global, files: BTreeSet<String>) -> Result<Vec<String>, HostError> {
    let mut row = Vec::new(alloc);
    for file in files {
        row.push(file)?;
    }
    Ok(row)
}
