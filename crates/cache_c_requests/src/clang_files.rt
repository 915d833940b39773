//! What a Clang loads and reads beside its driver: its libraries, and the configuration files whose words come before those of each call.

use crate::compilers::file_name;
use cache_host::{CommandLine, HostError};
use memchr::memmem;
use std::alloc::Global;
use std::collections::BTreeSet;
use std::fs;
use std::rt::Files;

/// Whether a file of that name is one of Clang's own libraries.
fn is_library(name: &[u8]) -> bool {
    (name.starts_with(b"libLLVM") || name.starts_with(b"libclang-cpp"))
        && memmem::find(name, b".so").is_some()
}

/// Adds Clang's libraries in that folder, with all links followed.
fn add_libraries<R: Files + AllocGlobal>(
    rt: &R,
    folder: &str,
    libraries: &mut BTreeSet<String>,
) -> Result<(), HostError> {
    let Ok(entries) = fs::read_dir(&rt, folder) else {
        return Ok(());
    };
    for entry in entries {
        let Ok(entry) = entry else {
            continue;
        };
        if !is_library(entry.file_name().as_bytes()) {
            continue;
        }
        if let Ok(file) = fs::canonicalize(rt, entry.path()) {
            libraries.insert(String::from_str(rt.alloc(), file.as_str())?)?;
        }
    }
    Ok(())
}

/// Clang's libraries beside the folder that it lies in.
fn libraries_beside<R: Files + AllocGlobal>(
    rt: &R,
    folder: &str,
) -> Result<BTreeSet<String>, HostError> {
    let alloc = rt.alloc();
    let mut libraries = BTreeSet::new(alloc);
    let Some((above, _)) = folder.rsplit_once('/') else {
        return Ok(libraries);
    };
    for name in &["lib", "lib64"] {
        let folder = format!(in alloc; "{above}/{name}")?;
        add_libraries(rt, folder.as_str(), &mut libraries)?;
    }
    Ok(libraries)
}

/// Pushes the name of a file that begins and ends so.
fn push_configuration(
    alloc: Global,
    front: &str,
    ending: &str,
    names: &mut Vec<String>,
) -> Result<(), HostError> {
    Ok(names.push(format!(in alloc; "{front}{ending}")?)?)
}

/// The names of the files in which a Clang of that name looks for words: by the name, by the machine that it begins with, and by that with
/// the language after it.
fn names_of_words(alloc: Global, driver: &str) -> Result<Vec<String>, HostError> {
    let mut names = Vec::new(alloc);
    push_configuration(alloc, driver, ".cfg", &mut names)?;
    for (at, byte) in driver.as_bytes().iter().enumerate() {
        let Some((machine, _)) = driver.split_at_checked(at) else {
            continue;
        };
        if *byte == b'-' {
            push_configuration(alloc, machine, ".cfg", &mut names)?;
            push_configuration(alloc, machine, "-clang.cfg", &mut names)?;
            push_configuration(alloc, machine, "-clang++.cfg", &mut names)?;
        }
    }
    Ok(names)
}

/// Whether there is a configuration file beside a driver of that name. It isn't looked into, so nothing is kept of such a compiler.
fn has_words<R: Files + AllocGlobal>(
    rt: &R,
    folder: &str,
    driver: &str,
) -> Result<bool, HostError> {
    for name in names_of_words(rt.alloc(), driver)? {
        let place = format!(in rt.alloc(); "{folder}/{name}")?;
        if fs::metadata(rt, place.as_str()).is_ok() {
            return Ok(true);
        }
    }
    Ok(false)
}

/// Adds the libraries that a Clang loads, which lie beside its driver. They are looked for in each call: a link to one may be turned to
/// another file. A configuration file beside the driver is an error.
pub(crate) fn add_clang_files<R: Files + AllocGlobal>(
    rt: &R,
    line: &CommandLine,
    files: &mut Vec<String>,
) -> Result<(), HostError> {
    let driver = line.executable.as_str();
    let file = fs::canonicalize(rt, driver)?;
    let Some((folder, _)) = file.as_str().rsplit_once('/') else {
        return Ok(());
    };
    if has_words(rt, folder, file_name(driver))? {
        return Err(HostError::Configuration);
    }
    for library in libraries_beside(rt, folder)? {
        files.push(library)?;
    }
    Ok(())
}

/// Whether a Clang said that it read a configuration file, by what it printed when it was asked for its version.
pub(crate) fn names_configuration(said: &[u8]) -> bool {
    memmem::find(said, b"Configuration file: ").is_some()
}
