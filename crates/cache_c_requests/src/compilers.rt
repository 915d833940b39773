//! The compiler of a command line, with its digest.

ghost use Rattle.std.specs.Prelude.{◌≡◌};

use crate::parts::{Driver, driver_of};
use base_files::OsBytes;
use cache_host::{Additions, CommandLine, Host, HostError};
use cmdlines_tables::CCompilerKind;
use sccache_recorded_builds::{EntryCompiler, compiler_of};
use std::alloc::Global;
use std::fs;
use std::io::Read;
use std::rt::Files;
use wrap_base::{CDescription, Compiler};

/// How names of compilers for Windows may end, by the kind of their threads, as on Debian.
const OF_THREADS: [&str; 2] = ["-win32", "-posix"];

/// A path without that end.
fn without_threads(path: &str) -> &str {
    for end in &OF_THREADS {
        if let Some(front) = path.strip_suffix(*end) {
            return front;
        }
    }
    path
}

/// The compiler that the file of this path is, with all links followed, where it is one that is supported here.
pub fn kind_of<R: Files + AllocGlobal>(
    rt: &R,
    path: &str,
) -> Result<Option<CCompilerKind>, HostError> {
    let file = fs::canonicalize(rt, path)?;
    match compiler_of(without_threads(file.as_str()).as_bytes()) {
        Some(EntryCompiler::C(CCompilerKind::Gcc)) => Ok(Some(CCompilerKind::Gcc)),
        Some(EntryCompiler::C(CCompilerKind::Clang)) => Ok(Some(CCompilerKind::Clang)),
        _ => Ok(None),
    }
}

/// Whether the executable is called as a compiler of C++.
fn is_plusplus(executable: &str) -> bool {
    file_name(executable).as_bytes().contains(&b'+')
}

/// Variables that give messages their language, their colours and the form of links in them.
const OF_MESSAGES: [&str; 8] = [
    "LANG",
    "LANGUAGE",
    "LC_ALL",
    "LC_CTYPE",
    "LC_MESSAGES",
    "GCC_COLORS",
    "GCC_URLS",
    "TERM_URLS",
];

/// Variables that choose what a compiler loads or makes, though no text shows it.
const OF_OBJECTS: [&str; 4] = [
    "LD_LIBRARY_PATH",
    "LLVM_OVERRIDE_PRODUCER",
    "MACOSX_DEPLOYMENT_TARGET",
    "RC_DEBUG_OPTIONS",
];

/// The name of a file, without the folders of its path.
pub(crate) fn file_name(path: &str) -> &str {
    match path.rsplit_once('/') {
        Some((_, name)) => name,
        None => path,
    }
}

/// Adds the folder of the call, by its name and by the one that the caller has for it, which compilers and assemblers prefer.
pub(crate) fn add_folder(
    alloc: Global,
    line: &CommandLine,
    additions: &mut Additions,
) -> Result<(), HostError> {
    additions.add(alloc, "folder", line.dir.as_bytes())?;
    additions.add_if_any(alloc, "PWD", line.value_of(b"PWD"))
}

/// Adds those of these variables that a call has.
fn add_variables(
    alloc: Global,
    line: &CommandLine,
    names: &[&'static str],
    additions: &mut Additions,
) -> Result<(), HostError> {
    for name in names {
        additions.add_if_any(alloc, name, line.value_of(name.as_bytes()))?;
    }
    Ok(())
}

/// Adds what a compiler does differently by its name, as a Clang that is called as one of C++ or for another machine, and by variables, though
/// no text shows it: its messages, and of a Clang the folder, whose name it writes into objects.
pub(crate) fn add_surroundings(
    alloc: Global,
    line: &CommandLine,
    kind: CCompilerKind,
    additions: &mut Additions,
) -> Result<(), HostError> {
    additions.add(
        alloc,
        "driver",
        file_name(line.executable.as_str()).as_bytes(),
    )?;
    add_variables(alloc, line, &OF_MESSAGES, additions)?;
    add_variables(alloc, line, &OF_OBJECTS, additions)?;
    match kind {
        CCompilerKind::Clang => add_folder(alloc, line, additions),
        _ => Ok(()),
    }
}

/// A compiler with its digest.
#[derive(Drop)]
pub struct KnownCompiler {
    pub compiler: Compiler,
    /// Whether its driver takes the word by which its messages are in colour.
    pub takes_color: bool,
}

/// The compiler of that kind, with that digest.
fn compiler_with(
    alloc: Global,
    line: &CommandLine,
    kind: CCompilerKind,
    executable_digest: String,
) -> Result<Compiler, HostError> {
    let described = CDescription {
        plusplus: is_plusplus(line.executable.as_str()),
        version: None,
        assembler_digest: None,
        executable: OsBytes::from_slice(alloc, line.executable.as_bytes())?,
        executable_digest,
    };
    Ok(Compiler::of_kind(alloc, kind, described)?)
}

/// The compiler of that kind, with its digest.
pub fn compiler_at<P: Print + Files + AllocGlobal, I: Read>(
    rt: &P,
    line: &CommandLine,
    host: &mut Host<I>,
    kind: CCompilerKind,
) -> Result<KnownCompiler, HostError>
    requires { host.old.compiled ≡ 0 }
    ensures { host.new.compiled ≡ 0 }
{
    let Driver { files, takes_color } = driver_of(rt, line, host, kind)?;
    let digest = line.folder.digest_of_files(rt, files.as_slice())?;
    let compiler = compiler_with(rt.alloc(), line, kind, digest)?;
    Ok(KnownCompiler {
        compiler,
        takes_color,
    })
}
