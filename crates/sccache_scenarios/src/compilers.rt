//! The compiler of a request, from the members that describe it.

use crate::byte_text::{read_byte_text, read_texts};
use crate::members::{into_text, read_text, read_truth};
use crate::scenario::ScenarioFault;
use base_files::{Listed, MemoryFiles, OsBytes};
use cmdlines_tables::CCompilerKind;
use rustc_compiler::{Rust, RustFault};
use serde_json::{Map, Value};
use sha2::Sha256;
use std::alloc::Global;
use wrap_base::{CDescription, Compiler};

/// The name of rustc.
pub(crate) const RUSTC: &str = "rustc";

/// The digest of a compiler for which none is named.
const DEFAULT_DIGEST: &str = "d";

/// What a rustc of which no version is named says of it.
const DEFAULT_VERSION: &str = "host: x";

/// The folder of libraries of a rustc for which none is named.
const DEFAULT_SYSROOT: &str = "/s";

impl From<RustFault> for ScenarioFault {
    fn from(fault: RustFault) -> ScenarioFault {
        match fault {
            RustFault::Memory => ScenarioFault::Memory,
            RustFault::NoHost | RustFault::Read(_) => ScenarioFault::Unreadable,
        }
    }
}

/// The compiler of that name, as a request's members give it. The files are the request's own, among which are those of a toolchain.
pub(crate) fn read_compiler(
    alloc: Global,
    name: &str,
    members: &mut Map<String, Value>,
    files: &mut MemoryFiles,
) -> Result<Compiler, ScenarioFault> {
    let executable = read_executable(alloc, members.remove("executable"), name)?;
    if name == RUSTC {
        Ok(Compiler::Rust(read_rust(alloc, executable, members, files)?))
    } else {
        read_c_compiler(alloc, name, executable, members)
    }
}

/// The C compiler of that name and executable. Its version isn't known.
fn read_c_compiler(
    alloc: Global,
    name: &str,
    executable: OsBytes,
    members: &mut Map<String, Value>,
) -> Result<Compiler, ScenarioFault> {
    let executable_digest = read_text(alloc, members.remove("digest"), DEFAULT_DIGEST)?;
    let plusplus = read_truth(members.remove("plusplus"))?;
    let assembler_digest = read_assembler(members.remove("assembler"))?;
    let Some(kind) = CCompilerKind::from_name(name) else {
        return Err(ScenarioFault::Unreadable);
    };
    let described = CDescription {
        plusplus,
        version: None,
        assembler_digest,
        executable,
        executable_digest,
    };
    Ok(Compiler::of_kind(alloc, kind, described)?)
}

/// The rustc of that executable.
fn read_rust(
    alloc: Global,
    executable: OsBytes,
    members: &mut Map<String, Value>,
    files: &mut MemoryFiles,
) -> Result<Rust, ScenarioFault> {
    let version = read_text(alloc, members.remove("version"), DEFAULT_VERSION)?;
    let sysroot = read_text(alloc, members.remove("sysroot"), DEFAULT_SYSROOT)?;
    let libraries = read_libraries(alloc, members.remove("libs"))?;
    let archive = read_archive(members.remove("archive"))?;
    Ok(Rust::new::<Sha256, MemoryFiles>(
        alloc,
        executable,
        OsBytes::from_vec(version.into_bytes()),
        OsBytes::from_vec(sysroot.into_bytes()),
        libraries,
        archive,
        files,
    )?)
}

/// The executable, which has the compiler's name where none is given.
fn read_executable(
    alloc: Global,
    member: Option<Value>,
    name: &str,
) -> Result<OsBytes, ScenarioFault> {
    match member {
        Some(executable) => read_byte_text(alloc, executable),
        None => Ok(OsBytes::from_slice(alloc, name.as_bytes())?),
    }
}

/// The assembler's digest, where one is given.
fn read_assembler(member: Option<Value>) -> Result<Option<String>, ScenarioFault> {
    match member {
        Some(digest) => Ok(Some(into_text(digest)?)),
        None => Ok(None),
    }
}

/// The paths of a toolchain's libraries.
fn read_libraries(alloc: Global, member: Option<Value>) -> Result<Listed<OsBytes>, ScenarioFault> {
    match member {
        Some(paths) => read_texts(alloc, paths),
        None => Ok(Listed::new(alloc)),
    }
}

/// The path of a toolchain's archive, where one is given.
fn read_archive(member: Option<Value>) -> Result<Option<OsBytes>, ScenarioFault> {
    match member {
        Some(path) => Ok(Some(OsBytes::from_vec(into_text(path)?.into_bytes()))),
        None => Ok(None),
    }
}
