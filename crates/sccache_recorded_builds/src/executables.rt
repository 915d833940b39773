//! Compilers by the file names of their executables.
//!
//! | file name | compiler |
//! |---|---|
//! | `cc`, `gcc`, `c++`, `g++`, perhaps with a target before and a version after it, as `aarch64-linux-gnu-gcc-13.2` | Gcc |
//! | `clang`, `clang++`, likewise | Clang |
//! | `cl` | Msvc |
//! | `dcc` | Diab |
//! | `cctc` | TaskingVX |
//! | `rustc` | rustc |
//!
//! Each may end in `.exe`. The file name is what comes after the last slash of either kind.

use cmdlines_tables::{CCompilerKind, Spelling};

/// A compiler whose words can be read.
#[derive(Clone, Copy, Debug, PartialEq, Eq)]
pub enum EntryCompiler {
    C(CCompilerKind),
    Rustc,
}

/// What comes after the last slash of either kind.
fn file_name(path: &[u8]) -> &[u8] {
    let mut name = path;
    for (at, byte) in path.iter().enumerate() {
        if matches!(byte, b'/' | b'\\') {
            name = path.get(at.saturating_add(1)..).unwrap_or(path);
        }
    }
    name
}

/// The name without `.exe` at its end.
fn without_exe(name: &[u8]) -> &[u8] {
    match name.strip_suffix(b".exe") {
        Some(stem) => stem,
        None => name,
    }
}

fn is_version(part: &[u8]) -> bool {
    !part.is_empty() && part.iter().all(|byte| matches!(*byte, b'0'..=b'9' | b'.'))
}

/// The name of the compiler alone: of the parts between dashes the last one that is no version.
fn without_target_and_version(name: &[u8]) -> &[u8] {
    let mut parts = name.rsplit(|byte| *byte == b'-');
    match (parts.next(), parts.next()) {
        (Some(version), Some(stem)) if is_version(version) => stem,
        (Some(stem), _) => stem,
        (None, _) => name,
    }
}

/// The C compiler with an executable of that file name. The names of those like Gcc may have a target and a version about them.
fn c_compiler_of(name: &[u8]) -> Option<CCompilerKind> {
    let bare = without_target_and_version(name);
    for kind in CCompilerKind::ALL.iter() {
        let is_called_so = match kind.spelling() {
            Spelling::Gnu => kind.has_executable(bare),
            Spelling::Plain | Spelling::Msvc => kind.has_executable(name),
        };
        if is_called_so {
            return Some(*kind);
        }
    }
    None
}

/// The compiler that an executable of this path is, where its name shows it.
pub fn compiler_of(executable: &[u8]) -> Option<EntryCompiler> {
    let name = without_exe(file_name(executable));
    if matches!(name, b"rustc") {
        return Some(EntryCompiler::Rustc);
    }
    Some(EntryCompiler::C(c_compiler_of(name)?))
}

/// Whether an executable of this path runs the compiler that the words after it name.
pub fn is_wrapper(executable: &[u8]) -> bool {
    let name = without_exe(file_name(executable));
    matches!(name, b"ccache" | b"sccache" | b"distcc")
}

/// The compiler of this name, as `--lines` takes it.
pub fn compiler_called(name: &str) -> Option<EntryCompiler> {
    if matches!(name, "rustc") {
        return Some(EntryCompiler::Rustc);
    }
    Some(EntryCompiler::C(CCompilerKind::from_name(name)?))
}
