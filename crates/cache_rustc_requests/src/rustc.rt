//! A rustc as a session has it.

ghost use Rattle.std.specs.Prelude.{◌≡◌};

use crate::asking::said_for;
use crate::parts::{driver_files, library_files};
use base_blake2::Blake2b256;
use base_files::{FileTime, Listed, Metadata, OsBytes, file_name};
use base_snapshots::{LoadedFile, SnapshotFiles};
use cache_dir::{Kind, digest_of, state_of};
use cache_host::{CommandLine, Host, HostError, into_text};
use rustc_compiler::{Rust, RustFault};
use std::alloc::Global;
use std::fs;
use std::io::Read;
use std::rt::Files;

/// Whether a file is called as rustc is.
pub fn is_named_rustc(path: &str) -> bool {
    matches!(file_name(path.as_bytes()), Some(b"rustc"))
}

/// The text without the end of its line.
fn without_line_end(text: &str) -> &str {
    text.trim_end_matches('\n')
}

/// Where a rustc lies: its real file, and the folder of its toolchain.
#[derive(Drop)]
struct Place {
    file: String,
    sysroot: String,
}

/// Where the rustc lies that rustup's proxy runs in this call: that hangs on the call's folder, on variables and on its first word.
fn place_by_proxy<P: Print + Files + AllocGlobal, I: Read>(
    rt: &P,
    line: &CommandLine,
    host: &mut Host<I>,
) -> Result<Place, HostError>
    ensures { host.new.compiled ≡ host.old.compiled }
{
    let said = into_text(said_for(rt, line, host, &["--print", "sysroot"])?)?;
    let sysroot = String::from_str(rt.alloc(), without_line_end(said.as_str()))?;
    let file = format!(in rt.alloc(); "{}/bin/rustc", sysroot.as_str())?;
    Ok(Place { file, sysroot })
}

/// Where the rustc that is called really is, with all links followed and past rustup's proxy.
fn place_of<P: Print + Files + AllocGlobal, I: Read>(
    rt: &P,
    line: &CommandLine,
    host: &mut Host<I>,
) -> Result<Place, HostError>
    ensures { host.new.compiled ≡ host.old.compiled }
{
    let file = fs::canonicalize(rt, line.executable.as_str())?;
    if let Some(b"rustup") = file_name(file.as_str().as_bytes()) {
        return place_by_proxy(rt, line, host);
    }
    let file = String::from_str(rt.alloc(), file.as_str())?;
    let own = [file.clone()?];
    let said = said_once(rt, line, host, &own, &["--print", "sysroot"])?;
    let sysroot = String::from_str(rt.alloc(), without_line_end(said.as_str()))?;
    Ok(Place { file, sysroot })
}

/// What a rustc says for these words while these files of its are as they are. It is asked once in each of their states.
fn said_once<P: Print + Files + AllocGlobal, I: Read>(
    rt: &P,
    line: &CommandLine,
    host: &mut Host<I>,
    files: &[String],
    words: &[&str],
) -> Result<String, HostError>
    ensures { host.new.compiled ≡ host.old.compiled }
{
    let alloc = rt.alloc();
    let mut row = state_of(rt, files)?;
    for word in words.iter() {
        row.push(' ')?;
        row.push_str(word)?;
    }
    let name = digest_of(alloc, row.as_bytes())?;
    if let Ok(said) = line.folder.read(rt, Kind::Parts, name.as_str()) {
        return into_text(OsBytes::from_vec(said));
    }
    let said = said_for(rt, line, host, words)?;
    line.folder
        .put(rt, Kind::Parts, name.as_str(), said.as_bytes())?;
    into_text(said)
}

/// What stands for the contents of a toolchain's files: their digest, as one file of that path.
fn load_digest(
    alloc: Global,
    path: &str,
    digest: &str,
    files: &mut SnapshotFiles,
) -> Result<OsBytes, HostError> {
    let path = OsBytes::from_slice(alloc, path.as_bytes())?;
    let time = FileTime::from_seconds(0);
    files.load(
        path.clone()?,
        LoadedFile {
            contents: Some(OsBytes::from_slice(alloc, digest.as_bytes())?),
            canonical: path.clone()?,
            metadata: Metadata {
                size: digest.len() as u64,
                mtime: time,
                ctime: time,
            },
        },
    )?;
    Ok(path)
}

/// The rustc of that version that lies there, whose files have that digest.
fn rust_with(
    alloc: Global,
    line: &CommandLine,
    version: String,
    place: &Place,
    digest: &str,
) -> Result<Rust, HostError> {
    let mut files = SnapshotFiles::new(alloc);
    let mut libraries = Listed::new(alloc);
    libraries.push(load_digest(alloc, place.file.as_str(), digest, &mut files)?)?;
    let executable = OsBytes::from_slice(alloc, line.executable.as_bytes())?;
    let sysroot = OsBytes::from_slice(alloc, place.sysroot.as_bytes())?;
    let version = OsBytes::from_vec(version.into_bytes());
    match Rust::new::<Blake2b256, _>(
        alloc, executable, version, sysroot, libraries, None, &mut files,
    ) {
        Ok(rust) => Ok(rust),
        Err(RustFault::Memory) => Err(HostError::Memory),
        Err(RustFault::NoHost | RustFault::Read(_)) => Err(HostError::Parts),
    }
}

/// The digest of all files of a toolchain that a compile for that target takes.
fn digest_of_toolchain<R: Files + AllocGlobal>(
    rt: &R,
    line: &CommandLine,
    driver: Vec<String>,
    libraries: Vec<String>,
) -> Result<String, HostError> {
    let mut files = driver;
    for library in libraries {
        files.push(library)?;
    }
    Ok(line.folder.digest_of_files(rt, files.as_slice())?)
}

/// The rustc of a command line that compiles for that target, or for its own machine.
pub fn rustc_at<P: Print + Files + AllocGlobal, I: Read>(
    rt: &P,
    line: &CommandLine,
    host: &mut Host<I>,
    target: Option<&str>,
) -> Result<Rust, HostError>
    ensures { host.new.compiled ≡ host.old.compiled }
{
    let Place { file, sysroot } = place_of(rt, line, host)?;
    let driver = driver_files(rt, file.as_str(), sysroot.as_str())?;
    let version = said_once(rt, line, host, driver.as_slice(), &["-vV"])?;
    let libraries = library_files(rt, sysroot.as_str(), version.as_str(), target)?;
    let digest = digest_of_toolchain(rt, line, driver, libraries)?;
    rust_with(
        rt.alloc(),
        line,
        version,
        &Place { file, sysroot },
        digest.as_str(),
    )
}
