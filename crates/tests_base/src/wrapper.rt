//! Which compiler is found among files with canonical names.

use base_files::{FileTime, Metadata, OsBytes};
use base_snapshots::{LoadedFile, SnapshotFiles};
use ckeys_base::resolve_compiler_avoiding_wrapper;
use std::alloc::{AllocError, Global};
use std::test::Fail;
use tests_kit::holds;

fn bytes(alloc: Global, text: &str) -> Result<OsBytes, AllocError> {
    OsBytes::from_slice(alloc, text.as_bytes())
}

/// Loads an empty file of that name, whose canonical name is the other one.
fn load(
    alloc: Global,
    files: &mut SnapshotFiles,
    name: &str,
    canonical: &str,
) -> Result<(), AllocError> {
    let name = bytes(alloc, name)?;
    let canonical = bytes(alloc, canonical)?;
    let time = FileTime::from_seconds(0);
    let file = LoadedFile {
        contents: Some(OsBytes::empty(alloc)),
        canonical,
        metadata: Metadata {
            size: 0,
            mtime: time,
            ctime: time,
        },
    };
    files.load(name, file)
}

/// The variable `PATH` with two folders.
fn variables(alloc: Global) -> Result<[(OsBytes, OsBytes); 1], AllocError> {
    let name = bytes(alloc, "PATH")?;
    Ok([(name, bytes(alloc, "/a:/b")?)])
}

/// Whether the executable resolves to this on these files.
fn resolves_to(
    alloc: Global,
    files: &mut SnapshotFiles,
    executable: &OsBytes,
    env: &[(OsBytes, OsBytes)],
    want: &[u8],
) -> bool {
    match resolve_compiler_avoiding_wrapper(alloc, files, executable, env) {
        Ok(found) => found.as_bytes() == want,
        Err(_) => false,
    }
}

/// `/a/gcc` is the wrapper: it stays where no other is there, and is `/b/gcc` where that is.
fn is_passed_over(
    alloc: Global,
    files: &mut SnapshotFiles,
    gcc: &OsBytes,
    env: &[(OsBytes, OsBytes)],
) -> Result<(), Fail> {
    load(alloc, files, "/a/gcc", "/x/sccache")?;
    files.load_absent(bytes(alloc, "/b/gcc")?)?;
    let stays = resolves_to(alloc, files, gcc, env, b"/a/gcc");
    load(alloc, files, "/b/gcc", "/b/gcc")?;
    let other = resolves_to(alloc, files, gcc, env, b"/b/gcc");
    holds(stays && other, "it stays, and is another")
}

#[test]
fn the_wrapper_is_passed_over(rt: HostRuntime) -> Result<(), Fail> {
    let gcc = bytes(rt.alloc(), "/a/gcc")?;
    let env = variables(rt.alloc())?;
    let mut files = SnapshotFiles::new(rt.alloc());
    is_passed_over(rt.alloc(), &mut files, &gcc, &env)
}
