//! What is known of a toolchain: its host, and its files in the order of paths.

ghost use Rattle.std.specs.Prelude.{◌≡◌, IfOk};
ghost use Rattle.base_files.specs.Path.{path_cmp};
ghost use Rattle.rustc_options.specs.Sorted.{sorted_by};
ghost use Rattle.rustc_compiler.specs.Compiler.{has_host, tells_host, toolchain_files};

use base_files::{Listed, OsBytes, compare_paths, paths_have_one_order};
use std::alloc::AllocError;

/// Whether a line gives the host.
fn tells_host(line: &[u8]) -> bool
    ensures { result ≡ tells_host line.now }
{
    line.starts_with(b"host: ")
}

/// Whether a line of the version gives the host. It takes no memory.
pub(crate) fn has_host(version: &[u8]) -> bool
    ensures { result ≡ has_host version.now }
{
    version
        .split(|byte| *byte == b'\n')
        .any(|line| tells_host(line))
}

/// The paths in order.
fn sorted(paths: Vec<OsBytes>) -> Listed<OsBytes>
    ensures { result ≡ sorted_by path_cmp paths.items }
{
    // A law, which costs nothing: what follows from it is said above.
    paths_have_one_order();
    let mut paths = paths;
    paths.sort_unstable_by(|left, right| compare_paths(left.as_bytes(), right.as_bytes()));
    Listed::from_vec(paths)
}

/// The files of a toolchain, libraries and archive together, in the order of paths.
pub(crate) fn toolchain_files(
    libraries: Listed<OsBytes>,
    archive: &Option<OsBytes>,
) -> Result<Listed<OsBytes>, AllocError>
    ensures { IfOk result (λ files. files ≡ toolchain_files libraries archive.now) }
{
    let mut files = libraries.into_vec();
    if let Some(archive) = archive {
        files.push(archive.clone()?)?;
    }
    Ok(sorted(files))
}
