//! The bytes of a key, as they are written.

ghost use Rattle.std.specs.Prelude.{◌≡◌, ◌++◌, IfOk, OnOk, unwrap_or, []};
ghost use Rattle.std.specs.List.{flat_map};
ghost use Rattle.base_formats.specs.Spelling.{framed};
ghost use Rattle.rustc_parts.specs.Material.{env_dep_bytes, files_bytes, joined, material_of, pair_bytes};

use crate::parts::{EnvDep, Parts};
use base_files::OsBytes;
use base_formats::put_framed;
use std::alloc::{AllocError, Global};

/// The version of this layout.
pub(crate) const CACHE_VERSION: u8 = b'8';

/// The last byte, after the compiler's version.
pub(crate) const END: u8 = 255;

/// Adds each of them, one right after the other. When out of memory, a part of them may have been added; so with all below.
fn put_joined(out: &mut Vec<u8>, pieces: &[OsBytes]) -> Result<(), AllocError>
    ensures { OnOk result (out.new.items ≡ out.old.items ++ joined pieces.now) }
{
    for piece in pieces {
        out.extend_from_slice(piece.as_bytes())?;
    }
    Ok(())
}

/// Adds a name and a value, each after its length.
fn put_pair(out: &mut Vec<u8>, name: &[u8], value: &[u8]) -> Result<(), AllocError>
    ensures { OnOk result (out.new.items ≡ out.old.items ++ pair_bytes (name.now, value.now)) }
{
    put_framed(out, name)?;
    out.push(b'=')?;
    put_framed(out, value)
}

/// Adds a variable that a source names.
fn put_env_dep(out: &mut Vec<u8>, dep: &EnvDep) -> Result<(), AllocError>
    ensures { OnOk result (out.new.items ≡ out.old.items ++ env_dep_bytes dep.now) }
{
    match &dep.value {
        None => put_pair(out, dep.name.as_bytes(), b""),
        Some(value) => put_pair(out, dep.name.as_bytes(), value.as_bytes()),
    }
}

/// Adds the variables that a source names.
fn put_env_deps(out: &mut Vec<u8>, deps: &[EnvDep]) -> Result<(), AllocError>
    ensures { OnOk result (out.new.items ≡ out.old.items ++ flat_map env_dep_bytes deps.now) }
{
    for dep in deps {
        put_env_dep(out, dep)?;
    }
    Ok(())
}

/// Adds variables with their values.
fn put_pairs(out: &mut Vec<u8>, pairs: &[(OsBytes, OsBytes)]) -> Result<(), AllocError>
    ensures { OnOk result (out.new.items ≡ out.old.items ++ flat_map pair_bytes pairs.now) }
{
    for pair in pairs {
        put_pair(out, pair.0.as_bytes(), pair.1.as_bytes())?;
    }
    Ok(())
}

/// Adds the words after their joined length.
fn put_words(alloc: Global, out: &mut Vec<u8>, words: &[OsBytes]) -> Result<(), AllocError>
    ensures { OnOk result (out.new.items ≡ out.old.items ++ framed (joined words.now)) }
{
    let mut all = Vec::new(alloc);
    put_joined(&mut all, words)?;
    put_framed(out, &all)
}

/// Adds the digest where there is one.
fn put_optional(out: &mut Vec<u8>, digest: &Option<OsBytes>) -> Result<(), AllocError>
    ensures { OnOk result (out.new.items ≡ out.old.items ++ unwrap_or digest.now []) }
{
    match digest {
        None => Ok(()),
        Some(digest) => out.extend_from_slice(digest.as_bytes()),
    }
}

/// Adds the digests of files.
fn put_files(out: &mut Vec<u8>, parts: &Parts) -> Result<(), AllocError>
    ensures { OnOk result (out.new.items ≡ out.old.items ++ files_bytes parts.now) }
{
    put_joined(out, parts.sources.as_slice())?;
    put_joined(out, parts.externs.as_slice())?;
    put_joined(out, parts.archives.as_slice())?;
    put_optional(out, &parts.target)?;
    put_optional(out, &parts.profile)
}

/// The bytes that are hashed of these pieces.
pub fn key_bytes(alloc: Global, parts: &Parts) -> Result<Vec<u8>, AllocError>
    ensures { IfOk result (λ bytes. bytes.items ≡ material_of parts.now) }
{
    let mut out = Vec::new(alloc);
    out.push(CACHE_VERSION)?;
    put_joined(&mut out, parts.toolchain.as_slice())?;
    put_words(alloc, &mut out, parts.words.as_slice())?;
    put_files(&mut out, parts)?;
    put_env_deps(&mut out, parts.env_deps.as_slice())?;
    put_pairs(&mut out, parts.variables.as_slice())?;
    put_framed(&mut out, parts.dir.as_bytes())?;
    out.extend_from_slice(parts.version.as_bytes())?;
    out.push(END)?;
    Ok(out)
}
