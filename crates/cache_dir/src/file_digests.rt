//! Digests of files. A file is read again only where its path, size, device, inode or time has changed.

ghost use Rattle.std.specs.Prelude.{◌≡◌, IfOk, string_bytes};
ghost use Rattle.ckeys_base.specs.Hex.{hex_of};

use crate::error::CacheDirError;
use crate::folder::{CacheDir, Kind};
use base_blake2::Blake2b256;
use base_formats::{put_framed, put_number};
use ckeys_base::{Digest, HashState};
use std::alloc::Global;
use std::fs;
use std::os::unix::fs::MetadataExt;
use std::rt::Files;

/// The digest of these bytes by any hash function, as text.
fn digest_by<H: HashState>(alloc: Global, bytes: &[u8]) -> Result<String, CacheDirError>
    ensures { IfOk result (λ text. string_bytes text ≡ hex_of (H.digest_of bytes.now)) }
{
    let mut digest: Digest<H> = Digest::new();
    digest.update(bytes);
    Ok(digest.finish(alloc)?)
}

/// The digest of these bytes, as text.
pub fn digest_of(alloc: Global, bytes: &[u8]) -> Result<String, CacheDirError>
    ensures { IfOk result (λ text. string_bytes text
        ≡ hex_of (⟦<Blake2b256 as HashState>⟧.digest_of bytes.now)) }
{
    digest_by::<Blake2b256>(alloc, bytes)
}

/// Adds what shows whether a file changed.
fn put_state<R: Files>(rt: &R, path: &str, state: &mut Vec<u8>) -> Result<(), CacheDirError> {
    let metadata = fs::metadata(rt, path)?;
    put_framed(state, path.as_bytes())?;
    put_number(state, metadata.len())?;
    put_number(state, metadata.dev())?;
    put_number(state, metadata.ino())?;
    put_number(state, metadata.mtime().cast_unsigned())?;
    put_number(state, metadata.mtime_nsec().cast_unsigned())?;
    Ok(())
}

/// The digest of the states of these files: as long as none of them is replaced or written, it is the same.
pub fn state_of<R: Files + AllocGlobal>(rt: &R, paths: &[String]) -> Result<String, CacheDirError> {
    let mut state = Vec::new(rt.alloc());
    for path in paths {
        put_state(rt, path.as_str(), &mut state)?;
    }
    digest_of(rt.alloc(), state.as_slice())
}

/// The digest of the digests of these files.
fn read_all<R: Files + AllocGlobal>(rt: &R, paths: &[String]) -> Result<String, CacheDirError> {
    let mut row = Vec::new(rt.alloc());
    for path in paths {
        let file = fs::open(rt, path.as_str())?;
        let digest = Digest::<Blake2b256>::reader_sync(rt.alloc(), file)?;
        put_framed(&mut row, digest.as_bytes())?;
    }
    digest_of(rt.alloc(), row.as_slice())
}

impl CacheDir {
    /// The digest that was noted under that state. What is no digest, as where a disk lost its bytes, is none.
    fn known_digest<R: Files + AllocGlobal>(&self, rt: &R, state: &str) -> Option<String> {
        let known = self.read(rt, Kind::Compilers, state).ok()?;
        if known.len() != state.len() || !known.iter().all(|byte| byte.is_ascii_hexdigit()) {
            return None;
        }
        String::from_utf8(known).ok()
    }

    /// The digest of the contents of these files, in this order.
    pub fn digest_of_files<R: Files + AllocGlobal>(
        &self,
        rt: &R,
        paths: &[String],
    ) -> Result<String, CacheDirError> {
        let state = state_of(rt, paths)?;
        if let Some(known) = self.known_digest(rt, state.as_str()) {
            return Ok(known);
        }
        let digest = read_all(rt, paths)?;
        self.put(rt, Kind::Compilers, state.as_str(), digest.as_bytes())?;
        Ok(digest)
    }
}
