//! Tokens that calls in one folder have in common. Most sources there take in the same headers, so one that wasn't compiled yet needn't have all
//! of them digested again.

use crate::tokens::{Tokens, add_rows};
use base_formats::put_framed;
use cache_dir::{Kind, digest_of};
use cache_host::{CommandLine, HostError, LETTERS};
use std::alloc::Global;
use std::collections::BTreeMap;
use std::rt::Files;

/// What the name is the digest of, beside the folder: what is kept, and the version of its layout.
const VERSION: &[u8] = b"headers 1";

/// Where so many headers are known, those that a call doesn't need are let go.
const MOST: usize = 1_500;

/// The name under which the tokens of this call's folder are kept.
fn name_of(alloc: Global, line: &CommandLine) -> Result<String, HostError> {
    let mut row = Vec::new(alloc);
    put_framed(&mut row, VERSION)?;
    put_framed(&mut row, line.dir.as_bytes())?;
    Ok(digest_of(alloc, row.as_slice())?)
}

/// The rows in these bytes, which have their digest at the end; none where that isn't theirs.
fn rows_in(alloc: Global, bytes: &[u8]) -> Result<&[u8], HostError> {
    let end = bytes.len().saturating_sub(LETTERS);
    let (rows, digest) = bytes.split_at_checked(end).unwrap_or((&[], &[]));
    match digest_of(alloc, rows)?.as_bytes() == digest {
        true => Ok(rows),
        false => Ok(&[]),
    }
}

/// Looks up the tokens of this call's folder, once.
pub(crate) fn look_up_shared<R: Files + AllocGlobal>(
    rt: &R,
    line: &CommandLine,
    tokens: &mut Tokens,
) -> Result<(), HostError> {
    if tokens.shared.is_some() {
        return Ok(());
    }
    let mut shared = BTreeMap::new(rt.alloc());
    let name = name_of(rt.alloc(), line)?;
    if let Ok(bytes) = line.folder.read(rt, Kind::Searches, name.as_str()) {
        add_rows(
            rt.alloc(),
            rows_in(rt.alloc(), bytes.as_slice())?,
            &mut shared,
        )?;
    }
    tokens.shared = Some(shared);
    Ok(())
}

/// Keeps the tokens of this call for others in its folder, where there are new ones.
pub fn keep_shared<R: Files + AllocGlobal>(
    rt: &R,
    line: &CommandLine,
    tokens: &Tokens,
) -> Result<(), HostError> {
    if !tokens.are_unshared {
        return Ok(());
    }
    let mut bytes = tokens.rows_to_share(rt.alloc(), MOST)?;
    let digest = digest_of(rt.alloc(), bytes.as_slice())?;
    bytes.extend_from_slice(digest.as_bytes())?;
    let name = name_of(rt.alloc(), line)?;
    Ok(
        line.folder
            .put(rt, Kind::Searches, name.as_str(), bytes.as_slice())?,
    )
}
