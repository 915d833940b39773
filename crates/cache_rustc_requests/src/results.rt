//! What is kept of rustc's calls: results by the digest of their key. A broken or missing file is a miss.

use crate::messages::{are_notices, moved};
use base_blake2::Blake2b256;
use base_files::OsBytes;
use base_formats::{put_framed, put_number};
use cache_dir::{Kind, digest_of, takes};
use cache_format::{KeptCrate, seal, unseal};
use cache_host::{CommandLine, HostError, text_in};
use cache_settings::Key;
use rustc_parts::parts::RShape;
use std::alloc::{AllocError, Global};
use std::rt::Files;
use wrap_base::store_key::{Pairs, Shape, StoreKey};
use wrap_base::{Output, pairs_of};

/// What a disk keeps under a key: outputs, and messages as they are for this call.
#[derive(Drop)]
pub struct FoundCrate {
    pub pair: (StoreKey, Pairs),
    pub errors: Vec<u8>,
}

/// What a call wants of what is kept: the folder of its outputs, and how wide its terminal is.
#[derive(Clone, Copy)]
pub struct Wishes<'a> {
    pub folder: &'a [u8],
    pub width: &'a [u8],
}

/// Adds the numbers that the bytes of a key don't determine.
fn put_shape(row: &mut Vec<u8>, shape: &RShape) -> Result<(), AllocError> {
    put_number(row, shape.toolchain as u64)?;
    put_number(row, shape.words.len() as u64)?;
    for length in shape.words.as_slice() {
        put_number(row, *length as u64)?;
    }
    put_number(row, shape.sources as u64)?;
    put_number(row, shape.externs as u64)?;
    put_number(row, shape.archives as u64)?;
    put_number(row, u64::from(shape.has_target))?;
    put_number(row, u64::from(shape.has_profile))?;
    put_flags(row, shape.env_deps.as_slice())?;
    put_number(row, shape.variables as u64)
}

/// Adds whether each variable is set that the sources name.
fn put_flags(row: &mut Vec<u8>, flags: &[bool]) -> Result<(), AllocError> {
    put_number(row, flags.len() as u64)?;
    for flag in flags {
        put_number(row, u64::from(*flag))?;
    }
    Ok(())
}

/// The digest of all fields of a key.
fn digest_of_key(alloc: Global, key: &StoreKey) -> Result<String, HostError> {
    let mut row = Vec::new(alloc);
    if let Shape::Rustc(shape) = &key.shape {
        put_shape(&mut row, shape)?;
    }
    put_number(&mut row, key.names.len() as u64)?;
    for name in key.names.as_slice() {
        put_framed(&mut row, name.name.as_bytes())?;
        put_number(&mut row, u64::from(name.optional))?;
    }
    put_framed(&mut row, key.digest.as_bytes())?;
    Ok(digest_of(alloc, row.as_slice())?)
}

/// What lies under a key.
fn kept_under<R: Files + AllocGlobal>(
    rt: &R,
    line: &CommandLine,
    key: &StoreKey,
) -> Result<Option<KeptCrate>, HostError> {
    match line.folder.read(rt, Kind::Results, text_in(&key.digest)?) {
        Ok(bytes) => Ok(unseal::<Blake2b256, KeptCrate>(rt.alloc(), bytes.as_slice())?),
        Err(_) => Ok(None),
    }
}

/// Its messages as they are for this call. Nothing where they are of another key, or of a terminal of another width.
fn errors_of(
    alloc: Global,
    kept: &KeptCrate,
    key: &StoreKey,
    wishes: Wishes<'_>,
) -> Result<Option<Vec<u8>>, HostError> {
    let width = kept.width.as_bytes();
    let is_alike = width.is_empty() || width == wishes.width;
    if !is_alike || kept.key.as_bytes() != digest_of_key(alloc, key)?.as_bytes() {
        return Ok(None);
    }
    let folder = kept.folder.as_bytes();
    Ok(moved(alloc, kept.errors.as_bytes(), folder, wishes.folder)?)
}

/// The outputs under their key, with these messages.
fn found_with(
    key: &StoreKey,
    outputs: Pairs,
    errors: Vec<u8>,
) -> Result<Option<FoundCrate>, HostError> {
    let pair = (key.clone()?, outputs);
    Ok(Some(FoundCrate { pair, errors }))
}

/// What is kept under a key, where its messages can be those of this call. Nothing where all is to be kept anew.
pub fn found<R: Files + AllocGlobal>(
    rt: &R,
    line: &CommandLine,
    key: &StoreKey,
    wishes: Wishes<'_>,
) -> Result<Option<FoundCrate>, HostError> {
    if line.settings.is_on(Key::Recache) {
        return Ok(None);
    }
    let Some(kept) = kept_under(rt, line, key)? else {
        return Ok(None);
    };
    match errors_of(rt.alloc(), &kept, key, wishes) {
        Ok(Some(errors)) => found_with(key, kept.outputs, errors),
        Ok(None) => Ok(None),
        Err(stop) => Err(stop),
    }
}

/// Outputs and what was printed beside them, as they are kept under their key.
fn kept_crate(
    alloc: Global,
    key: &StoreKey,
    outputs: &[Output],
    errors: &OsBytes,
    wishes: Wishes<'_>,
) -> Result<KeptCrate, HostError> {
    let width = match are_notices(errors.as_bytes()) {
        true => &[],
        false => wishes.width,
    };
    Ok(KeptCrate {
        key: OsBytes::from_vec(digest_of_key(alloc, key)?.into_bytes()),
        folder: OsBytes::from_slice(alloc, wishes.folder)?,
        width: OsBytes::from_slice(alloc, width)?,
        errors: errors.clone()?,
        outputs: pairs_of(alloc, outputs)?,
    })
}

/// The bytes of what is kept of outputs under their key.
fn sealed(
    alloc: Global,
    key: &StoreKey,
    outputs: &[Output],
    errors: &OsBytes,
    wishes: Wishes<'_>,
) -> Result<Vec<u8>, HostError> {
    let kept = kept_crate(alloc, key, outputs, errors, wishes)?;
    Ok(seal::<Blake2b256, KeptCrate>(alloc, &kept)?)
}

/// Keeps outputs under their key with what was printed beside them, where they aren't too large for the limit.
pub fn keep<R: Files + AllocGlobal>(
    rt: &R,
    line: &CommandLine,
    key: &StoreKey,
    outputs: &[Output],
    errors: &OsBytes,
    wishes: Wishes<'_>,
) -> Result<(), HostError> {
    let bytes = sealed(rt.alloc(), key, outputs, errors, wishes)?;
    let folder = &line.folder;
    if !takes(folder.limit, bytes.len() as u64) {
        return Ok(());
    }
    Ok(folder.put(rt, Kind::Results, text_in(&key.digest)?, bytes.as_slice())?)
}
