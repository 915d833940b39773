//! Whole values, preceded by the version of their layout and followed by the digest of their bytes.

ghost use Rattle.std.specs.Prelude.{◌≡◌, ℕ, IfOk, OnOk};
ghost use Rattle.base_formats.specs.Formats.{IsOnly};
ghost use Rattle.base_formats.specs.Reading.{Gives};
ghost use Rattle.cache_format.specs.Sealed.{fields_at, sealed_bytes, whole_at};

use crate::kept_crate::KeptCrate;
use crate::kept_manifest::KeptManifest;
use crate::kept_parts::KeptParts;
use crate::kept_result::KeptResult;
use base_formats::{Field, ReadFault};
use ckeys_base::HashState;
use std::alloc::{AllocError, Global};

/// A value that lies in a file of its own.
pub trait Sealed: Field {
    /// The version of its layout, which the file begins with.
    const VERSION: u8;

    ghost VERSION: { ℕ };
}

impl Sealed for KeptResult {
    const VERSION: u8 = 5;

    ghost VERSION = { 5 };
}

impl Sealed for KeptManifest {
    const VERSION: u8 = 6;

    ghost VERSION = { 6 };
}

impl Sealed for KeptParts {
    const VERSION: u8 = 2;

    ghost VERSION = { 2 };
}

impl Sealed for KeptCrate {
    const VERSION: u8 = 1;

    ghost VERSION = { 1 };
}

/// The digest of these bytes.
fn digest_of<H: HashState>(alloc: Global, bytes: &[u8]) -> Result<Vec<u8>, AllocError>
    ensures { IfOk result (λ digest. digest.items ≡ H.digest_of bytes.now) }
{
    let mut state = H::new();
    state.feed(bytes);
    state.digest(alloc)
}

/// The bytes of a value: the version of their layout, the value, and the digest of these.
fn sealed_bytes<H: HashState, T: Field>(
    alloc: Global,
    version: u8,
    value: &T,
) -> Result<Vec<u8>, AllocError>
    ensures bytes { IfOk result
        (λ bytes. bytes.items ≡ sealed_bytes H.digest_of version T.spells value.now) }
    ensures fits { OnOk result (T.fits value.now) }
{
    let mut bytes = Vec::new(alloc);
    bytes.push(version)?;
    value.put(&mut bytes)?;
    let digest = digest_of::<H>(alloc, &bytes)?;
    bytes.extend_from_slice(&digest)?;
    Ok(bytes)
}

/// The value whose bytes these are.
#[tactic(auto, unfolding(crate::specs::Sealed::fields_at))]
fn read_fields<T: Field>(alloc: Global, bytes: &[u8]) -> Result<T, ReadFault>
    ensures { Gives (λ value. value) result (fields_at T.reads bytes.now) }
{
    let (value, rest) = T::read(alloc, bytes)?;
    if !rest.is_empty() {
        return Err(ReadFault::Unfit);
    }
    Ok(value)
}

/// The value that comes after that version in these bytes.
#[tactic(auto, unfolding(crate::specs::Sealed::whole_at))]
fn read_whole<T: Field>(alloc: Global, version: u8, bytes: &[u8]) -> Result<T, ReadFault>
    ensures { Gives (λ value. value) result (whole_at version T.reads bytes.now) }
{
    let Some((first, rest)) = bytes.split_first() else {
        return Err(ReadFault::Unfit);
    };
    if *first != version {
        return Err(ReadFault::Unfit);
    }
    read_fields::<T>(alloc, rest)
}

/// The value of that version whose bytes these are. `None` where they are those of none, as where some were cut off or changed.
fn read_sealed<H: HashState, T: Field>(
    alloc: Global,
    version: u8,
    bytes: &[u8],
) -> Result<Option<T>, AllocError>
    ensures { IfOk result (IsOnly (λ value. T.fits value
        × (bytes.now ≡ sealed_bytes H.digest_of version T.spells value))) }
{
    if bytes.len() < H::LEN {
        return Ok(None);
    }
    let (front, end) = bytes.split_at(bytes.len() - H::LEN);
    let digest = digest_of::<H>(alloc, front)?;
    if digest.as_slice() != end {
        return Ok(None);
    }
    match read_whole::<T>(alloc, version, front) {
        Ok(value) => Ok(Some(value)),
        Err(ReadFault::Unfit) => Ok(None),
        Err(ReadFault::Memory) => Err(AllocError),
    }
}

/// The bytes of a value: the version of its layout, its fields, and the digest of these.
pub fn seal<H: HashState, T: Sealed>(alloc: Global, value: &T) -> Result<Vec<u8>, AllocError>
    ensures bytes { IfOk result
        (λ bytes. bytes.items ≡ sealed_bytes H.digest_of T.VERSION T.spells value.now) }
    ensures fits { OnOk result (T.fits value.now) }
{
    sealed_bytes::<H, T>(alloc, T::VERSION, value)
}

/// The value whose bytes these are. `None` where they are those of none, as where some were cut off, a byte was changed or the layout is of
/// another version.
pub fn unseal<H: HashState, T: Sealed>(alloc: Global, bytes: &[u8]) -> Result<Option<T>, AllocError>
    // What is read is what was written, and what was written is read.
    ensures { IfOk result (IsOnly (λ value. T.fits value
        × (bytes.now ≡ sealed_bytes H.digest_of T.VERSION T.spells value))) }
{
    read_sealed::<H, T>(alloc, T::VERSION, bytes)
}
