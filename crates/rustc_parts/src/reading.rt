//! The bytes of a key, as they are read.

ghost use Rattle.std.specs.Prelude.{◌≡◌, IfOk, IfSome, Some};
ghost use Rattle.std.specs.List.{list_all};
ghost use Rattle.base_formats.specs.Formats.{IsOnly};
ghost use Rattle.base_formats.specs.Reading.{Gives, both_at, taken_at, times_at};
ghost use Rattle.base_formats.specs.Spelling.{FitsFrame};
ghost use Rattle.rustc_parts.specs.Formed.{AreFormed, IsSortedByNames, digest_digits, is_digit};
ghost use Rattle.rustc_parts.specs.Material.{material_of};
ghost use Rattle.rustc_parts.specs.Reading.{byte_at, digest_at, each_at, env_dep_at, files_at, front_at, optional_digest_at, pair_at, parts_at, surroundings_at, valued, version_at, words_at};
ghost use Rattle.rustc_parts.specs.Shapes.{shape_of};
ghost use Rattle.rustc_parts.specs.declared.parts.Parts.{Parts};

use crate::order::is_sorted_by_names;
use crate::parts::{EnvDep, Parts, RShape};
use crate::writing::{CACHE_VERSION, END};
use base_files::{Listed, OsBytes};
use base_formats::{ReadFault, read_framed, read_taken};
use std::alloc::{AllocError, Global};

/// How many digits a digest has.
const DIGEST_DIGITS: u64 = 64;

/// What comes after this byte, where it is the first one.
#[tactic(auto, unfolding(crate::specs::Reading::byte_at))]
fn after(first: u8, bytes: &[u8]) -> Result<&[u8], ReadFault>
    ensures { Gives (λ rest. rest.now) result (byte_at first bytes.now) }
{
    match bytes {
        [byte, rest @ ..] if *byte == first => Ok(rest),
        _ => Err(ReadFault::Unfit),
    }
}

/// Whether the byte is one of `0` to `9` and `a` to `f`.
fn is_digit(byte: u8) -> bool
    ensures { result ≡ is_digit byte }
{
    matches!(byte, b'0'..=b'9' | b'a'..=b'f')
}

/// Whether all of them are.
fn are_digits(text: &[u8]) -> bool
    ensures { result ≡ list_all is_digit text.now }
{
    text.iter().all(|byte| is_digit(*byte))
}

/// A digest, and the bytes after it.
#[tactic(auto, unfolding(crate::specs::Reading::digest_at))]
fn read_digest(alloc: Global, bytes: &[u8]) -> Result<(OsBytes, &[u8]), ReadFault>
    ensures { Gives (λ x. (x.0, x.1.now)) result (digest_at digest_digits bytes.now) }
{
    let (digest, rest) = read_taken(DIGEST_DIGITS, bytes)?;
    if !are_digits(digest) {
        return Err(ReadFault::Unfit);
    }
    Ok((OsBytes::from_slice(alloc, digest)?, rest))
}

/// So many digests in a row, and the bytes after them.
fn read_digests(
    alloc: Global,
    count: usize,
    bytes: &[u8],
) -> Result<(Listed<OsBytes>, &[u8]), ReadFault>
    ensures { Gives (λ x. (x.0, x.1.now)) result
        (times_at (digest_at digest_digits) count bytes.now) }
{
    let mut all = Vec::new(alloc);
    let mut rest = bytes;
    'digests: for _ in 0..count {
        let (digest, after) = read_digest(alloc, rest)?;
        all.push(digest)?;
        rest = after;
    }
    Ok((Listed::from_vec(all), rest))
}

/// A digest where there is one, and the bytes after it.
#[tactic(auto, unfolding(crate::specs::Reading::optional_digest_at))]
fn read_optional_digest(
    alloc: Global,
    is_there: bool,
    bytes: &[u8],
) -> Result<(Option<OsBytes>, &[u8]), ReadFault>
    ensures { Gives (λ x. (x.0, x.1.now)) result
        (optional_digest_at digest_digits is_there bytes.now) }
{
    if !is_there {
        return Ok((None, bytes));
    }
    let (digest, rest) = read_digest(alloc, bytes)?;
    Ok((Some(digest), rest))
}

/// A word of this length, and the bytes after it.
fn read_word(alloc: Global, len: usize, bytes: &[u8]) -> Result<(OsBytes, &[u8]), ReadFault>
    ensures { Gives (λ x. (x.0, x.1.now)) result (taken_at len bytes.now) }
{
    let (word, rest) = read_taken(len as u64, bytes)?;
    Ok((OsBytes::from_slice(alloc, word)?, rest))
}

/// Pieces of these lengths, and the bytes after them.
fn read_each<'a>(
    alloc: Global,
    lengths: &[usize],
    bytes: &'a [u8],
) -> Result<(Listed<OsBytes>, &'a [u8]), ReadFault>
    ensures { Gives (λ x. (x.0, x.1.now)) result (each_at taken_at lengths.now bytes.now) }
{
    let mut all = Vec::new(alloc);
    let mut rest = bytes;
    'words: for len in lengths {
        let (word, after) = read_word(alloc, *len, rest)?;
        all.push(word)?;
        rest = after;
    }
    Ok((Listed::from_vec(all), rest))
}

/// Words of these lengths after their joined length, and the bytes after them.
#[tactic(auto, unfolding(crate::specs::Reading::words_at))]
fn read_words<'a>(
    alloc: Global,
    lengths: &[usize],
    bytes: &'a [u8],
) -> Result<(Listed<OsBytes>, &'a [u8]), ReadFault>
    ensures { Gives (λ x. (x.0, x.1.now)) result (words_at lengths.now bytes.now) }
{
    let (block, rest) = read_framed(bytes)?;
    let (words, left) = read_each(alloc, lengths, block)?;
    if !left.is_empty() {
        return Err(ReadFault::Unfit);
    }
    Ok((words, rest))
}

/// A name and a value, and the bytes after them. It takes no memory.
#[tactic(auto, unfolding(crate::specs::Reading::pair_at, base_formats::specs::Reading::both_at, crate::specs::Reading::after_at))]
fn read_pair(bytes: &[u8]) -> Result<((&[u8], &[u8]), &[u8]), ReadFault>
    ensures { Gives (λ x. ((x.0.0.now, x.0.1.now), x.1.now)) result (pair_at bytes.now) }
{
    let (name, rest) = read_framed(bytes)?;
    let rest = after(b'=', rest)?;
    let (value, rest) = read_framed(rest)?;
    Ok(((name, value), rest))
}

/// The value where one is set; an empty one is written where none is.
fn value_of(alloc: Global, is_set: bool, value: &[u8]) -> Result<Option<OsBytes>, ReadFault>
    ensures { Gives (λ x. x) result (valued is_set value.now) }
{
    if is_set {
        return Ok(Some(OsBytes::from_slice(alloc, value)?));
    }
    if !value.is_empty() {
        return Err(ReadFault::Unfit);
    }
    Ok(None)
}

/// A variable that a source names, and the bytes after it.
#[tactic(auto, unfolding(crate::specs::Reading::env_dep_at))]
fn read_env_dep(alloc: Global, is_set: bool, bytes: &[u8]) -> Result<(EnvDep, &[u8]), ReadFault>
    ensures { Gives (λ x. (x.0, x.1.now)) result (env_dep_at is_set bytes.now) }
{
    let ((name, value), rest) = read_pair(bytes)?;
    let value = value_of(alloc, is_set, value)?;
    let name = OsBytes::from_slice(alloc, name)?;
    Ok((EnvDep { name, value }, rest))
}

/// The variables that a source names, and the bytes after them.
fn read_env_deps<'a>(
    alloc: Global,
    are_set: &[bool],
    bytes: &'a [u8],
) -> Result<(Listed<EnvDep>, &'a [u8]), ReadFault>
    ensures { Gives (λ x. (x.0, x.1.now)) result (each_at env_dep_at are_set.now bytes.now) }
{
    let mut all = Vec::new(alloc);
    let mut rest = bytes;
    'deps: for is_set in are_set {
        let (dep, after) = read_env_dep(alloc, *is_set, rest)?;
        all.push(dep)?;
        rest = after;
    }
    Ok((Listed::from_vec(all), rest))
}

/// A variable with its value, and the bytes after them.
fn read_variable(alloc: Global, bytes: &[u8]) -> Result<((OsBytes, OsBytes), &[u8]), ReadFault>
    ensures { Gives (λ x. (x.0, x.1.now)) result (pair_at bytes.now) }
{
    let ((name, value), rest) = read_pair(bytes)?;
    let name = OsBytes::from_slice(alloc, name)?;
    let value = OsBytes::from_slice(alloc, value)?;
    Ok(((name, value), rest))
}

/// So many variables with their values, and the bytes after them.
fn read_pairs(
    alloc: Global,
    count: usize,
    bytes: &[u8],
) -> Result<(Listed<(OsBytes, OsBytes)>, &[u8]), ReadFault>
    ensures { Gives (λ x. (x.0, x.1.now)) result (times_at pair_at count bytes.now) }
{
    let mut all = Vec::new(alloc);
    let mut rest = bytes;
    'pairs: for _ in 0..count {
        let (pair, after) = read_variable(alloc, rest)?;
        all.push(pair)?;
        rest = after;
    }
    Ok((Listed::from_vec(all), rest))
}

/// The digests of files.
#[derive(Drop)]
struct FileDigests {
    sources: Listed<OsBytes>,
    externs: Listed<OsBytes>,
    archives: Listed<OsBytes>,
    target: Option<OsBytes>,
    profile: Option<OsBytes>,
}

/// The digests of files, and the bytes after them.
#[tactic(auto, unfolding(crate::specs::Reading::files_at, base_formats::specs::Reading::both_at))]
fn read_files<'a>(
    alloc: Global,
    shape: &RShape,
    bytes: &'a [u8],
) -> Result<(FileDigests, &'a [u8]), ReadFault>
    ensures { Gives (λ x. (
      (x.0.sources, (x.0.externs, (x.0.archives, (x.0.target, x.0.profile)))),
      x.1.now,
    )) result
        (files_at digest_digits shape.now bytes.now) }
{
    let (sources, rest) = read_digests(alloc, shape.sources, bytes)?;
    let (externs, rest) = read_digests(alloc, shape.externs, rest)?;
    let (archives, rest) = read_digests(alloc, shape.archives, rest)?;
    let (target, rest) = read_optional_digest(alloc, shape.has_target, rest)?;
    let (profile, rest) = read_optional_digest(alloc, shape.has_profile, rest)?;
    let files = FileDigests {
        sources,
        externs,
        archives,
        target,
        profile,
    };
    Ok((files, rest))
}

/// The variables and the directory.
#[derive(Drop)]
struct Around {
    env_deps: Listed<EnvDep>,
    variables: Listed<(OsBytes, OsBytes)>,
    dir: OsBytes,
}

/// The variables and the directory, and the bytes after them.
#[tactic(auto, unfolding(crate::specs::Reading::surroundings_at, base_formats::specs::Reading::both_at))]
fn read_around<'a>(
    alloc: Global,
    shape: &RShape,
    bytes: &'a [u8],
) -> Result<(Around, &'a [u8]), ReadFault>
    ensures { Gives (λ x. ((x.0.env_deps, (x.0.variables, x.0.dir)), x.1.now)) result
        (surroundings_at shape.now bytes.now) }
{
    let (env_deps, rest) = read_env_deps(alloc, shape.env_deps.as_slice(), bytes)?;
    let (variables, rest) = read_pairs(alloc, shape.variables, rest)?;
    let (dir, rest) = read_framed(rest)?;
    let dir = OsBytes::from_slice(alloc, dir)?;
    let around = Around {
        env_deps,
        variables,
        dir,
    };
    Ok((around, rest))
}

/// The digests of files, then the variables and the directory, and the bytes after them.
#[tactic(auto, unfolding(base_formats::specs::Reading::both_at))]
fn read_files_and_around<'a>(
    alloc: Global,
    shape: &RShape,
    bytes: &'a [u8],
) -> Result<(FileDigests, Around, &'a [u8]), ReadFault>
    ensures { Gives (λ x. (
      (
        (x.0.sources, (x.0.externs, (x.0.archives, (x.0.target, x.0.profile)))),
        (x.1.env_deps, (x.1.variables, x.1.dir)),
      ),
      x.2.now,
    )) result
        (both_at (files_at digest_digits shape.now) (surroundings_at shape.now) bytes.now) }
{
    let (files, rest) = read_files(alloc, shape, bytes)?;
    match read_around(alloc, shape, rest) {
        Ok((around, rest)) => Ok((files, around, rest)),
        Err(fault) => {
            drop(files);
            Err(fault)
        }
    }
}

/// All bytes but the last one, which ends them.
#[tactic(auto, unfolding(crate::specs::Reading::version_at))]
fn read_version(alloc: Global, bytes: &[u8]) -> Result<OsBytes, ReadFault>
    ensures { Gives (λ x. x) result (version_at bytes.now) }
{
    if bytes.is_empty() || bytes[bytes.len() - 1] != END {
        return Err(ReadFault::Unfit);
    }
    Ok(OsBytes::from_slice(alloc, &bytes[..bytes.len() - 1])?)
}

/// The pieces, whatever order their variables have.
#[tactic(auto, unfolding(crate::specs::Reading::parts_at, crate::specs::Reading::front_at, crate::specs::Reading::after_at, base_formats::specs::Reading::both_at))]
fn read_parts(alloc: Global, bytes: &[u8], shape: &RShape) -> Result<Parts, ReadFault>
    ensures { Gives (λ parts. parts) result (parts_at digest_digits shape.now bytes.now) }
{
    let rest = after(CACHE_VERSION, bytes)?;
    let (toolchain, rest) = read_digests(alloc, shape.toolchain, rest)?;
    let (words, rest) = read_words(alloc, shape.words.as_slice(), rest)?;
    let (files, around, rest) = read_files_and_around(alloc, shape, rest)?;
    match read_version(alloc, rest) {
        Ok(version) => Ok(Parts {
            toolchain,
            version,
            words,
            sources: files.sources,
            externs: files.externs,
            archives: files.archives,
            target: files.target,
            profile: files.profile,
            env_deps: around.env_deps,
            variables: around.variables,
            dir: around.dir,
        }),
        Err(fault) => {
            drop(files);
            drop(around);
            Err(fault)
        }
    }
}

/// The pieces, where their variables are in order.
fn if_sorted(parts: Parts) -> Option<Parts>
    ensures kept { IsSortedByNames parts → result ≡ Some parts }
    ensures sorted { IfSome result (λ kept. (parts ≡ kept) × IsSortedByNames kept) }
{
    if is_sorted_by_names(&parts) {
        Some(parts)
    } else {
        drop(parts);
        None
    }
}

/// A slice has a length. A call of it does nothing.
fn has_a_length(bytes: &[u8])
    ensures { FitsFrame bytes.now }
{
    let _length = bytes.len();
}

/// The pieces that have these bytes and this shape: digests of 64 lowercase hexadecimal digits, and variables in order. `None`
/// where no such pieces have them.
pub fn read_key_bytes(
    alloc: Global,
    bytes: &[u8],
    shape: &RShape,
) -> Result<Option<Parts>, AllocError>
    ensures { IfOk result (IsOnly (λ parts. AreFormed digest_digits parts
        × (material_of parts ≡ bytes.now) × (shape_of parts ≡ shape.now))) }
{
    has_a_length(bytes);
    match read_parts(alloc, bytes, shape) {
        Ok(parts) => Ok(if_sorted(parts)),
        Err(ReadFault::Unfit) => Ok(None),
        Err(ReadFault::Memory) => Err(AllocError),
    }
}
