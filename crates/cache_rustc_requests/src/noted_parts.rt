//! Of what the key of a call was made, as rows of a name and a value, and in which row two calls with the same outputs differ first.

use base_blake2::Blake2b256;
use base_files::{Listed, OsBytes};
use base_formats::{put_framed, put_number};
use cache_dir::{CacheDir, Kind, digest_of, make_room};
use cache_format::{KeptManifest, seal, unseal};
use cache_host::{Fields, HostError};
use rustc_options::parsed::ParsedArguments;
use std::alloc::Global;
use std::rt::Files;

/// A name and a value.
type Row = (OsBytes, OsBytes);

/// What is used in place of a zone in what is kept of a call's parts.
const OF_PARTS: &[u8] = b"parts of rustc";

/// What the names of rows begin with whose values are digests, which say nothing to people.
const DIGESTS: [&[u8]; 4] = [b"crate's digest", b"file ", b"libraries", b"toolchain"];

/// Rows of what a key is made of, in the order in which they are compared.
#[derive(Drop)]
pub struct PartRows {
    rows: Listed<Row>,
}

/// What is kept of a call's parts.
#[derive(Drop)]
struct KeptRows {
    rows: Listed<Row>,
    difference: OsBytes,
}

impl PartRows {
    /// No rows.
    pub fn new(alloc: Global) -> PartRows {
        PartRows {
            rows: Listed::new(alloc),
        }
    }

    /// Adds a row.
    pub fn add(&mut self, alloc: Global, name: &str, value: &[u8]) -> Result<(), HostError> {
        let name = OsBytes::from_slice(alloc, name.as_bytes())?;
        self.rows.push((name, OsBytes::from_slice(alloc, value)?))?;
        Ok(())
    }

    /// Adds all rows of a list.
    pub fn add_all(&mut self, rows: Listed<Row>) -> Result<(), HostError> {
        for row in rows.into_vec() {
            self.rows.push(row)?;
        }
        Ok(())
    }

    /// The bytes of all rows.
    fn bytes(&self, alloc: Global) -> Result<OsBytes, HostError> {
        let mut bytes = Vec::new(alloc);
        put_number(&mut bytes, self.rows.len() as u64)?;
        for (name, value) in self.rows.as_slice() {
            put_framed(&mut bytes, name.as_bytes())?;
            put_framed(&mut bytes, value.as_bytes())?;
        }
        Ok(OsBytes::from_vec(bytes))
    }
}

/// The name under which the parts lie of the last call in this folder that asked for these outputs.
pub fn name_of_parts(
    alloc: Global,
    dir: &[u8],
    parsed: &ParsedArguments,
) -> Result<String, HostError> {
    let mut row = Vec::new(alloc);
    put_framed(&mut row, OF_PARTS)?;
    put_framed(&mut row, dir)?;
    put_framed(&mut row, parsed.output_dir.as_bytes())?;
    put_framed(&mut row, parsed.crate_name.as_bytes())?;
    if let Some(name) = &parsed.dep_info {
        put_framed(&mut row, name.as_bytes())?;
    }
    Ok(digest_of(alloc, row.as_slice())?)
}

/// The rows that a file keeps. Nothing where it keeps something else.
fn rows_of(alloc: Global, kept: KeptManifest) -> Result<Option<KeptRows>, HostError> {
    if !matches!(kept.zone.as_bytes(), OF_PARTS) {
        drop(kept);
        return Ok(None);
    }
    let rows = Fields::of(kept.results.as_bytes()).pairs(alloc)?;
    let difference = kept.watched;
    Ok(Some(KeptRows { rows, difference }))
}

/// What is kept under that name.
fn kept_under<R: Files + AllocGlobal>(
    rt: &R,
    folder: &CacheDir,
    name: &str,
) -> Result<Option<KeptRows>, HostError> {
    let alloc = rt.alloc();
    let Ok(bytes) = folder.read(rt, Kind::Fingerprints, name) else {
        return Ok(None);
    };
    match unseal::<Blake2b256, KeptManifest>(alloc, bytes.as_slice())? {
        Some(kept) => rows_of(alloc, kept),
        None => Ok(None),
    }
}

/// Whether a row's value says something to people.
fn is_told(row: &Row) -> bool {
    for front in &DIGESTS {
        if row.0.as_bytes().starts_with(front) {
            return false;
        }
    }
    true
}

/// The value of the row, or `none` where there is no row.
fn value_of(alloc: Global, row: Option<&Row>) -> Result<String, HostError> {
    match row {
        Some(row) => Ok(format!(in alloc; "{}", row.1)?),
        None => Ok(String::from_str(alloc, "none")?),
    }
}

/// The row of that name among these.
fn row_in<'a>(rows: &'a [Row], name: &OsBytes) -> Option<&'a Row> {
    rows.iter().find(|row| row.0 == *name)
}

/// What is said of a row that is another one here than there.
fn row_difference(
    alloc: Global,
    row: &Row,
    here: &[Row],
    there: &[Row],
) -> Result<OsBytes, HostError> {
    let name = &row.0;
    let text = match is_told(row) {
        false => format!(in alloc; "{name}")?,
        true => {
            let one = value_of(alloc, row_in(here, name))?;
            let other = value_of(alloc, row_in(there, name))?;
            format!(in alloc; "{name}: {}, earlier {}", one.as_str(), other.as_str())?
        }
    };
    Ok(OsBytes::from_vec(text.into_bytes()))
}

/// How many rows two lists begin with alike.
fn alike_ahead(here: &[Row], there: &[Row]) -> usize {
    for (at, row) in here.iter().enumerate() {
        match there.get(at) {
            Some(other) if *row == *other => {}
            _ => return at,
        }
    }
    here.len()
}

/// The first row in which two lists differ; an empty text where they are alike.
fn difference(alloc: Global, here: &[Row], there: &[Row]) -> Result<OsBytes, HostError> {
    let ahead = alike_ahead(here, there);
    match (here.get(ahead), there.get(ahead)) {
        (Some(row), Some(other)) if row.0 != other.0 && row_in(here, &other.0).is_none() => {
            row_difference(alloc, other, here, there)
        }
        (Some(row), _) | (None, Some(row)) => row_difference(alloc, row, here, there),
        (None, None) => Ok(OsBytes::from_slice(alloc, b"nothing differs")?),
    }
}

/// What differs from the call of that name before this one; an empty text where there was none.
fn difference_from<R: Files + AllocGlobal>(
    rt: &R,
    folder: &CacheDir,
    name: &str,
    parts: &PartRows,
) -> Result<OsBytes, HostError> {
    match kept_under(rt, folder, name)? {
        Some(kept) => difference(rt.alloc(), parts.rows.as_slice(), kept.rows.as_slice()),
        None => Ok(OsBytes::empty(rt.alloc())),
    }
}

/// The parts of a call with what differs in them, as they are kept.
fn kept_rows(
    alloc: Global,
    name: &str,
    parts: &PartRows,
    difference: &OsBytes,
) -> Result<KeptManifest, HostError> {
    Ok(KeptManifest {
        zone: OsBytes::from_slice(alloc, OF_PARTS)?,
        identity: OsBytes::empty(alloc),
        key: OsBytes::from_slice(alloc, name.as_bytes())?,
        results: parts.bytes(alloc)?,
        watched: difference.clone()?,
    })
}

/// Keeps them under that name.
fn put_rows<R: Files + AllocGlobal>(
    rt: &R,
    folder: &CacheDir,
    name: &str,
    kept: &KeptManifest,
) -> Result<(), HostError> {
    let bytes = seal::<Blake2b256, KeptManifest>(rt.alloc(), kept)?;
    folder.put(rt, Kind::Fingerprints, name, bytes.as_slice())?;
    Ok(make_room(&rt, folder, &[name])?)
}

/// Keeps the parts of a call that was compiled, and what differs from those of the call before it with these outputs, which is reported.
pub fn note_parts<R: Files + AllocGlobal>(
    rt: &R,
    folder: &CacheDir,
    name: &str,
    parts: &PartRows,
) -> Result<String, HostError> {
    let difference = difference_from(rt, folder, name, parts)?;
    let kept = kept_rows(rt.alloc(), name, parts, &difference)?;
    put_rows(rt, folder, name, &kept)?;
    told_in(rt.alloc(), &difference)
}

/// What a difference says; where it is empty, there was no call before.
fn told_in(alloc: Global, difference: &OsBytes) -> Result<String, HostError> {
    match difference.as_bytes().is_empty() {
        true => Ok(String::from_str(alloc, "the first call that was compiled")?),
        false => Ok(format!(in alloc; "{difference}")?),
    }
}

/// What is known in a cache directory of the last call of that name that was compiled, in a line.
pub fn told_of_parts<R: Files + AllocGlobal>(
    rt: &R,
    dir: &str,
    name: &str,
) -> Result<String, HostError> {
    let alloc = rt.alloc();
    let folder = CacheDir::new(String::from_str(alloc, dir)?, String::new(alloc));
    match kept_under(rt, &folder, name)? {
        None => Ok(String::from_str(alloc, "nothing is known")?),
        Some(kept) => told_in(alloc, &kept.difference),
    }
}
