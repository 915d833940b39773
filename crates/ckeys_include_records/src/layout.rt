//! The bytes of a record.

ghost use Rattle.std.specs.Prelude.{◌≡◌, [], Some, MatchResult, IfOk, IfErr, OnOk, IsOk};
ghost use Rattle.std.specs.Io.KnownBytes.{Appends};
ghost use Rattle.base_formats.specs.Formats.{IsOnly};
ghost use Rattle.base_formats.specs.Reading.{Gives};
ghost use Rattle.ckeys_base.specs.Errors.{IsIoError};
ghost use Rattle.ckeys_include_records.specs.RecordFormats.{include_format, result_format};
ghost use Rattle.ckeys_include_records.specs.Layout.{IncludeFits, IsRecord, ResultFits, include_at, include_bytes, record_bytes, result_at, result_bytes, results_at};
ghost use Rattle.ckeys_include_records.specs.Refusals.{IsNoRecord, IsUnread, IsWrittenAs, OnRead};

use crate::entry::{CachedResult, IncludeEntry};
use crate::key_text::KeyText;
use crate::record::PreprocessorCacheEntry;
use base_files::{Listed, OsBytes};
use base_formats::{Field, ReadFault, put_all, put_number};
use ckeys_base::error::Error;
use std::alloc::{AllocError, Global};
use std::io::Write;

/// The first byte of this layout.
const FORMAT: u8 = 1;

/// Path, size, digest, day and second.
impl Field for IncludeEntry {
    ghost reads = { include_at };

    ghost spells = { include_bytes };

    ghost fits = { IncludeFits };

    ghost is_format = { include_format };

    #[tactic(auto, unfolding(crate::specs::Layout::include_at, base_formats::specs::Reading::both_at, base_formats::specs::Reading::made_at))]
    fn read(alloc: Global, bytes: &[u8]) -> Result<(IncludeEntry, &[u8]), ReadFault> {
        let (path, rest) = OsBytes::read(alloc, bytes)?;
        let (size, rest) = u64::read(alloc, rest)?;
        let (digest, rest) = KeyText::read(alloc, rest)?;
        let (day, rest) = Option::<i64>::read(alloc, rest)?;
        let (second, rest) = Option::<i64>::read(alloc, rest)?;
        let include = IncludeEntry {
            path,
            size,
            digest,
            day,
            second,
        };
        Ok((include, rest))
    }

    fn put(&self, out: &mut Vec<u8>) -> Result<(), AllocError> {
        self.path.put(out)?;
        self.size.put(out)?;
        self.digest.put(out)?;
        self.day.put(out)?;
        self.second.put(out)?;
        Ok(())
    }
}

/// The key, and the includes after their count.
impl Field for CachedResult {
    ghost reads = { result_at };

    ghost spells = { result_bytes };

    ghost fits = { ResultFits };

    ghost is_format = { result_format };

    #[tactic(auto, unfolding(crate::specs::Layout::result_at, base_formats::specs::Reading::both_at, base_formats::specs::Reading::made_at))]
    fn read(alloc: Global, bytes: &[u8]) -> Result<(CachedResult, &[u8]), ReadFault> {
        let (key, rest) = KeyText::read(alloc, bytes)?;
        let (includes, rest) = Listed::<IncludeEntry>::read(alloc, rest)?;
        Ok((CachedResult { key, includes }, rest))
    }

    fn put(&self, out: &mut Vec<u8>) -> Result<(), AllocError> {
        self.key.put(out)?;
        self.includes.put(out)
    }
}

/// The results that come after the first byte of a record.
fn read_results(alloc: Global, bytes: &[u8]) -> Result<PreprocessorCacheEntry, ReadFault>
    ensures { Gives (λ entry. entry.results) result (results_at bytes.now) }
{
    let (results, rest) = Listed::<CachedResult>::read(alloc, bytes)?;
    if !rest.is_empty() {
        return Err(ReadFault::Unfit);
    }
    match PreprocessorCacheEntry::from_results(results.into_vec()) {
        Some(entry) => Ok(entry),
        None => Err(ReadFault::Unfit),
    }
}

// What comes after the first byte, with the errors of records.
fn read_after_format(alloc: Global, bytes: &[u8]) -> Result<PreprocessorCacheEntry, Error>
    ensures { MatchResult result (λ entry. results_at bytes.now ≡ Some entry.results)
        (λ e. IsUnread bytes.now e) }
{
    match read_results(alloc, bytes) {
        Ok(entry) => Ok(entry),
        Err(ReadFault::Memory) => Err(Error::Memory),
        Err(ReadFault::Unfit) => Err(Error::Deserialization),
    }
}

impl PreprocessorCacheEntry {
    /// The record that was written as these bytes, and the empty one where there are none.
    ///
    /// `UnknownFormat` where another byte comes first, and `Deserialization` where after it comes what is written for no record.
    pub fn read(alloc: Global, bytes: &[u8]) -> Result<PreprocessorCacheEntry, Error>
        ensures read { OnRead result (IsOnly (IsWrittenAs bytes.now)) }
        ensures empty { bytes.now ≡ [] → IsOk result }
        ensures refused { IfErr result (λ e. IsNoRecord bytes.now e) }
    {
        let Some((first, rest)) = bytes.split_first() else {
            return Ok(PreprocessorCacheEntry::new(alloc));
        };
        if *first != FORMAT {
            return Err(Error::UnknownFormat(*first));
        }
        read_after_format(alloc, rest)
    }

    /// The bytes of this record.
    fn bytes(&self) -> Result<Vec<u8>, AllocError>
        ensures bytes { IfOk result (λ bytes. bytes.items ≡ record_bytes self.now.results) }
        ensures record { OnOk result (IsRecord self.now.results) }
    {
        let mut out = Vec::new(*self.results.allocator());
        out.push(FORMAT)?;
        put_number(&mut out, self.results.len() as u64)?;
        put_all(&mut out, &self.results)?;
        Ok(out)
    }

    /// Writes the bytes of this record. Where the writer fails it isn't known what it took.
    pub fn serialize_to<W: Write>(&self, writer: &mut W) -> Result<(), Error>
        ensures written { OnOk result
            (Appends (W.contents writer.old) (W.contents writer.new) (record_bytes self.now.results)) }
        ensures record { OnOk result (IsRecord self.now.results) }
        ensures cause { IfErr result (λ e. IsIoError e) }
    {
        let bytes = self.bytes()?;
        match writer.write_all(&bytes) {
            Ok(()) => Ok(()),
            Err(_) => Err(Error::Io),
        }
    }
}
