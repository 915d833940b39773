//! What is seen of files during one look-up: each is read once.

ghost use Rattle.std.specs.Prelude.{◌≡◌, ℤ, Option, IfOk, IfErr, OnOk, IsErrOf};
ghost use Rattle.base_files.specs.Bytes.{Bytes};
ghost use Rattle.base_files.specs.Path.{join};
ghost use Rattle.base_files.specs.Views.{FilesFail};
ghost use Rattle.ckeys_base.specs.Hex.{hex_of};
ghost use Rattle.cmdlines_response_files.specs.Causes.{CauseOf};
ghost use Rattle.ckeys_include_records.specs.Sightings.{AreTrue, fits_seen, seen_at};
ghost use Rattle.ckeys_include_records.specs.Surroundings.{Place, are_there, is_there, place_with, second_at};
ghost use Rattle.ckeys_include_records.specs.Surroundings as spec;

use crate::entry::IncludeEntry;
use crate::key_text::KeyText;
use crate::moments::second_at;
use base_files::{FileFail, Files, OsBytes, join};
use ckeys_base::{Digest, HashState};
use cmdlines_response_files::ParseFault;
use std::alloc::{AllocError, Global};
use std::collections::HashMap;

/// A regular file: its size, the text of its digest, and the second of its last change.
#[derive(Drop)]
pub(crate) struct Seen {
    pub(crate) size: u64,
    pub(crate) digest: KeyText,
    pub(crate) second: i64,
}

/// What was seen of files, by their names; `None` for what is no regular file.
#[derive(Drop)]
pub(crate) struct Sightings {
    pub(crate) by_name: HashMap<OsBytes, Option<Seen>>,
}

/// The text of the digest of these bytes.
pub(crate) fn digest_of<H: HashState>(alloc: Global, bytes: &[u8]) -> Result<KeyText, AllocError>
    ensures { IfOk result (λ text. text ≡ hex_of (H.digest_of bytes.now)) }
{
    let mut digest: Digest<H> = Digest::new();
    digest.update(bytes);
    Ok(KeyText::new(digest.finish(alloc)?))
}

/// What is seen of the regular file of that name.
fn look_at<H: HashState, F: Files>(
    alloc: Global,
    dir: &OsBytes,
    name: &OsBytes,
    files: &mut F,
) -> Result<Option<Seen>, ParseFault>
    ensures seen { (day : Option ℤ) → let place = place_with dir.now (F.tree files.old) day in
        IfOk result (λ seen. seen ≡ seen_at H.digest_of place name.now) }
    ensures cause { IfErr result (CauseOf (FilesFail F.Files files.old files.new)) }
    ensures tree { F.tree files.new ≡ F.tree files.old }
    ensures steady { OnOk result (F.failed files.new ≡ F.failed files.old) }
    ensures memory { IsErrOf result ParseFault.Memory → F.failed files.new ≡ F.failed files.old }
{
    let path = join(alloc, dir.as_bytes(), name.as_bytes())?;
    let contents = match files.read(alloc, &path) {
        Ok(Some(contents)) => contents,
        Ok(None) => return Ok(None),
        Err(FileFail::Memory) => return Err(ParseFault::Memory),
        Err(FileFail::Device) => return Err(ParseFault::Read(path)),
    };
    let second = second_at(alloc, path, files)?;
    let digest = digest_of::<H>(alloc, contents.as_bytes())?;
    Ok(Some(Seen {
        size: contents.as_bytes().len() as u64,
        digest,
        second,
    }))
}

/// Whether a day or second that was recorded is the call's.
fn is_the(was: Option<i64>, now: Option<i64>) -> bool
    ensures { result ≡ spec.is_the was now }
{
    match (was, now) {
        (None, _) => true,
        (Some(was), Some(now)) => was == now,
        (Some(_), None) => false,
    }
}

/// Whether the file is as it was recorded.
fn fits_seen(day: Option<i64>, include: &IncludeEntry, seen: &Option<Seen>) -> bool
    ensures { result ≡ fits_seen day include.now seen.now }
{
    match seen {
        None => false,
        Some(seen) => {
            seen.size == include.size
                && seen.digest == include.digest
                && is_the(include.day, day)
                && is_the(include.second, Some(seen.second))
        }
    }
}

impl Sightings {
    /// Nothing was seen. It takes no memory.
    pub(crate) fn new(alloc: Global) -> Sightings
        ensures { (digest_of : Bytes → Bytes) (place : Place) → AreTrue digest_of place result }
    {
        Sightings {
            by_name: HashMap::new(alloc),
        }
    }

    /// Whether a file is as it was recorded. What was seen of it before isn't looked at again.
    fn is_there<H: HashState, F: Files>(
        &mut self,
        alloc: Global,
        dir: &OsBytes,
        day: Option<i64>,
        include: &IncludeEntry,
        files: &mut F,
    ) -> Result<bool, ParseFault>
        requires { AreTrue H.digest_of (place_with dir.now (F.tree files.old) day) self.old }
        ensures there { let place = place_with dir.now (F.tree files.old) day in
            IfOk result (λ there. there ≡ is_there place H.digest_of include.now) }
        ensures seen { AreTrue H.digest_of (place_with dir.now (F.tree files.old) day) self.new }
        ensures cause { IfErr result
            (CauseOf (FilesFail F.Files files.old files.new)) }
        ensures tree { F.tree files.new ≡ F.tree files.old }
        ensures steady { OnOk result (F.failed files.new ≡ F.failed files.old) }
        ensures memory { IsErrOf result ParseFault.Memory →
            F.failed files.new ≡ F.failed files.old }
    {
        if let Some(seen) = self.by_name.get(&include.path) {
            return Ok(fits_seen(day, include, seen));
        }
        let seen = look_at::<H, F>(alloc, dir, &include.path, files)?;
        let fits = fits_seen(day, include, &seen);
        self.by_name.insert(include.path.clone()?, seen)?;
        Ok(fits)
    }

    /// Whether each file is as it was recorded.
    pub(crate) fn are_there<H: HashState, F: Files>(
        &mut self,
        alloc: Global,
        dir: &OsBytes,
        day: Option<i64>,
        includes: &[IncludeEntry],
        files: &mut F,
    ) -> Result<bool, ParseFault>
        requires { AreTrue H.digest_of (place_with dir.now (F.tree files.old) day) self.old }
        ensures there { let place = place_with dir.now (F.tree files.old) day in
            IfOk result (λ there. there ≡ are_there place H.digest_of includes.now) }
        ensures seen { AreTrue H.digest_of (place_with dir.now (F.tree files.old) day) self.new }
        ensures cause { IfErr result
            (CauseOf (FilesFail F.Files files.old files.new)) }
        ensures tree { F.tree files.new ≡ F.tree files.old }
        ensures steady { OnOk result (F.failed files.new ≡ F.failed files.old) }
        ensures memory { IsErrOf result ParseFault.Memory →
            F.failed files.new ≡ F.failed files.old }
    {
        for include in includes {
            if !self.is_there::<H, F>(alloc, dir, day, include, files)? {
                return Ok(false);
            }
        }
        Ok(true)
    }
}
