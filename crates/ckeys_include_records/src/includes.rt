//! What is recorded of files.

ghost use Rattle.std.specs.Prelude.{◌≡◌, IfOk, IfErr, OnOk, IsErrOf};
ghost use Rattle.base_files.specs.Tree.{contents_at};
ghost use Rattle.base_files.specs.Views.{FilesFail};
ghost use Rattle.cmdlines_response_files.specs.Causes.{CauseOf};
ghost use Rattle.ckeys_include_records.specs.Surroundings.{included, includes_of, path_at, place_with};
ghost use Rattle.ckeys_time_macros.specs.Days.{local_day};
ghost use Rattle.ckeys_time_macros.specs.Macros as macros;

use crate::entry::IncludeEntry;
use crate::moments::{day_of, second_at};
use crate::sighting::digest_of;
use base_files::{FileFail, Files, Listed, OsBytes, join};
use ckeys_base::HashState;
use ckeys_time_macros::Zone;
use ckeys_time_macros::holds::holds;
use cmdlines_response_files::ParseFault;
use std::alloc::Global;

/// Whether `__DATE__` occurs in the contents.
#[tactic(auto, unfolding(ckeys_time_macros::specs::Macros::holds_date))]
fn holds_date(contents: &[u8]) -> bool
    ensures { result ≡ macros.holds_date contents.now }
{
    holds(contents, b"__DATE__")
}

/// Whether `__TIMESTAMP__` occurs in the contents.
#[tactic(auto, unfolding(ckeys_time_macros::specs::Macros::holds_timestamp))]
fn holds_timestamp(contents: &[u8]) -> bool
    ensures { result ≡ macros.holds_timestamp contents.now }
{
    holds(contents, b"__TIMESTAMP__")
}

/// What is recorded of the file of that name: nothing where there is none, or where it needs a day and there is none.
fn include_of<H: HashState, F: Files>(
    alloc: Global,
    dir: &OsBytes,
    day: Option<i64>,
    name: &OsBytes,
    files: &mut F,
) -> Result<Option<IncludeEntry>, ParseFault>
    ensures include { let place = place_with dir.now (F.tree files.old) day in
        let contents = contents_at place.files (path_at place name.now) in
        IfOk result (λ found. found ≡ included place H.digest_of name.now contents) }
    ensures cause { IfErr result (CauseOf (FilesFail F.Files files.old files.new)) }
    ensures tree { F.tree files.new ≡ F.tree files.old }
    ensures steady { OnOk result (F.failed files.new ≡ F.failed files.old) }
    ensures memory { IsErrOf result ParseFault.Memory → F.failed files.new ≡ F.failed files.old }
{
    let path = join(alloc, dir.as_bytes(), name.as_bytes())?;
    let contents = match files.read(alloc, &path) {
        Ok(Some(contents)) => contents,
        Ok(None) => return Ok(None),
        Err(FileFail::Memory) => return Err(ParseFault::Memory),
        Err(FileFail::Device) => return Err(ParseFault::Read(path)),
    };
    let is_dated = holds_date(contents.as_bytes());
    if is_dated && day.is_none() {
        return Ok(None);
    }
    let second = second_at(alloc, path, files)?;
    Ok(Some(IncludeEntry {
        path: name.clone()?,
        size: contents.as_bytes().len() as u64,
        digest: digest_of::<H>(alloc, contents.as_bytes())?,
        day: if is_dated { day } else { None },
        second: if holds_timestamp(contents.as_bytes()) {
            Some(second)
        } else {
            None
        },
    }))
}

/// What is recorded of files on a day.
fn includes_on<H: HashState, F: Files>(
    alloc: Global,
    dir: &OsBytes,
    day: Option<i64>,
    names: &[OsBytes],
    files: &mut F,
) -> Result<Option<Listed<IncludeEntry>>, ParseFault>
    ensures includes { let place = place_with dir.now (F.tree files.old) day in
        IfOk result (λ list. list ≡ includes_of place H.digest_of names.now) }
    ensures cause { IfErr result (CauseOf (FilesFail F.Files files.old files.new)) }
    ensures tree { F.tree files.new ≡ F.tree files.old }
    ensures steady { OnOk result (F.failed files.new ≡ F.failed files.old) }
    ensures memory { IsErrOf result ParseFault.Memory → F.failed files.new ≡ F.failed files.old }
{
    let mut list = Listed::new(alloc);
    for name in names {
        let Some(include) = include_of::<H, F>(alloc, dir, day, name, files)? else {
            return Ok(None);
        };
        list.push(include)?;
    }
    Ok(Some(list))
}

/// What is recorded of the files of these names, on these files from that directory, at a moment in seconds since the start of 1970
/// in UTC, in a zone; `None` where one of them isn't there, or needs a day and the calendar has none.
///
/// `Read` names a file on which an I/O error occurred.
pub fn includes_of<H: HashState, F: Files>(
    alloc: Global,
    dir: &OsBytes,
    moment: i64,
    zone: &Zone,
    names: &[OsBytes],
    files: &mut F,
) -> Result<Option<Listed<IncludeEntry>>, ParseFault>
    ensures includes { let place = place_with dir.now (F.tree files.old) (local_day zone.now moment)
        in
        IfOk result (λ list. list ≡ includes_of place H.digest_of names.now) }
    ensures cause { IfErr result (CauseOf (FilesFail F.Files files.old files.new)) }
    ensures tree { F.tree files.new ≡ F.tree files.old }
    ensures steady { OnOk result (F.failed files.new ≡ F.failed files.old) }
    ensures memory { IsErrOf result ParseFault.Memory → F.failed files.new ≡ F.failed files.old }
{
    includes_on::<H, F>(alloc, dir, day_of(moment, zone), names, files)
}
