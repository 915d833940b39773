//! Days and seconds as records have them.

ghost use Rattle.std.specs.Prelude.{◌≡◌, IfOk, IfErr, OnOk, IsErrOf};
ghost use Rattle.base_files.specs.Views.{FilesFail};
ghost use Rattle.cmdlines_response_files.specs.Causes.{CauseOf};
ghost use Rattle.ckeys_include_records.specs.Surroundings as spec;
ghost use Rattle.ckeys_time_macros.specs.Days.{local_day};

use base_files::{FileFail, Files, OsBytes};
use ckeys_time_macros::{Zone, local_day};
use cmdlines_response_files::ParseFault;
use std::alloc::Global;

/// The day that a clock in the zone shows at a moment, as `ckeys_time_macros::local_day` gives it.
pub fn day_of(moment: i64, zone: &Zone) -> Option<i64>
    ensures { result ≡ local_day zone.now moment }
{
    local_day(moment, zone).map(|day| day as i64)
}

/// The second in which what is at a path was last changed, since the start of 1970 in UTC; 0 where nothing is.
///
/// `Read` names the path where an I/O error occurred on it.
pub fn second_at<F: Files>(alloc: Global, path: OsBytes, files: &mut F) -> Result<i64, ParseFault>
    ensures second { IfOk result (λ second. second ≡ spec.second_at (F.tree files.old) path) }
    ensures cause { IfErr result (CauseOf (FilesFail F.Files files.old files.new)) }
    ensures tree { F.tree files.new ≡ F.tree files.old }
    ensures steady { OnOk result (F.failed files.new ≡ F.failed files.old) }
    ensures memory { IsErrOf result ParseFault.Memory → F.failed files.new ≡ F.failed files.old }
{
    match files.metadata(alloc, &path) {
        Ok(Some(metadata)) => Ok(metadata.mtime.seconds),
        Ok(None) => Ok(0),
        Err(FileFail::Memory) => Err(ParseFault::Memory),
        Err(FileFail::Device) => Err(ParseFault::Read(path)),
    }
}
