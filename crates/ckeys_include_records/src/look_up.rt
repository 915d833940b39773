//! Which text a call prints, found from what is recorded.

ghost use Rattle.std.specs.Prelude.{◌≡◌, true, IfOk, IfErr, IfSome, OnOk, IsErrOf};
ghost use Rattle.base_files.specs.Views.{FilesFail};
ghost use Rattle.cmdlines_response_files.specs.Causes.{CauseOf};
ghost use Rattle.ckeys_include_records.specs.LookUps.{LooksUp, NoneAbove, last_there};
ghost use Rattle.ckeys_include_records.specs.Records.{is_record};
ghost use Rattle.ckeys_include_records.specs.Surroundings.{place_with};
ghost use Rattle.ckeys_time_macros.specs.Days.{local_day};

use crate::key_text::KeyText;
use crate::moments::day_of;
use crate::record::PreprocessorCacheEntry;
use crate::sighting::Sightings;
use base_files::{Files, OsBytes};
use ckeys_base::HashState;
use ckeys_time_macros::Zone;
use cmdlines_response_files::ParseFault;
use std::alloc::Global;

impl PreprocessorCacheEntry {
    /// The greatest key of those results whose files are as they were recorded, on these files from that directory, at a moment in
    /// seconds since the start of 1970 in UTC, in a zone; `None` where no result's are. Each file is looked at once.
    ///
    /// `Read` names a file on which an I/O error occurred.
    pub fn lookup_result_digest<H: HashState, F: Files>(
        &self,
        alloc: Global,
        dir: &OsBytes,
        moment: i64,
        zone: &Zone,
        files: &mut F,
    ) -> Result<Option<KeyText>, ParseFault>
        ensures last { let place = place_with dir.now (F.tree files.old) (local_day zone.now moment)
            in
            IfOk result (λ key. key ≡ last_there H.digest_of place self.now.results) }
        ensures found { let place = place_with dir.now (F.tree files.old)
            (local_day zone.now moment) in
            IfOk result (LooksUp H.digest_of place self.now.results) }
        ensures greatest { let place = place_with dir.now (F.tree files.old)
            (local_day zone.now moment) in
            IfOk result (λ key. IfSome key (NoneAbove H.digest_of place self.now.results)) }
        ensures cause { IfErr result
            (CauseOf (FilesFail F.Files files.old files.new)) }
        ensures tree { F.tree files.new ≡ F.tree files.old }
        ensures steady { OnOk result (F.failed files.new ≡ F.failed files.old) }
        ensures memory { IsErrOf result ParseFault.Memory →
            F.failed files.new ≡ F.failed files.old }
    {
        self.last_there::<H, F>(alloc, dir, day_of(moment, zone), files)
    }

    /// The same on a day. The keys of a record rise, so the last is the greatest.
    fn last_there<H: HashState, F: Files>(
        &self,
        alloc: Global,
        dir: &OsBytes,
        day: Option<i64>,
        files: &mut F,
    ) -> Result<Option<KeyText>, ParseFault>
        ensures last { let place = place_with dir.now (F.tree files.old) day in
            IfOk result (λ key. key ≡ last_there H.digest_of place self.now.results) }
        ensures record { is_record self.now.results ≡ true }
        ensures cause { IfErr result
            (CauseOf (FilesFail F.Files files.old files.new)) }
        ensures tree { F.tree files.new ≡ F.tree files.old }
        ensures steady { OnOk result (F.failed files.new ≡ F.failed files.old) }
        ensures memory { IsErrOf result ParseFault.Memory →
            F.failed files.new ≡ F.failed files.old }
    {
        let mut sightings = Sightings::new(alloc);
        let mut left = self.results.len();
        while left > 0 {
            left -= 1;
            let result = &self.results[left];
            if sightings.are_there::<H, F>(alloc, dir, day, result.includes.as_slice(), files)? {
                return Ok(Some(result.key.clone()?));
            }
        }
        Ok(None)
    }
}
