//! All entries of a recorded build, each decided and reported, and their summary.

ghost use Rattle.std.specs.Prelude.{◌≡◌, ◌+◌, ◌^◌, ◌<◌, [], ◌∷◌, ◌++◌, IfOk, OnOk, if◌then◌else◌};
ghost use Rattle.sccache_recorded_builds.specs.Outcomes.{is_kept};
ghost use Rattle.sccache_recorded_builds.specs.Reasons.{Tells, holds, is_blocked_by, is_passed_for};
ghost use Rattle.sccache_recorded_builds.specs.Summaries.{HasTold, IsSummaryOf};
ghost use Rattle.sccache_recorded_builds.specs.Tallies.{numbers_in};
ghost use Rattle.sccache_recorded_builds.specs.Verdicts.{verdict_of};

use crate::deciding::Compilers;
use crate::entry::Entry;
use crate::entry_report::EntryReport;
use crate::snapshot::Asked;
use crate::summary::{Noted, Summary};
use cmdlines_response_files::ParseFault;
use std::alloc::{AllocError, Global};

/// Where entries are reported.
pub trait Lines {
    /// Reports the entry of this number. `files` has noted the response files that it names and that aren't there.
    fn tell(
        &mut self,
        number: u64,
        entry: &Entry,
        report: &EntryReport,
        files: &Asked,
    ) -> Result<(), AllocError>
        // What is reported is what the definitions make of the entry's words.
        requires { Tells entry.now.executable (verdict_of files.now.files entry.now) report.now };
}

/// What is reported for an entry, with these files.
fn report_of(
    alloc: Global,
    compilers: &Compilers,
    entry: &Entry,
    files: &mut Asked,
) -> Result<EntryReport, ParseFault>
    ensures told { IfOk result
        (Tells entry.now.executable (verdict_of files.old.files entry.now)) }
    ensures tree { files.new.files ≡ files.old.files }
{
    let decided = compilers.judge(alloc, entry, files)?;
    Ok(EntryReport::new(alloc, decided, &entry.executable)?)
}

/// Decides, reports and notes the entry of this number.
fn tell<L: Lines>(
    alloc: Global,
    compilers: &Compilers,
    number: u64,
    entry: &Entry,
    files: &mut Asked,
    lines: &mut L,
    noted: &mut Noted,
) -> Result<(), ParseFault>
    requires { noted.old.kept + 1 < 2 ^ 64 }
    ensures kept { OnOk result (noted.new.kept ≡ noted.old.kept
        + (if is_kept (verdict_of files.old.files entry.now) then 1 else 0)) }
    ensures reasons { OnOk result ((name : _) → numbers_in noted.new.reasons name
        ≡ numbers_in noted.old.reasons name
        ++ (if is_passed_for files.old.files name entry.now then number ∷ [] else [])) }
    ensures blockers { OnOk result ((name : _) → numbers_in noted.new.blockers name
        ≡ numbers_in noted.old.blockers name
        ++ (if is_blocked_by files.old.files name entry.now then number ∷ [] else [])) }
    ensures beware { OnOk result ((name : _) → numbers_in noted.new.beware name
        ≡ numbers_in noted.old.beware name
        ++ (if holds files.old.files name entry.now then number ∷ [] else [])) }
    ensures tree { files.new.files ≡ files.old.files }
{
    let report = report_of(alloc, compilers, entry, files)?;
    if lines.tell(number, entry, &report, files).is_err() {
        drop(report);
        return Err(ParseFault::Memory);
    }
    files.forget();
    noted.note(alloc, number, report)?;
    Ok(())
}

/// Entries that are reported one after another, and what was noted of them.
#[derive(Drop)]
pub struct ReportedEntries {
    /// How many there were.
    count: u64,
    noted: Noted,
}

impl ReportedEntries {
    /// No entry has been reported yet.
    pub fn new(alloc: Global) -> ReportedEntries
        ensures { (tree : _) → HasTold tree [] result }
    {
        ReportedEntries {
            count: 0,
            noted: Noted::new(alloc),
        }
    }

    /// The number of the next entry. More than can be counted are more than memory holds.
    fn next_number(&self) -> Result<u64, AllocError>
        ensures number { IfOk result (λ number. number ≡ self.now.count + 1) }
        ensures room { OnOk result (self.now.noted.kept + 1 < 2 ^ 64) }
    {
        if self.count == u64::MAX || self.noted.kept == u64::MAX {
            return Err(AllocError);
        }
        Ok(self.count + 1)
    }

    /// Decides and reports one more entry, with these files.
    pub fn tell<L: Lines>(
        &mut self,
        alloc: Global,
        compilers: &Compilers,
        entry: &Entry,
        files: &mut Asked,
        lines: &mut L,
    ) -> Result<(), ParseFault>
        ensures told { OnOk result ((entries : _)
            → HasTold files.old.files entries self.old
            → HasTold files.old.files (entries ++ entry.now ∷ []) self.new) }
        ensures tree { files.new.files ≡ files.old.files }
    {
        let number = self.next_number()?;
        tell(
            alloc,
            compilers,
            number,
            entry,
            files,
            lines,
            &mut self.noted,
        )?;
        self.count = number;
        Ok(())
    }

    /// The summary of all entries that were reported.
    pub fn into_summary(self, alloc: Global) -> Result<Summary, AllocError>
        ensures { IfOk result (λ summary. (tree : _) (entries : _)
            → HasTold tree entries self → IsSummaryOf tree entries summary) }
    {
        let summary = self.noted.into_summary(alloc, self.count)?;
        Ok(summary)
    }
}
