//! The summary of a recorded build.

ghost use Rattle.std.specs.Prelude.{◌≡◌, ◌+◌, ◌^◌, ◌<◌, [], ◌∷◌, ◌++◌, IfOk, OnOk, if◌then◌else◌, string_bytes};
ghost use Rattle.std.specs.Option.{option_map};
ghost use Rattle.sccache_recorded_builds.specs.Beware.{AreOnce, is_among, is_named};
ghost use Rattle.sccache_recorded_builds.specs.Outcomes.{is_kept, outcome_in};
ghost use Rattle.sccache_recorded_builds.specs.Tallies.{AreRowsOf, numbers_in};

use crate::deciding::Decided;
use crate::entry_report::EntryReport;
use crate::tally::{Row, Tally};
use cmdlines_base::CompilerArguments;
use std::alloc::{AllocError, Global};

/// The summary of a recorded build.
#[derive(Drop)]
pub struct Summary {
    /// How many entries there are.
    pub entries: u64,
    /// How many of them are kept.
    pub kept: u64,
    /// Why entries are passed through.
    pub reasons: Vec<Row>,
    /// What keeps direct mode from being used.
    pub blockers: Vec<Row>,
    /// Options to beware of.
    pub beware: Vec<Row>,
}

/// What was noted for a summary.
#[derive(Drop)]
pub(crate) struct Noted {
    pub(crate) kept: u64,
    pub(crate) reasons: Tally,
    pub(crate) blockers: Tally,
    pub(crate) beware: Tally,
}

/// Whether what was decided is that the outputs are kept.
fn keeps(decided: &Decided) -> bool
    ensures { result ≡ is_kept (outcome_in decided.now) }
{
    matches!(
        decided,
        Decided::C(_, CompilerArguments::Ok(_)) | Decided::Rustc(CompilerArguments::Ok(_))
    )
}

/// One more where what was decided is that the outputs are kept.
fn kept_with(kept: u64, decided: &Decided) -> u64
    requires { kept + 1 < 2 ^ 64 }
    ensures { result ≡ kept + (if is_kept (outcome_in decided.now) then 1 else 0) }
{
    if keeps(decided) { kept + 1 } else { kept }
}

impl Noted {
    pub(crate) fn new(alloc: Global) -> Noted
        ensures kept { result.kept ≡ 0 }
        ensures reasons { (name : _) → numbers_in result.reasons name ≡ [] }
        ensures blockers { (name : _) → numbers_in result.blockers name ≡ [] }
        ensures beware { (name : _) → numbers_in result.beware name ≡ [] }
    {
        Noted {
            kept: 0,
            reasons: Tally::new(alloc),
            blockers: Tally::new(alloc),
            beware: Tally::new(alloc),
        }
    }

    /// Notes the reason, the blocker and the options to beware of at this number.
    fn note_texts(
        &mut self,
        alloc: Global,
        number: u64,
        reason: Option<String>,
        blocker: Option<String>,
        beware: &[&'static str],
    ) -> Result<(), AllocError>
        requires once { AreOnce beware.now }
        ensures kept { self.new.kept ≡ self.old.kept }
        ensures reasons { OnOk result ((name : _) → numbers_in self.new.reasons name
            ≡ numbers_in self.old.reasons name
            ++ (if is_named name (option_map string_bytes reason) then number ∷ [] else [])) }
        ensures blockers { OnOk result ((name : _) → numbers_in self.new.blockers name
            ≡ numbers_in self.old.blockers name
            ++ (if is_named name (option_map string_bytes blocker) then number ∷ [] else [])) }
        ensures beware { OnOk result ((name : _) → numbers_in self.new.beware name
            ≡ numbers_in self.old.beware name
            ++ (if is_among name beware.now then number ∷ [] else [])) }
    {
        self.beware.note_each(alloc, beware, number)?;
        self.reasons.note_some(reason, number)?;
        self.blockers.note_some(blocker, number)
    }

    /// Notes what is reported for the entry of this number.
    pub(crate) fn note(
        &mut self,
        alloc: Global,
        number: u64,
        report: EntryReport,
    ) -> Result<(), AllocError>
        requires room { self.old.kept + 1 < 2 ^ 64 }
        requires once { AreOnce report.beware.items }
        ensures kept { OnOk result (self.new.kept
            ≡ self.old.kept + (if is_kept (outcome_in report.decided) then 1 else 0)) }
        ensures reasons { OnOk result ((name : _) → numbers_in self.new.reasons name
            ≡ numbers_in self.old.reasons name
            ++ (if is_named name (option_map string_bytes report.reason)
            then number ∷ [] else [])) }
        ensures blockers { OnOk result ((name : _) → numbers_in self.new.blockers name
            ≡ numbers_in self.old.blockers name
            ++ (if is_named name (option_map string_bytes report.blocker)
            then number ∷ [] else [])) }
        ensures beware { OnOk result ((name : _) → numbers_in self.new.beware name
            ≡ numbers_in self.old.beware name
            ++ (if is_among name report.beware.items then number ∷ [] else [])) }
    {
        let EntryReport {
            decided,
            reason,
            blocker,
            beware,
        } = report;
        self.kept = kept_with(self.kept, &decided);
        drop(decided);
        self.note_texts(alloc, number, reason, blocker, beware.as_slice())
    }

    /// The summary of what was noted of so many entries.
    pub(crate) fn into_summary(self, alloc: Global, entries: u64) -> Result<Summary, AllocError>
        ensures entries { IfOk result (λ summary. summary.entries ≡ entries) }
        ensures kept { IfOk result (λ summary. summary.kept ≡ self.kept) }
        ensures reasons { IfOk result (λ summary. AreRowsOf self.reasons summary.reasons.items) }
        ensures blockers { IfOk result (λ summary. AreRowsOf self.blockers summary.blockers.items) }
        ensures beware { IfOk result (λ summary. AreRowsOf self.beware summary.beware.items) }
    {
        Ok(Summary {
            entries,
            kept: self.kept,
            reasons: self.reasons.into_rows(alloc)?,
            blockers: self.blockers.into_rows(alloc)?,
            beware: self.beware.into_rows(alloc)?,
        })
    }
}
