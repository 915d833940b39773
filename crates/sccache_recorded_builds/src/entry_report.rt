//! What is reported for an entry.

ghost use Rattle.std.specs.Prelude.{◌≡◌, Bool, List, IfOk, string_bytes};
ghost use Rattle.std.specs.List.{list_any};
ghost use Rattle.std.specs.Option.{option_map};
ghost use Rattle.sccache_recorded_builds.specs.Beware.{AreOnce, is_among, is_option};
ghost use Rattle.sccache_recorded_builds.specs.Outcomes.{outcome_in};
ghost use Rattle.sccache_recorded_builds.specs.Reasons.{Tells, blocker_in, holds_option, reason_for};

use crate::beware::options_in;
use crate::deciding::Decided;
use crate::reasons::reason_of;
use base_files::OsBytes;
use cmdlines_base::CompilerArguments;
use cmdlines_tables::Spelling;
use std::alloc::{AllocError, Global};

/// What is reported for an entry.
#[derive(Drop)]
pub struct EntryReport {
    pub decided: Decided,
    /// Why it is passed through.
    pub reason: Option<String>,
    /// The option that keeps direct mode from being used.
    pub blocker: Option<String>,
    /// The options to beware of, each once.
    pub beware: Vec<&'static str>,
}

/// The option that keeps direct mode from being used.
fn blocker_of(alloc: Global, decided: &Decided) -> Result<Option<String>, AllocError>
    ensures { IfOk result
        (λ blocker. option_map string_bytes blocker ≡ blocker_in (outcome_in decided.now)) }
{
    let Decided::C(_, CompilerArguments::Ok(parsed)) = decided else {
        return Ok(None);
    };
    match &parsed.too_hard_for_preprocessor_cache_mode {
        Some(flag) => Ok(Some(format!(in alloc; "{flag}")?)),
        None => Ok(None),
    }
}

/// The options to beware of in what Gcc and those like it keep, each once.
fn options_to_beware_of(alloc: Global, decided: &Decided) -> Result<Vec<&'static str>, AllocError>
    ensures once { IfOk result (λ found. AreOnce found.items) }
    ensures held { IfOk result (λ found. (option : _) →
        is_among option found.items ≡ holds_option option (outcome_in decided.now)) }
{
    match decided {
        Decided::C(kind, CompilerArguments::Ok(parsed)) => match kind.spelling() {
            Spelling::Gnu => options_in(
                alloc,
                parsed.preprocessor_args.as_slice(),
                parsed.common_args.as_slice(),
            ),
            Spelling::Plain | Spelling::Msvc => Ok(Vec::new(alloc)),
        },
        _ => Ok(Vec::new(alloc)),
    }
}

/// What is reported for an entry besides what it comes to.
#[derive(Drop)]
struct Remarks {
    reason: Option<String>,
    blocker: Option<String>,
    beware: Vec<&'static str>,
}

/// What is reported for the words of that executable besides what they come to.
fn remarks_on(alloc: Global, decided: &Decided, executable: &OsBytes) -> Result<Remarks, AllocError>
    ensures reason { IfOk result (λ remarks. option_map string_bytes remarks.reason
        ≡ reason_for executable.now (outcome_in decided.now)) }
    ensures blocker { IfOk result
        (λ remarks. option_map string_bytes remarks.blocker ≡ blocker_in (outcome_in decided.now)) }
    ensures held { IfOk result (λ remarks. (option : _) →
        is_among option remarks.beware.items ≡ holds_option option (outcome_in decided.now)) }
    ensures once { IfOk result (λ remarks. AreOnce remarks.beware.items) }
{
    Ok(Remarks {
        reason: reason_of(alloc, decided, executable)?,
        blocker: blocker_of(alloc, decided)?,
        beware: options_to_beware_of(alloc, decided)?,
    })
}

impl EntryReport {
    /// What is reported for the words of that executable, which come to this.
    pub fn new(
        alloc: Global,
        decided: Decided,
        executable: &OsBytes,
    ) -> Result<EntryReport, AllocError>
        ensures { IfOk result (Tells executable.now (outcome_in decided)) }
    {
        match remarks_on(alloc, &decided, executable) {
            Ok(remarks) => Ok(EntryReport {
                decided,
                reason: remarks.reason,
                blocker: remarks.blocker,
                beware: remarks.beware,
            }),
            Err(error) => {
                drop(decided);
                Err(error)
            }
        }
    }
}
