//! Why words are passed through, as text.

ghost use Rattle.std.specs.Prelude.{◌≡◌, IfOk, is_some, string_bytes};
ghost use Rattle.std.specs.Option.{option_map};
ghost use Rattle.sccache_recorded_builds.specs.Outcomes.{is_passed, outcome_in};
ghost use Rattle.sccache_recorded_builds.specs.Reasons.{reason_for, reason_with};

use crate::deciding::Decided;
use base_files::OsBytes;
use cmdlines_base::CompilerArguments;
use std::alloc::{AllocError, Global};

/// A reason, with more text or none.
fn pass_text(
    alloc: Global,
    reason: &'static str,
    more: &Option<String>,
) -> Result<String, AllocError>
    ensures { IfOk result (λ text. string_bytes text
        ≡ reason_with reason.now (option_map string_bytes more.now)) }
{
    match more {
        None => String::from_str(alloc, reason),
        Some(more) => format!(in alloc; "{reason}: {more}"),
    }
}

/// Why words that come to this are passed through, and nothing where what they ask for is kept.
pub fn reason_of(
    alloc: Global,
    decided: &Decided,
    executable: &OsBytes,
) -> Result<Option<String>, AllocError>
    ensures text { IfOk result (λ reason. option_map string_bytes reason
        ≡ reason_for executable.now (outcome_in decided.now)) }

    // There is a reason exactly where they are passed through.
    ensures reason { IfOk result (λ reason. is_some reason ≡ is_passed (outcome_in decided.now)) }
{
    match decided {
        Decided::C(_, CompilerArguments::Ok(_)) | Decided::Rustc(CompilerArguments::Ok(_)) => Ok(
            None,
        ),
        Decided::C(_, CompilerArguments::NotCompilation)
        | Decided::Rustc(CompilerArguments::NotCompilation) => {
            Ok(Some(String::from_str(alloc, "not a compilation")?))
        }
        Decided::C(_, CompilerArguments::CannotCache(reason, more))
        | Decided::Rustc(CompilerArguments::CannotCache(reason, more)) => {
            Ok(Some(pass_text(alloc, reason, more)?))
        }
        Decided::Unknown => Ok(Some(format!(in alloc; "unknown compiler {executable}")?)),
    }
}
