//! Spans of time as text.

ghost use Rattle.std.specs.Prelude.{◌≡◌, IfOk};
ghost use Rattle.std.specs.Duration.{as_nanos};
ghost use Rattle.std.specs.String.{string_bytes};
ghost use Rattle.ckeys_base.specs.Seconds.{in_seconds};

use std::alloc::{AllocError, Global};
use std::time::Duration;

/// Seconds, a point, three digits of milliseconds, and ` s`. What is less than a millisecond is
/// left out.
pub fn fmt_duration_as_secs(alloc: Global, duration: &Duration) -> Result<String, AllocError>
    ensures { IfOk result (λ text. string_bytes text ≡ in_seconds (as_nanos duration.now)) }
{
    let seconds = duration.as_secs();
    let milliseconds = duration.subsec_millis();
    format!(in alloc; "{seconds}.{milliseconds:03} s")
}
