//! A word cut in two at its first `=`.

ghost use Rattle.std.specs.Prelude.{◌≡◌, IfOk};
ghost use Rattle.rustc_options.specs.Splitting.{before_equals, after_equals, with_equals, maybe_with_equals};

use base_files::OsBytes;
use std::alloc::{AllocError, Global};

/// What comes before the first `=`, and what comes after it where there is one. Only what comes after it is
/// copied.
pub fn split_at_equals(word: OsBytes) -> Result<(OsBytes, Option<OsBytes>), AllocError>
    ensures before { IfOk result (λ parts. parts.0 ≡ before_equals word) }
    ensures after { IfOk result (λ parts. parts.1 ≡ after_equals word) }
{
    match word.as_bytes().iter().position(|byte| *byte == b'=') {
        None => Ok((word, None)),
        Some(at) => {
            let mut before = word.into_vec();
            let after = before.split_off(at + 1)?;
            before.truncate(at);
            Ok((OsBytes::from_vec(before), Some(OsBytes::from_vec(after))))
        }
    }
}

/// Both with a `=` between them.
pub fn with_equals(alloc: Global, front: &[u8], back: &[u8]) -> Result<OsBytes, AllocError>
    ensures { IfOk result (λ word. word ≡ with_equals front.now back.now) }
{
    let mut word = Vec::from_slice(alloc, front)?;
    word.push(b'=')?;
    word.extend_from_slice(back)?;
    Ok(OsBytes::from_vec(word))
}

/// Both with a `=` between them, and the first alone where there is no second.
pub fn maybe_with_equals(
    alloc: Global,
    front: &[u8],
    back: &Option<OsBytes>,
) -> Result<OsBytes, AllocError>
    ensures { IfOk result (λ word. word ≡ maybe_with_equals front.now back.now) }
{
    match back {
        None => OsBytes::from_slice(alloc, front),
        Some(back) => with_equals(alloc, front, back.as_bytes()),
    }
}
