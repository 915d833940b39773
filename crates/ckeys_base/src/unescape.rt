//! Bytes that were written with escapes, read again.

ghost use Rattle.std.specs.Prelude.{◌≡◌, ◌<◌, ◌^◌, ◌*◌, ◌+◌, None, IfOk, IfSome, IsErrOf, length};
ghost use Rattle.std.specs.List.{AllByRecursion, flat_map};
ghost use Rattle.std.specs.Option.{SomeIff, option_map};
ghost use Rattle.std.specs.Char.{digit_value};
ghost use Rattle.std.specs.Char.Escape.{escape_ascii};
ghost use Rattle.base_files.specs.Bytes.{Bytes};
ghost use Rattle.ckeys_base.specs.Escapes.{IsReading, meaning};
ghost use Rattle.ckeys_base.specs.EscapeSteps.{first_spelled, two_digits};

use std::alloc::{AllocError, Global};
use thiserror::Error;

/// Why bytes with escapes can't be read.
#[derive(Clone, Copy, Debug, Error, PartialEq, Eq)]
pub enum UnescapeError {
    /// A backslash is alone, or before what is no escape.
    #[error("bad escape")]
    BadEscape,
    /// No memory was left.
    #[error("no memory")]
    Memory,
}

impl From<AllocError> for UnescapeError {
    ghost use Rattle.ckeys_base.specs.declared.unescape.UnescapeError.TheVariants.{Memory};

    ghost from_gives = { λ _ e. e ≡ Memory };

    fn from(_error: AllocError) -> UnescapeError {
        UnescapeError::Memory
    }
}

/// The bytes that the text spells: `\t`, `\r`, `\n`, `\'`, `\"` and `\\` stand for one byte each,
/// `\x` and two hexadecimal digits for the byte of that value, and any other byte than a backslash
/// for itself. What can't be read so is refused as `BadEscape`.
pub fn ascii_unescape_default(alloc: Global, text: &[u8]) -> Result<Vec<u8>, UnescapeError>
    ensures read { IfOk result (λ plain. IsReading text.now plain.items) }
    ensures only { IfOk result
        (λ plain. (other : Bytes) → IsReading text.now other → other ≡ plain.items) }
    ensures refused { IsErrOf result UnescapeError.BadEscape → (plain : Bytes)
        → ¬ IsReading text.now plain }
    ensures undoes { (plain : Bytes) → AllByRecursion (λ b. b < 2 ^ 8) plain
        → text.now ≡ flat_map escape_ascii plain
        → IfOk result (λ back. back.items ≡ plain) × ¬ IsErrOf result UnescapeError.BadEscape }
{
    match read_escapes(alloc, text)? {
        Some(plain) => Ok(plain),
        None => Err(UnescapeError::BadEscape),
    }
}

/// The bytes that the text spells, if there are such bytes.
fn read_escapes(alloc: Global, text: &[u8]) -> Result<Option<Vec<u8>>, AllocError>
    ensures read { IfOk result (λ found. IfSome found (λ plain. IsReading text.now plain.items)) }
    ensures only { IfOk result
        (λ found. IfSome found
        (λ plain. (other : Bytes) → IsReading text.now other → other ≡ plain.items)) }
    ensures refused { IfOk result
        (λ found. found ≡ None → (plain : Bytes) → ¬ IsReading text.now plain) }
{
    let mut plain = Vec::with_capacity(alloc, text.len())?;
    let mut rest = text;
    while !rest.is_empty() {
        let Some((byte, after)) = next_byte(rest) else {
            return Ok(None);
        };
        plain.push(byte)?;
        rest = after;
    }
    Ok(Some(plain))
}

/// The byte that the text spells first, and the text after that.
fn next_byte(text: &[u8]) -> Option<(u8, &[u8])>
    ensures value { option_map (λ next. (next.0, next.1.now)) result ≡ first_spelled text.now }
    ensures shorter { IfSome result (λ next. length next.1.now < length text.now) }
{
    let (first, after) = text.split_first()?;
    if *first != b'\\' {
        return Some((*first, after));
    }
    let (letter, after) = after.split_first()?;
    if *letter == b'x' {
        return next_digits(after);
    }
    Some((letter_meaning(*letter)?, after))
}

/// The byte of the two hexadecimal digits that the text begins with, and the text after them.
fn next_digits(text: &[u8]) -> Option<(u8, &[u8])>
    ensures value { option_map (λ next. (next.0, next.1.now)) result ≡ two_digits text.now }
    ensures shorter { IfSome result (λ next. length next.1.now < length text.now) }
{
    let (high, after) = text.split_first()?;
    let (low, after) = after.split_first()?;
    Some((hex_value(*high)? * 16 + hex_value(*low)?, after))
}

/// The value of a hexadecimal digit.
fn hex_value(digit: u8) -> Option<u8>
    ensures { SomeIff result (digit_value digit < 16) (digit_value digit) }
{
    (digit as char).to_digit(16).map(|value| value as u8)
}

/// The byte that a backslash and this letter stand for.
fn letter_meaning(letter: u8) -> Option<u8>
    ensures { result ≡ meaning letter }
{
    match letter {
        b't' => Some(b'\t'),
        b'r' => Some(b'\r'),
        b'n' => Some(b'\n'),
        b'\'' => Some(b'\''),
        b'"' => Some(b'"'),
        b'\\' => Some(b'\\'),
        _ => None,
    }
}
