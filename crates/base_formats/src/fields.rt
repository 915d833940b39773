//! Fields from the front of a slice, and fields at the end of a buffer.

ghost use Rattle.std.specs.Prelude.{◌≡◌, ◌++◌, IfErr, OnOk, string_bytes};
ghost use Rattle.std.specs.Io.{StartsWith};
ghost use Rattle.base_formats.specs.Reading.{Gives, framed_at, number_at, signed_at, taken_at, text_at};
ghost use Rattle.base_formats.specs.Spelling.{FitsFrame, framed, number, signed};

use crate::fault::ReadFault;
use std::alloc::{AllocError, Global};

/// A number of eight bytes, low byte first, and the bytes after it. It takes no memory.
#[tactic(auto, unfolding(crate::specs::Reading::number_at))]
pub fn read_number(bytes: &[u8]) -> Result<(u64, &[u8]), ReadFault>
    ensures value { Gives (λ x. (x.0, x.1.now)) result (number_at bytes.now) }
    ensures fault { IfErr result (λ fault. fault ≡ ReadFault.Unfit) }
{
    if bytes.len() < 8 {
        return Err(ReadFault::Unfit);
    }
    let (front, rest) = bytes.split_at(8);
    let number = u64::from_le_bytes([
        front[0], front[1], front[2], front[3], front[4], front[5], front[6], front[7],
    ]);
    Ok((number, rest))
}

/// A signed number by its eight bytes, low byte first, and the bytes after it. It takes no memory.
#[tactic(auto, unfolding(crate::specs::Reading::signed_at))]
pub fn read_signed(bytes: &[u8]) -> Result<(i64, &[u8]), ReadFault>
    ensures value { Gives (λ x. (x.0, x.1.now)) result (signed_at bytes.now) }
    ensures fault { IfErr result (λ fault. fault ≡ ReadFault.Unfit) }
{
    let (number, rest) = read_number(bytes)?;
    Ok((number.cast_signed(), rest))
}

/// The first `len` bytes, and the bytes after them. It takes no memory.
#[tactic(auto, unfolding(crate::specs::Reading::taken_at))]
pub fn read_taken(len: u64, bytes: &[u8]) -> Result<(&[u8], &[u8]), ReadFault>
    ensures value { Gives (λ x. (x.0.now, x.1.now)) result (taken_at len bytes.now) }
    ensures fault { IfErr result (λ fault. fault ≡ ReadFault.Unfit) }
{
    if (bytes.len() as u64) < len {
        return Err(ReadFault::Unfit);
    }
    Ok(bytes.split_at(len as usize))
}

/// Length-prefixed bytes, and the bytes after them. It takes no memory.
#[tactic(auto, unfolding(crate::specs::Reading::framed_at))]
pub fn read_framed(bytes: &[u8]) -> Result<(&[u8], &[u8]), ReadFault>
    ensures value { Gives (λ x. (x.0.now, x.1.now)) result (framed_at bytes.now) }
    ensures fault { IfErr result (λ fault. fault ≡ ReadFault.Unfit) }
{
    let (len, rest) = read_number(bytes)?;
    read_taken(len, rest)
}

/// Length-prefixed UTF-8, and the bytes after it.
pub fn read_text(alloc: Global, bytes: &[u8]) -> Result<(String, &[u8]), ReadFault>
    ensures { Gives (λ x. (string_bytes x.0, x.1.now)) result (text_at bytes.now) }
{
    let (front, rest) = read_framed(bytes)?;
    match str::from_utf8(front) {
        Ok(text) => Ok((String::from_str(alloc, text)?, rest)),
        Err(_) => Err(ReadFault::Unfit),
    }
}

/// Adds a number of eight bytes, low byte first. Where no memory was left, a part of it may have been added
/// to what was there.
pub fn put_number(out: &mut Vec<u8>, value: u64) -> Result<(), AllocError>
    ensures added { OnOk result (out.new.items ≡ out.old.items ++ number value) }
    ensures front { StartsWith out.new.items out.old.items }
{
    out.extend_from_slice(&value.to_le_bytes())
}

/// Adds a signed number by its eight bytes, low byte first. Where no memory was left, a part of it may have been added
/// to what was there.
pub fn put_signed(out: &mut Vec<u8>, value: i64) -> Result<(), AllocError>
    ensures added { OnOk result (out.new.items ≡ out.old.items ++ signed value) }
    ensures front { StartsWith out.new.items out.old.items }
{
    put_number(out, value.cast_unsigned())
}

/// Adds bytes after their length. Where no memory was left, a part of them may have been added to what was
/// there.
pub fn put_framed(out: &mut Vec<u8>, bytes: &[u8]) -> Result<(), AllocError>
    ensures added { OnOk result (out.new.items ≡ out.old.items ++ framed bytes.now) }
    ensures fits { FitsFrame bytes.now }
    ensures front { StartsWith out.new.items out.old.items }
{
    put_number(out, bytes.len() as u64)?;
    out.extend_from_slice(bytes)
}
