//! What can be a field of a layout.

ghost use Rattle.std.specs.Prelude.{◌≡◌, ◌++◌, OnOk, None};
ghost use Rattle.std.specs.Io.{StartsWith};
ghost use Rattle.std.specs.List.{flat_map, AllByRecursion};
ghost use Rattle.base_files.specs.Bytes.{Bytes};
ghost use Rattle.base_formats.specs.Formats.{IsFormat};
ghost use Rattle.base_formats.specs.Reading.{Gives, Read, both_at, counted_at, framed_at, number_at, optional_at, signed_at, times_at};
ghost use Rattle.base_formats.specs.Spelling.{BothFit, CountFits, FitsFrame, FitsNumber, FitsWord, IfFits, both, counted, framed, number, optional, signed};
ghost use Rattle.base_formats.specs.Choices.{AnyFits, coded, coded_at, flag_code, flag_format, flag_of};
ghost use Rattle.base_formats.specs.FieldFormats.{both_format, counted_format, framed_format, number_format, optional_format, signed_format};

use crate::fault::ReadFault;
use crate::fields::{put_framed, put_number, put_signed, read_framed, read_number, read_signed};
use base_files::{Listed, OsBytes};
use std::alloc::{AllocError, Global};

/// A value that bytes spell: how it is read from the left, how it is spelled, and which values fit.
pub trait Field: Drop {
    /// What is read from the left, and the bytes after it.
    ghost reads: { Bytes → Read Self };

    /// The bytes of a value.
    ghost spells: { Self → Bytes };

    /// The values that can be spelled.
    ghost fits: { Self → Type 0 };

    /// What is read is what was written, and nothing else is read.
    ghost is_format: { IsFormat reads spells fits };

    /// The value at the front of the bytes, and the bytes after it. `Unfit` where there is none.
    fn read(alloc: Global, bytes: &[u8]) -> Result<(Self, &[u8]), ReadFault>
        ensures { Gives (λ x. (x.0, x.1.now)) result (reads bytes.now) };

    /// Appends the bytes of this value. When out of memory, a part of them may have been appended to what was there.
    fn put(&self, out: &mut Vec<u8>) -> Result<(), AllocError>
        ensures added { OnOk result (out.new.items ≡ out.old.items ++ spells self.now) }
        ensures fits { OnOk result (fits self.now) }
        ensures front { StartsWith out.new.items out.old.items };
}

/// A number of eight bytes, low byte first.
impl Field for u64 {
    ghost reads = { number_at };

    ghost spells = { number };

    ghost fits = { FitsNumber };

    ghost is_format = { number_format };

    fn read(_alloc: Global, bytes: &[u8]) -> Result<(u64, &[u8]), ReadFault> {
        read_number(bytes)
    }

    fn put(&self, out: &mut Vec<u8>) -> Result<(), AllocError> {
        put_number(out, *self)
    }
}

/// A length, as a number.
impl Field for usize {
    ghost reads = { number_at };

    ghost spells = { number };

    ghost fits = { FitsNumber };

    ghost is_format = { number_format };

    fn read(_alloc: Global, bytes: &[u8]) -> Result<(usize, &[u8]), ReadFault> {
        let (number, rest) = read_number(bytes)?;
        match usize::try_from(number) {
            Ok(length) => Ok((length, rest)),
            Err(_) => Err(ReadFault::Unfit),
        }
    }

    fn put(&self, out: &mut Vec<u8>) -> Result<(), AllocError> {
        put_number(out, *self as u64)
    }
}

/// A flag by the byte 0 or 1.
impl Field for bool {
    ghost reads = { coded_at flag_of };

    ghost spells = { coded flag_code };

    ghost fits = { AnyFits };

    ghost is_format = { flag_format };

    #[tactic(auto, unfolding(crate::specs::Choices::coded_at))]
    fn read(_alloc: Global, bytes: &[u8]) -> Result<(bool, &[u8]), ReadFault> {
        let Some((byte, rest)) = bytes.split_first() else {
            return Err(ReadFault::Unfit);
        };
        match byte {
            0 => Ok((false, rest)),
            1 => Ok((true, rest)),
            _ => Err(ReadFault::Unfit),
        }
    }

    fn put(&self, out: &mut Vec<u8>) -> Result<(), AllocError> {
        Ok(out.push(u8::from(*self))?)
    }
}

/// A signed number by its eight bytes, low byte first.
impl Field for i64 {
    ghost reads = { signed_at };

    ghost spells = { signed };

    ghost fits = { FitsWord };

    ghost is_format = { signed_format };

    fn read(_alloc: Global, bytes: &[u8]) -> Result<(i64, &[u8]), ReadFault> {
        read_signed(bytes)
    }

    fn put(&self, out: &mut Vec<u8>) -> Result<(), AllocError> {
        put_signed(out, *self)
    }
}

/// Bytes after their length.
impl Field for OsBytes {
    ghost reads = { framed_at };

    ghost spells = { framed };

    ghost fits = { FitsFrame };

    ghost is_format = { framed_format };

    fn read(alloc: Global, bytes: &[u8]) -> Result<(OsBytes, &[u8]), ReadFault> {
        let (front, rest) = read_framed(bytes)?;
        Ok((OsBytes::from_slice(alloc, front)?, rest))
    }

    fn put(&self, out: &mut Vec<u8>) -> Result<(), AllocError> {
        put_framed(out, self.as_bytes())
    }
}

/// The byte 0 for `None`, and the byte 1 and the value for `Some`.
impl<T: Field> Field for Option<T> {
    ghost reads = { optional_at T.reads };

    ghost spells = { optional T.spells };

    ghost fits = { IfFits T.fits };

    ghost is_format = { optional_format T.reads T.spells T.fits T.is_format };

    #[tactic(auto, unfolding(crate::specs::Reading::optional_at))]
    fn read(alloc: Global, bytes: &[u8]) -> Result<(Option<T>, &[u8]), ReadFault> {
        match bytes {
            [] => Err(ReadFault::Unfit),
            [0, rest @ ..] => Ok((None, rest)),
            [1, rest @ ..] => {
                let (value, rest) = T::read(alloc, rest)?;
                Ok((Some(value), rest))
            }
            [_, ..] => Err(ReadFault::Unfit),
        }
    }

    fn put(&self, out: &mut Vec<u8>) -> Result<(), AllocError> {
        match self {
            None => Ok(out.push(0)?),
            Some(value) => {
                out.push(1)?;
                value.put(out)
            }
        }
    }
}

/// So many values in a row, and the bytes after them.
fn read_times<T: Field>(
    alloc: Global,
    count: u64,
    bytes: &[u8],
) -> Result<(Vec<T>, &[u8]), ReadFault>
    ensures { Gives (λ x. (x.0.items, x.1.now)) result (times_at T.reads count bytes.now) }
{
    let mut all = Vec::new(alloc);
    let mut rest = bytes;
    'all: for _ in 0..count {
        let (value, after) = T::read(alloc, rest)?;
        all.push(value)?;
        rest = after;
    }
    Ok((all, rest))
}

/// Appends the bytes of each value. When out of memory, a part of them may have been appended to what was there.
pub fn put_all<T: Field>(out: &mut Vec<u8>, values: &[T]) -> Result<(), AllocError>
    ensures added { OnOk result (out.new.items ≡ out.old.items ++ flat_map T.spells values.now) }
    ensures fits { OnOk result (AllByRecursion T.fits values.now) }
    ensures front { StartsWith out.new.items out.old.items }
{
    for value in values {
        value.put(out)?;
    }
    Ok(())
}

/// One value, and then the other.
impl<A: Field, B: Field> Field for (A, B) {
    ghost reads = { both_at A.reads B.reads };

    ghost spells = { both A.spells B.spells };

    ghost fits = { BothFit A.fits B.fits };

    ghost is_format = { both_format A.reads B.reads A.spells B.spells A.fits B.fits A.is_format B.is_format };

    #[tactic(auto, unfolding(crate::specs::Reading::both_at))]
    fn read(alloc: Global, bytes: &[u8]) -> Result<((A, B), &[u8]), ReadFault> {
        let (one, rest) = A::read(alloc, bytes)?;
        let (other, rest) = B::read(alloc, rest)?;
        Ok(((one, other), rest))
    }

    fn put(&self, out: &mut Vec<u8>) -> Result<(), AllocError> {
        self.0.put(out)?;
        self.1.put(out)
    }
}

/// The values in a row after their count.
impl<T: Field> Field for Listed<T> {
    ghost reads = { counted_at T.reads };

    ghost spells = { counted T.spells };

    ghost fits = { CountFits T.fits };

    ghost is_format = { counted_format T.reads T.spells T.fits T.is_format };

    #[tactic(auto, unfolding(crate::specs::Reading::counted_at))]
    fn read(alloc: Global, bytes: &[u8]) -> Result<(Listed<T>, &[u8]), ReadFault> {
        let (count, rest) = read_number(bytes)?;
        let (values, rest) = read_times(alloc, count, rest)?;
        Ok((Listed::from_vec(values), rest))
    }

    fn put(&self, out: &mut Vec<u8>) -> Result<(), AllocError> {
        put_number(out, self.len() as u64)?;
        put_all(out, self.as_slice())
    }
}
