//! A record of the file: a number, the length of a name, the name, and zeros that fill it up to 64 bytes.

use base_formats::{put_framed, put_number, read_framed, read_number};
use std::alloc::AllocError;

/// How many bytes a record has.
pub const SIZE: usize = 64;

/// How many bytes of a name fit in a record; the rest is left out.
pub const LONGEST: usize = 48;

/// Adds the record of this name and number.
pub fn put_record(bytes: &mut Vec<u8>, name: &[u8], number: u64) -> Result<(), AllocError> {
    let name = &name[..name.len().min(LONGEST)];
    put_number(bytes, number)?;
    put_framed(bytes, name)?;
    let zeros = [0u8; LONGEST];
    bytes.extend_from_slice(&zeros[name.len()..])
}

/// The name and the number of a record; nothing where it is none.
pub fn read_record(record: &[u8]) -> Option<(&[u8], u64)> {
    let (number, rest) = read_number(record).ok()?;
    let (name, _) = read_framed(rest).ok()?;
    Some((name, number))
}
