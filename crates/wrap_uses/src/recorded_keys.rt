//! Keys of rustc's requests that were recorded, and the pieces that they are of.

ghost use Rattle.std.specs.Prelude.{IfOk};
ghost use Rattle.wrap_uses.specs.RecordedKeys.{IsReadAs};

use base_files::OsBytes;
use rustc_parts::parts::{Parts, RShape};
use rustc_parts::read_key_bytes;
use std::alloc::{AllocError, Global};

/// A key as it was recorded: the bytes that were hashed, and what they don't determine.
#[derive(Debug, Drop, PartialEq, Eq)]
pub struct RecordedKey {
    pub bytes: OsBytes,
    pub shape: RShape,
}

/// The pieces that have the bytes and the shape of this key: one can have them, and where none has, the record is of no request.
pub fn pieces_of_key(alloc: Global, key: &RecordedKey) -> Result<Option<Parts>, AllocError>
    ensures { IfOk result (IsReadAs key.now) }
{
    read_key_bytes(alloc, key.bytes.as_bytes(), &key.shape)
}
