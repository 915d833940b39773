//! Paths as bytes in files and back.

ghost use Rattle.std.specs.Prelude.{◌≡◌, IfOk, OnOk};
ghost use Rattle.std.specs.Io.KnownBytes.{Appends};

use base_files::OsBytes;
use std::alloc::{AllocError, Global};
use std::io::{self, Write};

/// Writes the bytes of the path.
pub fn encode_path<W: Write>(writer: &mut W, path: &[u8]) -> io::Result<()>
    ensures { OnOk result (Appends (W.contents writer.old) (W.contents writer.new) path.now) }
{
    writer.write_all(path)
}

/// The path of these bytes.
pub fn decode_path(alloc: Global, bytes: &[u8]) -> Result<OsBytes, AllocError>
    ensures { IfOk result (λ path. path ≡ bytes.now) }
{
    OsBytes::from_slice(alloc, bytes)
}
