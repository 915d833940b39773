//! The digest of all that a reader gives, and the macros of date and time in it.

ghost use Rattle.std.specs.Prelude.{◌≡◌, ◌<◌, ◌++◌, IfOk, IfErr, length, vec_len, string_bytes};
ghost use Rattle.base_files.specs.Bytes.{Bytes};
ghost use Rattle.ckeys_base.specs.Errors.{IsIoError};
ghost use Rattle.ckeys_base.specs.Feeding.{WasAll};
ghost use Rattle.ckeys_base.specs.Hex.{hex_of};
ghost use Rattle.ckeys_time_macros.specs.Seen.{HasSeen};

use crate::time_macro_finder::TimeMacroFinder;
use ckeys_base::error::Error;
use ckeys_base::{Digest, HASH_BUFFER_SIZE, HashState};
use std::alloc::{AllocError, Global};
use std::io::Read;

/// So many zeros.
fn zeros(alloc: Global, count: usize) -> Result<Vec<u8>, AllocError>
    ensures { IfOk result (λ room. vec_len room ≡ count) }
{
    vec![in alloc; 0u8; count]
}

/// The digest of all that a reader gives, as text, and a finder that was shown all of it. The reader is read once, by
/// pieces of at most `HASH_BUFFER_SIZE` bytes.
///
/// `Io` where a read fails, or where 2 ^ 64 reads don't come to the end.
pub fn reader_sync_time_macros<H: HashState, R: Read + Drop>(
    alloc: Global,
    mut reader: R,
) -> Result<(String, TimeMacroFinder), Error>
    ensures told { IfOk result (λ found. (bytes : Bytes) × WasAll (R.remaining reader) bytes
        × (string_bytes found.0 ≡ hex_of (H.digest_of bytes))
        × HasSeen found.1 bytes) }
    ensures cause { IfErr result (λ e. IsIoError e) }
{
    let mut finder = TimeMacroFinder::new();
    let mut room = zeros(alloc, HASH_BUFFER_SIZE)?;
    let text = read_and_find::<H, R>(alloc, room.as_mut_slice(), &mut reader, &mut finder)?;
    Ok((text, finder))
}

/// The same, read by way of this room and shown to this finder.
fn read_and_find<H: HashState, R: Read>(
    alloc: Global,
    room: &mut [u8],
    reader: &mut R,
    finder: &mut TimeMacroFinder,
) -> Result<String, Error>
    requires { 0 < length room.old }
    ensures told { IfOk result (λ text. (bytes : Bytes) × WasAll (R.remaining reader.old) bytes
        × (string_bytes text ≡ hex_of (H.digest_of bytes))
        × ((before : Bytes) → HasSeen finder.old before → HasSeen finder.new (before ++ bytes))) }
    ensures cause { IfErr result (λ e. IsIoError e) }
{
    let mut digest: Digest<H> = Digest::new();
    'pieces: for _ in 0..u64::MAX {
        let count = reader.read(room)?;
        if count == 0 {
            return Ok(digest.finish(alloc)?);
        }
        let piece = &room[..count];
        digest.update(piece);
        finder.find_time_macros(piece);
    }
    Err(Error::Io)
}
