//! Digests of byte strings that come in pieces, from a reader, or from files.

ghost use Rattle.std.specs.Prelude.{◌≡◌, ℕ, ◌*◌, ◌<◌, List, [], ◌++◌, IfOk, IfErr, IsErrOf, length, map, vec_len, string_bytes};
ghost use Rattle.std.specs.Option.{option_map};
ghost use Rattle.std.specs.List.{Contains};
ghost use Rattle.base_files.specs.Bytes.{Bytes, ticked};
ghost use Rattle.base_files.specs.Views.{FilesFail};
ghost use Rattle.ckeys_base.specs.Errors.{IsIoError};
ghost use Rattle.ckeys_base.specs.Hex.{hex_of};
ghost use Rattle.ckeys_base.specs.Feeding.{delimiter_of, IsReadAndShown, WasAll};
ghost use Rattle.ckeys_base.specs.FileDigests.{file_digest, file_digests};

use crate::error::Error;
use crate::hash_state::HashState;
use crate::hexadecimal::hex;
use base_files::{FileFail, Files, OsBytes};
use std::alloc::{AllocError, Global};
use std::io::Read;
use std::marker::Model;

/// How many bytes a read of a reader asks for.
pub const HASH_BUFFER_SIZE: usize = 131072;

/// It is 128 KiB.
pub fn hash_buffer_size() -> usize
    ensures { result ≡ 131072 }
{
    HASH_BUFFER_SIZE
}

/// A digest in the making. Contracts see the state of its hash function.
#[derive(Drop)]
pub struct Digest<H: HashState> {
    state: H,
}

impl<H: HashState> Model for Digest<H> {
    ghost Value = { H };

    ghost view = { λ a. a.state };
}

impl<H: HashState> Digest<H> {
    /// A digest of nothing so far.
    pub fn new() -> Self
        ensures { H.holds result [] }
    {
        Digest { state: H::new() }
    }

    /// Takes more bytes, after those that it holds. It takes no memory.
    pub fn update(&mut self, bytes: &[u8])
        ensures { (held : Bytes) → H.holds self.old held → H.holds self.new (held ++ bytes.now) }
    {
        self.state.feed(bytes);
    }

    /// Takes the delimiter of a name: a zero byte, `SCCACHE`, a zero byte, the name, a zero byte. It takes no memory.
    pub fn delimiter(&mut self, name: &[u8])
        ensures { (held : Bytes) → H.holds self.old held
            → H.holds self.new (held ++ delimiter_of name.now) }
    {
        self.update(b"\0SCCACHE\0");
        self.update(name);
        self.update(b"\0");
    }

    /// The digest of what it holds, as hexadecimal text of two digits a byte.
    pub fn finish(self, alloc: Global) -> Result<String, AllocError>
        ensures value { IfOk result (λ text. (held : Bytes) → H.holds self held
            → string_bytes text ≡ hex_of (H.digest_of held)) }
        ensures length { IfOk result (λ text. length (string_bytes text) ≡ 2 * H.LEN) }
    {
        let bytes = self.state.digest(alloc)?;
        hex(alloc, &bytes)
    }

    /// The digest of these bytes, as text.
    fn of(alloc: Global, bytes: &[u8]) -> Result<String, AllocError>
        ensures { IfOk result (λ text. string_bytes text ≡ hex_of (H.digest_of bytes.now)) }
    {
        let mut digest: Digest<H> = Digest::new();
        digest.update(bytes);
        digest.finish(alloc)
    }
}

/// So many zeros.
fn zeros(alloc: Global, count: usize) -> Result<Vec<u8>, AllocError>
    ensures { IfOk result (λ room. vec_len room ≡ count) }
{
    vec![in alloc; 0u8; count]
}

impl<H: HashState> Digest<H> {
    /// The digest of all that a reader gives, read by way of this room.
    fn read_pieces<R: Read, F: FnMut(&[u8]) + Drop>(
        alloc: Global,
        room: &mut [u8],
        reader: &mut R,
        mut each: F,
    ) -> Result<String, Error>
        requires some_room { 0 < length room.old }
        requires callable { F.IsAlwaysCallable each }
        ensures shown { IfOk result (λ text.
            IsReadAndShown F.FnMut each (R.remaining reader.old) H.digest_of (string_bytes text)) }
        ensures cause { IfErr result (λ e. IsIoError e) }
    {
        let mut digest: Digest<H> = Digest::new();
        'pieces: for _ in 0..u64::MAX {
            let count = reader.read(room)?;
            if count == 0 {
                return Ok(digest.finish(alloc)?);
            }
            let piece = &room[..count];
            digest.update(piece);
            each(piece);
        }
        Err(Error::Io)
    }

    /// The digest of all that a reader gives, as text. Each piece is shown to the closure when it was read, in order.
    ///
    /// `Io` where a read fails.
    pub fn reader_sync_with<R: Read + Drop, F: FnMut(&[u8]) + Drop>(
        alloc: Global,
        mut reader: R,
        each: F,
    ) -> Result<String, Error>
        requires { F.IsAlwaysCallable each }
        ensures shown { IfOk result (λ text.
            IsReadAndShown F.FnMut each (R.remaining reader) H.digest_of (string_bytes text)) }
        ensures cause { IfErr result (λ e. IsIoError e) }
    {
        let mut room = zeros(alloc, HASH_BUFFER_SIZE)?;
        Digest::<H>::read_pieces(alloc, room.as_mut_slice(), &mut reader, each)
    }

    /// The digest of all that a reader gives, as text.
    ///
    /// `Io` where a read fails.
    pub fn reader_sync<R: Read + Drop>(alloc: Global, reader: R) -> Result<String, Error>
        ensures told { IfOk result (λ text. (bytes : Bytes) × WasAll (R.remaining reader) bytes
            × (string_bytes text ≡ hex_of (H.digest_of bytes))) }
        ensures cause { IfErr result (λ e. IsIoError e) }
    {
        Digest::<H>::reader_sync_with(alloc, reader, |_piece: &[u8]| {})
    }
}

impl<H: HashState> Digest<H> {
    /// The digest of the contents of a regular file, as text, and `None` where no regular file has that name.
    ///
    /// `Device` on an I/O error at the name.
    pub fn file<F: Files>(
        alloc: Global,
        path: &OsBytes,
        files: &mut F,
    ) -> Result<Option<String>, FileFail>
        ensures answer { IfOk result (λ found.
            option_map string_bytes found ≡ file_digest H.digest_of (F.tree files.old) path.now) }
        ensures tree { F.tree files.new ≡ F.tree files.old }
        ensures device { IsErrOf result FileFail.Device
            → (F.failed files.new ≡ ticked (F.failed files.old))
            × F.fails_on files.old path.now files.new }
        ensures steady { (IsErrOf result FileFail.Device → ⊥)
            → F.failed files.new ≡ F.failed files.old }
    {
        let Some(contents) = files.read(alloc, path)? else {
            return Ok(None);
        };
        Ok(Some(Digest::<H>::of(alloc, contents.as_bytes())?))
    }

    /// The digests of the contents of regular files, as text, in the order of their names, and `None` where one
    /// of the names is of no regular file.
    ///
    /// `Device` on an I/O error at one of the names.
    pub fn hash_all<F: Files>(
        alloc: Global,
        paths: &[OsBytes],
        files: &mut F,
    ) -> Result<Option<Vec<String>>, FileFail>
        ensures answer { IfOk result
            (λ found. option_map (λ digests. map string_bytes digests.items) found
            ≡ file_digests H.digest_of (F.tree files.old) paths.now) }
        ensures tree { F.tree files.new ≡ F.tree files.old }
        ensures device { IsErrOf result FileFail.Device → (name : Bytes) × Contains paths.now name
            × FilesFail F.Files files.old files.new name }
        ensures steady { (IsErrOf result FileFail.Device → ⊥)
            → F.failed files.new ≡ F.failed files.old }
    {
        let mut digests = Vec::with_capacity(alloc, paths.len())?;
        'paths: for path in paths {
            let Some(digest) = Digest::<H>::file(alloc, path, files)? else {
                return Ok(None);
            };
            digests.push(digest).map_err(AllocError::from)?;
        }
        Ok(Some(digests))
    }
}

/// The text of a digest has two digits for each of its bytes, and determines the digest.
pub fn texts_tell_digests<H: HashState>()
    ensures length { (bytes : Bytes) → length (hex_of (H.digest_of bytes)) ≡ 2 * H.LEN }
    ensures tells { (one other : Bytes) → hex_of (H.digest_of one) ≡ hex_of (H.digest_of other)
        → H.digest_of one ≡ H.digest_of other }
{}
