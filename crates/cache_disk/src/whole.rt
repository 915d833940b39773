//! Files that are read whole, by their size: in one piece, where a reader that doesn't know it begins with a small one and doubles it.

ghost use Rattle.std.specs.Prelude.{◌≡◌, IfOk, IfSome, vec_len};

use std::alloc::Global;
use std::fs::OpenFile;
use std::io::Read;
use std::rt::Files;
use std::{fs, io};

/// All that a reader has, of which it should have that many bytes.
pub fn read_all<F: Read>(alloc: Global, reader: &mut F, size: u64) -> io::Result<Vec<u8>>
    ensures { IfOk result (λ bytes. IfSome (F.remaining reader.old) (λ left. bytes.items ≡ left)) }
{
    let size = usize::try_from(size).unwrap_or(0);
    let mut bytes = Vec::new(alloc);
    // Room for one byte more shows that there are no others.
    bytes.resize(size.saturating_add(1), 0)?;
    let count = reader.read(bytes.as_mut_slice()).unwrap_or(0);
    bytes.truncate(count);
    reader.read_to_end(&mut bytes)?;
    Ok(bytes)
}

/// The contents of the file of that path, which has that size, as far as is known.
pub fn read_of_size<R: Files + AllocGlobal>(rt: &R, path: &str, size: u64) -> io::Result<Vec<u8>> {
    let mut file = fs::open(rt, path)?;
    read_all(rt.alloc(), &mut file, size)
}

/// The contents of the file of that path.
pub fn read_whole<R: Files + AllocGlobal>(rt: &R, path: &str) -> io::Result<Vec<u8>> {
    let mut file = fs::open(rt, path)?;
    let size = file.metadata()?.len();
    read_all(rt.alloc(), &mut file, size)
}
