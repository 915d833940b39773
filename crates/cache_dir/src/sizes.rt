//! How many bytes of the disk the files take whose names begin with the same two letters, in one file: 256 numbers of eight bytes, low
//! byte first.

ghost use Rattle.std.specs.Prelude.{◌≡◌, sum};
ghost use Rattle.cache_dir.specs.Together.{saturated};

use crate::error::CacheDirError;
use crate::listing::KeptFile;
use base_formats::{put_number, read_number};
use cache_disk::{give_rights, read_whole};
use std::alloc::Global;
use std::fs;
use std::fs::OpenOptions;
use std::io::{Seek, SeekFrom, Write};
use std::marker::Model;
use std::rt::Files;

/// How many pairs of letters there are.
const ROWS: usize = 256;

/// The bytes of the files of each row. Contracts see them in order.
#[derive(Drop)]
pub struct Sizes {
    numbers: Vec<u64>,
}

impl Model for Sizes {
    ghost use Rattle.std.specs.Prelude.{ℕ, List};

    ghost Value = { List ℕ };

    ghost view = { λ a. a.numbers.items };
}

/// Where the file is.
fn place_of(alloc: Global, path: &str) -> Result<String, CacheDirError> {
    Ok(format!(in alloc; "{path}/sizes")?)
}

/// The numbers that these bytes are.
fn numbers_of(alloc: Global, bytes: &[u8]) -> Result<Vec<u64>, CacheDirError> {
    let mut numbers = Vec::new(alloc);
    let mut rest = bytes;
    for _ in 0..ROWS {
        let (number, after) = read_number(rest)?;
        numbers.push(number)?;
        rest = after;
    }
    Ok(numbers)
}

/// These numbers together, or the largest number that there is.
fn sum_of(numbers: &[u64]) -> u64
    ensures { result ≡ saturated (sum numbers.now) }
{
    let mut total = 0u64;
    for number in numbers {
        total = total.saturating_add(*number);
    }
    total
}

impl Sizes {
    /// Those of these files.
    pub fn of(alloc: Global, files: &[KeptFile]) -> Result<Sizes, CacheDirError> {
        let mut numbers = vec![in alloc; 0u64; ROWS]?;
        for file in files {
            if let Some(number) = numbers.get_mut(usize::from(file.row)) {
                *number = number.saturating_add(file.size);
            }
        }
        Ok(Sizes { numbers })
    }

    /// Those that were noted in the folder of this path.
    pub fn read<R: Files + AllocGlobal>(rt: &R, path: &str) -> Result<Sizes, CacheDirError> {
        let place = place_of(rt.alloc(), path)?;
        let bytes = read_whole(rt, place.as_str())?;
        let numbers = numbers_of(rt.alloc(), bytes.as_slice())?;
        Ok(Sizes { numbers })
    }

    /// Notes all of them, in a file that is made under this umask where it isn't there.
    pub fn write<R: Files + AllocGlobal>(
        &self,
        rt: &R,
        path: &str,
        umask: Option<u32>,
    ) -> Result<(), CacheDirError> {
        let mut bytes = Vec::new(rt.alloc());
        for number in self.numbers.as_slice() {
            put_number(&mut bytes, *number)?;
        }
        let place = place_of(rt.alloc(), path)?;
        let is_new = fs::metadata(rt, place.as_str()).is_err();
        fs::write(rt, place.as_str(), bytes.as_slice())?;
        if is_new {
            give_rights(rt, place.as_str(), umask)?;
        }
        Ok(())
    }

    /// Notes those of one row, and leaves the others to whoever notes them at the same time.
    pub fn note<R: Files + AllocGlobal>(
        &mut self,
        rt: &R,
        path: &str,
        row: u8,
        size: u64,
    ) -> Result<(), CacheDirError> {
        if let Some(number) = self.numbers.get_mut(usize::from(row)) {
            *number = size;
        }
        let place = place_of(rt.alloc(), path)?;
        let mut options = OpenOptions::new();
        options.write(true);
        let mut file = options.open(rt, place.as_str())?;
        file.seek(SeekFrom::Start(u64::from(row) * 8))?;
        Ok(file.write_all(&size.to_le_bytes())?)
    }

    /// The bytes of all of them, or the largest number that there is.
    pub fn total(&self) -> u64
        ensures { result ≡ saturated (sum self.now) }
    {
        sum_of(self.numbers.as_slice())
    }
}
