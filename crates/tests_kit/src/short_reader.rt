//! A reader that fails.

use std::io;
use std::io::Read;

/// Gives so many bytes, one a read, each the number of those that are left, and then fails.
#[derive(Drop)]
pub struct ShortReader {
    pub left: u8,
}

impl Read for ShortReader {
    fn read(&mut self, buf: &mut [u8]) -> io::Result<usize> {
        if self.left == 0 {
            return Err(io::Error::from(io::ErrorKind::Other));
        }
        if let [byte, ..] = buf {
            *byte = self.left;
            self.left -= 1;
            return Ok(1);
        }
        Ok(0)
    }
}
