//! A writer that has little room.

use std::alloc::Global;
use std::io;
use std::io::Write;

/// Takes two bytes a write at most, until it holds so many.
#[derive(Drop)]
pub struct NarrowWriter {
    pub held: Vec<u8>,
    pub room: usize,
}

impl NarrowWriter {
    /// One that holds nothing and has this room. It takes no memory.
    pub fn new(alloc: Global, room: usize) -> NarrowWriter {
        NarrowWriter {
            held: Vec::new(alloc),
            room,
        }
    }
}

impl Write for NarrowWriter {
    fn write(&mut self, buf: &[u8]) -> io::Result<usize> {
        if self.held.len() >= self.room {
            return Err(io::Error::from(io::ErrorKind::Other));
        }
        let count = buf.len().min(2);
        match self.held.extend_from_slice(&buf[..count]) {
            Ok(()) => Ok(count),
            Err(_) => Err(io::Error::from(io::ErrorKind::OutOfMemory)),
        }
    }

    fn flush(&mut self) -> io::Result<()> {
        Ok(())
    }
}
