//! A log as it is read.

use crate::call::Call;
use crate::line::{LineFault, read_line};
use crate::texts::Texts;
use std::alloc::{AllocError, Global};

/// A log: its calls in the order in which they began.
#[derive(Drop)]
pub struct Log {
    pub texts: Texts,
    pub calls: Vec<Call>,
    /// How many lines are none of such a log.
    pub broken: u64,
}

impl Log {
    /// Takes a line in, unless it is empty.
    fn take_line(&mut self, alloc: Global, line: &[u8]) -> Result<(), AllocError> {
        if line.is_empty() {
            return Ok(());
        }
        match read_line(alloc, &mut self.texts, line) {
            Ok(call) => Ok(self.calls.push(call)?),
            Err(LineFault::Broken) => {
                self.broken = self.broken.saturating_add(1);
                Ok(())
            }
            Err(LineFault::Memory) => Err(AllocError),
        }
    }
}

/// Reads a log, line by line. A broken line is counted, and the end of nothing.
pub fn read_log(alloc: Global, bytes: &[u8]) -> Result<Log, AllocError> {
    let mut log = Log {
        texts: Texts::new(alloc)?,
        calls: Vec::new(alloc),
        broken: 0,
    };
    for line in bytes.split(|byte| *byte == b'\n') {
        log.take_line(alloc, line)?;
    }
    log.calls.sort_by_key(|call| call.start)?;
    Ok(log)
}
