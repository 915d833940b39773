//! A call, as its line in a log describes it.

use crate::kind::Kind;
use crate::texts::{NOTHING, TextId};
use std::alloc::Global;

/// What ran in a call.
#[derive(Clone, Copy)]
pub struct Ran {
    /// Whether it was the compile, and not a preprocessor or a question to the compiler.
    pub is_compile: bool,
    pub start: u64,
    pub end: u64,
}

impl Ran {
    /// How many microseconds it took.
    pub fn time(&self) -> u64 {
        self.end.saturating_sub(self.start)
    }
}

/// A call. Moments are microseconds since 1970.
#[derive(Drop)]
pub struct Call {
    pub kind: Kind,
    /// The counter of what it came to.
    pub what: TextId,
    pub start: u64,
    pub end: u64,
    pub process: u64,
    pub parent: u64,
    pub status: u64,
    pub dir: TextId,
    pub compiler: TextId,
    pub words: Vec<TextId>,
    pub input: TextId,
    pub output: TextId,
    /// Why it was passed through, or has no manifest.
    pub reason: TextId,
    /// What differed, at a miss.
    pub why: TextId,
    pub bytes: u64,
    /// How long the last compile of its command line took; 0 where that isn't known.
    pub compile_time: u64,
    pub ran: Vec<Ran>,
    /// The lane in which it is shown.
    pub lane: u32,
}

impl Call {
    /// One of which no more is known than what it came to, and when it began and ended.
    pub(crate) fn new(alloc: Global, kind: Kind, what: TextId, start: u64, end: u64) -> Call {
        Call {
            kind,
            what,
            start,
            end: end.max(start),
            process: 0,
            parent: 0,
            status: 0,
            dir: NOTHING,
            compiler: NOTHING,
            words: Vec::new(alloc),
            input: NOTHING,
            output: NOTHING,
            reason: NOTHING,
            why: NOTHING,
            bytes: 0,
            compile_time: 0,
            ran: Vec::new(alloc),
            lane: 0,
        }
    }

    /// How many microseconds it took.
    pub fn time(&self) -> u64 {
        self.end.saturating_sub(self.start)
    }

    /// How many of these the compile took, or what else ran.
    pub fn time_of(&self, is_compile: bool) -> u64 {
        let mut time = 0u64;
        for ran in self.ran.as_slice() {
            if ran.is_compile == is_compile {
                time = time.saturating_add(ran.time());
            }
        }
        time
    }

    /// How many were saved: at a hit those of the compile, as far as the call took less.
    pub fn saved(&self) -> u64 {
        match self.kind.is_hit() {
            true => self.compile_time.saturating_sub(self.time()),
            false => 0,
        }
    }
}
