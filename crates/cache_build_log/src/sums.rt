//! Sums over the calls of a build.

use crate::call::Call;
use crate::kind::Kind;

/// How many calls there are of a kind, and how long they took together.
#[derive(Clone, Copy, PartialEq, Eq)]
pub struct Share {
    pub count: u64,
    pub time: u64,
}

/// Sums over the calls of a build. Times are in microseconds.
#[derive(Clone, Copy)]
pub struct Sums {
    /// By kind, in the order of all kinds.
    shares: [Share; 6],
    pub calls: u64,
    pub begin: u64,
    pub end: u64,
    /// How long compilers and preprocessors ran, together.
    pub compilers: u64,
    pub preprocessors: u64,
    /// How much hits saved, and how many there are of which that isn't known.
    pub saved: u64,
    pub unknown: u64,
    pub bytes: u64,
    /// How long the longest miss took.
    pub longest: u64,
}

impl Sums {
    /// Those of no call.
    fn none() -> Sums {
        Sums {
            shares: [Share { count: 0, time: 0 }; 6],
            calls: 0,
            begin: u64::MAX,
            end: 0,
            compilers: 0,
            preprocessors: 0,
            saved: 0,
            unknown: 0,
            bytes: 0,
            longest: 0,
        }
    }

    /// Takes a call in. Other commands count for their time alone.
    fn add(&mut self, call: &Call) {
        self.begin = self.begin.min(call.start);
        self.end = self.end.max(call.end);
        if let Some(share) = self.shares.get_mut(call.kind.number() as usize) {
            share.count = share.count.saturating_add(1);
            share.time = share.time.saturating_add(call.time());
        }
        if call.kind == Kind::Other {
            return;
        }
        self.calls = self.calls.saturating_add(1);
        self.compilers = self.compilers.saturating_add(call.time_of(true));
        self.preprocessors = self.preprocessors.saturating_add(call.time_of(false));
        self.saved = self.saved.saturating_add(call.saved());
        self.bytes = self.bytes.saturating_add(call.bytes);
        if call.kind.is_hit() && call.compile_time == 0 {
            self.unknown = self.unknown.saturating_add(1);
        }
        if call.kind == Kind::Miss {
            self.longest = self.longest.max(call.time());
        }
    }

    /// Those of these calls.
    pub fn of(calls: &[Call]) -> Sums {
        let mut sums = Sums::none();
        for call in calls {
            sums.add(call);
        }
        sums.begin = sums.begin.min(sums.end);
        sums
    }

    /// How many calls there are of a kind, and how long they took together.
    pub fn share(&self, kind: Kind) -> Share {
        match self.shares.get(kind.number() as usize) {
            Some(share) => *share,
            None => Share { count: 0, time: 0 },
        }
    }

    /// How many hits there are.
    pub fn hits(&self) -> u64 {
        let direct = self.share(Kind::Direct).count;
        direct.saturating_add(self.share(Kind::ByText).count)
    }

    /// How long the build took.
    pub fn wall_time(&self) -> u64 {
        self.end.saturating_sub(self.begin)
    }
}
