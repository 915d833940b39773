//! Finds the macros of date and time in bytes that come in pieces.

ghost use Rattle.std.specs.Prelude.{◌≡◌, ◌≤◌, ◌||◌, [], ◌++◌, length, take};
ghost use Rattle.base_files.specs.Bytes.{Bytes};
ghost use Rattle.ckeys_time_macros.specs.Macros.{holds, holds_date, holds_time, holds_time_macros, holds_timestamp};
ghost use Rattle.ckeys_time_macros.specs.Seen.{end_of, HasSeen};

use crate::holds::holds;
use arrayvec::ArrayVec;

/// How many bytes are kept: of a macro that ends in the next piece, all but its last byte may have come, and the longest
/// has thirteen.
const TAIL_LEN: usize = 12;

/// Finds `__DATE__`, `__TIME__` and `__TIMESTAMP__` in bytes that come in pieces. It keeps at most twelve of the bytes,
/// and takes no memory.
#[derive(Drop)]
pub struct TimeMacroFinder {
    tail: ArrayVec<u8, TAIL_LEN>,
    date: bool,
    time: bool,
    timestamp: bool,
}

/// The end of what was shown, and the front of the next piece.
fn seam_of(tail: &[u8], piece: &[u8]) -> ArrayVec<u8, 24>
    requires { length tail.now ≤ 12 }
    ensures { result.items ≡ tail.now ++ take 12 piece.now }
{
    let front = &piece[..piece.len().min(TAIL_LEN)];
    let mut seam = ArrayVec::new();
    seam.try_extend_from_slice(tail).unwrap();
    seam.try_extend_from_slice(front).unwrap();
    seam
}

/// The end of what was shown, with the next piece.
fn tail_of(tail: &[u8], piece: &[u8]) -> ArrayVec<u8, TAIL_LEN>
    requires { length tail.now ≤ 12 }
    ensures { result.items ≡ end_of (tail.now ++ piece.now) }
{
    let mut end = ArrayVec::new();
    if piece.len() >= TAIL_LEN {
        end.try_extend_from_slice(&piece[piece.len() - TAIL_LEN..])
            .unwrap();
    } else {
        let from = (tail.len() + piece.len()).saturating_sub(TAIL_LEN);
        end.try_extend_from_slice(&tail[from..]).unwrap();
        end.try_extend_from_slice(piece).unwrap();
    }
    end
}

/// Whether the word occurs in what was shown before, across the seam, or in the piece. What was found before isn't
/// searched again.
fn is_found(before: bool, seam: &[u8], piece: &[u8], word: &[u8]) -> bool
    ensures { result ≡ (before || (holds seam.now word.now || holds piece.now word.now)) }
{
    before || holds(seam, word) || holds(piece, word)
}

impl TimeMacroFinder {
    /// A finder that was shown nothing.
    pub fn new() -> Self
        ensures { HasSeen result [] }
    {
        TimeMacroFinder {
            tail: ArrayVec::new(),
            date: false,
            time: false,
            timestamp: false,
        }
    }

    /// Looks at the next piece, after the bytes that it was shown. A macro may begin in one piece and end in another.
    pub fn find_time_macros(&mut self, piece: &[u8])
        ensures { (bytes : Bytes) → HasSeen self.old bytes → HasSeen self.new (bytes ++ piece.now) }
    {
        let seam = seam_of(self.tail.as_slice(), piece);
        self.date = is_found(self.date, seam.as_slice(), piece, b"__DATE__");
        self.time = is_found(self.time, seam.as_slice(), piece, b"__TIME__");
        self.timestamp = is_found(self.timestamp, seam.as_slice(), piece, b"__TIMESTAMP__");
        self.tail = tail_of(self.tail.as_slice(), piece);
    }

    /// Whether `__DATE__` occurs in the bytes that it was shown.
    pub fn found_date(&self) -> bool
        ensures { (bytes : Bytes) → HasSeen self.now bytes → result ≡ holds_date bytes }
    {
        self.date
    }

    /// Whether `__TIME__` occurs in the bytes that it was shown.
    pub fn found_time(&self) -> bool
        ensures { (bytes : Bytes) → HasSeen self.now bytes → result ≡ holds_time bytes }
    {
        self.time
    }

    /// Whether `__TIMESTAMP__` occurs in the bytes that it was shown.
    pub fn found_timestamp(&self) -> bool
        ensures { (bytes : Bytes) → HasSeen self.now bytes → result ≡ holds_timestamp bytes }
    {
        self.timestamp
    }

    /// Whether one of the three occurs in the bytes that it was shown.
    pub fn found_time_macros(&self) -> bool
        ensures { (bytes : Bytes) → HasSeen self.now bytes → result ≡ holds_time_macros bytes }
    {
        self.date || self.time || self.timestamp
    }
}
