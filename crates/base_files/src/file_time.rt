//! The timestamps that a device keeps of a file.

ghost use Rattle.std.specs.Prelude.{◌≡◌, ◌<◌, ◌↔◌, IsSome, IfSome};

/// Whole seconds since the start of 1970 in UTC, negative before it, and the nanoseconds past them, which never make up a second.
#[derive(Clone, Copy, Debug, PartialEq, Eq)]
pub struct FileTime {
    pub seconds: i64,
    pub nanoseconds: u32,
    pub ghost below_a_second: { nanoseconds < 1000000000 },
}

impl FileTime {
    /// This moment, and `None` where the nanoseconds make up a second or more.
    pub fn new(seconds: i64, nanoseconds: u32) -> Option<FileTime>
        ensures is_some { IsSome result ↔ (nanoseconds < 1000000000) }
        ensures value { IfSome result
            (λ time. (time.seconds ≡ seconds) × (time.nanoseconds ≡ nanoseconds)) }
    {
        if nanoseconds < 1_000_000_000 {
            Some(FileTime {
                seconds,
                nanoseconds,
            })
        } else {
            None
        }
    }

    /// The moment at the start of this second.
    pub fn from_seconds(seconds: i64) -> FileTime
        ensures seconds { result.seconds ≡ seconds }
        ensures start { result.nanoseconds ≡ 0 }
    {
        FileTime {
            seconds,
            nanoseconds: 0,
        }
    }
}
