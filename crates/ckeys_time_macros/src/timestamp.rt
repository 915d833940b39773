//! Moments, to the nanosecond.

ghost use Rattle.std.specs.Prelude.{◌≡◌, ◌<◌};

/// Whole seconds since the start of 1970 in UTC, negative before it, and the nanoseconds past them, which never make up a
/// second. Moments are ordered as they come.
#[derive(Clone, Copy, Debug, PartialEq, Eq, PartialOrd, Ord, Hash)]
pub struct Timestamp {
    pub seconds: i64,
    pub nanoseconds: u32,
    pub ghost below_a_second: { nanoseconds < 1000000000 },
}

impl Timestamp {
    /// This moment.
    pub fn new(seconds: i64, nanoseconds: u32) -> Self
        requires { nanoseconds < 1000000000 }
        ensures seconds { result.seconds ≡ seconds }
        ensures nanoseconds { result.nanoseconds ≡ nanoseconds }
    {
        Timestamp {
            seconds,
            nanoseconds,
        }
    }
}
