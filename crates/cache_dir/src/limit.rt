//! How much may be kept.

ghost use Rattle.std.specs.Prelude.{◌≡◌, ◌-◌, ◌/◌};

/// How many bytes stay where the limit is passed: nine tenths of it, so that it isn't passed again soon.
pub fn room_within(limit: u64) -> u64
    ensures { result ≡ limit - limit / 10 }
{
    limit - limit / 10
}

/// Whether an entry of so many bytes is kept under that limit; 0 is none. One that is larger than what stays would have all others go.
pub fn takes(limit: u64, size: u64) -> bool {
    limit == 0 || size <= room_within(limit)
}
