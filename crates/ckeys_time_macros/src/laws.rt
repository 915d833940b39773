//! Laws of moments and days.

ghost use Rattle.std.specs.Prelude.{◌≡◌, ◌↔◌, ◌++◌, ℤ, Some, true};
ghost use Rattle.std.specs.Ordering.{int_cmp};
ghost use Rattle.ckeys_time_macros.specs.Days.{IsDayOf, ZoneRule, local_day, shown};
ghost use Rattle.ckeys_time_macros.specs.Moments.{nanoseconds_of};
ghost use Rattle.ckeys_time_macros.specs.declared.timestamp.Timestamp.{Timestamp};

use crate::timestamp::Timestamp;
use std::hash::Hash;

/// Moments are ordered by their nanoseconds since 1970, and are equal exactly if their fields are. What is hashed of one is what is
/// hashed of its fields, in their order.
pub fn timestamps_are_their_nanoseconds()
    ensures ordered { (one other : Timestamp)
        → ⟦<Timestamp as Ord>⟧.cmp one other ≡ int_cmp (nanoseconds_of one) (nanoseconds_of other) }
    ensures equal { (one other : Timestamp)
        → (⟦<Timestamp as PartialEq>⟧.eq one other ≡ true) ↔ (one ≡ other) }
    ensures hashed { (moment : Timestamp) → ⟦<Timestamp as Hash>⟧.hash_input moment
        ≡ ⟦<i64 as Hash>⟧.hash_input moment.seconds ++ ⟦<u32 as Hash>⟧.hash_input moment.nanoseconds }
{}

/// The local day holds the second that a clock in the zone shows.
pub fn days_hold_their_seconds()
    ensures { (zone : ZoneRule) (moment day : ℤ) → local_day zone moment ≡ Some day
        → IsDayOf (shown zone moment) day }
{}
