//! The day of a moment in a zone.

ghost use Rattle.std.specs.Prelude.{◌≡◌};
ghost use Rattle.ckeys_time_macros.specs.Days.{local_day};

use crate::zone::Zone;
use jiff::Timestamp;
use jiff::tz::TimeZone;

/// The day that a clock in the zone shows at a moment, counted in days from 1970-01-01. The moment is in seconds since
/// the start of 1970 in UTC. `None` exactly where it lies outside the calendar, whose years are -9999 to 9999.
///
/// It takes no memory.
pub fn local_day(moment: i64, zone: &Zone) -> Option<i32>
    ensures { result ≡ local_day zone.now moment }
{
    let Ok(instant) = Timestamp::from_second(moment) else {
        return None;
    };
    let zone = TimeZone::from_plain(jiff_tz::TimeZone::Posix(zone.rule()));
    let shown = zone.to_datetime(instant);
    Some(shown.date().to_plain().to_unix_epoch_day())
}
