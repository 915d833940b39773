//! The days of zones, as numbers.

use ckeys_time_macros::{Zone, local_day};
use std::test::Fail;
use tests_kit::Checks;

/// Whether that day is shown at a moment where this is the rule of the zone.
fn is_shown(rule: &str, moment: i64, day: i32) -> bool {
    match Zone::new(rule) {
        Ok(zone) => match local_day(moment, &zone) {
            Some(shown) => shown == day,
            None => false,
        },
        Err(_) => false,
    }
}

/// The last second of a day and the first of the next, the days of 1970, and those at the ends of the calendar.
#[test]
fn days_are_counted_from_1970(rt: HostRuntime) -> Result<(), Fail> {
    let mut checks = Checks::new(rt.alloc());
    checks.holds(is_shown("EST5", 1_700_024_399, 19675), "an end");
    checks.holds(is_shown("EST5", 1_700_024_400, 19676), "a beginning");
    checks.holds(is_shown("UTC0", -1, -1), "before 1970");
    checks.holds(is_shown("UTC0", 0, 0), "1970");
    let last = is_shown("UTC0", 253_402_207_200, 2_932_895);
    checks.holds(last, "the last day");
    let first = is_shown("UTC0", -377_705_023_201, -4_371_586);
    checks.holds(first, "the first day");
    checks.end()
}
