//! The time at which a text was printed, as `__TIME__` and `__DATE__` leave it there: what is made of the text is made later, and has
//! another time.

use memchr::memchr_iter;

/// The seconds of a day.
const DAY: u32 = 86400;

/// So many seconds a preprocessor and a compiler run at most, where it matters: a text with an older time isn't one of this call's.
const SPAN: u32 = 3600;

/// The number of two digits.
fn two_digits(tens: u8, ones: u8) -> Option<u8> {
    match (tens, ones) {
        (b'0'..=b'9', b'0'..=b'9') => Some((tens - b'0') * 10 + (ones - b'0')),
        _ => None,
    }
}

/// So many seconds.
fn seconds_of(hours: u8, minutes: u8, seconds: u8) -> u32 {
    u32::from(hours) * 3600 + u32::from(minutes) * 60 + u32::from(seconds)
}

/// The second of a day that a text begins with, followed by a quote.
fn second_in(text: &[u8]) -> Option<u32> {
    match text {
        [h, hours, b':', m, minutes, b':', s, seconds, b'"', ..] => {
            let hours = two_digits(*h, *hours)?;
            let minutes = two_digits(*m, *minutes)?;
            Some(seconds_of(hours, minutes, two_digits(*s, *seconds)?))
        }
        _ => None,
    }
}

/// Whether a text begins with a date followed by a quote.
fn is_date(text: &[u8]) -> bool {
    match text {
        [a, b, c, b' ', tens, ones, b' ', d, e, f, g, b'"', ..] => {
            a.is_ascii_uppercase()
                && [*b, *c].iter().all(|letter| letter.is_ascii_lowercase())
                && (*tens == b' ' || tens.is_ascii_digit())
                && [*ones, *d, *e, *f, *g]
                    .iter()
                    .all(|digit| digit.is_ascii_digit())
        }
        _ => false,
    }
}

/// The second of the day in a zone, where its rule is `UTC`, a sign and hours, minutes and seconds to the west.
fn second_of_day(moment: i64, zone: &str) -> Option<u32> {
    let (sign, hours, minutes, seconds) = match zone.as_bytes() {
        [
            b'U',
            b'T',
            b'C',
            sign,
            h,
            hours,
            b':',
            m,
            minutes,
            b':',
            s,
            seconds,
        ] => {
            let hours = two_digits(*h, *hours)?;
            (
                *sign,
                hours,
                two_digits(*m, *minutes)?,
                two_digits(*s, *seconds)?,
            )
        }
        _ => return None,
    };
    let off = i64::from(seconds_of(hours, minutes, seconds));
    let day = i64::from(DAY);
    let second = moment.rem_euclid(day);
    let local = if sign == b'-' {
        second + off
    } else {
        second + day * 5 - off
    };
    u32::try_from(local.rem_euclid(day)).ok()
}

/// Whether that second is one of those of a call that began at the other.
fn is_of_call(second: u32, begun: u32) -> bool {
    // A coarser clock may give a slightly earlier time.
    (second % DAY + DAY + 2 - begun % DAY) % DAY < SPAN
}

/// Whether the text has a time in quotes that is one of a call that began at that moment, or a date where the call began shortly before the
/// end of a day. Where the zone's rule isn't known each time is one.
pub fn tells_time(text: &[u8], moment: i64, zone: &str) -> bool {
    let begun = second_of_day(moment, zone);
    let is_late = match begun {
        Some(begun) => begun % DAY >= DAY - SPAN,
        None => true,
    };
    memchr_iter(b'"', text).any(|at| {
        let Some((_, after)) = text.split_at_checked(at.saturating_add(1)) else {
            return false;
        };
        let is_time = match (second_in(after), begun) {
            (Some(second), Some(begun)) => is_of_call(second, begun),
            (Some(_), None) => true,
            (None, _) => false,
        };
        is_time || is_late && is_date(after)
    })
}
