//! Times as people read them.

use crate::writer::Writer;

/// Writes a number of at least two digits.
pub fn push_two(text: &mut Writer, number: u64) {
    if number < 10 {
        text.push("0");
    }
    text.push_number(number);
}

/// Writes a time of a second or more: whole ones of its largest unit, and two digits of what is left.
fn push_long(text: &mut Writer, time: u64) {
    let seconds = time / 1_000_000;
    let minutes = seconds / 60;
    let (whole, between, rest, end) = match seconds {
        0..60 => (seconds, ".", time / 10_000 % 100, " s"),
        60..3600 => (minutes, " min ", seconds % 60, " s"),
        _ => (minutes / 60, " h ", minutes % 60, " min"),
    };
    text.push_number(whole);
    text.push(between);
    push_two(text, rest);
    text.push(end);
}

/// Writes a number and a unit.
fn push_unit(text: &mut Writer, number: u64, unit: &str) {
    text.push_number(number);
    text.push(unit);
}

/// Writes a time in microseconds.
pub fn push_time(text: &mut Writer, time: u64) {
    match time {
        0 => text.push("0 s"),
        1..1000 => push_unit(text, time, " µs"),
        1000..1_000_000 => push_unit(text, time / 1000, " ms"),
        _ => push_long(text, time),
    }
}

/// Writes which part of all it is, as `12.3 %`; nothing where there is nothing.
pub fn push_percent(text: &mut Writer, part: u64, all: u64) {
    if let Some(share) = part.saturating_mul(1000).checked_div(all) {
        text.push_number(share / 10);
        text.push(".");
        push_unit(text, share % 10, " %");
    }
}

/// The year, month and day of a day, counted from the first of March of the year 0.
fn date_of(day: u64) -> (u64, u64, u64) {
    let era = day / 146_097;
    let in_era = day % 146_097;
    let leaps = (in_era / 1460).saturating_add(in_era / 146_096);
    let years = in_era.saturating_add(in_era / 36_524).saturating_sub(leaps) / 365;
    let before = years
        .saturating_mul(365)
        .saturating_add(years / 4)
        .saturating_sub(years / 100);
    let in_year = in_era.saturating_sub(before);
    let march = in_year.saturating_mul(5).saturating_add(2) / 153;
    let first = march.saturating_mul(153).saturating_add(2) / 5;
    let date = in_year.saturating_sub(first).saturating_add(1);
    let year = era.saturating_mul(400).saturating_add(years);
    match march {
        0..10 => (year, march.saturating_add(3), date),
        _ => (year.saturating_add(1), march.saturating_sub(9), date),
    }
}

/// Writes a mark, and a number of at least two digits.
fn push_part(text: &mut Writer, mark: &str, number: u64) {
    text.push(mark);
    push_two(text, number);
}

/// Writes a moment in microseconds since 1970, as date and time of day in UTC.
pub fn push_moment(text: &mut Writer, moment: u64) {
    let seconds = moment / 1_000_000;
    let day = (seconds / 86_400).saturating_add(719_468);
    let (year, month, date) = date_of(day);
    text.push_number(year);
    push_part(text, "-", month);
    push_part(text, "-", date);
    push_part(text, " ", seconds / 3600 % 24);
    push_part(text, ":", seconds / 60 % 60);
    push_part(text, ":", seconds % 60);
}
