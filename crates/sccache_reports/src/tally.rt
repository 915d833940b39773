//! The rows of a summary as text.

use crate::texts::push_line;
use sccache_recorded_builds::Row;
use std::alloc::{AllocError, Global};
use std::fmt::Write;

/// How many numbers are shown of a name.
const SHOWN: usize = 5;

/// Adds a heading and a line for each row, and nothing where there is none.
pub(crate) fn write_rows(
    alloc: Global,
    text: &mut String,
    heading: &str,
    rows: &[Row],
) -> Result<(), AllocError> {
    if rows.is_empty() {
        return Ok(());
    }
    let mut all = 0u64;
    for row in rows {
        all = all.saturating_add(row.1.len() as u64);
    }
    write!(text, "{heading} {all}\n")?;
    for row in rows {
        let line = row_line(alloc, row.0.as_str(), row.1.as_slice())?;
        push_line(text, line.as_str())?;
    }
    Ok(())
}

/// The line of a name: how many entries have it, and the numbers of the first of these.
fn row_line(alloc: Global, name: &str, numbers: &[u64]) -> Result<String, AllocError> {
    let count = numbers.len();
    let mut line = format!(in alloc; "  {count} {name}:")?;
    for number in numbers.get(..SHOWN).unwrap_or(numbers) {
        write!(line, " {number}")?;
    }
    if count > SHOWN {
        line.push_str(" ..")?;
    }
    Ok(line)
}
