//! Rows of a name and a value, as the value of the variable that the session hashes for a user's own value, and in which row two such values
//! differ first.

use crate::fields::Fields;
use crate::host_error::HostError;
use base_files::{Listed, OsBytes};
use base_formats::{put_framed, put_number};
use std::alloc::Global;

/// The variable that the session hashes for a user's own value.
pub const ADDITIONS_VARIABLE: &str = "SCCACHE_C_CUSTOM_CACHE_BUSTER";

/// A name and a value.
type Row = (OsBytes, OsBytes);

/// Rows of a name and a value.
#[derive(Drop)]
pub struct Additions {
    rows: Listed<Row>,
}

impl Additions {
    /// No rows.
    pub fn new(alloc: Global) -> Additions {
        Additions {
            rows: Listed::new(alloc),
        }
    }

    /// Adds a row.
    pub fn add(&mut self, alloc: Global, name: &str, value: &[u8]) -> Result<(), HostError> {
        let name = OsBytes::from_slice(alloc, name.as_bytes())?;
        self.rows.push((name, OsBytes::from_slice(alloc, value)?))?;
        Ok(())
    }

    /// Adds a row, where the value isn't empty.
    pub fn add_if_any(&mut self, alloc: Global, name: &str, value: &[u8]) -> Result<(), HostError> {
        if value.is_empty() {
            return Ok(());
        }
        self.add(alloc, name, value)
    }

    /// The rows once more.
    pub fn again(&self, alloc: Global) -> Result<Listed<Row>, HostError> {
        let mut again = Listed::new(alloc);
        for (name, value) in self.rows.as_slice() {
            again.push((name.clone()?, value.clone()?))?;
        }
        Ok(again)
    }

    /// The variable, with the rows as its value: their count, and for each its name and its value, both preceded by their lengths.
    pub fn variable(&self, alloc: Global) -> Result<Row, HostError> {
        let mut value = Vec::new(alloc);
        put_number(&mut value, self.rows.as_slice().len() as u64)?;
        for (name, bytes) in self.rows.as_slice() {
            put_framed(&mut value, name.as_bytes())?;
            put_framed(&mut value, bytes.as_bytes())?;
        }
        let name = OsBytes::from_slice(alloc, ADDITIONS_VARIABLE.as_bytes())?;
        Ok((name, OsBytes::from_vec(value)))
    }
}

/// The value of the variable among these.
fn value_in(variables: &[Row]) -> Option<&OsBytes> {
    let variable = variables.iter().find(|variable| variable.0.as_bytes()
        == ADDITIONS_VARIABLE.as_bytes())?;
    Some(&variable.1)
}

/// The rows that are the value of the variable among these; none where it isn't one of rows.
fn rows_in(alloc: Global, variables: &[Row]) -> Result<Listed<Row>, HostError> {
    let Some(value) = value_in(variables) else {
        return Ok(Listed::new(alloc));
    };
    match Fields::of(value.as_bytes()).pairs(alloc) {
        Err(HostError::Memory) => Err(HostError::Memory),
        Err(_) => Ok(Listed::new(alloc)),
        Ok(rows) => Ok(rows),
    }
}

/// Whether one of the rows has that name.
fn has_name(rows: &[Row], name: &OsBytes) -> bool {
    rows.iter().any(|row| row.0 == *name)
}

/// A name, and what each of two lists has for it.
fn both_values(
    alloc: Global,
    name: &OsBytes,
    here: &str,
    there: &str,
) -> Result<String, HostError> {
    Ok(format!(in alloc; "{name}: {here}, earlier {there}")?)
}

/// What is said of the first rows that aren't the same in two lists.
fn row_difference(
    alloc: Global,
    here: Option<&Row>,
    there: Option<&Row>,
    earlier: &[Row],
) -> Result<Option<String>, HostError> {
    match (here, there) {
        (Some(one), Some(other)) if one.0 == other.0 => {
            let value = format!(in alloc; "{}", one.1)?;
            let other = format!(in alloc; "{}", other.1)?;
            Ok(Some(both_values(alloc, &one.0, value.as_str(), other.as_str())?))
        }
        (Some(one), None) => new_row(alloc, one),
        (Some(one), Some(_)) if !has_name(earlier, &one.0) => new_row(alloc, one),
        (_, Some(other)) => {
            let value = format!(in alloc; "{}", other.1)?;
            Ok(Some(both_values(alloc, &other.0, "none", value.as_str())?))
        }
        (None, None) => Ok(None),
    }
}

/// What is said of a row that wasn't there earlier.
fn new_row(alloc: Global, row: &Row) -> Result<Option<String>, HostError> {
    let value = format!(in alloc; "{}", row.1)?;
    Ok(Some(both_values(alloc, &row.0, value.as_str(), "none")?))
}

/// How many rows two lists begin with alike.
fn alike_ahead(one: &[Row], other: &[Row]) -> usize {
    for (at, row) in one.iter().enumerate() {
        match other.get(at) {
            Some(there) if *there == *row => {}
            _ => return at,
        }
    }
    one.len()
}

/// The first row in which the values of two lists of variables differ, as it is in each; nothing where there is none.
pub fn difference_of_additions(
    alloc: Global,
    variables: &[Row],
    earlier: &[Row],
) -> Result<Option<String>, HostError> {
    let one = rows_in(alloc, variables)?;
    let other = rows_in(alloc, earlier)?;
    let ahead = alike_ahead(one.as_slice(), other.as_slice());
    let here = one.as_slice().get(ahead);
    row_difference(alloc, here, other.as_slice().get(ahead), other.as_slice())
}
