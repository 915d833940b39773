//! Rows that are bound to keys: their layout, and where two lists of them differ.

use crate::rows::{Question, Row, are_answered, cut};
use base_files::OsBytes;
use cache_host::{ADDITIONS_VARIABLE, Additions, HostError, difference_of_additions};
use std::alloc::Global;
use std::test::Fail;
use tests_kit::holds;

/// The bytes of two rows, `a` with `1` and `b` with nothing.
const ROWS: [u8; 43] = [
    2, 0, 0, 0, 0, 0, 0, 0, 1, 0, 0, 0, 0, 0, 0, 0, b'a', 1, 0, 0, 0, 0, 0, 0, 0, b'1', 1, 0, 0, 0,
    0, 0, 0, 0, b'b', 0, 0, 0, 0, 0, 0, 0, 0,
];

/// The variable of rows as `NAME=VALUE`, with spaces between.
fn variable_of(alloc: Global, rows: &str) -> Result<(OsBytes, OsBytes), HostError> {
    let mut additions = Additions::new(alloc);
    for row in rows.split_whitespace() {
        let (name, value) = cut(row, "=");
        additions.add(alloc, name, value.as_bytes())?;
    }
    additions.variable(alloc)
}

#[test]
fn rows_have_a_layout(rt: HostRuntime) -> Result<(), Fail> {
    let Ok((name, value)) = variable_of(rt.alloc(), "a=1 b=") else {
        return Err("no variable".into());
    };
    let is_named = name.as_bytes() == ADDITIONS_VARIABLE.as_bytes();
    let has_layout = value.as_bytes() == ROWS.as_slice();
    drop(name);
    drop(value);
    holds(is_named, "the variable's name")?;
    holds(has_layout, "the layout of rows")
}

/// A list of the variable of rows alone.
fn variables_of(alloc: Global, rows: &str) -> Result<Vec<(OsBytes, OsBytes)>, HostError> {
    let mut variables = Vec::new(alloc);
    variables.push(variable_of(alloc, rows)?)?;
    Ok(variables)
}

/// The first row in which these rows differ from the earlier ones, as text.
fn difference_of(alloc: Global, rows: &str, earlier: &str) -> Result<Option<String>, HostError> {
    let here = variables_of(alloc, rows)?;
    let there = variables_of(alloc, earlier)?;
    difference_of_additions(alloc, here.as_slice(), there.as_slice())
}

/// Rows, earlier ones, and what is said of them.
const DIFFERENCES: &str = r#"
 =>
a=1 | a=1 =>
a=2 | a=1 => a: 2, earlier 1
a=1 b=2 | a=1 => b: 2, earlier none
a=1 | a=1 b=2 => b: none, earlier 2
b=2 | a=1 b=2 => a: none, earlier 1
"#;

/// Where rows differ from earlier ones.
struct Difference;

impl Question for Difference {
    fn answer(&self, rt: &HostRuntime, row: &Row<'_>) -> Result<String, Fail> {
        match difference_of(rt.alloc(), row.first, row.second) {
            Ok(Some(text)) => Ok(text),
            Ok(None) => Ok(String::new(rt.alloc())),
            Err(_) => Err("rows that can't be compared".into()),
        }
    }
}

#[test]
fn rows_differ(rt: HostRuntime) -> Result<(), Fail> {
    are_answered(&rt, DIFFERENCES, &Difference)
}
