//! Logs of calls: a line each.

use cache_host::{CommandLine, HostError};
use std::fs::{File, OpenOptions};
use std::io::Write;
use std::rt::Files;

/// Appends a line to a log, which is made where it isn't there: the second in which the call began, what it came to, the command, and a
/// remark in brackets, where there is one.
pub fn log<R: Files<File = File> + AllocGlobal>(
    rt: &R,
    line: &CommandLine,
    place: &str,
    what: &str,
    remark: &str,
) -> Result<(), HostError> {
    let second = line.second();
    let executable = line.executable.as_str();
    let mut text = format!(in rt.alloc(); "{second} {what}: {executable}")?;
    for word in line.words.as_slice() {
        write!(text, " {word}")?;
    }
    if !remark.is_empty() {
        write!(text, " ({remark})")?;
    }
    text.push('\n')?;
    let mut options = OpenOptions::new();
    options.append(true).create(true);
    let mut file = options.open(rt, place)?;
    Ok(file.write_all(text.as_bytes())?)
}
