//! The members of a line that are known before its call has ended.

use crate::facts::CallFacts;
use crate::named::named_files;
use base_files::OsBytes;
use cache_build_log::{push_bytes, push_name, push_text};
use cache_host::CommandLine;
use std::alloc::{AllocError, Global};

/// Writes a list of byte texts.
fn push_list(json: &mut String, words: &[OsBytes]) -> Result<(), AllocError> {
    let mut mark = "[";
    for word in words {
        json.push_str(mark)?;
        push_bytes(json, word.as_bytes())?;
        mark = ",";
    }
    json.push_str(if words.is_empty() { "[]" } else { "]" })
}

/// Writes a member that is a byte text, where it is there.
fn push_path(json: &mut String, name: &str, path: Option<&[u8]>) -> Result<(), AllocError> {
    let Some(path) = path else {
        return Ok(());
    };
    push_name(json, name)?;
    push_bytes(json, path)
}

/// Writes a member that is a text, unless it is empty.
fn push_said(json: &mut String, name: &str, text: &str) -> Result<(), AllocError> {
    if text.is_empty() {
        return Ok(());
    }
    push_name(json, name)?;
    push_text(json, text)
}

/// The front of the line of a call: what it came to, its command, and why. The host closes the object.
pub fn front(
    alloc: Global,
    line: &CommandLine,
    what: &str,
    reason: &str,
    facts: &CallFacts,
) -> Result<String, AllocError> {
    let mut json = String::from_str(alloc, "{\"v\":1")?;
    push_said(&mut json, "what", what)?;
    push_path(&mut json, "dir", Some(line.dir.as_bytes()))?;
    push_said(&mut json, "compiler", line.executable.as_str())?;
    push_name(&mut json, "words")?;
    push_list(&mut json, line.words.as_slice())?;
    let named = named_files(line.words.as_slice());
    push_path(&mut json, "input", named.input)?;
    push_path(&mut json, "output", named.output)?;
    push_said(&mut json, "reason", reason)?;
    push_said(&mut json, "why", facts.why.as_deref().unwrap_or(""))?;
    let bytes = facts.bytes;
    let time = facts.compile_time;
    write!(json, ",\"bytes\":{bytes},\"compile_time\":{time}")?;
    Ok(json)
}
