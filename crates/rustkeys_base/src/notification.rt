//! rustc's notifications that it has written a file.

ghost use Rattle.std.specs.Prelude.{◌≡◌, false, Ok, IfOk};
ghost use Rattle.std.specs.Option.{option_map};
ghost use Rattle.serde_json.specs.Read.{read};
ghost use Rattle.serde_json.specs.View.{view, items_view, members_view};
ghost use Rattle.serde_json.specs.Written.{has_float, items_have_float, members_have_float};
ghost use Rattle.rustkeys_base.specs.Notification.{extension, holds, tells_of_metadata, is_rmeta_notification};

use memchr::memmem;
use serde_json::{Map, Value};
use std::alloc::{AllocError, Global};

/// Whether the text holds the extension of metadata.
fn holds_extension(text: &str) -> bool
    ensures { result ≡ holds extension text.now }
{
    memmem::find(text.as_bytes(), b".rmeta").is_some()
}

/// The JSON that the text is.
fn read(alloc: Global, text: &str) -> Result<Option<Value>, AllocError>
    ensures { IfOk result (λ value. option_map view value ≡ read text.now) }
{
    match Value::from_str(alloc, text) {
        Ok(value) => Ok(Some(value)),
        Err(error) => if error.is_memory() {
            Err(AllocError)
        } else {
            Ok(None)
        },
    }
}

/// Whether the value contains a number that isn't whole.
#[cycle(has_float)]
fn has_float(value: &Value) -> bool
    ensures { result ≡ has_float (view value.now) }
{
    match value {
        Value::Number(number) => number.is_f64(),
        Value::Array(items) => items_have_float(items),
        Value::Object(members) => members_have_float(members),
        Value::Null | Value::Bool(_) | Value::String(_) => false,
    }
}

#[cycle(has_float)]
fn items_have_float(items: &Vec<Value>) -> bool
    ensures { result ≡ items_have_float (items_view items.now.items) }
{
    for item in items {
        if has_float(item) {
            return true;
        }
    }
    false
}

#[cycle(has_float)]
fn members_have_float(members: &Map<String, Value>) -> bool
    ensures { result ≡ members_have_float (members_view members.now.entries) }
{
    for (_, member) in members.iter() {
        if has_float(member) {
            return true;
        }
    }
    false
}

/// Whether the value is an object of no number but whole ones, whose text member `artifact` ends with `.rmeta`.
fn tells_of_metadata(value: &Value) -> bool
    ensures { result ≡ tells_of_metadata (view value.now) }
{
    match value.get("artifact").and_then(Value::as_str) {
        Some(artifact) => artifact.as_bytes().ends_with(b".rmeta") && !has_float(value),
        None => false,
    }
}

/// Whether a line that rustc writes under `--json=artifacts` reports a file of metadata.
pub fn is_rmeta_artifact_notification(alloc: Global, line: &str) -> Result<bool, AllocError>
    ensures answer { IfOk result (λ answer. answer ≡ is_rmeta_notification line.now) }
    ensures quick { holds extension line.now ≡ false → result ≡ Ok false }
{
    if !holds_extension(line) {
        return Ok(false);
    }
    match read(alloc, line)? {
        Some(value) => Ok(tells_of_metadata(&value)),
        None => Ok(false),
    }
}
