//! Members of an object in JSON, each read as the type that it has to have.

use crate::scenario::ScenarioFault;
use serde_json::{Map, Value};
use std::alloc::Global;
use std::num::NonZeroUsize;

/// A member that has to be there.
pub(crate) fn required(member: Option<Value>) -> Result<Value, ScenarioFault> {
    member.ok_or(ScenarioFault::Unreadable)
}

pub(crate) fn into_list(value: Value) -> Result<Vec<Value>, ScenarioFault> {
    match value {
        Value::Array(items) => Ok(items),
        _ => Err(ScenarioFault::Unreadable),
    }
}

pub(crate) fn into_object(value: Value) -> Result<Map<String, Value>, ScenarioFault> {
    match value {
        Value::Object(members) => Ok(members),
        _ => Err(ScenarioFault::Unreadable),
    }
}

pub(crate) fn into_text(value: Value) -> Result<String, ScenarioFault> {
    match value {
        Value::String(text) => Ok(text),
        _ => Err(ScenarioFault::Unreadable),
    }
}

/// A text, and the default where the member isn't there.
pub(crate) fn read_text(
    alloc: Global,
    member: Option<Value>,
    default: &str,
) -> Result<String, ScenarioFault> {
    match member {
        Some(text) => into_text(text),
        None => Ok(String::from_str(alloc, default)?),
    }
}

/// A truth value, and false where the member isn't there.
pub(crate) fn read_truth(member: Option<Value>) -> Result<bool, ScenarioFault> {
    match member {
        Some(truth) => truth.as_bool().ok_or(ScenarioFault::Unreadable),
        None => Ok(false),
    }
}

/// A whole number of 64 bits with a sign, and the default where the member isn't there.
pub(crate) fn read_whole(member: Option<Value>, default: i64) -> Result<i64, ScenarioFault> {
    match member {
        Some(number) => number.as_i64().ok_or(ScenarioFault::Unreadable),
        None => Ok(default),
    }
}

/// A whole number of 64 bits without a sign, and none where the member isn't there.
pub(crate) fn read_limit(member: Option<Value>) -> Result<Option<u64>, ScenarioFault> {
    match member {
        Some(number) => Ok(Some(number.as_u64().ok_or(ScenarioFault::Unreadable)?)),
        None => Ok(None),
    }
}

/// A whole number of 64 bits without a sign, and none where it is 0 or the member isn't there.
pub(crate) fn read_capacity(member: Option<Value>) -> Result<Option<NonZeroUsize>, ScenarioFault> {
    match read_limit(member)? {
        Some(capacity) => Ok(NonZeroUsize::new(capacity as usize)),
        None => Ok(None),
    }
}
