//! Byte strings in JSON: a text represents its UTF-8 bytes, and `{"hex": ".."}` any bytes.

use crate::members::{into_list, into_text};
use crate::scenario::ScenarioFault;
use base_files::{Listed, OsBytes};
use hex::FromHexError;
use serde_json::Value;
use std::alloc::Global;

impl From<FromHexError> for ScenarioFault {
    fn from(error: FromHexError) -> ScenarioFault {
        match error {
            FromHexError::OutOfMemory => ScenarioFault::Memory,
            _ => ScenarioFault::Unreadable,
        }
    }
}

/// The bytes that a text or an object with `hex` represents. Further members of the object are passed over.
pub(crate) fn read_byte_text(alloc: Global, value: Value) -> Result<OsBytes, ScenarioFault> {
    match value {
        Value::String(text) => Ok(OsBytes::from_vec(text.into_bytes())),
        Value::Object(mut members) => match members.remove("hex") {
            Some(digits) => read_hex(alloc, digits),
            None => Err(ScenarioFault::Unreadable),
        },
        _ => Err(ScenarioFault::Unreadable),
    }
}

/// The byte strings of a list of byte texts.
pub(crate) fn read_byte_texts(
    alloc: Global,
    value: Value,
) -> Result<Listed<OsBytes>, ScenarioFault> {
    let mut texts = Vec::new(alloc);
    for text in into_list(value)? {
        texts.push(read_byte_text(alloc, text)?)?;
    }
    Ok(Listed::from_vec(texts))
}

/// The UTF-8 bytes of a list of texts.
pub(crate) fn read_texts(alloc: Global, value: Value) -> Result<Listed<OsBytes>, ScenarioFault> {
    let mut texts = Vec::new(alloc);
    for text in into_list(value)? {
        texts.push(OsBytes::from_vec(into_text(text)?.into_bytes()))?;
    }
    Ok(Listed::from_vec(texts))
}

/// The bytes that a text of lowercase hexadecimal digits names, two digits each.
pub(crate) fn read_hex(alloc: Global, value: Value) -> Result<OsBytes, ScenarioFault> {
    let Value::String(digits) = value else {
        return Err(ScenarioFault::Unreadable);
    };
    if !digits.as_bytes().iter().all(|digit| is_digit(*digit)) {
        return Err(ScenarioFault::Unreadable);
    }
    Ok(OsBytes::from_vec(hex::decode(alloc, digits.as_str())?))
}

fn is_digit(byte: u8) -> bool {
    matches!(byte, b'0'..=b'9' | b'a'..=b'f')
}
