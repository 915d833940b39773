//! Where results of other machines are: the address of a server or a folder, followed by attributes, each after a `|`.

use crate::values::truth_named;
use std::alloc::{AllocError, Global};
use std::fmt;

/// What addresses begin with.
const FRONTS: [&str; 5] = ["redis://", "redis+unix:/", "http://", "https://", "file:/"];

/// What is shown in place of something hidden.
const HIDDEN: &str = "***";

/// Whether an address is one.
fn is_address(text: &str) -> bool {
    for front in FRONTS {
        if text.starts_with(front) {
            return true;
        }
    }
    false
}

/// The name and the value of an attribute; an empty value where it has none.
fn parts_of(attribute: &str) -> (&str, &str) {
    match attribute.split_once('=') {
        Some(parts) => parts,
        None => (attribute, ""),
    }
}

/// Whether an attribute is one.
fn is_attribute(attribute: &str) -> bool {
    let (name, value) = parts_of(attribute);
    match name {
        "read-only" | "reshare" => value.is_empty() || truth_named(value).is_some(),
        "connect-timeout" | "operation-timeout" | "lifetime" => value.parse::<u32>().is_ok(),
        "layout" => matches!(value, "subdirs" | "flat" | "bazel"),
        "bearer-token" => !value.is_empty(),
        _ => false,
    }
}

/// Whether a text is such an address with its attributes.
pub fn is_storage(text: &str) -> bool {
    match text.split_once('|') {
        Some((address, rest)) => is_address(address) && rest.split('|').all(is_attribute),
        None => is_address(text),
    }
}

/// The value of an attribute, an empty one where it has none; nothing where it isn't set.
fn value_in<'a>(storage: &'a str, name: &str) -> Option<&'a str> {
    let (_, rest) = storage.split_once('|')?;
    for attribute in rest.split('|') {
        let (front, value) = parts_of(attribute);
        if front == name {
            return Some(value);
        }
    }
    None
}

/// Whether an attribute is on: it is given alone, or with a truth value.
pub fn has_attribute(storage: &str, name: &str) -> bool {
    match value_in(storage, name) {
        Some(value) => value.is_empty() || truth_named(value) == Some(true),
        None => false,
    }
}

/// The number that an attribute says, or the usual one.
pub fn number_in(storage: &str, name: &str, usual: u32) -> u32 {
    match value_in(storage, name) {
        Some(value) => value.parse::<u32>().unwrap_or(usual),
        None => usual,
    }
}

/// The parts of an address round who may ask there: what comes before the first `//`, and after the last `@`. Nothing where it names nobody.
fn round_user(address: &str) -> Option<(&str, &str)> {
    let (front, rest) = address.split_once("//")?;
    let (_, server) = rest.rsplit_once('@')?;
    Some((front, server))
}

/// Adds an address without who may ask there.
fn put_address(shown: &mut String, address: &str) -> Result<(), AllocError> {
    match round_user(address) {
        Some((front, server)) => write!(shown, "{front}//{HIDDEN}@{server}"),
        None => shown.push_str(address),
    }
}

/// Adds an attribute without what may be shown to nobody.
fn put_attribute(shown: &mut String, attribute: &str) -> Result<(), AllocError> {
    let (name, _) = parts_of(attribute);
    match name == "bearer-token" {
        true => write!(shown, "|{name}={HIDDEN}"),
        false => write!(shown, "|{attribute}"),
    }
}

/// The text as it may be shown: without passwords and tokens.
pub fn shown(alloc: Global, storage: &str) -> Result<String, fmt::Error> {
    let mut shown = String::new(alloc);
    let Some((address, rest)) = storage.split_once('|') else {
        put_address(&mut shown, storage)?;
        return Ok(shown);
    };
    put_address(&mut shown, address)?;
    for attribute in rest.split('|') {
        put_attribute(&mut shown, attribute)?;
    }
    Ok(shown)
}
