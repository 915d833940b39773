//! Settings, shown and set.

use crate::error::OptionError;
use cache_settings::{Key, Settings, Variables, set_in_file, shown};
use std::alloc::Global;
use std::rt::Files;

/// Prints a key with its value and where that comes from. What may be shown to nobody is left out.
fn show_key<R: Print + AllocGlobal>(
    rt: &R,
    settings: &Settings,
    kept: &str,
    key: Key,
) -> Result<(), OptionError> {
    let origin = settings.origin_of(key);
    let name = key.name();
    let value = shown(rt.alloc(), key, value_of(settings, key, kept))?;
    println!(rt; "({origin}) {name} = {value}")?;
    Ok(())
}

/// Prints each key. The folder of what is kept is the one that the host found, where none is set.
pub fn show_config<R: Print + AllocGlobal>(
    rt: &R,
    settings: &Settings,
    kept: &str,
) -> Result<(), OptionError> {
    for key in Key::ALL.iter() {
        show_key(rt, settings, kept, *key)?;
    }
    Ok(())
}

/// The value of a key as it holds.
fn value_of<'a>(settings: &'a Settings, key: Key, kept: &'a str) -> &'a str {
    match key {
        Key::CacheDir => kept,
        _ => settings.value_of(key),
    }
}

/// The key of that name.
fn key_named(alloc: Global, name: &str) -> Result<Key, OptionError> {
    match Key::named(name) {
        Some(key) => Ok(key),
        None => Err(OptionError::Wrong(format!(in alloc;
            "no key is called {name}: gulmaat -p shows all"
        )?)),
    }
}

/// Prints the value of the key of that name.
pub fn get<R: Print + AllocGlobal>(
    rt: &R,
    settings: &Settings,
    kept: &str,
    name: &str,
) -> Result<(), OptionError> {
    let key = key_named(rt.alloc(), name)?;
    let value = value_of(settings, key, kept);
    println!(rt; "{value}")?;
    Ok(())
}

/// Sets a key by `KEY=VALUE` in the user's file.
pub fn set<R: Files + AllocGlobal, V: Variables>(
    rt: &R,
    variables: &V,
    pair: &str,
) -> Result<(), OptionError> {
    let Some((name, value)) = pair.split_once('=') else {
        return Err(OptionError::Wrong(format!(in rt.alloc(); "{pair}: -o takes KEY=VALUE")?));
    };
    let key = key_named(rt.alloc(), name.trim())?;
    Ok(set_in_file(rt, variables, key, value.trim())?)
}
