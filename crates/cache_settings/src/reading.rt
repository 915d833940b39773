//! Settings as they are read, and set in the user's file.

use crate::error::SettingsError;
use crate::key::Key;
use crate::lines::{Line, read_line};
use crate::places::{SYSTEM, Variables, users_file};
use crate::settings::Settings;
use std::alloc::Global;
use std::fs;
use std::io::ErrorKind;
use std::rt::Files;

/// Sets what variables say.
fn read_variables<V: Variables>(
    alloc: Global,
    variables: &V,
    settings: &mut Settings,
) -> Result<(), SettingsError> {
    for key in Key::ALL {
        if let Some(value) = variables.value_of(key.variable()) {
            settings.set(alloc, key, value, key.variable())?;
        }
    }
    Ok(())
}

/// Sets what a line of a file says.
fn take_line(
    alloc: Global,
    line: &str,
    place: &str,
    settings: &mut Settings,
) -> Result<(), SettingsError> {
    match read_line(line) {
        Line::Empty => Ok(()),
        Line::Unfit => Err(SettingsError::Wrong(format!(in alloc;
            "{place}: {line}: a line is KEY = VALUE"
        )?)),
        Line::Pair(name, value) => match Key::named(name) {
            Some(key) => settings.set(alloc, key, value, place),
            None => Err(SettingsError::Wrong(format!(in alloc;
                "{place}: no key is called {name}: gulmaat -p shows all"
            )?)),
        },
    }
}

/// Sets what the lines of a file say, of which the first one that sets a key holds.
pub fn take_lines(
    alloc: Global,
    text: &str,
    place: &str,
    settings: &mut Settings,
) -> Result<(), SettingsError> {
    for line in text.lines() {
        take_line(alloc, line, place, settings)?;
    }
    Ok(())
}

/// The text of a file; nothing where it isn't there.
fn text_at<R: Files + AllocGlobal>(rt: &R, place: &str) -> Result<Option<String>, SettingsError> {
    match fs::read_to_string(rt, place) {
        Ok(text) => Ok(Some(text)),
        Err(error) if error.kind() == ErrorKind::NotFound => Ok(None),
        Err(error) => Err(SettingsError::Device(format!(in rt.alloc();
            "{place} can't be read: {error}"
        )?)),
    }
}

/// Sets what a file says, if it is there.
fn read_file<R: Files + AllocGlobal>(
    rt: &R,
    place: &str,
    settings: &mut Settings,
) -> Result<(), SettingsError> {
    match text_at(rt, place)? {
        Some(text) => take_lines(rt.alloc(), text.as_str(), place, settings),
        None => Ok(()),
    }
}

/// What is set: by variables before the user's file before the file of all users.
pub fn read_settings<R: Files + AllocGlobal, V: Variables>(
    rt: &R,
    variables: &V,
) -> Result<Settings, SettingsError> {
    let mut settings = Settings::new(rt.alloc());
    read_variables(rt.alloc(), variables, &mut settings)?;
    if let Some(place) = users_file(rt.alloc(), variables)? {
        read_file(rt, place.as_str(), &mut settings)?;
    }
    read_file(rt, SYSTEM, &mut settings)?;
    Ok(settings)
}

/// Whether a line sets this key.
fn sets(line: &str, key: Key) -> bool {
    match read_line(line) {
        Line::Pair(name, _) => name == key.name(),
        Line::Empty | Line::Unfit => false,
    }
}

/// The text with this key set to that value by a line at its end, and without the lines that set it before.
pub fn text_with(
    alloc: Global,
    text: &str,
    key: Key,
    value: &str,
) -> Result<String, SettingsError> {
    let mut changed = String::new(alloc);
    for line in text.lines() {
        if !sets(line, key) {
            changed.push_str(line)?;
            changed.push('\n')?;
        }
    }
    let name = key.name();
    changed.push_str(format!(in alloc; "{name} = {value}\n")?.as_str())?;
    Ok(changed)
}

/// The folder that a file lies in.
fn folder_of(place: &str) -> &str {
    match place.rsplit_once('/') {
        Some((folder, _)) => folder,
        None => "",
    }
}

/// Writes a file all at once, and makes its folder.
fn write_file<R: Files + AllocGlobal>(
    rt: &R,
    place: &str,
    text: &str,
) -> Result<(), SettingsError> {
    let early = format!(in rt.alloc(); "{place}.new")?;
    let mut done = fs::create_dir_all(rt, folder_of(place));
    if done.is_ok() {
        done = fs::write(rt, early.as_str(), text.as_bytes());
    }
    if done.is_ok() {
        done = fs::rename(rt, early.as_str(), place);
    }
    match done {
        Ok(()) => Ok(()),
        Err(error) => Err(SettingsError::Device(format!(in rt.alloc();
            "{place} can't be written: {error}"
        )?)),
    }
}

/// Sets a key in the user's file. What is no value of it is refused, and the file stays as it was.
pub fn set_in_file<R: Files + AllocGlobal, V: Variables>(
    rt: &R,
    variables: &V,
    key: Key,
    value: &str,
) -> Result<(), SettingsError> {
    let alloc = rt.alloc();
    Settings::new(alloc).set(alloc, key, value, "gulmaat")?;
    let Some(place) = users_file(alloc, variables)? else {
        return Err(SettingsError::Wrong(String::from_str(
            alloc,
            "no folder for settings: set HOME or GULMAAT_DIR",
        )?));
    };
    let text = text_at(rt, place.as_str())?;
    let text = match &text {
        Some(text) => text.as_str(),
        None => "",
    };
    let changed = text_with(alloc, text, key, value)?;
    write_file(rt, place.as_str(), changed.as_str())
}
