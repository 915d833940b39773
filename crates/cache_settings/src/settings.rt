//! Settings: values of keys, with where each comes from.

use crate::error::SettingsError;
use crate::key::{Key, TELL};
use crate::storage;
use crate::values::{mask_named, size_named, truth_named};
use std::alloc::{AllocError, Global};
use std::fmt;

/// A value that was set, and where: a variable or a file.
#[derive(Drop)]
pub struct Setting {
    pub key: Key,
    pub value: String,
    pub origin: String,
}

/// A value of a key as it may be shown.
pub fn shown(alloc: Global, key: Key, value: &str) -> Result<String, fmt::Error> {
    match key {
        Key::RemoteStorage => storage::shown(alloc, value),
        _ => Ok(String::from_str(alloc, value)?),
    }
}

/// What is set. A key that isn't has its usual value.
#[derive(Drop)]
pub struct Settings {
    set: Vec<Setting>,
}

impl Settings {
    /// Nothing is set.
    pub fn new(alloc: Global) -> Settings {
        Settings {
            set: Vec::new(alloc),
        }
    }

    /// What is set of this key.
    fn setting_of(&self, key: Key) -> Option<&Setting> {
        self.set.iter().find(|setting| setting.key == key)
    }

    /// The value of this key.
    pub fn value_of(&self, key: Key) -> &str {
        match self.setting_of(key) {
            Some(setting) => setting.value.as_str(),
            None => key.usual(),
        }
    }

    /// Where the value of this key comes from.
    pub fn origin_of(&self, key: Key) -> &str {
        match self.setting_of(key) {
            Some(setting) => setting.origin.as_str(),
            None => "default",
        }
    }

    /// Whether this key is on.
    pub fn is_on(&self, key: Key) -> bool {
        truth_named(self.value_of(key)) == Some(true)
    }

    /// How many bytes are kept at most; 0 is no limit.
    pub fn max_size(&self) -> u64 {
        size_named(self.value_of(Key::MaxSize)).unwrap_or(0)
    }

    /// Of how many hits one is compiled too and compared; 0 is none.
    pub fn audit(&self) -> u64 {
        let value = self.value_of(Key::Audit);
        match value.parse::<u64>() {
            Ok(number) => number,
            Err(_) => u64::from(value == TELL),
        }
    }

    /// Whether the user wants a report of what comparing showed.
    pub fn tells_audit(&self) -> bool {
        self.value_of(Key::Audit) == TELL
    }

    /// The umask under which files and folders of what is kept are made; none is that of the process.
    pub fn umask(&self) -> Option<u32> {
        mask_named(self.value_of(Key::Umask))
    }

    /// Sets a key that isn't set yet: what was set first holds. Refuses what is no value of it.
    pub fn set(
        &mut self,
        alloc: Global,
        key: Key,
        value: &str,
        origin: &str,
    ) -> Result<(), SettingsError> {
        if !key.kind().allows(value) {
            let wanted = key.kind().wanted();
            let name = key.name();
            let value = shown(alloc, key, value)?;
            return Err(SettingsError::Wrong(format!(in alloc;
                "{origin}: {name} is {value}: set it to {wanted}"
            )?));
        }
        if self.setting_of(key).is_none() {
            self.push(alloc, key, value, origin)?;
        }
        Ok(())
    }

    fn push(
        &mut self,
        alloc: Global,
        key: Key,
        value: &str,
        origin: &str,
    ) -> Result<(), AllocError> {
        let value = String::from_str(alloc, value)?;
        let origin = String::from_str(alloc, origin)?;
        self.set.push(Setting { key, value, origin })?;
        Ok(())
    }
}
