//! Where files of settings are, and variables by their names.

use std::alloc::Global;
use std::fmt;

/// The file of all users.
pub const SYSTEM: &str = "/etc/gulmaat.conf";

/// Who knows variables.
pub trait Variables {
    /// The value of a variable; nothing where it isn't set, or set to nothing, or is no text.
    fn value_of(&self, name: &str) -> Option<&str>;
}

/// The variables of a list.
#[derive(Drop)]
pub struct ListedVariables {
    pub pairs: Vec<(String, String)>,
}

impl Variables for ListedVariables {
    fn value_of(&self, name: &str) -> Option<&str> {
        let (_, value) = self.pairs.iter().find(|pair| pair.0.as_str() == name)?;
        Some(value.as_str())
    }
}

/// The names of all variables that settings hang on, beside those of the keys.
pub const OTHERS: [&str; 2] = ["XDG_CONFIG_HOME", "HOME"];

/// The user's file: `gulmaat.conf` in the folder that `GULMAAT_DIR` names, or in `gulmaat` in the user's folder of settings. Nothing where
/// neither is there.
pub fn users_file<V: Variables>(
    alloc: Global,
    variables: &V,
) -> Result<Option<String>, fmt::Error> {
    if let Some(dir) = variables.value_of("GULMAAT_DIR") {
        return Ok(Some(format!(in alloc; "{dir}/gulmaat.conf")?));
    }
    if let Some(config) = variables.value_of("XDG_CONFIG_HOME") {
        return Ok(Some(format!(in alloc; "{config}/gulmaat/gulmaat.conf")?));
    }
    match variables.value_of("HOME") {
        Some(home) => Ok(Some(format!(in alloc; "{home}/.config/gulmaat/gulmaat.conf")?)),
        None => Ok(None),
    }
}
