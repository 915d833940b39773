//! What is fixed for all keys of a session.

ghost use Rattle.std.specs.Prelude.{◌≡◌, false, true, None, find, map, IfOk, IfErr, OnOk};
ghost use Rattle.ckeys_records.specs.Folders.{is_bad, without_slashes, settings_with, ConfigCause, FolderCause};

use base_files::{Listed, OsBytes};
use ckeys_time_macros::Zone;
use std::alloc::{AllocError, Global};
use std::marker::Model;
use thiserror::Error;

/// Why there is no configuration.
#[derive(Clone, Debug, Drop, Error, PartialEq, Eq)]
pub enum ConfigError {
    /// Out of memory.
    #[error("no memory was left")]
    Memory,
    /// This folder isn't absolute, or is only slashes.
    #[error("no absolute folder: {0}")]
    BadFolder(OsBytes),
}

impl From<AllocError> for ConfigError {
    ghost use Rattle.ckeys_records.specs.declared.config.ConfigError.TheVariants.{Memory};

    ghost from_gives = { λ _ e. e ≡ Memory };

    fn from(_error: AllocError) -> ConfigError {
        ConfigError::Memory
    }
}

/// The folders that don't count, the zone in which days are given, and whether include records are kept. Contracts see the
/// folders without the slashes at their ends.
#[derive(Clone, Debug, Drop, PartialEq, Eq)]
pub struct KeyConfig {
    basedirs: Listed<OsBytes>,
    zone: Zone,
    direct: bool,
}

impl Model for KeyConfig {
    ghost use Rattle.ckeys_records.specs.Folders.{Settings, settings_with};

    ghost Value = { Settings };

    ghost view = { λ a. settings_with a.basedirs a.zone a.direct };

    ghost inverse = { λ s. record { basedirs = s.basedirs; zone = s.zone; direct = s.direct } };
}

impl KeyConfig {
    /// These folders, each without the slashes at its end; days are given in that zone; include records are kept where
    /// `direct` says so.
    ///
    /// `BadFolder` names the first folder that isn't absolute or is only slashes.
    pub fn new(
        alloc: Global,
        basedirs: &[OsBytes],
        zone: Zone,
        direct: bool,
    ) -> Result<KeyConfig, ConfigError>
        ensures settings { let cut = map without_slashes basedirs.now in
            IfOk result (λ config. config ≡ settings_with cut zone direct) }
        ensures good { OnOk result (find is_bad basedirs.now ≡ None) }
        ensures cause { IfErr result (ConfigCause (find is_bad basedirs.now)) }
    {
        let mut folders = Listed::new(alloc);
        let mut rest = basedirs;
        while let Some((folder, others)) = rest.split_first() {
            folders.push(folder_without_slashes(alloc, folder)?)?;
            rest = others;
        }
        Ok(KeyConfig {
            basedirs: folders,
            zone,
            direct,
        })
    }

    /// Whether include records are kept.
    pub fn direct(&self) -> bool
        ensures { result ≡ self.now.direct }
    {
        self.direct
    }

    /// The zone in which days are given.
    pub fn zone(&self) -> &Zone
        ensures { result.now ≡ self.now.zone }
    {
        &self.zone
    }

    /// The folders that don't count.
    pub fn basedirs(&self) -> &[OsBytes]
        ensures { result.now ≡ self.now.basedirs }
    {
        self.basedirs.as_slice()
    }
}

/// The folder without the slashes at its end.
fn folder_without_slashes(alloc: Global, folder: &OsBytes) -> Result<OsBytes, ConfigError>
    ensures cut { IfOk result (λ cut. cut ≡ without_slashes folder.now) }
    ensures good { OnOk result (is_bad folder.now ≡ false) }
    ensures cause { IfErr result (FolderCause folder.now) }
{
    let kept = before_slashes(folder.as_bytes());
    if kept.is_empty() || !folder.as_bytes().starts_with(b"/") {
        return Err(ConfigError::BadFolder(folder.clone()?));
    }
    Ok(OsBytes::from_slice(alloc, kept)?)
}

/// What comes before the slashes at the end.
fn before_slashes(folder: &[u8]) -> &[u8]
    ensures { result.now ≡ without_slashes folder.now }
{
    let mut kept = folder;
    while let Some((last, shorter)) = kept.split_last() {
        if *last != b'/' {
            break;
        }
        kept = shorter;
    }
    kept
}
