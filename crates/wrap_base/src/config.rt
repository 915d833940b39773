//! What is fixed for all requests of a session.

ghost use Rattle.std.specs.Prelude.{◌≡◌, None, find, map, IfOk, IfErr, OnOk};
ghost use Rattle.ckeys_records.specs.Folders.{is_bad, without_slashes, settings_with, ConfigCause};

use base_files::OsBytes;
use ckeys_records::{ConfigError, KeyConfig};
use ckeys_time_macros::Zone;
use std::alloc::Global;

/// What keys are made by, and how large a result is kept at most: the contents of its outputs, added up. No key depends on that.
#[derive(Clone, Debug, Drop, PartialEq, Eq)]
pub struct Config {
    /// What keys are made by.
    pub keys: KeyConfig,
    /// In bytes. Where there is none, each result is kept.
    pub max_kept: Option<u64>,
}

impl Config {
    /// These folders, each without the slashes at its end; days are given in that zone; include records are kept where `direct` says so,
    /// and results of at most so many bytes.
    ///
    /// `BadFolder` names the first folder that isn't absolute or is only slashes.
    pub fn new(
        alloc: Global,
        basedirs: &[OsBytes],
        zone: Zone,
        direct: bool,
        max_kept: Option<u64>,
    ) -> Result<Config, ConfigError>
        ensures keys { let cut = map without_slashes basedirs.now in
            IfOk result (λ config. config.keys ≡ settings_with cut zone direct) }
        ensures limit { IfOk result (λ config. config.max_kept ≡ max_kept) }
        ensures good { OnOk result (find is_bad basedirs.now ≡ None) }
        ensures cause { IfErr result (ConfigCause (find is_bad basedirs.now)) }
    {
        let keys = KeyConfig::new(alloc, basedirs, zone, direct)?;
        Ok(Config { keys, max_kept })
    }
}
