//! Manifests of rustc: of what a crate was made at an earlier call, so that rustc needn't be asked again. A manifest lies under the digest of
//! the question, and holds the text on dependencies with the states of the files that it names. A broken or missing one is as none.

use crate::known::KnownCrate;
use base_blake2::Blake2b256;
use base_files::{Listed, OsBytes};
use cache_dir::Kind;
use cache_format::{KeptManifest, seal, unseal};
use cache_host::{CommandLine, HostError, text_in};
use cache_settings::Key;
use rustc_parts::parts::EnvDep;
use rustc_texts::{parse_dep_info, parse_env_dep_info};
use std::alloc::Global;
use std::collections::BTreeSet;
use std::fs;
use std::rt::Files;

/// What is used in place of a zone in manifests of rustc.
const OF_RUSTC: &[u8] = b"rustc";

/// Whether variables that sources name have the values that a text gives.
fn are_set_so(line: &CommandLine, variables: &[EnvDep]) -> bool {
    for dep in variables {
        let pair = line.env.as_slice().iter().find(|pair| pair.0 == dep.name);
        let is_set_so = match (pair, &dep.value) {
            (Some(pair), Some(value)) => pair.1 == *value,
            (None, None) => true,
            (_, _) => false,
        };
        if !is_set_so {
            return false;
        }
    }
    true
}

/// The other place at which rustc looks for the module of a file: `a/mod.rs` of `a.rs`, and the other way round.
fn other_place(alloc: Global, path: &str) -> Result<Option<String>, HostError> {
    if let Some(front) = path.strip_suffix("/mod.rs") {
        return Ok(Some(format!(in alloc; "{front}.rs")?));
    }
    match path.strip_suffix(".rs") {
        Some(front) => Ok(Some(format!(in alloc; "{front}/mod.rs")?)),
        None => Ok(None),
    }
}

/// Whether no file lies where rustc would find another module, or two for one.
fn have_no_others<R: Files + AllocGlobal>(rt: &R, sources: &[OsBytes]) -> Result<bool, HostError> {
    let mut known = BTreeSet::new(rt.alloc());
    for source in sources {
        known.insert(text_in(source)?)?;
    }
    for source in sources {
        let Some(other) = other_place(rt.alloc(), text_in(source)?)? else {
            continue;
        };
        if !known.contains(other.as_str()) && fs::symlink_metadata(rt, other.as_str()).is_ok() {
            return Ok(false);
        }
    }
    Ok(true)
}

/// The sources that a text names, where variables and modules are as they were.
fn sources_in<R: Files + AllocGlobal>(
    rt: &R,
    line: &CommandLine,
    text: &[u8],
) -> Result<Option<Listed<OsBytes>>, HostError> {
    let alloc = rt.alloc();
    let Ok(text) = str::from_utf8(text) else {
        return Ok(None);
    };
    let Ok(sources) = parse_dep_info(alloc, text, line.dir.as_bytes()) else {
        return Ok(None);
    };
    let variables = parse_env_dep_info(alloc, text)?;
    if !are_set_so(line, variables.as_slice()) || !have_no_others(rt, sources.as_slice())? {
        return Ok(None);
    }
    Ok(Some(sources))
}

/// The manifest of that name, where one is kept.
fn kept_under<R: Files + AllocGlobal>(
    rt: &R,
    line: &CommandLine,
    name: &str,
) -> Result<Option<KeptManifest>, HostError> {
    match line.folder.read(rt, Kind::Manifests, name) {
        Ok(bytes) => Ok(unseal::<Blake2b256, KeptManifest>(rt.alloc(), bytes.as_slice())?),
        Err(_) => Ok(None),
    }
}

impl KnownCrate {
    /// Loads the sources of a manifest, each by what is noted of it. False where one isn't as it was.
    fn load_noted<R: Files + AllocGlobal>(
        &mut self,
        rt: &R,
        sources: Listed<OsBytes>,
    ) -> Result<bool, HostError> {
        for path in sources.into_vec() {
            if !self.load_by_state(rt, path)? {
                return Ok(false);
            }
        }
        Ok(true)
    }

    /// Loads all that a manifest of that name names. False where something isn't as it was.
    fn has_noted<R: Files + AllocGlobal>(
        &mut self,
        rt: &R,
        line: &CommandLine,
        name: &str,
        kept: &KeptManifest,
    ) -> Result<bool, HostError> {
        let is_of_rustc = matches!(kept.zone.as_bytes(), OF_RUSTC)
            && kept.key.as_bytes() == name.as_bytes();
        if !is_of_rustc || !line.settings.is_on(Key::DirectMode) {
            return Ok(false);
        }
        self.tokens.take_rows(rt.alloc(), kept.watched.as_bytes())?;
        match sources_in(rt, line, kept.results.as_bytes())? {
            Some(sources) => self.load_noted(rt, sources),
            None => Ok(false),
        }
    }

    /// The text on dependencies of a manifest of that name, where all that it names is as it was.
    pub(crate) fn noted_text<R: Files + AllocGlobal>(
        &mut self,
        rt: &R,
        line: &CommandLine,
        name: &str,
    ) -> Result<Option<OsBytes>, HostError> {
        let Some(kept) = kept_under(rt, line, name)? else {
            return Ok(None);
        };
        match self.has_noted(rt, line, name, &kept) {
            Ok(true) => {
                let _ = line.folder.renew(rt, Kind::Manifests, name, line.moment);
                Ok(Some(kept.results))
            }
            Ok(false) => Ok(None),
            Err(stop) => Err(stop),
        }
    }

    /// Loads the sources that a text names, and keeps a manifest of it, where these can be recognized by their states.
    pub(crate) fn take_text<R: Files + AllocGlobal>(
        &mut self,
        rt: &R,
        line: &CommandLine,
        name: &str,
        text: &OsBytes,
    ) -> Result<(), HostError> {
        let alloc = rt.alloc();
        let Ok(readable) = str::from_utf8(text.as_bytes()) else {
            return Ok(());
        };
        let Ok(sources) = parse_dep_info(alloc, readable, line.dir.as_bytes()) else {
            return Ok(());
        };
        let mut are_noted = true;
        for path in sources.into_vec() {
            are_noted = self.load_and_note(rt, path, line.began)? && are_noted;
        }
        if are_noted && line.settings.is_on(Key::DirectMode) {
            let _ = self.keep_manifest(rt, line, name, text);
        }
        Ok(())
    }

    /// Keeps a manifest of a text.
    fn keep_manifest<R: Files + AllocGlobal>(
        &self,
        rt: &R,
        line: &CommandLine,
        name: &str,
        text: &OsBytes,
    ) -> Result<(), HostError> {
        let alloc = rt.alloc();
        let kept = KeptManifest {
            zone: OsBytes::from_slice(alloc, OF_RUSTC)?,
            identity: OsBytes::empty(alloc),
            key: OsBytes::from_slice(alloc, name.as_bytes())?,
            results: text.clone()?,
            watched: OsBytes::from_vec(self.tokens.rows(alloc)?),
        };
        let bytes = seal::<Blake2b256, KeptManifest>(alloc, &kept)?;
        Ok(
            line.folder
                .put(rt, Kind::Manifests, name, bytes.as_slice())?,
        )
    }
}
