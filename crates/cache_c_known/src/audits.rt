//! Hits that are compiled too, so that what is kept is compared with what the compiler makes: some of them, or all, as a user sets it.

use crate::known::{Given, Known};
use base_files::{Listed, OsBytes};
use cache_dir::Kind;
use cache_format::KeptMessages;
use cache_host::{CommandLine, HostError, text_in};
use cache_source_files::{
    Audit, copies_of, difference_of_outputs, difference_of_texts, is_one_of, log_difference,
};
use std::alloc::{AllocError, Global};
use std::fs::File;
use std::rt::Files;
use wrap_base::store_key::StoreKey;
use wrap_base::{How, Output};

/// A hit that is compiled too.
#[derive(Drop)]
pub struct Audited {
    pub how: How,
    digest: OsBytes,
    outputs: Vec<Output>,
    printed: OsBytes,
    errors: OsBytes,
    dependencies: Option<OsBytes>,
    side_files: Listed<(OsBytes, OsBytes)>,
}

/// The bytes, where there are some.
fn bytes_of(contents: &Option<OsBytes>) -> &[u8] {
    match contents {
        Some(contents) => contents.as_bytes(),
        None => &[],
    }
}

impl Audited {
    /// What differs first between what is kept and what the compiler made and printed.
    fn difference(
        &self,
        alloc: Global,
        outputs: &[Output],
        known: &Known,
    ) -> Result<Option<String>, AllocError> {
        let object = difference_of_outputs(alloc, self.outputs.as_slice(), outputs)?;
        if object.is_some() {
            return Ok(object);
        }
        let texts = [
            (
                "standard output",
                self.printed.as_bytes(),
                known.printed.as_bytes(),
            ),
            (
                "standard error",
                self.errors.as_bytes(),
                known.errors.as_bytes(),
            ),
            (
                "dependency file",
                bytes_of(&self.dependencies),
                bytes_of(&known.written),
            ),
        ];
        for (name, kept, made) in &texts {
            let found = difference_of_texts(alloc, name, kept, made)?;
            if found.is_some() {
                return Ok(found);
            }
        }
        match self.side_files == known.side_made {
            true => Ok(None),
            false => Ok(Some(String::from_str(alloc, "files beside the object")?)),
        }
    }
}

/// Copies of a hit that is kept under that digest.
fn audited_of(
    alloc: Global,
    digest: &OsBytes,
    given: &Given<'_>,
    messages: &KeptMessages,
) -> Result<Audited, AllocError> {
    Ok(Audited {
        how: given.how,
        digest: digest.clone()?,
        outputs: copies_of(alloc, given.outputs)?,
        printed: messages.printed.clone()?,
        errors: messages.errors.clone()?,
        dependencies: messages.dependencies.clone()?,
        side_files: messages.side_files.clone()?,
    })
}

impl Known {
    /// Whether a hit is compiled too. It is a miss from now on then.
    pub fn is_to_audit(
        &mut self,
        alloc: Global,
        line: &CommandLine,
        hint: &str,
        key: Option<&StoreKey>,
        given: &Given<'_>,
    ) -> Result<bool, HostError> {
        let (Some(key), Some(messages)) = (key, given.messages) else {
            return Ok(false);
        };
        if let Some(audited) = &self.audited {
            // By its text it has another key than by its manifest, or comes once more.
            return Ok(audited.digest == key.digest);
        }
        if !is_one_of(hint, line.settings.audit()) {
            return Ok(false);
        }
        self.looked_up = Some(key.digest.clone()?);
        self.audited = Some(audited_of(alloc, &key.digest, given, messages)?);
        Ok(true)
    }

    /// Ends a comparison in which that differs: what is kept of this call goes, and a line says so, where that can be done.
    pub fn differs<R: Files<File = File> + AllocGlobal>(
        &self,
        rt: &R,
        line: &CommandLine,
        what: String,
    ) -> Result<Audit, HostError> {
        if let Some(audited) = &self.audited {
            let name = text_in(&audited.digest)?;
            let _ = line.folder.remove(rt, Kind::Results, name);
            let _ = line.folder.remove(rt, Kind::Manifests, self.name_to_note());
            let _ = log_difference(rt, line, &audited.digest, what.as_str());
        }
        Ok(Audit::Differs(what))
    }

    /// Compares what the compiler made with the hit in whose place it ran, where there was one. Where a source was changed meanwhile nothing
    /// is compared.
    pub fn compare<R: Files<File = File> + AllocGlobal>(
        &self,
        rt: &R,
        line: &CommandLine,
        key: &StoreKey,
        outputs: &[Output],
    ) -> Result<Audit, HostError> {
        let Some(audited) = &self.audited else {
            return Ok(Audit::None);
        };
        if self.check_sources(rt).is_err() {
            return Ok(Audit::None);
        }
        if audited.digest != key.digest {
            let what = String::from_str(rt.alloc(), "manifest")?;
            return self.differs(rt, line, what);
        }
        match audited.difference(rt.alloc(), outputs, self)? {
            Some(what) => self.differs(rt, line, what),
            None => Ok(Audit::Alike),
        }
    }
}
