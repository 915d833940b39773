//! Hits of rustc that are compiled too, so that what is kept is compared with what rustc makes.

use crate::known::KnownCrate;
use base_files::OsBytes;
use cache_dir::Kind;
use cache_host::{CommandLine, HostError, text_in};
use cache_source_files::{
    Audit, copies_of, difference_of_outputs, difference_of_texts, is_one_of, log_difference,
};
use std::alloc::Global;
use std::fs::File;
use std::rt::Files;
use wrap_base::store_key::StoreKey;
use wrap_base::{How, Output};

/// A hit in whose place rustc runs.
#[derive(Drop)]
pub struct AuditedCrate {
    pub how: How,
    digest: OsBytes,
    outputs: Vec<Output>,
    errors: OsBytes,
    dep_info: Option<OsBytes>,
}

impl AuditedCrate {
    /// What differs first between the hit and what rustc made and printed.
    fn difference(
        &self,
        alloc: Global,
        outputs: &[Output],
        errors: &[u8],
        written: Option<&[u8]>,
    ) -> Result<Option<String>, HostError> {
        if let Some(found) = difference_of_outputs(alloc, self.outputs.as_slice(), outputs)? {
            return Ok(Some(found));
        }
        let kept = self.errors.as_bytes();
        if let Some(found) = difference_of_texts(alloc, "standard error", kept, errors)? {
            return Ok(Some(found));
        }
        match (&self.dep_info, written) {
            (Some(kept), Some(written)) => {
                let name = "dependency file";
                Ok(difference_of_texts(alloc, name, kept.as_bytes(), written)?)
            }
            (_, _) => Ok(None),
        }
    }
}

impl KnownCrate {
    /// Copies of a hit under that key.
    fn audited_by(
        &self,
        alloc: Global,
        key: &StoreKey,
        how: How,
        outputs: &[Output],
        dep_info: Option<&OsBytes>,
    ) -> Result<AuditedCrate, HostError> {
        let errors = match &self.found_errors {
            Some(errors) => errors.clone()?,
            None => OsBytes::empty(alloc),
        };
        Ok(AuditedCrate {
            how,
            digest: key.digest.clone()?,
            outputs: copies_of(alloc, outputs)?,
            errors,
            dep_info: dep_info.cloned()?,
        })
    }

    /// Whether a hit is compiled too. It is a miss from now on then.
    pub fn is_to_audit(
        &mut self,
        alloc: Global,
        line: &CommandLine,
        key: &StoreKey,
        how: How,
        outputs: &[Output],
        dep_info: Option<&OsBytes>,
    ) -> Result<bool, HostError> {
        let is_wanted = is_one_of(self.parts_name(), line.settings.audit());
        if self.audited.is_some() || !is_wanted {
            return Ok(false);
        }
        self.looked_up = Some(key.digest.clone()?);
        self.audited = Some(self.audited_by(alloc, key, how, outputs, dep_info)?);
        Ok(true)
    }

    /// Ends a comparison in which that differs: what is kept of this call goes, and a line says so, where that can be done.
    pub fn differs<R: Files<File = File> + AllocGlobal>(
        &self,
        rt: &R,
        line: &CommandLine,
        what: String,
    ) -> Result<Audit, HostError> {
        if let Some(audited) = &self.audited {
            let _ = line
                .folder
                .remove(rt, Kind::Results, text_in(&audited.digest)?);
            let _ = log_difference(rt, line, &audited.digest, what.as_str());
        }
        Ok(Audit::Differs(what))
    }

    /// Compares what rustc made with the hit in whose place it ran, where there was one. Where a file was changed meanwhile nothing is
    /// compared.
    pub fn compare<R: Files<File = File> + AllocGlobal>(
        &self,
        rt: &R,
        line: &CommandLine,
        outputs: &[Output],
    ) -> Result<Audit, HostError> {
        let Some(audited) = &self.audited else {
            return Ok(Audit::None);
        };
        if !self.are_unchanged(rt)? {
            return Ok(Audit::None);
        }
        let written = self.written_dep_info(rt)?;
        let errors = self.errors.as_bytes();
        match audited.difference(rt.alloc(), outputs, errors, written.as_deref())? {
            Some(what) => self.differs(rt, line, what),
            None => Ok(Audit::Alike),
        }
    }
}
