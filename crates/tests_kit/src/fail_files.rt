//! For tests: files with an I/O error at one call.

ghost use Rattle.std.specs.Prelude.{◌≡◌, ◌⊎◌, ◌+◌, ◌-◌, ◌%◌, ◌^◌, None, Some, IsErrOf, OnOk};
ghost use Rattle.base_files.specs.Bytes.{ticked};

use base_files::{FileFail, Files, Metadata, OsBytes};
use std::alloc::Global;

/// For tests: files with an I/O error at one call, whatever that asks. No call after it fails here.
#[derive(Drop)]
pub struct FailFiles<F> {
    pub files: F,
    /// How many calls come before the one that fails.
    pub calls_left: u64,
    /// How many I/O errors occurred here.
    pub failed: u64,
    /// The name that the failing call was on.
    pub failed_name: Option<OsBytes>,
}

impl<F> FailFiles<F> {
    /// These files, with an I/O error at the call after that many.
    pub fn new(files: F, calls_left: u64) -> FailFiles<F>
        ensures files { result.files ≡ files }
        ensures calls_left { result.calls_left ≡ calls_left }
        ensures failed { result.failed ≡ 0 }
        ensures failed_name { result.failed_name ≡ None }
    {
        FailFiles {
            files,
            calls_left,
            failed: 0,
            failed_name: None,
        }
    }

    /// Counts a call on that name, and fails at the one that is to fail.
    fn count(&mut self, alloc: Global, path: &OsBytes) -> Result<(), FileFail>
        ensures files { self.new.files ≡ self.old.files }
        ensures counted { self.new.calls_left ≡ self.old.calls_left - 1 }
        ensures fails { self.old.calls_left ≡ 0 → self.old.failed_name ≡ None → OnOk result ⊥ }
        ensures device { IsErrOf result FileFail.Device
            → (self.old.calls_left ≡ 0) × (self.old.failed_name ≡ None)
            × (self.new.failed ≡ ticked self.old.failed) × (self.new.failed_name ≡ Some path.now) }
        ensures steady { (IsErrOf result FileFail.Device → ⊥) → self.new.failed ≡ self.old.failed }
        ensures memory { IsErrOf result FileFail.Memory → self.new ≡ self.old }
    {
        if self.calls_left > 0 {
            self.calls_left -= 1;
            return Ok(());
        }
        if self.failed_name.is_some() {
            return Ok(());
        }
        self.failed_name = Some(path.clone()?);
        self.failed = self.failed.wrapping_add(1);
        Err(FileFail::Device)
    }
}

impl<F: Files> Files for FailFiles<F> {
    ghost tree = { λ m. F.tree m.files };

    ghost failed = { λ m. (F.failed m.files + m.failed) % 2 ^ 64 };

    /// It was due here and failed on that very name, or the files in it failed on it.
    ghost fails_on = { λ m name n. ((m.calls_left ≡ 0) × (m.failed_name ≡ None) × (n.failed ≡ ticked m.failed) × (n.failed_name ≡ Some name)) ⊎ F.fails_on m.files name n.files };

    fn read(&mut self, alloc: Global, path: &OsBytes) -> Result<Option<OsBytes>, FileFail> {
        self.count(alloc, path)?;
        self.files.read(alloc, path)
    }

    fn is_file(&mut self, alloc: Global, path: &OsBytes) -> Result<bool, FileFail> {
        self.count(alloc, path)?;
        self.files.is_file(alloc, path)
    }

    fn is_dir(&mut self, alloc: Global, path: &OsBytes) -> Result<bool, FileFail> {
        self.count(alloc, path)?;
        self.files.is_dir(alloc, path)
    }

    fn exists(&mut self, alloc: Global, path: &OsBytes) -> Result<bool, FileFail> {
        self.count(alloc, path)?;
        self.files.exists(alloc, path)
    }

    fn canonical(&mut self, alloc: Global, path: &OsBytes) -> Result<Option<OsBytes>, FileFail> {
        self.count(alloc, path)?;
        self.files.canonical(alloc, path)
    }

    fn metadata(&mut self, alloc: Global, path: &OsBytes) -> Result<Option<Metadata>, FileFail> {
        self.count(alloc, path)?;
        self.files.metadata(alloc, path)
    }

    fn failures(&self) -> u64 {
        self.files.failures().wrapping_add(self.failed)
    }
}
