//! Files in memory that count how often they are asked, with an I/O error at one name.

ghost use Rattle.std.specs.Prelude.{◌≡◌};
ghost use Rattle.base_files.specs.Bytes.{ticked};

use base_files::{FileFail, Files, MemoryFiles, Metadata, OsBytes};
use std::alloc::Global;

/// Files in memory, the number of the calls of them, and the name at which an I/O error occurs.
#[derive(Drop)]
pub struct WatchedFiles<'a> {
    pub files: MemoryFiles,
    /// How often they were asked.
    pub calls: u64,
    /// The name whose contents can't be read.
    pub broken: &'a [u8],
    /// How many I/O errors occurred.
    pub failed: u64,
}

impl<'a> WatchedFiles<'a> {
    fn count(&mut self)
        ensures files { self.new.files ≡ self.old.files }
        ensures failed { self.new.failed ≡ self.old.failed }
    {
        self.calls = self.calls.wrapping_add(1);
    }

    fn fail(&mut self) -> FileFail
        ensures fail { result ≡ FileFail.Device }
        ensures files { self.new.files ≡ self.old.files }
        ensures failed { self.new.failed ≡ ticked self.old.failed }
    {
        self.failed = self.failed.wrapping_add(1);
        FileFail::Device
    }
}

impl<'a> Files for WatchedFiles<'a> {
    ghost tree = { λ watched. watched.files };

    ghost failed = { λ watched. watched.failed };

    /// It failed once more.
    ghost fails_on = { λ watched _ after. after.failed ≡ ticked watched.failed };

    fn read(&mut self, alloc: Global, path: &OsBytes) -> Result<Option<OsBytes>, FileFail> {
        self.count();
        if path.as_bytes() == self.broken {
            return Err(self.fail());
        }
        self.files.read(alloc, path)
    }

    fn is_file(&mut self, alloc: Global, path: &OsBytes) -> Result<bool, FileFail> {
        self.count();
        self.files.is_file(alloc, path)
    }

    fn is_dir(&mut self, alloc: Global, path: &OsBytes) -> Result<bool, FileFail> {
        self.count();
        self.files.is_dir(alloc, path)
    }

    fn exists(&mut self, alloc: Global, path: &OsBytes) -> Result<bool, FileFail> {
        self.count();
        self.files.exists(alloc, path)
    }

    fn canonical(&mut self, alloc: Global, path: &OsBytes) -> Result<Option<OsBytes>, FileFail> {
        self.count();
        self.files.canonical(alloc, path)
    }

    fn metadata(&mut self, alloc: Global, path: &OsBytes) -> Result<Option<Metadata>, FileFail> {
        self.count();
        self.files.metadata(alloc, path)
    }

    fn failures(&self) -> u64 {
        self.failed
    }
}
