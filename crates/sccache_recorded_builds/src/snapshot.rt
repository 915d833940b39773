//! Files in memory that note which ones are asked for and aren't known, so that these can be fetched.

ghost use Rattle.std.specs.Prelude.{◌≡◌};

use base_files::{FileFail, Files, MemoryFiles, Metadata, OsBytes};
use std::alloc::{AllocError, Global};

/// Files, with the names of those that were asked for and aren't there.
#[derive(Drop)]
pub struct Asked {
    pub files: MemoryFiles,
    /// Those whose contents were asked for.
    pub read: Vec<OsBytes>,
    /// Those of which it was asked whether they are there.
    pub looked_for: Vec<OsBytes>,
}

impl Asked {
    pub fn new(alloc: Global) -> Asked {
        Asked {
            files: MemoryFiles::new(alloc),
            read: Vec::new(alloc),
            looked_for: Vec::new(alloc),
        }
    }

    /// Forgets what was noted.
    pub fn forget(&mut self)
        ensures { self.new.files ≡ self.old.files }
    {
        self.read.clear();
        self.looked_for.clear();
    }

    /// Notes that the contents of this file were asked for.
    fn note_read(&mut self, path: &OsBytes) -> Result<(), AllocError>
        ensures { self.new.files ≡ self.old.files }
    {
        self.read.push(path.clone()?)?;
        Ok(())
    }

    /// Notes that it was asked whether this file is there, where it isn't.
    fn note(&mut self, is_there: bool, path: &OsBytes) -> Result<(), AllocError>
        ensures { self.new.files ≡ self.old.files }
    {
        if !is_there {
            self.looked_for.push(path.clone()?)?;
        }
        Ok(())
    }
}

impl Files for Asked {
    ghost tree = { λ asked. asked.files };

    ghost failed = { λ _. 0 };

    ghost fails_on = { λ _ _ _. ⊥ };

    fn read(&mut self, alloc: Global, path: &OsBytes) -> Result<Option<OsBytes>, FileFail> {
        let found = self.files.read(alloc, path)?;
        if found.is_none() {
            self.note_read(path)?;
        }
        Ok(found)
    }

    fn is_file(&mut self, alloc: Global, path: &OsBytes) -> Result<bool, FileFail> {
        let found = self.files.is_file(alloc, path)?;
        self.note(found, path)?;
        Ok(found)
    }

    fn is_dir(&mut self, alloc: Global, path: &OsBytes) -> Result<bool, FileFail> {
        self.files.is_dir(alloc, path)
    }

    fn exists(&mut self, alloc: Global, path: &OsBytes) -> Result<bool, FileFail> {
        let found = self.files.exists(alloc, path)?;
        self.note(found, path)?;
        Ok(found)
    }

    fn canonical(&mut self, alloc: Global, path: &OsBytes) -> Result<Option<OsBytes>, FileFail> {
        self.files.canonical(alloc, path)
    }

    fn metadata(&mut self, alloc: Global, path: &OsBytes) -> Result<Option<Metadata>, FileFail> {
        self.files.metadata(alloc, path)
    }

    fn failures(&self) -> u64 {
        0
    }
}
