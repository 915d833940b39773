//! Files in memory.

ghost use Rattle.std.specs.Prelude.{◌≡◌, [], length, OnOk, OnErr, Some, if◌then◌else◌};
ghost use Rattle.std.specs.Option.{option_map, option_copied};
ghost use Rattle.std.specs.Str.{bytes_eq};
ghost use Rattle.base_files.specs.Bytes.{Bytes};
ghost use Rattle.base_files.specs.Tree.{node_at};
ghost use Rattle.base_files.specs.MemoryTree.{metadata_of, node_of, with_file};

use crate::file_time::FileTime;
use crate::files::{FileFail, Files, Metadata};
use crate::os_bytes::OsBytes;
use std::alloc::{AllocError, Global};
use std::collections::BTreeMap;
use std::marker::Model;

/// A regular file, which is its own canonical name.
#[derive(Drop)]
pub struct MemoryFile {
    pub contents: OsBytes,
    /// When its contents were last changed, and it itself too.
    pub mtime: FileTime,
}

impl MemoryFile {
    /// Its size, and its one time for both.
    pub fn metadata(&self) -> Metadata
        ensures { result ≡ metadata_of self.now }
    {
        Metadata {
            size: self.contents.as_bytes().len() as u64,
            mtime: self.mtime,
            ctime: self.mtime,
        }
    }
}

/// Regular files by their names, with no folders. Contracts see the tree of them, in the order of names.
#[derive(Drop)]
pub struct MemoryFiles {
    files: BTreeMap<OsBytes, MemoryFile>,
}

impl Model for MemoryFiles {
    ghost use Rattle.base_files.specs.Tree.{Tree};

    ghost Value = { Tree };

    ghost use Rattle.base_files.specs.MemoryTree.{tree_of};

    ghost view = { λ a. tree_of a.files.entries };
}

impl MemoryFiles {
    /// No files. It takes no memory.
    pub fn new(alloc: Global) -> MemoryFiles
        ensures { result ≡ [] }
    {
        MemoryFiles {
            files: BTreeMap::new(alloc),
        }
    }

    /// Keeps this file under this name, in the place of what the name had.
    pub fn insert(&mut self, path: OsBytes, file: MemoryFile) -> Result<(), AllocError>
        ensures ok { OnOk result (self.new ≡ with_file self.old path file) }
        ensures found { OnOk result
            ((name : Bytes)
            → node_at self.new name
            ≡ (if bytes_eq path name then Some (node_of path file) else node_at self.old name)) }
        ensures err { OnErr result (self.new ≡ self.old) }
    {
        self.files.insert(path, file)?;
        Ok(())
    }

    /// How many files there are.
    pub fn len(&self) -> usize
        ensures { result ≡ length self.now }
    {
        self.files.len()
    }

    /// The file of this name.
    fn find(&self, path: &OsBytes) -> Option<&MemoryFile>
        ensures { node_at self.now path.now ≡ option_map (node_of path.now) (option_copied result) }
    {
        self.files.get(path)
    }
}

impl Files for MemoryFiles {
    ghost tree = { λ files. files };

    ghost failed = { λ _. 0 };

    ghost fails_on = { λ _ _ _. ⊥ };

    fn read(&mut self, _alloc: Global, path: &OsBytes) -> Result<Option<OsBytes>, FileFail> {
        match self.find(path) {
            Some(file) => Ok(Some(file.contents.clone()?)),
            None => Ok(None),
        }
    }

    fn is_file(&mut self, _alloc: Global, path: &OsBytes) -> Result<bool, FileFail> {
        Ok(self.find(path).is_some())
    }

    fn is_dir(&mut self, _alloc: Global, _path: &OsBytes) -> Result<bool, FileFail> {
        // The proof sees by this use that `self` is a tree of regular files.
        let _files = &self.files;
        Ok(false)
    }

    fn exists(&mut self, _alloc: Global, path: &OsBytes) -> Result<bool, FileFail> {
        Ok(self.find(path).is_some())
    }

    fn canonical(&mut self, _alloc: Global, path: &OsBytes) -> Result<Option<OsBytes>, FileFail> {
        match self.find(path) {
            Some(_) => Ok(Some(path.clone()?)),
            None => Ok(None),
        }
    }

    fn metadata(&mut self, _alloc: Global, path: &OsBytes) -> Result<Option<Metadata>, FileFail> {
        match self.find(path) {
            Some(file) => Ok(Some(file.metadata())),
            None => Ok(None),
        }
    }

    fn failures(&self) -> u64 {
        0
    }
}
