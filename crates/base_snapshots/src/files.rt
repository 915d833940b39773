//! Files that are loaded as they are asked for.

ghost use Rattle.std.specs.Prelude.{◌≡◌, ◌||◌, false, [], None, Some, OnOk, OnErr, IsErrOf, if◌then◌else◌};
ghost use Rattle.std.specs.Option.{option_copied, option_map};
ghost use Rattle.std.specs.Str.{bytes_eq};
ghost use Rattle.base_files.specs.Bytes.{Bytes, ticked};
ghost use Rattle.base_files.specs.Tree.{node_at};
ghost use Rattle.base_snapshots.specs.Known.{KnowsAlike, is_known};
ghost use Rattle.base_snapshots.specs.Snapshots.{node_of, tree_of};

use base_files::{FileFail, Files, Metadata, OsBytes};
use std::alloc::{AllocError, Global};
use std::collections::BTreeMap;

/// What was found under a name: a regular file with its contents, or a folder.
#[derive(Drop)]
pub struct LoadedFile {
    pub contents: Option<OsBytes>,
    pub canonical: OsBytes,
    pub metadata: Metadata,
}

/// The files that were loaded, the names that were loaded as absent, and the last name that was asked for and wasn't loaded.
#[derive(Drop)]
pub struct SnapshotFiles {
    loaded: BTreeMap<OsBytes, LoadedFile>,
    absent: BTreeMap<OsBytes, ()>,
    wanted: Option<OsBytes>,
    failed: u64,
}

impl SnapshotFiles {
    /// No files are loaded. It takes no memory.
    pub fn new(alloc: Global) -> SnapshotFiles
        ensures tree { tree_of result.loaded.entries ≡ [] }
        ensures wanted { result.wanted ≡ None }
    {
        SnapshotFiles {
            loaded: BTreeMap::new(alloc),
            absent: BTreeMap::new(alloc),
            wanted: None,
            failed: 0,
        }
    }

    /// The last name that was asked for and wasn't loaded.
    pub fn wanted(&self) -> Option<&OsBytes>
        ensures { option_copied result ≡ self.now.wanted }
    {
        self.wanted.as_ref()
    }

    /// Loads what was found under a name, in the place of what was loaded of it.
    pub fn load(&mut self, path: OsBytes, file: LoadedFile) -> Result<(), AllocError>
        ensures found { OnOk result
            ((name : Bytes)
            → node_at (tree_of self.new.loaded.entries) name
            ≡ (if bytes_eq path name then Some (node_of file)
            else node_at (tree_of self.old.loaded.entries) name)) }
        ensures known { OnOk result
            ((name : Bytes)
            → is_known self.new name ≡ (bytes_eq path name || is_known self.old name)) }
        ensures err { OnErr result
            (tree_of self.new.loaded.entries ≡ tree_of self.old.loaded.entries) }
    {
        self.loaded.insert(path, file)?;
        Ok(())
    }

    /// Loads a name under which nothing was found. A file that was loaded under it stays.
    pub fn load_absent(&mut self, path: OsBytes) -> Result<(), AllocError>
        ensures tree { tree_of self.new.loaded.entries ≡ tree_of self.old.loaded.entries }
        ensures known { OnOk result
            ((name : Bytes)
            → is_known self.new name ≡ (bytes_eq path name || is_known self.old name)) }
    {
        self.absent.insert(path, ())?;
        Ok(())
    }

    /// The file of this name, where it is loaded.
    fn find(&self, path: &OsBytes) -> Option<&LoadedFile>
        ensures { node_at (tree_of self.now.loaded.entries) path.now
            ≡ option_map node_of (option_copied result) }
    {
        self.loaded.get(path)
    }

    /// Remembers the name, and fails.
    fn want(&mut self, path: &OsBytes) -> FileFail
        ensures loaded { self.new.loaded ≡ self.old.loaded }
        ensures absent { self.new.absent ≡ self.old.absent }
        ensures device { result ≡ FileFail.Device
            → (self.new.failed ≡ ticked self.old.failed) × (self.new.wanted ≡ Some path.now) }
        ensures memory { result ≡ FileFail.Memory → self.new.failed ≡ self.old.failed }
    {
        match path.clone() {
            Ok(name) => {
                self.wanted = Some(name);
                self.failed = self.failed.wrapping_add(1);
                FileFail::Device
            }
            Err(_) => FileFail::Memory,
        }
    }

    /// Fails where the name isn't loaded.
    fn look_for(&mut self, path: &OsBytes) -> Result<(), FileFail>
        ensures loaded { self.new.loaded ≡ self.old.loaded }
        ensures absent { self.new.absent ≡ self.old.absent }
        ensures unknown { IsErrOf result FileFail.Device → is_known self.old path.now ≡ false }
        ensures device { IsErrOf result FileFail.Device
            → (self.new.failed ≡ ticked self.old.failed) × (self.new.wanted ≡ Some path.now) }
        ensures steady { (IsErrOf result FileFail.Device → ⊥) → self.new.failed ≡ self.old.failed }
    {
        if self.loaded.contains_key(path) || self.absent.contains_key(path) {
            return Ok(());
        }
        Err(self.want(path))
    }
}

impl Files for SnapshotFiles {
    ghost tree = { λ files. tree_of files.loaded.entries };

    ghost failed = { λ files. files.failed };

    /// The name is remembered. Nothing was loaded of it, and what is loaded stays.
    ghost fails_on = { λ old path new. (new.wanted ≡ Some path) × (is_known old path ≡ false)
        × KnowsAlike old new };

    fn read(&mut self, _alloc: Global, path: &OsBytes) -> Result<Option<OsBytes>, FileFail> {
        self.look_for(path)?;
        match self.find(path) {
            Some(file) => match &file.contents {
                Some(contents) => Ok(Some(contents.clone()?)),
                None => Ok(None),
            },
            None => Ok(None),
        }
    }

    fn is_file(&mut self, _alloc: Global, path: &OsBytes) -> Result<bool, FileFail> {
        self.look_for(path)?;
        match self.find(path) {
            Some(file) => Ok(file.contents.is_some()),
            None => Ok(false),
        }
    }

    fn is_dir(&mut self, _alloc: Global, path: &OsBytes) -> Result<bool, FileFail> {
        self.look_for(path)?;
        match self.find(path) {
            Some(file) => Ok(file.contents.is_none()),
            None => Ok(false),
        }
    }

    fn exists(&mut self, _alloc: Global, path: &OsBytes) -> Result<bool, FileFail> {
        self.look_for(path)?;
        Ok(self.find(path).is_some())
    }

    fn canonical(&mut self, _alloc: Global, path: &OsBytes) -> Result<Option<OsBytes>, FileFail> {
        self.look_for(path)?;
        match self.find(path) {
            Some(file) => Ok(Some(file.canonical.clone()?)),
            None => Ok(None),
        }
    }

    fn metadata(&mut self, _alloc: Global, path: &OsBytes) -> Result<Option<Metadata>, FileFail> {
        self.look_for(path)?;
        match self.find(path) {
            Some(file) => Ok(Some(file.metadata)),
            None => Ok(None),
        }
    }

    fn failures(&self) -> u64 {
        self.failed
    }
}
