//! The files of a call.

ghost use Rattle.std.specs.Prelude.{◌≡◌, ℕ, IfOk, IsErrOf};
ghost use Rattle.base_files.specs.Bytes.{Bytes, ticked};
ghost use Rattle.base_files.specs.Tree.{Tree, contents_at, is_file_at, is_dir_at, exists_at, canonical_at, metadata_at};

use crate::file_time::FileTime;
use crate::os_bytes::OsBytes;
use std::alloc::{AllocError, Global};
use thiserror::Error;

/// Why files gave no answer.
#[derive(Clone, Copy, Debug, Error, PartialEq, Eq)]
pub enum FileFail {
    /// No memory was left.
    #[error("no memory was left")]
    Memory,
    /// An I/O error, which the failure tick counts.
    #[error("a device of files failed")]
    Device,
}

impl From<AllocError> for FileFail {
    ghost from_gives = { λ _ f. f ≡ Memory };

    ghost use Rattle.std.specs.Prelude.{◌≡◌};
    ghost use Rattle.base_files.specs.declared.files.FileFail.TheVariants.{Memory};

    fn from(_error: AllocError) -> Self {
        FileFail::Memory
    }
}

/// What is known of a file or a folder beside its name and contents.
#[derive(Clone, Copy, Debug, PartialEq, Eq)]
pub struct Metadata {
    /// How many bytes it holds.
    pub size: u64,
    /// When its contents were last changed.
    pub mtime: FileTime,
    /// When it itself was last changed.
    pub ctime: FileTime,
}

/// One fixed finite map from names, compared by their bytes, to regular files and folders. No call changes it.
pub trait Files {
    /// The map.
    ghost tree: { Self → Tree };

    /// The number of I/O errors so far, modulo 2 ^ 64: the failure tick.
    ghost failed: { Self → ℕ };

    /// A call on that name that returned `Device` led from the one state to the other.
    ghost fails_on: { Self → Bytes → Self → Type 0 };

    /// The contents of a regular file, and `None` where nothing regular is there.
    fn read(&mut self, alloc: Global, path: &OsBytes) -> Result<Option<OsBytes>, FileFail>
        ensures answer { IfOk result (λ found. found ≡ contents_at (tree self.old) path.now) }
        ensures tree { tree self.new ≡ tree self.old }
        ensures device { IsErrOf result FileFail.Device
            → (failed self.new ≡ ticked (failed self.old)) × fails_on self.old path.now self.new }
        ensures steady { (IsErrOf result FileFail.Device → ⊥) → failed self.new ≡ failed self.old };

    /// Whether a regular file is there.
    fn is_file(&mut self, alloc: Global, path: &OsBytes) -> Result<bool, FileFail>
        ensures answer { IfOk result (λ found. found ≡ is_file_at (tree self.old) path.now) }
        ensures tree { tree self.new ≡ tree self.old }
        ensures device { IsErrOf result FileFail.Device
            → (failed self.new ≡ ticked (failed self.old)) × fails_on self.old path.now self.new }
        ensures steady { (IsErrOf result FileFail.Device → ⊥) → failed self.new ≡ failed self.old };

    /// Whether a folder is there.
    fn is_dir(&mut self, alloc: Global, path: &OsBytes) -> Result<bool, FileFail>
        ensures answer { IfOk result (λ found. found ≡ is_dir_at (tree self.old) path.now) }
        ensures tree { tree self.new ≡ tree self.old }
        ensures device { IsErrOf result FileFail.Device
            → (failed self.new ≡ ticked (failed self.old)) × fails_on self.old path.now self.new }
        ensures steady { (IsErrOf result FileFail.Device → ⊥) → failed self.new ≡ failed self.old };

    /// Whether anything is there.
    fn exists(&mut self, alloc: Global, path: &OsBytes) -> Result<bool, FileFail>
        ensures answer { IfOk result (λ found. found ≡ exists_at (tree self.old) path.now) }
        ensures tree { tree self.new ≡ tree self.old }
        ensures device { IsErrOf result FileFail.Device
            → (failed self.new ≡ ticked (failed self.old)) × fails_on self.old path.now self.new }
        ensures steady { (IsErrOf result FileFail.Device → ⊥) → failed self.new ≡ failed self.old };

    /// The canonical name of what is there, and `None` where nothing is.
    fn canonical(&mut self, alloc: Global, path: &OsBytes) -> Result<Option<OsBytes>, FileFail>
        ensures answer { IfOk result (λ found. found ≡ canonical_at (tree self.old) path.now) }
        ensures tree { tree self.new ≡ tree self.old }
        ensures device { IsErrOf result FileFail.Device
            → (failed self.new ≡ ticked (failed self.old)) × fails_on self.old path.now self.new }
        ensures steady { (IsErrOf result FileFail.Device → ⊥) → failed self.new ≡ failed self.old };

    /// The metadata of what is there, and `None` where nothing is.
    fn metadata(&mut self, alloc: Global, path: &OsBytes) -> Result<Option<Metadata>, FileFail>
        ensures answer { IfOk result (λ found. found ≡ metadata_at (tree self.old) path.now) }
        ensures tree { tree self.new ≡ tree self.old }
        ensures device { IsErrOf result FileFail.Device
            → (failed self.new ≡ ticked (failed self.old)) × fails_on self.old path.now self.new }
        ensures steady { (IsErrOf result FileFail.Device → ⊥) → failed self.new ≡ failed self.old };

    /// The failure tick.
    fn failures(&self) -> u64
        ensures { result ≡ failed self.now };
}
