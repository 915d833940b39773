//! Whole files in the folder, by kind and name.

use crate::error::CacheDirError;
use cache_disk::{give_rights, make_folders, read_whole};
use std::alloc::Global;
use std::cell::Cell;
use std::fs;
use std::fs::{FileTimes, OpenFile};
use std::rt::Files;
use std::time::SystemTime;

/// What is kept, each kind in a folder of its own.
#[derive(Clone, Copy)]
pub enum Kind {
    /// Outputs under the digest of their key.
    Results,
    /// What a command line had last.
    Hints,
    /// Manifests.
    Manifests,
    /// The digest of a compiler, under that of the state of its files.
    Compilers,
    /// The files of which a compiler's driver says that it runs them.
    Parts,
    /// Of what the key was made of the last call with these outputs that was compiled.
    Fingerprints,
    /// What a compiler says of where it looks for files, under the digest of its words.
    Searches,
}

impl Kind {
    /// All kinds.
    pub const ALL: [Kind; 7] = [
        Kind::Results,
        Kind::Manifests,
        Kind::Fingerprints,
        Kind::Hints,
        Kind::Compilers,
        Kind::Parts,
        Kind::Searches,
    ];

    /// The folder's name.
    pub fn name(self) -> &'static str {
        match self {
            Kind::Results => "results",
            Kind::Hints => "hints",
            Kind::Manifests => "manifests",
            Kind::Compilers => "compilers",
            Kind::Parts => "parts",
            Kind::Fingerprints => "fingerprints",
            Kind::Searches => "searches",
        }
    }
}

/// The folder, as one process uses it.
#[derive(Drop)]
pub struct CacheDir {
    pub path: String,
    /// What makes names of files this process's own.
    pub own: String,
    /// How many bytes all that is kept may take on the disk; 0 is no limit.
    pub limit: u64,
    /// Whether nothing is put here.
    pub is_read_only: bool,
    /// The umask under which files and folders are made here; none is that of the process.
    pub umask: Option<u32>,
    /// Whether this process took files away to hold the limit.
    pub has_made_room: Cell<bool>,
}

/// Where a file lies: under the first two letters of its name.
#[derive(Drop)]
struct Place {
    folder: String,
    file: String,
}

impl CacheDir {
    /// The folder of this path, without a limit.
    pub fn new(path: String, own: String) -> CacheDir {
        CacheDir {
            path,
            own,
            limit: 0,
            is_read_only: false,
            umask: None,
            has_made_room: Cell::new(false),
        }
    }

    fn place(&self, alloc: Global, kind: Kind, name: &str) -> Result<Place, CacheDirError> {
        let Some((front, end)) = name.split_at_checked(2) else {
            return Err(CacheDirError::Unreadable);
        };
        let path = self.path.as_str();
        let kind = kind.name();
        let folder = format!(in alloc; "{path}/{kind}/{front}")?;
        let file = format!(in alloc; "{folder}/{end}")?;
        Ok(Place { folder, file })
    }

    /// Puts bytes in a file all at once: they are written under a name of this process, which is renamed. So whoever reads it has all of
    /// the old bytes or all of the new ones. Where nothing is to be put here nothing is done.
    pub fn put<R: Files + AllocGlobal>(
        &self,
        rt: &R,
        kind: Kind,
        name: &str,
        bytes: &[u8],
    ) -> Result<(), CacheDirError> {
        if self.is_read_only {
            return Ok(());
        }
        let Place { folder, file } = self.place(rt.alloc(), kind, name)?;
        let own = self.own.as_str();
        let early = format!(in rt.alloc(); "{file}.{own}")?;
        make_folders(rt, folder.as_str(), self.umask)?;
        let mut done = fs::write(rt, early.as_str(), bytes);
        if done.is_ok() {
            done = give_rights(rt, early.as_str(), self.umask);
        }
        if done.is_ok() {
            done = fs::rename(rt, early.as_str(), file.as_str());
        }
        if done.is_err() {
            let _ = fs::remove_file(rt, early.as_str());
        }
        Ok(done?)
    }

    /// The bytes of a file. One that is removed while it is read is read to its end.
    pub fn read<R: Files + AllocGlobal>(
        &self,
        rt: &R,
        kind: Kind,
        name: &str,
    ) -> Result<Vec<u8>, CacheDirError> {
        let place = self.place(rt.alloc(), kind, name)?;
        Ok(read_whole(rt, place.file.as_str())?)
    }

    /// Takes a file away, where it is there and anything is to be put here.
    pub fn remove<R: Files + AllocGlobal>(
        &self,
        rt: &R,
        kind: Kind,
        name: &str,
    ) -> Result<(), CacheDirError> {
        if self.is_read_only {
            return Ok(());
        }
        let place = self.place(rt.alloc(), kind, name)?;
        Ok(fs::remove_file(rt, place.file.as_str())?)
    }

    /// Notes that a file was used at that moment, where anything is to be put here.
    pub fn renew<R: Files + AllocGlobal>(
        &self,
        rt: &R,
        kind: Kind,
        name: &str,
        moment: SystemTime,
    ) -> Result<(), CacheDirError> {
        if self.is_read_only {
            return Ok(());
        }
        let place = self.place(rt.alloc(), kind, name)?;
        let file = fs::open(rt, place.file.as_str())?;
        Ok(file.set_times(FileTimes::new().set_modified(moment))?)
    }
}
