//! The response files that are open while one in another is read.

ghost use Rattle.std.specs.Prelude.{◌≡◌, ◌||◌, ◌&&◌, not, false, Bool, OnOk, OnErr};
ghost use Rattle.std.specs.Str.{bytes_eq};
ghost use Rattle.base_files.specs.Bytes.{Bytes};
ghost use Rattle.cmdlines_response_files.specs.Chains.{is_open};

use base_files::OsBytes;
use std::alloc::{AllocError, Global};
use std::collections::HashSet;

/// The names of the files that are open.
#[derive(Drop)]
pub(crate) struct Chain {
    open: HashSet<OsBytes>,
}

impl Chain {
    /// No file is open.
    pub(crate) fn new(alloc: Global) -> Chain
        ensures { (name : Bytes) → is_open result name ≡ false }
    {
        Chain {
            open: HashSet::new(alloc),
        }
    }

    /// Whether the file of that name is open.
    pub(crate) fn holds(&self, name: &OsBytes) -> bool
        ensures { result ≡ is_open self.now name.now }
    {
        self.open.contains(name)
    }

    /// Opens the file of that name.
    pub(crate) fn open(&mut self, name: &OsBytes) -> Result<(), AllocError>
        ensures opened { OnOk result
            ((other : Bytes)
            → is_open self.new other ≡ (bytes_eq name.now other || is_open self.old other)) }
        ensures unchanged { OnErr result
            ((other : Bytes) → is_open self.new other ≡ is_open self.old other) }
    {
        let name = name.clone()?;
        self.open.insert(name)?;
        Ok(())
    }

    /// Closes it again.
    pub(crate) fn close(&mut self, name: &OsBytes)
        ensures { (other : Bytes)
            → is_open self.new other ≡ (not (bytes_eq name.now other) && is_open self.old other) }
    {
        self.open.remove(name);
    }
}
