//! What the scripted rustc reports of a crate.

ghost use Rattle.std.specs.Prelude.{◌≡◌, [], IfOk};
ghost use Rattle.sccache_script_tool.specs.ScriptedCrates.{digest_in};

use base_files::OsBytes;
use std::alloc::{AllocError, Global};
use std::collections::BTreeMap;

/// What rustc reports, whatever its command.
#[derive(Drop)]
pub struct CrateTexts {
    /// What the crate depends on.
    pub dep_info: OsBytes,
    /// The names of what it writes, a line each.
    pub file_names: OsBytes,
    /// Static libraries by their paths, each with its digest.
    pub archives: BTreeMap<OsBytes, OsBytes>,
}

impl CrateTexts {
    /// Empty texts, and no static library. It takes no memory.
    pub fn empty(alloc: Global) -> CrateTexts
        ensures dep_info { result.dep_info ≡ [] }
        ensures file_names { result.file_names ≡ [] }
        ensures archives { result.archives.entries ≡ [] }
    {
        CrateTexts {
            dep_info: OsBytes::empty(alloc),
            file_names: OsBytes::empty(alloc),
            archives: BTreeMap::new(alloc),
        }
    }

    /// The digest of the static library of this path: the empty text where none is given.
    pub(crate) fn digest_of(&self, alloc: Global, path: &OsBytes) -> Result<OsBytes, AllocError>
        ensures { IfOk result (λ digest. digest ≡ digest_in self.now path.now) }
    {
        match self.archives.get(path) {
            Some(digest) => digest.clone(),
            None => Ok(OsBytes::empty(alloc)),
        }
    }
}
