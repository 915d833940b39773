//! What a compile of rustc made.

ghost use Rattle.cache_format.specs.KeptCrates.{CrateFits, crate_at, crate_bytes, crate_format};

use base_files::{Listed, OsBytes};
use base_formats::{Field, ReadFault};
use std::alloc::{AllocError, Global};

/// What rustc made of a crate, and printed beside it.
#[derive(Drop)]
pub struct KeptCrate {
    /// The digest of its whole key.
    pub key: OsBytes,
    /// The folder of its outputs, as it was written: messages name it.
    pub folder: OsBytes,
    /// For how wide a terminal diagnostics were written; empty where there are none.
    pub width: OsBytes,
    /// What was printed on standard error.
    pub errors: OsBytes,
    /// The outputs that were made, each by its name and its contents.
    pub outputs: Listed<(OsBytes, OsBytes)>,
}

/// The digest of the key, the folder, the width, the messages and the outputs.
impl Field for KeptCrate {
    ghost reads = { crate_at };

    ghost spells = { crate_bytes };

    ghost fits = { CrateFits };

    ghost is_format = { crate_format };

    #[tactic(auto, unfolding(crate::specs::KeptCrates::crate_at, base_formats::specs::Reading::both_at, base_formats::specs::Reading::made_at))]
    fn read(alloc: Global, bytes: &[u8]) -> Result<(KeptCrate, &[u8]), ReadFault> {
        let (key, rest) = OsBytes::read(alloc, bytes)?;
        let (folder, rest) = OsBytes::read(alloc, rest)?;
        let (width, rest) = OsBytes::read(alloc, rest)?;
        let (errors, rest) = OsBytes::read(alloc, rest)?;
        let (outputs, rest) = Listed::<(OsBytes, OsBytes)>::read(alloc, rest)?;
        let kept = KeptCrate {
            key,
            folder,
            width,
            errors,
            outputs,
        };
        Ok((kept, rest))
    }

    fn put(&self, out: &mut Vec<u8>) -> Result<(), AllocError> {
        self.key.put(out)?;
        self.folder.put(out)?;
        self.width.put(out)?;
        self.errors.put(out)?;
        self.outputs.put(out)?;
        Ok(())
    }
}
