//! The names of outputs.

ghost use Rattle.ckeys_records.specs.Formats.{NameFits, name_at, name_bytes, name_format};

use base_files::OsBytes;
use base_formats::{Field, ReadFault};
use std::alloc::{AllocError, Global};

/// An output that is asked for: its name, and whether a compile may leave it out.
#[derive(Clone, Debug, Drop, PartialEq, Eq, PartialOrd, Ord, Hash)]
pub struct OutputName {
    pub name: OsBytes,
    pub optional: bool,
}

/// The name, and the mark.
impl Field for OutputName {
    ghost reads = { name_at };

    ghost spells = { name_bytes };

    ghost fits = { NameFits };

    ghost is_format = { name_format };

    #[tactic(auto, unfolding(crate::specs::Formats::name_at, base_formats::specs::Reading::both_at, base_formats::specs::Reading::made_at))]
    fn read(alloc: Global, bytes: &[u8]) -> Result<(OutputName, &[u8]), ReadFault> {
        let (name, rest) = OsBytes::read(alloc, bytes)?;
        let (optional, rest) = bool::read(alloc, rest)?;
        Ok((OutputName { name, optional }, rest))
    }

    fn put(&self, out: &mut Vec<u8>) -> Result<(), AllocError> {
        self.name.put(out)?;
        self.optional.put(out)
    }
}
