//! The bytes of an entry's fields.

ghost use Rattle.cache_format.specs.ResultFormats.{contents_format, messages_format};
ghost use Rattle.cache_format.specs.Layout.{EntryFits, MessagesFit, contents_at, contents_bytes, messages_at, messages_bytes};

use crate::kept_result::{KeptMessages, KeptResult};
use base_files::{Listed, OsBytes};
use base_formats::{Field, ReadFault};
use ckeys_records::output_name::OutputName;
use ckeys_records::shape::CShape;
use std::alloc::{AllocError, Global};

/// The preprocessor's messages, what the compile printed on its standard output and its standard error, its dependency file, the digest of the
/// sources, and the files beside the object.
impl Field for KeptMessages {
    ghost reads = { messages_at };

    ghost spells = { messages_bytes };

    ghost fits = { MessagesFit };

    ghost is_format = { messages_format };

    #[tactic(auto, unfolding(crate::specs::Layout::messages_at, base_formats::specs::Reading::both_at, base_formats::specs::Reading::made_at))]
    fn read(alloc: Global, bytes: &[u8]) -> Result<(KeptMessages, &[u8]), ReadFault> {
        let (preprocessor, rest) = OsBytes::read(alloc, bytes)?;
        let (printed, rest) = OsBytes::read(alloc, rest)?;
        let (errors, rest) = OsBytes::read(alloc, rest)?;
        let (dependencies, rest) = Option::<OsBytes>::read(alloc, rest)?;
        let (sources, rest) = Option::<OsBytes>::read(alloc, rest)?;
        let (side_files, rest) = Listed::<(OsBytes, OsBytes)>::read(alloc, rest)?;
        let messages = KeptMessages {
            preprocessor,
            printed,
            errors,
            dependencies,
            sources,
            side_files,
        };
        Ok((messages, rest))
    }

    fn put(&self, out: &mut Vec<u8>) -> Result<(), AllocError> {
        self.preprocessor.put(out)?;
        self.printed.put(out)?;
        self.errors.put(out)?;
        self.dependencies.put(out)?;
        self.sources.put(out)?;
        self.side_files.put(out)?;
        Ok(())
    }
}

/// The shape, the names, the digest, the outputs and what was printed.
impl Field for KeptResult {
    ghost reads = { contents_at };

    ghost spells = { contents_bytes };

    ghost fits = { EntryFits };

    ghost is_format = { contents_format };

    #[tactic(auto, unfolding(crate::specs::Layout::contents_at, base_formats::specs::Reading::both_at, base_formats::specs::Reading::made_at))]
    fn read(alloc: Global, bytes: &[u8]) -> Result<(KeptResult, &[u8]), ReadFault> {
        let (shape, rest) = CShape::read(alloc, bytes)?;
        let (names, rest) = Listed::<OutputName>::read(alloc, rest)?;
        let (digest, rest) = OsBytes::read(alloc, rest)?;
        let (outputs, rest) = Listed::<(OsBytes, OsBytes)>::read(alloc, rest)?;
        let (messages, rest) = KeptMessages::read(alloc, rest)?;
        let entry = KeptResult {
            shape,
            names,
            digest,
            outputs,
            messages,
        };
        Ok((entry, rest))
    }

    fn put(&self, out: &mut Vec<u8>) -> Result<(), AllocError> {
        self.shape.put(out)?;
        self.names.put(out)?;
        self.digest.put(out)?;
        self.outputs.put(out)?;
        self.messages.put(out)?;
        Ok(())
    }
}
