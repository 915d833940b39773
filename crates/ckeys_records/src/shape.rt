//! What the hashed bytes of a request don't determine.

ghost use Rattle.ckeys_records.specs.Formats.{ShapeFits, shape_at, shape_bytes, shape_format};

use base_files::Listed;
use base_formats::{Field, ReadFault};
use cmdlines_tables::language::Language;
use std::alloc::{AllocError, Global};

/// The language, how long the digests are, and how many words and variables there are. The text's length is no part of
/// it, so equal texts that came of different ones have equal shapes.
#[derive(Clone, Debug, Drop, PartialEq, Eq, PartialOrd, Ord, Hash)]
pub struct CShape {
    pub language: Language,
    pub compiler_digest: usize,
    pub words: usize,
    pub extra_hashes: Listed<usize>,
    pub assembler_digest: Option<usize>,
    pub variables: usize,
}

/// The language by its byte, the digest's length, the words, the digests of extra files, the assembler's, and the variables.
impl Field for CShape {
    ghost reads = { shape_at };

    ghost spells = { shape_bytes };

    ghost fits = { ShapeFits };

    ghost is_format = { shape_format };

    #[tactic(auto, unfolding(crate::specs::Formats::shape_at, base_formats::specs::Reading::both_at, base_formats::specs::Reading::made_at))]
    fn read(alloc: Global, bytes: &[u8]) -> Result<(CShape, &[u8]), ReadFault> {
        let (language, rest) = Language::read(alloc, bytes)?;
        let (compiler_digest, rest) = usize::read(alloc, rest)?;
        let (words, rest) = usize::read(alloc, rest)?;
        let (extra_hashes, rest) = Listed::<usize>::read(alloc, rest)?;
        let (assembler_digest, rest) = Option::<usize>::read(alloc, rest)?;
        let (variables, rest) = usize::read(alloc, rest)?;
        let shape = CShape {
            language,
            compiler_digest,
            words,
            extra_hashes,
            assembler_digest,
            variables,
        };
        Ok((shape, rest))
    }

    fn put(&self, out: &mut Vec<u8>) -> Result<(), AllocError> {
        self.language.put(out)?;
        self.compiler_digest.put(out)?;
        self.words.put(out)?;
        self.extra_hashes.put(out)?;
        self.assembler_digest.put(out)?;
        self.variables.put(out)?;
        Ok(())
    }
}
