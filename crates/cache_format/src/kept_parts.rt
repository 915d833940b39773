//! Of what the key of a call was made that was compiled, and what differed from the one before it.

ghost use Rattle.cache_format.specs.KeptParts.{PartsFit, fields_at, fields_bytes, fields_format};

use base_files::{Listed, OsBytes};
use base_formats::{Field, ReadFault};
use ckeys_records::output_name::OutputName;
use cmdlines_tables::language::Language;
use std::alloc::{AllocError, Global};

/// The parts of a request to a C compiler, with its text in short. Digests are texts.
#[derive(Drop)]
pub struct KeptParts {
    pub compiler: OsBytes,
    pub plusplus: bool,
    pub language: Language,
    pub words: Listed<OsBytes>,
    /// Those that count, each by its name and its value.
    pub variables: Listed<(OsBytes, OsBytes)>,
    pub extra_hashes: Listed<OsBytes>,
    pub assembler: Option<OsBytes>,
    /// A line for each file of the text.
    pub text: OsBytes,
    pub names: Listed<OutputName>,
    /// What differed from the call before it; nothing where none was known.
    pub difference: OsBytes,
}

/// The parts in the order in which they are compared, and what differed.
impl Field for KeptParts {
    ghost reads = { fields_at };

    ghost spells = { fields_bytes };

    ghost fits = { PartsFit };

    ghost is_format = { fields_format };

    #[tactic(auto, unfolding(crate::specs::KeptParts::fields_at, base_formats::specs::Reading::both_at, base_formats::specs::Reading::made_at))]
    fn read(alloc: Global, bytes: &[u8]) -> Result<(KeptParts, &[u8]), ReadFault> {
        let (compiler, rest) = OsBytes::read(alloc, bytes)?;
        let (plusplus, rest) = bool::read(alloc, rest)?;
        let (language, rest) = Language::read(alloc, rest)?;
        let (words, rest) = Listed::<OsBytes>::read(alloc, rest)?;
        let (variables, rest) = Listed::<(OsBytes, OsBytes)>::read(alloc, rest)?;
        let (extra_hashes, rest) = Listed::<OsBytes>::read(alloc, rest)?;
        let (assembler, rest) = Option::<OsBytes>::read(alloc, rest)?;
        let (text, rest) = OsBytes::read(alloc, rest)?;
        let (names, rest) = Listed::<OutputName>::read(alloc, rest)?;
        let (difference, rest) = OsBytes::read(alloc, rest)?;
        let parts = KeptParts {
            compiler,
            plusplus,
            language,
            words,
            variables,
            extra_hashes,
            assembler,
            text,
            names,
            difference,
        };
        Ok((parts, rest))
    }

    fn put(&self, out: &mut Vec<u8>) -> Result<(), AllocError> {
        self.compiler.put(out)?;
        self.plusplus.put(out)?;
        self.language.put(out)?;
        self.words.put(out)?;
        self.variables.put(out)?;
        self.extra_hashes.put(out)?;
        self.assembler.put(out)?;
        self.text.put(out)?;
        self.names.put(out)?;
        self.difference.put(out)?;
        Ok(())
    }
}
