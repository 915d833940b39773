//! A language as one byte, in which the cache keeps it.

ghost use Rattle.std.specs.Prelude.{◌≡◌};
ghost use Rattle.base_formats.specs.Choices.{AnyFits, coded, coded_at};
ghost use Rattle.cmdlines_tables.specs.LanguageBytes.{language_code, language_format, language_of};

use crate::language::Language;
use base_formats::{Field, ReadFault};
use std::alloc::{AllocError, Global};

fn language_of(byte: u8) -> Option<Language>
    ensures { result ≡ language_of byte }
{
    match byte {
        0 => Some(Language::C),
        1 => Some(Language::Cxx),
        2 => Some(Language::CPreprocessed),
        3 => Some(Language::CxxPreprocessed),
        4 => Some(Language::Assembler),
        5 => Some(Language::AssemblerToPreprocess),
        6 => Some(Language::Rust),
        _ => None,
    }
}

fn language_code(language: Language) -> u8
    ensures { result ≡ language_code language }
{
    match language {
        Language::C => 0,
        Language::Cxx => 1,
        Language::CPreprocessed => 2,
        Language::CxxPreprocessed => 3,
        Language::Assembler => 4,
        Language::AssemblerToPreprocess => 5,
        Language::Rust => 6,
    }
}

impl Field for Language {
    ghost reads = { coded_at language_of };

    ghost spells = { coded language_code };

    ghost fits = { AnyFits };

    ghost is_format = { language_format };

    #[tactic(auto, unfolding(base_formats::specs::Choices::coded_at))]
    fn read(_alloc: Global, bytes: &[u8]) -> Result<(Language, &[u8]), ReadFault> {
        let Some((byte, rest)) = bytes.split_first() else {
            return Err(ReadFault::Unfit);
        };
        match language_of(*byte) {
            Some(language) => Ok((language, rest)),
            None => Err(ReadFault::Unfit),
        }
    }

    fn put(&self, out: &mut Vec<u8>) -> Result<(), AllocError> {
        Ok(out.push(language_code(*self))?)
    }
}
