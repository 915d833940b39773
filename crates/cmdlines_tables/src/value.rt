//! The values of a C compiler's arguments: what the option is for, and its word.

ghost use Rattle.std.specs.Prelude.{◌≡◌};
ghost use Rattle.cmdlines_tables.specs.Values.{kind_in, word_in};

use crate::kind::ArgKind;
use base_files::OsBytes;
use cmdlines_base::{ArgParseResult, ArgToStringResult, ArgumentValue, IntoArg, word_to_string};
use std::alloc::{AllocError, Global};

/// The value of an argument: its kind, and its word where it takes one.
#[derive(Clone, Debug, Drop, PartialEq, Eq)]
pub enum ArgData {
    Flag(ArgKind),
    Value(ArgKind, OsBytes),
}

impl IntoArg for ArgData {
    ghost use Rattle.std.specs.Prelude.{None};
    ghost use Rattle.cmdlines_tables.specs.Values.{word_in};

    ghost word = { word_in };

    ghost path = { λ _. None };

    fn into_arg_os_string(&self, alloc: Global) -> Result<OsBytes, AllocError> {
        OsBytes::from_slice(alloc, self.word())
    }

    fn lent_word(&self) -> Option<&[u8]> {
        Some(self.word())
    }

    fn into_arg_string<F: FnMut(&[u8]) -> Option<String>>(
        &self,
        alloc: Global,
        _path_transformer: &mut F,
    ) -> ArgToStringResult {
        word_to_string(alloc, self.word())
    }
}

impl ArgumentValue for ArgData {
    ghost use Rattle.std.proofs.Common.{ap};
    ghost use Rattle.std.specs.Prelude.{◌≡◌, true};
    ghost use Rattle.cmdlines_tables.specs.Values.{word_in, IsFlag, IsValue, never};

    type Kind = ArgKind;

    ghost flag_value = { IsFlag };

    ghost word_value = { IsValue };

    ghost refusal = { never };

    ghost gives_back = { λ _. true };

    ghost prints_what_it_reads = { λ _ _ _ _ is. ap word_in is };

    fn of_flag(_alloc: Global, kind: ArgKind) -> ArgData {
        Self::Flag(kind)
    }

    fn of_word(alloc: Global, kind: ArgKind, word: &[u8]) -> ArgParseResult<ArgData> {
        Ok(ArgData::Value(kind, OsBytes::from_slice(alloc, word)?))
    }
}

impl ArgData {
    pub fn kind(&self) -> ArgKind
        ensures { result ≡ kind_in self.now }
    {
        match self {
            ArgData::Flag(kind) | ArgData::Value(kind, _) => *kind,
        }
    }

    /// The word, which is empty where there is none.
    pub fn word(&self) -> &[u8]
        ensures { result.now ≡ word_in self.now }
    {
        match self {
            ArgData::Flag(_) => &[],
            ArgData::Value(_, word) => word.as_bytes(),
        }
    }
}
