//! Arguments: the pieces of a command line, with values of a caller's type.

ghost use Rattle.std.specs.Prelude.{◌≡◌, false, IfOk};
ghost use Rattle.std.specs.Option.{option_copied};
ghost use Rattle.cmdlines_base.specs.Printing.{normalized_disposition};
ghost use Rattle.cmdlines_base.specs.declared.argument.NormalizedDisposition.{NormalizedDisposition};
ghost use Rattle.cmdlines_base.specs.Pieces.{normalized, stands_either_way, leading_word, flag_in, data_in};

use base_files::OsBytes;
use std::alloc::{AllocError, Global};

/// The byte between a flag and its value, where one is wanted.
pub type Delimiter = Option<u8>;

/// How the value of a flag is placed in the words.
#[derive(Clone, Copy, Debug, PartialEq, Eq)]
pub enum ArgDisposition {
    /// In the next word.
    Separated,
    /// In the next word or joined; in a parsed argument: it was in the next word.
    CanBeConcatenated(Delimiter),
    /// Joined or in the next word; in a parsed argument: it was joined.
    CanBeSeparated(Delimiter),
    /// In the flag's own word, after the delimiter.
    Concatenated(Delimiter),
}

/// How a value that may be joined or separate is to be placed.
#[derive(Clone, Copy, Debug, PartialEq, Eq)]
pub enum NormalizedDisposition {
    Separated,
    Concatenated,
}

/// A piece of a command line.
#[derive(Clone, Debug, Drop, PartialEq, Eq)]
pub enum Argument<T> {
    /// A word that nothing fits and that doesn't begin with `-`.
    Raw(OsBytes),
    /// A word that nothing fits and that begins with `-`.
    UnknownFlag(OsBytes),
    /// A flag without a value.
    Flag(&'static str, T),
    /// A flag with its value, and how the two were placed in the words.
    WithValue(&'static str, T, ArgDisposition),
}

impl ArgDisposition {
    /// This disposition, or where it allows both ways, the one that is wanted.
    fn normalize(self, wanted: NormalizedDisposition) -> ArgDisposition
        ensures { result ≡ normalized_disposition wanted self }
    {
        match (self, wanted) {
            (
                ArgDisposition::CanBeConcatenated(_) | ArgDisposition::CanBeSeparated(_),
                NormalizedDisposition::Separated,
            ) => ArgDisposition::Separated,
            (
                ArgDisposition::CanBeConcatenated(delimiter)
                | ArgDisposition::CanBeSeparated(delimiter),
                NormalizedDisposition::Concatenated,
            ) => ArgDisposition::Concatenated(delimiter),
            (settled, _) => settled,
        }
    }
}

impl<T> Argument<T> {
    /// The same flag and value; a disposition that allows both ways becomes the one that is wanted. It takes no memory.
    pub fn normalize(self, disposition: NormalizedDisposition) -> Argument<T>
        ensures normalized { result ≡ normalized disposition self }
        ensures flag { flag_in result ≡ flag_in self }
        ensures value { data_in result ≡ data_in self }
        ensures settled { stands_either_way self ≡ false → result ≡ self }
        ensures again { (later : NormalizedDisposition) → normalized later result ≡ result }
    {
        match self {
            Argument::WithValue(flag, value, read) => {
                Argument::WithValue(flag, value, read.normalize(disposition))
            }
            settled => settled,
        }
    }

    /// The word, or the flag alone.
    pub fn to_os_string(&self, alloc: Global) -> Result<OsBytes, AllocError>
        ensures { IfOk result (λ word. word ≡ leading_word self.now) }
    {
        match self {
            Argument::Raw(word) | Argument::UnknownFlag(word) => word.clone(),
            Argument::Flag(flag, _) | Argument::WithValue(flag, _, _) => {
                OsBytes::from_slice(alloc, flag.as_bytes())
            }
        }
    }

    /// The flag, where the argument is one of a table. It takes no memory.
    pub fn flag_str(&self) -> Option<&'static str>
        ensures { option_copied result ≡ flag_in self.now }
    {
        match self {
            Argument::Flag(flag, _) | Argument::WithValue(flag, _, _) => Some(flag),
            _ => None,
        }
    }

    /// The value, where the argument has one. It takes no memory.
    pub fn get_data(&self) -> Option<&T>
        ensures { option_copied result ≡ data_in self.now }
    {
        match self {
            Argument::Flag(_, value) | Argument::WithValue(_, value, _) => Some(value),
            _ => None,
        }
    }
}
