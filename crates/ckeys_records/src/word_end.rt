//! The byte that ends a hashed word, which no hashed word may hold.

ghost use Rattle.std.specs.Prelude.{◌≡◌, false, List};
ghost use Rattle.std.specs.List.{AllByRecursion};
ghost use Rattle.base_files.specs.Bytes.{Bytes};
ghost use Rattle.ckeys_records.specs.Params.{stripped_words};
ghost use Rattle.ckeys_records.specs.Records.{LacksEnd, hold_end, holds_end};

use base_files::OsBytes;
use ckeys_base::stripping_adds_no_byte;

/// Whether the word holds the byte 255.
fn holds_word_end(word: &[u8]) -> bool
    ensures { result ≡ holds_end word.now }
{
    word.contains(&255)
}

/// Whether one of these words holds the byte 255. It takes no memory.
pub fn hold_word_end(words: &[OsBytes]) -> bool
    ensures { result ≡ hold_end words.now }
{
    words.iter().any(|word| holds_word_end(word.as_bytes()))
}

/// Words that don't hold that byte don't hold it without folders either. Calls of it do nothing.
pub fn stripped_words_lack_the_end()
    ensures { (folders words : List Bytes) → hold_end words ≡ false
        → AllByRecursion LacksEnd (stripped_words folders words) }
{
    stripping_adds_no_byte();
}
