//! Whether a text holds a word.

ghost use Rattle.std.specs.Prelude.{◌≡◌, ◌↔◌, IsTrue};
ghost use Rattle.base_files.specs.Bytes.{Bytes};
ghost use Rattle.ckeys_time_macros.specs.Macros.{holds, StandsIn};

use memchr::memmem;

/// Whether the word occurs somewhere in the text. An empty word occurs in each text.
pub fn holds(text: &[u8], word: &[u8]) -> bool
    ensures { result ≡ holds text.now word.now }
{
    memmem::find(text, word).is_some()
}

/// A text holds a word exactly if it is some front, the word, and some rest.
pub fn held_words_stand()
    ensures { (text word : Bytes) → IsTrue (holds text word) ↔ StandsIn word text }
{}
