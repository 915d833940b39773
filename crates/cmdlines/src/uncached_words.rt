//! What may not be cached although its words can be read: words that make a compiler read more than its command, and a
//! value that compilers don't read alike.

ghost use Rattle.std.specs.Prelude.{◌≡◌};
ghost use Rattle.cmdlines.specs.Hazards.{names_file, opens_file};

use base_files::OsBytes;
use cmdlines_response_files::Style;
use cmdlines_tables::{CCompilerKind, ParsedArguments};

/// Whether an option whose value may be joined or separate was read with an empty value. It takes no memory.
pub fn empty_value(parsed: &ParsedArguments) -> bool
    ensures { result ≡ parsed.now.empty_value }
{
    parsed.empty_value
}

/// Whether to that compiler the word names a response file.
fn names_file(kind: CCompilerKind, word: &[u8]) -> bool
    ensures { result ≡ names_file kind word.now }
{
    match kind.style() {
        Some(Style::Diab) => word.starts_with(b"@") || word.starts_with(b"-@"),
        _ => word.starts_with(b"@"),
    }
}

/// Whether one of the words of a command to that compiler would make it open a response file. It takes no memory.
pub fn opens_file(words: &[OsBytes], kind: CCompilerKind) -> bool
    ensures { result ≡ opens_file kind words.now }
{
    words.iter().any(|word| names_file(kind, word.as_bytes()))
}
