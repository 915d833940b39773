//! What of its sources an object hangs on beside their text, by the words of the command.

use base_files::OsBytes;
use cmdlines_tables::CCompilerKind;
use memchr::memmem;

/// What of the sources is bound to a key beside the text.
#[derive(Clone, Copy, PartialEq, Eq)]
pub enum Asked {
    /// Nothing: neither columns nor messages hang on how lines were written.
    Nothing,
    /// The lines of which the text shows tokens.
    Lines,
    /// All bytes of all files.
    Contents,
}

/// What words begin with under which a line counts as it was written: warnings and checks.
const OF_LINES: [&str; 13] = [
    "-W",
    "-pedantic",
    "--pedantic",
    "-fsanitize",
    "-fanalyzer",
    "-fcoverage",
    "-fprofile",
    "-ftest-coverage",
    "-fxray",
    "--coverage",
    "-coverage",
    "-fstack-usage",
    "-fcallgraph-info",
];

/// Words under which an object has the places of all that a source has, also of comments and of what is left out.
const OF_CONTENTS: [&str; 1] = ["-fcoverage-mapping"];

/// What words begin with that hand something on to other programs.
const HANDED_ON: [&str; 3] = ["-Wa,", "-Wl,", "-Wp,"];

/// What words begin with under which Clang reads comments.
const OF_COMMENTS: [&str; 4] = [
    "-Wdocumentation",
    "-Werror=documentation",
    "-Weverything",
    "-fparse-all-comments",
];

/// What the name of a warning in a pragma begins with.
const OF_WARNINGS: &[u8] = b"\"-W";

/// What comes after that where a pragma has Clang read comments.
const OF_COMMENTS_BY_PRAGMA: [&str; 2] = ["documentation", "everything"];

/// What words begin with under which Clang's object has the places of what assemblers read, by bytes of a file.
const OF_PLACES: [&str; 1] = ["-flto"];

/// What a text has in it that asks for a column.
const OF_COLUMNS: [&str; 2] = ["__builtin_COLUMN", "source_location"];

/// What has Clang write a column too, or a line that its text doesn't tell.
const OF_COLUMNS_BY_CLANG: [&str; 3] = [
    "__PRETTY_FUNCTION__",
    "__builtin_dump_struct",
    "__builtin_LINE",
];

/// What a pragma on a warning has in it.
const OF_PRAGMAS: &[u8] = b"diagnostic ";

/// What comes after that where the pragma turns the warning on.
const TURNED_ON: [&str; 3] = ["error", "fatal", "warning"];

/// Whether one of these words is in a text.
pub fn has_any(text: &[u8], words: &[&str]) -> bool {
    for word in words {
        if memmem::find(text, word.as_bytes()).is_some() {
            return true;
        }
    }
    false
}

/// Whether the bytes begin with one of these.
fn begins_with(bytes: &[u8], fronts: &[&str]) -> bool {
    for front in fronts {
        if bytes.starts_with(front.as_bytes()) {
            return true;
        }
    }
    false
}

/// Whether one of these words comes right after that front somewhere in a text. The text is searched once.
fn has_after(text: &[u8], front: &[u8], words: &[&str]) -> bool {
    for at in memmem::find_iter(text, front) {
        let after = text.get(at.saturating_add(front.len())..).unwrap_or(&[]);
        if begins_with(after, words) {
            return true;
        }
    }
    false
}

/// Whether a word asks for debug information.
fn is_debug(word: &[u8]) -> bool {
    word.starts_with(b"-g") && !matches!(word, b"-g0")
}

/// Whether Clang's object or messages hang on all bytes of its sources under a word. Its debug information has a digest of each file.
fn asks_clang_for_contents(word: &[u8]) -> bool {
    is_debug(word) || begins_with(word, &OF_COMMENTS) || begins_with(word, &OF_PLACES)
}

/// What one word asks for.
fn asked_by_word(is_clang: bool, word: &[u8]) -> Asked {
    if is_clang && asks_clang_for_contents(word) || begins_with(word, &OF_CONTENTS) {
        return Asked::Contents;
    }
    if begins_with(word, &HANDED_ON) {
        return Asked::Nothing;
    }
    if is_debug(word) || begins_with(word, &OF_LINES) {
        return Asked::Lines;
    }
    Asked::Nothing
}

/// What a text asks for.
fn asked_by_text(is_clang: bool, text: &[u8]) -> Asked {
    if has_any(text, &OF_COLUMNS)
        || has_after(text, OF_PRAGMAS, &TURNED_ON)
        || is_clang && has_any(text, &OF_COLUMNS_BY_CLANG)
    {
        return Asked::Lines;
    }
    Asked::Nothing
}

impl Asked {
    /// The one of the two that asks for more.
    fn and(self, other: Asked) -> Asked {
        match (self, other) {
            (Asked::Contents, _) | (_, Asked::Contents) => Asked::Contents,
            (Asked::Nothing, Asked::Nothing) => Asked::Nothing,
            (_, _) => Asked::Lines,
        }
    }

    /// What these words ask for. Some of Clang's warnings that hang on macros are on with no word, unless all are off.
    fn by_words(is_clang: bool, words: &[OsBytes]) -> Asked {
        let mut asked = Asked::Nothing;
        let mut warns = is_clang;
        for word in words {
            let word = word.as_bytes();
            warns = warns && !matches!(word, b"-w");
            asked = asked.and(asked_by_word(is_clang, word));
        }
        match warns {
            true => asked.and(Asked::Lines),
            false => asked,
        }
    }

    /// What a command to a compiler of that kind with these words asks for, whose text this is.
    pub fn by(kind: CCompilerKind, words: &[OsBytes], text: &[u8]) -> Asked {
        let is_clang = matches!(kind, CCompilerKind::Clang);
        match Asked::by_words(is_clang, words) {
            Asked::Nothing => asked_by_text(is_clang, text),
            Asked::Lines if is_clang && has_after(text, OF_WARNINGS, &OF_COMMENTS_BY_PRAGMA) => {
                Asked::Contents
            }
            asked => asked,
        }
    }
}
