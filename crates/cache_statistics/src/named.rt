//! Which input and which output words name, for people: by the usual options alone, and nothing rests on it.

use base_files::OsBytes;

/// What words name.
#[derive(Clone, Copy)]
pub struct NamedFiles<'a> {
    pub input: Option<&'a [u8]>,
    pub output: Option<&'a [u8]>,
}

/// The options whose value is the next word.
const VALUED: [&str; 25] = [
    "-I",
    "-D",
    "-U",
    "-L",
    "-MF",
    "-MT",
    "-MQ",
    "-x",
    "-include",
    "-imacros",
    "-isystem",
    "-iquote",
    "-idirafter",
    "-isysroot",
    "-target",
    "-arch",
    "-Xclang",
    "-Xlinker",
    "-Xassembler",
    "-Xpreprocessor",
    "-T",
    "-u",
    "-z",
    "-aux-info",
    "--param",
];

/// Whether the word after this one is its value.
fn takes_value(word: &[u8]) -> bool {
    VALUED.iter().any(|name| name.as_bytes() == word)
}

/// What words name: the first word that is no option nor the value of one, and the value of `-o`.
pub fn named_files(words: &[OsBytes]) -> NamedFiles<'_> {
    let mut named = NamedFiles {
        input: None,
        output: None,
    };
    let mut before: &[u8] = b"";
    for word in words {
        let word = word.as_bytes();
        if before == b"-o".as_slice() {
            named.output = Some(word);
            before = b"";
            continue;
        }
        let is_value = takes_value(before);
        before = if is_value { b"" } else { word };
        if is_value {
            continue;
        }
        match word {
            [b'-', b'o', name @ ..] if !name.is_empty() => named.output = Some(name),
            [b'-', ..] => {}
            _ if named.input.is_none() => named.input = Some(word),
            _ => {}
        }
    }
    named
}
