//! The words of a command one by one, each with the option whose value it is, where it is one's.

ghost use Rattle.std.specs.Prelude.{length};
ghost use Rattle.std.specs.Iterator.{at_most};

use base_files::OsBytes;

/// Words that take the next one as their value, whatever that is.
const TAKE_NEXT: [&str; 25] = [
    "-o",
    "-x",
    "-D",
    "-U",
    "-I",
    "-L",
    "-l",
    "-u",
    "-z",
    "-include",
    "-imacros",
    "-idirafter",
    "-iprefix",
    "-iwithprefix",
    "-iwithprefixbefore",
    "-isystem",
    "-iquote",
    "-isysroot",
    "-MF",
    "-MT",
    "-MQ",
    "-arch",
    "-target",
    "-Xlinker",
    "--sysroot",
];

/// Words that take the next one, which must be known too.
const TAKE_KNOWN: [&str; 4] = ["-Xassembler", "-Xclang", "-mllvm", "--param"];

/// Whether a word is one of these.
pub fn is_among(words: &[&str], word: &[u8]) -> bool {
    words.iter().any(|it| word == it.as_bytes())
}

/// The first of these with which a word begins, and what comes after it.
pub fn after_front<'a>(
    fronts: &[&'static str],
    word: &'a [u8],
) -> Option<(&'static str, &'a [u8])> {
    for front in fronts {
        if let Some(rest) = word.strip_prefix(front.as_bytes()) {
            return Some((*front, rest));
        }
    }
    None
}

/// Whether a word ends with one of these.
pub fn ends_with(ends: &[&'static str], word: &[u8]) -> bool {
    for end in ends {
        if word.ends_with(end.as_bytes()) {
            return true;
        }
    }
    false
}

/// Whether the word takes the next one as its value, whatever that is.
pub(crate) fn takes_any(word: &[u8]) -> bool {
    is_among(&TAKE_NEXT, word)
}

/// Whether the word takes the next one as its value.
pub(crate) fn takes_next(word: &[u8]) -> bool {
    takes_any(word) || is_among(&TAKE_KNOWN, word)
}

/// A word of a command in its place.
#[derive(Clone, Copy)]
pub struct Placed<'a> {
    pub word: &'a OsBytes,
    /// The option before it that takes it as its value, if one does.
    pub option: Option<&'a OsBytes>,
}

impl Placed<'_> {
    /// Whether it names an input: it is no option, and no option's value.
    pub fn is_input(self) -> bool {
        self.option.is_none() && !self.word.as_bytes().starts_with(b"-")
    }

    /// Whether the next word is its value.
    pub fn takes_value(self) -> bool {
        self.option.is_none() && takes_next(self.word.as_bytes())
    }
}

/// The words of a command in their places.
#[derive(Drop)]
pub struct PlacedWords<'a> {
    rest: &'a [OsBytes],
    /// The option that takes the next word.
    option: Option<&'a OsBytes>,
}

impl<'a> PlacedWords<'a> {
    /// Those of a command.
    pub fn of(words: &'a [OsBytes]) -> PlacedWords<'a> {
        PlacedWords {
            rest: words,
            option: None,
        }
    }
}

impl<'a> Iterator for PlacedWords<'a> {
    type Item = Placed<'a>;

    ghost remaining = { λ words. at_most (length words.rest.now) };

    fn next(&mut self) -> Option<Placed<'a>> {
        let [word, rest @ ..] = self.rest else {
            return None;
        };
        self.rest = rest;
        let placed = Placed {
            word,
            option: self.option,
        };
        // The value of an option takes no other word, whatever it is.
        self.option = if placed.takes_value() {
            Some(word)
        } else {
            None
        };
        Some(placed)
    }
}
