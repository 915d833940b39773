//! Arguments printed again: as words, and as texts in which a closure rewrites paths.

ghost use Rattle.std.specs.Prelude.{◌≡◌, ℕ, ◌≤◌, [], ◌∷◌, length, map, IfOk, MatchOption, List, true, if◌then◌else◌};
ghost use Rattle.std.specs.Iterator.{at_most};
ghost use Rattle.cmdlines_base.specs.Printing.{joined, printed};
ghost use Rattle.cmdlines_base.specs.Pieces.{part_of, parts_of, parts_left, part_word, argument_words, stands_apart};
ghost use Rattle.cmdlines_base.specs.Reading.{Item};
ghost use Rattle.cmdlines_base.specs.Texts.{PartText, GivesText};
ghost use Rattle.cmdlines_base.specs.Values.{values_by, IsOf, is_given_back};
ghost use Rattle.cmdlines_base.specs.Printers.{words_left, GivesWord, texts_left, transformer_in};

use crate::argument::{ArgDisposition, Argument, Delimiter};
use crate::argument_error::{ArgToStringError, ArgToStringResult};
use crate::value::{ArgumentValue, IntoArg, into_text, word_to_string};
use base_files::OsBytes;
use std::alloc::{AllocError, Global};

/// A flag with a value after it; where the value is empty the delimiter is dropped.
fn flag_with_value(
    alloc: Global,
    flag: &[u8],
    delimiter: Delimiter,
    value: &[u8],
) -> Result<OsBytes, AllocError>
    ensures { IfOk result (λ word. word ≡ joined flag.now delimiter value.now) }
{
    if value.is_empty() {
        return OsBytes::from_slice(alloc, flag);
    }
    let mut word = Vec::with_capacity(alloc, flag.len() + 1 + value.len())?;
    word.extend_from_slice(flag)?;
    if let Some(byte) = delimiter {
        word.push(byte)?;
    }
    word.extend_from_slice(value)?;
    Ok(OsBytes::from_vec(word))
}

/// What is printed as one word.
#[derive(Drop)]
pub enum Piece<'a, T> {
    Word(&'a [u8]),
    Value(&'a T),
    Joined(&'static str, Delimiter, &'a T),
}

impl<'a, T: IntoArg> Piece<'a, T> {
    /// The piece as a word.
    fn to_os_string(&self, alloc: Global) -> Result<OsBytes, AllocError>
        ensures { IfOk result (λ word. word ≡ part_word T.word (part_of self.now)) }
    {
        match self {
            Piece::Word(word) => OsBytes::from_slice(alloc, word),
            Piece::Value(value) => value.into_arg_os_string(alloc),
            Piece::Joined(flag, delimiter, value) => match value.lent_word() {
                Some(word) => flag_with_value(alloc, flag.as_bytes(), *delimiter, word),
                None => {
                    let word = value.into_arg_os_string(alloc)?;
                    flag_with_value(alloc, flag.as_bytes(), *delimiter, word.as_bytes())
                }
            },
        }
    }

    /// The piece as a text.
    fn to_text<F: FnMut(&[u8]) -> Option<String>>(
        &self,
        alloc: Global,
        path_transformer: &mut F,
    ) -> ArgToStringResult
        requires { F.IsAlwaysCallable path_transformer.old }
        ensures text { PartText F.FnMut T.word T.path (part_of self.now) path_transformer.old result
            path_transformer.new }
        ensures callable { F.IsAlwaysCallable path_transformer.new }
    {
        match self {
            Piece::Word(word) => word_to_string(alloc, word),
            Piece::Value(value) => value.into_arg_string(alloc, path_transformer),
            Piece::Joined(flag, delimiter, value) => {
                let text = value.into_arg_string(alloc, path_transformer)?;
                match into_text(flag_with_value(
                    alloc,
                    flag.as_bytes(),
                    *delimiter,
                    text.as_bytes(),
                )?) {
                    Ok(joined) => Ok(joined),
                    Err(word) => Err(ArgToStringError::InvalidUnicode(word)),
                }
            }
        }
    }
}

/// The one or two pieces of an argument that are still to be printed.
#[derive(Drop)]
pub struct Pieces<'a, T> {
    first: Option<Piece<'a, T>>,
    second: Option<Piece<'a, T>>,
}

impl<'a, T> Pieces<'a, T> {
    fn new(argument: &'a Argument<T>) -> Pieces<'a, T>
        ensures { parts_left result ≡ parts_of argument.now }
    {
        let (first, second) = match argument {
            Argument::Raw(word) | Argument::UnknownFlag(word) => {
                (Piece::Word(word.as_bytes()), None)
            }
            Argument::Flag(flag, _) => (Piece::Word(flag.as_bytes()), None),
            Argument::WithValue(flag, value, disposition) => match disposition {
                ArgDisposition::Separated | ArgDisposition::CanBeConcatenated(_) => {
                    (Piece::Word(flag.as_bytes()), Some(Piece::Value(value)))
                }
                ArgDisposition::CanBeSeparated(delimiter)
                | ArgDisposition::Concatenated(delimiter) => {
                    (Piece::Joined(flag, *delimiter, value), None)
                }
            },
        };
        Pieces {
            first: Some(first),
            second,
        }
    }

    /// Takes the first piece.
    fn pop(&mut self) -> Option<Piece<'a, T>>
        ensures { MatchOption result ((parts_left self.old ≡ []) × (parts_left self.new ≡ []))
            (λ piece. parts_left self.old ≡ part_of piece ∷ parts_left self.new) }
    {
        match self.first.take() {
            Some(piece) => {
                self.first = self.second.take();
                Some(piece)
            }
            None => self.second.take(),
        }
    }

    /// Drops what is left.
    fn clear(&mut self)
        ensures { parts_left self.new ≡ [] }
    {
        self.first = None;
        self.second = None;
    }
}

/// The words of an argument, one after another. After an error it is at its end.
#[derive(Drop)]
pub struct Iter<'a, T> {
    alloc: Global,
    pieces: Pieces<'a, T>,
}

impl<'a, T: IntoArg> Iterator for Iter<'a, T> {
    type Item = Result<OsBytes, AllocError>;

    ghost next_gives = { λ s r t. GivesWord (words_left T.word s) r (words_left T.word t) };

    ghost remaining = { λ s. at_most (length (words_left T.word s)) };

    fn next(&mut self) -> Option<Result<OsBytes, AllocError>> {
        let word = self.pieces.pop()?.to_os_string(self.alloc);
        if word.is_err() {
            self.pieces.clear();
        }
        Some(word)
    }
}

/// The texts of an argument, one after another, by a closure for paths. After an error it is at its end.
#[derive(Drop)]
pub struct IterStrings<'a, T, F> {
    alloc: Global,
    pieces: Pieces<'a, T>,
    path_transformer: F,
}

impl<'a, T: IntoArg, F: FnMut(&[u8]) -> Option<String>> Iterator for IterStrings<'a, T, F> {
    type Item = ArgToStringResult;

    ghost can_next = { λ s. F.IsAlwaysCallable (transformer_in s) };

    ghost next_gives = { λ s r t. GivesText F.FnMut T.word T.path (texts_left s) (transformer_in s) r (texts_left t) (transformer_in t) };

    ghost remaining = { λ s. at_most (length (texts_left s)) };

    fn next(&mut self) -> Option<ArgToStringResult> {
        let text = self
            .pieces
            .pop()?
            .to_text(self.alloc, &mut self.path_transformer);
        if text.is_err() {
            self.pieces.clear();
        }
        Some(text)
    }
}

impl<T: IntoArg> Argument<T> {
    /// The words that print it: the flag and the value where these are separate, else one word, in which an empty value
    /// drops the delimiter.
    pub fn iter_os_strings(&self, alloc: Global) -> Iter<'_, T>
        ensures { words_left T.word result ≡ argument_words T.word self.now }
    {
        Iter {
            alloc,
            pieces: Pieces::new(self),
        }
    }

    /// The same as texts: a path's is what the closure answers for it.
    pub fn iter_strings<F: FnMut(&[u8]) -> Option<String>>(
        &self,
        alloc: Global,
        path_transformer: F,
    ) -> IterStrings<'_, T, F>
        ensures parts { texts_left result ≡ parts_of self.now }
        ensures transformer { transformer_in result ≡ path_transformer }
    {
        IterStrings {
            alloc,
            pieces: Pieces::new(self),
            path_transformer,
        }
    }
}

/// An argument prints two words where its value is separate, and else one.
pub fn arguments_print_one_or_two_words<T: IntoArg>()
    ensures { (argument : Argument T)
        → length (argument_words T.word argument) ≡ (if stands_apart argument then 2 else 1) }
{}

/// The argument that was made of an item prints the words of that item, where its kind prints what it reads.
pub fn arguments_print_what_was_read<T: ArgumentValue>()
    ensures { (item : Item T.Kind) (argument : Argument T)
        → IsOf (values_by T.flag_value T.word_value T.refusal) item argument
        → is_given_back T.gives_back item ≡ true → argument_words T.word argument ≡ printed item }
{}
