//! Words cut into arguments by a table.

ghost use Rattle.std.specs.Prelude.{◌≡◌, List, [], length, ◌≤◌, None, IfOk, OnOk, IfErr, Bool};
ghost use Rattle.std.specs.Iterator.{at_most};
ghost use Rattle.base_files.specs.Bytes.{Bytes};
ghost use Rattle.cmdlines_base.specs.Refusal.{IsErrorOf};
ghost use Rattle.cmdlines_base.specs.Table.{Entry, entry_at, all_entries, longest_fit};
ghost use Rattle.cmdlines_base.specs.Reading.{valued, loose, value_in, first_by, reading, Reading, Reads, is_double_dash};
ghost use Rattle.cmdlines_base.specs.Cutting.{place_of, table_in, past_dashes, is_seen, taken};
ghost use Rattle.cmdlines_base.specs.Values.{values_by, IsOf, IsFirst, IsRefused, Takes, FailsToTake, Steps};

use crate::argument::{ArgDisposition, Argument, Delimiter};
use crate::argument_error::{ArgParseError, ArgParseResult};
use crate::table::{ArgInfo, SearchableArgInfo, after};
use crate::value::ArgumentValue;
use base_files::OsBytes;
use std::alloc::{AllocError, Global};
use std::marker::PhantomData;

/// What the first word makes: an argument, or a flag whose value is the next word.
#[derive(Drop)]
pub enum First<T: ArgumentValue> {
    Whole(Argument<T>),
    Awaits(&'static str, T::Kind, ArgDisposition),
}

/// A word that fits no entry.
fn loose<T: ArgumentValue>(alloc: Global, word: &[u8]) -> Result<Argument<T>, AllocError>
    ensures { IfOk result
        (λ argument. IsOf (values_by T.flag_value T.word_value T.refusal) (loose word.now) argument) }
{
    let bytes = OsBytes::from_slice(alloc, word)?;
    if word.first().copied() == Some(b'-') {
        Ok(Argument::UnknownFlag(bytes))
    } else {
        Ok(Argument::Raw(bytes))
    }
}

/// The value in what comes after the flag.
fn value_in(delimiter: Delimiter, rest: &[u8]) -> &[u8]
    ensures { result.now ≡ value_in delimiter rest.now }
{
    match delimiter {
        None => rest,
        Some(_) => match rest.split_first() {
            None => rest,
            Some((_, value)) => value,
        },
    }
}

/// A flag with the value in a word.
fn with_value<T: ArgumentValue>(
    alloc: Global,
    flag: &'static str,
    kind: T::Kind,
    word: &[u8],
    disposition: ArgDisposition,
) -> ArgParseResult<Argument<T>>
    ensures value { IfOk result
        (IsOf (values_by T.flag_value T.word_value T.refusal)
        (valued flag.entry.now kind word.now disposition)) }
    ensures accepted { OnOk result (T.refusal kind word.now ≡ None) }
    ensures refused { IfErr result (IsErrorOf (T.refusal kind word.now) word.now) }
{
    let value = T::of_word(alloc, kind, word)?;
    Ok(Argument::WithValue(flag, value, disposition))
}

/// What a word makes by its entry.
fn first_by<T: ArgumentValue>(
    alloc: Global,
    entry: Option<&ArgInfo<T>>,
    word: &[u8],
) -> ArgParseResult<First<T>>
    ensures first { IfOk result
        (IsFirst (values_by T.flag_value T.word_value T.refusal)
        (first_by (entry_at entry.entry) word.now)) }
    ensures refused { IfErr result
        (IsRefused (values_by T.flag_value T.word_value T.refusal)
        (first_by (entry_at entry.entry) word.now)) }
{
    match entry {
        None => Ok(First::Whole(loose(alloc, word)?)),
        Some(ArgInfo::Flag(flag, kind)) => {
            Ok(First::Whole(Argument::Flag(flag, T::of_flag(alloc, *kind))))
        }
        Some(ArgInfo::TakeArg(flag, kind, disposition)) => {
            let rest = after(flag.as_bytes(), word).unwrap_or(&[]);
            match disposition {
                ArgDisposition::Separated => Ok(First::Awaits(flag, *kind, *disposition)),
                ArgDisposition::Concatenated(delimiter) => {
                    let value = value_in(*delimiter, rest);
                    Ok(First::Whole(with_value(alloc, flag, *kind, value, *disposition)?))
                }
                ArgDisposition::CanBeConcatenated(delimiter)
                | ArgDisposition::CanBeSeparated(delimiter) => {
                    if rest.is_empty() {
                        let read = ArgDisposition::CanBeConcatenated(*delimiter);
                        Ok(First::Awaits(flag, *kind, read))
                    } else {
                        let read = ArgDisposition::CanBeSeparated(*delimiter);
                        let value = value_in(*delimiter, rest);
                        Ok(First::Whole(with_value(alloc, flag, *kind, value, read)?))
                    }
                }
            }
        }
    }
}

/// The first argument of a word and the words after it, and the words that are left.
fn first_argument<'a, T: ArgumentValue>(
    alloc: Global,
    entry: Option<&ArgInfo<T>>,
    word: &[u8],
    rest: &'a [OsBytes],
) -> ArgParseResult<(Argument<T>, &'a [OsBytes])>
    ensures takes { IfOk result
        (λ found. Takes (values_by T.flag_value T.word_value T.refusal)
        (first_by (entry_at entry.entry) word.now) rest.now found.0 found.1.now) }
    ensures fewer { IfOk result (λ found. length found.1.now ≤ length rest.now) }
    ensures fails { IfErr result
        (FailsToTake (values_by T.flag_value T.word_value T.refusal)
        (first_by (entry_at entry.entry) word.now) rest.now) }
{
    match first_by(alloc, entry, word)? {
        First::Whole(argument) => Ok((argument, rest)),
        First::Awaits(flag, kind, disposition) => match rest.split_first() {
            Some((next, left)) => {
                let argument = with_value(alloc, flag, kind, next.as_bytes(), disposition)?;
                Ok((argument, left))
            }
            None => match disposition {
                ArgDisposition::CanBeConcatenated(None) => {
                    let read = ArgDisposition::Concatenated(None);
                    Ok((with_value(alloc, flag, kind, &[], read)?, rest))
                }
                _ => Err(ArgParseError::UnexpectedEndOfArgs),
            },
        },
    }
}

/// What double dashes are at the current place of a cutting.
#[derive(Clone, Copy, Debug, PartialEq, Eq)]
pub enum DoubleDashes {
    /// A word as any other.
    Ordinary,
    /// The end of the options, which is still to come.
    Awaited,
    /// The end of the options, which was passed: the words that are left are loose.
    Seen,
}

/// The arguments of words, one after another. After an error it is at its end.
#[derive(Drop)]
pub struct ArgsIter<'a, T, S> {
    alloc: Global,
    words: &'a [OsBytes],
    table: &'a S,
    double_dashes: DoubleDashes,
    values: PhantomData<T>,
}

impl<'a, T: ArgumentValue, S: SearchableArgInfo<T>> ArgsIter<'a, T, S> {
    /// The arguments of these words by this table, to which `--` is a word as any other.
    pub fn new(alloc: Global, words: &'a [OsBytes], table: &'a S) -> ArgsIter<'a, T, S>
        ensures words { (place_of result).words ≡ words.now }
        ensures dashes { (place_of result).dashes ≡ DoubleDashes.Ordinary }
        ensures table { table_in result ≡ table.now }
    {
        ArgsIter {
            alloc,
            words,
            table,
            double_dashes: DoubleDashes::Ordinary,
            values: PhantomData,
        }
    }

    /// The same, but the first `--` that isn't an option's value is consumed, and all after it is raw.
    pub fn with_double_dashes(self) -> ArgsIter<'a, T, S>
        ensures words { (place_of result).words ≡ (place_of self.entry).words }
        ensures dashes { (place_of result).dashes ≡ DoubleDashes.Awaited }
        ensures table { table_in result ≡ table_in self.entry }
    {
        ArgsIter {
            double_dashes: DoubleDashes::Awaited,
            ..self
        }
    }

    /// Whether `--` was consumed: what comes from then on was after it.
    pub fn seen_double_dashes(&self) -> bool
        ensures { result ≡ is_seen (place_of self.now).dashes }
    {
        self.double_dashes == DoubleDashes::Seen
    }

    /// Consumes the `--` that ends the options, where it comes next.
    fn pass_double_dashes(&mut self)
        ensures place { place_of self.new ≡ past_dashes (place_of self.old) }
        ensures fewer { length (place_of self.new).words ≤ length (place_of self.old).words }
        ensures table { table_in self.new ≡ table_in self.old }
    {
        if self.double_dashes != DoubleDashes::Awaited {
            return;
        }
        if let Some((word, rest)) = self.words.split_first() {
            if word.as_bytes() == b"--".as_slice() {
                self.words = rest;
                self.double_dashes = DoubleDashes::Seen;
            }
        }
    }
}

impl<'a, T: ArgumentValue, S: SearchableArgInfo<T>> Iterator for ArgsIter<'a, T, S> {
    type Item = ArgParseResult<Argument<T>>;

    ghost next_gives = { λ s r t. Steps (values_by T.flag_value T.word_value T.refusal) (all_entries (S.tables (table_in s))) (place_of s) r (place_of t) × (table_in t ≡ table_in s) };

    ghost remaining = { λ s. at_most (length (place_of s).words) };

    fn next(&mut self) -> Option<ArgParseResult<Argument<T>>> {
        self.pass_double_dashes();
        let (word, rest) = self.words.split_first()?;
        self.words = &[];
        if self.seen_double_dashes() {
            return match word.clone() {
                Err(_) => Some(Err(ArgParseError::Memory)),
                Ok(copy) => {
                    self.words = rest;
                    Some(Ok(Argument::Raw(copy)))
                }
            };
        }
        let bytes = word.as_bytes();
        match first_argument(self.alloc, self.table.search(bytes), bytes, rest) {
            Err(error) => Some(Err(error)),
            Ok((argument, left)) => {
                self.words = left;
                Some(Ok(argument))
            }
        }
    }
}

/// Each list of words has exactly one reading by a table: the one that `reading` computes.
pub fn words_have_one_reading<T: ArgumentValue>()
    ensures is { (dashes : Bool) (table : List (Entry T.Kind)) (words : List Bytes)
        → Reads dashes table words (reading dashes table words) }
    ensures only { (dashes : Bool) (table : List (Entry T.Kind)) (words : List Bytes)
        (r : Reading T.Kind)
        → Reads dashes table words r → r ≡ reading dashes table words }
{}
