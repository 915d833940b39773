//! Tables of options, and the search for the longest flag that fits a word.

ghost use Rattle.std.specs.Prelude.{◌≡◌, ◌≤◌, length, All, IfSome, List, [], ◌∷◌, ◌++◌, if◌then◌else◌, nat_le, nat_lt, max, IsTrue};
ghost use Rattle.std.specs.List.{list_all};
ghost use Rattle.std.specs.List.Sorted.{IsNonDecreasingBy};
ghost use Rattle.cmdlines_base.specs.Forks.{going_on};
ghost use Rattle.cmdlines_base.specs.Nodes.{Begins, GoesOn, IsNode, IsPicked, byte_at};
ghost use Rattle.std.specs.Option.{option_copied};
ghost use Rattle.base_files.specs.Bytes.{Bytes};
ghost use Rattle.cmdlines_base.specs.Reach.{reach};
ghost use Rattle.cmdlines_base.specs.Table.{Entry, entry_of, entry_at, entries_of, fits, joins_by, may_follow, has_ascii, rises_to, is_table, longer, all_entries, longest_fit, IsEntryOf, after};

use crate::argument::{ArgDisposition, Delimiter};
use crate::value::ArgumentValue;
use std::marker::Model;

/// An entry of a table: a flag without a value, or one that takes a value.
#[derive(Drop)]
pub enum ArgInfo<T: ArgumentValue> {
    Flag(&'static str, T::Kind),
    TakeArg(&'static str, T::Kind, ArgDisposition),
}

/// What comes after the flag, where the word begins with it.
pub fn after<'a>(flag: &[u8], word: &'a [u8]) -> Option<&'a [u8]>
    ensures { option_copied result ≡ after flag.now word.now }
{
    word.strip_prefix(flag)
}

impl<T: ArgumentValue> ArgInfo<T> {
    pub fn flag(&self) -> &'static str
        ensures { result.now ≡ (entry_of self.now).flag }
    {
        match self {
            ArgInfo::Flag(flag, _) => flag,
            ArgInfo::TakeArg(flag, _, _) => flag,
        }
    }

    /// The byte of the flag after that many, or 0 where it has ended.
    pub(crate) fn byte_at(&self, depth: usize) -> u8
        ensures { result ≡ byte_at depth (entry_of self.now) }
    {
        match self.flag().as_bytes().get(depth) {
            Some(byte) => *byte,
            None => 0,
        }
    }

    /// How the value may be joined to the flag, and None where it may not: a byte that comes between, or nothing.
    fn joins_by(&self) -> Option<Delimiter>
        ensures { result ≡ joins_by (entry_of self.now) }
    {
        match self {
            ArgInfo::Flag(_, _) | ArgInfo::TakeArg(_, _, ArgDisposition::Separated) => None,
            ArgInfo::TakeArg(_, _, ArgDisposition::CanBeConcatenated(delimiter))
            | ArgInfo::TakeArg(_, _, ArgDisposition::CanBeSeparated(delimiter))
            | ArgInfo::TakeArg(_, _, ArgDisposition::Concatenated(delimiter)) => Some(*delimiter),
        }
    }

    /// Whether this may come after the flag in the same word.
    fn may_follow(&self, rest: &[u8]) -> bool
        ensures { result ≡ may_follow (entry_of self.now) rest.now }
    {
        let Some(next) = rest.first() else {
            return true;
        };
        match self.joins_by() {
            None => false,
            Some(None) => true,
            Some(Some(delimiter)) => *next == delimiter,
        }
    }

    /// Whether the word is the flag, or the flag with its value after it.
    pub fn fits(&self, word: &[u8]) -> bool
        ensures { result ≡ fits (entry_of self.now) word.now }
    {
        match after(self.flag().as_bytes(), word) {
            Some(rest) => self.may_follow(rest),
            None => false,
        }
    }

    /// The same of a word that begins with the flag, which has so many bytes.
    fn fits_after(&self, depth: usize, word: &[u8]) -> bool
        requires begins { Begins depth word.now (entry_of self.now) }
        requires ends { length (entry_of self.now).flag ≤ depth }
        requires within { depth ≤ length word.now }
        ensures { result ≡ fits (entry_of self.now) word.now }
    {
        self.may_follow(&word[depth..])
    }

    /// Whether the delimiter, if there is one, is ASCII.
    fn has_ascii(&self) -> bool
        ensures { result ≡ has_ascii (entry_of self.now) }
    {
        match self.joins_by() {
            Some(Some(delimiter)) => delimiter < 128,
            _ => true,
        }
    }

    /// Whether the flag is below that of the first of the others.
    fn rises_to(&self, others: &[ArgInfo<T>]) -> bool
        ensures { result ≡ rises_to (entry_of self.now) (entries_of others.now) }
    {
        match others.first() {
            None => true,
            Some(next) => self.flag() < next.flag(),
        }
    }
}

/// The entry with the longer flag, and the second where they are as long.
pub(crate) fn longer<'a, T: ArgumentValue>(
    a: Option<&'a ArgInfo<T>>,
    b: Option<&'a ArgInfo<T>>,
) -> Option<&'a ArgInfo<T>>
    ensures { entry_at result ≡ longer (entry_at a.entry) (entry_at b.entry) }
{
    match (a, b) {
        (Some(first), Some(second)) if second.flag().len() < first.flag().len() => Some(first),
        (a, None) => a,
        (_, b) => b,
    }
}

/// A node's entries without the one whose flag ends there.
pub(crate) fn going_on<T: ArgumentValue>(node: &[ArgInfo<T>], depth: usize) -> &[ArgInfo<T>]
    ensures { entries_of result.now ≡ going_on depth (entries_of node.now) }
{
    match node.split_first() {
        Some((entry, others)) if entry.flag().len() <= depth => others,
        _ => node,
    }
}

/// Of a node's entries, the best with the one whose flag ends there, where it fits; and the others.
pub(crate) fn past_ended<'a, T: ArgumentValue>(
    best: Option<&'a ArgInfo<T>>,
    node: &'a [ArgInfo<T>],
    depth: usize,
    word: &[u8],
) -> (Option<&'a ArgInfo<T>>, &'a [ArgInfo<T>])
    requires node { IsNode depth word.now (entries_of node.now) }
    ensures fit { longer (entry_at result.0) (longest_fit (entries_of result.1.now) word.now)
        ≡ longer (entry_at best.entry) (longest_fit (entries_of node.now) word.now) }
    ensures node { IsNode depth word.now (entries_of result.1.now) }
    ensures on { All (GoesOn depth) (entries_of result.1.now) }
    ensures rest { entries_of result.1.now ≡ going_on depth (entries_of node.now) }
    ensures reach { max depth (reach (entries_of result.1.now) word.now)
        ≡ max depth (reach (entries_of node.now) word.now) }
{
    match node.split_first() {
        Some((entry, others)) if entry.flag().len() <= depth => {
            let found = if entry.fits_after(depth, word) {
                longer(best, Some(entry))
            } else {
                best
            };
            (found, others)
        }
        _ => (best, node),
    }
}

/// Of entries whose bytes after that many rise, those with that byte, where the first and the last one determine them.
fn picked_at_ends<'a, T: ArgumentValue>(
    entries: &'a [ArgInfo<T>],
    depth: usize,
    byte: u8,
) -> Option<&'a [ArgInfo<T>]>
    requires rising { IsNonDecreasingBy (λ e. byte_at depth (entry_of e)) entries.now }
    ensures { IfSome result (λ r. IsPicked depth byte (entries_of entries.now) (entries_of r.now)) }
{
    let Some(first) = entries.first() else {
        return Some(entries);
    };
    let Some(last) = entries.last() else {
        return Some(entries);
    };
    let (least, most) = (first.byte_at(depth), last.byte_at(depth));
    if byte < least || most < byte {
        return Some(&entries[..0]);
    }
    if least == byte && most == byte {
        return Some(entries);
    }
    None
}

/// Of entries whose bytes after that many rise, those with that byte.
pub(crate) fn picked<'a, T: ArgumentValue>(
    entries: &'a [ArgInfo<T>],
    depth: usize,
    byte: u8,
) -> &'a [ArgInfo<T>]
    requires rising { IsNonDecreasingBy (λ e. byte_at depth (entry_of e)) entries.now }
    ensures { IsPicked depth byte (entries_of entries.now) (entries_of result.now) }
{
    if let Some(found) = picked_at_ends(entries, depth, byte) {
        return found;
    }
    let start = entries.partition_point(
        |entry: &ArgInfo<T>| -> bool
            ensures { result ≡ nat_lt (byte_at depth (entry_of entry.now)) byte }
        { entry.byte_at(depth) < byte },
    );
    let rest = &entries[start..];
    let end = rest.partition_point(
        |entry: &ArgInfo<T>| -> bool
            ensures { result ≡ nat_le (byte_at depth (entry_of entry.now)) byte }
        { entry.byte_at(depth) <= byte },
    );
    &rest[..end]
}

/// Whether flags rise strictly and delimiters are ASCII.
fn is_table<T: ArgumentValue>(entries: &[ArgInfo<T>]) -> bool
    ensures { result ≡ is_table (entries_of entries.now) }
{
    let mut rest = entries;
    while let Some((first, others)) = rest.split_first() {
        if !first.has_ascii() || !first.rises_to(others) {
            return false;
        }
        rest = others;
    }
    true
}

/// Entries whose flags rise strictly and whose delimiters are ASCII.
#[derive(Drop)]
pub struct Table<T: ArgumentValue> {
    entries: Vec<ArgInfo<T>>,
}

impl<T: ArgumentValue> Model for Table<T> {
    ghost use Rattle.std.specs.Prelude.{List, IsTrue};
    ghost use Rattle.cmdlines_base.specs.Table.{is_table, Entry, entries_of};

    ghost Value = { List (Entry T.Kind) };

    ghost view = { λ a. entries_of a.entries.items };

    ghost invariant = { λ a. IsTrue (is_table (entries_of a.entries.items)) };
}

impl<T: ArgumentValue> Table<T> {
    /// The table of these entries; None where their flags don't rise strictly or a delimiter isn't ASCII.
    pub fn new(entries: Vec<ArgInfo<T>>) -> Option<Table<T>>
        ensures { result
            ≡ (if is_table (entries_of entries.items) then Some (entries_of entries.items) else None) }
    {
        if is_table(entries.as_slice()) {
            Some(Table { entries })
        } else {
            None
        }
    }

    /// Its entries, whose flags rise.
    pub(crate) fn entries(&self) -> &[ArgInfo<T>]
        ensures value { entries_of result.now ≡ self.now }
        ensures rise { IsTrue (is_table self.now) }
    {
        self.entries.as_slice()
    }
}

/// What is searched for the entry of a word.
pub trait SearchableArgInfo<T: ArgumentValue> {
    /// Its tables, in order.
    ghost tables: { Self → List (List (Entry T.Kind)) };

    /// The entry of the word: the fitting one with the longest flag, and of two with equal flags that of the later
    /// table. It takes no memory.
    fn search(&self, word: &[u8]) -> Option<&ArgInfo<T>>
        ensures { entry_at result ≡ longest_fit (all_entries (tables self.now)) word.now };

    /// Whether in each of the tables flags rise strictly and delimiters are ASCII. It takes no memory.
    fn check(&self) -> bool
        ensures { result ≡ list_all is_table (tables self.now) };
}

impl<T: ArgumentValue> SearchableArgInfo<T> for Table<T> {
    ghost tables = { λ t. t ∷ [] };

    /// Narrows the entries, byte by byte, to those whose flags begin as the word does.
    fn search(&self, word: &[u8]) -> Option<&ArgInfo<T>> {
        let mut best = None;
        let mut node = self.entries.as_slice();
        let mut depth = 0;
        while depth < word.len() {
            let (found, others) = past_ended(best, node, depth, word);
            best = found;
            node = picked(others, depth, word[depth]);
            if node.is_empty() {
                return best;
            }
            depth += 1;
        }
        past_ended(best, node, depth, word).0
    }

    fn check(&self) -> bool {
        is_table(self.entries.as_slice())
    }
}

/// Two tables, or what else is searched: the entry with the longer flag is that of the word, and the second's on equal
/// flags.
impl<T: ArgumentValue, A: SearchableArgInfo<T>, B: SearchableArgInfo<T>> SearchableArgInfo<T>
    for (A, B) {
    ghost tables = { λ t. A.tables t.0 ++ B.tables t.1 };

    fn search(&self, word: &[u8]) -> Option<&ArgInfo<T>> {
        longer(self.0.search(word), self.1.search(word))
    }

    fn check(&self) -> bool {
        self.0.check() && self.1.check()
    }
}

/// The entry of a word in the terms of the subject: it is in one of the tables and fits, no fitting entry has a
/// longer flag, and none of a later table has the same; and there is none only where nothing fits.
pub fn entry_has_the_longest_flag<T: ArgumentValue>()
    ensures { (tables : List (List (Entry T.Kind))) (word : Bytes)
        → IsEntryOf tables word (longest_fit (all_entries tables) word) }
{}
