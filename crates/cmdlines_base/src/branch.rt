//! One table, searched by the bytes of its flags.

ghost use Rattle.std.specs.Prelude.{◌≡◌, ◌<◌, ◌≤◌, ◌+◌, length, max, nat_le, nat_lt, IfSome, IsTrue};
ghost use Rattle.cmdlines_base.specs.Forks.{IsStemOf};
ghost use Rattle.cmdlines_base.specs.Nodes.{IsNode, byte_at};
ghost use Rattle.cmdlines_base.specs.Reach.{reach};
ghost use Rattle.cmdlines_base.specs.Table.{entries_of, entry_at, entry_of, is_table, longer, longest_fit};

use crate::fork::Fork;
use crate::table::{ArgInfo, SearchableArgInfo, Table, going_on, longer, past_ended, picked};
use crate::value::ArgumentValue;
use std::marker::Model;

/// The entries of a table whose flags begin as its first one does: in most tables nearly all of them.
#[derive(Drop)]
pub(crate) struct Stem {
    /// The byte that these flags begin with.
    byte: u8,
    /// How many there are.
    count: usize,
    /// Where those that go on part.
    fork: Fork,
}

impl Stem {
    /// The stem of a table's entries; None where the first flag has no byte, or where there are too many of them.
    fn of<T: ArgumentValue>(entries: &[ArgInfo<T>]) -> Option<Stem>
        requires { IsTrue (is_table (entries_of entries.now)) }
        ensures { IfSome result (λ stem. IsStemOf stem (entries_of entries.now)) }
    {
        let byte = *entries.first()?.flag().as_bytes().first()?;
        let count = entries.partition_point(
            |entry: &ArgInfo<T>| -> bool
                ensures { result ≡ nat_le (byte_at 0 (entry_of entry.now)) byte }
            { entry.byte_at(0) <= byte },
        );
        let fork = Fork::of(going_on(&entries[..count], 1))?;
        Some(Stem { byte, count, fork })
    }
}

/// A table with its stem.
#[derive(Drop)]
pub(crate) struct Branch<T: ArgumentValue> {
    table: Table<T>,
    stem: Option<Stem>,
}

impl<T: ArgumentValue> Model for Branch<T> {
    ghost use Rattle.std.specs.Prelude.{List, IfSome};
    ghost use Rattle.cmdlines_base.specs.Table.{Entry};

    ghost Value = { List (Entry T.Kind) };

    ghost use Rattle.cmdlines_base.specs.Forks.{IsStemOf};

    ghost view = { λ a. a.table };

    ghost invariant = { λ a. IfSome a.stem (λ stem. IsStemOf stem a.table) };
}

/// How many bytes the word begins with as all flags of a node do, of which so many are known.
fn common<T: ArgumentValue>(node: &[ArgInfo<T>], depth: usize, word: &[u8]) -> usize
    requires node { IsNode depth word.now (entries_of node.now) }
    ensures node { IsNode result word.now (entries_of node.now) }
    ensures least { depth ≤ result }
{
    let Some(first) = node.first() else {
        return depth;
    };
    let Some(last) = node.last() else {
        return depth;
    };
    let (low, high) = (first.flag().as_bytes(), last.flag().as_bytes());
    let mut depth = depth;
    while depth < low.len()
        && depth < high.len()
        && depth < word.len()
        && low[depth] == word[depth]
        && high[depth] == word[depth]
    {
        depth += 1;
    }
    depth
}

/// The same of two nodes, as all flags of both do.
fn common_of_both<T: ArgumentValue>(
    first: &[ArgInfo<T>],
    second: &[ArgInfo<T>],
    depth: usize,
    word: &[u8],
) -> usize
    requires first { IsNode depth word.now (entries_of first.now) }
    requires second { IsNode depth word.now (entries_of second.now) }
    requires some { 0 < length first.now + length second.now }
    ensures first { IsNode result word.now (entries_of first.now) }
    ensures second { IsNode result word.now (entries_of second.now) }
    ensures least { depth ≤ result }
    ensures reached { result ≤ max (reach (entries_of first.now) word.now)
        (reach (entries_of second.now) word.now) }
{
    if second.is_empty() {
        return common(first, depth, word);
    }
    if first.is_empty() {
        return common(second, depth, word);
    }
    common(first, depth, word).min(common(second, depth, word))
}

/// One byte further in a table: the best with what ends there, and of a node's entries those that go on as the word does.
fn step<'a, T: ArgumentValue>(
    best: Option<&'a ArgInfo<T>>,
    node: &'a [ArgInfo<T>],
    depth: usize,
    word: &[u8],
) -> (Option<&'a ArgInfo<T>>, &'a [ArgInfo<T>])
    requires node { IsNode depth word.now (entries_of node.now) }
    ensures fit { longer (entry_at result.0) (longest_fit (entries_of result.1.now) word.now)
        ≡ longer (entry_at best.entry) (longest_fit (entries_of node.now) word.now) }
    ensures node { IsNode (depth + 1) word.now (entries_of result.1.now) }
    ensures reach { max depth (reach (entries_of result.1.now) word.now)
        ≡ max depth (reach (entries_of node.now) word.now) }
{
    let (found, others) = past_ended(best, node, depth, word);
    match word.get(depth) {
        None => (found, &others[..0]),
        Some(byte) => (found, picked(others, depth, *byte)),
    }
}

/// From a node of two tables on, with the best of each so far: the entry of the word, and by how many bytes the walk goes on.
pub(crate) fn walk<'a, T: ArgumentValue>(
    best: Option<&'a ArgInfo<T>>,
    node: &'a [ArgInfo<T>],
    best_second: Option<&'a ArgInfo<T>>,
    node_second: &'a [ArgInfo<T>],
    depth: usize,
    word: &[u8],
) -> (Option<&'a ArgInfo<T>>, usize)
    requires first { IsNode depth word.now (entries_of node.now) }
    requires second { IsNode depth word.now (entries_of node_second.now) }
    requires some { 0 < length node.now + length node_second.now }
    ensures fit { entry_at result.0
        ≡ longer (longer (entry_at best.entry) (longest_fit (entries_of node.now) word.now))
        (longer (entry_at best_second.entry) (longest_fit (entries_of node_second.now) word.now)) }
    ensures steps { depth + result.1
        ≡ max (reach (entries_of node.now) word.now) (reach (entries_of node_second.now) word.now) }
{
    let (mut best, mut node) = (best, node);
    let (mut best_second, mut node_second) = (best_second, node_second);
    let (mut depth, mut steps) = (depth, 0);
    'nodes: loop {
        let alike = common_of_both(node, node_second, depth, word);
        steps += alike - depth;
        depth = alike;
        (best, node) = step(best, node, depth, word);
        (best_second, node_second) = step(best_second, node_second, depth, word);
        if node.is_empty() && node_second.is_empty() {
            return (longer(best, best_second), steps);
        }
        depth += 1;
        steps += 1;
    }
}

impl<T: ArgumentValue> Branch<T> {
    pub(crate) fn of(table: Table<T>) -> Branch<T>
        ensures { result ≡ table }
    {
        let stem = Stem::of(table.entries());
        Branch { table, stem }
    }

    /// Whether in the table flags rise strictly and delimiters are ASCII.
    pub(crate) fn check(&self) -> bool
        ensures { result ≡ is_table self.now }
    {
        self.table.check()
    }

    /// Where the word's first two bytes lead: the best of the entries whose flags have ended, those whose flags begin with both
    /// bytes, and whether any begins with the first one.
    pub(crate) fn begun(&self, word: &[u8]) -> (Option<&ArgInfo<T>>, &[ArgInfo<T>], bool)
        ensures fit { longer (entry_at result.0) (longest_fit (entries_of result.1.now) word.now)
            ≡ longest_fit self.now word.now }
        ensures node { IsNode 2 word.now (entries_of result.1.now) }
        ensures reach { max 1 (reach (entries_of result.1.now) word.now)
            ≡ max 1 (reach self.now word.now) }
        ensures first { result.2 ≡ nat_lt 0 (reach self.now word.now) }
    {
        let entries = self.table.entries();
        match (&self.stem, word) {
            (Some(stem), [byte, next, ..]) if *byte == stem.byte => {
                let (found, others) = past_ended(None, &entries[..stem.count], 1, word);
                (found, stem.fork.picked(others, *next), true)
            }
            _ => {
                let (best, node) = step(None, entries, 0, word);
                let (found, below) = step(best, node, 1, word);
                (found, below, !node.is_empty())
            }
        }
    }
}
