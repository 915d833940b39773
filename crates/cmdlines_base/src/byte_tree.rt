//! One table or two, searched as one tree of their flags, byte by byte.

ghost use Rattle.std.specs.Prelude.{◌≡◌, ◌∷◌, [], ◌≤◌, ◌+◌, length, max, nat_lt, option_to_list};
ghost use Rattle.cmdlines_base.specs.Nodes.{IsNode};
ghost use Rattle.cmdlines_base.specs.Reach.{node_steps, reach};
ghost use Rattle.cmdlines_base.specs.Table.{all_entries, entries_of, entry_at, longer, longest_fit};

use crate::branch::{Branch, walk};
use crate::table::{ArgInfo, SearchableArgInfo, Table, longer};
use crate::value::ArgumentValue;
use std::marker::Model;

/// A tree of the flags of one table, or of two, where the second one's entry wins on equal flags.
///
/// Flags rise, so in each table the entries whose flags begin alike are adjacent. Such a stretch of each table is a node, at
/// which both stay, and its children are the stretches of those that go on with one byte, in the order of their bytes. So the
/// tree is as large as its tables. What is made with it are the nodes after two bytes, where most ways part: for each second
/// byte the places of those that have it. That takes one look at each entry, and no memory.
#[derive(Drop)]
pub struct ByteTree<T: ArgumentValue> {
    first: Branch<T>,
    second: Option<Branch<T>>,
}

impl<T: ArgumentValue> Model for ByteTree<T> {
    ghost use Rattle.std.specs.Prelude.{List, ◌∷◌, option_to_list};
    ghost use Rattle.cmdlines_base.specs.Table.{Entry};

    ghost Value = { List (List (Entry T.Kind)) };

    ghost view = { λ a. a.first ∷ option_to_list a.second };
}

/// Where the word's first two bytes lead in the second table, if there is one.
fn begun_in<'a, T: ArgumentValue>(
    branch: &'a Option<Branch<T>>,
    word: &[u8],
) -> (Option<&'a ArgInfo<T>>, &'a [ArgInfo<T>], bool)
    ensures fit { longer (entry_at result.0) (longest_fit (entries_of result.1.now) word.now)
        ≡ longest_fit (all_entries (option_to_list branch.now)) word.now }
    ensures node { IsNode 2 word.now (entries_of result.1.now) }
    ensures reach { max 1 (reach (entries_of result.1.now) word.now)
        ≡ max 1 (reach (all_entries (option_to_list branch.now)) word.now) }
    ensures first { result.2 ≡ nat_lt 0 (reach (all_entries (option_to_list branch.now)) word.now) }
{
    match branch {
        Some(branch) => branch.begun(word),
        None => (None, &[], false),
    }
}

impl<T: ArgumentValue> ByteTree<T> {
    /// The tree of one table.
    pub fn of_one(table: Table<T>) -> ByteTree<T>
        ensures { result ≡ table ∷ [] }
    {
        ByteTree {
            first: Branch::of(table),
            second: None,
        }
    }

    /// The tree of two tables.
    pub fn of_two(first: Table<T>, second: Table<T>) -> ByteTree<T>
        ensures { result ≡ first ∷ second ∷ [] }
    {
        ByteTree {
            first: Branch::of(first),
            second: Some(Branch::of(second)),
        }
    }

    /// The entry of the word, and how many nodes are on its way: the root, and one for each byte of the longest beginning of the
    /// word that begins a flag. It takes no memory.
    pub fn search_counted(&self, word: &[u8]) -> (Option<&ArgInfo<T>>, usize)
        ensures entry { entry_at result.0 ≡ longest_fit (all_entries self.now) word.now }
        ensures steps { result.1 ≡ node_steps (all_entries self.now) word.now }
        ensures bound { result.1 ≤ length word.now + 1 }
    {
        let (best, node, begins) = self.first.begun(word);
        let (best_second, node_second, begins_second) = begun_in(&self.second, word);
        if node.is_empty() && node_second.is_empty() {
            let bytes = usize::from(begins | begins_second);
            return (longer(best, best_second), 1 + bytes);
        }
        let (found, further) = walk(best, node, best_second, node_second, 2, word);
        (found, 1 + 2 + further)
    }
}

impl<T: ArgumentValue> SearchableArgInfo<T> for ByteTree<T> {
    ghost tables = { λ t. t };

    fn search(&self, word: &[u8]) -> Option<&ArgInfo<T>> {
        self.search_counted(word).0
    }

    fn check(&self) -> bool {
        self.first.check()
            && match &self.second {
                Some(branch) => branch.check(),
                None => true,
            }
    }
}
