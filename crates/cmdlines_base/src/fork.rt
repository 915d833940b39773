//! Where flags that begin with one byte part by the next one.

ghost use Rattle.std.specs.Prelude.{◌≡◌, ◌+◌, ◌^◌, ◌<◌, ℕ, ◌==◌, ◌&&◌, IfSome, if◌then◌else◌, slice_index_or};
ghost use Rattle.std.specs.List.Sorted.{IsNonDecreasingBy};
ghost use Rattle.cmdlines_base.specs.Forks.{IsForkOf};
ghost use Rattle.cmdlines_base.specs.Nodes.{IsPicked, byte_at};
ghost use Rattle.cmdlines_base.specs.Table.{entries_of, entry_of};

use crate::table::ArgInfo;
use crate::value::ArgumentValue;

/// Of entries whose flags begin with one byte and go on: where those with each byte after it are.
#[derive(Drop)]
pub(crate) struct Fork {
    /// For each byte the place of the first one.
    begins: [u8; 256],
    /// For each byte the place after the last one, and 0 where there is none.
    ends: [u8; 256],
}

impl Fork {
    /// The fork of no entries.
    fn none() -> Fork
        ensures begins { (b : ℕ) → slice_index_or result.begins b 0 ≡ 0 }
        ensures ends { (b : ℕ) → slice_index_or result.ends b 0 ≡ 0 }
    {
        Fork {
            begins: [0; 256],
            ends: [0; 256],
        }
    }

    /// Notes that the entry at this place, which is after all others, has that byte.
    fn note(&mut self, byte: u8, place: u8)
        requires { place + 1 < 2 ^ 8 }
        ensures begins { (b : ℕ) → slice_index_or self.new.begins b 0
            ≡ (if b == byte && slice_index_or self.old.ends b 0 == 0 then place
            else slice_index_or self.old.begins b 0) }
        ensures ends { (b : ℕ) → slice_index_or self.new.ends b 0
            ≡ (if b == byte then place + 1 else slice_index_or self.old.ends b 0) }
    {
        let index = usize::from(byte);
        if self.ends[index] == 0 {
            self.begins[index] = place;
        }
        self.ends[index] = place + 1;
    }

    /// The fork of these entries; None where there are too many of them.
    pub(crate) fn of<T: ArgumentValue>(entries: &[ArgInfo<T>]) -> Option<Fork>
        requires rising { IsNonDecreasingBy (λ e. byte_at 1 (entry_of e)) entries.now }
        ensures { IfSome result (λ fork. IsForkOf fork (entries_of entries.now)) }
    {
        let mut fork = Fork::none();
        let mut place: u8 = 0;
        for entry in entries {
            let next = place.checked_add(1)?;
            fork.note(entry.byte_at(1), place);
            place = next;
        }
        Some(fork)
    }

    /// Of the entries that it is the fork of, those with that byte.
    pub(crate) fn picked<'a, T: ArgumentValue>(
        &self,
        entries: &'a [ArgInfo<T>],
        byte: u8,
    ) -> &'a [ArgInfo<T>]
        requires { IsForkOf self.now (entries_of entries.now) }
        ensures { IsPicked 1 byte (entries_of entries.now) (entries_of result.now) }
    {
        let index = usize::from(byte);
        &entries[usize::from(self.begins[index])..usize::from(self.ends[index])]
    }
}
