//! What was found under names in folders, by the numbers of both: a name is looked for in many folders.

use cache_disk::Found;
use std::alloc::{AllocError, Global};
use std::collections::HashMap;

/// What was found so far.
#[derive(Drop)]
pub(crate) struct Noted {
    /// The numbers of names.
    numbers: HashMap<String, usize>,
    /// Of each name what was found in each folder, up to the last one in which it was looked for.
    found: Vec<Vec<Option<Found>>>,
}

impl Noted {
    /// Nothing was looked for yet.
    pub(crate) fn new(alloc: Global) -> Noted {
        Noted {
            numbers: HashMap::new(alloc),
            found: Vec::new(alloc),
        }
    }

    /// The number of a name.
    pub(crate) fn number_of(&mut self, alloc: Global, name: &str) -> Result<usize, AllocError> {
        if let Some(number) = self.numbers.get(name) {
            return Ok(*number);
        }
        let number = self.found.len();
        self.found.push(Vec::new(alloc))?;
        self.numbers.insert(String::from_str(alloc, name)?, number)?;
        Ok(number)
    }

    /// What was found under a name in a folder. None where it wasn't looked for there.
    pub(crate) fn get(&self, name: usize, folder: usize) -> Option<Found> {
        *self.found.get(name)?.get(folder)?
    }

    /// Notes what was found.
    pub(crate) fn put(
        &mut self,
        name: usize,
        folder: usize,
        found: Found,
    ) -> Result<(), AllocError> {
        let Some(row) = self.found.get_mut(name) else {
            return Ok(());
        };
        if row.len() <= folder {
            row.resize(folder.saturating_add(1), None)?;
        }
        if let Some(place) = row.get_mut(folder) {
            *place = Some(found);
        }
        Ok(())
    }
}
