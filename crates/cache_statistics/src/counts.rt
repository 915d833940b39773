//! Numbers by name.

ghost use Rattle.std.specs.Prelude.{◌≡◌, OnOk};
ghost use Rattle.cache_statistics.specs.Counting.{number_in, with_more};

use crate::record::{SIZE, put_record, read_record};
use std::alloc::{AllocError, Global};
use std::collections::BTreeMap;

/// How many names there are at most. What has another one is counted under `OTHER`.
const MOST: usize = 400;

/// What is counted where there are too many names.
const OTHER: &str = "uncacheable_other";

/// How often each name was counted.
#[derive(Drop)]
pub struct Counts {
    numbers: BTreeMap<String, u64>,
}

impl Counts {
    /// Nothing was counted.
    pub fn new(alloc: Global) -> Counts
        ensures { (name : _) → number_in result name ≡ 0 }
    {
        Counts {
            numbers: BTreeMap::new(alloc),
        }
    }

    /// The number of this name; 0 where it wasn't counted.
    pub fn number_of(&self, name: &str) -> u64
        ensures { result ≡ number_in self.now name.now }
    {
        match self.numbers.get(name) {
            Some(number) => *number,
            None => 0,
        }
    }

    /// Counts a name so many times more.
    pub fn add(&mut self, alloc: Global, name: &str, number: u64) -> Result<(), AllocError>
        ensures { OnOk result ((other : _) → number_in self.new other
            ≡ with_more (number_in self.old) name.now number other) }
    {
        let counted = self
            .numbers
            .entry(String::from_str(alloc, name)?)?
            .or_default();
        *counted = counted.saturating_add(number);
        Ok(())
    }

    /// The name under which one is counted: `OTHER` where there are too many names already.
    fn name_for<'a>(&self, name: &'a str) -> &'a str {
        match self.numbers.len() < MOST || self.numbers.contains_key(name) {
            true => name,
            false => OTHER,
        }
    }

    /// Counts what a record says. One that is none is left out.
    fn add_record(&mut self, alloc: Global, record: &[u8]) -> Result<(), AllocError> {
        let Some((name, number)) = read_record(record) else {
            return Ok(());
        };
        match str::from_utf8(name) {
            Ok(name) => {
                let name = self.name_for(name);
                self.add(alloc, name, number)
            }
            Err(_) => Ok(()),
        }
    }

    /// What the records in these bytes count together.
    pub fn read(alloc: Global, bytes: &[u8]) -> Result<Counts, AllocError> {
        let mut counts = Counts::new(alloc);
        for record in bytes.chunks_exact(SIZE) {
            counts.add_record(alloc, record)?;
        }
        Ok(counts)
    }

    /// One record for each name.
    pub fn records(&self, alloc: Global) -> Result<Vec<u8>, AllocError> {
        let mut bytes = Vec::new(alloc);
        for (name, number) in &self.numbers {
            put_record(&mut bytes, name.as_bytes(), *number)?;
        }
        Ok(bytes)
    }

    /// The names that were counted, in order.
    pub fn names(&self, alloc: Global) -> Result<Vec<&str>, AllocError> {
        let mut names = Vec::new(alloc);
        for (name, _) in &self.numbers {
            names.push(name.as_str())?;
        }
        Ok(names)
    }
}
