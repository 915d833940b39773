//! What sources include, as a text shows it that has a line for each include among its markers, which the preprocessor prints for `-dI`.

use crate::entered::{Step, step_in};
use crate::texts::Source;
use cache_source_directives::{Asked, Search, name_alone};
use std::alloc::{AllocError, Global};
use std::collections::{HashMap, HashSet};

/// What the line of an include begins with, and whether that looks in the folders after its own.
const INCLUDES: [(&[u8], bool); 3] = [
    (b"#include ", false),
    (b"#import ", false),
    (b"#include_next ", true),
];

/// What a line includes, where it is that of an include, and whether that looks in the folders after its own.
fn included_in(line: &[u8]) -> Option<(&[u8], bool)> {
    for (front, is_next) in INCLUDES.iter() {
        if let Some(after) = line.strip_prefix(*front) {
            return Some((after, *is_next));
        }
    }
    None
}

/// What sources include, each once, by the lines of a text up to a place.
#[derive(Drop)]
pub(crate) struct ShownIncludes<'a> {
    /// The numbers of the sources by their names; that of the input is 0.
    numbers: HashMap<&'a [u8], usize>,
    /// The names of the files that are open there, except for the input.
    open: Vec<&'a [u8]>,
    /// The lines that were read, with the numbers of their sources.
    seen: HashSet<(usize, &'a [u8])>,
    /// What is asked for, with the number of the source that asks.
    pub(crate) asked: Vec<(usize, Asked<'a>)>,
}

impl<'a> ShownIncludes<'a> {
    /// Nothing was read yet.
    fn new(alloc: Global, sources: &[Source<'a>]) -> Result<ShownIncludes<'a>, AllocError> {
        let mut numbers = HashMap::new(alloc);
        for (number, source) in sources.iter().enumerate() {
            numbers.insert(source.name, number)?;
        }
        Ok(ShownIncludes {
            numbers,
            open: Vec::new(alloc),
            seen: HashSet::new(alloc),
            asked: Vec::new(alloc),
        })
    }

    /// Takes a marker. False where a file goes on that has taken in none.
    fn take_step(&mut self, step: Step<'a>) -> Result<bool, AllocError> {
        match step {
            Step::Enters(name) => {
                self.open.push(name)?;
                Ok(true)
            }
            Step::Returns => Ok(self.open.pop().is_some()),
        }
    }

    /// Takes the line of an include. False where it can't be determined which source asks for what.
    fn take_line(
        &mut self,
        line: &'a [u8],
        operand: &'a [u8],
        is_next: bool,
    ) -> Result<bool, AllocError> {
        let number = match self.open.last() {
            None => 0,
            Some(name) => match self.numbers.get(name) {
                Some(number) => *number,
                // The compiler has names in such marks for the words of the command, which are looked at by themselves.
                None => return Ok(name.starts_with(b"<")),
            },
        };
        if !self.seen.insert((number, line))? {
            return Ok(true);
        }
        let Some(Asked { name, search }) = name_alone(operand) else {
            return Ok(false);
        };
        let search = if is_next { Search::Next } else { search };
        self.asked.push((number, Asked { name, search }))?;
        Ok(true)
    }

    /// Takes a line. False where it can't be determined which source asks for what.
    fn take(&mut self, line: &'a [u8]) -> Result<bool, AllocError> {
        if !line.starts_with(b"#") {
            return Ok(true);
        }
        if let Some(step) = step_in(line) {
            return self.take_step(step);
        }
        match included_in(line) {
            Some((operand, is_next)) => self.take_line(line, operand, is_next),
            None => Ok(true),
        }
    }

    /// What the text shows that these sources include, of which the first is the input. None where that can't be determined.
    pub(crate) fn of(
        alloc: Global,
        sources: &[Source<'a>],
        text: &'a [u8],
    ) -> Result<Option<ShownIncludes<'a>>, AllocError> {
        let mut shown = ShownIncludes::new(alloc, sources)?;
        for line in text.split(|byte| *byte == b'\n') {
            if !shown.take(line)? {
                return Ok(None);
            }
        }
        match shown.open.is_empty() {
            true => Ok(Some(shown)),
            false => Ok(None),
        }
    }
}
