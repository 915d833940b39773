//! Facts that a test asks for, one after the other.

use std::alloc::Global;
use std::fmt::Display;
use std::test::Fail;

/// What a test asked for, and the first thing that wasn't so.
///
/// To ask takes one call that can't fail, and no row that is walked: so many facts cost one proof of how each is found.
#[derive(Drop)]
pub struct Checks<'a> {
    alloc: Global,
    first_wrong: Option<&'a str>,
}

impl<'a> Checks<'a> {
    /// Nothing was asked for yet.
    pub fn new(alloc: Global) -> Checks<'a> {
        Checks {
            alloc,
            first_wrong: None,
        }
    }

    /// Asks for a fact, which this text names.
    pub fn holds(&mut self, is_so: bool, what: &'a str) {
        if !is_so && self.first_wrong.is_none() {
            self.first_wrong = Some(what);
        }
    }

    /// Asks for a value that prints this text.
    pub fn prints<T: Display>(&mut self, value: &T, want: &'a str) {
        match format!(in self.alloc; "{value}") {
            Ok(text) => self.holds(text.as_str() == want, want),
            Err(_) => self.holds(false, want),
        }
    }

    /// The first thing that wasn't so fails the test, and the failure names it.
    pub fn end(self) -> Result<(), Fail> {
        match self.first_wrong {
            Some(what) => Err(Fail::new(format_args!("not so: {what}"))),
            None => Ok(()),
        }
    }
}
