//! Which names were noted, and at which numbers.

ghost use Rattle.std.specs.Prelude.{◌≡◌, [], ◌∷◌, ◌++◌, IfOk, OnOk, if◌then◌else◌, string_bytes};
ghost use Rattle.std.specs.Option.{option_map};
ghost use Rattle.std.specs.Str.{bytes_eq};
ghost use Rattle.sccache_recorded_builds.specs.Beware.{AreOnce, is_among, is_named};
ghost use Rattle.sccache_recorded_builds.specs.Tallies.{AreRowsOf, numbers_in};

use std::alloc::{AllocError, Global};
use std::collections::BTreeMap;

/// The numbers at which each name was noted.
#[derive(Drop)]
pub struct Tally {
    names: BTreeMap<String, Vec<u64>>,
}

/// A name and the numbers at which it was noted.
pub type Row = (String, Vec<u64>);

impl Tally {
    pub fn new(alloc: Global) -> Tally
        ensures { (name : _) → numbers_in result name ≡ [] }
    {
        Tally {
            names: BTreeMap::new(alloc),
        }
    }

    /// Notes a name at a number.
    pub fn note(&mut self, name: String, number: u64) -> Result<(), AllocError>
        ensures { OnOk result ((other : _) → numbers_in self.new other
            ≡ numbers_in self.old other
            ++ (if bytes_eq other (string_bytes name) then number ∷ [] else [])) }
    {
        self.names.entry(name)?.or_default().push(number)?;
        Ok(())
    }

    /// Notes a name, where there is one, at a number.
    pub(crate) fn note_some(&mut self, name: Option<String>, number: u64) -> Result<(), AllocError>
        ensures { OnOk result ((other : _) → numbers_in self.new other
            ≡ numbers_in self.old other
            ++ (if is_named other (option_map string_bytes name) then number ∷ [] else [])) }
    {
        match name {
            Some(name) => self.note(name, number),
            None => Ok(()),
        }
    }

    /// Notes the name that a text is at a number.
    fn note_text(&mut self, alloc: Global, name: &str, number: u64) -> Result<(), AllocError>
        ensures { OnOk result ((other : _) → numbers_in self.new other
            ≡ numbers_in self.old other
            ++ (if bytes_eq other name.now then number ∷ [] else [])) }
    {
        self.note(String::from_str(alloc, name)?, number)
    }

    /// Notes each of these names at a number.
    pub(crate) fn note_each(
        &mut self,
        alloc: Global,
        names: &[&'static str],
        number: u64,
    ) -> Result<(), AllocError>
        requires { AreOnce names.now }
        ensures { OnOk result ((other : _) → numbers_in self.new other
            ≡ numbers_in self.old other
            ++ (if is_among other names.now then number ∷ [] else [])) }
    {
        for name in names {
            self.note_text(alloc, name, number)?;
        }
        Ok(())
    }

    /// Each name with its numbers, the one with the most first, and where two have as many in the order of their bytes.
    pub fn into_rows(self, alloc: Global) -> Result<Vec<Row>, AllocError>
        ensures { IfOk result (λ rows. AreRowsOf self rows.items) }
    {
        let mut rows: Vec<Row> = self.names.into_iter().collect(alloc)?;
        rows.sort_by(|one, other| other.1.len().cmp(&one.1.len()))?;
        Ok(rows)
    }
}
