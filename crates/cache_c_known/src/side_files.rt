//! The files that a compile of a call wrote beside its object, but for the dependency file.

use crate::known::Known;
use base_files::{Listed, OsBytes};
use cache_disk::State;
use cache_host::HostError;
use cache_known_options::{Beside, SideFiles};
use cache_source_files::made_since;
use std::rt::Files;

impl Known {
    /// What the words say of such files; nothing where those words are passed to the session.
    pub fn side_files(&self) -> Option<&SideFiles> {
        match &self.beside {
            Some(beside) => Some(&beside.side_files),
            None => None,
        }
    }

    /// These paths, and those of the files beside them.
    pub fn with_side_paths(&self, paths: &Listed<OsBytes>) -> Result<Listed<OsBytes>, HostError> {
        let mut all = paths.clone()?;
        if let Some(side_files) = self.side_files() {
            for path in side_files.paths.as_slice() {
                all.push(path.clone()?)?;
            }
        }
        Ok(all)
    }

    /// Takes the files beside the object that were made, which had these states before. A compiler may have nothing to say in one, as of an
    /// assembler's input, and writes none then.
    pub(crate) fn take_side_files<R: Files + AllocGlobal>(
        &mut self,
        rt: &R,
        before: &[Option<State>],
    ) -> Result<(), HostError> {
        let Some(Beside { side_files, .. }) = &self.beside else {
            return Ok(());
        };
        let made = made_since(rt, side_files.paths.as_slice(), before)?.into_vec();
        let mut number: usize = 0;
        for contents in made {
            let Some(ending) = side_files.endings.as_slice().get(number) else {
                break;
            };
            number = number.saturating_add(1);
            if let Some(contents) = contents {
                let ending = OsBytes::from_slice(rt.alloc(), ending.as_bytes())?;
                self.side_made.push((ending, contents))?;
            }
        }
        Ok(())
    }
}
