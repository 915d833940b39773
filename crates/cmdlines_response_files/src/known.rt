//! The arguments of response files that were read: a file that is named again is neither read nor cut again, where cutting it costs more
//! than copying its arguments.

ghost use Rattle.std.specs.Prelude.{◌≡◌, List, Option, IfOk, OnOk};
ghost use Rattle.base_files.specs.Bytes.{Bytes};
ghost use Rattle.cmdlines_response_files.specs.Known.{AreTrue, known_at};

use base_files::{Listed, OsBytes};
use std::alloc::{AllocError, Global};
use std::collections::HashMap;

/// The arguments of files, by the files' paths; `None` for a file that isn't opened.
#[derive(Drop)]
pub struct KnownFiles {
    by_path: HashMap<OsBytes, Option<Listed<OsBytes>>>,
}

impl KnownFiles {
    /// Nothing is known. It takes no memory.
    pub fn new(alloc: Global) -> KnownFiles
        ensures { (arguments_at : Bytes → Option (List Bytes)) → AreTrue result arguments_at }
    {
        KnownFiles {
            by_path: HashMap::new(alloc),
        }
    }

    /// A copy of the arguments of the file of that path, if they are known.
    pub fn get(&self, path: &OsBytes) -> Result<Option<Option<Listed<OsBytes>>>, AllocError>
        ensures { IfOk result (λ found. found ≡ known_at self.now path.now) }
    {
        match self.by_path.get(path) {
            Some(arguments) => Ok(Some(copy_of(arguments)?)),
            None => Ok(None),
        }
    }

    /// Notes the arguments of the file of that path, if its text is so much longer that copying them costs less than cutting it again.
    pub fn note(
        &mut self,
        path: &OsBytes,
        text: &[u8],
        arguments: &Option<Listed<OsBytes>>,
    ) -> Result<(), AllocError>
        ensures { (arguments_at : Bytes → Option (List Bytes)) → AreTrue self.old arguments_at
            → arguments_at path.now ≡ arguments.now → OnOk result (AreTrue self.new arguments_at) }
    {
        if cost_of(arguments) >= text.len() {
            return Ok(());
        }
        self.by_path.insert(path.clone()?, copy_of(arguments)?)?;
        Ok(())
    }
}

/// A copy of arguments.
fn copy_of(arguments: &Option<Listed<OsBytes>>) -> Result<Option<Listed<OsBytes>>, AllocError>
    ensures { IfOk result (λ copy. copy ≡ arguments.now) }
{
    match arguments {
        Some(arguments) => Ok(Some(arguments.clone()?)),
        None => Ok(None),
    }
}

/// What copying arguments costs at most, as so many bytes of a text that is cut.
fn cost_of(arguments: &Option<Listed<OsBytes>>) -> usize {
    let Some(arguments) = arguments else {
        return 0;
    };
    let mut cost: usize = 0;
    for argument in arguments.as_slice() {
        cost = cost
            .saturating_add(COST_OF_AN_ARGUMENT)
            .saturating_add(argument.as_bytes().len());
    }
    cost
}

/// What copying one argument costs besides its bytes: an allocation takes about as long as cutting so many bytes.
const COST_OF_AN_ARGUMENT: usize = 32;
