//! A copy of a list of names, item by item.

ghost use Rattle.std.specs.Prelude.{◌≡◌, IfOk};

use base_files::Listed;
use ckeys_records::output_name::OutputName;
use std::alloc::{AllocError, Global};

/// Another list of the same names.
pub fn copied_names(alloc: Global, names: &[OutputName]) -> Result<Listed<OutputName>, AllocError>
    ensures { IfOk result (λ copy. copy ≡ names.now) }
{
    let mut copy = Listed::new(alloc);
    for output in names {
        let name = output.name.clone()?;
        let optional = output.optional;
        copy.push(OutputName { name, optional })?;
    }
    Ok(copy)
}
