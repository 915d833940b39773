//! Answers.

ghost use Rattle.std.specs.Prelude.{◌≡◌, map, IfOk};
ghost use Rattle.wrap_base.specs.Outputs.{pair_of};

use crate::reason::Reason;
use crate::store_key::Pairs;
use base_files::{Listed, OsBytes};
use std::alloc::{AllocError, Global};

/// Where outputs came from.
#[derive(Clone, Copy, Debug, PartialEq, Eq)]
pub enum How {
    /// From a store, by a key that a record gave.
    Direct,
    /// From a store.
    Stored,
    /// From one compile in this call.
    Fresh,
}

/// An output: its name, where this request wants it, and its contents.
#[derive(Clone, Debug, Drop, PartialEq, Eq)]
pub struct Output {
    pub name: OsBytes,
    pub path: OsBytes,
    pub contents: OsBytes,
}

/// Names and contents of these outputs, in order, as a store keeps them.
pub fn pairs_of(alloc: Global, outputs: &[Output]) -> Result<Pairs, AllocError>
    ensures { IfOk result (λ pairs. pairs ≡ map pair_of outputs.now) }
{
    let mut pairs = Listed::new(alloc);
    for output in outputs {
        let name = output.name.clone()?;
        pairs.push((name, output.contents.clone()?))?;
    }
    Ok(pairs)
}

/// What a request is answered.
#[derive(Clone, Debug, Drop, PartialEq, Eq)]
pub enum Answer {
    /// The build is to run the compiler itself.
    Pass(Reason),
    /// The outputs, in order, where they came from, and the text of the dep-info file where there is one.
    Outputs {
        map: Listed<Output>,
        how: How,
        dep_info: Option<OsBytes>,
    },
}
