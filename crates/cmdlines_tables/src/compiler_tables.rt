//! The tables of a compiler, searched as one.

ghost use Rattle.std.specs.Prelude.{◌≡◌, IfOk};
ghost use Rattle.cmdlines_tables.specs.Tables.{tables_of};

use crate::compiler::CCompilerKind;
use crate::value::ArgData;
use cmdlines_base::ByteTree;
use std::alloc::{AllocError, Global};

/// The tree of a compiler's flags: of its one table, or of both.
pub fn compiler_tree(alloc: Global, kind: CCompilerKind) -> Result<ByteTree<ArgData>, AllocError>
    ensures { IfOk result (λ tree. tree ≡ tables_of kind) }
{
    match kind.tables(alloc)? {
        (table, None) => Ok(ByteTree::of_one(table)),
        (first, Some(second)) => Ok(ByteTree::of_two(first, second)),
    }
}
