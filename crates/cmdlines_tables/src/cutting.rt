//! Words cut as a compiler cuts them.

ghost use Rattle.std.specs.Prelude.{◌≡◌, List};
ghost use Rattle.cmdlines_base.specs.Cutting.{place_of, table_in, reading_at};
ghost use Rattle.cmdlines_base.specs.Reading.{reading};
ghost use Rattle.cmdlines_base.specs.Table.{Entry};
ghost use Rattle.cmdlines_tables.specs.Tables.{ends_options};
ghost use Rattle.cmdlines_tables.specs.declared.kind.ArgKind.{ArgKind};

use crate::compiler::CCompilerKind;
use crate::value::ArgData;
use base_files::OsBytes;
use cmdlines_base::{ArgsIter, SearchableArgInfo};
use std::alloc::Global;

/// The arguments of words, as that compiler cuts them by a table.
pub fn arguments_of<'a, S: SearchableArgInfo<ArgData>>(
    alloc: Global,
    kind: CCompilerKind,
    table: &'a S,
    words: &'a [OsBytes],
) -> ArgsIter<'a, ArgData, S>
    ensures reading { (entries : List (Entry ArgKind))
        → reading_at entries (place_of result) ≡ reading (ends_options kind) entries words.now }
    ensures table { table_in result ≡ table.now }
{
    let arguments = ArgsIter::new(alloc, words, table);
    if kind.ends_options() {
        arguments.with_double_dashes()
    } else {
        arguments
    }
}
