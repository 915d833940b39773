//! The tables of Diab and TaskingVX. docs/FORMATS.md has their options by what they are for.

ghost use Rattle.std.specs.Prelude.{◌≡◌, IfOk};
ghost use Rattle.cmdlines_tables.specs.EmbeddedTables.{diab_entries, tasking_vx_entries};

use crate::kind::ArgKind;
use crate::value::ArgData;
use cmdlines_base::{ArgDisposition, ArgInfo, Table};
use std::alloc::{AllocError, Global};

/// The options of Diab.
#[tactic(auto, unfolding(crate::specs::EmbeddedTables::diab_entries))]
pub fn diab_table(alloc: Global) -> Result<Table<ArgData>, AllocError>
    ensures { IfOk result (λ table. table ≡ diab_entries) }
{
    let either = ArgDisposition::CanBeSeparated(None);
    let joined = ArgDisposition::Concatenated(None);
    let by_equals = ArgDisposition::Concatenated(Some(b'='));
    let entries = vec![in alloc;
        ArgInfo::Flag("-", ArgKind::TooHard),
        ArgInfo::Flag("-###", ArgKind::TooHard),
        ArgInfo::TakeArg("-@", ArgKind::TooHard, joined),
        ArgInfo::TakeArg("-D", ArgKind::PreprocessorArgument, either),
        ArgInfo::Flag("-E", ArgKind::TooHard),
        ArgInfo::TakeArg("-I", ArgKind::PreprocessorArgument, either),
        ArgInfo::TakeArg("-L", ArgKind::PassThrough, either),
        ArgInfo::Flag("-P", ArgKind::TooHard),
        ArgInfo::Flag("-S", ArgKind::TooHard),
        ArgInfo::TakeArg("-U", ArgKind::PreprocessorArgument, either),
        ArgInfo::Flag("-V", ArgKind::TooHard),
        ArgInfo::Flag("-VV", ArgKind::TooHard),
        ArgInfo::TakeArg("-W", ArgKind::PassThrough, either),
        ArgInfo::Flag("-Xmake-dependency", ArgKind::TooHard),
        ArgInfo::TakeArg("-Xmake-dependency-savefile", ArgKind::TooHard, by_equals),
        ArgInfo::Flag("-c", ArgKind::DoCompilation),
        ArgInfo::TakeArg("-l", ArgKind::PassThrough, either),
        ArgInfo::TakeArg("-o", ArgKind::Output, either),
        ArgInfo::TakeArg("-t", ArgKind::PassThrough, either),
        ArgInfo::TakeArg("@", ArgKind::TooHard, joined),
    ]?;
    Ok(Table::new(entries).unwrap())
}

/// The options of TaskingVX.
#[tactic(auto, unfolding(crate::specs::EmbeddedTables::tasking_vx_entries))]
pub fn tasking_vx_table(alloc: Global) -> Result<Table<ArgData>, AllocError>
    ensures { IfOk result (λ table. table ≡ tasking_vx_entries) }
{
    let either = ArgDisposition::CanBeSeparated(None);
    let either_by_equals = ArgDisposition::CanBeSeparated(Some(b'='));
    let entries = vec![in alloc;
        ArgInfo::TakeArg("--define", ArgKind::PreprocessorArgument, either_by_equals),
        ArgInfo::TakeArg("--dep-file", ArgKind::TooHard, either_by_equals),
        ArgInfo::Flag("--dry-run", ArgKind::TooHard),
        ArgInfo::TakeArg(
            "--include-directory",
            ArgKind::PreprocessorArgument,
            either_by_equals
        ),
        ArgInfo::TakeArg(
            "--include-file",
            ArgKind::PreprocessorArgument,
            either_by_equals
        ),
        ArgInfo::TakeArg(
            "--library-directory",
            ArgKind::PassThrough,
            either_by_equals
        ),
        ArgInfo::TakeArg("--mil-split", ArgKind::TooHard, either_by_equals),
        ArgInfo::TakeArg("--option-file", ArgKind::TooHard, either_by_equals),
        ArgInfo::TakeArg("--output", ArgKind::Output, either_by_equals),
        ArgInfo::TakeArg("--preprocess", ArgKind::TooHard, either_by_equals),
        ArgInfo::TakeArg(
            "--undefine",
            ArgKind::PreprocessorArgument,
            either_by_equals
        ),
        ArgInfo::Flag("--version", ArgKind::TooHard),
        ArgInfo::Flag("-?", ArgKind::TooHard),
        ArgInfo::TakeArg("-D", ArgKind::PreprocessorArgument, either),
        ArgInfo::Flag("-E", ArgKind::TooHard),
        ArgInfo::TakeArg("-H", ArgKind::PreprocessorArgument, either),
        ArgInfo::TakeArg("-I", ArgKind::PreprocessorArgument, either),
        ArgInfo::TakeArg("-L", ArgKind::PassThrough, either),
        ArgInfo::TakeArg("-U", ArgKind::PreprocessorArgument, either),
        ArgInfo::Flag("-V", ArgKind::TooHard),
        ArgInfo::Flag("-c", ArgKind::DoCompilation),
        ArgInfo::TakeArg("-f", ArgKind::TooHard, either),
        ArgInfo::Flag("-n", ArgKind::TooHard),
        ArgInfo::TakeArg("-o", ArgKind::Output, either),
    ]?;
    Ok(Table::new(entries).unwrap())
}
