//! rustc's table: each option with what it is for and how it takes a value. docs/FORMATS.md has its options by what
//! they are for.

ghost use Rattle.std.specs.Prelude.{◌≡◌, IfOk};
ghost use Rattle.rustc_options.specs.Table.{rustc_entries};

use crate::data::ArgData;
use crate::kind::ArgKind;
use cmdlines_base::{ArgDisposition, ArgInfo, Table};
use std::alloc::{AllocError, Global};

/// The options of rustc.
#[tactic(auto, unfolding(crate::specs::Table::rustc_entries))]
pub fn rustc_table(alloc: Global) -> Result<Table<ArgData>, AllocError>
    ensures { IfOk result (λ table. table ≡ rustc_entries) }
{
    let either = ArgDisposition::CanBeSeparated(None);
    let by_equals = ArgDisposition::CanBeSeparated(Some(b'='));
    let entries = vec![in alloc;
        ArgInfo::Flag("-", ArgKind::TooHardFlag),
        ArgInfo::TakeArg("--allow", ArgKind::PassThrough, by_equals),
        ArgInfo::TakeArg("--cap-lints", ArgKind::PassThrough, by_equals),
        ArgInfo::TakeArg("--cfg", ArgKind::PassThrough, by_equals),
        ArgInfo::TakeArg("--check-cfg", ArgKind::PassThrough, by_equals),
        ArgInfo::TakeArg("--codegen", ArgKind::CodeGen, by_equals),
        ArgInfo::TakeArg("--color", ArgKind::Color, by_equals),
        ArgInfo::TakeArg("--crate-name", ArgKind::CrateName, by_equals),
        ArgInfo::TakeArg("--crate-type", ArgKind::CrateType, by_equals),
        ArgInfo::TakeArg("--deny", ArgKind::PassThrough, by_equals),
        ArgInfo::TakeArg("--diagnostic-width", ArgKind::PassThrough, by_equals),
        ArgInfo::TakeArg("--emit", ArgKind::Emit, by_equals),
        ArgInfo::TakeArg("--error-format", ArgKind::PassThrough, by_equals),
        ArgInfo::TakeArg("--explain", ArgKind::NotCompilation, by_equals),
        ArgInfo::TakeArg("--extern", ArgKind::Extern, by_equals),
        ArgInfo::TakeArg("--forbid", ArgKind::PassThrough, by_equals),
        ArgInfo::Flag("--help", ArgKind::NotCompilationFlag),
        ArgInfo::TakeArg("--json", ArgKind::Json, by_equals),
        ArgInfo::TakeArg("--out-dir", ArgKind::OutDir, by_equals),
        ArgInfo::TakeArg("--pretty", ArgKind::NotCompilation, by_equals),
        ArgInfo::TakeArg("--print", ArgKind::NotCompilation, by_equals),
        ArgInfo::TakeArg("--remap-path-prefix", ArgKind::PassThrough, by_equals),
        ArgInfo::TakeArg("--sysroot", ArgKind::TooHardPath, by_equals),
        ArgInfo::TakeArg("--target", ArgKind::Target, by_equals),
        ArgInfo::TakeArg("--unpretty", ArgKind::NotCompilation, by_equals),
        ArgInfo::Flag("--version", ArgKind::NotCompilationFlag),
        ArgInfo::TakeArg("--warn", ArgKind::PassThrough, by_equals),
        ArgInfo::TakeArg("-A", ArgKind::PassThrough, either),
        ArgInfo::TakeArg("-C", ArgKind::CodeGen, either),
        ArgInfo::TakeArg("-D", ArgKind::PassThrough, either),
        ArgInfo::TakeArg("-F", ArgKind::PassThrough, either),
        ArgInfo::TakeArg("-L", ArgKind::LinkPath, either),
        ArgInfo::Flag("-V", ArgKind::NotCompilationFlag),
        ArgInfo::TakeArg("-W", ArgKind::PassThrough, either),
        ArgInfo::TakeArg("-Z", ArgKind::Unstable, either),
        ArgInfo::TakeArg("-l", ArgKind::LinkLibrary, either),
        ArgInfo::TakeArg("-o", ArgKind::TooHardPath, either),
    ]?;
    Ok(Table::new(entries).unwrap())
}
