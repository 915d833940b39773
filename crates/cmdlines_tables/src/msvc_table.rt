//! The two tables of Msvc. docs/FORMATS.md has its options by what they are for.

ghost use Rattle.std.specs.Prelude.{◌≡◌, IfOk};
ghost use Rattle.cmdlines_tables.specs.MsvcTable.{msvc_dash_entries, msvc_slash_entries};

use crate::kind::ArgKind;
use crate::value::ArgData;
use cmdlines_base::{ArgDisposition, ArgInfo, Table};
use std::alloc::{AllocError, Global};

/// The options of Msvc after a dash.
#[tactic(auto, unfolding(crate::specs::MsvcTable::msvc_dash_entries))]
pub fn msvc_dash_table(alloc: Global) -> Result<Table<ArgData>, AllocError>
    ensures { IfOk result (λ table. table ≡ msvc_dash_entries) }
{
    let either = ArgDisposition::CanBeSeparated(None);
    let joined = ArgDisposition::Concatenated(None);
    let entries = vec![in alloc;
        ArgInfo::TakeArg("-D", ArgKind::PreprocessorArgument, either),
        ArgInfo::Flag("-E", ArgKind::TooHard),
        ArgInfo::TakeArg("-EH", ArgKind::PassThrough, joined),
        ArgInfo::Flag("-EP", ArgKind::TooHard),
        ArgInfo::TakeArg("-FA", ArgKind::TooHard, joined),
        ArgInfo::TakeArg("-FC", ArgKind::PassThrough, joined),
        ArgInfo::TakeArg("-FI", ArgKind::PreprocessorArgument, either),
        ArgInfo::TakeArg("-FR", ArgKind::TooHard, joined),
        ArgInfo::TakeArg("-FS", ArgKind::PassThrough, joined),
        ArgInfo::TakeArg("-Fa", ArgKind::TooHard, joined),
        ArgInfo::TakeArg("-Fd", ArgKind::TooHard, joined),
        ArgInfo::TakeArg("-Fo", ArgKind::Output, joined),
        ArgInfo::TakeArg("-Fp", ArgKind::TooHard, joined),
        ArgInfo::TakeArg("-G", ArgKind::PassThrough, joined),
        ArgInfo::TakeArg("-I", ArgKind::PreprocessorArgument, either),
        ArgInfo::TakeArg("-M", ArgKind::PassThrough, joined),
        ArgInfo::TakeArg("-MP", ArgKind::TooHard, joined),
        ArgInfo::TakeArg("-O", ArgKind::PassThrough, joined),
        ArgInfo::Flag("-P", ArgKind::TooHard),
        ArgInfo::TakeArg("-RTC", ArgKind::PassThrough, joined),
        ArgInfo::Flag("-TC", ArgKind::LanguageC),
        ArgInfo::Flag("-TP", ArgKind::LanguageCxx),
        ArgInfo::TakeArg("-Tc", ArgKind::InputC, either),
        ArgInfo::TakeArg("-Tp", ArgKind::InputCxx, either),
        ArgInfo::TakeArg("-U", ArgKind::PreprocessorArgument, either),
        ArgInfo::TakeArg("-W", ArgKind::PassThrough, joined),
        ArgInfo::TakeArg("-Yc", ArgKind::TooHard, joined),
        ArgInfo::TakeArg("-Yu", ArgKind::TooHard, joined),
        ArgInfo::TakeArg("-Z7", ArgKind::PassThrough, joined),
        ArgInfo::Flag("-ZI", ArgKind::TooHard),
        ArgInfo::TakeArg("-Zc:", ArgKind::PassThrough, joined),
        ArgInfo::Flag("-Zi", ArgKind::TooHard),
        ArgInfo::TakeArg("-arch:", ArgKind::PassThrough, joined),
        ArgInfo::TakeArg("-bigobj", ArgKind::PassThrough, joined),
        ArgInfo::Flag("-c", ArgKind::DoCompilation),
        ArgInfo::TakeArg("-clang:", ArgKind::TooHard, joined),
        ArgInfo::TakeArg("-clr", ArgKind::TooHard, joined),
        ArgInfo::TakeArg("-diagnostics:", ArgKind::PassThrough, joined),
        ArgInfo::TakeArg("-execution-charset:", ArgKind::PassThrough, joined),
        ArgInfo::TakeArg("-external:I", ArgKind::PreprocessorArgument, either),
        ArgInfo::TakeArg("-fp:", ArgKind::PassThrough, joined),
        ArgInfo::TakeArg("-guard:", ArgKind::PassThrough, joined),
        ArgInfo::TakeArg("-ifcOutput", ArgKind::TooHard, joined),
        ArgInfo::Flag("-interface", ArgKind::TooHard),
        ArgInfo::Flag("-link", ArgKind::TooHard),
        ArgInfo::TakeArg("-nologo", ArgKind::PassThrough, joined),
        ArgInfo::TakeArg("-permissive", ArgKind::PassThrough, joined),
        ArgInfo::TakeArg("-sdl", ArgKind::PassThrough, joined),
        ArgInfo::Flag("-showIncludes", ArgKind::TooHard),
        ArgInfo::TakeArg("-source-charset:", ArgKind::PassThrough, joined),
        ArgInfo::TakeArg("-sourceDependencies", ArgKind::TooHard, joined),
        ArgInfo::TakeArg("-std:", ArgKind::PassThrough, joined),
        ArgInfo::TakeArg("-utf-8", ArgKind::PassThrough, joined),
        ArgInfo::TakeArg("-wd", ArgKind::PassThrough, joined),
        ArgInfo::TakeArg("-we", ArgKind::PassThrough, joined),
    ]?;
    Ok(Table::new(entries).unwrap())
}

/// The options of Msvc after a slash.
#[tactic(auto, unfolding(crate::specs::MsvcTable::msvc_slash_entries))]
pub fn msvc_slash_table(alloc: Global) -> Result<Table<ArgData>, AllocError>
    ensures { IfOk result (λ table. table ≡ msvc_slash_entries) }
{
    let either = ArgDisposition::CanBeSeparated(None);
    let joined = ArgDisposition::Concatenated(None);
    let entries = vec![in alloc;
        ArgInfo::TakeArg("/D", ArgKind::PreprocessorArgument, either),
        ArgInfo::Flag("/E", ArgKind::TooHard),
        ArgInfo::TakeArg("/EH", ArgKind::PassThrough, joined),
        ArgInfo::Flag("/EP", ArgKind::TooHard),
        ArgInfo::TakeArg("/FA", ArgKind::TooHard, joined),
        ArgInfo::TakeArg("/FC", ArgKind::PassThrough, joined),
        ArgInfo::TakeArg("/FI", ArgKind::PreprocessorArgument, either),
        ArgInfo::TakeArg("/FR", ArgKind::TooHard, joined),
        ArgInfo::TakeArg("/FS", ArgKind::PassThrough, joined),
        ArgInfo::TakeArg("/Fa", ArgKind::TooHard, joined),
        ArgInfo::TakeArg("/Fd", ArgKind::TooHard, joined),
        ArgInfo::TakeArg("/Fo", ArgKind::Output, joined),
        ArgInfo::TakeArg("/Fp", ArgKind::TooHard, joined),
        ArgInfo::TakeArg("/G", ArgKind::PassThrough, joined),
        ArgInfo::TakeArg("/I", ArgKind::PreprocessorArgument, either),
        ArgInfo::TakeArg("/M", ArgKind::PassThrough, joined),
        ArgInfo::TakeArg("/MP", ArgKind::TooHard, joined),
        ArgInfo::TakeArg("/O", ArgKind::PassThrough, joined),
        ArgInfo::Flag("/P", ArgKind::TooHard),
        ArgInfo::TakeArg("/RTC", ArgKind::PassThrough, joined),
        ArgInfo::Flag("/TC", ArgKind::LanguageC),
        ArgInfo::Flag("/TP", ArgKind::LanguageCxx),
        ArgInfo::TakeArg("/Tc", ArgKind::InputC, either),
        ArgInfo::TakeArg("/Tp", ArgKind::InputCxx, either),
        ArgInfo::TakeArg("/U", ArgKind::PreprocessorArgument, either),
        ArgInfo::TakeArg("/W", ArgKind::PassThrough, joined),
        ArgInfo::TakeArg("/Yc", ArgKind::TooHard, joined),
        ArgInfo::TakeArg("/Yu", ArgKind::TooHard, joined),
        ArgInfo::TakeArg("/Z7", ArgKind::PassThrough, joined),
        ArgInfo::Flag("/ZI", ArgKind::TooHard),
        ArgInfo::TakeArg("/Zc:", ArgKind::PassThrough, joined),
        ArgInfo::Flag("/Zi", ArgKind::TooHard),
        ArgInfo::TakeArg("/arch:", ArgKind::PassThrough, joined),
        ArgInfo::TakeArg("/bigobj", ArgKind::PassThrough, joined),
        ArgInfo::Flag("/c", ArgKind::DoCompilation),
        ArgInfo::TakeArg("/clang:", ArgKind::TooHard, joined),
        ArgInfo::TakeArg("/clr", ArgKind::TooHard, joined),
        ArgInfo::TakeArg("/diagnostics:", ArgKind::PassThrough, joined),
        ArgInfo::TakeArg("/execution-charset:", ArgKind::PassThrough, joined),
        ArgInfo::TakeArg("/external:I", ArgKind::PreprocessorArgument, either),
        ArgInfo::TakeArg("/fp:", ArgKind::PassThrough, joined),
        ArgInfo::TakeArg("/guard:", ArgKind::PassThrough, joined),
        ArgInfo::TakeArg("/ifcOutput", ArgKind::TooHard, joined),
        ArgInfo::Flag("/interface", ArgKind::TooHard),
        ArgInfo::Flag("/link", ArgKind::TooHard),
        ArgInfo::TakeArg("/nologo", ArgKind::PassThrough, joined),
        ArgInfo::TakeArg("/permissive", ArgKind::PassThrough, joined),
        ArgInfo::TakeArg("/sdl", ArgKind::PassThrough, joined),
        ArgInfo::Flag("/showIncludes", ArgKind::TooHard),
        ArgInfo::TakeArg("/source-charset:", ArgKind::PassThrough, joined),
        ArgInfo::TakeArg("/sourceDependencies", ArgKind::TooHard, joined),
        ArgInfo::TakeArg("/std:", ArgKind::PassThrough, joined),
        ArgInfo::TakeArg("/utf-8", ArgKind::PassThrough, joined),
        ArgInfo::TakeArg("/wd", ArgKind::PassThrough, joined),
        ArgInfo::TakeArg("/we", ArgKind::PassThrough, joined),
    ]?;
    Ok(Table::new(entries).unwrap())
}
