//! The tables of Gcc and Clang: each option with what it is for and how it takes a value. docs/FORMATS.md has them by what
//! they are for.

ghost use Rattle.std.specs.Prelude.{◌≡◌, IfOk};
ghost use Rattle.cmdlines_tables.specs.GnuTable.{gnu_entries, clang_entries};

use crate::kind::ArgKind;
use crate::value::ArgData;
use cmdlines_base::{ArgDisposition, ArgInfo, Table};
use std::alloc::{AllocError, Global};

/// The options of Gcc, which Clang has too.
#[tactic(auto, unfolding(crate::specs::GnuTable::gnu_entries))]
pub fn gnu_table(alloc: Global) -> Result<Table<ArgData>, AllocError>
    ensures { IfOk result (λ table. table ≡ gnu_entries) }
{
    let apart = ArgDisposition::Separated;
    let either = ArgDisposition::CanBeSeparated(None);
    let either_by_equals = ArgDisposition::CanBeSeparated(Some(b'='));
    let joined = ArgDisposition::Concatenated(None);
    let by_equals = ArgDisposition::Concatenated(Some(b'='));
    let by_comma = ArgDisposition::Concatenated(Some(b','));
    let entries = vec![in alloc;
        ArgInfo::Flag("-", ArgKind::TooHard),
        ArgInfo::Flag("--coverage", ArgKind::TooHard),
        ArgInfo::TakeArg("--param", ArgKind::PassThrough, apart),
        ArgInfo::Flag("--save-temps", ArgKind::TooHard),
        ArgInfo::TakeArg("--sysroot", ArgKind::PassThrough, either_by_equals),
        ArgInfo::TakeArg("-B", ArgKind::PassThrough, either),
        ArgInfo::TakeArg("-D", ArgKind::PreprocessorArgument, either),
        ArgInfo::Flag("-E", ArgKind::TooHard),
        ArgInfo::TakeArg("-F", ArgKind::PreprocessorArgument, either),
        ArgInfo::TakeArg("-I", ArgKind::PreprocessorArgument, either),
        ArgInfo::TakeArg("-L", ArgKind::PassThrough, either),
        ArgInfo::Flag("-M", ArgKind::TooHard),
        ArgInfo::Flag("-MD", ArgKind::NeedDepTarget),
        ArgInfo::TakeArg("-MF", ArgKind::DepArgumentPath, either),
        ArgInfo::Flag("-MG", ArgKind::DepFlag),
        ArgInfo::Flag("-MM", ArgKind::TooHard),
        ArgInfo::Flag("-MMD", ArgKind::NeedDepTarget),
        ArgInfo::Flag("-MP", ArgKind::DepFlag),
        ArgInfo::TakeArg("-MQ", ArgKind::DepTarget, either),
        ArgInfo::TakeArg("-MT", ArgKind::DepTarget, either),
        ArgInfo::Flag("-P", ArgKind::TooHard),
        ArgInfo::Flag("-S", ArgKind::TooHard),
        ArgInfo::TakeArg("-T", ArgKind::PassThrough, either),
        ArgInfo::TakeArg("-U", ArgKind::PreprocessorArgument, either),
        ArgInfo::TakeArg("-Wp", ArgKind::PreprocessorTooHard, by_comma),
        ArgInfo::TakeArg("-Xassembler", ArgKind::PassThrough, apart),
        ArgInfo::TakeArg("-Xlinker", ArgKind::PassThrough, apart),
        ArgInfo::TakeArg("-Xpreprocessor", ArgKind::PreprocessorTooHard, apart),
        ArgInfo::TakeArg("-arch", ArgKind::Arch, apart),
        ArgInfo::Flag("-c", ArgKind::DoCompilation),
        ArgInfo::TakeArg("-fauto-profile", ArgKind::TooHard, by_equals),
        ArgInfo::TakeArg("-fdiagnostics-color", ArgKind::DiagnosticsColor, by_equals),
        ArgInfo::Flag("-fmodules-ts", ArgKind::TooHard),
        ArgInfo::Flag("-fno-diagnostics-color", ArgKind::NoDiagnosticsColorFlag),
        ArgInfo::TakeArg("-fplugin", ArgKind::ExtraHashFile, by_equals),
        ArgInfo::Flag("-fprofile-arcs", ArgKind::TooHard),
        ArgInfo::TakeArg("-fprofile-generate", ArgKind::TooHard, by_equals),
        ArgInfo::TakeArg("-fprofile-use", ArgKind::TooHard, by_equals),
        ArgInfo::Flag("-frepo", ArgKind::TooHard),
        ArgInfo::Flag("-fsyntax-only", ArgKind::TooHard),
        ArgInfo::Flag("-ftest-coverage", ArgKind::TooHard),
        ArgInfo::Flag("-gsplit-dwarf", ArgKind::TooHard),
        ArgInfo::TakeArg("-idirafter", ArgKind::PreprocessorArgument, either),
        ArgInfo::TakeArg("-imacros", ArgKind::PreprocessorArgument, either),
        ArgInfo::TakeArg("-include", ArgKind::PreprocessorArgument, either),
        ArgInfo::TakeArg("-iprefix", ArgKind::PreprocessorArgument, either),
        ArgInfo::TakeArg("-iquote", ArgKind::PreprocessorArgument, either),
        ArgInfo::TakeArg("-isysroot", ArgKind::PreprocessorArgument, either),
        ArgInfo::TakeArg("-isystem", ArgKind::PreprocessorArgument, either),
        ArgInfo::TakeArg("-iwithprefix", ArgKind::PreprocessorArgument, either),
        ArgInfo::TakeArg("-iwithprefixbefore", ArgKind::PreprocessorArgument, either),
        ArgInfo::TakeArg("-l", ArgKind::PassThrough, either),
        ArgInfo::TakeArg("-o", ArgKind::Output, either),
        ArgInfo::Flag("-save-temps", ArgKind::TooHard),
        ArgInfo::TakeArg("-specs", ArgKind::TooHard, by_equals),
        ArgInfo::TakeArg("-std", ArgKind::PassThrough, by_equals),
        ArgInfo::TakeArg("-stdlib", ArgKind::PassThrough, by_equals),
        ArgInfo::TakeArg("-u", ArgKind::PassThrough, either),
        ArgInfo::TakeArg("-x", ArgKind::Language, either),
        ArgInfo::TakeArg("-z", ArgKind::PassThrough, either),
        ArgInfo::TakeArg("@", ArgKind::TooHard, joined),
    ]?;
    Ok(Table::new(entries).unwrap())
}

/// The options that Clang has beside those of Gcc.
#[tactic(auto, unfolding(crate::specs::GnuTable::clang_entries))]
pub fn clang_table(alloc: Global) -> Result<Table<ArgData>, AllocError>
    ensures { IfOk result (λ table. table ≡ clang_entries) }
{
    let apart = ArgDisposition::Separated;
    let either_by_equals = ArgDisposition::CanBeSeparated(Some(b'='));
    let by_equals = ArgDisposition::Concatenated(Some(b'='));
    let entries = vec![in alloc;
        ArgInfo::TakeArg("--config", ArgKind::TooHard, either_by_equals),
        ArgInfo::Flag("--precompile", ArgKind::TooHard),
        ArgInfo::TakeArg(
            "--serialize-diagnostics",
            ArgKind::SerializeDiagnostics,
            apart
        ),
        ArgInfo::TakeArg("--target", ArgKind::PassThrough, by_equals),
        ArgInfo::TakeArg("-Xclang", ArgKind::XClang, apart),
        ArgInfo::Flag("-fcolor-diagnostics", ArgKind::DiagnosticsColorFlag),
        ArgInfo::Flag("-fcoverage-mapping", ArgKind::TooHard),
        ArgInfo::Flag("-fcxx-modules", ArgKind::TooHard),
        ArgInfo::TakeArg("-fmodule-file", ArgKind::TooHard, by_equals),
        ArgInfo::TakeArg("-fmodule-output", ArgKind::TooHard, by_equals),
        ArgInfo::Flag("-fmodules", ArgKind::TooHard),
        ArgInfo::Flag("-fno-color-diagnostics", ArgKind::NoDiagnosticsColorFlag),
        ArgInfo::Flag("-fprebuilt-implicit-modules", ArgKind::TooHard),
        ArgInfo::TakeArg("-fprebuilt-module-path", ArgKind::TooHard, by_equals),
        ArgInfo::TakeArg("-fprofile-instr-use", ArgKind::TooHard, by_equals),
        ArgInfo::TakeArg("-fprofile-sample-use", ArgKind::TooHard, by_equals),
        ArgInfo::TakeArg("-fsanitize-blacklist", ArgKind::ExtraHashFile, by_equals),
        ArgInfo::TakeArg("-fsanitize-ignorelist", ArgKind::ExtraHashFile, by_equals),
        ArgInfo::TakeArg("-include-pch", ArgKind::TooHard, apart),
        ArgInfo::TakeArg("-mllvm", ArgKind::PassThrough, apart),
        ArgInfo::TakeArg("-target", ArgKind::PassThrough, apart),
    ]?;
    Ok(Table::new(entries).unwrap())
}
