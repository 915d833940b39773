//! The variables that compilers read. Others, which shells and Make set from call to call, change nothing of what a compiler makes.

use crate::placed::{after_front, ends_with, is_among};

/// Variables by their names: of GCC's and Clang's manuals, and what GCC 12, Clang 14 and GNU's assembler ask for as they run. What they ask
/// for besides isn't here: where temporary files lie (`TMPDIR`, `TMP`, `TEMP`, `TEMPDIR`), whether a terminal has colours (`TERM`), where
/// programs are searched (`PATH`: the digest of a compiler is that of the parts that it runs too), how many jobs Make has (`MAKEFLAGS`), and
/// where a linker looks (`LPATH`).
const NAMES: [&str; 23] = [
    "AS_SECURE_LOG_FILE",
    "COMPILER_PATH",
    "CPATH",
    "CPLUS_INCLUDE_PATH",
    "C_INCLUDE_PATH",
    "DEB_BUILD_OPTIONS",
    "DEPENDENCIES_OUTPUT",
    "FORCE_CLANG_DIAGNOSTICS_CRASH",
    "GNUTARGET",
    "LANG",
    "LANGUAGE",
    "LIBRARY_PATH",
    "OBJCPLUS_INCLUDE_PATH",
    "OBJC_INCLUDE_PATH",
    "PWD",
    "RC_DEBUG_OPTIONS",
    "ROCM_PATH",
    "SDKROOT",
    "SOURCE_DATE_EPOCH",
    "SUNPRO_DEPENDENCIES",
    "TERM_URLS",
    "TZ",
    "ZERO_AR_DATE",
];

/// What the names of others begin with.
const FRONTS: [&str; 9] = [
    "CCC_", "CC_", "CLANG_", "COLLECT_", "GCC_", "LC_", "LD_", "LLVM_", "SCCACHE_",
];

/// What the names of others end with.
const ENDINGS: [&str; 2] = ["_DEPLOYMENT_TARGET", "_ROOT"];

/// Whether a compiler reads the variable of that name.
pub fn is_read(name: &[u8]) -> bool {
    is_among(&NAMES, name) || after_front(&FRONTS, name).is_some() || ends_with(&ENDINGS, name)
}
