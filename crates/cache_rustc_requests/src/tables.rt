//! The options of rustc with which a call is kept, as `rustc --help -v` and `rustc -C help` list them.

/// Options without a value.
pub const FLAGS: [&str; 5] = ["--verbose", "-O", "-g", "-v", "--"];

/// Options with a value, after `=` or in the next word.
pub const VALUED: [&str; 21] = [
    "--allow",
    "--cap-lints",
    "--cfg",
    "--check-cfg",
    "--color",
    "--crate-name",
    "--crate-type",
    "--deny",
    "--diagnostic-width",
    "--edition",
    "--emit",
    "--error-format",
    "--extern",
    "--forbid",
    "--force-warn",
    "--json",
    "--out-dir",
    "--remap-path-prefix",
    "--remap-path-scope",
    "--target",
    "--warn",
];

/// Options with a value, which comes right after their letter or is the next word.
pub const LETTERS: [&str; 5] = ["-A", "-D", "-F", "-W", "-l"];

/// The option of a folder in which crates or libraries are searched.
pub const FOLDER: &str = "-L";

/// What may be searched in a folder: crates that a crate names by their hash, and libraries, which are looked at. A crate that a source names
/// alone would be found in a folder of another kind, and nothing would say that it changed.
pub const SEARCHED: [&str; 3] = ["dependency=", "framework=", "native="];

/// The names of the option of code generation.
pub const GENERATION: [&str; 2] = ["-C", "--codegen"];

/// What an option of code generation may be. `incremental` and `profile-use` are the session's: it passes such a call through, or reads the
/// profile.
pub const CODEGEN: [&str; 47] = [
    "ar",
    "code-model",
    "codegen-units",
    "collapse-macro-debuginfo",
    "control-flow-guard",
    "debug-assertions",
    "debuginfo",
    "default-linker-libraries",
    "dwarf-version",
    "embed-bitcode",
    "extra-filename",
    "force-frame-pointers",
    "force-unwind-tables",
    "incremental",
    "inline-threshold",
    "jump-tables",
    "link-arg",
    "link-args",
    "link-dead-code",
    "link-self-contained",
    "linker",
    "linker-features",
    "linker-flavor",
    "linker-plugin-lto",
    "lto",
    "metadata",
    "no-redzone",
    "no-stack-check",
    "no-vectorize-loops",
    "no-vectorize-slp",
    "opt-level",
    "overflow-checks",
    "panic",
    "prefer-dynamic",
    "profile-generate",
    "profile-use",
    "relocation-model",
    "relro-level",
    "rpath",
    "soft-float",
    "split-debuginfo",
    "strip",
    "symbol-mangling-version",
    "target-cpu",
    "target-feature",
    "unsafe-allow-abi-mismatch",
    "instrument-coverage",
];

/// A value of an option of code generation by which files are left that rustc doesn't name.
pub const UNNAMED_FILES: &str = "split-debuginfo=unpacked";
