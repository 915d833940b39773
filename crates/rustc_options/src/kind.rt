//! What an option of rustc is for.

/// The kinds of options that rustc's table knows.
#[derive(Clone, Copy, Debug, PartialEq, Eq)]
pub enum ArgKind {
    /// A flag under which nothing is kept.
    TooHardFlag,
    /// An option with a path, under which nothing is kept.
    TooHardPath,
    /// A flag that asks for something else than a compile.
    NotCompilationFlag,
    /// An option that asks for something else than a compile.
    NotCompilation,
    /// A library to link.
    LinkLibrary,
    /// A folder of libraries.
    LinkPath,
    /// What to write.
    Emit,
    /// Where a crate lies that the source names.
    Extern,
    /// Whether messages are coloured.
    Color,
    /// How messages are written.
    Json,
    /// The name of the crate.
    CrateName,
    /// What to make of the crate.
    CrateType,
    /// The folder of the outputs.
    OutDir,
    /// An option of code generation.
    CodeGen,
    /// What is passed on as it is.
    PassThrough,
    /// What to compile for.
    Target,
    /// An option that only some releases of rustc have.
    Unstable,
}
