//! Where a request to rustc is asked, and of which rustc.

use base_files::OsBytes;
use rustc_options::parsed::ParsedArguments;

/// The executable, what the words ask of it, the directory and the variables.
#[derive(Clone, Copy)]
pub struct RustPlace<'a> {
    pub executable: &'a OsBytes,
    pub parsed: &'a ParsedArguments,
    pub dir: &'a OsBytes,
    pub env: &'a [(OsBytes, OsBytes)],
}

/// A rustc: the digests of its toolchain, what it says of its version, and its archive, where it has one.
#[derive(Clone, Copy)]
pub struct KnownRust<'a> {
    pub toolchain: &'a [OsBytes],
    pub version: &'a OsBytes,
    pub archive: Option<&'a OsBytes>,
}
