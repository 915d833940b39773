//! Entries: a key with all of its fields, and what was made under it.

use base_files::{Listed, OsBytes};
use ckeys_records::output_name::OutputName;
use ckeys_records::shape::CShape;

/// What was printed and written beside outputs, byte for byte.
#[derive(Drop)]
pub struct KeptMessages {
    /// What the preprocessor printed on its standard error.
    pub preprocessor: OsBytes,
    /// What the compile printed on its standard output.
    pub printed: OsBytes,
    /// And on its standard error.
    pub errors: OsBytes,
    /// The dependency file that the compile wrote, where it was asked for one.
    pub dependencies: Option<OsBytes>,
    /// A digest of all files that the text names, where the compile printed something: it may quote any line of them.
    pub sources: Option<OsBytes>,
    /// The other files that the compile wrote beside the object, each by its ending and its contents.
    pub side_files: Listed<(OsBytes, OsBytes)>,
}

/// What a compile of a C compiler made, under its whole key.
#[derive(Drop)]
pub struct KeptResult {
    pub shape: CShape,
    /// The outputs that were asked for.
    pub names: Listed<OutputName>,
    pub digest: OsBytes,
    /// The outputs that were made, each by its name and its contents.
    pub outputs: Listed<(OsBytes, OsBytes)>,
    pub messages: KeptMessages,
}
