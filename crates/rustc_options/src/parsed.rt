//! What a request to rustc asks for.

use crate::data::ArgData;
use base_files::{Listed, OsBytes};
use cmdlines_base::{Argument, ColorMode};

/// The types of crate that can be cached, and whether each is made.
#[derive(Clone, Copy, Debug, PartialEq, Eq)]
pub struct CrateTypes {
    pub rlib: bool,
    pub staticlib: bool,
}

/// A request to rustc that can be cached, by its words.
#[derive(Clone, Debug, Drop, PartialEq, Eq)]
pub struct ParsedArguments {
    /// All arguments but those on colours, in order, each that may be joined or separate made separate from its value.
    pub arguments: Listed<Argument<ArgData>>,
    /// The folder of the outputs, as it is written.
    pub output_dir: OsBytes,
    /// The files of the crates that the source names, as they are written, in the order of paths.
    pub externs: Listed<OsBytes>,
    /// The folders of crates.
    pub crate_link_paths: Listed<OsBytes>,
    /// The static libraries that are there.
    pub staticlibs: Listed<OsBytes>,
    pub crate_name: OsBytes,
    pub crate_types: CrateTypes,
    /// The name of the file that lists what the crate depends on, where one is written.
    pub dep_info: Option<OsBytes>,
    /// The profile that code generation uses, where something is linked.
    pub profile: Option<OsBytes>,
    /// The name of the file of notes for coverage, where one is written.
    pub gcno: Option<OsBytes>,
    /// The profile that code generation uses, whether something is linked or not.
    pub profile_use: Option<OsBytes>,
    /// What is written, each kind once, in the order of their bytes.
    pub emit: Listed<OsBytes>,
    /// Whether messages are coloured.
    pub color_mode: ColorMode,
    /// Messages are written as JSON.
    pub has_json: bool,
    /// The file that describes the target, as it is written.
    pub target_json: Option<OsBytes>,
}
