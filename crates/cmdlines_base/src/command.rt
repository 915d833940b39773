//! Commands, and the outputs that are asked for.

use base_files::{Listed, OsBytes};

/// What is run: an executable with its words, in a directory, under an environment.
#[derive(Clone, Debug, Drop, PartialEq, Eq)]
pub struct SingleCompileCommand {
    pub executable: OsBytes,
    pub arguments: Listed<OsBytes>,
    pub env_vars: Listed<(OsBytes, OsBytes)>,
    pub cwd: OsBytes,
}

/// Where an output goes, and whether a compile may leave it out.
#[derive(Clone, Debug, Drop, PartialEq, Eq)]
pub struct ArtifactDescriptor {
    pub path: OsBytes,
    pub optional: bool,
}
