//! The pieces of a key, and what its bytes don't determine.

ghost use Rattle.std.specs.Prelude.{◌≡◌, IfOk, is_some, length, map};
ghost use Rattle.rustc_parts.specs.Shapes.{shape_of};

use base_files::{Listed, OsBytes};
use std::alloc::{AllocError, Global};

/// A variable that a source names while it is compiled: its name, and its value where it is set.
#[derive(Clone, Debug, Drop, PartialEq, Eq)]
pub struct EnvDep {
    pub name: OsBytes,
    pub value: Option<OsBytes>,
}

/// What is hashed for a request to rustc. Digests are texts.
#[derive(Clone, Debug, Drop, PartialEq, Eq)]
pub struct Parts {
    /// The digests of the compiler's libraries and of its archive.
    pub toolchain: Listed<OsBytes>,
    /// What the compiler says of its version.
    pub version: OsBytes,
    /// The words that count.
    pub words: Listed<OsBytes>,
    /// The digests of the files of which the source is made.
    pub sources: Listed<OsBytes>,
    /// The digests of the crates that it names.
    pub externs: Listed<OsBytes>,
    /// The digests of the static libraries.
    pub archives: Listed<OsBytes>,
    /// The digest of the file that describes the target, where there is one.
    pub target: Option<OsBytes>,
    /// The digest of the profile that code generation uses, where there is one.
    pub profile: Option<OsBytes>,
    /// The variables that the source names.
    pub env_deps: Listed<EnvDep>,
    /// The variables of the call that count, each with its value.
    pub variables: Listed<(OsBytes, OsBytes)>,
    /// The directory.
    pub dir: OsBytes,
}

/// What the bytes of a key don't determine: how many digests there are, how long each word is, and which of the variables that the
/// source names are set. It has no length of anything else.
#[derive(Clone, Debug, Drop, PartialEq, Eq, PartialOrd, Ord, Hash)]
pub struct RShape {
    pub toolchain: usize,
    /// The length of each word, in bytes.
    pub words: Listed<usize>,
    pub sources: usize,
    pub externs: usize,
    pub archives: usize,
    pub has_target: bool,
    pub has_profile: bool,
    /// For each variable that the source names, whether it is set.
    pub env_deps: Listed<bool>,
    pub variables: usize,
}

/// The length of each word.
fn lengths(alloc: Global, words: &[OsBytes]) -> Result<Listed<usize>, AllocError>
    ensures { IfOk result (λ lengths. lengths ≡ map length words.now) }
{
    let mut lengths = Vec::with_capacity(alloc, words.len())?;
    for word in words {
        lengths.push(word.as_bytes().len())?;
    }
    Ok(Listed::from_vec(lengths))
}

/// Whether each of them is set.
fn are_set(alloc: Global, deps: &[EnvDep]) -> Result<Listed<bool>, AllocError>
    ensures { IfOk result (λ are_set. are_set ≡ map (λ dep. is_some dep.value) deps.now) }
{
    let mut are_set = Vec::with_capacity(alloc, deps.len())?;
    for dep in deps {
        are_set.push(dep.value.is_some())?;
    }
    Ok(Listed::from_vec(are_set))
}

impl Parts {
    /// What the bytes of these pieces don't determine.
    pub fn shape(&self, alloc: Global) -> Result<RShape, AllocError>
        ensures { IfOk result (λ shape. shape ≡ shape_of self.now) }
    {
        Ok(RShape {
            toolchain: self.toolchain.len(),
            words: lengths(alloc, self.words.as_slice())?,
            sources: self.sources.len(),
            externs: self.externs.len(),
            archives: self.archives.len(),
            has_target: self.target.is_some(),
            has_profile: self.profile.is_some(),
            env_deps: are_set(alloc, self.env_deps.as_slice())?,
            variables: self.variables.len(),
        })
    }
}
