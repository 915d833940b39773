//! What rustc answered: each answer for the words and the folder that it was recorded for, and digests of static libraries by path.

ghost use Rattle.std.specs.Prelude.{◌≡◌, true, None};
ghost use Rattle.base_files.specs.Bytes.{Bytes};
ghost use Rattle.wrap_replay_base.specs.Recorded.{digest_in, same_outputs};

use crate::commands::{have_names, same_bytes, same_words};
use base_files::{Listed, OsBytes};
use ckeys_records::Printed;
use ckeys_records::output_name::OutputName;
use cmdlines_base::{ArtifactDescriptor, SingleCompileCommand};
use cmdlines_tables::CCompilerKind;
use std::alloc::Global;
use std::collections::BTreeMap;
use wrap_base::Compiled;

/// What rustc printed, asked by these words in that folder.
#[derive(Drop)]
pub struct RecordedAnswer {
    pub words: Listed<OsBytes>,
    pub dir: OsBytes,
    pub printed: Printed,
}

/// What rustc made for these words in that folder, asked for outputs of these names.
#[derive(Drop)]
pub struct RecordedCrate {
    pub words: Listed<OsBytes>,
    pub dir: OsBytes,
    pub names: Listed<OutputName>,
    pub made: Compiled,
}

/// Recorded answers of rustc, at most one for each step, and of each static library its digest, as 64 lowercase hexadecimal digits.
#[derive(Drop)]
pub struct RecordedRustc {
    /// What it reported of what the crate depends on.
    pub dep_info: Option<RecordedAnswer>,
    /// What it reported of the names of its outputs.
    pub file_names: Option<RecordedAnswer>,
    pub outputs: Option<RecordedCrate>,
    pub digests: BTreeMap<OsBytes, OsBytes>,
}

impl RecordedAnswer {
    /// Whether it is the answer to this command.
    pub(crate) fn answers(&self, command: &SingleCompileCommand) -> bool
        ensures same { result ≡ true → (self.now.words ≡ command.now.arguments)
            × (self.now.dir ≡ command.now.cwd) }
        ensures own { self.now.words ≡ command.now.arguments → self.now.dir ≡ command.now.cwd
            → result ≡ true }
    {
        same_words(&self.words, &command.arguments) && same_bytes(&self.dir, &command.cwd)
    }
}

impl RecordedCrate {
    /// Whether it is the answer to this command to rustc, asked for these outputs.
    pub(crate) fn answers(
        &self,
        kind: Option<CCompilerKind>,
        command: &SingleCompileCommand,
        outputs: &[(OsBytes, ArtifactDescriptor)],
    ) -> bool
        ensures same { result ≡ true → (kind ≡ None) × (self.now.words ≡ command.now.arguments)
            × (self.now.dir ≡ command.now.cwd)
            × (same_outputs outputs.now self.now.names ≡ true) }
        ensures own { kind ≡ None → self.now.words ≡ command.now.arguments
            → self.now.dir ≡ command.now.cwd → same_outputs outputs.now self.now.names ≡ true
            → result ≡ true }
    {
        kind.is_none()
            && same_words(&self.words, &command.arguments)
            && same_bytes(&self.dir, &command.cwd)
            && have_names(outputs, self.names.as_slice())
    }
}

impl RecordedRustc {
    /// Nothing is recorded yet. It takes no memory.
    pub fn new(alloc: Global) -> RecordedRustc
        ensures dep_info { result.dep_info ≡ None }
        ensures file_names { result.file_names ≡ None }
        ensures outputs { result.outputs ≡ None }
        ensures digests { (path : Bytes) → digest_in result path ≡ None }
    {
        RecordedRustc {
            dep_info: None,
            file_names: None,
            outputs: None,
            digests: BTreeMap::new(alloc),
        }
    }
}
