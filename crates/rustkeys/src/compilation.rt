//! What a compile of a request runs and writes, and the pieces of its key.

ghost use Rattle.std.specs.Prelude.{◌≡◌, IfOk};
ghost use Rattle.cmdlines_tables.specs.Small.{command_at};
ghost use Rattle.rustc_texts.specs.Outputs.{outputs_with};
ghost use Rattle.rustc_texts.specs.Words.{compile_words};
ghost use Rattle.rustc_options.specs.Asks.{asks_in};
ghost use Rattle.rustkeys.specs.Questions.{compile_env_of};

use crate::ordered_lists::compile_env_of;
use crate::place::RustPlace;
use base_files::{Listed, OsBytes};
use cmdlines_base::SingleCompileCommand;
use cmdlines_tables::{Cacheable, command_at};
use rustc_parts::parts::Parts;
use rustc_texts::compile_words;
use rustc_texts::outputs::{Output, outputs};
use std::alloc::{AllocError, Global};

/// A compile of a request.
#[derive(Clone, Debug, Drop, PartialEq, Eq)]
pub struct RustCompilation {
    /// The command that is run for it.
    pub command: SingleCompileCommand,
    /// What it writes, and where each goes.
    pub outputs: Listed<Output>,
    /// The pieces whose bytes were hashed for its key.
    pub parts: Parts,
}

/// Copies of the words.
pub(crate) fn copied(alloc: Global, words: &[OsBytes]) -> Result<Listed<OsBytes>, AllocError>
    ensures { IfOk result (λ copies. copies ≡ words.now) }
{
    let mut copies = Vec::with_capacity(alloc, words.len())?;
    for word in words {
        copies.push(word.clone()?)?;
    }
    Ok(Listed::from_vec(copies))
}

impl RustCompilation {
    /// The compile command, whose outputs may be kept.
    pub fn generate_compile_commands(
        &self,
        alloc: Global,
    ) -> Result<(SingleCompileCommand, Cacheable), AllocError>
        ensures command { IfOk result (λ made. made.0 ≡ self.now.command) }
        ensures cacheable { IfOk result (λ made. made.1 ≡ Cacheable.Yes) }
    {
        let _ = alloc;
        Ok((self.command.clone()?, Cacheable::Yes))
    }

    /// What it writes, in order.
    pub fn outputs(&self) -> &[Output]
        ensures { result.now ≡ self.now.outputs }
    {
        self.outputs.as_slice()
    }

    /// The pieces whose bytes were hashed for its key.
    pub fn parts(&self) -> &Parts
        ensures { result.now ≡ self.now.parts }
    {
        &self.parts
    }
}

/// The command with which a request is compiled.
fn command_for(alloc: Global, place: &RustPlace) -> Result<SingleCompileCommand, AllocError>
    ensures { let words = compile_words (asks_in place.now.parsed.now) in
        let env = compile_env_of place.now.env.now in
        IfOk result (λ command. command
        ≡ command_at place.now.executable.now words env place.now.dir.now) }
{
    let words = compile_words(alloc, place.parsed)?;
    let env = compile_env_of(alloc, place.env)?;
    command_at(alloc, place.executable, words, env.as_slice(), place.dir)
}

/// The command with which a request is compiled that writes these names, and what it writes.
pub(crate) fn compile_of(
    alloc: Global,
    place: &RustPlace,
    names: &[OsBytes],
) -> Result<(SingleCompileCommand, Listed<Output>), AllocError>
    ensures command { let words = compile_words (asks_in place.now.parsed.now) in
        let env = compile_env_of place.now.env.now in
        IfOk result (λ made. made.0
        ≡ command_at place.now.executable.now words env place.now.dir.now) }
    ensures outputs { IfOk result
        (λ made. made.1 ≡ outputs_with (asks_in place.now.parsed.now) names.now) }
{
    let outputs = outputs(alloc, place.parsed, names)?;
    Ok((command_for(alloc, place)?, outputs))
}
