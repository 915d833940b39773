//! A command as it is run.

ghost use Rattle.std.specs.Prelude.{◌≡◌, IfOk};
ghost use Rattle.cmdlines_tables.specs.Small.{command_at};

use base_files::{Listed, OsBytes};
use cmdlines_base::SingleCompileCommand;
use std::alloc::{AllocError, Global};

/// Whether the outputs of a command may be kept.
#[derive(Clone, Copy, Debug, PartialEq, Eq)]
pub enum Cacheable {
    Yes,
    No,
}

/// Copies of names and values of variables.
fn copied_env(
    alloc: Global,
    env: &[(OsBytes, OsBytes)],
) -> Result<Listed<(OsBytes, OsBytes)>, AllocError>
    ensures { IfOk result (λ copy. copy ≡ env.now) }
{
    let mut copy = Listed::new(alloc);
    for (name, value) in env {
        copy.push((name.clone()?, value.clone()?))?;
    }
    Ok(copy)
}

/// These words, run by this executable, in that directory, under these variables.
pub fn command_at(
    alloc: Global,
    executable: &OsBytes,
    words: Listed<OsBytes>,
    env: &[(OsBytes, OsBytes)],
    dir: &OsBytes,
) -> Result<SingleCompileCommand, AllocError>
    ensures { IfOk result (λ command. command ≡ command_at executable.now words env.now dir.now) }
{
    Ok(SingleCompileCommand {
        executable: executable.clone()?,
        arguments: words,
        env_vars: copied_env(alloc, env)?,
        cwd: dir.clone()?,
    })
}
