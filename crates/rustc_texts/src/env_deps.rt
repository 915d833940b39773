//! The variables that a source names, as the text on its dependencies lists them.

ghost use Rattle.std.specs.Prelude.{◌≡◌, IfOk, option_copied};
ghost use Rattle.rustc_texts.specs.EnvDeps.{env_dep_in, env_dep_of, env_deps_of, mark, told_in};

use base_files::{Listed, OsBytes};
use rustc_options::split_at_equals;
use rustc_parts::parts::EnvDep;
use std::alloc::{AllocError, Global};

/// How a line begins that lists a variable.
const MARK: &[u8] = b"# env-dep:";

/// What a line says of a variable, where it lists one.
fn told_in(line: &[u8]) -> Option<&[u8]>
    ensures { option_copied result ≡ told_in line.now }
{
    line.strip_prefix(MARK)
}

/// The variable that is listed so.
fn env_dep_of(alloc: Global, told: &[u8]) -> Result<EnvDep, AllocError>
    ensures { IfOk result (λ dep. dep ≡ env_dep_of told.now) }
{
    let (name, value) = split_at_equals(OsBytes::from_slice(alloc, told)?)?;
    Ok(EnvDep { name, value })
}

/// The variable that a line lists, where it lists one.
fn env_dep_in(alloc: Global, line: &[u8]) -> Result<Option<EnvDep>, AllocError>
    ensures { IfOk result (λ dep. dep ≡ env_dep_in line.now) }
{
    match told_in(line) {
        None => Ok(None),
        Some(told) => Ok(Some(env_dep_of(alloc, told)?)),
    }
}

/// The variables that a source names while it is compiled, in the order in which the text on its dependencies lists them: each line
/// `# env-dep:NAME=VALUE` lists one that is set, and `# env-dep:NAME` one that isn't.
pub fn parse_env_dep_info(alloc: Global, text: &str) -> Result<Listed<EnvDep>, AllocError>
    ensures { IfOk result (λ deps. deps ≡ env_deps_of text.now) }
{
    let mut deps = Vec::new(alloc);
    for line in text.lines() {
        if let Some(dep) = env_dep_in(alloc, line.as_bytes())? {
            deps.push(dep)?;
        }
    }
    Ok(Listed::from_vec(deps))
}
