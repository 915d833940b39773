//! Lists in their orders.

ghost use Rattle.std.specs.Prelude.{◌≡◌, None, true, IfOk, IfErr, IsErrOf, OnOk, filter, is_none};
ghost use Rattle.rustc_parts.specs.Orders.{env_dep_cmp};
ghost use Rattle.rustc_texts.specs.DepInfo.{rule_of};
ghost use Rattle.rustc_options.specs.Sorted.{sorted_by};
ghost use Rattle.ckeys_records.specs.Faults.{KeyCause};
ghost use Rattle.ckeys_records.specs.Causes.{no_file, no_step};
ghost use Rattle.rustkeys.specs.Questions.{compile_env_of, counted_in, env_deps_in, sources_in};
ghost use Rattle.rustkeys.specs.Calls.{rule_fault_of};

use base_files::{Listed, OsBytes, paths_have_one_order};
use ckeys_records::Fault;
use rustc_parts::parts::EnvDep;
use rustc_parts::{compare_env_deps, variables_have_one_order};
use rustc_texts::{TextFault, compile_env, hashed_variables, parse_dep_info, parse_env_dep_info};
use std::alloc::{AllocError, Global};

/// The sources that a text on dependencies names, in order. One that begins with no rule is reported as that, whatever memory there is.
#[tactic(auto, using(crate::proofs::TextLemmas::unruled))]
pub(crate) fn sources_in(alloc: Global, dir: &OsBytes, text: &str) -> Result<Listed<OsBytes>, Fault>
    ensures sources { IfOk result (λ sources. sources ≡ sources_in dir.now text.now) }
    ensures fine { OnOk result (rule_fault_of text.now ≡ None) }
    ensures cause { IfErr result (KeyCause (rule_fault_of text.now) no_file no_step) }
    ensures no_rule { is_none (rule_of text.now) ≡ true → IsErrOf result Fault.NoRule }
{
    // A law, which costs nothing: what follows from it is said above.
    paths_have_one_order();
    match parse_dep_info(alloc, text, dir.as_bytes()) {
        Ok(sources) => Ok(sources),
        Err(TextFault::Memory) => Err(Fault::Memory),
        Err(TextFault::NoRule) => Err(Fault::NoRule),
    }
}

/// The variables in order.
fn in_order(deps: Listed<EnvDep>) -> Listed<EnvDep>
    ensures { result ≡ sorted_by env_dep_cmp deps }
{
    // A law, which costs nothing: what follows from it is said above.
    variables_have_one_order();
    let mut deps = deps.into_vec();
    deps.sort_unstable_by(|left, right| compare_env_deps(left, right));
    Listed::from_vec(deps)
}

/// The variables that a text on dependencies lists, in order.
pub(crate) fn env_deps_in(alloc: Global, text: &str) -> Result<Listed<EnvDep>, AllocError>
    ensures { IfOk result (λ deps. deps ≡ env_deps_in text.now) }
{
    Ok(in_order(parse_env_dep_info(alloc, text)?))
}

/// The variables of a call that count, in order.
pub(crate) fn counted_in(
    alloc: Global,
    env: &[(OsBytes, OsBytes)],
) -> Result<Listed<(OsBytes, OsBytes)>, AllocError>
    ensures { IfOk result (λ pairs. pairs ≡ counted_in env.now) }
{
    variables_have_one_order();
    hashed_variables(alloc, env)
}

/// The variables with which a call is compiled, in order.
pub(crate) fn compile_env_of(
    alloc: Global,
    env: &[(OsBytes, OsBytes)],
) -> Result<Listed<(OsBytes, OsBytes)>, AllocError>
    ensures { IfOk result (λ pairs. pairs ≡ compile_env_of env.now) }
{
    variables_have_one_order();
    compile_env(alloc, env)
}
