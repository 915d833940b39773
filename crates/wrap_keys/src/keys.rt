//! What a request's key is made of beside its digest: where and when it is asked, and the names of its outputs.

ghost use Rattle.std.specs.Prelude.{◌≡◌, IfOk};
ghost use Rattle.ckeys_records.specs.Meaning.{names_of};

use base_files::{Listed, OsBytes};
use ckeys::CallPlace;
use ckeys_records::KeyConfig;
use ckeys_records::output_name::OutputName;
use cmdlines_base::ArtifactDescriptor;
use std::alloc::{AllocError, Global};
use wrap_base::Request;

/// The names of outputs, with their marks.
pub fn output_names(
    alloc: Global,
    outputs: &[(OsBytes, ArtifactDescriptor)],
) -> Result<Listed<OutputName>, AllocError>
    ensures { IfOk result (λ names. names ≡ names_of outputs.now) }
{
    let mut names = Vec::with_capacity(alloc, outputs.len())?;
    for (name, artifact) in outputs {
        names.push(OutputName {
            name: name.clone()?,
            optional: artifact.optional,
        })?;
    }
    Ok(Listed::from_vec(names))
}

/// Where and when a request is asked.
pub fn place_of<'a>(request: &'a Request, config: &'a KeyConfig) -> CallPlace<'a>
    ensures dir { result.dir.now ≡ request.now.dir }
    ensures env { result.env.now ≡ request.now.env }
    ensures moment { result.moment ≡ request.now.moment }
    ensures config { result.config.now ≡ config.now }
{
    CallPlace {
        dir: &request.dir,
        env: request.env.as_slice(),
        moment: request.moment,
        config,
    }
}
