//! Kept outputs, as the session has them and as they lie on a disk.

ghost use Rattle.std.specs.Prelude.{◌≡◌, map, IfOk};
ghost use Rattle.cache_files.specs.Results.{key_in};
ghost use Rattle.wrap_base.specs.Outputs.{pair_of};
ghost use Rattle.wrap_base.specs.declared.store_key.Family.TheVariants as families;
ghost use Rattle.wrap_base.specs.declared.store_key.Shape.TheVariants as shapes;

use crate::copies::copied_names;
use base_files::Listed;
use cache_format::{KeptMessages, KeptResult};
use cache_host::HostError;
use ckeys_records::shape::CShape;
use std::alloc::{AllocError, Global};
use wrap_base::store_key::{Family, Pairs, Shape, StoreKey};
use wrap_base::{Output, pairs_of};

/// Another shape like it.
fn copied_shape(alloc: Global, shape: &CShape) -> Result<CShape, AllocError>
    ensures { IfOk result (λ copy. copy ≡ shape.now) }
{
    let mut extra_hashes = Listed::new(alloc);
    for length in shape.extra_hashes.as_slice() {
        extra_hashes.push(*length)?;
    }
    Ok(CShape {
        language: shape.language,
        compiler_digest: shape.compiler_digest,
        words: shape.words,
        extra_hashes,
        assembler_digest: shape.assembler_digest,
        variables: shape.variables,
    })
}

/// The shape that a key is kept with. A key of rustc's isn't kept.
fn shape_in(alloc: Global, key: &StoreKey) -> Result<CShape, HostError>
    ensures family { IfOk result (λ shape. key.now.family ≡ families.C) }
    ensures shape { IfOk result (λ shape. key.now.shape ≡ shapes.C shape) }
{
    match (key.family, &key.shape) {
        (Family::C, Shape::C(shape)) => Ok(copied_shape(alloc, shape)?),
        _ => Err(HostError::Unreadable),
    }
}

/// The entry of these outputs under this key, with what was printed beside them.
pub fn entry_of(
    alloc: Global,
    key: &StoreKey,
    outputs: &[Output],
    messages: KeptMessages,
) -> Result<KeptResult, HostError>
    // What is read back of it is this key and these pairs.
    ensures key { IfOk result (λ entry. key_in entry ≡ key.now) }
    ensures pairs { IfOk result (λ entry. entry.outputs ≡ map pair_of outputs.now) }
    ensures messages { IfOk result (λ entry. entry.messages ≡ messages) }
{
    let shape = shape_in(alloc, key)?;
    let names = copied_names(alloc, key.names.as_slice())?;
    let digest = key.digest.clone()?;
    let outputs = pairs_of(alloc, outputs)?;
    Ok(KeptResult {
        shape,
        names,
        digest,
        outputs,
        messages,
    })
}

/// What a disk keeps under a key.
#[derive(Drop)]
pub struct Kept {
    pub pair: (StoreKey, Pairs),
    /// What was printed beside these outputs.
    pub messages: KeptMessages,
}

/// The key of an entry, and what was kept under it.
pub fn kept_of(entry: KeptResult) -> Kept
    ensures key { result.pair.0 ≡ key_in entry }
    ensures pairs { result.pair.1 ≡ entry.outputs }
    ensures messages { result.messages ≡ entry.messages }
{
    let KeptResult {
        shape,
        names,
        digest,
        outputs,
        messages,
    } = entry;
    let key = StoreKey {
        family: Family::C,
        shape: Shape::C(shape),
        names,
        digest,
    };
    let pair = (key, outputs);
    Kept { pair, messages }
}
