//! What is made of all that rustc and the files reported: the key, its shape, the compile, and the text on dependencies.

ghost use Rattle.std.specs.Prelude.{◌≡◌, ℤ, string_bytes, IfOk, OnOk};
ghost use Rattle.std.specs.Option.{option_copied, option_to_list};
ghost use Rattle.base_files.specs.Bytes.{Bytes};
ghost use Rattle.base_files.specs.Tree.{Tree};
ghost use Rattle.base_formats.specs.Spelling.{FitsFrame};
ghost use Rattle.cmdlines_tables.specs.Small.{command_at};
ghost use Rattle.rustc_parts.specs.Material.{material_of};
ghost use Rattle.rustc_parts.specs.Shapes.{shape_of};
ghost use Rattle.rustc_texts.specs.Outputs.{output_names, outputs_of};
ghost use Rattle.rustc_texts.specs.Words.{compile_words, kept_words};
ghost use Rattle.rustc_options.specs.Asks.{asks_in};
ghost use Rattle.rustkeys.specs.Calls.{record_with};
ghost use Rattle.rustkeys.specs.Collected.{IsCollected};
ghost use Rattle.rustkeys.specs.Fresh.{dep_info_by};
ghost use Rattle.rustkeys.specs.Hashers.{call_at, known_in};
ghost use Rattle.rustkeys.specs.Questions.{Answers, compile_env_of, counted_in, env_deps_in};
ghost use Rattle.rustkeys.specs.Records.{digest_text, parts_of};

use crate::collecting::Collected;
use crate::compilation::{RustCompilation, compile_of, copied};
use crate::ordered_lists::{counted_in, env_deps_in};
use crate::place::{KnownRust, RustPlace};
use base_files::{Listed, OsBytes};
use ckeys_base::{Digest, HashState};
use cmdlines_base::SingleCompileCommand;
use rustc_options::parsed::ParsedArguments;
use rustc_parts::key_bytes;
use rustc_parts::parts::{EnvDep, Parts, RShape};
use rustc_texts::output_names::output_names;
use rustc_texts::outputs::{Output, targets};
use rustc_texts::{TextFault, dep_info_with_targets, kept_words};
use std::alloc::{AllocError, Global};

/// The pieces of a key that are no digests of a request's files.
#[derive(Drop)]
struct OtherPieces {
    toolchain: Listed<OsBytes>,
    version: OsBytes,
    words: Listed<OsBytes>,
    dir: OsBytes,
    env_deps: Listed<EnvDep>,
    variables: Listed<(OsBytes, OsBytes)>,
}

/// Those of a request with that text on dependencies.
fn other_pieces(
    alloc: Global,
    known: &KnownRust,
    place: &RustPlace,
    text: &str,
) -> Result<OtherPieces, AllocError>
    ensures { IfOk result
        (λ pieces. pieces ≡ record {
          toolchain = known.now.toolchain.now;
          version = known.now.version.now;
          words = kept_words (asks_in place.now.parsed.now);
          dir = place.now.dir.now;
          env_deps = env_deps_in text.now;
          variables = counted_in place.now.env.now;
        }) }
{
    Ok(OtherPieces {
        toolchain: copied(alloc, known.toolchain)?,
        version: known.version.clone()?,
        words: kept_words(alloc, place.parsed)?,
        dir: place.dir.clone()?,
        env_deps: env_deps_in(alloc, text)?,
        variables: counted_in(alloc, place.env)?,
    })
}

/// The pieces of the key: those of the record of the call for which all this was collected.
fn parts_by(
    alloc: Global,
    known: &KnownRust,
    place: &RustPlace,
    found: Collected,
) -> Result<Parts, AllocError>
    ensures { (digest_of : Bytes → Bytes) (files : Tree) (moment : ℤ) (answers : Answers)
        → let c = call_at known.now place.now files moment in
        IsCollected digest_of c.question answers found →
        IfOk result (λ parts. parts ≡ parts_of digest_of (record_with c answers)) }
{
    let others = other_pieces(alloc, known, place, found.sources.text.as_str())?;
    let Collected { sources, files, .. } = found;
    Ok(Parts {
        toolchain: others.toolchain,
        version: others.version,
        words: others.words,
        sources: sources.digests,
        externs: files.externs,
        archives: files.archives,
        target: files.target,
        profile: files.profile,
        env_deps: others.env_deps,
        variables: others.variables,
        dir: others.dir,
    })
}

/// A slice has a length. A call of it does nothing.
fn has_a_length(bytes: &[u8])
    ensures { FitsFrame bytes.now }
{
    let _length = bytes.len();
}

/// The key of these pieces, and its shape.
fn key_of_parts<H: HashState>(alloc: Global, parts: &Parts) -> Result<(String, RShape), AllocError>
    ensures key { let wanted = digest_text H.digest_of (material_of parts.now) in
        IfOk result (λ made. string_bytes made.0 ≡ wanted) }
    ensures shape { IfOk result (λ made. made.1 ≡ shape_of parts.now) }
    ensures fits { OnOk result (FitsFrame (material_of parts.now)) }
{
    let bytes = key_bytes(alloc, parts)?;
    has_a_length(&bytes);
    let mut digest: Digest<H> = Digest::new();
    digest.update(&bytes);
    let key = digest.finish(alloc)?;
    Ok((key, parts.shape(alloc)?))
}

/// The path alone, where there is one.
fn listed(alloc: Global, path: Option<&OsBytes>) -> Result<Listed<OsBytes>, AllocError>
    ensures { IfOk result (λ paths. paths ≡ option_to_list (option_copied path.entry)) }
{
    let mut paths = Listed::new(alloc);
    if let Some(path) = path {
        paths.push(path.clone()?)?;
    }
    Ok(paths)
}

/// The text on dependencies for the targets of a request that writes these names, where it is asked for.
fn dep_info_for(
    alloc: Global,
    parsed: &ParsedArguments,
    archive: Option<&OsBytes>,
    text: &str,
    names: &[OsBytes],
) -> Result<Option<OsBytes>, AllocError>
    ensures { IfOk result (λ made. made
        ≡ dep_info_by (asks_in parsed.now) (option_copied archive.entry) text.now names.now) }
{
    if parsed.dep_info.is_none() {
        return Ok(None);
    }
    let targets = targets(alloc, parsed, names)?;
    let extras = listed(alloc, archive)?;
    match dep_info_with_targets(alloc, text, targets.as_slice(), extras.as_slice()) {
        Ok(text) => Ok(Some(text)),
        Err(TextFault::NoRule) => Ok(None),
        Err(TextFault::Memory) => Err(AllocError),
    }
}

/// The compile of a request, its outputs and its own text on dependencies, by what rustc reported as text: what the crate depends on,
/// and the names of what is written.
fn written(
    alloc: Global,
    known: &KnownRust,
    place: &RustPlace,
    text: &str,
    names: &str,
) -> Result<(SingleCompileCommand, Listed<Output>, Option<OsBytes>), AllocError>
    ensures command { let words = compile_words (asks_in place.now.parsed.now) in
        let env = compile_env_of place.now.env.now in
        IfOk result (λ made. made.0
        ≡ command_at place.now.executable.now words env place.now.dir.now) }
    ensures outputs { IfOk result
        (λ made. made.1 ≡ outputs_of (asks_in place.now.parsed.now) names.now) }
    ensures dep_info { let asks = asks_in place.now.parsed.now in
        IfOk result (λ made. made.2
        ≡ dep_info_by asks (known_in known.now).archive text.now
        (output_names asks.emit names.now)) }
{
    let names = output_names(alloc, place.parsed.emit.as_slice(), names)?;
    let names = names.as_slice();
    let (command, outputs) = compile_of(alloc, place, names)?;
    let dep_info = dep_info_for(alloc, place.parsed, known.archive, text, names)?;
    Ok((command, outputs, dep_info))
}

/// The pieces, the key and its shape.
fn keyed<H: HashState>(
    alloc: Global,
    known: &KnownRust,
    place: &RustPlace,
    found: Collected,
) -> Result<(Parts, String, RShape), AllocError>
    ensures parts { (files : Tree) (moment : ℤ) (answers : Answers)
        → let c = call_at known.now place.now files moment in
        IsCollected H.digest_of c.question answers found →
        IfOk result (λ made. made.0 ≡ parts_of H.digest_of (record_with c answers)) }
    ensures key { IfOk result
        (λ made. string_bytes made.1 ≡ digest_text H.digest_of (material_of made.0)) }
    ensures shape { IfOk result (λ made. made.2 ≡ shape_of made.0) }
    ensures fits { IfOk result (λ made. FitsFrame (material_of made.0)) }
{
    let parts = parts_by(alloc, known, place, found)?;
    match key_of_parts::<H>(alloc, &parts) {
        Ok((key, shape)) => Ok((parts, key, shape)),
        Err(error) => {
            drop(parts);
            Err(error)
        }
    }
}

/// The compile of a request, its key, the shape of that, and the text on dependencies.
pub(crate) fn keyed_compilation<H: HashState>(
    alloc: Global,
    known: &KnownRust,
    place: &RustPlace,
    found: Collected,
) -> Result<(RustCompilation, String, RShape, Option<OsBytes>), AllocError>
    ensures key { IfOk result
        (λ made. string_bytes made.1 ≡ digest_text H.digest_of (material_of made.0.parts)) }
    ensures shape { IfOk result (λ made. made.2 ≡ shape_of made.0.parts) }
    ensures fits { IfOk result (λ made. FitsFrame (material_of made.0.parts)) }
    // Its pieces are those of the record of the call for which all this was collected.
    ensures parts { (files : Tree) (moment : ℤ) (answers : Answers)
        → let c = call_at known.now place.now files moment in
        IsCollected H.digest_of c.question answers found →
        IfOk result (λ made. made.0.parts ≡ parts_of H.digest_of (record_with c answers)) }
    ensures command { let words = compile_words (asks_in place.now.parsed.now) in
        let env = compile_env_of place.now.env.now in
        IfOk result (λ made. made.0.command
        ≡ command_at place.now.executable.now words env place.now.dir.now) }
    ensures outputs { let asks = asks_in place.now.parsed.now in
        IfOk result (λ made. made.0.outputs ≡ outputs_of asks (string_bytes found.names)) }
    ensures dep_info { let asks = asks_in place.now.parsed.now in
        IfOk result (λ made. made.3
        ≡ dep_info_by asks (known_in known.now).archive (string_bytes found.sources.text)
        (output_names asks.emit (string_bytes found.names))) }
{
    let text = found.sources.text.as_str();
    let (command, outputs, dep_info) = written(alloc, known, place, text, found.names.as_str())?;
    let (parts, key, shape) = keyed::<H>(alloc, known, place, found)?;
    let made = RustCompilation {
        command,
        outputs,
        parts,
    };
    Ok((made, key, shape, dep_info))
}
