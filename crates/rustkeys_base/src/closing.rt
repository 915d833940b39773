//! What all arguments of a request come to, once none of them decides by itself.

ghost use Rattle.std.specs.Prelude.{◌≡◌, Some, map, IfOk, IfErr, IsErrOf, OnOk, MatchOption, codes};
ghost use Rattle.std.specs.List.{Contains, list_any};
ghost use Rattle.cmdlines_base.specs.Choices.{when};
ghost use Rattle.base_files.specs.Path.{join, path_cmp};
ghost use Rattle.base_files.specs.Views.{FilesFail};
ghost use Rattle.rustc_options.specs.Sets.{in_order};
ghost use Rattle.cmdlines_response_files.specs.Causes.{CauseOf};
ghost use Rattle.rustkeys_base.specs.Asking.{library_places};
ghost use Rattle.rustkeys_base.specs.Requests.{IsAskedBy, IsMadeOf, color_mode, named_by_crate, emits, dep_info, gcno, profile, static_libraries};
ghost use Rattle.rustc_options.specs.Sorted.{sorted_by};
ghost use Rattle.rustkeys_base.specs.Parsing.{asks, closing, emitted, has_kind, is_supported, is_unsupported, decision_of, decision_of_refusal};

use crate::deciding::{Refusal, refused};
use crate::facts::Facts;
use crate::libraries::{join_paths, libraries_in};
use base_files::{Files, Listed, OsBytes, compare_paths, paths_have_one_order};
use cmdlines_base::{Argument, ColorMode, CompilerArguments};
use cmdlines_response_files::ParseFault;
use rustc_options::parsed::{CrateTypes, ParsedArguments};
use rustc_options::{ArgData, between_commas, in_order};
use std::alloc::{AllocError, Global};

/// Whether one of the kinds is of that name.
fn has_kind(name: &[u8], kinds: &[OsBytes]) -> bool
    ensures { result ≡ has_kind name.now kinds.now }
{
    kinds.iter().any(|kind| name == kind.as_bytes())
}

/// Whether what is emitted so can be cached.
fn is_supported(kind: &[u8]) -> bool
    ensures { result ≡ is_supported kind.now }
{
    kind == b"link".as_slice() || kind == b"metadata".as_slice() || kind == b"dep-info".as_slice()
}

/// Whether one of the kinds can't be cached.
fn has_unsupported(kinds: &[OsBytes]) -> bool
    ensures { result ≡ list_any is_unsupported kinds.now }
{
    kinds.iter().any(|kind| !is_supported(kind.as_bytes()))
}

/// What is emitted.
fn emitted(alloc: Global, facts: &Facts) -> Result<Listed<OsBytes>, AllocError>
    ensures { IfOk result (λ kinds. kinds ≡ emitted facts.now) }
{
    match &facts.emit {
        None => Ok(Listed::new(alloc)),
        Some(word) => between_commas(alloc, word.as_bytes()),
    }
}

/// Why the arguments ask for nothing that can be cached, if they don't.
fn refusal(alloc: Global, facts: &Facts, kinds: &[OsBytes]) -> Result<Option<Refusal>, AllocError>
    requires { kinds.now ≡ emitted facts.now }
    ensures { IfOk result
        (λ found. MatchOption found (closing facts.now ≡ asks)
        (λ why. decision_of_refusal why ≡ closing facts.now)) }
{
    if facts.input.is_none() {
        return Ok(Some(refused("missing input")));
    }
    if facts.output_dir.is_none() {
        return Ok(Some(refused("missing output_dir")));
    }
    if facts.emit.is_none() {
        return Ok(Some(refused("missing emit")));
    }
    if facts.crate_name.is_none() {
        return Ok(Some(refused("missing crate_name")));
    }
    if !has_kind(b"link", kinds) && !has_kind(b"metadata", kinds) {
        return Ok(Some(Refusal::NotCompilation));
    }
    if !facts.rlib && !facts.staticlib {
        let more = String::from_str(alloc, "No crate-type passed")?;
        return Ok(Some(Refusal::CannotCache("crate-type", Some(more))));
    }
    if has_unsupported(kinds) {
        return Ok(Some(refused("unsupported --emit")));
    }
    Ok(None)
}

/// What the last word on colours says.
fn color_mode(facts: &Facts) -> ColorMode
    ensures { result ≡ color_mode facts.now }
{
    let Some(word) = &facts.color else {
        return ColorMode::Auto;
    };
    if word.as_bytes() == b"always".as_slice() {
        ColorMode::On
    } else if word.as_bytes() == b"never".as_slice() {
        ColorMode::Off
    } else {
        ColorMode::Auto
    }
}

/// The name of a file that is named by the crate, with that ending.
fn named_by_crate(alloc: Global, facts: &Facts, ending: &[u8]) -> Result<OsBytes, AllocError>
    ensures { IfOk result (λ name. name ≡ named_by_crate facts.now ending.now) }
{
    let mut name = Vec::new(alloc);
    if let Some(crate_name) = &facts.crate_name {
        name.extend_from_slice(crate_name.as_bytes())?;
    }
    if let Some(extra) = &facts.extra_filename {
        name.extend_from_slice(extra.as_bytes())?;
    }
    name.extend_from_slice(ending)?;
    Ok(OsBytes::from_vec(name))
}

/// The same, where it is wanted.
fn named_if(
    alloc: Global,
    wanted: bool,
    facts: &Facts,
    ending: &[u8],
) -> Result<Option<OsBytes>, AllocError>
    ensures { IfOk result (λ name. name ≡ when wanted (named_by_crate facts.now ending.now)) }
{
    if wanted {
        Ok(Some(named_by_crate(alloc, facts, ending)?))
    } else {
        Ok(None)
    }
}

/// The profile that code generation uses, where something is linked.
fn profile(facts: &Facts, links: bool) -> Result<Option<OsBytes>, AllocError>
    requires { links ≡ emits facts.now (codes "link") }
    ensures { IfOk result (λ name. name ≡ profile facts.now) }
{
    match &facts.profile_use {
        Some(name) if links => Ok(Some(name.clone()?)),
        _ => Ok(None),
    }
}

/// The paths in order.
fn sorted(paths: Listed<OsBytes>) -> Listed<OsBytes>
    ensures { result ≡ sorted_by path_cmp paths }
{
    // A law, which costs nothing: what follows from it is said above.
    paths_have_one_order();
    let mut paths = paths.into_vec();
    paths.sort_unstable_by(|left, right| compare_paths(left.as_bytes(), right.as_bytes()));
    Listed::from_vec(paths)
}

/// The names of the file of dependencies, of the profile and of the file of coverage, where they are wanted.
fn names_for(
    alloc: Global,
    facts: &Facts,
    kinds: &[OsBytes],
) -> Result<(Option<OsBytes>, Option<OsBytes>, Option<OsBytes>), AllocError>
    requires { kinds.now ≡ emitted facts.now }
    ensures dep_info { IfOk result (λ names. names.0 ≡ dep_info facts.now) }
    ensures profile { IfOk result (λ names. names.1 ≡ profile facts.now) }
    ensures gcno { IfOk result (λ names. names.2 ≡ gcno facts.now) }
{
    let links = has_kind(b"link", kinds);
    let depends = has_kind(b"dep-info", kinds);
    let dep_info = named_if(alloc, depends, facts, b".d")?;
    let profile = profile(facts, links)?;
    let gcno = named_if(alloc, facts.asks_gcno && links, facts, b".gcno")?;
    Ok((dep_info, profile, gcno))
}

/// The static libraries that are there.
fn libraries_for<F: Files>(
    alloc: Global,
    dir: &OsBytes,
    facts: &Facts,
    files: &mut F,
) -> Result<Listed<OsBytes>, ParseFault>
    ensures libraries { IfOk result
        (λ found. found ≡ static_libraries dir.now (F.tree files.old) facts.now) }
    ensures cause { IfErr result (CauseOf (FilesFail F.Files files.old files.new)) }
    ensures names { IfErr result (CauseOf (Contains (library_places dir.now facts.now))) }
    ensures tree { F.tree files.new ≡ F.tree files.old }
    ensures steady { OnOk result (F.failed files.new ≡ F.failed files.old) }
    ensures memory { IsErrOf result ParseFault.Memory → F.failed files.new ≡ F.failed files.old }
{
    let folders = join_paths(alloc, dir, facts.static_paths.as_slice())?;
    let names = facts.static_libraries.as_slice();
    libraries_in(alloc, folders.as_slice(), names, files)
}

/// What has to be made for a request.
#[derive(Drop)]
struct Made {
    crate_link_paths: Listed<OsBytes>,
    staticlibs: Listed<OsBytes>,
    dep_info: Option<OsBytes>,
    profile: Option<OsBytes>,
    gcno: Option<OsBytes>,
    emit: Listed<OsBytes>,
}

/// What has to be made for these arguments.
fn made_for<F: Files>(
    alloc: Global,
    dir: &OsBytes,
    facts: &Facts,
    kinds: Listed<OsBytes>,
    files: &mut F,
) -> Result<Made, ParseFault>
    requires { kinds ≡ emitted facts.now }
    ensures paths { IfOk result
        (λ made. made.crate_link_paths ≡ map (join dir.now) facts.now.crate_paths) }
    ensures libraries { IfOk result
        (λ made. made.staticlibs ≡ static_libraries dir.now (F.tree files.old) facts.now) }
    ensures dep_info { IfOk result (λ made. made.dep_info ≡ dep_info facts.now) }
    ensures profile { IfOk result (λ made. made.profile ≡ profile facts.now) }
    ensures gcno { IfOk result (λ made. made.gcno ≡ gcno facts.now) }
    ensures emit { IfOk result (λ made. made.emit ≡ in_order (emitted facts.now)) }
    ensures cause { IfErr result (CauseOf (FilesFail F.Files files.old files.new)) }
    ensures names { IfErr result (CauseOf (Contains (library_places dir.now facts.now))) }
    ensures tree { F.tree files.new ≡ F.tree files.old }
    ensures steady { OnOk result (F.failed files.new ≡ F.failed files.old) }
    ensures memory { IsErrOf result ParseFault.Memory → F.failed files.new ≡ F.failed files.old }
{
    let staticlibs = libraries_for(alloc, dir, facts, files)?;
    let crate_link_paths = join_paths(alloc, dir, facts.crate_paths.as_slice())?;
    let (dep_info, profile, gcno) = names_for(alloc, facts, kinds.as_slice())?;
    Ok(Made {
        crate_link_paths,
        staticlibs,
        dep_info,
        profile,
        gcno,
        emit: in_order(alloc, kinds)?,
    })
}

/// What has to be made for these arguments, or why nothing is asked for.
fn made_or_refused<F: Files>(
    alloc: Global,
    dir: &OsBytes,
    facts: &Facts,
    files: &mut F,
) -> Result<Result<Made, Refusal>, ParseFault>
    ensures asks { IfOk result (λ found. IfOk found (λ made. closing facts.now ≡ asks)) }
    ensures refused { IfOk result
        (λ found. IfErr found (λ why. decision_of_refusal why ≡ closing facts.now)) }
    ensures paths { IfOk result
        (λ found. IfOk found
        (λ made. made.crate_link_paths ≡ map (join dir.now) facts.now.crate_paths)) }
    ensures libraries { IfOk result
        (λ found. IfOk found
        (λ made. made.staticlibs ≡ static_libraries dir.now (F.tree files.old) facts.now)) }
    ensures dep_info { IfOk result
        (λ found. IfOk found (λ made. made.dep_info ≡ dep_info facts.now)) }
    ensures profile { IfOk result
        (λ found. IfOk found (λ made. made.profile ≡ profile facts.now)) }
    ensures gcno { IfOk result (λ found. IfOk found (λ made. made.gcno ≡ gcno facts.now)) }
    ensures emit { IfOk result
        (λ found. IfOk found (λ made. made.emit ≡ in_order (emitted facts.now))) }
    ensures cause { IfErr result (CauseOf (FilesFail F.Files files.old files.new)) }
    ensures names { IfErr result (CauseOf (Contains (library_places dir.now facts.now))) }
    ensures tree { F.tree files.new ≡ F.tree files.old }
    ensures steady { OnOk result (F.failed files.new ≡ F.failed files.old) }
    ensures memory { IsErrOf result ParseFault.Memory → F.failed files.new ≡ F.failed files.old }
{
    let kinds = emitted(alloc, facts)?;
    match refusal(alloc, facts, kinds.as_slice())? {
        Some(why) => Ok(Err(why)),
        None => Ok(Ok(made_for(alloc, dir, facts, kinds, files)?)),
    }
}

/// What these arguments ask for, where they ask for something.
fn parsed(facts: Facts, made: Made, arguments: Listed<Argument<ArgData>>) -> ParsedArguments
    requires asks { closing facts ≡ asks }
    ensures output_dir { Some result.output_dir ≡ facts.output_dir }
    ensures externs { result.externs ≡ sorted_by path_cmp facts.externs }
    ensures crate_name { Some result.crate_name ≡ facts.crate_name }
    ensures rest { IsMadeOf facts made arguments result }
{
    let color_mode = color_mode(&facts);
    ParsedArguments {
        arguments,
        color_mode,
        output_dir: facts.output_dir.unwrap(),
        externs: sorted(facts.externs),
        crate_link_paths: made.crate_link_paths,
        staticlibs: made.staticlibs,
        crate_name: facts.crate_name.unwrap(),
        crate_types: CrateTypes {
            rlib: facts.rlib,
            staticlib: facts.staticlib,
        },
        dep_info: made.dep_info,
        profile: made.profile,
        gcno: made.gcno,
        profile_use: facts.profile_use,
        emit: made.emit,
        has_json: facts.has_json,
        target_json: facts.target_json,
    }
}

/// What all arguments come to.
pub(crate) fn close<F: Files>(
    alloc: Global,
    dir: &OsBytes,
    facts: Facts,
    arguments: Listed<Argument<ArgData>>,
    files: &mut F,
) -> Result<CompilerArguments<ParsedArguments>, ParseFault>
    ensures decision { IfOk result (λ answer. decision_of answer ≡ closing facts) }
    ensures asked { IfOk result (IsAskedBy dir.now (F.tree files.old) facts arguments) }
    ensures cause { IfErr result (CauseOf (FilesFail F.Files files.old files.new)) }
    ensures names { IfErr result (CauseOf (Contains (library_places dir.now facts))) }
    ensures tree { F.tree files.new ≡ F.tree files.old }
    ensures steady { OnOk result (F.failed files.new ≡ F.failed files.old) }
    ensures memory { IsErrOf result ParseFault.Memory → F.failed files.new ≡ F.failed files.old }
{
    match made_or_refused(alloc, dir, &facts, files) {
        Ok(Ok(made)) => Ok(CompilerArguments::Ok(parsed(facts, made, arguments))),
        Ok(Err(why)) => {
            drop(facts);
            Ok(why.into_answer())
        }
        Err(fault) => {
            drop(facts);
            Err(fault)
        }
    }
}
