//! What is asked of a request, and a compiler as it is shown.

use base_files::{Listed, OsBytes};
use cmdlines::Gcc;
use cmdlines_base::{ArtifactDescriptor, ColorMode};
use cmdlines_tables::language::Language;
use cmdlines_tables::{DependencyOptions, ParsedArguments};
use std::alloc::{AllocError, Global};
use std::test::Fail;
use tests_kit::{holds, is_that, words};

/// A request with these outputs and words on architectures, and nothing else.
fn request(
    alloc: Global,
    outputs: Vec<(OsBytes, ArtifactDescriptor)>,
    arch_args: Vec<OsBytes>,
) -> ParsedArguments {
    ParsedArguments {
        input: OsBytes::empty(alloc),
        double_dash_input: false,
        language: Language::C,
        outputs: Listed::from_vec(outputs),
        preprocessor_args: Listed::new(alloc),
        dependency_args: Listed::new(alloc),
        unhashed_args: Listed::new(alloc),
        common_args: Listed::new(alloc),
        arch_args: Listed::from_vec(arch_args),
        extra_hash_files: Listed::new(alloc),
        color_mode: ColorMode::Auto,
        too_hard_for_preprocessor_cache_mode: None,
        empty_value: false,
        has_color_option: false,
        dependencies: DependencyOptions {
            asked: false,
            path: false,
            target: false,
        },
    }
}

/// The one output, the object, at that path.
fn object(alloc: Global, path: &[u8]) -> Result<Vec<(OsBytes, ArtifactDescriptor)>, AllocError> {
    let path = OsBytes::from_slice(alloc, path)?;
    let name = OsBytes::from_slice(alloc, b"obj")?;
    let optional = false;
    let mut outputs = Vec::new(alloc);
    outputs.push((name, ArtifactDescriptor { path, optional }))?;
    Ok(outputs)
}

/// The name of the object as text.
fn pretty(alloc: Global, path: &[u8]) -> Result<String, AllocError> {
    let request = request(alloc, object(alloc, path)?, Vec::new(alloc));
    let text = request.output_pretty(alloc);
    drop(request);
    text
}

#[test]
fn the_name_of_the_object_is_shown(rt: HostRuntime) -> Result<(), Fail> {
    let text = pretty(rt.alloc(), b"a/\xff.o")?;
    is_that(text.as_str(), "\u{FFFD}.o", "a name that is no text")
}

/// Whether the request has these architectures alone, in this order.
fn has_architectures(alloc: Global, request: &ParsedArguments) -> bool {
    match request.archs(alloc) {
        Ok(archs) => matches!(archs.as_slice(), [[b'b'], [b'a']]),
        Err(_) => false,
    }
}

#[test]
fn architectures_are_listed_once(rt: HostRuntime) -> Result<(), Fail> {
    let words = words(rt.alloc(), "-arch b -arch a -arch -arch b")?;
    let request = request(rt.alloc(), Vec::new(rt.alloc()), words);
    let has = has_architectures(rt.alloc(), &request);
    drop(request);
    holds(has, "b, and then a")
}

/// A compiler is shown without its tables.
#[test]
fn a_compiler_is_shown(rt: HostRuntime) -> Result<(), Fail> {
    let gcc = Gcc::new(rt.alloc(), true, None, None)?;
    let shown = format!(in rt.alloc(); "{gcc:?}");
    drop(gcc);
    let want = "FoundCompiler { kind: Gcc, plusplus: true, version: None, assembler_digest: None }";
    is_that(shown?.as_str(), want, "gcc")
}
