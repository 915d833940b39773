//! Keys of requests to rustc, as hashlib computes them of the bytes that are hashed, and the words by which rustc is asked for them.
//!
//! Large values are lent: each function holds one at most, and hands it over to `drop`.

use crate::answer_tool::AnswerTool;
use crate::scene::{bytes, listed};
use base_files::{Listed, MemoryFiles, OsBytes};
use ckeys_records::Fault;
use cmdlines_base::{ArgDisposition, Argument, ColorMode, CompilerArguments};
use rustkeys::{
    ArgData, CrateTypes, ParsedArguments, Rust, RustCompilation, RustFault, RustHasher,
    parse_arguments,
};
use sha2::Sha256;
use std::alloc::{AllocError, Global};
use std::test::Fail;
use tests_kit::{files_of, is_that, words};

/// A request that says nothing.
fn blank(alloc: Global) -> ParsedArguments {
    ParsedArguments {
        arguments: Listed::new(alloc),
        output_dir: OsBytes::empty(alloc),
        externs: Listed::new(alloc),
        crate_link_paths: Listed::new(alloc),
        staticlibs: Listed::new(alloc),
        crate_name: OsBytes::empty(alloc),
        crate_types: CrateTypes {
            rlib: true,
            staticlib: false,
        },
        dep_info: None,
        profile: None,
        gcno: None,
        profile_use: None,
        emit: Listed::new(alloc),
        color_mode: ColorMode::Auto,
        has_json: false,
        target_json: None,
    }
}

/// The option `--cfg` with that value.
fn condition(alloc: Global, value: &str) -> Result<Argument<ArgData>, AllocError> {
    let value = ArgData::PassThrough(bytes(alloc, value)?);
    Ok(Argument::WithValue("--cfg", value, ArgDisposition::Separated))
}

/// Makes it the arguments `a --cfg xyz b --cfg abc`.
fn set_arguments(alloc: Global, list: &mut Listed<Argument<ArgData>>) -> Result<(), AllocError> {
    list.push(Argument::Raw(bytes(alloc, "a")?))?;
    list.push(condition(alloc, "xyz")?)?;
    list.push(Argument::Raw(bytes(alloc, "b")?))?;
    list.push(condition(alloc, "abc")?)?;
    Ok(())
}

/// Makes it a request for a library and its metadata, with a crate that it names and a static library.
fn fill(alloc: Global, parsed: &mut ParsedArguments) -> Result<(), AllocError> {
    set_arguments(alloc, &mut parsed.arguments)?;
    parsed.output_dir = bytes(alloc, "out")?;
    parsed.externs = listed(alloc, "e.rlib")?;
    parsed.staticlibs = listed(alloc, "/t/libz.a")?;
    parsed.crate_name = bytes(alloc, "foo")?;
    parsed.emit = listed(alloc, "link metadata")?;
    Ok(())
}

/// The files of both requests, and the compiler's library, all empty.
const FILES: [(&str, &[u8]); 5] = [
    ("/s/lib.so", b""),
    ("/t/bar.rs", b""),
    ("/t/foo.rs", b""),
    ("/t/e.rlib", b""),
    ("/t/libz.a", b""),
];

/// Adds a variable.
fn push_variable(
    alloc: Global,
    list: &mut Vec<(OsBytes, OsBytes)>,
    name: &str,
    value: &str,
) -> Result<(), AllocError> {
    list.push((bytes(alloc, name)?, bytes(alloc, value)?))?;
    Ok(())
}

/// The variables of each call, of which two count.
fn variables(alloc: Global) -> Result<Vec<(OsBytes, OsBytes)>, AllocError> {
    let mut list = Vec::new(alloc);
    push_variable(alloc, &mut list, "CARGO_PKG_NAME", "foo")?;
    push_variable(alloc, &mut list, "FOO", "bar")?;
    push_variable(alloc, &mut list, "CARGO_BLAH", "abc")?;
    push_variable(alloc, &mut list, "CARGO_REGISTRIES_A_TOKEN", "i")?;
    push_variable(alloc, &mut list, "CARGO_BUILD_JOBS", "i")?;
    Ok(list)
}

/// A rustc with one library.
fn rust(alloc: Global, files: &mut MemoryFiles) -> Result<Rust, RustFault> {
    let version = bytes(alloc, "host: x")?;
    let libraries = listed(alloc, "/s/lib.so")?;
    let executable = OsBytes::empty(alloc);
    let sysroot = OsBytes::empty(alloc);
    Rust::new::<Sha256, MemoryFiles>(alloc, executable, version, sysroot, libraries, None, files)
}

/// The key, and the names of what is written.
fn text_of(alloc: Global, key: &str, made: &RustCompilation) -> Result<String, AllocError> {
    let mut text = format!(in alloc; " {key};")?;
    for (name, _) in made.outputs.as_slice() {
        write!(text, " {name}")?;
    }
    Ok(text)
}

/// The key of a request in `/t`, and the names of what it writes.
fn key_of(
    alloc: Global,
    hasher: &RustHasher<'_>,
    files: &mut MemoryFiles,
    tool: &mut AnswerTool,
) -> Result<String, Fault> {
    let dir = bytes(alloc, "/t")?;
    let env = variables(alloc)?;
    let made = hasher.generate_hash_key::<Sha256, MemoryFiles, AnswerTool>(
        alloc,
        &dir,
        env.as_slice(),
        files,
        tool,
    )?;
    let text = text_of(alloc, made.1.as_str(), &made.0);
    drop(made);
    Ok(text?)
}

/// The digest of nothing, the low half of each byte first.
const OF_NOTHING: &[u8] = b"3e0b4c2489cfc141a9bf4f8c99f69b4272ea144e46b939c44a5999b187258b55";

/// How rustc is asked for the key of a request to that compiler, the key, and the names of what it writes.
fn told_by(
    alloc: Global,
    compiler: &Rust,
    parsed: &ParsedArguments,
    files: &mut MemoryFiles,
) -> Result<String, Fail> {
    let mut tool = AnswerTool::new(
        alloc,
        b"x.d: foo.rs bar.rs\n",
        b"foo.rlib\nfoo.a\n",
        OF_NOTHING,
    );
    let hasher = RustHasher { compiler, parsed };
    let key = key_of(alloc, &hasher, files, &mut tool)?;
    let text = format!(in alloc; "{}{key}", tool.asked);
    drop(tool);
    Ok(text?)
}

/// Whether that is told of a request.
fn is_told(alloc: Global, parsed: &ParsedArguments, want: &str) -> Result<(), Fail> {
    let mut files = files_of(alloc, &FILES)?;
    let compiler = rust(alloc, &mut files)?;
    let text = told_by(alloc, &compiler, parsed, &mut files);
    drop(compiler);
    drop(files);
    is_that(text?.as_str(), want, "a request")
}

/// Words that are kept: `ab--cfgabc--cfgxyz` after their length, 18. The key is the digest of `8`, the digest of nothing, these 26 bytes, the
/// digest of nothing four times (two sources, the crate and the static library), `CARGO_BLAH=abc` and `CARGO_PKG_NAME=foo` and the directory
/// with each name's and value's length before it, `host: x` and the byte 255.
const OF_PIECES: &str =
    " a --cfg xyz b --cfg abc --emit dep-info; a --cfg xyz b --cfg abc --print file-names; ab4b9dc91145b3818dd6136d17eb501346f1f1ac3c126213020ccf06c093a27b; foo.rlib foo.a foo.rmeta";

#[test]
fn pieces_have_a_known_key(rt: HostRuntime) -> Result<(), Fail> {
    let mut parsed = blank(rt.alloc());
    fill(rt.alloc(), &mut parsed)?;
    let told = is_told(rt.alloc(), &parsed, OF_PIECES);
    drop(parsed);
    told
}

/// The words of a request for a library.
const LINE: &str =
    "--emit link -C opt-level=1 foo.rs --out-dir out --crate-name foo --crate-type lib";

/// Of the kept words `--emitlink-Copt-level=1foo.rs--crate-namefoo--crate-typerlib` after their length, 60, with two sources and nothing else.
const OF_LINE: &str =
    " -C opt-level=1 foo.rs --crate-name foo --crate-type rlib --emit dep-info; --emit link -C opt-level=1 foo.rs --out-dir out --crate-name foo --crate-type rlib --print file-names; 7eb98e13675118b366eb605da9d87f82811a809fd4901b0d7058f798238a860a; foo.rlib foo.a";

/// What words come to in `/t`, where there are no files.
fn parsed(alloc: Global, line: &str) -> Result<CompilerArguments<ParsedArguments>, Fail> {
    let dir = bytes(alloc, "/t")?;
    let list = words(alloc, line)?;
    let mut files = MemoryFiles::new(alloc);
    Ok(parse_arguments(alloc, list.as_slice(), &dir, &mut files)?)
}

/// Neither the kinds nor the folder of what is written are in the words by which rustc is asked for dependencies.
#[test]
fn words_have_a_known_key(rt: HostRuntime) -> Result<(), Fail> {
    let asked = parsed(rt.alloc(), LINE)?;
    let told = match &asked {
        CompilerArguments::Ok(request) => is_told(rt.alloc(), request, OF_LINE),
        CompilerArguments::NotCompilation | CompilerArguments::CannotCache(_, _) => {
            Err("no request".into())
        }
    };
    drop(asked);
    told
}
