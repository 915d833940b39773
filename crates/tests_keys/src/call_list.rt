//! Keys of many calls, of a compiler that is represented by its executable and its version.

use crate::print_tool::PrintTool;
use crate::scene::Scene;
use base_bounded_store::LruStore;
use base_files::{MemoryFiles, OsBytes};
use ckeys::{CCompiler, EntryKey, HashCall, PreprocessorCacheEntry, hash_keys};
use ckeys_records::shape::CShape;
use ckeys_records::{Fault, KeyConfig};
use ckeys_time_macros::Zone;
use cmdlines::Gcc;
use sha2::Sha256;
use std::alloc::{AllocError, Global};
use std::num::NonZeroUsize;
use std::test::Fail;
use tests_kit::{WatchedFiles, files_of, holds};

/// The include records of earlier calls.
type Records = LruStore<EntryKey, PreprocessorCacheEntry>;

/// A call on the sources, whose tool prints one text.
type Call<'a> = HashCall<'a, Gcc, WatchedFiles<'static>, PrintTool>;

/// What a call is answered.
type Answer = Result<(String, CShape, bool), Fault>;

/// Gcc of the version 13 with its executable, which holds `elf`.
fn compiler(alloc: Global) -> Result<CCompiler<Gcc>, Fault> {
    let mut files = files_of(alloc, &[("/usr/bin/gcc", b"elf".as_slice())])?;
    let executable = OsBytes::from_slice(alloc, b"/usr/bin/gcc")?;
    let version = String::from_str(alloc, "13")?;
    let gcc = Gcc::new(alloc, false, Some(version), None)?;
    CCompiler::<Gcc>::new::<Sha256, MemoryFiles>(alloc, gcc, executable, &mut files)
}

/// `foo.c`, which includes `foo.h`, and a profile.
const SOURCES: [(&str, &[u8]); 3] = [
    ("/w/foo.c", b"#include \"foo.h\"\n"),
    ("/w/foo.h", b"int x;\n"),
    ("/w/prof.txt", b"profile"),
];

/// What the preprocessor prints of them.
const TEXT: &[u8] = b"# 1 \"foo.c\"\n# 1 \"foo.h\" 1\nint x;\n";

/// The call of the scene's request on these files.
fn call_on<'a>(compiler: &'a CCompiler<Gcc>, scene: &'a Scene, files: MemoryFiles) -> Call<'a> {
    HashCall {
        hasher: compiler.hasher(&scene.parsed),
        dir: &scene.dir,
        env: &[],
        moment: 0,
        files: WatchedFiles {
            files,
            calls: 0,
            broken: b"",
            failed: 0,
        },
        tool: PrintTool::new(TEXT),
    }
}

/// A call on no files, and two on the sources.
fn three_calls<'a>(
    alloc: Global,
    compiler: &'a CCompiler<Gcc>,
    scene: &'a Scene,
) -> Result<[Call<'a>; 3], AllocError> {
    let sources = files_of(alloc, &SOURCES)?;
    let same = files_of(alloc, &SOURCES)?;
    Ok([
        call_on(compiler, scene, MemoryFiles::new(alloc)),
        call_on(compiler, scene, sources),
        call_on(compiler, scene, same),
    ])
}

/// What these calls are answered from an empty store of records.
fn answers_of(alloc: Global, calls: &mut [Call<'_>]) -> Result<Vec<Answer>, Fail> {
    let config = KeyConfig::new(alloc, &[], Zone::utc(), true)?;
    let mut records: Records = LruStore::new(alloc, NonZeroUsize::MIN)?;
    let answers = hash_keys::<Sha256, Gcc, Records, WatchedFiles<'static>, PrintTool>(
        alloc,
        calls,
        &config,
        &mut records,
    );
    drop(records);
    drop(config);
    Ok(answers?)
}

/// The digest of that of the compiler, the byte 0, `11c-O2`, the byte 255, `-arch`, the byte 255, `x86_64`, the byte 255, the digest of the
/// profile and the text.
const KEY: &str = "4c6c1692cf138268a22ce019c7c4d30f74ff330e53b4507f8e529f9b048464fe";

/// Whether the first has no profile, the second has that key by its text, and the third by the record that this one left.
fn are_told(answers: &[Answer]) -> bool {
    match answers {
        [
            Err(Fault::Read(path)),
            Ok((key, _, false)),
            Ok((same, _, true)),
        ] => {
            path.as_bytes() == b"/w/prof.txt".as_slice()
                && key.as_str() == KEY
                && same.as_str() == KEY
        }
        _ => false,
    }
}

/// Whether a missing file was looked for once, and the preprocessor ran for the second call alone.
fn were_asked(calls: &[Call<'_>]) -> bool {
    match calls {
        [first, second, third] => {
            first.files.calls == 1 && second.tool.preprocessed == 1 && third.tool.preprocessed == 0
        }
        _ => false,
    }
}

/// What these calls are answered, and what was asked for it.
fn are_answered(alloc: Global, calls: &mut [Call<'_>]) -> Result<(), Fail> {
    let answers = answers_of(alloc, calls)?;
    let are_told = are_told(answers.as_slice());
    drop(answers);
    holds(are_told && were_asked(calls), "three calls")
}

/// The answers of that compiler in that scene.
fn answers_are_told(alloc: Global, compiler: &CCompiler<Gcc>, scene: &Scene) -> Result<(), Fail> {
    let mut calls = three_calls(alloc, compiler, scene)?;
    let told = are_answered(alloc, &mut calls);
    drop(calls);
    told
}

/// The answers in that scene.
fn scene_is_answered(alloc: Global, scene: &mut Scene) -> Result<(), Fail> {
    scene.set(alloc, "/usr/bin/gcc", "/bin", "foo.o")?;
    let compiler = compiler(alloc)?;
    let told = answers_are_told(alloc, &compiler, scene);
    drop(compiler);
    told
}

#[test]
fn a_call_gives_the_key_of_the_next(rt: HostRuntime) -> Result<(), Fail> {
    let mut scene = Scene::new(rt.alloc());
    let told = scene_is_answered(rt.alloc(), &mut scene);
    drop(scene);
    told
}
