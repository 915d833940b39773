//! A call in `/w`, whose request has something in each of its lists.

use base_files::{Listed, OsBytes};
use ckeys_include_records::Asker;
use cmdlines_base::{ArtifactDescriptor, ColorMode};
use cmdlines_tables::language::Language;
use cmdlines_tables::{CCompilerKind, DependencyOptions, ParsedArguments};
use std::alloc::{AllocError, Global};
use tests_kit::words;

/// What an asker borrows.
#[derive(Drop)]
pub(crate) struct Scene {
    executable: OsBytes,
    pub(crate) dir: OsBytes,
    env: Vec<(OsBytes, OsBytes)>,
    pub(crate) parsed: ParsedArguments,
}

/// The digests of two extra files.
pub(crate) fn digests(alloc: Global) -> Result<Vec<String>, AllocError> {
    let mut list = Vec::new(alloc);
    list.push(String::from_str(alloc, "e1")?)?;
    list.push(String::from_str(alloc, "e2")?)?;
    Ok(list)
}

/// These words.
pub(crate) fn listed(alloc: Global, line: &str) -> Result<Listed<OsBytes>, AllocError> {
    Ok(Listed::from_vec(words(alloc, line)?))
}

/// These bytes.
pub(crate) fn bytes(alloc: Global, text: &str) -> Result<OsBytes, AllocError> {
    OsBytes::from_slice(alloc, text.as_bytes())
}

/// The one output, named `obj`, which goes there.
fn outputs(alloc: Global, path: &str) -> Result<Listed<(OsBytes, ArtifactDescriptor)>, AllocError> {
    let path = bytes(alloc, path)?;
    let object = ArtifactDescriptor {
        path,
        optional: false,
    };
    let mut list = Listed::new(alloc);
    list.push((bytes(alloc, "obj")?, object))?;
    Ok(list)
}

/// The variables `LANG` and, of this value, `PATH`.
fn variables(alloc: Global, path: &str) -> Result<Vec<(OsBytes, OsBytes)>, AllocError> {
    let mut list = Vec::new(alloc);
    list.push((bytes(alloc, "LANG")?, bytes(alloc, "C")?))?;
    list.push((bytes(alloc, "PATH")?, bytes(alloc, path)?))?;
    Ok(list)
}

/// A request for C that has nothing in its lists.
fn request(alloc: Global) -> ParsedArguments {
    ParsedArguments {
        input: OsBytes::empty(alloc),
        double_dash_input: false,
        language: Language::C,
        outputs: Listed::new(alloc),
        preprocessor_args: Listed::new(alloc),
        dependency_args: Listed::new(alloc),
        unhashed_args: Listed::new(alloc),
        common_args: Listed::new(alloc),
        arch_args: Listed::new(alloc),
        extra_hash_files: Listed::new(alloc),
        color_mode: ColorMode::Auto,
        too_hard_for_preprocessor_cache_mode: None,
        empty_value: false,
        has_color_option: false,
        dependencies: DependencyOptions {
            asked: true,
            path: false,
            target: false,
        },
    }
}

/// Fills each list of a request for `foo.c`.
fn fill(alloc: Global, parsed: &mut ParsedArguments) -> Result<(), AllocError> {
    parsed.input = bytes(alloc, "foo.c")?;
    parsed.preprocessor_args = listed(alloc, "-DX -I inc")?;
    parsed.dependency_args = listed(alloc, "-MD")?;
    parsed.unhashed_args = listed(alloc, "-Q")?;
    parsed.common_args = listed(alloc, "-O2")?;
    parsed.arch_args = listed(alloc, "-arch x86_64")?;
    parsed.extra_hash_files = listed(alloc, "prof.txt")?;
    Ok(())
}

impl Scene {
    /// A call that says nothing.
    pub(crate) fn new(alloc: Global) -> Scene {
        Scene {
            executable: OsBytes::empty(alloc),
            dir: OsBytes::empty(alloc),
            env: Vec::new(alloc),
            parsed: request(alloc),
        }
    }

    /// Makes it a call in `/w`, of this executable with this value of `PATH`, for an object that goes there.
    pub(crate) fn set(
        &mut self,
        alloc: Global,
        executable: &str,
        path: &str,
        object: &str,
    ) -> Result<(), AllocError> {
        self.executable = bytes(alloc, executable)?;
        self.dir = bytes(alloc, "/w")?;
        self.env = variables(alloc, path)?;
        self.parsed.outputs = outputs(alloc, object)?;
        fill(alloc, &mut self.parsed)
    }

    /// Asks for C++, by an input after `--`.
    pub(crate) fn ask_for_cxx(&mut self) {
        self.parsed.language = Language::Cxx;
        self.parsed.double_dash_input = true;
    }

    /// Gcc of a version and with no digest of an assembler, as who asks.
    pub(crate) fn gcc(&self) -> Asker<'_> {
        Asker {
            kind: CCompilerKind::Gcc,
            executable: &self.executable,
            plusplus: false,
            version: Some("13.2"),
            compiler_digest: "c0ffee",
            assembler_digest: None,
            dir: &self.dir,
            env: self.env.as_slice(),
            parsed: &self.parsed,
        }
    }

    /// Clang by its name for C++, of no version, with the digest of an assembler.
    pub(crate) fn clang(&self) -> Asker<'_> {
        Asker {
            kind: CCompilerKind::Clang,
            plusplus: true,
            version: None,
            assembler_digest: Some("a55e"),
            ..self.gcc()
        }
    }
}
