//! What the words of rustc's options say.

ghost use Rattle.std.specs.Prelude.{◌≡◌, [], IfOk};
ghost use Rattle.cmdlines_base.specs.Texts.{PathText};
ghost use Rattle.rustc_options.specs.Splitting.{with_equals};
ghost use Rattle.rustc_options.specs.Data.{is_rlib, is_staticlib, crate_types_of, crate_type_names, names_json};

use crate::sets::{between_commas, in_order, joined_by_commas};
use crate::splitting::{maybe_with_equals, split_at_equals, with_equals};
use base_files::{Listed, OsBytes, extension};
use cmdlines_base::{
    ArgParseError, ArgParseResult, ArgToStringResult, FromArg, IntoArg, path_to_string,
    word_to_string,
};
use std::alloc::{AllocError, Global};

/// What to make of a crate: `--crate-type`.
#[derive(Clone, Debug, Drop, PartialEq, Eq)]
pub struct ArgCrateTypes {
    /// `rlib`, or `lib`, which is the same.
    pub rlib: bool,
    pub staticlib: bool,
    /// All others, each once, in the order of their bytes.
    pub others: Listed<OsBytes>,
}

/// A library to link: `-l KIND=NAME`. Without a kind it is a `dylib`.
#[derive(Clone, Debug, Drop, PartialEq, Eq)]
pub struct ArgLinkLibrary {
    pub kind: OsBytes,
    pub name: OsBytes,
}

/// A folder of libraries: `-L KIND=PATH`. Without a kind it holds `all`.
#[derive(Clone, Debug, Drop, PartialEq, Eq)]
pub struct ArgLinkPath {
    pub kind: OsBytes,
    pub path: OsBytes,
}

/// An option with a value or none: `OPT=VALUE`.
#[derive(Clone, Debug, Drop, PartialEq, Eq)]
pub struct ArgOption {
    pub opt: OsBytes,
    pub value: Option<OsBytes>,
}

/// An option of code generation: `-C`.
pub type ArgCodegen = ArgOption;

/// An option that only some releases of rustc have: `-Z`.
pub type ArgUnstable = ArgOption;

/// Where a crate lies that the source names: `--extern NAME=PATH`.
#[derive(Clone, Debug, Drop, PartialEq, Eq)]
pub struct ArgExtern {
    pub name: OsBytes,
    pub path: OsBytes,
}

/// What to compile for: `--target`.
#[derive(Clone, Debug, Drop, PartialEq, Eq)]
pub enum ArgTarget {
    /// A target that rustc knows.
    Name(OsBytes),
    /// A file that describes a target.
    Path(OsBytes),
    /// Either: a file of that name, with `.json` appended, is there.
    Unsure(OsBytes),
}

/// Whether a crate type is `lib` or `rlib`, which are the same.
fn is_rlib(name: &[u8]) -> bool
    ensures { result ≡ is_rlib name.now }
{
    name == b"lib".as_slice() || name == b"rlib".as_slice()
}

fn is_staticlib(name: &[u8]) -> bool
    ensures { result ≡ is_staticlib name.now }
{
    name == b"staticlib".as_slice()
}

/// The crate types in a word.
fn crate_types_of(alloc: Global, word: &[u8]) -> Result<ArgCrateTypes, AllocError>
    ensures { IfOk result (λ types. types ≡ crate_types_of word.now) }
{
    let names = between_commas(alloc, word)?;
    let mut rlib = false;
    let mut staticlib = false;
    let mut others = Vec::new(alloc);
    for name in names.into_vec() {
        if is_rlib(name.as_bytes()) {
            rlib = true;
        } else if is_staticlib(name.as_bytes()) {
            staticlib = true;
        } else {
            others.push(name)?;
        }
    }
    Ok(ArgCrateTypes {
        rlib,
        staticlib,
        others: in_order(alloc, Listed::from_vec(others))?,
    })
}

/// The names of all crate types.
fn crate_type_names(alloc: Global, types: &ArgCrateTypes) -> Result<Listed<OsBytes>, AllocError>
    ensures { IfOk result (λ names. names ≡ crate_type_names types.now) }
{
    let mut names = Vec::new(alloc);
    for name in types.others.as_slice() {
        names.push(name.clone()?)?;
    }
    if types.rlib {
        names.push(OsBytes::from_slice(alloc, b"rlib")?)?;
    }
    if types.staticlib {
        names.push(OsBytes::from_slice(alloc, b"staticlib")?)?;
    }
    Ok(Listed::from_vec(names))
}

impl FromArg for ArgCrateTypes {
    ghost use Rattle.std.specs.Prelude.{◌≡◌, None};
    ghost use Rattle.rustc_options.specs.Data.{crate_types_of};

    ghost reads = { λ arg value. value ≡ crate_types_of arg };

    ghost refusal = { λ _. None };

    fn process(arg: OsBytes) -> ArgParseResult<ArgCrateTypes> {
        let word = arg.into_vec();
        Ok(crate_types_of(*word.allocator(), word.as_slice())?)
    }
}

/// Crate types are printed in the order of their bytes.
impl IntoArg for ArgCrateTypes {
    ghost use Rattle.std.specs.Prelude.{None};
    ghost use Rattle.rustc_options.specs.Data.{crate_types_word};

    ghost word = { crate_types_word };

    ghost path = { λ _. None };

    fn into_arg_os_string(&self, alloc: Global) -> Result<OsBytes, AllocError> {
        let names = in_order(alloc, crate_type_names(alloc, self)?)?;
        joined_by_commas(alloc, names.as_slice())
    }

    fn into_arg_string<F: FnMut(&[u8]) -> Option<String>>(
        &self,
        alloc: Global,
        _path_transformer: &mut F,
    ) -> ArgToStringResult {
        let types = self.into_arg_os_string(alloc)?;
        word_to_string(alloc, types.as_bytes())
    }
}

impl FromArg for ArgLinkLibrary {
    ghost use Rattle.std.specs.Prelude.{◌≡◌, None};
    ghost use Rattle.rustc_options.specs.Data.{link_library_of};

    ghost reads = { λ arg value. value ≡ link_library_of arg };

    ghost refusal = { λ _. None };

    fn process(arg: OsBytes) -> ArgParseResult<ArgLinkLibrary> {
        match split_at_equals(arg)? {
            (kind, Some(name)) => Ok(ArgLinkLibrary { kind, name }),
            (name, None) => {
                let name = name.into_vec();
                let kind = OsBytes::from_slice(*name.allocator(), b"dylib")?;
                let name = OsBytes::from_vec(name);
                Ok(ArgLinkLibrary { kind, name })
            }
        }
    }
}

impl IntoArg for ArgLinkLibrary {
    ghost use Rattle.std.specs.Prelude.{None};
    ghost use Rattle.rustc_options.specs.Data.{link_library_word};

    ghost word = { link_library_word };

    ghost path = { λ _. None };

    fn into_arg_os_string(&self, alloc: Global) -> Result<OsBytes, AllocError> {
        with_equals(alloc, self.kind.as_bytes(), self.name.as_bytes())
    }

    fn into_arg_string<F: FnMut(&[u8]) -> Option<String>>(
        &self,
        alloc: Global,
        _path_transformer: &mut F,
    ) -> ArgToStringResult {
        let library = self.into_arg_os_string(alloc)?;
        word_to_string(alloc, library.as_bytes())
    }
}

/// A path after a name and a `=`, as text.
fn after_equals_to_string<F: FnMut(&[u8]) -> Option<String>>(
    alloc: Global,
    name: &OsBytes,
    path: &OsBytes,
    path_transformer: &mut F,
) -> ArgToStringResult
    requires { F.IsAlwaysCallable path_transformer.old }
    ensures text { PathText F.FnMut (with_equals name.now []) path.now path_transformer.old result
        path_transformer.new }
    ensures callable { F.IsAlwaysCallable path_transformer.new }
{
    let front = with_equals(alloc, name.as_bytes(), &[])?;
    path_to_string(alloc, front.as_bytes(), path.as_bytes(), path_transformer)
}

impl FromArg for ArgLinkPath {
    ghost use Rattle.std.specs.Prelude.{◌≡◌, None};
    ghost use Rattle.rustc_options.specs.Data.{link_path_of};

    ghost reads = { λ arg value. value ≡ link_path_of arg };

    ghost refusal = { λ _. None };

    fn process(arg: OsBytes) -> ArgParseResult<ArgLinkPath> {
        match split_at_equals(arg)? {
            (kind, Some(path)) => Ok(ArgLinkPath { kind, path }),
            (path, None) => {
                let path = path.into_vec();
                let kind = OsBytes::from_slice(*path.allocator(), b"all")?;
                let path = OsBytes::from_vec(path);
                Ok(ArgLinkPath { kind, path })
            }
        }
    }
}

impl IntoArg for ArgLinkPath {
    ghost use Rattle.rustc_options.specs.Data.{link_path_word, link_path_in};

    ghost word = { link_path_word };

    ghost path = { link_path_in };

    fn into_arg_os_string(&self, alloc: Global) -> Result<OsBytes, AllocError> {
        with_equals(alloc, self.kind.as_bytes(), self.path.as_bytes())
    }

    fn into_arg_string<F: FnMut(&[u8]) -> Option<String>>(
        &self,
        alloc: Global,
        path_transformer: &mut F,
    ) -> ArgToStringResult {
        after_equals_to_string(alloc, &self.kind, &self.path, path_transformer)
    }
}

impl FromArg for ArgOption {
    ghost use Rattle.std.specs.Prelude.{◌≡◌, None};
    ghost use Rattle.rustc_options.specs.Data.{option_of};

    ghost reads = { λ arg value. value ≡ option_of arg };

    ghost refusal = { λ _. None };

    fn process(arg: OsBytes) -> ArgParseResult<ArgOption> {
        let (opt, value) = split_at_equals(arg)?;
        Ok(ArgOption { opt, value })
    }
}

impl IntoArg for ArgOption {
    ghost use Rattle.std.specs.Prelude.{None};
    ghost use Rattle.rustc_options.specs.Data.{option_word};

    ghost word = { option_word };

    ghost path = { λ _. None };

    fn into_arg_os_string(&self, alloc: Global) -> Result<OsBytes, AllocError> {
        maybe_with_equals(alloc, self.opt.as_bytes(), &self.value)
    }

    fn into_arg_string<F: FnMut(&[u8]) -> Option<String>>(
        &self,
        alloc: Global,
        _path_transformer: &mut F,
    ) -> ArgToStringResult {
        let option = self.into_arg_os_string(alloc)?;
        word_to_string(alloc, option.as_bytes())
    }
}

/// A word without `=` is refused.
impl FromArg for ArgExtern {
    ghost use Rattle.std.specs.Prelude.{◌≡◌};
    ghost use Rattle.rustc_options.specs.Data.{extern_of, without_path};
    ghost use Rattle.rustc_options.specs.Splitting.{after_equals};

    ghost reads = { λ arg value. value ≡ extern_of arg };

    ghost refusal = { λ arg. without_path (after_equals arg) };

    fn process(arg: OsBytes) -> ArgParseResult<ArgExtern> {
        match split_at_equals(arg)? {
            (name, Some(path)) => Ok(ArgExtern { name, path }),
            (_, None) => Err(ArgParseError::Other("an extern has no path")),
        }
    }
}

impl IntoArg for ArgExtern {
    ghost use Rattle.rustc_options.specs.Data.{extern_word, extern_path_in};

    ghost word = { extern_word };

    ghost path = { extern_path_in };

    fn into_arg_os_string(&self, alloc: Global) -> Result<OsBytes, AllocError> {
        with_equals(alloc, self.name.as_bytes(), self.path.as_bytes())
    }

    fn into_arg_string<F: FnMut(&[u8]) -> Option<String>>(
        &self,
        alloc: Global,
        path_transformer: &mut F,
    ) -> ArgToStringResult {
        after_equals_to_string(alloc, &self.name, &self.path, path_transformer)
    }
}

/// Whether the word is a path with the extension `json`.
fn names_json(word: &[u8]) -> bool
    ensures { result ≡ names_json word.now }
{
    match extension(word) {
        Some(ending) => ending == b"json".as_slice(),
        None => false,
    }
}

/// A word with the extension `json` is a path.
impl FromArg for ArgTarget {
    ghost use Rattle.std.specs.Prelude.{◌≡◌, None};
    ghost use Rattle.rustc_options.specs.Data.{target_of};

    ghost reads = { λ arg value. value ≡ target_of arg };

    ghost refusal = { λ _. None };

    fn process(arg: OsBytes) -> ArgParseResult<ArgTarget> {
        if names_json(arg.as_bytes()) {
            Ok(ArgTarget::Path(arg))
        } else {
            Ok(ArgTarget::Name(arg))
        }
    }
}

impl IntoArg for ArgTarget {
    ghost use Rattle.rustc_options.specs.Data.{target_word, target_path_in};

    ghost word = { target_word };

    ghost path = { target_path_in };

    fn into_arg_os_string(&self, _alloc: Global) -> Result<OsBytes, AllocError> {
        match self {
            ArgTarget::Name(word) | ArgTarget::Path(word) | ArgTarget::Unsure(word) => word.clone(),
        }
    }

    fn into_arg_string<F: FnMut(&[u8]) -> Option<String>>(
        &self,
        alloc: Global,
        path_transformer: &mut F,
    ) -> ArgToStringResult {
        match self {
            ArgTarget::Path(path) => path_to_string(alloc, &[], path.as_bytes(), path_transformer),
            ArgTarget::Name(word) | ArgTarget::Unsure(word) => {
                word_to_string(alloc, word.as_bytes())
            }
        }
    }
}
