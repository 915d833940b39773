//! What the arguments of a request say, noted one after another.

ghost use Rattle.std.specs.Prelude.{◌≡◌, ◌∷◌, [], OnOk, Some};
ghost use Rattle.std.specs.Option.{option_copied};
ghost use Rattle.base_files.specs.Bytes.{Bytes};
ghost use Rattle.rustc_options.specs.declared.data.ArgData.TheVariants.{CodeGen, LinkLibrary, LinkPath, Unstable};
ghost use Rattle.rustkeys_base.specs.Facts.{no_facts, facts_with};
ghost use Rattle.rustkeys_base.specs.Saying.{token_in, says, is_on, holds_crates, holds_libraries};

use base_files::{Listed, OsBytes};
use cmdlines_base::Argument;
use rustc_options::{ArgData, ArgLinkLibrary, ArgLinkPath, ArgOption, ArgTarget};
use std::alloc::{AllocError, Global};

/// What the arguments say.
#[derive(Drop)]
pub struct Facts {
    /// The first input.
    pub input: Option<OsBytes>,
    pub output_dir: Option<OsBytes>,
    /// What the first word on outputs says.
    pub emit: Option<OsBytes>,
    pub crate_name: Option<OsBytes>,
    pub color: Option<OsBytes>,
    pub extra_filename: Option<OsBytes>,
    pub profile_use: Option<OsBytes>,
    pub target_json: Option<OsBytes>,
    pub has_json: bool,
    pub rlib: bool,
    pub staticlib: bool,
    pub asks_gcno: bool,
    pub externs: Listed<OsBytes>,
    pub crate_paths: Listed<OsBytes>,
    pub static_paths: Listed<OsBytes>,
    pub static_libraries: Listed<OsBytes>,
}

/// Whether an option of that value is on.
fn is_on(value: Option<&OsBytes>) -> bool
    ensures { result ≡ is_on (option_copied value.entry) }
{
    match value {
        None => true,
        Some(word) => {
            let word = word.as_bytes();
            word == b"y".as_slice() || word == b"yes".as_slice() || word == b"on".as_slice()
        }
    }
}

/// Whether folders of that kind hold crates.
fn holds_crates(kind: &[u8]) -> bool
    ensures { result ≡ holds_crates kind.now }
{
    kind == b"crate".as_slice() || kind == b"dependency".as_slice() || kind == b"all".as_slice()
}

/// Whether folders of that kind hold static libraries.
fn holds_libraries(kind: &[u8]) -> bool
    ensures { result ≡ holds_libraries kind.now }
{
    kind == b"native".as_slice() || kind == b"all".as_slice()
}

/// Puts a word in a place, in the stead of what was there.
fn put(place: &mut Option<OsBytes>, word: &OsBytes) -> Result<(), AllocError>
    ensures { OnOk result (place.new ≡ Some word.now) }
{
    *place = Some(word.clone()?);
    Ok(())
}

impl Facts {
    pub(crate) fn new(alloc: Global) -> Facts
        ensures { result ≡ no_facts }
    {
        Facts {
            input: None,
            output_dir: None,
            emit: None,
            crate_name: None,
            color: None,
            extra_filename: None,
            profile_use: None,
            target_json: None,
            has_json: false,
            rlib: false,
            staticlib: false,
            asks_gcno: false,
            externs: Listed::new(alloc),
            crate_paths: Listed::new(alloc),
            static_paths: Listed::new(alloc),
            static_libraries: Listed::new(alloc),
        }
    }

    /// Notes what an argument says.
    pub(crate) fn note(&mut self, argument: &Argument<ArgData>) -> Result<(), AllocError>
        ensures { OnOk result (self.new ≡ facts_with self.old (token_in argument.now ∷ [])) }
    {
        match argument {
            Argument::Raw(word) => {
                if self.input.is_none() {
                    put(&mut self.input, word)?;
                }
                Ok(())
            }
            Argument::UnknownFlag(_) => Ok(()),
            Argument::Flag(_, data) | Argument::WithValue(_, data, _) => self.note_data(data),
        }
    }

    /// Notes what an option says.
    fn note_data(&mut self, value: &ArgData) -> Result<(), AllocError>
        ensures { OnOk result
            ((flag : Bytes) → self.new ≡ facts_with self.old (says flag value.now ∷ [])) }
    {
        match value {
            ArgData::Emit(kinds) => {
                if self.emit.is_none() {
                    put(&mut self.emit, kinds)?;
                }
            }
            ArgData::Color(mode) => put(&mut self.color, mode)?,
            ArgData::CrateName(name) => put(&mut self.crate_name, name)?,
            ArgData::OutDir(path) => put(&mut self.output_dir, path)?,
            ArgData::Target(ArgTarget::Path(path)) => put(&mut self.target_json, path)?,
            ArgData::Json(_) => self.has_json = true,
            ArgData::CrateType(types) => {
                self.rlib = self.rlib || types.rlib;
                self.staticlib = self.staticlib || types.staticlib;
            }
            ArgData::Extern(named) => self.externs.push(named.path.clone()?)?,
            ArgData::LinkLibrary(library) => self.note_library(library)?,
            ArgData::LinkPath(folder) => self.note_folder(folder)?,
            ArgData::CodeGen(option) => self.note_codegen(option)?,
            ArgData::Unstable(option) => self.note_unstable(option),
            _ => {}
        }
        Ok(())
    }

    /// Notes the name of a static library.
    fn note_library(&mut self, library: &ArgLinkLibrary) -> Result<(), AllocError>
        ensures { OnOk result
            ((flag : Bytes)
            → self.new ≡ facts_with self.old (says flag (LinkLibrary library.now) ∷ [])) }
    {
        if library.kind.as_bytes() == b"static".as_slice() {
            self.static_libraries.push(library.name.clone()?)?;
        }
        Ok(())
    }

    /// Notes a folder of crates, of static libraries, or of both.
    fn note_folder(&mut self, folder: &ArgLinkPath) -> Result<(), AllocError>
        ensures { OnOk result
            ((flag : Bytes) → self.new ≡ facts_with self.old (says flag (LinkPath folder.now) ∷ [])) }
    {
        let kind = folder.kind.as_bytes();
        if holds_crates(kind) {
            self.crate_paths.push(folder.path.clone()?)?;
        }
        if holds_libraries(kind) {
            self.static_paths.push(folder.path.clone()?)?;
        }
        Ok(())
    }

    /// Notes an option of code generation.
    fn note_codegen(&mut self, option: &ArgOption) -> Result<(), AllocError>
        ensures { OnOk result
            ((flag : Bytes) → self.new ≡ facts_with self.old (says flag (CodeGen option.now) ∷ [])) }
    {
        let name = option.opt.as_bytes();
        if let Some(value) = &option.value {
            if name == b"extra-filename".as_slice() {
                put(&mut self.extra_filename, value)?;
            } else if name == b"profile-use".as_slice() {
                put(&mut self.profile_use, value)?;
            }
        }
        Ok(())
    }

    /// Notes an option that only some releases of rustc have.
    fn note_unstable(&mut self, option: &ArgOption)
        ensures { (flag : Bytes)
            → self.new ≡ facts_with self.old (says flag (Unstable option.now) ∷ []) }
    {
        if option.opt.as_bytes() == b"profile".as_slice() && is_on(option.value.as_ref()) {
            self.asks_gcno = true;
        }
    }
}
