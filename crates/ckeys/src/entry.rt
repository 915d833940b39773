//! The entry key of a call, and what is recorded of its text.

ghost use Rattle.std.specs.Prelude.{◌≡◌, ◌∷◌, [], Some, None, IfOk, IfErr, IfSome, OnOk, map, string_bytes};
ghost use Rattle.base_files.specs.Path.{join};
ghost use Rattle.base_files.specs.Tree.{Tree, contents_at};
ghost use Rattle.base_files.specs.Views.{FilesFail};
ghost use Rattle.ckeys_include_records.specs.Identity.{identity_of};
ghost use Rattle.ckeys_include_records.specs.Surroundings as surroundings;
ghost use Rattle.ckeys.specs.Calls.{asks_records, missing_input};
ghost use Rattle.ckeys_records.specs.Faults.{FileCause, first_missing};
ghost use Rattle.ckeys_records.specs.Untouched.{FilesUntouched};
ghost use Rattle.ckeys.specs.Entries.{IsFramed, entry_key_of, identity_by};
ghost use Rattle.ckeys.specs.Hashers.{AreExtra, call_by, looked_at};
ghost use Rattle.ckeys.specs.Surroundings.{recorded_of};

use crate::compiler_impl::CCompilerImpl;
use crate::hasher::{CCompilerHasher, needs_c_preprocessing};
use crate::place::CallPlace;
use base_files::{FileFail, Files, Listed, OsBytes, join};
use ckeys_base::HashState;
use ckeys_include_records::entry_key::{EntryKey, entry_key};
use ckeys_include_records::{Asker, IncludeEntry, SeenInput, includes_of, second_at};
use ckeys_marker_walk::Walk;
use ckeys_marker_walk::walk::walk;
use ckeys_records::Fault;
use std::alloc::Global;

/// An input: what it holds, and the second in which it was last changed.
#[derive(Drop)]
struct Input {
    contents: OsBytes,
    second: i64,
}

impl Input {
    /// The input of a call on that day.
    fn seen(&self, day: Option<i64>) -> SeenInput
        ensures contents { result.contents.now ≡ self.now.contents }
        ensures day { result.day ≡ day }
        ensures second { result.second ≡ self.now.second }
    {
        SeenInput {
            contents: self.contents.as_bytes(),
            day,
            second: self.second,
        }
    }
}

/// The input of a request, which is read from that directory.
fn input_of<F: Files>(
    alloc: Global,
    dir: &OsBytes,
    name: &OsBytes,
    files: &mut F,
) -> Result<Input, Fault>
    ensures contents { IfOk result (λ input.
        contents_at (F.tree files.old) (join dir.now name.now) ≡ Some input.contents) }
    ensures second { IfOk result (λ input.
        input.second ≡ surroundings.second_at (F.tree files.old) (join dir.now name.now)) }
    ensures cause { let missing = first_missing (F.tree files.old) (join dir.now name.now ∷ []) in
        IfErr result (FileCause missing (FilesFail F.Files files.old files.new)) }
    ensures untouched { FilesUntouched F.Files files.old files.new result }
{
    let path = join(alloc, dir.as_bytes(), name.as_bytes())?;
    let contents = match files.read(alloc, &path) {
        Ok(Some(contents)) => contents,
        Ok(None) | Err(FileFail::Device) => return Err(Fault::Read(path)),
        Err(FileFail::Memory) => return Err(Fault::Memory),
    };
    let second = second_at(alloc, path, files)?;
    Ok(Input { contents, second })
}

impl<'a, I: CCompilerImpl + Drop> CCompilerHasher<'a, I> {
    /// Who asks.
    #[tactic(auto, unfolding(crate::specs::Entries::identity_by))]
    fn asker<'b>(&'b self, place: &CallPlace<'b>) -> Asker<'b>
        ensures { (files : Tree) →
            identity_of result ≡ identity_by (call_by I.kind_of I.traits self.now place.now files) }
    {
        Asker {
            kind: self.compiler.kind(),
            executable: self.executable,
            plusplus: self.compiler.plusplus(),
            version: self.compiler.version(),
            compiler_digest: self.executable_digest,
            assembler_digest: self.compiler.assembler_digest(),
            dir: place.dir,
            env: place.env,
            parsed: self.parsed,
        }
    }

    /// Whether include records are asked for: they are kept, the language is preprocessed, and no option prevents it.
    fn asks_records(&self, place: &CallPlace) -> bool
        ensures { (files : Tree) →
            result ≡ asks_records (call_by I.kind_of I.traits self.now place.now files) }
    {
        place.config.direct()
            && needs_c_preprocessing(self.parsed.language)
            && self.parsed.too_hard_for_preprocessor_cache_mode.is_none()
    }

    /// The entry key of this request with these digests of extra files, if it has one.
    ///
    /// `Read` names the input where that isn't there or an I/O error occurred on it.
    pub(crate) fn entry_key<H: HashState, F: Files>(
        &self,
        alloc: Global,
        place: &CallPlace,
        extra: &[String],
        files: &mut F,
    ) -> Result<Option<EntryKey>, Fault>
        requires extra { let call = call_by I.kind_of I.traits self.now place.now (F.tree files.now)
            in
            AreExtra H.digest_of call (map string_bytes extra.now) }
        ensures key { let call = call_by I.kind_of I.traits self.now place.now (F.tree files.old) in
            IfOk result (λ key. key ≡ entry_key_of H.digest_of call) }
        ensures framed { let call = call_by I.kind_of I.traits self.now place.now (F.tree files.old)
            in
            IfOk result (λ key. IfSome key (λ _. IsFramed H.digest_of call)) }
        ensures there { let call = call_by I.kind_of I.traits self.now place.now (F.tree files.old)
            in
            OnOk result (missing_input call ≡ None) }
        ensures cause { let call = call_by I.kind_of I.traits self.now place.now (F.tree files.old)
            in
            let fails_on = FilesFail F.Files files.old files.new in
            IfErr result (FileCause (missing_input call) fails_on) }
        ensures untouched { FilesUntouched F.Files files.old files.new result }
    {
        if !self.asks_records(place) {
            return Ok(None);
        }
        let input = input_of(alloc, place.dir, &self.parsed.input, files)?;
        let seen = input.seen(place.day());
        Ok(entry_key::<H>(alloc, &self.asker(place), extra, &seen)?)
    }
}

/// What is recorded of a text: the files that it names, as they are, where the walk accepts it and each day exists.
pub(crate) fn includes_for<H: HashState, F: Files>(
    alloc: Global,
    text: &OsBytes,
    input: &OsBytes,
    place: &CallPlace,
    files: &mut F,
) -> Result<Option<Listed<IncludeEntry>>, Fault>
    ensures includes { let at = looked_at place.now (F.tree files.old) in
        let path = join place.now.dir.now input.now in
        IfOk result (λ includes. includes ≡ recorded_of at H.digest_of path text.now) }
    ensures cause { let fails_on = FilesFail F.Files files.old files.new in
        IfErr result (FileCause None fails_on) }
    ensures untouched { FilesUntouched F.Files files.old files.new result }
{
    let dir = place.dir;
    match walk(
        alloc,
        text.as_bytes(),
        input.as_bytes(),
        dir.as_bytes(),
        files,
    )? {
        Walk::Refused => Ok(None),
        Walk::Names(names) => {
            let zone = place.config.zone();
            let names = names.as_slice();
            Ok(includes_of::<H, F>(alloc, dir, place.moment, zone, names, files)?)
        }
    }
}
