//! What a key of a C request is made of, beside what the request says itself: the files whose contents count, and the text.

ghost use Rattle.std.specs.Prelude.{◌≡◌, false, true, None, filter, map, string_bytes, IfOk, IfErr, OnOk};
ghost use Rattle.std.specs.List.{AllByRecursion};
ghost use Rattle.base_files.specs.Bytes.{ticked};
ghost use Rattle.base_files.specs.Views.{FilesFail};
ghost use Rattle.ckeys.specs.Calls.{early_fault_of, key_fault_of, needs_preprocessing, record_of};
ghost use Rattle.ckeys_records.specs.Faults.{KeyCause};
ghost use Rattle.ckeys.specs.EntryTurns.{RunsUntilKey};
ghost use Rattle.ckeys.specs.Hashers.{AreExtra, call_by};
ghost use Rattle.ckeys_records.specs.Params.{is_cached};
ghost use Rattle.ckeys_records.specs.Records.{FitsLength};
ghost use Rattle.ckeys_records.specs.Views.{ToolFails};
ghost use Rattle.ckeys_records.specs.Untouched.{Untouched};

use crate::compiler_impl::CCompilerImpl;
use crate::hasher::CCompilerHasher;
use crate::needed::extra_hashes;
use crate::place::CallPlace;
use base_files::{Files, Listed, OsBytes};
use ckeys_base::{HashState, strip_basedirs};
use ckeys_records::{Fault, Preprocessor, tell_lengths};
use std::alloc::{AllocError, Global};

/// The digests of the files whose contents count, in order, and the text without the folders that don't count.
#[derive(Drop)]
pub struct KeyContents {
    pub extra_hashes: Listed<OsBytes>,
    pub text: OsBytes,
}

/// Texts as byte strings.
fn bytes_of(alloc: Global, texts: Listed<String>) -> Result<Listed<OsBytes>, AllocError>
    ensures { IfOk result (λ bytes. bytes ≡ map string_bytes texts) }
{
    let mut bytes = Vec::with_capacity(alloc, texts.len())?;
    for text in texts.into_vec() {
        bytes.push(OsBytes::from_vec(text.into_bytes()))?;
    }
    Ok(Listed::from_vec(bytes))
}

impl<'a, I: CCompilerImpl + Drop> CCompilerHasher<'a, I> {
    /// What the key of this request is made of, in that directory, under these variables, at that moment, on these files. No store is
    /// asked, and nothing is hashed but files.
    ///
    /// Refused as `generate_hash_key` is, where no include record gives a key.
    pub fn key_contents<H: HashState, F: Files, T: Preprocessor>(
        &self,
        alloc: Global,
        place: &CallPlace,
        files: &mut F,
        tool: &mut T,
    ) -> Result<KeyContents, Fault>
        ensures extra { let call = call_by I.kind_of I.traits self.now place.now (F.tree files.old)
            in
            IfOk result (λ made. AreExtra H.digest_of call made.extra_hashes) }
        ensures text { let call = call_by I.kind_of I.traits self.now place.now (F.tree files.old)
            in
            IfOk result (λ made. made.text ≡ (record_of (T.meaning tool.old) call).text) }
        // The lengths of the variables that count fit, which the law on keys and records asks for.
        ensures fit { OnOk result (AllByRecursion FitsLength (filter is_cached place.now.env.now)) }
        ensures fine { let call = call_by I.kind_of I.traits self.now place.now (F.tree files.old)
            in
            OnOk result (key_fault_of (T.meaning tool.old) call ≡ None) }
        ensures cause { let call = call_by I.kind_of I.traits self.now place.now (F.tree files.old)
            in
            IfErr result
            (KeyCause (key_fault_of (T.meaning tool.old) call)
            (FilesFail F.Files files.old files.new)
            (ToolFails T.Preprocessor tool.old tool.new)) }
        ensures untouched { Untouched T.Preprocessor F.Files
            tool.old files.old tool.new files.new result }
        ensures idle { needs_preprocessing self.now.parsed.now.language ≡ false
            → (T.preprocessed tool.new ≡ T.preprocessed tool.old)
            × (T.failed tool.new ≡ T.failed tool.old) }
        ensures runs { needs_preprocessing self.now.parsed.now.language ≡ true
            → OnOk result (T.preprocessed tool.new ≡ ticked (T.preprocessed tool.old)) }
        // How often the preprocessor ran before a fault.
        ensures until { needs_preprocessing self.now.parsed.now.language ≡ true →
            IfErr result (RunsUntilKey (T.preprocessed tool.old) (T.preprocessed tool.new)) }
        // Where an extra file isn't there, or an input that would be read for its include record, the preprocessor isn't started.
        ensures early { let call = call_by I.kind_of I.traits self.now place.now (F.tree files.old)
            in
            (early_fault_of call ≡ None → ⊥)
            → T.preprocessed tool.new ≡ T.preprocessed tool.old }
        ensures compiles { T.compiled tool.new ≡ T.compiled tool.old }
    {
        let names = self.parsed.extra_hash_files.as_slice();
        let extra = extra_hashes::<H, F>(alloc, place.dir, names, files)?;
        // What is seen of the input for an include record is let go: it is there, or there is no key.
        let _ = self.entry_key::<H, F>(alloc, place, extra.as_slice(), files)?;
        let text = self.text(alloc, place, files, tool)?;
        let kept = strip_basedirs(alloc, text.as_bytes(), place.config.basedirs())?;
        tell_lengths(place.env);
        Ok(KeyContents {
            extra_hashes: bytes_of(alloc, extra)?,
            text: OsBytes::from_vec(kept.into_owned(alloc)?),
        })
    }
}
