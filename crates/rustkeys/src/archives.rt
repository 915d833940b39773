//! The digests of static libraries, as the tool hands them in.

ghost use Rattle.std.specs.Prelude.{◌≡◌, true, [], ◌∷◌, None, map, IfOk, IfErr, OnOk};
ghost use Rattle.std.specs.List.{AllByRecursion, list_all};
ghost use Rattle.ckeys_records.specs.Faults.{KeyCause};
ghost use Rattle.ckeys_records.specs.Causes.{no_file};
ghost use Rattle.ckeys_records.specs.Meaning.{AtMostOnce, Scene};
ghost use Rattle.base_files.specs.Bytes.{ticked};
ghost use Rattle.ckeys_records.specs.Views.{ToolFails};
ghost use Rattle.ckeys_records.specs.Untouched.{Untouched};
ghost use Rattle.rustc_parts.specs.Formed.{IsDigest, digest_digits, is_digest, is_digit};
ghost use Rattle.rustkeys.specs.Calls.{digest_fault_of};
ghost use Rattle.rustkeys.specs.Questions.{digest_at, digested};
ghost use Rattle.rustkeys.specs.Runs.{AtMostFor, ticked_for};

use base_files::{Files, Listed, OsBytes};
use ckeys_records::{Fault, RustcAnswers, Step, ToolFail};
use std::alloc::Global;

/// Whether a byte is a digit of a digest.
fn is_digit(byte: u8) -> bool
    ensures { result ≡ is_digit byte }
{
    (b'0' <= byte && byte <= b'9') || (b'a' <= byte && byte <= b'f')
}

/// Whether all bytes are such digits.
fn are_digits(text: &[u8]) -> bool
    ensures { result ≡ list_all is_digit text.now }
{
    text.iter().all(|byte| is_digit(*byte))
}

/// Whether a text is a digest: 64 lowercase hexadecimal digits.
fn is_digest(text: &[u8]) -> bool
    ensures { result ≡ is_digest digest_digits text.now }
{
    text.len() == 64 && are_digits(text)
}

/// The digest of a static library.
fn archive_digest<F: Files, A: RustcAnswers>(
    alloc: Global,
    path: &OsBytes,
    files: &mut F,
    answers: &mut A,
) -> Result<OsBytes, Fault>
    ensures digest { (scene : Scene) → scene.files ≡ F.tree files.old
        → IfOk result (λ digest. digest ≡ digest_at (A.meaning answers.old) scene path.now) }
    ensures formed { IfOk result (λ digest. is_digest digest_digits digest ≡ true) }
    ensures cause { (scene : Scene) → scene.files ≡ F.tree files.old
        → let archives = digested (A.meaning answers.old) scene (path.now ∷ []) in
        IfErr result (KeyCause (digest_fault_of archives) no_file
        (ToolFails A.Preprocessor answers.old answers.new)) }
    ensures untouched { Untouched A.Preprocessor F.Files
        answers.old files.old answers.new files.new result }
    ensures runs { A.preprocessed answers.new ≡ A.preprocessed answers.old }
    ensures asked { OnOk result (A.archived answers.new ≡ ticked (A.archived answers.old)) }
    ensures once { AtMostOnce (A.archived answers.old) (A.archived answers.new) }
    ensures compiles { A.compiled answers.new ≡ A.compiled answers.old }
{
    // The copy is made first, so that out of memory isn't reported as a digest that isn't one.
    let path = path.clone()?;
    match answers.archive_digest(alloc, &path, files) {
        Ok(digest) if is_digest(digest.as_bytes()) => Ok(digest),
        Ok(_) => Err(Fault::BadDigest(path)),
        Err(ToolFail::Memory) => Err(Fault::Memory),
        Err(ToolFail::Device) => Err(Fault::Tool(Step::ArchiveDigest)),
    }
}

/// The digests of static libraries, in order.
pub(crate) fn archive_digests<F: Files, A: RustcAnswers>(
    alloc: Global,
    paths: &[OsBytes],
    files: &mut F,
    answers: &mut A,
) -> Result<Listed<OsBytes>, Fault>
    ensures digests { (scene : Scene) → scene.files ≡ F.tree files.old
        → let archives = digested (A.meaning answers.old) scene paths.now in
        IfOk result (λ digests. digests ≡ map (λ archive. archive.1) archives) }
    ensures formed { IfOk result (λ digests. AllByRecursion (IsDigest digest_digits) digests) }
    ensures fine { (scene : Scene) → scene.files ≡ F.tree files.old
        → let archives = digested (A.meaning answers.old) scene paths.now in
        OnOk result (digest_fault_of archives ≡ None) }
    ensures cause { (scene : Scene) → scene.files ≡ F.tree files.old
        → let archives = digested (A.meaning answers.old) scene paths.now in
        IfErr result (KeyCause (digest_fault_of archives) no_file
        (ToolFails A.Preprocessor answers.old answers.new)) }
    ensures untouched { Untouched A.Preprocessor F.Files
        answers.old files.old answers.new files.new result }
    ensures runs { A.preprocessed answers.new ≡ A.preprocessed answers.old }
    ensures asked { OnOk result
        (A.archived answers.new ≡ ticked_for paths.now (A.archived answers.old)) }
    ensures once { AtMostFor paths.now (A.archived answers.old) (A.archived answers.new) }
    ensures compiles { A.compiled answers.new ≡ A.compiled answers.old }
{
    let mut digests = Listed::new(alloc);
    let mut rest = paths;
    while let Some((path, others)) = rest.split_first() {
        digests.push(archive_digest(alloc, path, files, answers)?)?;
        rest = others;
    }
    Ok(digests)
}
