//! The end of a call: what was made is kept, and what was kept is given, each with what was printed beside it.

ghost use Rattle.std.specs.Prelude.{◌≡◌};

use crate::deciding::{AskedCall, End, What};
use base_blake2::Blake2b256;
use base_files::{Listed, OsBytes};
use cache_c_known::{Given, Known, Watched, keep, note_hint, renew};
use cache_dir::{Kind, make_room};
use cache_host::{CommandLine, Host, HostError, into_text};
use cache_remote_storage::{Shared, share};
use cache_source_files::{
    Audit, OldFile, lock_paths, print_again, write_dependencies, write_outputs, write_side_files,
};
use cache_statistics::CallFacts;
use ckeys_include_records::PreprocessorCacheEntry;
use ckeys_include_records::entry_key::EntryKey;
use cmdlines_tables::CCompilerKind;
use std::alloc::Global;
use std::fs::File;
use std::io::Read;
use std::rt::Files;
use wrap_base::store_key::StoreKey;
use wrap_base::{How, Output};
use wrap_replay::SessionAnswer;

/// The paths of outputs.
pub(crate) fn paths_of(alloc: Global, outputs: &[Output]) -> Result<Listed<OsBytes>, HostError> {
    let mut paths = Listed::new(alloc);
    for output in outputs {
        paths.push(output.path.clone()?)?;
    }
    Ok(paths)
}

/// What a log says of outputs, and of the time of a compile.
fn facts_of(outputs: &[Output], known: &Known) -> CallFacts {
    let mut bytes = 0u64;
    for output in outputs {
        bytes = bytes.saturating_add(output.contents.as_bytes().len() as u64);
    }
    CallFacts {
        why: None,
        bytes,
        compile_time: known.compile_time(),
    }
}

/// Puts kept outputs and the files beside them where the request wants them, and has printed again what was printed beside them. A hit is given
/// without locks where none can be had.
fn give<R: Files<File = File> + AllocGlobal>(
    rt: &R,
    line: &CommandLine,
    given: &Given<'_>,
    known: &Known,
) -> Result<(), HostError> {
    let Some(messages) = given.messages else {
        return Err(HostError::Unreadable);
    };
    let paths = known.with_side_paths(&paths_of(rt.alloc(), given.outputs)?)?;
    let dependency_file = known.dependency_file();
    let locks = lock_paths(rt, line, paths.as_slice(), dependency_file);
    write_dependencies(rt, dependency_file, messages)?;
    if let Some(side_files) = known.side_files() {
        write_side_files(rt, known.kind, side_files, messages)?;
    }
    let old = match known.kind {
        CCompilerKind::Gcc => OldFile::IsKeptWhereEmpty,
        _ => OldFile::IsReplaced,
    };
    write_outputs(rt, given.outputs, old)?;
    drop(locks);
    print_again(rt, line, messages)
}

/// Keeps the manifest that was put with what to watch of the text, where that is known, or notes that the one of that name was used, with what
/// is new of its headers. False where none was kept.
fn finish_manifest<R: Files + AllocGlobal>(
    rt: &R,
    line: &CommandLine,
    newest: Option<&(EntryKey, PreprocessorCacheEntry)>,
    key: &StoreKey,
    watched: Option<Watched<'_>>,
    known: &Known,
) -> Result<bool, HostError> {
    match (newest, watched) {
        (None, _) => {
            if known.keep_noted(rt, line)? {
                return Ok(true);
            }
            let name = known.name_to_note();
            line.folder.renew(rt, Kind::Manifests, name, line.moment)?;
            Ok(false)
        }
        (Some(newest), Some(watched)) => {
            known.keep_manifest(rt, line, newest, key, watched)?;
            Ok(true)
        }
        (Some(_), None) => Ok(false),
    }
}

/// The manifest that the session put, in this attempt or in the one before the compile.
fn newest_of<'a>(
    answered: &'a SessionAnswer<Blake2b256>,
    known: &'a Known,
) -> Option<&'a (EntryKey, PreprocessorCacheEntry)> {
    match answered.session.entries().newest() {
        Some(newest) => Some(newest),
        None => known.put_before(),
    }
}

/// Keeps the manifest and the hint of a call, and sees to it that the limit holds, once for all that the call put.
fn note_call<R: Files + AllocGlobal>(
    rt: &R,
    call: AskedCall<'_>,
    answered: &SessionAnswer<Blake2b256>,
    key: &StoreKey,
    is_kept: bool,
    watched: Option<Watched<'_>>,
    known: &Known,
) -> Result<(), HostError> {
    let AskedCall { line, hint, .. } = call;
    let digest_name = into_text(key.digest.clone()?)?;
    let name = known.name_to_note();
    let mut names = Vec::new(rt.alloc());
    if is_kept {
        names.push(digest_name.as_str())?;
        names.push(hint)?;
    }
    if !name.is_empty() {
        let newest = newest_of(answered, known);
        if let Ok(true) = finish_manifest(rt, line, newest, key, watched, known) {
            names.push(name)?;
        }
    }
    if !known.has_hint(&key.digest, name) {
        let _ = note_hint(rt, line, hint, &key.digest, name, known.compile_time());
    }
    Ok(make_room(&rt, &line.folder, names.as_slice())?)
}

/// Has the server store what a call made, and what it gave of what is kept here alone.
fn share_call<P: Print + Files + AllocGlobal, I: Read>(
    rt: &P,
    line: &CommandLine,
    host: &mut Host<I>,
    key: &StoreKey,
    is_kept: bool,
    has_list: bool,
    known: &Known,
) -> Result<(), HostError>
    ensures { host.new.compiled ≡ host.old.compiled }
{
    let again = match host.tally.hits {
        0 => Shared::Again,
        _ => Shared::Not,
    };
    let result = if is_kept { Shared::Anew } else { again };
    let manifest = if has_list { Shared::Anew } else { again };
    share(rt, line, host, key, result, known.name_to_note(), manifest)
}

/// What to watch of the text, where the session put a manifest. Where that isn't known, or it put none, it is noted why.
fn list_to_watch<P: Print + Files + AllocGlobal, I: Read>(
    rt: &P,
    line: &CommandLine,
    host: &mut Host<I>,
    answered: &SessionAnswer<Blake2b256>,
    key: &StoreKey,
    how: How,
    known: &mut Known,
) -> Option<Vec<u8>>
    ensures { host.new.compiled ≡ host.old.compiled }
{
    if newest_of(answered, known).is_none() {
        known.note_unrecorded(rt.alloc(), how);
        return None;
    }
    match known.list_to_watch(rt, line, host, key) {
        Ok(list) => Some(list),
        Err(why) => {
            known.unwatched = Some(why);
            None
        }
    }
}

/// Gives what was kept, and notes that it was used.
fn give_kept<R: Files<File = File> + AllocGlobal>(
    rt: &R,
    line: &CommandLine,
    key: &StoreKey,
    given: &Given<'_>,
    known: &Known,
) -> Result<(), HostError> {
    give(rt, line, given, known)?;
    let _ = renew(rt, line, &key.digest);
    Ok(())
}

/// Keeps outputs that were made afresh, and gives those that were kept, each with what was printed beside them. What was made in the place of
/// a hit is compared with that, and isn't kept.
pub(crate) fn keep_or_give<P: Print + Files<File = File> + AllocGlobal, I: Read>(
    rt: &P,
    call: AskedCall<'_>,
    host: &mut Host<I>,
    answered: &SessionAnswer<Blake2b256>,
    given: &Given<'_>,
    known: &mut Known,
) -> Result<End, HostError>
    ensures { host.new.compiled ≡ host.old.compiled }
{
    let line = call.line;
    let Some(key) = answered.session.objects().asked() else {
        return give_without_key(rt, line, given, known);
    };
    let audit = known.compare(rt, line, key, given.outputs)?;
    // What the compiler prints for this isn't a message of the call.
    let list = list_to_watch(rt, line, host, answered, key, given.how, known);
    let is_kept = given.how == How::Fresh && matches!(audit, Audit::None);
    if is_kept {
        keep(rt, line, key, given.outputs, known.messages(rt)?)?;
    } else if given.how != How::Fresh {
        give_kept(rt, line, key, given, known)?;
    }
    // What was made is there, whatever becomes of this.
    if !matches!(audit, Audit::Differs(_)) {
        let messages = given.messages;
        let watched = list.as_deref().map(|list| Watched { list, messages });
        let _ = note_call(rt, call, answered, key, is_kept, watched, known);
        let _ = share_call(rt, line, host, key, is_kept, watched.is_some(), known);
    }
    let how = match (&audit, &known.audited) {
        (Audit::Alike, Some(audited)) => audited.how,
        (_, _) => given.how,
    };
    let what = What::Done(how, known.unwatched);
    let facts = facts_of(given.outputs, known);
    Ok(End { what, audit, facts })
}

/// Gives outputs of which it isn't known under which key they were kept.
fn give_without_key<R: Files<File = File> + AllocGlobal>(
    rt: &R,
    line: &CommandLine,
    given: &Given<'_>,
    known: &Known,
) -> Result<End, HostError> {
    if given.how != How::Fresh {
        give(rt, line, given, known)?;
    }
    Ok(End {
        what: What::Done(given.how, known.unwatched),
        audit: Audit::None,
        facts: facts_of(given.outputs, known),
    })
}
