//! What a call lacks, found out: its text, its outputs, a manifest, what is kept of it.

ghost use Rattle.std.specs.Prelude.{◌≡◌, ◌≤◌};

use crate::deciding::AskedCall;
use base_blake2::Blake2b256;
use base_files::OsBytes;
use cache_c_known::{Known, found, hint_at, kept_under};
use cache_files::name_of_manifest;
use cache_files::results::Kept;
use cache_host::{CommandLine, Host, HostError};
use cache_remote_storage::{fetched, fetched_manifest};
use ckeys_include_records::entry_key::EntryKey;
use ckeys_records::{Fault, Step};
use std::fs::File;
use std::io::Read;
use std::mem;
use std::rt::Files;
use wrap_base::store_key::StoreKey;
use wrap_replay::SessionAnswer;

/// What a call lacks.
#[derive(Clone, Copy)]
pub(crate) enum Lacking<'a> {
    /// The file of that path.
    File(&'a OsBytes),
    /// Its text, and the manifest under that key, where the session asked for one.
    Text(Option<&'a EntryKey>),
    /// Its outputs, which the session asked for under that key.
    Outputs(Option<&'a StoreKey>),
    /// Nothing that can be found out.
    Nothing,
}

/// What a call lacks, as a fault with which the session answered says.
pub(crate) fn lacking_by<'a>(
    fault: &'a Fault,
    answered: &'a SessionAnswer<Blake2b256>,
) -> Lacking<'a> {
    match fault {
        Fault::Read(path) => Lacking::File(path),
        Fault::Tool(Step::Compile) => Lacking::Outputs(answered.session.objects().asked()),
        Fault::Tool(_) => Lacking::Text(answered.session.entries().asked()),
        _ => Lacking::Nothing,
    }
}

/// Takes what is kept of a call, in the place of what was taken before. Whether there is something.
fn take_kept(kept: Option<Kept>, known: &mut Known) -> bool {
    let is_there = kept.is_some();
    drop(mem::replace(&mut known.entry, kept));
    is_there
}

/// Asks the disk for the key that the store was asked for, once, and where that has nothing other machines. False where they have nothing too.
fn look_up<P: Print + Files + AllocGlobal, I: Read>(
    rt: &P,
    line: &CommandLine,
    host: &mut Host<I>,
    key: Option<&StoreKey>,
    known: &mut Known,
) -> Result<bool, HostError>
    ensures { host.new.compiled ≡ host.old.compiled }
{
    let Some(key) = key else {
        return Ok(false);
    };
    if matches!(&known.looked_up, Some(digest) if *digest == key.digest) {
        return Ok(false);
    }
    known.looked_up = Some(key.digest.clone()?);
    let kept = found(rt, line, key.digest.clone()?, known.messages_beside_text())?;
    if take_kept(kept, known) {
        return Ok(true);
    }
    let fetched = fetched(rt, line, host, key, known.messages_beside_text())?;
    Ok(take_kept(fetched, known))
}

/// Asks the disk for the manifest that the session asked for, once, and where that has none other machines. False where they have none too, or
/// none was asked for.
fn look_up_manifest<P: Print + Files + AllocGlobal, I: Read>(
    rt: &P,
    line: &CommandLine,
    host: &mut Host<I>,
    asked: Option<&EntryKey>,
    known: &mut Known,
) -> Result<bool, HostError>
    ensures { host.new.compiled ≡ host.old.compiled }
{
    let Some(key) = asked else {
        return Ok(false);
    };
    let name = name_of_manifest(rt.alloc(), line.zone.as_str(), key)?;
    if known.look_up_manifest(rt, line, name)? {
        return Ok(true);
    }
    if !known.lacks_manifest() {
        return Ok(false);
    }
    match fetched_manifest(rt, line, host, key, known.name_to_note())? {
        Some(manifest) => known.take_manifest(rt, line, manifest),
        None => Ok(false),
    }
}

/// Finds out what the text is: by a manifest, or by the preprocessor. False where it was printed already.
fn find_text<P: Print + Files<File = File> + AllocGlobal, I: Read>(
    rt: &P,
    call: AskedCall<'_>,
    host: &mut Host<I>,
    asked: Option<&EntryKey>,
    known: &mut Known,
) -> Result<bool, HostError>
    requires { host.old.compiled ≤ 1 }
    ensures { host.new.compiled ≤ 1 }
{
    let line = call.line;
    if look_up_manifest(rt, line, host, asked, known)? {
        return Ok(true);
    }
    if !known.record(rt, line, host, None)? {
        return Ok(false);
    }
    if asked.is_some() {
        known.follow_text(rt, line)?;
        load_result(rt, call, known)?;
    }
    Ok(true)
}

/// Finds out what was made: by what is kept, or by the compiler. False where that ran already.
fn find_outputs<P: Print + Files<File = File> + AllocGlobal, I: Read>(
    rt: &P,
    line: &CommandLine,
    host: &mut Host<I>,
    key: Option<&StoreKey>,
    known: &mut Known,
) -> Result<bool, HostError>
    requires { host.old.compiled ≤ 1 }
    ensures { host.new.compiled ≤ 1 }
{
    if look_up(rt, line, host, key, known)? || known.drop_manifest() {
        return Ok(true);
    }
    known.record(rt, line, host, key)
}

/// Finds out what a call lacks. False where it can't be found out.
pub(crate) fn find_out<P: Print + Files<File = File> + AllocGlobal, I: Read>(
    rt: &P,
    call: AskedCall<'_>,
    host: &mut Host<I>,
    lacking: Lacking<'_>,
    known: &mut Known,
) -> Result<bool, HostError>
    requires { host.old.compiled ≤ 1 }
    ensures { host.new.compiled ≤ 1 }
{
    match lacking {
        Lacking::File(path) => known.load(rt, path.clone()?),
        Lacking::Text(asked) => find_text(rt, call, host, asked, known),
        Lacking::Outputs(key) => find_outputs(rt, call.line, host, key, known),
        Lacking::Nothing => Ok(false),
    }
}

/// Loads what was kept under the digest that this command line had last.
fn load_result<R: Files + AllocGlobal>(
    rt: &R,
    call: AskedCall<'_>,
    known: &mut Known,
) -> Result<(), HostError> {
    let Some(had) = hint_at(rt, call.line, call.hint)? else {
        return Ok(());
    };
    let digest = had.digest.clone()?;
    let kept = kept_under(rt, call.line, digest, known.messages_beside_text())?;
    take_kept(kept, known);
    known.hint = Some(had);
    Ok(())
}

/// Loads ahead what this command line had last: what was kept, and in direct mode, where no text was printed yet, the manifest before it.
/// Without that the text comes first.
pub(crate) fn load_ahead<R: Files + AllocGlobal>(
    rt: &R,
    call: AskedCall<'_>,
    known: &mut Known,
) -> Result<(), HostError> {
    if known.zone.is_none() || known.tool.text.is_some() {
        return load_result(rt, call, known);
    }
    let Some(had) = hint_at(rt, call.line, call.hint)? else {
        return Ok(());
    };
    let manifest_name = String::from_str(rt.alloc(), had.manifest_name.as_str())?;
    if known.look_up_manifest(rt, call.line, manifest_name)? {
        let kept = kept_under(rt, call.line, had.digest.clone()?, None)?;
        take_kept(kept, known);
    }
    known.hint = Some(had);
    Ok(())
}
