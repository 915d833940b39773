//! What of a call goes to the server, once the call is answered.

ghost use Rattle.std.specs.Prelude.{◌≡◌};

use crate::asking::{has, send};
use crate::manifests::{manifest_to_send, name_of_manifest};
use crate::results::name_of_result;
use cache_dir::Kind;
use cache_host::{CommandLine, Host, HostError, text_in};
use cache_settings::Key;
use std::io::Read;
use std::rt::Files;
use wrap_base::store_key::StoreKey;

/// What came of something in a call.
#[derive(Clone, Copy, PartialEq, Eq)]
pub enum Shared {
    /// It was kept anew, and goes to the server.
    Anew,
    /// It was kept here already, and goes there where the server is to have it too and has nothing under its name.
    Again,
    /// It came from there, or there is none.
    Not,
}

/// Whether it goes to the server, and if so, whether only where nothing lies there.
fn goes(line: &CommandLine, shared: Shared) -> Option<bool> {
    match shared {
        Shared::Anew => Some(false),
        Shared::Again if has(line, "reshare") => Some(true),
        Shared::Again | Shared::Not => None,
    }
}

/// Sends the result that is kept under this key.
fn share_result<P: Print + Files + AllocGlobal, I: Read>(
    rt: &P,
    line: &CommandLine,
    host: &mut Host<I>,
    key: &StoreKey,
    shared: Shared,
) -> Result<(), HostError>
    ensures { host.new.compiled ≡ host.old.compiled }
{
    let Some(is_only_new) = goes(line, shared) else {
        return Ok(());
    };
    let bytes = line.folder.read(rt, Kind::Results, text_in(&key.digest)?)?;
    let name = name_of_result(rt.alloc(), key)?;
    send(rt, line, host, name.as_str(), bytes.as_slice(), is_only_new)
}

/// Sends the manifest that is kept under this name, without what is this machine's own.
fn share_manifest<P: Print + Files + AllocGlobal, I: Read>(
    rt: &P,
    line: &CommandLine,
    host: &mut Host<I>,
    own: &str,
    shared: Shared,
) -> Result<(), HostError>
    ensures { host.new.compiled ≡ host.old.compiled }
{
    let Some(is_only_new) = goes(line, shared) else {
        return Ok(());
    };
    let bytes = line.folder.read(rt, Kind::Manifests, own)?;
    let Some(bytes) = manifest_to_send(rt.alloc(), bytes.as_slice())? else {
        return Ok(());
    };
    let name = name_of_manifest(rt.alloc(), own)?;
    send(rt, line, host, name.as_str(), bytes.as_slice(), is_only_new)
}

/// Has the server store what a call made: the result of this key, and the manifest of this name, where it has one.
pub fn share<P: Print + Files + AllocGlobal, I: Read>(
    rt: &P,
    line: &CommandLine,
    host: &mut Host<I>,
    key: &StoreKey,
    shared: Shared,
    own: &str,
    manifest: Shared,
) -> Result<(), HostError>
    ensures { host.new.compiled ≡ host.old.compiled }
{
    let is_set = !line.settings.value_of(Key::RemoteStorage).is_empty();
    if !is_set || line.folder.is_read_only || has(line, "read-only") {
        return Ok(());
    }
    share_result(rt, line, host, key, shared)?;
    if own.is_empty() {
        return Ok(());
    }
    share_manifest(rt, line, host, own, manifest)
}
