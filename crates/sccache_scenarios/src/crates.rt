//! What rustc reports of a request's crate, from the members that give it.

use crate::byte_text::read_byte_text;
use crate::compilers::RUSTC;
use crate::members::{into_object, into_text};
use crate::scenario::ScenarioFault;
use base_files::OsBytes;
use sccache_script_tool::CrateTexts;
use serde_json::{Map, Value};
use std::alloc::Global;
use std::collections::BTreeMap;

/// What rustc reports, where the compiler of that name is rustc: of a C compiler none of these members is read.
pub(crate) fn read_crate(
    alloc: Global,
    name: &str,
    members: &mut Map<String, Value>,
) -> Result<CrateTexts, ScenarioFault> {
    if name != RUSTC {
        return Ok(CrateTexts::empty(alloc));
    }
    Ok(CrateTexts {
        dep_info: read_told(alloc, members.remove("dep_info"))?,
        file_names: read_told(alloc, members.remove("file_names"))?,
        archives: read_archives(alloc, members.remove("archives"))?,
    })
}

/// A text that is given, which is empty where the member isn't there.
fn read_told(alloc: Global, member: Option<Value>) -> Result<OsBytes, ScenarioFault> {
    match member {
        Some(text) => read_byte_text(alloc, text),
        None => Ok(OsBytes::empty(alloc)),
    }
}

/// Static libraries by their paths, each with its digest.
fn read_archives(
    alloc: Global,
    member: Option<Value>,
) -> Result<BTreeMap<OsBytes, OsBytes>, ScenarioFault> {
    let mut archives = BTreeMap::new(alloc);
    if let Some(entries) = member {
        for (path, digest) in into_object(entries)? {
            let path = OsBytes::from_vec(path.into_bytes());
            archives.insert(path, OsBytes::from_vec(into_text(digest)?.into_bytes()))?;
        }
    }
    Ok(archives)
}
