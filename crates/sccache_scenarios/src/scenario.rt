//! Scenarios: JSON texts that say which requests are served, each with its own files.
//!
//! A scenario is an object with the member `requests`, the list of the requests, and perhaps these:
//!
//! - `basedirs`: a list of byte texts, else empty: the folders that don't count. Each is absolute and not only slashes;
//! - `zone`: a text, the rule of POSIX for the zone in which days are given, else `UTC0`;
//! - `direct`: a truth value, whether include records are kept, else false;
//! - `capacity`: a whole number of 64 bits without a sign, how many objects are kept at most, else 0, by which all are;
//! - `max_kept`: a whole number of 64 bits without a sign, of how many bytes the outputs of a request may be together to be kept, else none,
//!   by which all are.
//!
//! A request is an object with these members, of which `compiler` and `words` are required:
//!
//! - `compiler`: the text `gcc`, `clang`, `diab`, `msvc`, `taskingvx` or `rustc`;
//! - `executable`: a byte text, else the compiler's name;
//! - `words`: the byte texts after the compiler's name;
//! - `dir`: a byte text, else `/w`;
//! - `env`: a list of pairs of byte texts, else none;
//! - `moment`: a whole number of 64 bits with a sign, else 1700000000;
//! - `files`: an object that gives each path a file, else none;
//! - `forget`: a truth value, whether all that both stores hold is dropped before this request, else false.
//!
//! Of a C compiler it has also these:
//!
//! - `digest`: a text that represents the executable in keys, else `d`;
//! - `plusplus`: a truth value, whether the compiler compiles C++ by itself, else false;
//! - `assembler`: a text that represents the compiler's assembler in keys, else none.
//!
//! And of rustc these:
//!
//! - `version`: a text, what it says of its version, else `host: x`. A line of it begins with `host: `;
//! - `sysroot`: a text, its folder of libraries, else `/s`;
//! - `libs`: a list of texts, the paths of its toolchain's libraries, else empty;
//! - `archive`: a text, the path of its toolchain's archive, else none. Libraries and archive are among the request's files;
//! - `dep_info`: a byte text, what it reports of what the crate depends on, else empty;
//! - `file_names`: a byte text, the names that it reports of what it writes, else empty;
//! - `archives`: an object that gives each static library's path a text, its digest, else empty.
//!
//! A file is a text, which is its contents, or an object with either `text`, a text, or `hex`, as in a byte text, and perhaps `mtime`, a whole number of seconds of 64 bits with a sign, else 0. All other members are passed over unread, and of a repeated member the last one counts.

ghost use Rattle.std.specs.Prelude.{◌≡◌};

use crate::byte_text::{read_byte_text, read_byte_texts, read_hex};
use crate::compilers::read_compiler;
use crate::crates::read_crate;
use crate::members::{
    into_list, into_object, into_text, read_capacity, read_limit, read_truth, read_whole, required,
};
use base_files::{FileTime, Listed, MemoryFile, MemoryFiles, OsBytes};
use ckeys_records::{ConfigError, KeyConfig};
use ckeys_time_macros::{Zone, ZoneError};
use sccache_script_tool::CrateTexts;
use serde_json::{Map, Value};
use std::alloc::{AllocError, AllocFailed, Global};
use std::num::NonZeroUsize;
use thiserror::Error;
use wrap_base::{Config, Request};

/// The directory of a request that names none.
const DEFAULT_DIR: &[u8; 2] = b"/w";

/// The moment of a request that names none.
const DEFAULT_MOMENT: i64 = 1_700_000_000;

/// What is fixed for all requests, and the calls in order.
#[derive(Drop)]
pub struct Scenario {
    /// What is fixed for keys, and how large a result is kept.
    pub session_config: Config,
    /// The same for keys, of whose folders the tool's compiler strips texts.
    pub tool_config: KeyConfig,
    /// How many objects are kept at most, or all.
    pub capacity: Option<NonZeroUsize>,
    /// The calls, in the order of their requests.
    pub calls: Vec<ScenarioCall>,
}

/// A request, the files that it finds, and what rustc reports of its crate.
#[derive(Drop)]
pub struct ScenarioCall {
    /// The request.
    pub request: Request,
    /// The files that it finds, and no others.
    pub files: MemoryFiles,
    /// What rustc reports of its crate. Empty for a C compiler.
    pub crate_texts: CrateTexts,
    /// Whether all that both stores hold is dropped before the request.
    pub forget: bool,
}

/// Why there is no scenario.
#[derive(Clone, Copy, Debug, Error, PartialEq, Eq)]
pub enum ScenarioFault {
    /// The bytes are no scenario.
    #[error("scenario cannot be read")]
    Unreadable,
    /// Out of memory.
    #[error("memory")]
    Memory,
}

impl From<AllocError> for ScenarioFault {
    ghost use Rattle.sccache_scenarios.specs.declared.scenario.ScenarioFault.TheVariants.{Memory};

    ghost from_gives = { λ _ f. f ≡ Memory };

    fn from(_error: AllocError) -> ScenarioFault {
        ScenarioFault::Memory
    }
}

impl<T: Drop> From<AllocFailed<T>> for ScenarioFault {
    ghost use Rattle.sccache_scenarios.specs.declared.scenario.ScenarioFault.TheVariants.{Memory};

    ghost from_gives = { λ _ f. f ≡ Memory };

    fn from(_error: AllocFailed<T>) -> ScenarioFault {
        ScenarioFault::Memory
    }
}

impl From<serde_json::Error> for ScenarioFault {
    fn from(error: serde_json::Error) -> ScenarioFault {
        if error.is_memory() {
            ScenarioFault::Memory
        } else {
            ScenarioFault::Unreadable
        }
    }
}

impl From<ConfigError> for ScenarioFault {
    fn from(error: ConfigError) -> ScenarioFault {
        match error {
            ConfigError::Memory => ScenarioFault::Memory,
            ConfigError::BadFolder(_) => ScenarioFault::Unreadable,
        }
    }
}

impl From<ZoneError> for ScenarioFault {
    fn from(_error: ZoneError) -> ScenarioFault {
        ScenarioFault::Unreadable
    }
}

/// The scenario that these bytes write, or why there is none.
pub fn read_scenario(alloc: Global, bytes: &[u8]) -> Result<Scenario, ScenarioFault> {
    let mut members = into_object(Value::from_slice(alloc, bytes)?)?;
    let folders = read_folders(alloc, members.remove("basedirs"))?;
    let folders = folders.as_slice();
    let zone = read_zone(members.remove("zone"))?;
    let direct = read_truth(members.remove("direct"))?;
    let capacity = read_capacity(members.remove("capacity"))?;
    let max_kept = read_limit(members.remove("max_kept"))?;
    Ok(Scenario {
        session_config: Config::new(alloc, folders, zone, direct, max_kept)?,
        tool_config: KeyConfig::new(alloc, folders, zone, direct)?,
        capacity,
        calls: read_calls(alloc, required(members.remove("requests"))?)?,
    })
}

fn read_folders(alloc: Global, member: Option<Value>) -> Result<Listed<OsBytes>, ScenarioFault> {
    match member {
        Some(folders) => read_byte_texts(alloc, folders),
        None => Ok(Listed::new(alloc)),
    }
}

fn read_zone(member: Option<Value>) -> Result<Zone, ScenarioFault> {
    match member {
        Some(rule) => Ok(Zone::new(into_text(rule)?.as_str())?),
        None => Ok(Zone::utc()),
    }
}

fn read_calls(alloc: Global, requests: Value) -> Result<Vec<ScenarioCall>, ScenarioFault> {
    let mut calls = Vec::new(alloc);
    for request in into_list(requests)? {
        calls.push(read_call(alloc, request)?)?;
    }
    Ok(calls)
}

/// The request to the compiler of that name that these members give. Its compiler is read last: it would be dropped at each failure
/// after it.
fn read_request(
    alloc: Global,
    name: &str,
    members: &mut Map<String, Value>,
    files: &mut MemoryFiles,
) -> Result<Request, ScenarioFault> {
    let words = read_byte_texts(alloc, required(members.remove("words"))?)?;
    let dir = read_dir(alloc, members.remove("dir"))?;
    let env = read_env(alloc, members.remove("env"))?;
    let moment = read_whole(members.remove("moment"), DEFAULT_MOMENT)?;
    Ok(Request {
        compiler: read_compiler(alloc, name, members, files)?,
        words,
        dir,
        env,
        moment,
    })
}

fn read_call(alloc: Global, value: Value) -> Result<ScenarioCall, ScenarioFault> {
    let mut members = into_object(value)?;
    let name = into_text(required(members.remove("compiler"))?)?;
    let forget = read_truth(members.remove("forget"))?;
    let crate_texts = read_crate(alloc, name.as_str(), &mut members)?;
    let mut files = read_files(alloc, members.remove("files"))?;
    Ok(ScenarioCall {
        request: read_request(alloc, name.as_str(), &mut members, &mut files)?,
        files,
        crate_texts,
        forget,
    })
}

fn read_dir(alloc: Global, value: Option<Value>) -> Result<OsBytes, ScenarioFault> {
    match value {
        Some(dir) => read_byte_text(alloc, dir),
        None => Ok(OsBytes::from_slice(alloc, DEFAULT_DIR)?),
    }
}

fn read_env(
    alloc: Global,
    value: Option<Value>,
) -> Result<Listed<(OsBytes, OsBytes)>, ScenarioFault> {
    let mut variables = Vec::new(alloc);
    if let Some(pairs) = value {
        for pair in into_list(pairs)? {
            variables.push(read_variable(alloc, pair)?)?;
        }
    }
    Ok(Listed::from_vec(variables))
}

/// A variable's name and value, from a list of exactly these two.
fn read_variable(alloc: Global, value: Value) -> Result<(OsBytes, OsBytes), ScenarioFault> {
    let mut parts = into_list(value)?;
    let (Some(value), Some(name), None) = (parts.pop(), parts.pop(), parts.pop()) else {
        return Err(ScenarioFault::Unreadable);
    };
    Ok((read_byte_text(alloc, name)?, read_byte_text(alloc, value)?))
}

fn read_files(alloc: Global, value: Option<Value>) -> Result<MemoryFiles, ScenarioFault> {
    let mut files = MemoryFiles::new(alloc);
    if let Some(entries) = value {
        for (path, entry) in into_object(entries)? {
            let path = OsBytes::from_vec(path.into_bytes());
            files.insert(path, read_file(alloc, entry)?)?;
        }
    }
    Ok(files)
}

fn read_file(alloc: Global, value: Value) -> Result<MemoryFile, ScenarioFault> {
    match value {
        Value::String(text) => Ok(MemoryFile {
            contents: OsBytes::from_vec(text.into_bytes()),
            mtime: FileTime::from_seconds(0),
        }),
        Value::Object(mut members) => {
            let contents = read_contents(alloc, members.remove("text"), members.remove("hex"))?;
            let mtime = FileTime::from_seconds(read_whole(members.remove("mtime"), 0)?);
            Ok(MemoryFile { contents, mtime })
        }
        _ => Err(ScenarioFault::Unreadable),
    }
}

/// The contents that one of a file's members `text` and `hex` gives.
fn read_contents(
    alloc: Global,
    text: Option<Value>,
    digits: Option<Value>,
) -> Result<OsBytes, ScenarioFault> {
    let Some(text) = text else {
        return read_hex(alloc, required(digits)?);
    };
    if digits.is_some() {
        return Err(ScenarioFault::Unreadable);
    }
    Ok(OsBytes::from_vec(into_text(text)?.into_bytes()))
}
