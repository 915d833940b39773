//! What differed at the last call with the same outputs that was compiled from the one before it.

use crate::part_files::{name_of_parts, parts_under, put_parts};
use crate::parts::{kept_parts, parts_of};
use crate::short_text::{TextDifference, short_text};
use base_files::{Files as CallFiles, Listed, OsBytes};
use base_snapshots::SnapshotFiles;
use cache_c_requests::kind_of;
use cache_dir::{CacheDir, make_room};
use cache_format::KeptParts;
use cache_host::{CommandLine, HostError, difference_of_additions};
use cache_known_options::beside_of;
use cache_source_files::opened_words;
use cmdlines::AnyFoundCompiler;
use cmdlines_base::{ArtifactDescriptor, CompilerArguments};
use cmdlines_tables::{CCompilerKind, ParsedArguments};
use std::alloc::Global;
use std::rt::Files;
use wrap_base::{Named, Reason, Request};
use wrap_fingerprints::explain::explain;
use wrap_fingerprints::{Difference, Fingerprint, Part};

/// What words ask a compiler for.
type Asked = CompilerArguments<ParsedArguments>;

/// What words ask this compiler for.
fn asked_of<F: CallFiles>(
    alloc: Global,
    compiler: &AnyFoundCompiler,
    words: &[OsBytes],
    dir: &OsBytes,
    files: &mut F,
) -> Result<Asked, HostError> {
    match compiler.parse_arguments(alloc, words, dir, files) {
        Ok(asked) => Ok(asked),
        Err(_) => Err(HostError::Unreadable),
    }
}

/// The name under which the parts of a request in that folder lie that asks for this.
fn name_of_asked(alloc: Global, dir: &OsBytes, asked: &Asked) -> Result<String, HostError> {
    match asked {
        CompilerArguments::Ok(parsed) => Ok(name_of_parts(alloc, dir, parsed.outputs.as_slice())?),
        _ => Err(HostError::Unreadable),
    }
}

/// The name under which the parts of this request lie.
fn name_of_request<F: CallFiles>(
    alloc: Global,
    request: &Request,
    files: &mut F,
) -> Result<String, HostError> {
    let Named::C(compiler) = request.compiler.named() else {
        return Err(HostError::Unreadable);
    };
    let words = request.words.as_slice();
    let asked = asked_of(alloc, compiler.found, words, &request.dir, files)?;
    let name = name_of_asked(alloc, &request.dir, &asked);
    drop(asked);
    name
}

/// What differs in the first part in which two requests do, whose texts are in short.
fn difference_of(
    alloc: Global,
    one: &Fingerprint,
    earlier: &Fingerprint,
) -> Result<String, HostError> {
    match (explain(one, earlier), one, earlier) {
        (Some(Part::Text), Fingerprint::C(parts), Fingerprint::C(others)) => {
            let difference = TextDifference::between(alloc, &parts.text, &others.text)?;
            Ok(format!(in alloc; "{}: {difference}", Part::Text)?)
        }
        (Some(Part::Variables), Fingerprint::C(parts), Fingerprint::C(others)) => {
            let variables = parts.variables.as_slice();
            match difference_of_additions(alloc, variables, others.variables.as_slice())? {
                Some(difference) => Ok(difference),
                None => Ok(format!(in alloc; "{}", Difference { one, earlier })?),
            }
        }
        _ => Ok(format!(in alloc; "{}", Difference { one, earlier })?),
    }
}

/// What differs in the first part in which two requests do, as bytes.
fn difference_in_bytes(
    alloc: Global,
    one: &Fingerprint,
    earlier: &Fingerprint,
) -> Result<OsBytes, HostError> {
    let text = difference_of(alloc, one, earlier)?;
    Ok(OsBytes::from_vec(text.into_bytes()))
}

/// What differs from the request whose parts were kept.
fn difference_from(
    alloc: Global,
    one: &Fingerprint,
    kept: KeptParts,
) -> Result<OsBytes, HostError> {
    let earlier = Fingerprint::C(parts_of(kept));
    let difference = difference_in_bytes(alloc, one, &earlier);
    drop(earlier);
    difference
}

/// What differs from the request whose parts lie under that name; nothing where there was none.
fn difference_there<R: Files + AllocGlobal>(
    rt: &R,
    folder: &CacheDir,
    name: &str,
    one: &Fingerprint,
) -> Result<OsBytes, HostError> {
    match parts_under(rt, folder, name)? {
        Some(kept) => difference_from(rt.alloc(), one, kept),
        None => Ok(OsBytes::empty(rt.alloc())),
    }
}

/// Has the fingerprint have its text in short.
fn shorten(alloc: Global, fingerprint: &mut Fingerprint) -> Result<(), HostError> {
    let Fingerprint::C(parts) = fingerprint else {
        return Err(HostError::Unreadable);
    };
    parts.text = short_text(alloc, parts.text.as_bytes())?;
    Ok(())
}

/// Keeps parts under that name, and reports what differs in them.
fn keep<R: Files + AllocGlobal>(
    rt: &R,
    folder: &CacheDir,
    name: &str,
    kept: &KeptParts,
) -> Result<String, HostError> {
    put_parts(rt, folder, name, kept)?;
    make_room(&rt, folder, &[name])?;
    told_in(rt.alloc(), &kept.difference)
}

/// Keeps the parts of a call that was compiled, whose text is in short, under that name, and what differs from those that lay there, which is
/// reported.
fn note_parts<R: Files + AllocGlobal>(
    rt: &R,
    folder: &CacheDir,
    name: &str,
    one: &Fingerprint,
) -> Result<String, HostError> {
    let Fingerprint::C(parts) = one else {
        return Err(HostError::Unreadable);
    };
    let difference = difference_there(rt, folder, name, one)?;
    let kept = kept_parts(rt.alloc(), parts, difference)?;
    let difference = keep(rt, folder, name, &kept);
    drop(kept);
    difference
}

/// Keeps of what the key of a request was made, by its fingerprint, which has its text in short from now on.
fn note_short<R: Files + AllocGlobal, F: CallFiles>(
    rt: &R,
    line: &CommandLine,
    request: &Request,
    one: &mut Fingerprint,
    files: &mut F,
) -> Result<String, HostError> {
    shorten(rt.alloc(), one)?;
    let name = name_of_request(rt.alloc(), request, files)?;
    note_parts(rt, &line.folder, name.as_str(), &*one)
}

/// Keeps of what the key of a request was made that was compiled, by its fingerprint, and what differs from the call before it with these
/// outputs, which is reported.
pub fn note_fingerprint<R: Files + AllocGlobal, F: CallFiles>(
    rt: &R,
    line: &CommandLine,
    request: &Request,
    fingerprint: Fingerprint,
    files: &mut F,
) -> Result<String, HostError> {
    let mut one = fingerprint;
    let difference = note_short(rt, line, request, &mut one, files);
    drop(one);
    difference
}

/// What words ask a compiler of that kind for. No file is opened.
fn asked_in(
    alloc: Global,
    kind: CCompilerKind,
    words: &[OsBytes],
    dir: &OsBytes,
) -> Result<Asked, HostError> {
    let compiler = AnyFoundCompiler::new(alloc, kind, false, None, None)?;
    let mut files = SnapshotFiles::new(alloc);
    asked_of(alloc, &compiler, words, dir, &mut files)
}

/// The path of the object among outputs.
fn object_in(outputs: &[(OsBytes, ArtifactDescriptor)]) -> Option<&OsBytes> {
    let output = outputs
        .iter()
        .find(|output| output.0.as_bytes() == b"obj".as_slice())?;
    Some(&output.1.path)
}

/// What a difference says; where it is empty, there was no call before.
fn told_in(alloc: Global, difference: &OsBytes) -> Result<String, HostError> {
    match difference.as_bytes().is_empty() {
        true => Ok(String::from_str(alloc, "the first call that was compiled")?),
        false => Ok(format!(in alloc; "{difference}")?),
    }
}

/// What is known of the last call with these outputs that was compiled.
fn told_of(alloc: Global, kept: &Option<KeptParts>) -> Result<String, HostError> {
    match kept {
        None => Ok(String::from_str(alloc, "nothing is known")?),
        Some(kept) => told_in(alloc, &kept.difference),
    }
}

/// What is kept of the last call in that folder with these outputs that was compiled.
fn kept_at<R: Files + AllocGlobal>(
    rt: &R,
    kept: &str,
    dir: &OsBytes,
    outputs: &[(OsBytes, ArtifactDescriptor)],
) -> Result<Option<KeptParts>, HostError> {
    let name = name_of_parts(rt.alloc(), dir, outputs)?;
    let path = String::from_str(rt.alloc(), kept)?;
    let folder = CacheDir::new(path, String::new(rt.alloc()));
    Ok(parts_under(rt, &folder, name.as_str())?)
}

/// Reports on the call of which this is kept, and which object it made.
fn tell_of<R: Print + AllocGlobal>(
    rt: &R,
    found: &Option<KeptParts>,
    object: Option<&OsBytes>,
) -> Result<(), HostError> {
    let text = told_of(rt.alloc(), found)?;
    match object {
        Some(path) => println!(rt; "{path}: {text}")?,
        None => println!(rt; "{text}")?,
    }
    Ok(())
}

/// Reports on the last call in that folder with these outputs that was compiled.
fn tell<R: Print + Files + AllocGlobal>(
    rt: &R,
    kept: &str,
    dir: &OsBytes,
    outputs: &[(OsBytes, ArtifactDescriptor)],
) -> Result<(), HostError> {
    let found = kept_at(rt, kept, dir, outputs)?;
    let told = tell_of(rt, &found, object_in(outputs));
    drop(found);
    told
}

/// Says that words are passed through.
fn tell_pass<R: Print>(rt: &R, reason: Reason) -> Result<(), HostError> {
    println!(rt; "pass: {reason}")?;
    Ok(())
}

/// Reports on a call in that folder that asks for this.
fn tell_asked<R: Print + Files + AllocGlobal>(
    rt: &R,
    kept: &str,
    dir: &OsBytes,
    asked: Asked,
) -> Result<(), HostError> {
    match asked {
        CompilerArguments::Ok(parsed) => {
            let told = tell(rt, kept, dir, parsed.outputs.as_slice());
            drop(parsed);
            told
        }
        CompilerArguments::NotCompilation => tell_pass(rt, Reason::NotCompilation),
        CompilerArguments::CannotCache(reason, more) => {
            tell_pass(rt, Reason::CannotCache(reason, more))
        }
    }
}

/// Reports on a call of a compiler of that kind in that folder with these words.
fn tell_words<R: Print + Files + AllocGlobal>(
    rt: &R,
    kept: &str,
    kind: CCompilerKind,
    dir: &OsBytes,
    words: &[OsBytes],
) -> Result<(), HostError> {
    let asked = asked_in(rt.alloc(), kind, words, dir)?;
    tell_asked(rt, kept, dir, asked)
}

/// The words as bytes.
fn words_in(alloc: Global, words: &[String]) -> Result<Listed<OsBytes>, HostError> {
    let mut copies = Listed::new(alloc);
    for word in words {
        copies.push(OsBytes::from_slice(alloc, word.as_bytes())?)?;
    }
    Ok(copies)
}

/// Reports on a command to a compiler of that kind in that folder.
fn tell_command<R: Print + Files + AllocGlobal>(
    rt: &R,
    kept: &str,
    kind: CCompilerKind,
    dir: &str,
    words: &[String],
) -> Result<(), HostError> {
    let dir = OsBytes::from_slice(rt.alloc(), dir.as_bytes())?;
    let words = words_in(rt.alloc(), words)?;
    let words = match opened_words(rt, &dir, words.as_slice())? {
        Some(opened) => opened,
        None => words,
    };
    let mut all = words.as_slice().iter();
    if let Some(word) = all.find(|word| word.as_bytes().starts_with(b"@")) {
        println!(rt; "nothing is known: {word} isn't opened")?;
        return Ok(());
    }
    let words = match beside_of(rt.alloc(), words.as_slice())? {
        Some(beside) => beside.session_words(rt.alloc())?,
        None => words,
    };
    tell_words(rt, kept, kind, &dir, words.as_slice())
}

/// Says in a line, of the last call in that folder with the outputs of this command that was compiled, what differed from the one before
/// it.
pub fn why_of_c<R: Print + Files + AllocGlobal>(
    rt: &R,
    kept: &str,
    executable: &str,
    dir: &str,
    words: &[String],
) -> Result<(), HostError> {
    let Some(kind) = kind_of(rt, executable)? else {
        println!(rt; "pass: unknown compiler")?;
        return Ok(());
    };
    tell_command(rt, kept, kind, dir, words)
}
