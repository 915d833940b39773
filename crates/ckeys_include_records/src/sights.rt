//! What the preprocessor would be given, and the digest of that.

ghost use Rattle.std.specs.Prelude.{◌≡◌, IfOk, OnOk, IfSome, map, string_bytes};
ghost use Rattle.std.specs.Option.{option_map};
ghost use Rattle.ckeys_base.specs.Hex.{hex_of};
ghost use Rattle.ckeys_include_records.specs.Identity.{identity_of};
ghost use Rattle.ckeys_include_records.specs.Sights.{SightsFit, day_of, day_part, preprocessor_key_of, second_of, second_part, seen_by, sight_material, sights_of};
ghost use Rattle.ckeys_time_macros.specs.Seen.{HasSeen};

use crate::asker::{Asker, flag};
use crate::framed_digest::FramedDigest;
use crate::framing::{framed_lists, framed_option, framed_pairs, framed_texts};
use base_files::join;
use ckeys_base::{Digest, HashState};
use ckeys_time_macros::TimeMacroFinder;
use std::alloc::{AllocError, Global};

/// The input of a call, as it is when the call is made.
#[derive(Clone, Copy)]
pub struct SeenInput<'a> {
    pub contents: &'a [u8],
    /// The local day of the call, where the calendar has it.
    pub day: Option<i64>,
    /// The second in which it was last changed.
    pub second: i64,
}

/// The day of a call after the letter `D`, or nothing.
fn day_part(alloc: Global, day: Option<i64>) -> Result<String, AllocError>
    ensures { IfOk result (λ text. string_bytes text ≡ day_part day) }
{
    match day {
        None => Ok(String::new(alloc)),
        Some(day) => format!(in alloc; "D{day}"),
    }
}

/// The second of a change after the letter `T`, or nothing.
fn second_part(alloc: Global, second: Option<i64>) -> Result<String, AllocError>
    ensures { IfOk result (λ text. string_bytes text ≡ second_part second) }
{
    match second {
        None => Ok(String::new(alloc)),
        Some(second) => format!(in alloc; "T{second}"),
    }
}

/// The digest of a text.
fn digest_of<H: HashState>(alloc: Global, text: &[u8]) -> Result<String, AllocError>
    ensures { IfOk result (λ digest. string_bytes digest ≡ hex_of (H.digest_of text.now)) }
{
    let mut digest: Digest<H> = Digest::new();
    digest.update(text);
    digest.finish(alloc)
}

/// The day that the input asks for, and the second.
fn asked_of(input: &SeenInput, finder: &TimeMacroFinder) -> (Option<i64>, Option<i64>)
    requires { HasSeen finder.now input.now.contents.now }
    ensures day { result.0 ≡ day_of (seen_by input.now) }
    ensures second { result.1 ≡ second_of (seen_by input.now) }
{
    let day = if finder.found_date() { input.day } else { None };
    let second = if finder.found_timestamp() {
        Some(input.second)
    } else {
        None
    };
    (day, second)
}

/// The preprocessor key of a call: the digest, as text, of what the preprocessor would be given, which are the
/// compiler, its words and variables, and the digests of extra files and of the input. `None` exactly where the
/// input asks for the time, or for a day that the calendar doesn't have.
pub fn preprocessor_cache_entry_hash_key<H: HashState>(
    alloc: Global,
    asker: &Asker,
    extra: &[String],
    input: &SeenInput,
) -> Result<Option<String>, AllocError>
    ensures key { let digests = map string_bytes extra.now in
        IfOk result (λ key. option_map string_bytes key
        ≡ preprocessor_key_of H.digest_of (identity_of asker.now) digests (seen_by input.now)) }
    ensures fits { let digests = map string_bytes extra.now in
        let sights = sights_of H.digest_of (identity_of asker.now) digests (seen_by input.now) in
        IfOk result (λ key. IfSome key (λ _. SightsFit sights)) }
{
    let mut finder = TimeMacroFinder::new();
    finder.find_time_macros(input.contents);
    let lacks_day = finder.found_date() && input.day.is_none();
    if finder.found_time() || lacks_day {
        return Ok(None);
    }
    Ok(Some(told_key::<H>(alloc, asker, extra, input, &finder)?))
}

/// The digest of what the preprocessor would be given, where its input was looked at.
fn told_key<H: HashState>(
    alloc: Global,
    asker: &Asker,
    extra: &[String],
    input: &SeenInput,
    finder: &TimeMacroFinder,
) -> Result<String, AllocError>
    requires { HasSeen finder.now input.now.contents.now }
    ensures digest { let digests = map string_bytes extra.now in
        let sights = sights_of H.digest_of (identity_of asker.now) digests (seen_by input.now) in
        IfOk result (λ key. string_bytes key ≡ hex_of (H.digest_of (sight_material sights))) }
    ensures fits { let digests = map string_bytes extra.now in
        let sights = sights_of H.digest_of (identity_of asker.now) digests (seen_by input.now) in
        OnOk result (SightsFit sights) }
{
    let parsed = asker.parsed;
    let (day, second) = asked_of(input, finder);
    let words = framed_lists(
        alloc,
        parsed.preprocessor_args.as_slice(),
        parsed.common_args.as_slice(),
        parsed.arch_args.as_slice(),
    )?;
    let extra = framed_texts(alloc, extra)?;
    let assembler_digest = framed_option(alloc, asker.assembler_digest)?;
    let env = framed_pairs(alloc, asker.env)?;
    let path = join(alloc, asker.dir.as_bytes(), parsed.input.as_bytes())?;
    let input_digest = digest_of::<H>(alloc, input.contents)?;
    let day = day_part(alloc, day)?;
    let second = second_part(alloc, second)?;
    let mut digest: FramedDigest<H> = FramedDigest::new();
    digest.put(b"p1".as_slice());
    digest.put(asker.compiler_digest.as_bytes());
    digest.put(flag(asker.plusplus));
    digest.put(parsed.language.as_str().as_bytes());
    digest.put(words.as_slice());
    digest.put(extra.as_slice());
    digest.put(assembler_digest.as_slice());
    digest.put(env.as_slice());
    digest.put(path.as_bytes());
    digest.put(input_digest.as_bytes());
    digest.put(day.as_bytes());
    digest.put(second.as_bytes());
    digest.finish(alloc)
}
