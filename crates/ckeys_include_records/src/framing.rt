//! Lists of parts, each part after its length in eight bytes, low byte first.

ghost use Rattle.std.specs.Prelude.{◌≡◌, [], ◌++◌, map, string_bytes, IfOk, OnOk};
ghost use Rattle.std.specs.Option.{option_map, option_to_list};
ghost use Rattle.base_formats.specs.Spelling.{framed_all};
ghost use Rattle.ckeys_include_records.specs.Framing.{FitFrames, pair_parts, paths_of};

use base_files::OsBytes;
use base_formats::put_framed;
use cmdlines_base::ArtifactDescriptor;
use std::alloc::{AllocError, Global};

/// Adds words, each after its length.
fn put_words(out: &mut Vec<u8>, words: &[OsBytes]) -> Result<(), AllocError>
    ensures added { OnOk result (out.new.items ≡ out.old.items ++ framed_all words.now) }
    ensures fits { OnOk result (FitFrames words.now) }
{
    for word in words {
        put_framed(out, word.as_bytes())?;
    }
    Ok(())
}

/// The words of this list, each after its length.
pub(crate) fn framed_words(alloc: Global, words: &[OsBytes]) -> Result<Vec<u8>, AllocError>
    ensures bytes { IfOk result (λ bytes. bytes.items ≡ framed_all words.now) }
    ensures fits { OnOk result (FitFrames words.now) }
{
    let mut out = Vec::new(alloc);
    put_words(&mut out, words)?;
    Ok(out)
}

/// The words of three lists, one after the other.
pub(crate) fn framed_lists(
    alloc: Global,
    first: &[OsBytes],
    second: &[OsBytes],
    third: &[OsBytes],
) -> Result<Vec<u8>, AllocError>
    ensures bytes { let words = first.now ++ (second.now ++ third.now) in
        IfOk result (λ bytes. bytes.items ≡ framed_all words) }
    ensures fits { OnOk result (FitFrames (first.now ++ (second.now ++ third.now))) }
{
    let mut out = Vec::new(alloc);
    put_words(&mut out, first)?;
    put_words(&mut out, second)?;
    put_words(&mut out, third)?;
    Ok(out)
}

/// Texts, each after its length.
pub(crate) fn framed_texts(alloc: Global, texts: &[String]) -> Result<Vec<u8>, AllocError>
    ensures bytes { IfOk result (λ bytes. bytes.items ≡ framed_all (map string_bytes texts.now)) }
    ensures fits { OnOk result (FitFrames (map string_bytes texts.now)) }
{
    let mut out = Vec::new(alloc);
    for text in texts {
        put_framed(&mut out, text.as_bytes())?;
    }
    Ok(out)
}

/// A text after its length, or nothing.
pub(crate) fn framed_option(alloc: Global, text: Option<&str>) -> Result<Vec<u8>, AllocError>
    ensures bytes { let texts = option_to_list (option_map (λ t. t.now) text.entry) in
        IfOk result (λ bytes. bytes.items ≡ framed_all texts) }
    ensures fits { OnOk result (FitFrames (option_to_list (option_map (λ t. t.now) text.entry))) }
{
    let mut out = Vec::new(alloc);
    if let Some(text) = text {
        put_framed(&mut out, text.as_bytes())?;
    }
    Ok(out)
}

/// Names and values in turn, each after its length.
pub(crate) fn framed_pairs(
    alloc: Global,
    pairs: &[(OsBytes, OsBytes)],
) -> Result<Vec<u8>, AllocError>
    ensures bytes { IfOk result (λ bytes. bytes.items ≡ framed_all (pair_parts pairs.now)) }
    ensures fits { OnOk result (FitFrames (pair_parts pairs.now)) }
{
    let mut out = Vec::new(alloc);
    for (name, value) in pairs {
        put_framed(&mut out, name.as_bytes())?;
        put_framed(&mut out, value.as_bytes())?;
    }
    Ok(out)
}

/// Names and paths of outputs in turn, each after its length.
pub(crate) fn framed_outputs(
    alloc: Global,
    outputs: &[(OsBytes, ArtifactDescriptor)],
) -> Result<Vec<u8>, AllocError>
    ensures bytes { let parts = pair_parts (paths_of outputs.now) in
        IfOk result (λ bytes. bytes.items ≡ framed_all parts) }
    ensures fits { OnOk result (FitFrames (pair_parts (paths_of outputs.now))) }
{
    let mut out = Vec::new(alloc);
    for (name, output) in outputs {
        put_framed(&mut out, name.as_bytes())?;
        put_framed(&mut out, output.path.as_bytes())?;
    }
    Ok(out)
}
