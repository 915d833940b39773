//! Words that hand definitions of macros to the preprocessor, as `-Wp,-U_FORTIFY_SOURCE,-D_FORTIFY_SOURCE=3`.

/// Whether a word defines a macro, or makes one undefined, by itself.
fn is_definition(word: &[u8]) -> bool {
    matches!(word, [b'-', b'D' | b'U', _, ..])
}

/// The definitions that a word hands to the preprocessor, with commas between them. None where it hands on anything else.
pub(crate) fn definitions_in(word: &[u8]) -> Option<&[u8]> {
    let definitions = word.strip_prefix(b"-Wp,")?;
    for definition in definitions.split(|byte| *byte == b',') {
        if !is_definition(definition) {
            return None;
        }
    }
    Some(definitions)
}
