//! Directives by which an assembler includes files. They occur in an assembler's text, and in strings that a compiler passes on to one.
//!
//! A directive may be written in any case, with escapes, and over several adjacent strings. A member of C
//! (`options.include`, `.include = x`) is none, nor is a part of a path (`parts.include/x.h`).
//!
//! Its name may be made from pieces: of arguments of an assembler's macros (`.inc\\x`, `.inc&x`), and of the alternatives that GCC chooses from
//! by the dialect of its assembler (`.inc{bin|x}`). What an argument is isn't known here, so each that may complete a name counts.

use memchr::{memchr2_iter, memmem};

/// The directives, without their dot.
const DIRECTIVES: [&[u8]; 2] = [b"incbin", b"include"];

/// What may come before a string.
const PREFIXES: [&[u8]; 4] = [b"u8", b"u", b"U", b"L"];

/// The pragma by which a preprocessed text takes in a precompiled header.
const PRECOMPILED: &[u8] = b"pch_preprocess";

/// So many dialects an assembler has at most.
const DIALECTS: usize = 2;

/// So many bytes an alternative, or a line before a directive, is looked at.
const NEAR: usize = 128;

/// The text from that place on.
fn from(text: &[u8], at: usize) -> &[u8] {
    match text.split_at_checked(at) {
        Some((_, rest)) => rest,
        None => &[],
    }
}

/// The text after spaces and line ends.
fn after_blanks(text: &[u8]) -> &[u8] {
    match text.iter().position(|byte| !byte.is_ascii_whitespace()) {
        Some(at) => from(text, at),
        None => &[],
    }
}

/// The text after the end of its first line.
fn after_line(text: &[u8]) -> &[u8] {
    match text.iter().position(|byte| *byte == b'\n') {
        Some(at) => from(text, at.saturating_add(1)),
        None => &[],
    }
}

/// The text after spaces and line markers.
fn after_markers(text: &[u8]) -> &[u8] {
    let mut rest = after_blanks(text);
    for _ in text {
        if rest.first() != Some(&b'#') {
            return rest;
        }
        rest = after_blanks(after_line(rest));
    }
    rest
}

/// The inside of a string that begins there, after spaces and line markers.
fn other_string(text: &[u8]) -> Option<&[u8]> {
    let mut rest = after_markers(text);
    for prefix in PREFIXES {
        if let Some(after) = rest.strip_prefix(prefix) {
            rest = after;
            break;
        }
    }
    rest.strip_prefix(b"\"")
}

/// The text, past the quotes between two adjacent strings.
fn after_seams(text: &[u8]) -> &[u8] {
    let mut rest = text;
    for _ in text {
        let Some(after) = rest.strip_prefix(b"\"") else {
            return rest;
        };
        match other_string(after) {
            Some(inside) => rest = inside,
            None => return rest,
        }
    }
    rest
}

/// A digit's value.
fn digit(byte: u8) -> Option<u8> {
    match byte {
        b'0'..=b'9' => Some(byte - b'0'),
        b'a'..=b'f' => Some(byte - b'a' + 10),
        b'A'..=b'F' => Some(byte - b'A' + 10),
        _ => None,
    }
}

/// The byte that digits at the front mean, at most so many of them, and what comes after them.
fn number(text: &[u8], radix: u8, most: usize) -> (u8, &[u8]) {
    let mut value: u8 = 0;
    let mut rest = text;
    for byte in text.iter().take(most) {
        match digit(*byte) {
            Some(digit) if digit < radix => {
                value = value.wrapping_mul(radix).wrapping_add(digit);
                rest = from(rest, 1);
            }
            _ => break,
        }
    }
    (value, rest)
}

/// The byte that an escape means, given the text after its backslash, and what comes after the escape.
fn escaped(text: &[u8]) -> Option<(u8, &[u8])> {
    let (first, rest) = text.split_first()?;
    match *first {
        b'n' | b'r' => Some((b'\n', rest)),
        b't' | b'v' | b'f' | b'a' | b'b' => Some((b' ', rest)),
        b'x' => Some(number(rest, 16, 16)),
        b'0'..=b'7' => Some(number(text, 8, 3)),
        byte => Some((byte, rest)),
    }
}

/// The next byte that an assembler reads, and what comes after it.
fn next_byte(text: &[u8]) -> Option<(u8, &[u8])> {
    let (first, rest) = after_seams(text).split_first()?;
    match *first {
        b'\\' => escaped(rest),
        byte => Some((byte, rest)),
    }
}

/// What comes after these letters, in any case, where the text begins with them.
fn after_word<'a>(text: &'a [u8], word: &[u8]) -> Option<&'a [u8]> {
    let mut rest = text;
    for letter in word {
        let (byte, after) = next_byte(rest)?;
        if byte.to_ascii_lowercase() != *letter {
            return None;
        }
        rest = after;
    }
    Some(rest)
}

/// Whether a file's name, or what a macro makes one of, may begin with this byte.
fn begins_name(byte: u8) -> bool {
    byte.is_ascii_alphanumeric() || !byte.is_ascii() || b"\"\\%<'_$@/{".contains(&byte)
}

/// Whether a file's name comes there, after spaces; the end of a text or of a string counts, as one may come after it.
fn takes_name(text: &[u8]) -> bool {
    let mut rest = text;
    let mut is_apart = false;
    for _ in text {
        let Some((byte, after)) = next_byte(rest) else {
            return true;
        };
        if !byte.is_ascii_whitespace() {
            return byte == b'"' || is_apart && begins_name(byte);
        }
        is_apart = true;
        rest = after;
    }
    true
}

/// Whether a line or a statement ends after a directive without a name, as it does where a macro's argument is one.
fn ends_argument(text: &[u8]) -> bool {
    let mut rest = text;
    let mut is_after = false;
    for _ in text {
        let Some((byte, after)) = next_byte(rest) else {
            return true;
        };
        if byte == b'\n' {
            is_after = true;
        } else if !byte.is_ascii_whitespace() {
            // A member of C may have its `=` in the next line.
            return match is_after {
                true => !b"=([{".contains(&byte),
                false => b",;#/@!>".contains(&byte),
            };
        }
        rest = after;
    }
    true
}

/// What comes after this byte, where it is near.
fn after_near(text: &[u8], wanted: u8) -> Option<&[u8]> {
    let mut rest = text;
    for byte in text.iter().take(NEAR) {
        rest = from(rest, 1);
        if *byte == wanted {
            return Some(rest);
        }
    }
    None
}

/// The text from that alternative on, given the text after their brace.
fn alternative(text: &[u8], dialect: usize) -> &[u8] {
    let mut rest = text;
    for _ in 0..dialect {
        match after_near(rest, b'|') {
            Some(after) => rest = after,
            None => return &[],
        }
    }
    rest
}

/// The text, past braces and the alternatives of other dialects.
fn after_choices(text: &[u8], dialect: usize) -> &[u8] {
    let mut rest = text;
    for _ in text.iter().take(8) {
        rest = match next_byte(rest) {
            Some((b'{', after)) => alternative(after, dialect),
            Some((b'|', after)) => match after_near(after, b'}') {
                Some(after) => after,
                None => return rest,
            },
            Some((b'}', after)) => after,
            _ => return rest,
        };
    }
    rest
}

/// What comes after these letters where that dialect is chosen.
fn after_chosen<'a>(text: &'a [u8], word: &[u8], dialect: usize) -> Option<&'a [u8]> {
    let mut rest = text;
    for letter in word {
        let (byte, after) = next_byte(after_choices(rest, dialect))?;
        if byte.to_ascii_lowercase() != *letter {
            return None;
        }
        rest = after;
    }
    Some(rest)
}

/// Whether the alternatives that begin there are several ones: a value of C++ (`.include{1}`) has none.
fn are_several(text: &[u8]) -> bool {
    match next_byte(text) {
        Some((b'{', after)) => {
            for byte in after.iter().take(NEAR) {
                if b"|}".contains(byte) {
                    return *byte == b'|';
                }
            }
            false
        }
        _ => true,
    }
}

/// Whether a directive and a file's name come after a dot, where one of the dialects is chosen.
fn is_chosen(text: &[u8]) -> bool {
    for word in DIRECTIVES {
        for dialect in 0..DIALECTS {
            match after_chosen(text, word, dialect) {
                Some(rest) if are_several(rest) => {
                    if takes_name(after_choices(rest, dialect)) {
                        return true;
                    }
                }
                _ => {}
            }
        }
    }
    false
}

/// Whether an argument of a macro, or `()` for none, may begin with this byte. A macro's counter, `@`, has no letters.
fn begins_argument(byte: u8) -> bool {
    byte.is_ascii_alphabetic() || !byte.is_ascii() || b"_$(".contains(&byte)
}

/// Whether an argument of a macro comes there, as strings have it.
fn is_argument(text: &[u8]) -> bool {
    match next_byte(text) {
        Some((b'\\' | b'&', after)) => match next_byte(after) {
            Some((byte, _)) => begins_argument(byte),
            None => false,
        },
        _ => false,
    }
}

/// Whether an argument of a macro comes there, as an assembler's own text has it.
fn is_own_argument(text: &[u8]) -> bool {
    match text {
        [b'\\' | b'&', byte, ..] => begins_argument(*byte),
        _ => false,
    }
}

/// Whether an argument of a macro comes after a front of that directive.
fn has_argument(text: &[u8], word: &[u8], dialect: usize, is_own: bool) -> bool {
    let mut rest = text;
    for letter in word {
        rest = after_choices(rest, dialect);
        if is_own && is_own_argument(rest) || !is_own && is_argument(rest) {
            return true;
        }
        match next_byte(rest) {
            Some((byte, after)) if byte.to_ascii_lowercase() == *letter => rest = after,
            _ => return false,
        }
    }
    is_own && is_own_argument(rest) || !is_own && is_argument(rest)
}

/// Whether what comes after a dot may be made a directive by an argument.
fn is_made(text: &[u8], is_own: bool) -> bool {
    for word in DIRECTIVES {
        for dialect in 0..DIALECTS {
            if has_argument(text, word, dialect, is_own) {
                return true;
            }
        }
    }
    false
}

/// Whether an escape of a line's end or a blank ends this text.
fn ends_in_escape(before: &[u8]) -> bool {
    let mut last = before.iter().rev();
    let (Some(a), Some(b)) = (last.next(), last.next()) else {
        return false;
    };
    if *b == b'\\' {
        return b"nrtvf01234567".contains(a);
    }
    // A number of two or three digits.
    let (Some(c), d) = (last.next(), last.next()) else {
        return false;
    };
    a.is_ascii_hexdigit()
        && (*b == b'x' || b.is_ascii_hexdigit())
        && (*c == b'\\' || (*c == b'x' || c.is_ascii_digit()) && d == Some(&b'\\'))
}

/// Whether a statement within a string may begin after this text.
fn begins_within(before: &[u8]) -> bool {
    match before.last() {
        Some(last) => {
            last.is_ascii_whitespace() || b":;,\"{|}/".contains(last) || ends_in_escape(before)
        }
        None => true,
    }
}

/// Whether the line that this text ends in has no quote.
fn is_unquoted(before: &[u8]) -> bool {
    for byte in before.iter().rev().take(NEAR) {
        match *byte {
            b'\n' => return true,
            b'"' => return false,
            _ => {}
        }
    }
    true
}

/// Whether a statement of an assembler's own text may begin after this text. In a string a dot and `\n` are the end of a sentence.
fn begins_own(before: &[u8]) -> bool {
    for byte in before.iter().rev() {
        match *byte {
            b' ' | b'\t' => {}
            b'\n' | b'\r' | b':' | b';' => return true,
            _ => break,
        }
    }
    match before.last() {
        Some(last) => {
            (last.is_ascii_whitespace() || b",/".contains(last)) && is_unquoted(before)
        }
        None => true,
    }
}

/// Whether what comes after a dot may be a front of a directive, or pieces of one.
fn may_be_front(text: &[u8]) -> bool {
    match text.first() {
        Some(first) => b"iI\\{|}&\"".contains(first),
        None => false,
    }
}

/// Whether the text begins with a dot, or its escape, and is made a directive from pieces.
fn is_pieced(before: &[u8], text: &[u8]) -> bool {
    match next_byte(text) {
        Some((b'.', after)) if may_be_front(after) => {
            is_made(after, false) && begins_within(before)
                || is_made(after, true) && begins_own(before)
                || is_chosen(after) && may_begin(before)
        }
        _ => false,
    }
}

/// Whether a dot after this text may begin a directive: it can't after a name or something else that is a value, unless that is an escape.
fn may_begin(before: &[u8]) -> bool {
    let Some(last) = before.last() else {
        return true;
    };
    let is_value = last.is_ascii_alphanumeric() || b"_$)]".contains(last);
    !is_value || before.iter().rev().take(4).any(|byte| *byte == b'\\')
}

/// Whether the text begins with a dot, or its escape, followed by a directive and a file's name.
fn is_directive(text: &[u8]) -> bool {
    match next_byte(text) {
        Some((b'.', after)) => DIRECTIVES.iter().any(|word| match after_word(after, word) {
            Some(rest) => takes_name(rest) || ends_argument(rest),
            None => false,
        }),
        _ => false,
    }
}

/// Whether the text takes in files as it is compiled or assembled: an assembler's own text, one with strings for it, or a preprocessed one that
/// names a precompiled header.
pub fn takes_files(text: &[u8]) -> bool {
    if memmem::find(text, PRECOMPILED).is_some() {
        return true;
    }
    for at in memchr2_iter(b'.', b'\\', text) {
        if let Some((before, after)) = text.split_at_checked(at) {
            if is_directive(after) && may_begin(before) || is_pieced(before, after) {
                return true;
            }
        }
    }
    false
}
