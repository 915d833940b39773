//! The text of a response file's bytes.

ghost use Rattle.std.specs.Prelude.{◌≡◌, ◌+◌, ◌*◌, if◌then◌else◌, map, string_bytes, IfOk};
ghost use Rattle.std.specs.Str.{encode_utf8_all};
ghost use Rattle.cmdlines_response_files.specs.Decoding.{decoded, unmarked_text, utf16_text, windows_1252};

use std::alloc::{AllocError, Global};
use std::str;

/// The replacement for what can't be read.
const REPLACEMENT: char = '\u{FFFD}';

/// The characters of the bytes 80 to 9f in windows-1252.
const HIGH_CHARACTERS: [char; 32] = [
    '\u{20AC}', '\u{81}', '\u{201A}', '\u{192}', '\u{201E}', '\u{2026}', '\u{2020}', '\u{2021}',
    '\u{2C6}', '\u{2030}', '\u{160}', '\u{2039}', '\u{152}', '\u{8D}', '\u{17D}', '\u{8F}',
    '\u{90}', '\u{2018}', '\u{2019}', '\u{201C}', '\u{201D}', '\u{2022}', '\u{2013}', '\u{2014}',
    '\u{2DC}', '\u{2122}', '\u{161}', '\u{203A}', '\u{153}', '\u{9D}', '\u{17E}', '\u{178}',
];

/// The character of a byte in windows-1252, by the Encoding Standard's table.
fn windows_1252(byte: u8) -> char
    ensures { result ≡ windows_1252 byte }
{
    if byte < 0x80 || byte > 0x9F {
        char::from(byte)
    } else {
        HIGH_CHARACTERS[(byte - 0x80) as usize]
    }
}

/// Bytes in windows-1252.
fn windows_1252_text(alloc: Global, bytes: &[u8]) -> Result<String, AllocError>
    ensures { IfOk result (λ text. string_bytes text ≡ encode_utf8_all (map windows_1252 bytes.now)) }
{
    let mut text = String::new(alloc);
    for byte in bytes {
        text.push(windows_1252(*byte))?;
    }
    Ok(text)
}

/// The unit of two bytes.
fn unit(high_first: bool, first: u8, second: u8) -> u16
    ensures { result ≡ (if high_first then first * 256 + second else second * 256 + first) }
{
    if high_first {
        u16::from_be_bytes([first, second])
    } else {
        u16::from_le_bytes([first, second])
    }
}

/// Bytes in UTF-16, the high byte of each unit first or not. What is unpaired or odd is U+FFFD.
fn utf16_text(alloc: Global, high_first: bool, bytes: &[u8]) -> Result<String, AllocError>
    ensures { IfOk result (λ text. string_bytes text ≡ utf16_text high_first bytes.now) }
{
    let mut units = Vec::new(alloc);
    let mut rest = bytes;
    while let [first, second, after @ ..] = rest {
        units.push(unit(high_first, *first, *second))?;
        rest = after;
    }
    let mut text = String::from_utf16_lossy(alloc, units.as_slice())?;
    if !rest.is_empty() {
        text.push(REPLACEMENT)?;
    }
    Ok(text)
}

/// Bytes without a byte order mark.
fn unmarked_text(alloc: Global, bytes: &[u8]) -> Result<String, AllocError>
    ensures { IfOk result (λ text. string_bytes text ≡ unmarked_text bytes.now) }
{
    match str::from_utf8(bytes) {
        Ok(text) => String::from_str(alloc, text),
        Err(_) => windows_1252_text(alloc, bytes),
    }
}

/// The text of a response file's bytes: by its byte order mark (UTF-8, and UTF-16 in both orders, where what can't be read is
/// U+FFFD), else as UTF-8 where the bytes are that, else by windows-1252.
pub fn decode_response_text(alloc: Global, bytes: &[u8]) -> Result<String, AllocError>
    ensures { IfOk result (λ text. string_bytes text ≡ decoded bytes.now) }
{
    if let Some(text) = bytes.strip_prefix(b"\xEF\xBB\xBF") {
        return String::from_utf8_lossy(alloc, text);
    }
    if let Some(text) = bytes.strip_prefix(b"\xFF\xFE") {
        return utf16_text(alloc, false, text);
    }
    if let Some(text) = bytes.strip_prefix(b"\xFE\xFF") {
        return utf16_text(alloc, true, text);
    }
    unmarked_text(alloc, bytes)
}
