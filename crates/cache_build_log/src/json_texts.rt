//! Texts and bytes as JSON has them, written so that a page may contain them too: no `<`, `>` or `&` is left in them.

use std::alloc::AllocError;

/// Writes a character of a text in JSON.
fn push_char(json: &mut String, letter: char) -> Result<(), AllocError> {
    match letter {
        '"' => json.push_str("\\\""),
        '\\' => json.push_str("\\\\"),
        '\n' => json.push_str("\\n"),
        '\t' => json.push_str("\\t"),
        '<' => json.push_str("\\u003c"),
        '>' => json.push_str("\\u003e"),
        '&' => json.push_str("\\u0026"),
        '\u{0}'..='\u{1f}' | '\u{7f}'..='\u{9f}' | '\u{2028}' | '\u{2029}' => {
            let code = u32::from(letter);
            write!(json, "\\u{code:04x}")
        }
        _ => json.push(letter),
    }
}

/// Writes a text.
pub fn push_text(json: &mut String, text: &str) -> Result<(), AllocError> {
    json.push('"')?;
    for letter in text.chars() {
        push_char(json, letter)?;
    }
    json.push('"')
}

/// Writes the digits of bytes, two each.
fn push_digits(json: &mut String, bytes: &[u8]) -> Result<(), AllocError> {
    for byte in bytes {
        write!(json, "{byte:02x}")?;
    }
    Ok(())
}

/// Writes bytes as a byte text: a text where they are one, else an object with their digits in `hex`.
pub fn push_bytes(json: &mut String, bytes: &[u8]) -> Result<(), AllocError> {
    if let Ok(text) = str::from_utf8(bytes) {
        return push_text(json, text);
    }
    json.push_str("{\"hex\":\"")?;
    push_digits(json, bytes)?;
    json.push_str("\"}")
}

/// Writes a comma, a name that needs no escapes, and a colon.
pub fn push_name(json: &mut String, name: &str) -> Result<(), AllocError> {
    write!(json, ",\"{name}\":")
}
