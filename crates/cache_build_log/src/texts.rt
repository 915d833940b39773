//! Texts of a log, each once, by number.

use std::alloc::{AllocError, Global};
use std::collections::HashMap;

/// The number of a text. The empty text has 0.
pub type TextId = u32;

/// The number of the empty text.
pub const NOTHING: TextId = 0;

/// Texts, each once. None contains a control character, nor one that changes the direction of the text beside it.
#[derive(Drop)]
pub struct Texts {
    texts: Vec<String>,
    ids: HashMap<String, TextId>,
}

/// The character that stands for a byte that belongs to no text, or for what must not be shown.
const UNFIT: char = '\u{fffd}';

/// What is shown of a character: pictures of control characters, and none that turns the direction of others.
fn shown(letter: char) -> char {
    match letter {
        '\u{0}'..='\u{1f}' => {
            char::from_u32(u32::from(letter).saturating_add(0x2400)).unwrap_or(UNFIT)
        }
        '\u{7f}' => '\u{2421}',
        '\u{80}'..='\u{9f}'
        | '\u{61c}'
        | '\u{200e}'
        | '\u{200f}'
        | '\u{2028}'..='\u{202e}'
        | '\u{2066}'..='\u{2069}'
        | '\u{fffe}'
        | '\u{ffff}' => UNFIT,
        _ => letter,
    }
}

/// A text as it is shown.
pub fn shown_text(alloc: Global, text: &str) -> Result<String, AllocError> {
    let mut clean = String::new(alloc);
    for letter in text.chars() {
        clean.push(shown(letter))?;
    }
    Ok(clean)
}

/// The value of a digit.
fn digit(byte: u8) -> Option<u8> {
    match byte {
        b'0'..=b'9' => Some(byte.wrapping_sub(b'0')),
        b'a'..=b'f' => Some(byte.wrapping_sub(b'a').wrapping_add(10)),
        _ => None,
    }
}

/// Adds a letter as it is, and another byte by its two digits.
fn push_byte(text: &mut String, byte: u8) -> Result<(), AllocError> {
    match byte {
        b' '..=b'~' => text.push(char::from(byte)),
        _ => write!(text, "\\x{byte:02x}"),
    }
}

/// Adds the bytes of these digits. False where these are no digits, or half a byte is left over.
fn push_digits(text: &mut String, digits: &str) -> Result<bool, AllocError> {
    let mut high = None;
    for byte in digits.bytes() {
        let Some(value) = digit(byte) else {
            return Ok(false);
        };
        let Some(first) = high else {
            high = Some(value);
            continue;
        };
        high = None;
        push_byte(text, first.wrapping_mul(16) | value)?;
    }
    Ok(high.is_none())
}

/// The text that represents bytes that are no text, from their digits: letters as they are, `\x` with two digits for other bytes. Nothing
/// where these are no digits.
pub fn text_of_digits(alloc: Global, digits: &str) -> Result<Option<String>, AllocError> {
    let mut text = String::new(alloc);
    match push_digits(&mut text, digits)? {
        true => Ok(Some(text)),
        false => Ok(None),
    }
}

impl Texts {
    /// The empty text alone.
    pub fn new(alloc: Global) -> Result<Texts, AllocError> {
        let mut texts = Texts {
            texts: Vec::new(alloc),
            ids: HashMap::new(alloc),
        };
        texts.add(alloc, "")?;
        Ok(texts)
    }

    /// The number of a text that isn't here yet.
    fn add_new(&mut self, text: String) -> Result<TextId, AllocError> {
        let id = u32::try_from(self.texts.len()).unwrap_or(NOTHING);
        self.texts.push(text.clone()?)?;
        self.ids.insert(text, id)?;
        Ok(id)
    }

    /// The number of a text, which is put here as it is shown.
    pub fn add(&mut self, alloc: Global, text: &str) -> Result<TextId, AllocError> {
        if let Some(id) = self.ids.get(text) {
            return Ok(*id);
        }
        let shown = shown_text(alloc, text)?;
        if let Some(id) = self.ids.get(shown.as_str()) {
            return Ok(*id);
        }
        self.add_new(shown)
    }

    /// The text of that number; the empty one where there is none.
    pub fn text(&self, id: TextId) -> &str {
        match self.texts.get(id as usize) {
            Some(text) => text.as_str(),
            None => "",
        }
    }

    /// All of them, in order of their numbers.
    pub fn all(&self) -> &[String] {
        self.texts.as_slice()
    }
}
