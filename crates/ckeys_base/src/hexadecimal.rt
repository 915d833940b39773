//! Hexadecimal text, the low half of each byte first.

ghost use Rattle.std.specs.Prelude.{◌≡◌, ◌*◌, ◌<◌, IfOk, length, string_bytes};
ghost use Rattle.base_files.specs.Bytes.{Bytes};
ghost use Rattle.ckeys_base.specs.Hex.{AreBytes, digit_of, hex_of};

use std::alloc::{AllocError, Global};

/// The digit of a number below 16.
fn digit(number: u8) -> u8
    requires { number < 16 }
    ensures { result ≡ digit_of number }
{
    if number < 10 {
        b'0' + number
    } else {
        b'a' + (number - 10)
    }
}

/// The lowercase hexadecimal text of some bytes, two digits a byte, the low half of each byte first.
pub fn hex(alloc: Global, bytes: &[u8]) -> Result<String, AllocError>
    ensures { IfOk result (λ text. string_bytes text ≡ hex_of bytes.now) }
{
    let mut text = String::with_capacity(alloc, bytes.len() * 2)?;
    for byte in bytes {
        text.push(digit(*byte % 16) as char)?;
        text.push(digit(*byte / 16) as char)?;
    }
    Ok(text)
}

/// The text has two digits for each byte, and determines the bytes: two byte strings of one text are equal.
pub fn hex_tells_its_bytes()
    ensures length { (bytes : Bytes) → length (hex_of bytes) ≡ 2 * length bytes }
    ensures tells { (one other : Bytes) → AreBytes one → AreBytes other → hex_of one ≡ hex_of other
        → one ≡ other }
{}
