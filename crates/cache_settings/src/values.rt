//! Texts that are sizes, ages and truth values.

ghost use Rattle.std.specs.Prelude.{◌≡◌, ◌+◌, ◌*◌};
ghost use Rattle.std.specs.Option.{option_map};
ghost use Rattle.cache_settings.specs.Values.{age_in, age_unit_in, digit_in, held, number_in, size_in, truth_in, unit_in};

/// The digit that begins a text, and what comes after it.
fn digit_ahead(text: &[u8]) -> Option<(u64, &[u8])>
    ensures { option_map (λ found. (found.0, found.1.now)) result ≡ digit_in text.now }
{
    match text {
        [byte @ b'0'..=b'9', after @ ..] => Some((u64::from(*byte - b'0'), after)),
        _ => None,
    }
}

/// A number with one more digit, where 64 bits hold it.
fn with_digit(number: u64, digit: u64) -> Option<u64>
    ensures { result ≡ held (10 * number + digit) }
{
    number.checked_mul(10)?.checked_add(digit)
}

/// The whole number whose digits begin a text, and what comes after them. Nothing where no digit begins it, or the number exceeds
/// what 64 bits hold.
fn number_ahead(text: &[u8]) -> Option<(u64, &[u8])>
    ensures { option_map (λ found. (found.0, found.1.now)) result ≡ number_in text.now }
{
    let mut number = 0u64;
    let mut rest = text;
    'digits: while let Some((digit, after)) = digit_ahead(rest) {
        number = with_digit(number, digit)?;
        rest = after;
    }
    if rest.len() == text.len() {
        return None;
    }
    Some((number, rest))
}

/// How many bytes a unit means; no unit means `G`, as for ccache.
fn unit_named(unit: &[u8]) -> Option<u64>
    ensures { result ≡ unit_in unit.now }
{
    match unit {
        [] => Some(1_000_000_000),
        [letter] => match letter {
            b'k' => Some(1_000),
            b'M' => Some(1_000_000),
            b'G' => Some(1_000_000_000),
            b'T' => Some(1_000_000_000_000),
            _ => None,
        },
        [letter, b'i'] => match letter {
            b'K' => Some(1 << 10),
            b'M' => Some(1 << 20),
            b'G' => Some(1 << 30),
            b'T' => Some(1 << 40),
            _ => None,
        },
        _ => None,
    }
}

/// How many bytes a text means: a whole number followed by a unit, or by none for `G`. Nothing where it is no such text, or means more than
/// 64 bits hold.
pub fn size_named(text: &str) -> Option<u64>
    ensures { result ≡ size_in text.now }
{
    let (number, unit) = number_ahead(text.as_bytes())?;
    number.checked_mul(unit_named(unit)?)
}

/// The truth value that a text means; nothing where it means none.
pub fn truth_named(text: &str) -> Option<bool>
    ensures { result ≡ truth_in text.now }
{
    match text {
        "1" | "yes" | "true" | "on" => Some(true),
        "0" | "no" | "false" | "off" => Some(false),
        _ => None,
    }
}

/// The umask that a text means: an octal number up to 777.
pub fn mask_named(text: &str) -> Option<u32> {
    match u32::from_str_radix(text, 8) {
        Ok(mask) if mask <= 0o777 => Some(mask),
        _ => None,
    }
}

/// How many seconds a unit of ages means.
fn age_unit_named(unit: &[u8]) -> Option<u64>
    ensures { result ≡ age_unit_in unit.now }
{
    match unit {
        [b's'] => Some(1),
        [b'm'] => Some(60),
        [b'h'] => Some(60 * 60),
        [b'd'] => Some(24 * 60 * 60),
        _ => None,
    }
}

/// How many seconds an age means: a whole number followed by s, m, h or d, for seconds, minutes, hours or days. Nothing where it is no
/// such text, or means more than 64 bits hold.
pub fn age_named(text: &str) -> Option<u64>
    ensures { result ≡ age_in text.now }
{
    let (number, unit) = number_ahead(text.as_bytes())?;
    number.checked_mul(age_unit_named(unit)?)
}
