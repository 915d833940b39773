//! What one line of a preprocessed text says.

ghost use Rattle.std.specs.Prelude.{◌≡◌, ◌≤◌, IfSome, length, false};
ghost use Rattle.std.specs.Option.{option_copied, option_map};
ghost use Rattle.ckeys_marker_walk.specs.Markers.{is_within};
ghost use Rattle.ckeys_marker_walk.specs.Scanning.{after_run, past, name_from, quoted_at, sight_in, sight_of_mark, sight_with};
ghost use Rattle.ckeys_marker_walk.specs.Spelling.{is_special};
ghost use Rattle.ckeys_marker_walk.specs.Sights.{quoted_of, start_of};

/// What a line that isn't plain says.
#[derive(Clone, Copy, Debug, PartialEq, Eq)]
pub enum Mark<'a> {
    /// A file's name, as written between the quotes.
    Named(&'a [u8]),
    /// The line can't be distinguished from a marker, so the text is refused.
    Refused,
}

/// What comes after an opening quote.
#[derive(Clone, Copy)]
pub(crate) enum Quoted<'a> {
    /// A name, before the quote that closes it.
    Closed(&'a [u8]),
    /// The line ends before a quote closes.
    Unclosed,
    /// A backslash comes before another byte than a quote or a backslash.
    Misspelled,
}

/// Whether the marker's `#` is followed by `line`.
#[derive(Clone, Copy)]
pub(crate) enum Start {
    Bare,
    Worded,
}

/// Whether a byte is from the one to the other.
fn is_within(low: u8, high: u8, byte: u8) -> bool
    ensures { result ≡ is_within low high byte }
{
    low <= byte && byte <= high
}

/// What comes after the bytes from the one to the other.
fn after_run(bytes: &[u8], low: u8, high: u8) -> &[u8]
    ensures { result.now ≡ after_run (is_within low high) bytes.now }
{
    let mut rest = bytes;
    while let Some((first, after)) = rest.split_first() {
        if !is_within(low, high, *first) {
            break;
        }
        rest = after;
    }
    rest
}

/// The same, where there are such bytes.
#[tactic(auto, using(crate::proofs::Runs::past_by_length))]
fn past(bytes: &[u8], low: u8, high: u8) -> Option<&[u8]>
    ensures { option_copied result ≡ past (is_within low high) bytes.now }
{
    let rest = after_run(bytes, low, high);
    if rest.len() == bytes.len() {
        None
    } else {
        Some(rest)
    }
}

/// Whether a byte is written after a backslash in a name.
fn is_special(byte: u8) -> bool
    ensures { result ≡ is_special byte }
{
    byte == b'"' || byte == b'\\'
}

/// The name after an opening quote.
fn name_in(bytes: &[u8]) -> Quoted<'_>
    ensures { quoted_of result ≡ name_from false bytes.now }
{
    let mut escaped = false;
    for i in 0..bytes.len() {
        let byte = bytes[i];
        if escaped {
            if !is_special(byte) {
                return Quoted::Misspelled;
            }
            escaped = false;
        } else if byte == b'"' {
            return Quoted::Closed(&bytes[..i]);
        } else {
            escaped = byte == b'\\';
        }
    }
    if escaped {
        Quoted::Misspelled
    } else {
        Quoted::Unclosed
    }
}

/// The name after the digits of a marker.
fn quoted_name(bytes: &[u8]) -> Quoted<'_>
    ensures { quoted_of result ≡ quoted_at (past (is_within 32 32) bytes.now) }
{
    let Some(gone) = past(bytes, b' ', b' ') else {
        return Quoted::Unclosed;
    };
    match gone.split_first() {
        Some((first, after)) => {
            if *first == b'"' {
                name_in(after)
            } else {
                Quoted::Unclosed
            }
        }
        None => Quoted::Unclosed,
    }
}

/// What a line says that continues like this after its start.
fn mark_with<'a>(start: Start, rest: &'a [u8]) -> Option<Mark<'a>>
    ensures { option_map sight_of_mark result ≡ sight_with (start_of start) rest.now }
{
    let digits = past(rest, b' ', b' ')?;
    let after = past(digits, b'0', b'9')?;
    match quoted_name(after) {
        Quoted::Closed(name) => Some(Mark::Named(name)),
        Quoted::Misspelled => Some(Mark::Refused),
        Quoted::Unclosed => match start {
            Start::Bare => Some(Mark::Refused),
            Start::Worded => None,
        },
    }
}

/// What a line says, if it isn't plain.
pub(crate) fn mark_in(line: &[u8]) -> Option<Mark<'_>>
    ensures { option_map sight_of_mark result ≡ sight_in line.now }
{
    let (first, rest) = line.split_first()?;
    if *first != b'#' {
        return None;
    }
    if rest.starts_with(b"line".as_slice()) {
        mark_with(Start::Worded, &rest[4..])
    } else {
        mark_with(Start::Bare, rest)
    }
}
