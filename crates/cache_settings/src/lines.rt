//! Lines of a file of settings: `key = value`, nothing, or a comment after `#`.

/// What a line is.
#[derive(Clone, Copy)]
pub enum Line<'a> {
    /// Nothing, or a comment.
    Empty,
    /// A key and its value, without the spaces round them.
    Pair(&'a str, &'a str),
    /// No line of such a file.
    Unfit,
}

/// What this line is.
pub fn read_line(line: &str) -> Line<'_> {
    let line = line.trim();
    if line.is_empty() || line.starts_with('#') {
        return Line::Empty;
    }
    match line.split_once('=') {
        Some((key, value)) => Line::Pair(key.trim(), value.trim()),
        None => Line::Unfit,
    }
}
