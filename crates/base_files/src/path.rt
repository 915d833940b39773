//! Paths as Unix reads them: bytes, cut at slashes.

ghost use Rattle.std.specs.Cmp.{IsTotalOrder};
ghost use Rattle.std.specs.Prelude.{◌≡◌, ℕ, ◌==◌, ◌-◌, ◌≤◌, not, ◌++◌, ◌∷◌, [], length, map, filter, take, drop, IfOk, IfSome, None};
ghost use Rattle.std.specs.List.{suffix_len, last_or};
ghost use Rattle.std.specs.Option.{option_copied, option_map, option_map_or, option_to_list};
ghost use Rattle.std.specs.declared.cmp.Ordering.TheVariants.{Equal};
ghost use Rattle.base_files.specs.Bytes.{Bytes};
ghost use Rattle.base_files.specs.Path.{pieces, counts, part_in, part_of, start_of, join, components, path_cmp, file_name, stem, extension_in, extension, renamed, with_extension};

use crate::os_bytes::OsBytes;
use std::alloc::{AllocError, Global};
use std::cmp::Ordering;

/// A component of a path.
#[derive(Clone, Copy, Debug, PartialEq, Eq, PartialOrd, Ord)]
pub enum Component<'a> {
    /// The root, where an absolute path begins.
    RootDir,
    /// The `.` that begins a relative path.
    CurDir,
    /// `..`.
    ParentDir,
    /// A name.
    Normal(&'a [u8]),
}

/// The head, the byte and the tail in a row.
fn joined_by(alloc: Global, head: &[u8], byte: u8, tail: &[u8]) -> Result<OsBytes, AllocError>
    ensures { IfOk result (λ joined. joined ≡ head.now ++ byte ∷ tail.now) }
{
    let mut bytes = Vec::with_capacity(alloc, head.len() + 1 + tail.len())?;
    bytes.extend_from_slice(head)?;
    bytes.push(byte)?;
    bytes.extend_from_slice(tail)?;
    Ok(OsBytes::from_vec(bytes))
}

/// The path as read from the base: the path itself where it is absolute or the base is empty, and
/// else the base, a slash unless the base ends with one, and the path.
pub fn join(alloc: Global, base: &[u8], path: &[u8]) -> Result<OsBytes, AllocError>
    ensures { IfOk result (λ joined. joined ≡ join base.now path.now) }
{
    if path.starts_with(b"/") || base.is_empty() {
        return OsBytes::from_slice(alloc, path);
    }
    let directory = base.strip_suffix(b"/").unwrap_or(base);
    joined_by(alloc, directory, b'/', path)
}

/// The component that only the start of a path has.
fn start_of(path: &[u8]) -> Option<Component<'_>>
    ensures { option_to_list (option_map part_of result) ≡ start_of path.now }
{
    match path {
        [b'/', ..] => Some(Component::RootDir),
        [b'.'] | [b'.', b'/', ..] => Some(Component::CurDir),
        _ => None,
    }
}

/// Whether a piece is a component wherever it is.
fn counts(piece: &[u8]) -> bool
    ensures { result ≡ counts piece.now }
{
    !piece.is_empty() && piece != b".".as_slice()
}

/// The component that such a piece is.
fn part_in(piece: &[u8]) -> Component<'_>
    ensures { part_of result ≡ part_in piece.now }
{
    if piece == b"..".as_slice() {
        Component::ParentDir
    } else {
        Component::Normal(piece)
    }
}

/// The components of a path: the root of an absolute one, and the pieces between slashes without
/// the empty ones and without each `.` that does not begin a relative path.
pub fn components<'a>(alloc: Global, path: &'a [u8]) -> Result<Vec<Component<'a>>, AllocError>
    ensures { IfOk result (λ list. map part_of list.items ≡ components path.now) }
{
    let mut list = Vec::new(alloc);
    if let Some(start) = start_of(path) {
        list.push(start)?;
    }
    for piece in path
        .split(|byte| *byte == b'/')
        .filter(|piece| counts(piece))
    {
        list.push(part_in(piece))?;
    }
    Ok(list)
}

/// Whether a path comes before another one: component by component, the root before `.`, `.` before `..`, and `..` before names,
/// which compare by their bytes; a path before those that extend it. Paths of the same components compare by their bytes.
pub fn compare_paths(left: &[u8], right: &[u8]) -> Ordering
    ensures { result ≡ path_cmp left.now right.now }
{
    let others = start_of(right).into_iter().chain(
        right
            .split(|byte| *byte == b'/')
            .filter(|name| counts(name))
            .map(part_in),
    );
    start_of(left)
        .into_iter()
        .chain(
            left.split(|byte| *byte == b'/')
                .filter(|name| counts(name))
                .map(part_in),
        )
        .cmp(others)
        .then_with(|| left.cmp(right))
}

/// Paths are totally ordered, and only equal ones tie. Calling it does nothing.
pub fn paths_have_one_order()
    ensures total { IsTotalOrder path_cmp }
    ensures ties { (left right : Bytes) → path_cmp left right ≡ Equal → left ≡ right }
{}

/// Where the part after the last such byte begins: 0 if there is none.
fn index_after_last(bytes: &[u8], byte: u8) -> usize
    ensures { let after = suffix_len (λ other. not (other == byte)) bytes.now in
        result ≡ length bytes.now - after }
{
    let mut end = bytes.len();
    while end > 0 && bytes[end - 1] != byte {
        end -= 1;
    }
    end
}

/// The path up to its last piece that is neither empty nor `.`, and where that piece begins.
fn up_to_last(path: &[u8]) -> Option<(&[u8], usize)>
    ensures last { let last = last_or None (filter counts (pieces path.now)) in
        option_map (λ found. drop found.1 found.0.now) result ≡ last }
    ensures within { IfSome result (λ found. found.1 ≤ length found.0.now) }
    // What comes before it, and then any name: the path renamed.
    ensures before { IfSome result
        (λ found. (name : Bytes) → take found.1 found.0.now ++ name ≡ renamed path.now name) }
{
    let mut rest = path;
    loop {
        let start = index_after_last(rest, b'/');
        if counts(&rest[start..]) {
            return Some((rest, start));
        }
        if start == 0 {
            return None;
        }
        rest = &rest[..start - 1];
    }
}

/// The path up to its file name, and where that begins.
fn up_to_name(path: &[u8]) -> Option<(&[u8], usize)>
    ensures name { option_map (λ found. drop found.1 found.0.now) result ≡ file_name path.now }
    ensures within { IfSome result (λ found. found.1 ≤ length found.0.now) }
    ensures before { IfSome result
        (λ found. (name : Bytes) → take found.1 found.0.now ++ name ≡ renamed path.now name) }
{
    let (whole, start) = up_to_last(path)?;
    if &whole[start..] == b"..".as_slice() {
        None
    } else {
        Some((whole, start))
    }
}

/// The last component, where it is neither the root nor `.` nor `..`.
pub fn file_name(path: &[u8]) -> Option<&[u8]>
    ensures { option_copied result ≡ file_name path.now }
{
    let (whole, start) = up_to_name(path)?;
    Some(&whole[start..])
}

/// A file name without its extension and the dot before that.
fn stem(name: &[u8]) -> &[u8]
    ensures { result.now ≡ stem name.now }
{
    let after = index_after_last(name, b'.');
    if after > 1 { &name[..after - 1] } else { name }
}

/// What follows the last dot of the file name, unless that dot is its first byte.
pub fn extension(path: &[u8]) -> Option<&[u8]>
    ensures { option_copied result ≡ extension path.now }
{
    let name = file_name(path)?;
    let after = index_after_last(name, b'.');
    if after > 1 {
        Some(&name[after..])
    } else {
        None
    }
}

/// The path with this extension in place of its file name's, or appended to the file name where it
/// has none, and with nothing after that. A path without a file name stays as it is.
pub fn with_extension(alloc: Global, path: &[u8], extension: &[u8]) -> Result<OsBytes, AllocError>
    ensures { IfOk result (λ changed. changed ≡ with_extension path.now extension.now) }
{
    match up_to_name(path) {
        None => OsBytes::from_slice(alloc, path),
        Some((whole, start)) => {
            let kept = start + stem(&whole[start..]).len();
            joined_by(alloc, &whole[..kept], b'.', extension)
        }
    }
}
