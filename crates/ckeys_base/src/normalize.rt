//! Paths in a normal form.

ghost use Rattle.std.specs.Prelude.{◌≡◌, ◌++◌, IfOk, OnOk, map};
ghost use Rattle.std.specs.List.{join_with_byte};
ghost use Rattle.std.specs.Str.{byte};
ghost use Rattle.ckeys_base.specs.NormalPath.{normal_path, win_byte, followed_by};
ghost use Rattle.base_files.specs.Path.{part_of};
ghost use Rattle.ckeys_base.specs.NormalPath as spec;

use base_files::{Component, OsBytes, components};
use std::alloc::{AllocError, Global};

/// The path without `.`, and without each `..` and the component that it takes away: the one before
/// it, but never the root, and nothing where there is none.
pub fn normalize_path(alloc: Global, path: &[u8]) -> Result<OsBytes, AllocError>
    ensures { IfOk result (λ normal. normal ≡ normal_path path.now) }
{
    let names = normal_names(alloc, path)?;
    let mut bytes = Vec::with_capacity(alloc, path.len())?;
    if path.starts_with(b"/") {
        bytes.push(b'/')?;
    }
    append_joined(&mut bytes, &names)?;
    Ok(OsBytes::from_vec(bytes))
}

/// The names that stay of a path.
fn normal_names<'a>(alloc: Global, path: &'a [u8]) -> Result<Vec<&'a [u8]>, AllocError>
    ensures { IfOk result (λ names. map (λ name. name.now) names.items ≡ spec.names_of path.now) }
{
    let components = components(alloc, path)?;
    let mut names = Vec::with_capacity(alloc, components.len())?;
    for component in &components {
        follow(&mut names, *component)?;
    }
    Ok(names)
}

/// Lets the component follow these names.
fn follow<'a>(names: &mut Vec<&'a [u8]>, component: Component<'a>) -> Result<(), AllocError>
    ensures { OnOk result
        (map (λ name. name.now) names.new.items
        ≡ followed_by (map (λ name. name.now) names.old.items) (part_of component.entry)) }
{
    match component {
        Component::RootDir | Component::CurDir => Ok(()),
        Component::ParentDir => {
            let _last = names.pop();
            Ok(())
        }
        Component::Normal(name) => Ok(names.push(name)?),
    }
}

/// Appends the names, with a slash between each two.
fn append_joined(bytes: &mut Vec<u8>, names: &[&[u8]]) -> Result<(), AllocError>
    ensures { OnOk result
        (bytes.new.items
        ≡ bytes.old.items ++ join_with_byte (byte "/") (map (λ name. name.now) names.now)) }
{
    let Some((first, later)) = names.split_first() else {
        return Ok(());
    };
    bytes.extend_from_slice(first)?;
    for name in later {
        bytes.push(b'/')?;
        bytes.extend_from_slice(name)?;
    }
    Ok(())
}

/// A path of Windows with small letters for A to Z and slashes for backslashes.
pub fn normalize_win_path(alloc: Global, path: &[u8]) -> Result<Vec<u8>, AllocError>
    ensures { IfOk result (λ normal. normal.items ≡ map win_byte path.now) }
{
    path.iter()
        .map(|byte| normal_win_byte(*byte))
        .collect(alloc)
}

fn normal_win_byte(byte: u8) -> u8
    ensures { result ≡ win_byte byte }
{
    if byte == b'\\' {
        b'/'
    } else {
        byte.to_ascii_lowercase()
    }
}
