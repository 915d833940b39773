//! Words of a line, and files of rows.

use base_files::{FileTime, MemoryFile, MemoryFiles, OsBytes};
use std::alloc::{AllocError, Global};

/// The words between spaces; an empty line has none.
pub fn words(alloc: Global, line: &str) -> Result<Vec<OsBytes>, AllocError> {
    let mut list = Vec::new(alloc);
    if line.is_empty() {
        return Ok(list);
    }
    for word in line.as_bytes().split(|byte| *byte == b' ') {
        list.push(OsBytes::from_slice(alloc, word)?)?;
    }
    Ok(list)
}

/// Adds a regular file of that path with these contents, last changed at second 0.
pub fn insert(
    alloc: Global,
    files: &mut MemoryFiles,
    path: &str,
    contents: &[u8],
) -> Result<(), AllocError> {
    let path = OsBytes::from_slice(alloc, path.as_bytes())?;
    let contents = OsBytes::from_slice(alloc, contents)?;
    let mtime = FileTime::from_seconds(0);
    files.insert(path, MemoryFile { contents, mtime })
}

/// Regular files of these paths with these contents, last changed at second 0.
pub fn files_of(alloc: Global, rows: &[(&str, &[u8])]) -> Result<MemoryFiles, AllocError> {
    let mut files = MemoryFiles::new(alloc);
    for (path, contents) in rows.iter() {
        insert(alloc, &mut files, path, contents)?;
    }
    Ok(files)
}
