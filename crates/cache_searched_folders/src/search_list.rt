//! The folders in which a compiler looks for what sources include, as it reports them.

use std::alloc::{AllocError, Global};

/// What a compiler says where its list begins, goes on and ends.
const QUOTED: &str = "#include \"...\" search starts here:";

const BRACKETED: &str = "#include <...> search starts here:";

const END: &str = "End of search list.";

/// What it says of a folder that it leaves out: it isn't there, or is one of the others.
const LEFT_OUT: [&str; 2] = [
    "ignoring nonexistent directory \"",
    "ignoring duplicate directory \"",
];

/// How a GCC's line ends on what it should look in and is no folder: that may become one.
const NO_FOLDER: &str = ": not a directory";

/// What Clang says of a GCC whose headers it may take.
const INSTALLATIONS: [&str; 2] = [
    "Found candidate GCC installation: ",
    "Selected GCC installation: ",
];

/// The folders in which a compiler looks, in this order.
#[derive(Drop)]
pub struct SearchList<'a> {
    /// For names in quotes alone.
    pub quoted: Vec<&'a str>,
    /// For all names.
    pub bracketed: Vec<&'a str>,
    /// Those that it leaves out, since they aren't there or are one of the others.
    pub left_out: Vec<&'a str>,
    /// Where it found a GCC.
    pub installations: Vec<&'a str>,
}

/// Which part of the list a line is in.
#[derive(Clone, Copy, PartialEq, Eq)]
enum Part {
    Before,
    Quoted,
    Bracketed,
    After,
}

/// What comes after one of these at the front of a line.
fn after_front<'a>(line: &'a str, fronts: &[&str]) -> Option<&'a str> {
    for front in fronts {
        if let Some(rest) = line.strip_prefix(*front) {
            return Some(rest);
        }
    }
    None
}

impl<'a> SearchList<'a> {
    /// No folders.
    fn new(alloc: Global) -> SearchList<'a> {
        SearchList {
            quoted: Vec::new(alloc),
            bracketed: Vec::new(alloc),
            left_out: Vec::new(alloc),
            installations: Vec::new(alloc),
        }
    }

    /// Takes a line outside of the list.
    fn take_remark(&mut self, line: &'a str) -> Result<(), AllocError> {
        if let Some(folder) = after_front(line, &LEFT_OUT) {
            self.left_out.push(folder.trim_end_matches('"'))?;
        }
        if let Some(folder) = after_front(line, &INSTALLATIONS) {
            self.installations.push(folder)?;
        }
        Ok(())
    }

    /// Takes a line, and says in which part the next one is.
    fn take(&mut self, part: Part, line: &'a str) -> Result<Part, AllocError> {
        match line {
            QUOTED => return Ok(Part::Quoted),
            BRACKETED => return Ok(Part::Bracketed),
            END => return Ok(Part::After),
            _ => {}
        }
        match (part, line.strip_prefix(' ')) {
            (Part::Quoted, Some(folder)) => self.quoted.push(folder)?,
            (Part::Bracketed, Some(folder)) => self.bracketed.push(folder)?,
            (_, _) => self.take_remark(line)?,
        }
        Ok(part)
    }

    /// The list in what a compiler prints beside the text when it is asked to say what it does. None where there is none, or where it is to look in what
    /// is no folder.
    pub fn read(alloc: Global, said: &'a [u8]) -> Result<Option<SearchList<'a>>, AllocError> {
        let Ok(said) = str::from_utf8(said) else {
            return Ok(None);
        };
        let mut list = SearchList::new(alloc);
        let mut part = Part::Before;
        for line in said.split('\n') {
            if line.ends_with(NO_FOLDER) {
                return Ok(None);
            }
            part = list.take(part, line)?;
        }
        Ok(match part {
            Part::After => Some(list),
            _ => None,
        })
    }
}
