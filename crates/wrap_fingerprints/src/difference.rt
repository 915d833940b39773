//! A difference of two fingerprints, written for people.

ghost use Rattle.std.specs.Prelude.{◌≡◌, slice_get};
ghost use Rattle.std.specs.Option.{option_copied};

use crate::c_parts::CParts;
use crate::explain::explain;
use crate::fingerprint::Fingerprint;
use crate::part::Part;
use base_files::{Lossy, OsBytes};
use ckeys_records::output_name::OutputName;
use rustc_parts::parts::{EnvDep, Parts};
use std::fmt;

/// Where a request differs from an earlier one: printed, it names the first part in which they differ, where in it that begins (the
/// word, the variable, the line of the text, the file), and what is there in each: `word 2: -DA=2, earlier -DA=1`. Bytes that are
/// no UTF-8 are shown as U+FFFD.
#[derive(Drop)]
pub struct Difference<'a> {
    pub one: &'a Fingerprint,
    pub earlier: &'a Fingerprint,
}

/// Something where it is there, and else `none`.
#[derive(Drop)]
struct OrNone<T>(Option<T>);

impl<T: fmt::Display> fmt::Display for OrNone<T> {
    fn fmt<W: fmt::Write>(&self, f: &mut fmt::Formatter<W>) -> fmt::Result {
        match &self.0 {
            Some(shown) => write!(f, "{shown}"),
            None => write!(f, "none"),
        }
    }
}

/// An output's name with its mark.
#[derive(Drop)]
struct Marked<'a>(&'a OutputName);

impl<'a> fmt::Display for Marked<'a> {
    fn fmt<W: fmt::Write>(&self, f: &mut fmt::Formatter<W>) -> fmt::Result {
        let mark = if self.0.optional { " (optional)" } else { "" };
        write!(f, "{}{mark}", self.0.name)
    }
}

/// A variable that the source names, with its value, or `not set`.
#[derive(Drop)]
struct Named<'a>(&'a EnvDep);

impl<'a> fmt::Display for Named<'a> {
    fn fmt<W: fmt::Write>(&self, f: &mut fmt::Formatter<W>) -> fmt::Result {
        match &self.0.value {
            Some(value) => write!(f, "{}={value}", self.0.name),
            None => write!(f, "{} not set", self.0.name),
        }
    }
}

/// A variable with its value.
#[derive(Drop)]
struct Variable<'a>(&'a (OsBytes, OsBytes));

impl<'a> fmt::Display for Variable<'a> {
    fn fmt<W: fmt::Write>(&self, f: &mut fmt::Formatter<W>) -> fmt::Result {
        write!(f, "{}={}", self.0.0, self.0.1)
    }
}

/// What comes in two rows after as many items: how many those are, and the next item of each side, where it has one.
#[derive(Drop)]
struct Sides<T> {
    ahead: usize,
    here: Option<T>,
    there: Option<T>,
}

/// How many of the first items are equal.
fn equal_ahead<T: PartialEq>(one: &[T], earlier: &[T]) -> usize {
    let pairs = one.iter().zip(earlier.iter());
    pairs.take_while(|pair| pair.0 == pair.1).count()
}

/// The first items in which two rows differ, each of its own side.
fn both_sides<'a, T: PartialEq>(one: &'a [T], earlier: &'a [T]) -> Sides<&'a T>
    ensures here { option_copied result.here ≡ slice_get one.now result.ahead }
    ensures there { option_copied result.there ≡ slice_get earlier.now result.ahead }
{
    let ahead = equal_ahead(one, earlier);
    Sides {
        ahead,
        here: one.get(ahead),
        there: earlier.get(ahead),
    }
}

/// What the first line holds in which two texts differ.
fn write_line<W: fmt::Write>(
    f: &mut fmt::Formatter<W>,
    one: &OsBytes,
    earlier: &OsBytes,
) -> fmt::Result {
    let lines = one.as_bytes().split(|byte| *byte == b'\n');
    let pairs = lines.zip(earlier.as_bytes().split(|byte| *byte == b'\n'));
    let ahead = pairs.take_while(|pair| pair.0 == pair.1).count();
    let number = ahead.saturating_add(1);
    let here = OrNone(line_at(one, ahead));
    let there = OrNone(line_at(earlier, ahead));
    write!(f, "line {number}: {here}, earlier {there}")
}

/// The line after so many others, where there is one.
fn line_at(text: &OsBytes, ahead: usize) -> Option<Lossy<'_>> {
    let mut lines = text.as_bytes().split(|byte| *byte == b'\n');
    let bytes = lines.nth(ahead)?;
    Some(Lossy { bytes })
}

/// Names a kind of things, the number of the first one that differs, and what it is in each.
fn write_first<W: fmt::Write>(
    f: &mut fmt::Formatter<W>,
    what: &str,
    one: &[OsBytes],
    earlier: &[OsBytes],
) -> fmt::Result {
    let sides = both_sides(one, earlier);
    let number = sides.ahead.saturating_add(1);
    let here = OrNone(sides.here);
    let there = OrNone(sides.there);
    write!(f, "{what} {number}: {here}, earlier {there}")
}

fn write_variables<W: fmt::Write>(
    f: &mut fmt::Formatter<W>,
    one: &[(OsBytes, OsBytes)],
    earlier: &[(OsBytes, OsBytes)],
) -> fmt::Result {
    let sides = both_sides(one, earlier);
    let here = OrNone(sides.here.map(|pair| Variable(pair)));
    let there = OrNone(sides.there.map(|pair| Variable(pair)));
    write!(f, "variable: {here}, earlier {there}")
}

fn write_env_deps<W: fmt::Write>(
    f: &mut fmt::Formatter<W>,
    one: &[EnvDep],
    earlier: &[EnvDep],
) -> fmt::Result {
    let sides = both_sides(one, earlier);
    let here = OrNone(sides.here.map(|dep| Named(dep)));
    let there = OrNone(sides.there.map(|dep| Named(dep)));
    write!(f, "variable of the source: {here}, earlier {there}")
}

fn write_names<W: fmt::Write>(
    f: &mut fmt::Formatter<W>,
    one: &[OutputName],
    earlier: &[OutputName],
) -> fmt::Result {
    let sides = both_sides(one, earlier);
    let number = sides.ahead.saturating_add(1);
    let here = OrNone(sides.here.map(|name| Marked(name)));
    let there = OrNone(sides.there.map(|name| Marked(name)));
    write!(f, "output {number}: {here}, earlier {there}")
}

fn write_optional<W: fmt::Write>(
    f: &mut fmt::Formatter<W>,
    part: Part,
    one: &Option<OsBytes>,
    earlier: &Option<OsBytes>,
) -> fmt::Result {
    let here = OrNone(one.as_ref());
    let there = OrNone(earlier.as_ref());
    write!(f, "{part}: {here}, earlier {there}")
}

/// What this part holds in two requests to a C compiler.
fn write_c<W: fmt::Write>(
    f: &mut fmt::Formatter<W>,
    part: Part,
    one: &CParts,
    earlier: &CParts,
) -> fmt::Result {
    match part {
        Part::Compiler => write!(f, "{part}: {}, earlier {}", one.compiler, earlier.compiler),
        Part::Plusplus => write!(f, "{part}: {}, earlier {}", one.plusplus, earlier.plusplus),
        Part::Language => {
            let here = one.language.as_str();
            write!(f, "{part}: {here}, earlier {}", earlier.language.as_str())
        }
        Part::Words => write_first(f, "word", one.words.as_slice(), earlier.words.as_slice()),
        Part::Variables => {
            write_variables(f, one.variables.as_slice(), earlier.variables.as_slice())
        }
        Part::ExtraContents => {
            let others = earlier.extra_hashes.as_slice();
            write_first(f, "extra file", one.extra_hashes.as_slice(), others)
        }
        Part::Assembler => write_optional(f, part, &one.assembler, &earlier.assembler),
        Part::Text => write_line(f, &one.text, &earlier.text),
        Part::Names => write_names(f, one.names.as_slice(), earlier.names.as_slice()),
        // Parts of rustc, which differ in no two such requests.
        _ => write!(f, "{part}"),
    }
}

/// What one item is called of the row that this part of a request to rustc is, and the row.
fn row_of(parts: &Parts, part: Part) -> Option<(&'static str, &[OsBytes])> {
    match part {
        Part::Toolchain => Some(("file of the toolchain", parts.toolchain.as_slice())),
        Part::KeptWords => Some(("word", parts.words.as_slice())),
        Part::Sources => Some(("source", parts.sources.as_slice())),
        Part::Externs => Some(("crate", parts.externs.as_slice())),
        Part::Archives => Some(("static library", parts.archives.as_slice())),
        _ => None,
    }
}

/// What this part holds in two requests to rustc.
fn write_rustc<W: fmt::Write>(
    f: &mut fmt::Formatter<W>,
    part: Part,
    one: &Parts,
    earlier: &Parts,
) -> fmt::Result {
    if let (Some((what, row)), Some((_, others))) = (row_of(one, part), row_of(earlier, part)) {
        return write_first(f, what, row, others);
    }
    match part {
        Part::Version => write_line(f, &one.version, &earlier.version),
        Part::Target => write_optional(f, part, &one.target, &earlier.target),
        Part::Profile => write_optional(f, part, &one.profile, &earlier.profile),
        Part::EnvDeps => write_env_deps(f, one.env_deps.as_slice(), earlier.env_deps.as_slice()),
        Part::CargoPairs => {
            write_variables(f, one.variables.as_slice(), earlier.variables.as_slice())
        }
        Part::Directory => write!(f, "{part}: {}, earlier {}", one.dir, earlier.dir),
        // Parts of C compilers, which differ in no two such requests.
        _ => write!(f, "{part}"),
    }
}

/// The family of a request.
fn family(fingerprint: &Fingerprint) -> &'static str {
    match fingerprint {
        Fingerprint::C(_) => "c",
        Fingerprint::Rustc(_, _) => "rustc",
    }
}

impl<'a> fmt::Display for Difference<'a> {
    fn fmt<W: fmt::Write>(&self, f: &mut fmt::Formatter<W>) -> fmt::Result {
        let Some(part) = explain(self.one, self.earlier) else {
            return write!(f, "nothing differs");
        };
        match (self.one, self.earlier) {
            (Fingerprint::C(one), Fingerprint::C(earlier)) => write_c(f, part, one, earlier),
            (Fingerprint::Rustc(one, names), Fingerprint::Rustc(earlier, others)) => match part {
                Part::Names => write_names(f, names.as_slice(), others.as_slice()),
                _ => write_rustc(f, part, one, earlier),
            },
            (one, earlier) => write!(f, "{part}: {}, earlier {}", family(one), family(earlier)),
        }
    }
}
