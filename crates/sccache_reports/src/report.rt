//! The report on a database: a line for each entry, and a summary.

ghost use Rattle.std.specs.Prelude.{◌≡◌, [], ◌∷◌, ◌++◌, OnOk};
ghost use Rattle.sccache_recorded_builds.specs.Summaries.{HasTold};

use crate::database::{TakesEntries, read_database};
use crate::fault::ReportFault;
use crate::request_texts::{Detail, write_compile, write_kept, write_preprocess};
use crate::tally::write_rows;
use crate::texts::push_line;
use base_files::OsBytes;
use cmdlines_base::CompilerArguments;
use sccache_recorded_builds::{
    Asked, Compilers, Decided, Entry, EntryReport, Lines, ReportedEntries, Summary,
};
use std::alloc::{AllocError, Global};
use std::fmt::Write;

/// What a report shows beside the verdicts.
#[derive(Clone, Copy, Debug, PartialEq, Eq)]
pub(crate) struct Shape {
    pub(crate) detail: Detail,
    /// The words of the commands as well.
    pub(crate) commands: bool,
}

/// The lines of a report so far.
#[derive(Drop)]
struct ReportLines<'a> {
    alloc: Global,
    compilers: &'a Compilers,
    shape: Shape,
    text: String,
    /// An entry asked for a file that isn't among those that are known.
    has_asked: bool,
}

/// Adds the words of the commands of an entry that is kept, a line each.
fn write_commands(
    alloc: Global,
    text: &mut String,
    compilers: &Compilers,
    decided: &Decided,
) -> Result<(), AllocError> {
    match decided {
        Decided::C(_, CompilerArguments::Ok(_)) => {
            push_compile(alloc, text, "  compile", compilers, decided)?;
            push_preprocess(alloc, text, compilers, decided)
        }
        Decided::Rustc(CompilerArguments::Ok(_)) => {
            push_compile(alloc, text, "  compile ", compilers, decided)
        }
        _ => Ok(()),
    }
}

/// Adds the line of a compile, with that at its front.
fn push_compile(
    alloc: Global,
    text: &mut String,
    front: &str,
    compilers: &Compilers,
    decided: &Decided,
) -> Result<(), AllocError> {
    let mut line = String::from_str(alloc, front)?;
    write_compile(alloc, &mut line, compilers, decided)?;
    push_line(text, line.as_str())
}

/// Adds the line of a preprocessor's run.
fn push_preprocess(
    alloc: Global,
    text: &mut String,
    compilers: &Compilers,
    decided: &Decided,
) -> Result<(), AllocError> {
    let mut line = String::from_str(alloc, "  preprocess")?;
    write_preprocess(alloc, &mut line, compilers, decided)?;
    push_line(text, line.as_str())
}

/// Adds what follows what is kept or why not: response files that aren't there, and options to beware of.
fn write_marks(
    text: &mut String,
    missing: &[OsBytes],
    beware: &[&'static str],
) -> Result<(), AllocError> {
    for path in missing {
        write!(text, "; no file {path}")?;
    }
    for option in beware {
        write!(text, "; beware {option}")?;
    }
    Ok(())
}

impl<'a> Lines for ReportLines<'a> {
    fn tell(
        &mut self,
        number: u64,
        _entry: &Entry,
        report: &EntryReport,
        files: &Asked,
    ) -> Result<(), AllocError> {
        if !files.read.is_empty() || !files.looked_for.is_empty() {
            self.has_asked = true;
        }
        let text = &mut self.text;
        let mut line = String::new(self.alloc);
        match &report.reason {
            Some(reason) => write!(line, "{number} pass {reason}")?,
            None => {
                write!(line, "{number} keeps ")?;
                write_kept(&mut line, &report.decided, self.shape.detail)?;
            }
        }
        write_marks(&mut line, files.read.as_slice(), report.beware.as_slice())?;
        push_line(text, line.as_str())?;
        if self.shape.commands {
            write_commands(self.alloc, text, self.compilers, &report.decided)?;
        }
        Ok(())
    }
}

/// Adds the summary.
fn write_summary(alloc: Global, text: &mut String, summary: &Summary) -> Result<(), AllocError> {
    let (entries, kept) = (summary.entries, summary.kept);
    write!(text, "\nentries {entries}\nkept {kept}\n")?;
    write_rows(alloc, text, "passed through", summary.reasons.as_slice())?;
    write_rows(
        alloc,
        text,
        "without direct mode",
        summary.blockers.as_slice(),
    )?;
    write_rows(alloc, text, "beware", summary.beware.as_slice())
}

/// A report on the entries that were taken so far.
#[derive(Drop)]
struct Report<'a> {
    files: Asked,
    reported: ReportedEntries,
    lines: ReportLines<'a>,
}

impl<'a> Report<'a> {
    /// The report on no entries, with these response files for those that come.
    fn new(alloc: Global, compilers: &'a Compilers, shape: Shape, files: Asked) -> Report<'a> {
        Report {
            files,
            reported: ReportedEntries::new(alloc),
            lines: ReportLines {
                alloc,
                compilers,
                shape,
                text: String::new(alloc),
                has_asked: false,
            },
        }
    }

    /// Its text.
    fn into_text(self) -> Result<String, AllocError> {
        let Report {
            reported,
            lines,
            ..
        } = self;
        let summary = reported.into_summary(lines.alloc)?;
        let ReportLines {
            alloc,
            mut text,
            ..
        } = lines;
        write_summary(alloc, &mut text, &summary)?;
        Ok(text)
    }
}

impl<'a> TakesEntries for Report<'a> {
    fn take(&mut self, entry: &Entry) -> Result<(), ReportFault>
        // The entry is reported after those before it, with the same files.
        ensures told { OnOk result ((entries : _)
            → HasTold self.old.files.files entries self.old.reported
            → HasTold self.old.files.files (entries ++ entry.now ∷ []) self.new.reported) }
        ensures tree { self.new.files.files ≡ self.old.files.files }
    {
        let (alloc, compilers) = (self.lines.alloc, self.lines.compilers);
        self.reported
            .tell(alloc, compilers, entry, &mut self.files, &mut self.lines)?;
        Ok(())
    }
}

/// A report that is given up where an entry asks for a file that isn't known.
#[derive(Drop)]
struct FirstReport<'a> {
    report: Report<'a>,
}

impl<'a> TakesEntries for FirstReport<'a> {
    fn take(&mut self, entry: &Entry) -> Result<(), ReportFault> {
        if self.report.lines.has_asked {
            return Ok(());
        }
        self.report.take(entry)
    }
}

/// The report on a database whose entries ask for no files. None where one of them does.
pub(crate) fn report_without_files(
    alloc: Global,
    compilers: &Compilers,
    shape: Shape,
    database: &[u8],
) -> Result<Option<String>, ReportFault> {
    let report = Report::new(alloc, compilers, shape, Asked::new(alloc));
    let mut first = FirstReport { report };
    read_database(alloc, database, &mut first)?;
    let FirstReport { report } = first;
    if report.lines.has_asked {
        return Ok(None);
    }
    Ok(Some(report.into_text()?))
}

/// The report on a database, with these files for its entries.
pub(crate) fn report_with_files(
    alloc: Global,
    compilers: &Compilers,
    shape: Shape,
    database: &[u8],
    files: Asked,
) -> Result<String, ReportFault> {
    let mut report = Report::new(alloc, compilers, shape, files);
    read_database(alloc, database, &mut report)?;
    Ok(report.into_text()?)
}
