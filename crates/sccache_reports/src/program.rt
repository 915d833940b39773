//! The program: it reads command lines, and prints what each comes to.

use crate::disk::snapshot_for;
pub use crate::fault::ReportFault;
use crate::fault::fault_of;
use crate::lines::text_of_lines;
use crate::report::{Shape, report_with_files, report_without_files};
use crate::request_texts::Detail;
use crate::usage::{Usage, help, usage_of};
use sccache_recorded_builds::Compilers;
use std::alloc::Global;
use std::io::{Read, Write};
use std::rt::Files;

/// Reads command lines from the reader to its end, and writes what they come to.
///
/// `args` are the arguments after the program's name. Nothing is written before all is read and decided.
pub fn run<D: Files, R: Read, W: Write>(
    alloc: Global,
    args: &[String],
    disk: &D,
    reader: &mut R,
    writer: &mut W,
) -> Result<(), ReportFault> {
    let Some(usage) = usage_of(args) else {
        return Err(ReportFault::Arguments);
    };
    if usage == Usage::Help {
        let text = help(alloc)?;
        return write_text(writer, text.as_str());
    }
    let input = whole_text(alloc, reader)?;
    let text = match usage {
        Usage::Help => String::new(alloc),
        Usage::Lines(compiler, shown) => text_of_lines(alloc, compiler, shown, input.as_slice())?,
        Usage::Report { lists, commands } => {
            let detail = if lists { Detail::Lists } else { Detail::Short };
            text_of_report(alloc, disk, Shape { detail, commands }, input.as_slice())?
        }
    };
    write_text(writer, text.as_str())
}

/// The report on a database. Where its entries ask for files, these are all read from the disk before an entry is decided with them.
fn text_of_report<D: Files>(
    alloc: Global,
    disk: &D,
    shape: Shape,
    database: &[u8],
) -> Result<String, ReportFault> {
    let compilers = Compilers::new(alloc)?;
    let report = text_by(alloc, disk, &compilers, shape, database);
    drop(compilers);
    report
}

/// The report by these compilers.
fn text_by<D: Files>(
    alloc: Global,
    disk: &D,
    compilers: &Compilers,
    shape: Shape,
    database: &[u8],
) -> Result<String, ReportFault> {
    if let Some(text) = report_without_files(alloc, compilers, shape, database)? {
        return Ok(text);
    }
    let files = snapshot_for(alloc, disk, compilers, database)?;
    report_with_files(alloc, compilers, shape, database, files)
}

/// What the reader gives to its end.
fn whole_text<R: Read>(alloc: Global, reader: &mut R) -> Result<Vec<u8>, ReportFault> {
    let mut bytes = Vec::new(alloc);
    reader
        .read_to_end(&mut bytes)
        .map_err(|error| fault_of(&error, ReportFault::Input))?;
    Ok(bytes)
}

fn write_text<W: Write>(writer: &mut W, text: &str) -> Result<(), ReportFault> {
    writer
        .write_all(text.as_bytes())
        .and_then(|_| writer.flush())
        .map_err(|error| fault_of(&error, ReportFault::Output))
}
