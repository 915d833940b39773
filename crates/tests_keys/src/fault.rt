//! Faults and failures as they are printed.

use base_files::{FileFail, OsBytes};
use base_formats::ReadFault;
use ckeys_records::{ConfigError, Fault, Step, ToolFail};
use ckeys_time_macros::ZoneError;
use rustkeys::{RustFault, TextFault};
use std::alloc::{AllocError, Global};
use std::test::Fail;
use tests_kit::Checks;

#[test]
fn faults_are_printed(rt: HostRuntime) -> Result<(), Fail> {
    let mut checks = Checks::new(rt.alloc());
    checks.prints(&Fault::Memory, "memory");
    checks.prints(&Fault::Tool(Step::Preprocess), "tool preprocess");
    checks.prints(&Fault::Tool(Step::Compile), "tool compile");
    checks.prints(&Fault::Tool(Step::DepInfo), "tool dep-info");
    checks.prints(&Fault::Tool(Step::FileNames), "tool file-names");
    checks.prints(&Fault::Tool(Step::ArchiveDigest), "tool archive-digest");
    checks.prints(&Fault::PreprocessFailed(1), "preprocess 1");
    checks.prints(&Fault::CompileFailed(-9), "compile -9");
    checks.prints(&Fault::NoRule, "rule");
    let answer = Fault::AnswerNotUtf8(Step::FileNames);
    checks.prints(&answer, "answer file-names");
    checks.end()
}

/// A word of a fault.
fn word(alloc: Global) -> Result<OsBytes, AllocError> {
    OsBytes::from_slice(alloc, b"/w/z")
}

#[test]
fn words_of_faults_are_printed(rt: HostRuntime) -> Result<(), Fail> {
    let alloc = rt.alloc();
    let mut checks = Checks::new(alloc);
    checks.prints(&Fault::Read(word(alloc)?), "read /w/z");
    checks.prints(&Fault::MissingOutput(word(alloc)?), "missing /w/z");
    checks.prints(&Fault::BadDigest(word(alloc)?), "digest /w/z");
    let folder = ConfigError::BadFolder(word(alloc)?);
    checks.prints(&folder, "no absolute folder: /w/z");
    checks.end()
}

#[test]
fn failures_are_printed(rt: HostRuntime) -> Result<(), Fail> {
    let mut checks = Checks::new(rt.alloc());
    checks.prints(&ToolFail::Device, "the tool's device failed");
    checks.prints(&FileFail::Device, "a device of files failed");
    checks.prints(&ConfigError::Memory, "no memory was left");
    checks.prints(&ZoneError::NoRule, "the zone is no POSIX rule");
    checks.prints(&ReadFault::Unfit, "the bytes spell no such field");
    checks.end()
}

#[test]
fn faults_of_rustc_are_printed(rt: HostRuntime) -> Result<(), Fail> {
    let alloc = rt.alloc();
    let mut checks = Checks::new(alloc);
    checks.prints(&RustFault::Read(word(alloc)?), "cannot read /w/z");
    checks.prints(&RustFault::NoHost, "the version tells no host");
    checks.prints(&RustFault::Memory, "no memory was left");
    checks.prints(&TextFault::NoRule, "the text starts with no rule");
    checks.prints(&TextFault::Memory, "no memory was left");
    checks.end()
}
