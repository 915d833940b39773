//! Faults as they are printed.

use base_files::OsBytes;
use cmdlines::CommandError;
use cmdlines_base::{ArgParseError, ArgToStringError};
use cmdlines_response_files::ParseFault;
use std::alloc::{AllocError, Global};
use std::test::Fail;
use tests_kit::Checks;

#[test]
fn faults_without_words(rt: HostRuntime) -> Result<(), Fail> {
    let mut checks = Checks::new(rt.alloc());
    let ends = "the arguments end where a value should come";
    checks.prints(&ArgParseError::UnexpectedEndOfArgs, ends);
    let other = "not a kind of crate";
    checks.prints(&ArgParseError::Other(other), other);
    let memory = "no memory was left";
    checks.prints(&ArgParseError::Memory, memory);
    checks.prints(&ArgToStringError::Memory, memory);
    checks.prints(&ParseFault::Memory, memory);
    checks.prints(&CommandError::Memory, memory);
    let missing = "no object is among the outputs";
    checks.prints(&CommandError::NoObjOutput, missing);
    checks.end()
}

/// A word that is no text.
fn word(alloc: Global) -> Result<OsBytes, AllocError> {
    OsBytes::from_slice(alloc, b"a \"\n\xff")
}

/// A word is shown with escapes, and the name of a file is printed as it is.
#[test]
fn words_of_faults(rt: HostRuntime) -> Result<(), Fail> {
    let alloc = rt.alloc();
    let mut checks = Checks::new(alloc);
    let no_text = r#"an argument is not UTF-8: "a \"\n\xff""#;
    checks.prints(&ArgParseError::InvalidUnicode(word(alloc)?), no_text);
    checks.prints(&ArgToStringError::InvalidUnicode(word(alloc)?), no_text);
    let path = r#"a path cannot be transformed: "a \"\n\xff""#;
    checks.prints(&ArgToStringError::FailedPathTransform(word(alloc)?), path);
    let file = OsBytes::from_slice(alloc, b"/w/args")?;
    checks.prints(&ParseFault::Read(file), "cannot read /w/args");
    checks.end()
}
