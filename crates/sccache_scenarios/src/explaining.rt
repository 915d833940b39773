//! What is to be said of a request that was compiled: in which part, and where, it differs from the latest earlier one with the same
//! outputs.

use base_files::{Listed, OsBytes};
use std::alloc::{AllocError, Global};
use std::collections::HashMap;
use wrap::{Answer, Fault, Fingerprint, How};
use wrap_base::Output;
use wrap_fingerprints::Difference;

/// The outputs of a request: the name of each, and where it is wanted.
type Wanted = Listed<(OsBytes, OsBytes)>;

/// The fingerprints of the requests so far, each by its outputs; of those with the same outputs the latest one.
#[derive(Drop)]
pub(crate) struct Explainer {
    earlier: HashMap<Wanted, Fingerprint>,
}

/// The outputs' names and paths.
fn wanted(alloc: Global, outputs: &[Output]) -> Result<Wanted, AllocError> {
    let mut wanted = Vec::with_capacity(alloc, outputs.len())?;
    for output in outputs {
        wanted.push((output.name.clone()?, output.path.clone()?))?;
    }
    Ok(Listed::from_vec(wanted))
}

/// Puts a remark at the end of a line. A line end that it holds is shown as U+FFFD, so that the line stays one.
fn push_after(line: &mut String, remark: &str) -> Result<(), AllocError> {
    line.push_str(" #")?;
    let mut mark = ' ';
    for piece in remark.split('\n') {
        line.push(mark)?;
        line.push_str(piece)?;
        mark = '\u{fffd}';
    }
    Ok(())
}

/// Puts at the end of a line how a request differs from the latest earlier one with the same outputs, or that there was none.
fn push_reason(
    alloc: Global,
    one: &Fingerprint,
    earlier: Option<&Fingerprint>,
    line: &mut String,
) -> Result<(), AllocError> {
    match earlier {
        Some(earlier) => {
            let difference = format!(in alloc; "{}", Difference { one, earlier })?;
            push_after(line, difference.as_str())
        }
        None => push_after(line, "first with these outputs"),
    }
}

impl Explainer {
    /// One that has seen no request.
    pub(crate) fn new(alloc: Global) -> Explainer {
        Explainer {
            earlier: HashMap::new(alloc),
        }
    }

    /// Puts at the end of a line what is to be said of this answer to a request of that fingerprint, if anything: of outputs that were
    /// compiled, how the request differs from the latest earlier one with the same outputs, or that there was none. It is the latest
    /// one from now on.
    pub(crate) fn push_remark(
        &mut self,
        alloc: Global,
        made: &mut Option<Fingerprint>,
        answer: &Result<Answer, Fault>,
        line: &mut String,
    ) -> Result<(), AllocError> {
        let Some(one) = made.as_ref() else {
            return Ok(());
        };
        match self.remark(alloc, one, answer, line)? {
            Some(outputs) => self.keep(outputs, made.take()),
            None => Ok(()),
        }
    }

    /// Puts what is to be said at the end of a line, and gives the outputs that were answered, if any were.
    fn remark(
        &self,
        alloc: Global,
        made: &Fingerprint,
        answer: &Result<Answer, Fault>,
        line: &mut String,
    ) -> Result<Option<Wanted>, AllocError> {
        let Ok(Answer::Outputs { map, how, .. }) = answer else {
            return Ok(None);
        };
        let outputs = wanted(alloc, map.as_slice())?;
        if matches!(how, How::Fresh) {
            push_reason(alloc, made, self.earlier.get(&outputs), line)?;
        }
        Ok(Some(outputs))
    }

    /// Keeps the fingerprint of the latest request with these outputs, where it has one.
    fn keep(&mut self, outputs: Wanted, made: Option<Fingerprint>) -> Result<(), AllocError> {
        if let Some(made) = made {
            drop(self.earlier.insert(outputs, made)?);
        }
        Ok(())
    }
}
