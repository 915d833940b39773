//! Values of JSON that are passed over.

use crate::fault::ReportFault;
use json::{Reader, Token};

/// Passes over what is left of the value that this token begins. The values in it may nest so deep.
pub(crate) fn skip_rest(
    reader: &mut Reader<'_>,
    begin: Token<'_>,
    depth: usize,
) -> Result<(), ReportFault> {
    match begin {
        Token::String(_) | Token::Number(_) | Token::Bool(_) | Token::Null => Ok(()),
        Token::BeginArray => skip_items(reader, depth),
        Token::BeginObject => skip_members(reader, depth),
        Token::EndObject | Token::EndArray | Token::Key(_) | Token::Bad => {
            Err(ReportFault::NotJson)
        }
    }
}

/// Passes over the items of a list up to its end.
fn skip_items(reader: &mut Reader<'_>, depth: usize) -> Result<(), ReportFault> {
    for _ in 0..u64::MAX {
        if reader.take_end_array() {
            return Ok(());
        }
        reader.skip_value(depth)?;
    }
    Err(ReportFault::NotJson)
}

/// Passes over the members of an object up to its end.
fn skip_members(reader: &mut Reader<'_>, depth: usize) -> Result<(), ReportFault> {
    for _ in 0..u64::MAX {
        if reader.next_key()?.is_none() {
            return Ok(());
        }
        reader.skip_value(depth)?;
    }
    Err(ReportFault::NotJson)
}
