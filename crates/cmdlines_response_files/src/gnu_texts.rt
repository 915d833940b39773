//! The GNU grammar of response texts.

ghost use Rattle.std.specs.Prelude.{◌≡◌, ◌<◌, [], ◌∷◌, ◌++◌, IfOk, OnOk, length};
ghost use Rattle.std.specs.List.{AllByRecursion};
ghost use Rattle.std.specs.Option.{option_to_list};
ghost use Rattle.base_files.specs.Bytes.{Bytes};
ghost use Rattle.cmdlines_response_files.specs.Gathering.{gathered};
ghost use Rattle.cmdlines_response_files.specs.Gnu.{IsGnuText, is_quote, is_white};
ghost use Rattle.cmdlines_response_files.specs.Scanning.{arguments_with, begun_by, gnu_arguments, gnu_marks};

use crate::text_laws::gnu_texts_have_one_reading;
use base_files::OsBytes;
use std::alloc::{AllocError, Global};
use std::mem;

fn is_white(byte: u8) -> bool
    ensures { result ≡ is_white byte }
{
    byte == b' ' || (byte > 8 && byte < 14)
}

fn is_quote(byte: u8) -> bool
    ensures { result ≡ is_quote byte }
{
    byte == b'"' || byte == b'\''
}

/// The state so far of cutting a text.
#[derive(Drop)]
struct Scanner {
    arguments: Vec<OsBytes>,
    /// The argument that has begun, or nothing.
    current: Vec<u8>,
    /// The quote whose run is open.
    quote: Option<u8>,
    /// Whether a backslash has just come.
    escaped: bool,
}

impl Scanner {
    /// The argument ends here, if one has begun.
    fn end_argument(&mut self, alloc: Global) -> Result<(), AllocError>
        ensures arguments { OnOk result
            (self.new.arguments.items
            ≡ self.old.arguments.items ++ option_to_list (begun_by self.old.current.items)) }
        ensures current { OnOk result (self.new.current.items ≡ []) }
        ensures quote { self.new.quote ≡ self.old.quote }
        ensures escaped { self.new.escaped ≡ self.old.escaped }
    {
        let argument = mem::replace(&mut self.current, Vec::new(alloc));
        if !argument.is_empty() {
            self.arguments.push(OsBytes::from_vec(argument))?;
        }
        Ok(())
    }

    /// Takes the next byte of the text.
    fn feed(&mut self, alloc: Global, byte: u8) -> Result<(), AllocError>
        ensures { OnOk result
            ((rest : Bytes)
            → arguments_with self.new.arguments.items self.new.current.items
            (gnu_marks self.new.escaped self.new.quote rest)
            ≡ arguments_with self.old.arguments.items self.old.current.items
            (gnu_marks self.old.escaped self.old.quote (byte ∷ rest))) }
    {
        if self.escaped {
            self.escaped = false;
            self.current.push(byte)?;
            return Ok(());
        }
        if byte == b'\\' {
            self.escaped = true;
            return Ok(());
        }
        match self.quote {
            None => {
                if is_quote(byte) {
                    self.quote = Some(byte);
                } else if is_white(byte) {
                    self.end_argument(alloc)?;
                } else {
                    self.current.push(byte)?;
                }
            }
            Some(quote) => {
                if byte == quote {
                    self.quote = None;
                } else {
                    self.current.push(byte)?;
                }
            }
        }
        Ok(())
    }
}

/// The arguments of a response text by the GNU grammar: white space separates them, `'` and `"` group, and a backslash takes the
/// next byte as it is. None of them is empty.
pub fn split_gnu_response_file_args(alloc: Global, text: &[u8]) -> Result<Vec<OsBytes>, AllocError>
    ensures arguments { IfOk result (λ arguments. IsGnuText text.now arguments.items) }
    ensures full { IfOk result
        (λ arguments. AllByRecursion (λ (argument : Bytes). 0 < length argument) arguments.items) }
    ensures value { IfOk result (λ arguments. arguments.items ≡ gnu_arguments text.now) }
{
    // A law, which costs nothing: what follows from it is said above.
    gnu_texts_have_one_reading();
    let mut scanner = Scanner {
        arguments: Vec::new(alloc),
        current: Vec::new(alloc),
        quote: None,
        escaped: false,
    };
    for byte in text {
        scanner.feed(alloc, *byte)?;
    }
    scanner.end_argument(alloc)?;
    Ok(scanner.arguments)
}
