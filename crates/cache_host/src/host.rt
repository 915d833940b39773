//! What the host is asked to run. A message is preceded by its length in eight bytes, low byte first.

ghost use Rattle.std.specs.Prelude.{◌≡◌};

use crate::fields::Fields;
use crate::host_error::HostError;
use base_files::OsBytes;
use base_formats::{put_framed, put_number};
use std::alloc::Global;
use std::io;
use std::io::{Read, Write};

/// The longest message that is taken.
const LONGEST: u64 = 1 << 28;

/// The letters of what is asked for: a preprocessor, whose text goes to the place that the host named, the compile, or a line in a log.
const PREPROCESS: u8 = b'P';

const COMPILE: u8 = b'C';

/// Those of questions for a server: what it has under a name, which goes to the place of the list; and what lies there is to be stored under
/// a name, once the call is answered.
const FETCH: u8 = b'F';

const SEND: u8 = b'S';

const LOG: u8 = b'L';

/// What a command came to.
#[derive(Drop)]
pub struct Ended {
    pub status: i32,
    /// Whether it printed nothing beside its output.
    pub silent: bool,
    /// How many microseconds it took.
    pub time: u64,
}

/// What asking a server came to, and how often.
#[derive(Clone, Copy, PartialEq, Eq)]
pub struct Tally {
    pub hits: u64,
    pub misses: u64,
    pub errors: u64,
    pub timeouts: u64,
}

/// The host at the other end of a pipe.
#[derive(Drop)]
pub struct Host<I> {
    reader: I,
    /// What asking a server came to in this call.
    pub tally: Tally,
    /// How often it was asked to run the compiler for its outputs. `compile` alone moves it.
    compiled: u64,
}

/// The next message of a host.
fn read_message<I: Read>(alloc: Global, reader: &mut I) -> Result<Vec<u8>, HostError> {
    let mut head = [0u8; 8];
    reader.read_exact(&mut head)?;
    let count = Fields::of(&head).number()?;
    if count > LONGEST {
        return Err(HostError::Unreadable);
    }
    let Ok(count) = usize::try_from(count) else {
        return Err(HostError::Unreadable);
    };
    let mut bytes = vec![in alloc; 0u8; count]?;
    reader.read_exact(bytes.as_mut_slice())?;
    Ok(bytes)
}

/// The message that asks for these words to be run.
fn message_of(alloc: Global, letter: u8, words: &[OsBytes]) -> Result<Vec<u8>, HostError> {
    let mut message = Vec::new(alloc);
    put_number(&mut message, u64::from(letter))?;
    put_number(&mut message, words.len() as u64)?;
    for word in words {
        put_framed(&mut message, word.as_bytes())?;
    }
    Ok(message)
}

/// Sends a message to a host.
fn send<P: Print + Alloc>(rt: &P, alloc: Global, message: &[u8]) -> Result<(), HostError> {
    let mut whole = Vec::new(alloc);
    put_framed(&mut whole, message)?;
    let mut writer = io::writer(rt);
    writer.write_all(whole.as_slice())?;
    Ok(writer.flush()?)
}

/// Has a host put a line into the log at that place. This is its front; after it the host writes when the call began and ended, what ran and
/// with which status: it alone knows. It answers nothing.
pub fn tell_line<P: Print + Alloc>(
    rt: &P,
    alloc: Global,
    place: &str,
    front: &str,
) -> Result<(), HostError> {
    let mut message = Vec::new(alloc);
    put_number(&mut message, u64::from(LOG))?;
    put_number(&mut message, 2)?;
    put_framed(&mut message, place.as_bytes())?;
    put_framed(&mut message, front.as_bytes())?;
    send(rt, alloc, message.as_slice())
}

/// Has a host run the compiler with these words, and waits for its end.
fn run_words<P: Print + Alloc, I: Read>(
    rt: &P,
    alloc: Global,
    reader: &mut I,
    letter: u8,
    words: &[OsBytes],
) -> Result<Ended, HostError> {
    let message = message_of(alloc, letter, words)?;
    send(rt, alloc, message.as_slice())?;
    let answer = read_message(alloc, reader)?;
    let mut fields = Fields::of(answer.as_slice());
    let status = fields.number()?;
    let silent = fields.number()? == 1;
    let time = fields.number()?;
    match i32::try_from(status) {
        Ok(status) => Ok(Ended {
            status,
            silent,
            time,
        }),
        Err(_) => Err(HostError::Unreadable),
    }
}

impl<I: Read> Host<I> {
    /// The host that is read from there. It wasn't asked for anything yet.
    pub fn new(reader: I) -> Host<I>
        ensures { result.compiled ≡ 0 }
    {
        let tally = Tally {
            hits: 0,
            misses: 0,
            errors: 0,
            timeouts: 0,
        };
        Host {
            reader,
            tally,
            compiled: 0,
        }
    }

    /// How often it was asked to run the compiler for its outputs.
    pub fn compiled(&self) -> u64
        ensures { result ≡ self.now.compiled }
    {
        self.compiled
    }

    /// Its next message.
    pub fn message(&mut self, alloc: Global) -> Result<Vec<u8>, HostError>
        ensures { self.new.compiled ≡ self.old.compiled }
    {
        read_message(alloc, &mut self.reader)
    }

    /// Has it run the preprocessor with these words, and waits for its end.
    pub fn preprocess<P: Print + Alloc>(
        &mut self,
        rt: &P,
        alloc: Global,
        words: &[OsBytes],
    ) -> Result<Ended, HostError>
        ensures { self.new.compiled ≡ self.old.compiled }
    {
        run_words(rt, alloc, &mut self.reader, PREPROCESS, words)
    }

    /// Has it ask a server by these words for what other machines stored, and waits for the answer.
    pub fn fetch<P: Print + Alloc>(
        &mut self,
        rt: &P,
        alloc: Global,
        words: &[OsBytes],
    ) -> Result<Ended, HostError>
        ensures { self.new.compiled ≡ self.old.compiled }
    {
        run_words(rt, alloc, &mut self.reader, FETCH, words)
    }

    /// Has it take what a server is to store by these words.
    pub fn send<P: Print + Alloc>(
        &mut self,
        rt: &P,
        alloc: Global,
        words: &[OsBytes],
    ) -> Result<Ended, HostError>
        ensures { self.new.compiled ≡ self.old.compiled }
    {
        run_words(rt, alloc, &mut self.reader, SEND, words)
    }

    /// Has it run the compiler with these words, once, and waits for its end.
    pub fn compile<P: Print + Alloc>(
        &mut self,
        rt: &P,
        alloc: Global,
        words: &[OsBytes],
    ) -> Result<Ended, HostError>
        requires { self.old.compiled ≡ 0 }
        ensures { self.new.compiled ≡ 1 }
    {
        self.compiled += 1;
        run_words(rt, alloc, &mut self.reader, COMPILE, words)
    }
}
