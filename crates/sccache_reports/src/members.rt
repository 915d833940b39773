//! The members of an entry of a database.

use crate::fault::ReportFault;
use crate::room::EntryRoom;
use crate::skipping::skip_rest;
use cmdlines_response_files::split_gnu_response_file_args;
use json::{MAX_DEPTH, Reader, Token};
use std::alloc::{AllocError, Global};

/// A member that is to be a text.
#[derive(Clone, Copy, Debug)]
enum TextMember<'a> {
    Missing,
    Text(&'a str),
    /// Something else.
    Other,
}

/// The list of the executable and its words, which are read as they come.
#[derive(Clone, Copy, Debug)]
enum ListMember {
    Missing,
    Texts,
    /// A list with something else in it.
    Others,
    /// No list.
    Other,
}

/// What the members of an entry are. Of a repeated one the last counts.
#[derive(Clone, Copy, Debug)]
pub(crate) struct Members<'a> {
    directory: TextMember<'a>,
    arguments: ListMember,
    command: TextMember<'a>,
}

/// Reads a member that is to be a text.
fn read_text<'a>(reader: &mut Reader<'a>) -> Result<TextMember<'a>, ReportFault> {
    match reader.next() {
        Some(Token::String(text)) => Ok(TextMember::Text(text)),
        Some(begin) => {
            skip_rest(reader, begin, MAX_DEPTH - 3)?;
            Ok(TextMember::Other)
        }
        None => Err(ReportFault::NotJson),
    }
}

/// Reads the items of a list up to its end, each as a word.
fn read_words(room: &mut EntryRoom, reader: &mut Reader<'_>) -> Result<ListMember, ReportFault> {
    let mut read = ListMember::Texts;
    for _ in 0..u64::MAX {
        match reader.next() {
            Some(Token::String(word)) => room.add(word.as_bytes())?,
            Some(Token::EndArray) => return Ok(read),
            Some(begin) => {
                skip_rest(reader, begin, MAX_DEPTH - 4)?;
                read = ListMember::Others;
            }
            None => break,
        }
    }
    Err(ReportFault::NotJson)
}

/// Reads a member that is to be the list of the executable and its words.
fn read_list(room: &mut EntryRoom, reader: &mut Reader<'_>) -> Result<ListMember, ReportFault> {
    room.forget_words();
    match reader.next() {
        Some(Token::BeginArray) => read_words(room, reader),
        Some(begin) => {
            skip_rest(reader, begin, MAX_DEPTH - 3)?;
            Ok(ListMember::Other)
        }
        None => Err(ReportFault::NotJson),
    }
}

impl<'a> Members<'a> {
    /// Reads the members up to the end of the object, and the words of a list into the room.
    pub(crate) fn read(
        room: &mut EntryRoom,
        reader: &mut Reader<'a>,
    ) -> Result<Members<'a>, ReportFault> {
        let mut members = Members {
            directory: TextMember::Missing,
            arguments: ListMember::Missing,
            command: TextMember::Missing,
        };
        for _ in 0..u64::MAX {
            let Some(name) = reader.next_key()? else {
                return Ok(members);
            };
            match name {
                "directory" => members.directory = read_text(reader)?,
                "arguments" => members.arguments = read_list(room, reader)?,
                "command" => members.command = read_text(reader)?,
                _ => reader.skip_value(MAX_DEPTH - 2)?,
            }
        }
        Err(ReportFault::NotJson)
    }

    /// The folder in which the command is run.
    pub(crate) fn dir(&self) -> Result<&'a str, &'static str> {
        match self.directory {
            TextMember::Text(text) => Ok(text),
            TextMember::Other => Err("directory is not a text"),
            TextMember::Missing => Err("directory is not there"),
        }
    }

    /// The command, where the words are its own and not those of a list.
    pub(crate) fn command(&self) -> Result<Option<&'a str>, &'static str> {
        match (self.arguments, self.command) {
            (ListMember::Texts, _) => Ok(None),
            (ListMember::Others, _) => Err("an argument is not a text"),
            (ListMember::Other, _) => Err("arguments is not a list"),
            (ListMember::Missing, TextMember::Text(text)) => Ok(Some(text)),
            (ListMember::Missing, TextMember::Other) => Err("command is not a text"),
            (ListMember::Missing, TextMember::Missing) => {
                Err("neither arguments nor command is there")
            }
        }
    }
}

/// Adds the words of a command.
pub(crate) fn add_words_of(
    alloc: Global,
    room: &mut EntryRoom,
    command: &str,
) -> Result<(), AllocError> {
    let words = split_gnu_response_file_args(alloc, command.as_bytes())?;
    for word in words.as_slice() {
        room.add(word.as_bytes())?;
    }
    Ok(())
}
