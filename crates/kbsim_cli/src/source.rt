//! The text that a subcommand reads.

use crate::tell::tell_closed;
use command_line::Source;
use std::fs;
use std::rt::Files;
use text_io::{ReadError, read_text};

/// Why there is no text.
#[derive(Drop)]
pub enum Unread {
    /// The file can't be opened, and standard error has said why.
    Closed,
    /// What is read fails, is too long, or finds no room.
    Read(ReadError),
}

/// All that a source gives, at most 1,048,576 bytes.
pub fn text_of<R: AllocGlobal + Files + Input + Eprint>(
    rt: &R,
    source: Source<'_>,
) -> Result<Vec<u8>, Unread> {
    let read = match source {
        Source::StandardInput => read_text(rt.alloc(), &mut rt.reader()),
        Source::File(path) => match opened(rt, path) {
            Some(mut file) => read_text(rt.alloc(), &mut file),
            None => return Err(Unread::Closed),
        },
    };
    match read {
        Ok(text) => Ok(text),
        Err(error) => Err(Unread::Read(error)),
    }
}

/// A file that is open to be read; where it can't be opened, standard error says why.
fn opened<R: Files + Eprint>(rt: &R, path: &str) -> Option<R::File> {
    match fs::open(rt, path) {
        Ok(file) => Some(file),
        Err(error) => {
            tell_closed(rt, path, &error);
            None
        }
    }
}
