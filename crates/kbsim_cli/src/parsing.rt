//! Printing report descriptors.

use crate::source::{Unread, text_of};
use crate::tell::{tell, tell_output};
use command_line::Source;
use parse_lines::{LinesError, describe, parse_text, print_fault};
use std::io;
use std::rt::Files;

/// Prints the keyboard's descriptors.
pub fn print_descriptors<R: Print + Eprint>(rt: &R) -> Result<(), LinesError> {
    let ended = describe(&mut io::writer(rt));
    if ended == Err(LinesError::Output) {
        tell_output(rt);
    }
    ended
}

/// Prints the fields of the report descriptor of a source. The line of a fault is the last one on standard output, and
/// standard error says in a sentence what it is.
pub fn parse_from<R: AllocGlobal + Files + Input + Print + Eprint>(
    rt: &R,
    source: Source<'_>,
) -> Result<(), LinesError> {
    let ended = match text_of(rt, source) {
        Ok(text) => parse_text(rt.alloc(), &mut text.as_slice(), &mut io::writer(rt)),
        Err(Unread::Closed) => return put(rt, LinesError::Input),
        Err(Unread::Read(error)) => print_fault(error.into(), &mut io::writer(rt)),
    };
    match &ended {
        Ok(()) => {}
        Err(LinesError::Output) => tell_output(rt),
        Err(error) => tell(rt, error),
    }
    ended
}

/// Prints the line of a fault. The answer is the fault, or `Output`, of which standard error tells.
fn put<R: Print + Eprint>(rt: &R, error: LinesError) -> Result<(), LinesError> {
    let ended = print_fault(error, &mut io::writer(rt));
    if ended == Err(LinesError::Output) {
        tell_output(rt);
    }
    ended
}
