//! What standard error says.

use std::fmt::Display;
use std::io;

/// Says a sentence.
pub fn tell<R: Eprint, T: Display>(rt: &R, sentence: &T) {
    let _ = eprintln!(rt; "{sentence}");
}

/// Says that a file can't be opened.
pub fn tell_closed<R: Eprint>(rt: &R, path: &str, error: &io::Error) {
    let _ = eprintln!(rt; "error: {path} can't be opened: {error}");
}

/// Says that standard output can't be written, since no line of a fault can say it there.
pub fn tell_output<R: Eprint>(rt: &R) {
    let _ = eprintln!(rt; "error: the output can't be written");
}
