//! Running a script.

use crate::source::{Unread, text_of};
use crate::tell::{tell, tell_output};
use command_line::Source;
use explanations::{Explainer, Tell};
use kbsim::{RunError, SimFlash, blank_flash, print_fault, run_on, run_with};
use std::fmt::Display;
use std::io;
use std::rt::Files;

/// Runs the script of a source on a blank flash of so many pages. The line of a fault is the last one on standard output, and
/// standard error says in a sentence what it is, and with `explain` what each answer means.
pub fn run_from<R: AllocGlobal + Files + Input + Print + Eprint>(
    rt: &R,
    pages: usize,
    source: Source<'_>,
    explain: bool,
) -> Result<(), RunError> {
    let flash = match blank_flash(rt.alloc(), pages) {
        Ok(flash) => flash,
        Err(error) => return Err(put_and_tell(rt, error)),
    };
    match text_of(rt, source) {
        Ok(text) => run_text(rt, flash, text.as_slice(), explain),
        Err(Unread::Closed) => Err(put(rt, RunError::Input)),
        Err(Unread::Read(error)) => Err(put_and_tell(rt, error.into())),
    }
}

/// Runs a script on a flash.
fn run_text<R: AllocGlobal + Print + Eprint>(
    rt: &R,
    flash: SimFlash,
    mut text: &[u8],
    explain: bool,
) -> Result<(), RunError> {
    let writer = &mut io::writer(rt);
    let ended = if explain {
        let mut explainer = Explainer::new(&flash, StandardError { rt });
        run_with(rt.alloc(), flash, &mut text, writer, &mut explainer)
    } else {
        run_on(rt.alloc(), flash, &mut text, writer)
    };
    match ended {
        Ok(_) => Ok(()),
        Err(RunError::Output) => {
            tell_output(rt);
            Err(RunError::Output)
        }
        Err(error) => {
            tell(rt, &error);
            Err(error)
        }
    }
}

/// Standard error, as a place of sentences.
#[derive(Drop)]
struct StandardError<'a, R> {
    rt: &'a R,
}

impl<R: Eprint> Tell for StandardError<'_, R> {
    fn tell<T: Display>(&mut self, sentence: &T) {
        tell(self.rt, sentence);
    }
}

/// Prints the line of a fault. The answer is the fault, or `Output`, of which standard error tells.
fn put<R: Print + Eprint>(rt: &R, error: RunError) -> RunError {
    let reported = print_fault(error, &mut io::writer(rt));
    if reported == RunError::Output {
        tell_output(rt);
    }
    reported
}

/// The same, and says in a sentence what it is.
fn put_and_tell<R: Print + Eprint>(rt: &R, error: RunError) -> RunError {
    let reported = put(rt, error);
    if reported != RunError::Output {
        tell(rt, &reported);
    }
    reported
}
