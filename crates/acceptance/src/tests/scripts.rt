//! Scripts: of readers and to writers that fail, with memory that is refused, and drawn by a fixed generator; and worlds on
//! flashes with something in them. Scripts on a blank flash beside what they print are rows of `tests/scripts`.

use super::asserts::{same_in, same_text};
use super::rows::text_of;
use kbsim::{RunError, SimFlash, run_script};
use std::process::Abort;

mod device;
mod generated;
mod images;
mod memory;
mod streams;
mod words;

/// Runs a script on a blank flash of so many pages, and compares how it ends and all that it prints.
fn prints<R: AllocGlobal + Abort>(
    rt: &R,
    pages: usize,
    script: &[u8],
    ends: Result<(), RunError>,
    expected: &str,
) {
    let mut reader = script;
    let mut printed = Vec::new(rt.alloc());
    let ended = run_script(rt.alloc(), pages, &mut reader, &mut printed);
    same_text(rt, text_of(printed.as_slice()), expected, text_of(script));
    so_ended(rt, ended, ends, text_of(script));
}

/// How a run ended. Its flash is let go here alone.
fn end_of(run: Result<SimFlash, RunError>) -> Result<(), RunError> {
    match run {
        Ok(_) => Ok(()),
        Err(error) => Err(error),
    }
}

/// Compares how a call ended.
fn so_ended<R: Abort>(rt: &R, ended: Result<(), RunError>, ends: Result<(), RunError>, case: &str) {
    same_in(rt, &ended, &ends, case);
}
