//! Readers and writers that fail, and page counts that no flash has.

use super::{end_of, prints, so_ended};
use crate::tests::asserts::same_text;
use crate::tests::rows::text_of;
use crate::tests::streams::{FailingReader, FailingWriter, KINDS, before_it_fails};
use kbsim::{LineFault, RunError, blank_flash, print_fault, run_on, run_script};
use std::alloc::Global;
use std::io::{ErrorKind, Read, Write};
use std::process::Abort;

const SCRIPT: &str = "entry 0 0\nset 0 0 0005\nslot 0 1\n";

const PRINTED: &str = "1 0004\n2 ack\n3 05000010faffffef\n";

/// Runs a script on a blank flash of two pages, or on one that is given.
fn run<R: Read, W: Write>(
    alloc: Global,
    is_given: bool,
    reader: &mut R,
    writer: &mut W,
) -> Result<(), RunError> {
    if !is_given {
        return run_script(alloc, 2, reader, writer);
    }
    let flash = blank_flash(alloc, 2)?;
    end_of(run_on(alloc, flash, reader, writer))
}

/// Runs the script of a reader that fails so after so many reads.
fn reads<R: AllocGlobal + Abort>(rt: &R, reads_left: usize, kind: ErrorKind, is_given: bool) {
    let mut reader = FailingReader {
        text: SCRIPT.as_bytes(),
        reads_left,
        kind,
    };
    // Seven reads give the script, and one more its end.
    let (ends, expected) = match reads_left {
        8 => (Ok(()), PRINTED),
        _ => (Err(RunError::Input), "fault input\n"),
    };
    let mut printed = Vec::new(rt.alloc());
    let ended = run(rt.alloc(), is_given, &mut reader, &mut printed);
    same_text(rt, text_of(printed.as_slice()), expected, expected);
    so_ended(rt, ended, ends, expected);
}

#[test]
fn a_reader_that_fails(rt: HostRuntime) {
    for reads_left in 0..9 {
        reads(&rt, reads_left, ErrorKind::Other, false);
        reads(&rt, reads_left, ErrorKind::Other, true);
        reads(&rt, reads_left, ErrorKind::Interrupted, false);
        reads(&rt, reads_left, ErrorKind::Interrupted, true);
    }
}

/// Compares how a call ended with this writer, which fails at this write, and all that it took.
fn is_stopped<R: Abort>(
    rt: &R,
    writer: &FailingWriter,
    writes: usize,
    ended: Result<(), RunError>,
    ends: Result<(), RunError>,
    printed: &str,
) {
    let front = before_it_fails(printed, writes);
    same_text(rt, text_of(writer.taken()), front, printed);
    let is_whole = front.len() == printed.len();
    let ends = if is_whole {
        ends
    } else {
        Err(RunError::Output)
    };
    so_ended(rt, ended, ends, printed);
}

/// Runs a script to writers that fail, each at another write.
fn stops<R: AllocGlobal + Abort>(
    rt: &R,
    is_given: bool,
    script: &str,
    printed: &str,
    ends: Result<(), RunError>,
) {
    // Eleven writes, and ten for the line of a fault.
    for writes in 0..13 {
        for then in KINDS {
            let mut writer = FailingWriter::new(writes, then);
            let mut reader = script.as_bytes();
            let ended = run(rt.alloc(), is_given, &mut reader, &mut writer);
            is_stopped(rt, &writer, writes, ended, ends, printed);
        }
    }
}

#[test]
fn nothing_is_printed_after_a_write_that_failed(rt: HostRuntime) {
    let line = "fault line 1: wrong words\n";
    let fault = LineFault::WrongWords;
    let ends = Err(RunError::Line { line: 1, fault });
    stops(&rt, false, SCRIPT, PRINTED, Ok(()));
    stops(&rt, true, SCRIPT, PRINTED, Ok(()));
    stops(&rt, false, "in x", line, ends);
    stops(&rt, true, "in x", line, ends);
}

#[test]
fn the_line_of_a_fault_that_can_not_be_written(rt: HostRuntime) {
    for writes in 0..6 {
        for then in KINDS {
            let mut writer = FailingWriter::new(writes, then);
            let ended = Err(print_fault(RunError::Image, &mut writer));
            is_stopped(
                &rt,
                &writer,
                writes,
                ended,
                Err(RunError::Image),
                "fault image\n",
            );
        }
    }
}

#[test]
fn page_counts_that_no_flash_has(rt: HostRuntime) {
    for pages in [0, 1, 9, usize::MAX] {
        prints(&rt, pages, b"in x\n", Err(RunError::PageCount), "");
        is_not_read(&rt, pages);
    }
}

/// The script of a flash that there can't be is not read.
fn is_not_read<R: AllocGlobal + Abort>(rt: &R, pages: usize) {
    let mut reader = SCRIPT.as_bytes();
    let mut printed = Vec::new(rt.alloc());
    let _ = run_script(rt.alloc(), pages, &mut reader, &mut printed);
    same_text(rt, text_of(reader), SCRIPT, "what is left");
}
