//! Requests for memory that are refused. In a plain run none is; the test command can refuse one.

use super::so_ended;
use crate::tests::asserts::same_text;
use crate::tests::rows::text_of;
use arrayvec::ArrayVec;
use parse_lines::{LinesError, parse_text};
use std::process::Abort;

/// An ID, a range and a single usage, and two fields.
const TEXT: &[u8] = b"85 01 05 07 19 04 29 08 09 0A 75 01 95 06 81 02 A4 91 02 B4";

const PRINTED: &str =
    "input 1 0 1 6 0 0 variable 00070004-00070008,0007000a\noutput 1 0 1 6 0 0 variable -\n";

/// All is printed, or the fault alone where a request was refused.
fn is_printed<R: Abort>(rt: &R, ended: Result<(), LinesError>, printed: &[u8], expected: &str) {
    let (ends, expected) = match ended {
        Ok(()) => (Ok(()), expected),
        Err(_) => (Err(LinesError::Memory), "fault memory\n"),
    };
    same_text(rt, text_of(printed), expected, "the fault alone");
    so_ended(rt, ended, ends, "the fault alone");
}

#[test]
fn the_fault_alone(rt: HostRuntime) {
    let mut reader = TEXT;
    let mut printed: ArrayVec<u8, 128> = ArrayVec::new();
    let ended = parse_text(rt.alloc(), &mut reader, &mut printed);
    is_printed(&rt, ended, printed.as_slice(), PRINTED);
}
