//! Readers and writers that fail.

use super::{refused, so_ended};
use crate::tests::asserts::same_text;
use crate::tests::rows::text_of;
use crate::tests::streams::{FailingReader, FailingWriter, KINDS, before_it_fails};
use descriptor_parse::ParseFault;
use parse_lines::{LinesError, describe, parse_text};
use std::io::ErrorKind;
use std::process::Abort;

/// What `describe` prints.
const DESCRIBED: &str = "device 120100020000000809120100000100000001
configuration 0902220001010080320904000001030101000921110100012263000705810320000a
report 05010906a1018501050719e029e715002501750195088102190429a495a18102950781030508190129059505910295039103c0050c0901a1018502150026ff0319002aff03751095048100c00600ff0901a10185030902150026ff0075089505b102c0
";

const TEXT: &str = "85 01 05 07 09 0A 75 01 95 06 81 02";

const PRINTED: &str = "input 1 0 1 6 0 0 variable 0007000a\n";

#[test]
fn a_reader_that_fails(rt: HostRuntime) {
    // Seven reads give the text, and one more its end.
    for reads_left in 0..9 {
        let (ends, expected) = match reads_left {
            8 => (Ok(()), PRINTED),
            _ => (Err(LinesError::Input), "fault input\n"),
        };
        for kind in [ErrorKind::Other, ErrorKind::Interrupted] {
            let mut reader = FailingReader {
                text: TEXT.as_bytes(),
                reads_left,
                kind,
            };
            let mut printed = Vec::new(rt.alloc());
            let ended = parse_text(rt.alloc(), &mut reader, &mut printed);
            same_text(&rt, text_of(printed.as_slice()), expected, expected);
            so_ended(&rt, ended, ends, expected);
        }
    }
}

/// Compares how a call ended with this writer, which fails at this write, and all that it took.
fn is_stopped<R: Abort>(
    rt: &R,
    writer: &FailingWriter,
    writes: usize,
    ended: Result<(), LinesError>,
    ends: Result<(), LinesError>,
    printed: &str,
) {
    let front = before_it_fails(printed, writes);
    same_text(rt, text_of(writer.taken()), front, printed);
    let is_whole = front.len() == printed.len();
    let ends = if is_whole {
        ends
    } else {
        Err(LinesError::Output)
    };
    so_ended(rt, ended, ends, printed);
}

/// Prints the fields of a text to writers that fail, each at another write.
fn stops<R: AllocGlobal + Abort>(rt: &R, text: &str, printed: &str, ends: Result<(), LinesError>) {
    for writes in 0..14 {
        for then in KINDS {
            let mut writer = FailingWriter::new(writes, then);
            let ended = parse_text(rt.alloc(), &mut text.as_bytes(), &mut writer);
            is_stopped(rt, &writer, writes, ended, ends, printed);
        }
    }
}

#[test]
fn nothing_is_printed_after_a_write_that_failed(rt: HostRuntime) {
    let unended = refused(ParseFault::EndWithoutCollection, 0);
    stops(&rt, TEXT, PRINTED, Ok(()));
    stops(&rt, "C0", "fault parse 8 at 0\n", unended);
    stops(&rt, "0", "fault hex\n", Err(LinesError::BadHexText));
}

#[test]
fn descriptors_that_can_not_be_written(rt: HostRuntime) {
    for writes in 0..130 {
        for then in KINDS {
            let mut writer = FailingWriter::new(writes, then);
            let ended = describe(&mut writer);
            is_stopped(&rt, &writer, writes, ended, Ok(()), DESCRIBED);
        }
    }
}
