//! Descriptors of readers and to writers that fail, and memory that is refused. Texts beside what is printed of them are
//! rows of `tests/descriptors`.

use super::asserts::same_in;
use descriptor_parse::{ParseError, ParseFault};
use parse_lines::LinesError;
use std::process::Abort;

mod memory;
mod streams;

/// Compares how a call ended.
fn so_ended<R: Abort>(
    rt: &R,
    ended: Result<(), LinesError>,
    ends: Result<(), LinesError>,
    case: &str,
) {
    same_in(rt, &ended, &ends, case);
}

/// A descriptor is refused for a fault at this offset.
fn refused(fault: ParseFault, offset: usize) -> Result<(), LinesError> {
    Err(LinesError::Refused(ParseError { fault, offset }))
}
