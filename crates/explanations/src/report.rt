//! What the host reads in a report.

use crate::code::tell_usage;
use kbsim::Reading;
use std::fmt;

/// Tells what the host makes of a report.
pub(crate) fn tell_reading<W: fmt::Write>(
    f: &mut fmt::Formatter<W>,
    reading: &Reading,
) -> fmt::Result {
    match reading {
        Reading::Usages(usages) if usages.as_slice().is_empty() => f.write_str(
            "the host reads that nothing is pressed",
        ),
        Reading::Usages(usages) => tell_usages(f, usages.as_slice()),
        _ => f.write_str("the host has fetched no report descriptor to read it by"),
    }
}

/// Tells usages by their names.
fn tell_usages<W: fmt::Write>(f: &mut fmt::Formatter<W>, usages: &[u32]) -> fmt::Result {
    let mut before = "the host reads ";
    for usage in usages {
        f.write_str(before)?;
        tell_usage(f, *usage)?;
        before = "; ";
    }
    Ok(())
}
