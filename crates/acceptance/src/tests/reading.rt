//! Reports and what is read in them.

use super::asserts::made;
use super::rows::{bytes, shows, two};
use descriptor_parse::parse;
use host_extract::{BOOT_DESCRIPTOR, Found, extract, pressed};
use std::alloc::Global;
use std::fmt;
use std::process::Abort;

/// What is found in a report, `USAGE VALUE` each, and what of it is pressed.
#[derive(Drop)]
struct FoundAndPressed<'a>(&'a [Found], &'a [u32]);

impl fmt::Display for FoundAndPressed<'_> {
    fn fmt<W: fmt::Write>(&self, f: &mut fmt::Formatter<W>) -> fmt::Result {
        for reading in self.0 {
            write!(f, "{:08x} {}, ", reading.usage, reading.value)?;
        }
        write!(f, "pressed")?;
        for usage in self.1 {
            write!(f, " {usage:08x}")?;
        }
        Ok(())
    }
}

fn read_by<R: AllocGlobal + Abort>(rt: &R, descriptor: &[u8], row: &str) {
    let (report, wanted) = two(rt, row, " = ");
    let descriptor = parse(rt.alloc(), descriptor)
        .ok()
        .expect(rt, "a descriptor");
    match extract(rt.alloc(), &descriptor, &bytes(rt, report)) {
        Ok(found) => got(rt, rt.alloc(), &found, wanted, row),
        Err(error) => {
            let number = error.number();
            shows(rt, rt.alloc(), &number, wanted, row);
        }
    }
}

fn got(rt: &impl Abort, alloc: Global, found: &[Found], wanted: &str, row: &str) {
    let on = made(rt, pressed(alloc, found));
    shows(rt, alloc, &FoundAndPressed(found, &on), wanted, row);
}

/// Reads reports and compares what is found and pressed, or the number of the refusal: `DESCRIPTOR < REPORT = ROWS`. `BOOT`
/// is the host's own descriptor.
#[test]
fn what_is_found_and_pressed(rt: HostRuntime) {
    for row in ROWS.lines() {
        if row.starts_with('#') {
            continue;
        }
        let (descriptor, report) = two(&rt, row, " < ");
        if descriptor == "BOOT" {
            read_by(&rt, &BOOT_DESCRIPTOR, report);
        } else {
            read_by(&rt, &bytes(&rt, descriptor), report);
        }
    }
}

const ROWS: &str = "\
# No byte; another report's ID, or none; too short.
SERVED < - = 1
SERVED < 03 00 = 2
SERVED < 00 = 2
SERVED < 02 00 20 = 3
SERVED < 02 00 = 3
SERVED < 02 = 3
BOOT < 7*00 = 3
# A consumer report.
SERVED < 02 92 01 00 00 00 00 00 00 = 000c0192 1, pressed 000c0192
# A signed value.
15 81 25 7F 75 08 95 01 05 01 09 30 81 02 < FF = 00010030 -1, pressed 00010030
# A boot report, with a key in two places.
BOOT < 00 00 04 04 00 00 00 00 = 000700e0 0, 000700e1 0, 000700e2 0, 000700e3 0, 000700e4 0, 000700e5 0, 000700e6 0, 000700e7 0, 00070004 1, 00070004 1, pressed 00070004
# Two reports; the usages of one, the last of which serves the rest; a value outside the logical extents.
05 01 25 01 75 04 95 03 85 01 09 30 09 31 81 02 85 02 95 01 09 32 81 02 < 01 21 0F FF = 00010030 1, 00010031 2, 00010031 15, pressed 00010030 00010031
05 01 25 01 75 04 95 03 85 01 09 30 09 31 81 02 85 02 95 01 09 32 81 02 < 02 07 = 00010032 7, pressed 00010032
# Neither IDs nor input items.
91 02 < 09 = pressed
# A field without usages.
75 08 95 01 81 02 < 09 = pressed
# A usage whose low half is 0.
05 01 08 75 08 95 01 81 02 < 09 = pressed";
