//! The descriptors that the keyboard serves, as lines.

ghost use Rattle.std.specs.Prelude.{◌≡◌, ◌++◌, IfErr, OnOk, Some, codes};
ghost use Rattle.std.specs.Io.KnownBytes.{Appends};
ghost use Rattle.descriptor_build.specs.Served.{device_bytes, configuration_bytes};
ghost use Rattle.parse_lines.specs.Described.{described, hex_line};

use crate::LinesError;
use crate::print::HexLine;
use descriptor_build::{CONFIGURATION, DEVICE, served_report};
use std::fmt;
use std::io::Write;
use text_io::Printer;

/// Prints the descriptors that the keyboard serves: `device HEX`, `configuration HEX` and `report HEX`, each on a line
/// of its own, in lower case (USB 2.0, section 9.6; HID 1.11, section 6.2.2).
///
/// `Output` comes where the writer fails or takes no byte; nothing is printed after it. There is no other error.
pub fn describe<W: Write>(writer: &mut W) -> Result<(), LinesError>
    ensures printed { OnOk result (Appends (W.contents writer.old) (W.contents writer.new) described) }
    ensures refused { IfErr result (λ e. e ≡ LinesError.Output) }
{
    let report = served_report();
    let mut printer = Printer::new(writer);
    if printer.print(&Described(report.as_slice())).is_err() || printer.finish().is_err() {
        return Err(LinesError::Output);
    }
    Ok(())
}

/// The three lines, the last of these bytes.
#[derive(Drop)]
struct Described<'a>(&'a [u8]);

impl fmt::Display for Described<'_> {
    ghost output = { λ d. Some ((hex_line (codes "device") device_bytes ++ hex_line (codes "configuration") configuration_bytes)
        ++ hex_line (codes "report") d.0.now) };

    fn fmt<W: fmt::Write>(&self, f: &mut fmt::Formatter<W>) -> fmt::Result {
        let device = HexLine("device", &DEVICE);
        let configuration = HexLine("configuration", &CONFIGURATION);
        let report = HexLine("report", self.0);
        write!(f, "{device}{configuration}{report}")
    }
}
