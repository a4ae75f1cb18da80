//! Requests of endpoint 0 by their names.

use std::fmt;

/// Tells what a SETUP packet asks for (USB 2.0 section 9.4, HID 1.11 section 7).
pub(crate) fn tell_request<W: fmt::Write>(
    f: &mut fmt::Formatter<W>,
    packet: [u8; 8],
) -> fmt::Result {
    let [kind, code, low, high, _, _, length_low, length_high] = packet;
    match name_of(kind, code) {
        "" => write!(
            f,
            "request {code:02x} of type {kind:02x}, which neither USB nor HID has"
        )?,
        name => {
            f.write_str(name)?;
            tell_value(f, name, low, high)?;
        }
    }
    match u16::from_le_bytes([length_low, length_high]) {
        0 => Ok(()),
        1 => f.write_str(", 1 byte"),
        length if kind >= 0x80 => write!(f, ", up to {length} bytes"),
        length => write!(f, ", {length} bytes"),
    }
}

/// The name of a request by bmRequestType and bRequest; empty where it has none.
fn name_of(kind: u8, code: u8) -> &'static str {
    match (kind, code) {
        (0x80 | 0x81 | 0x82, 0x00) => "GET_STATUS",
        (0x00 | 0x01 | 0x02, 0x01) => "CLEAR_FEATURE",
        (0x00 | 0x01 | 0x02, 0x03) => "SET_FEATURE",
        (0x00, 0x05) => "SET_ADDRESS",
        (0x80 | 0x81, 0x06) => "GET_DESCRIPTOR",
        (0x00 | 0x01, 0x07) => "SET_DESCRIPTOR",
        (0x80, 0x08) => "GET_CONFIGURATION",
        (0x00, 0x09) => "SET_CONFIGURATION",
        (0x81, 0x0A) => "GET_INTERFACE",
        (0x01, 0x0B) => "SET_INTERFACE",
        (0x82, 0x0C) => "SYNCH_FRAME",
        (0xA1, 0x01) => "GET_REPORT",
        (0xA1, 0x02) => "GET_IDLE",
        (0xA1, 0x03) => "GET_PROTOCOL",
        (0x21, 0x09) => "SET_REPORT",
        (0x21, 0x0A) => "SET_IDLE",
        (0x21, 0x0B) => "SET_PROTOCOL",
        _ => "",
    }
}

/// Tells what wValue says in a request of this name.
fn tell_value<W: fmt::Write>(
    f: &mut fmt::Formatter<W>,
    name: &str,
    low: u8,
    high: u8,
) -> fmt::Result {
    match name {
        "GET_DESCRIPTOR" | "SET_DESCRIPTOR" => {
            let descriptor = descriptor(high);
            match low {
                0 => write!(f, ", {descriptor}"),
                _ => write!(f, ", {descriptor} {low}"),
            }
        }
        "GET_REPORT" | "SET_REPORT" => {
            let kind = report_type(high);
            write!(f, ", {kind} report {low}")
        }
        "GET_IDLE" => write!(f, " of report {low}"),
        "SET_IDLE" => tell_idle(f, low, high),
        "SET_PROTOCOL" => f.write_str(protocol(low)),
        "SET_ADDRESS" | "SET_CONFIGURATION" => write!(f, " {low}"),
        _ => Ok(()),
    }
}

/// The types of descriptors (USB 2.0 table 9-5, HID 1.11 section 7.1).
fn descriptor(number: u8) -> &'static str {
    match number {
        0x01 => "device",
        0x02 => "configuration",
        0x03 => "string",
        0x04 => "interface",
        0x05 => "endpoint",
        0x06 => "device qualifier",
        0x07 => "other speed configuration",
        0x0F => "BOS",
        0x21 => "HID",
        0x22 => "report descriptor",
        0x23 => "physical descriptor",
        _ => "unknown type",
    }
}

/// The types of reports (HID 1.11 section 7.2.1).
fn report_type(number: u8) -> &'static str {
    match number {
        1 => "input",
        2 => "output",
        3 => "feature",
        _ => "unknown",
    }
}

/// The protocols of SET_PROTOCOL (HID 1.11 section 7.2.6).
fn protocol(number: u8) -> &'static str {
    match number {
        0 => ", boot protocol",
        1 => ", report protocol",
        _ => ", unknown protocol",
    }
}

/// Tells after which time a report is repeated (HID 1.11 section 7.2.4), in units of 4 ms; 0 stands for never, and report 0
/// for all.
fn tell_idle<W: fmt::Write>(f: &mut fmt::Formatter<W>, id: u8, units: u8) -> fmt::Result {
    match id {
        0 => f.write_str(", all reports: ")?,
        _ => write!(f, ", report {id}: ")?,
    }
    match 4 * units as u16 {
        0 => f.write_str("sent only when they change"),
        time => write!(f, "repeated after {time} ms"),
    }
}
