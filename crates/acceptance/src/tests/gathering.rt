//! What a host keeps of the packets that it sees, and what it reads by it, step by step.

use super::asserts::made;
use super::rows::{bytes, number, shows, two};
use host::{Host, Reading};
use reports::Protocol;
use std::fmt;
use std::process::Abort;

/// What a host reads, in words.
#[derive(Drop)]
struct Words<'a>(&'a Reading);

impl fmt::Display for Words<'_> {
    fn fmt<W: fmt::Write>(&self, f: &mut fmt::Formatter<W>) -> fmt::Result {
        match self.0 {
            Reading::Unread => write!(f, "unread"),
            Reading::NoMemory => write!(f, "no memory"),
            Reading::Usages(usages) => {
                write!(f, "read")?;
                for usage in usages.as_slice() {
                    write!(f, " {usage:08x}")?;
                }
                Ok(())
            }
        }
    }
}

/// Takes a new host through steps, a line each:
///
/// - `asks N`: a SETUP packet asks for N bytes of the report descriptor
/// - `text BYTES`: a text comes in packets of eight bytes
/// - `lose`: the bus is reset, or the power is cut
/// - `report BYTES = WORDS`, `boot BYTES = WORDS`: what it reads in a report, by the protocol
fn steps<R: AllocGlobal + Abort>(rt: &R, rows: &str) {
    let mut host = Host::new(rt.alloc());
    for row in rows.lines() {
        step(rt, &mut host, row);
    }
}

fn step<R: AllocGlobal + Abort>(rt: &R, host: &mut Host, row: &str) {
    let (word, rest) = row.split_once(' ').unwrap_or((row, ""));
    match word {
        "asks" => host.setup([0x81, 0x06, 0, 0x22, 0, 0, (number(rt, rest) % 256) as u8, 0]),
        "text" => hand(rt, host, &bytes(rt, rest)),
        "lose" => host.lose(),
        "report" => reads(rt, host, Protocol::Report, rest),
        "boot" => reads(rt, host, Protocol::Boot, rest),
        _ => panic!(rt; "no step: {row}"),
    }
}

/// Hands on a text in packets of eight bytes.
fn hand(rt: &impl Abort, host: &mut Host, text: &[u8]) {
    for packet in text.chunks(8) {
        made(rt, host.packet(packet));
    }
}

fn reads<R: AllocGlobal + Abort>(rt: &R, host: &Host, protocol: Protocol, row: &str) {
    let (report, wanted) = two(rt, row, " = ");
    let reading = host.read(protocol, &bytes(rt, report));
    shows(rt, rt.alloc(), &Words(&reading), wanted, row);
}

#[test]
fn the_served_text(rt: HostRuntime) {
    steps(&rt, SERVED_TEXT);
}

const SERVED_TEXT: &str = "\
report 02 92 01 00 00 00 00 00 00 = unread
text SERVED
report 02 92 01 00 00 00 00 00 00 = unread
asks 255
text SERVED
lose
report 02 92 01 00 00 00 00 00 00 = read 000c0192
report 02 00 20 = unread
report 03 00 = unread
report - = unread
boot 7*00 = unread
boot 8*00 = read
boot 01 00 04 05 00 00 00 00 = read 00070004 00070005 000700e0";

#[test]
fn another_text_of_the_same_length(rt: HostRuntime) {
    steps(&rt, ANOTHER_TEXT);
}

// A field of eight signed bits, and its usage.
const ANOTHER_TEXT: &str = "\
asks 99
text 15 81 25 7F 75 08 95 01 05 01 09 30 81 02 85*04
report FF = read 00010030
report 02 92 01 00 00 00 00 00 00 = read 00010030";
