//! What the answer of a line means.

use crate::code::{tell_code, tell_command};
use crate::edges::{KeyChanges, tell_changes};
use crate::operation::{Made, tell_all, tell_operation};
use crate::reason::meaning;
use crate::report::tell_reading;
use crate::request::tell_request;
use crate::slot::tell_slot;
use flash_model::SimFlash;
use kbsim::{Answer, Outcome, Work};
use layers::Command;
use script::{Action, Statement};
use std::fmt;

/// What the answer of a line means, in a sentence.
#[derive(Drop)]
pub(crate) struct Explanation<'e, 't> {
    /// The number of the line, what it says, and what it came to.
    pub(crate) number: usize,
    pub(crate) statement: &'e Statement<'t>,
    pub(crate) outcome: &'e Outcome,
    /// The operations and the changes of keys that it made.
    pub(crate) made: Made,
    pub(crate) changes: KeyChanges,
    /// How many bytes the latest request had read before it; none where it reads nothing.
    pub(crate) read: Option<u16>,
    /// The flash after it.
    pub(crate) flash: &'e SimFlash,
}

impl fmt::Display for Explanation<'_, '_> {
    fn fmt<W: fmt::Write>(&self, f: &mut fmt::Formatter<W>) -> fmt::Result {
        let number = self.number;
        write!(f, "line {number}: ")?;
        match (self.statement, self.outcome) {
            (_, Outcome::Fetched(_)) => f.write_str(
                "the host has the report descriptor, and reads reports by it",
            ),
            (Statement::One(action), Outcome::Answered(answer)) => tell_action(
                f, self, action, answer,
            ),
            (Statement::Scans { .. }, Outcome::Answered(_)) => tell_changes(f, self.changes),
            (Statement::Set { .. }, Outcome::Answered(answer)) => tell_set(f, answer, &self.made),
            (Statement::Fetch, Outcome::Answered(answer)) => tell_refusal(f, answer),
        }
    }
}

/// Tells the answer of a line of one event.
fn tell_action<W: fmt::Write>(
    f: &mut fmt::Formatter<W>,
    whole: &Explanation<'_, '_>,
    action: &Action<'_>,
    answer: &Answer,
) -> fmt::Result {
    match action {
        Action::Scan(_) => tell_changes(f, whole.changes),
        Action::Setup(packet) => tell_request(f, *packet),
        Action::Out(packet) if is_ack(answer) => tell_taken(f, packet.as_slice()),
        Action::Out(_) => tell_refusal(f, answer),
        Action::In => tell_in(f, answer, whole.read),
        Action::Work => tell_work(f, answer, &whole.made, false),
        Action::WorkFault(_) => tell_work(f, answer, &whole.made, true),
        Action::Cut => f.write_str("the power is cut, and the keyboard starts on its flash"),
        Action::CutWork(_) => tell_cut(f, &whole.made),
        Action::Reset => f.write_str("a bus reset: report protocol, no LED is on, no report waits"),
        Action::Poll | Action::Entry(..) | Action::Slot { .. } | Action::Leds => tell_look(
            f,
            whole.flash,
            action,
            answer,
        ),
    }
}

/// Tells the answer of a poll, or of a look at an entry, a slot or the LEDs.
fn tell_look<W: fmt::Write>(
    f: &mut fmt::Formatter<W>,
    flash: &SimFlash,
    action: &Action<'_>,
    answer: &Answer,
) -> fmt::Result {
    match (action, answer) {
        (_, Answer::Sent { reading, .. }) => tell_reading(f, reading),
        (Action::Entry(layer, key), Answer::EntryIs(code)) => {
            let (layer, key) = (layer.number(), key.number());
            write!(f, "layer {layer}, key {key} = ")?;
            tell_code(f, code.bits())
        }
        (Action::Slot { page, slot }, Answer::SlotIs(bytes)) => {
            write!(f, "page {page}, slot {slot}: ")?;
            tell_slot(f, flash, *page, *slot, *bytes)
        }
        (Action::Slot { page, slot }, _) => write!(f, "page {page}, slot {slot}: no such slot"),
        (_, Answer::LedsAre(leds)) => tell_leds(f, *leds),
        _ => f.write_str("no report waits, and none is due"),
    }
}

/// Tells which LEDs are on: usages 01h to 05h of page 08h in bits 0 to 4.
fn tell_leds<W: fmt::Write>(f: &mut fmt::Formatter<W>, leds: u8) -> fmt::Result {
    f.write_str("LEDs on: ")?;
    let names = ["Num Lock", "Caps Lock", "Scroll Lock", "Compose", "Kana"];
    let mut left = leds;
    let mut between = "";
    for name in names {
        if left % 2 == 1 {
            write!(f, "{between}{name}")?;
            between = ", ";
        }
        left /= 2;
    }
    f.write_str(if between == "" { "none" } else { "" })
}

/// Tells of an answer that took no packet.
fn tell_refusal<W: fmt::Write>(f: &mut fmt::Formatter<W>, answer: &Answer) -> fmt::Result {
    match answer {
        Answer::Stall(why) => f.write_str(meaning(*why)),
        _ => f.write_str("a command works, so the host is to try again"),
    }
}

fn is_ack(answer: &Answer) -> bool {
    matches!(answer, Answer::Ack)
}

/// Tells an OUT packet that was taken: the end of a read, the LEDs, or a feature report.
fn tell_taken<W: fmt::Write>(f: &mut fmt::Formatter<W>, packet: &[u8]) -> fmt::Result {
    match packet {
        [] => f.write_str("the read is over"),
        [leds] | [_, leds] => tell_leds(f, *leds),
        [_, 0, layer, key, ..] => write!(f, "layer {layer}, key {key} is selected to be read"),
        [_, op, layer, key, low, high, ..] => {
            match Command::read(*op, *layer, *key, u16::from_le_bytes([*low, *high])) {
                Ok(command) => {
                    f.write_str("a command: ")?;
                    tell_command(f, command.word())
                }
                Err(_) => f.write_str("the packet is taken"),
            }
        }
        _ => f.write_str("the packet is taken"),
    }
}

/// Tells the answer of an IN token. A packet with fewer than 8 bytes ends what is read (USB 2.0 section 8.5.3).
fn tell_in<W: fmt::Write>(
    f: &mut fmt::Formatter<W>,
    answer: &Answer,
    read: Option<u16>,
) -> fmt::Result {
    let Answer::Packet(packet) = answer else {
        return tell_refusal(f, answer);
    };
    if packet.is_empty() {
        return match read {
            Some(count) => write!(f, "the read ends after {count} bytes"),
            None => f.write_str("the transfer succeeded"),
        };
    }
    let first = read.unwrap_or(0);
    let last = first.saturating_add(packet.len() as u16).saturating_sub(1);
    if first == last {
        write!(f, "byte {first} of the read")?;
    } else {
        write!(f, "bytes {first} to {last} of the read")?;
    }
    f.write_str(if packet.len() < 8 { ", the last" } else { "" })
}

/// Tells the answer of a step of the flash work, by a line with a fault or without.
fn tell_work<W: fmt::Write>(
    f: &mut fmt::Formatter<W>,
    answer: &Answer,
    made: &Made,
    torn: bool,
) -> fmt::Result {
    let Some(operation) = &made.last else {
        return f.write_str("no command works, so no operation is made");
    };
    tell_operation(f, operation)?;
    let failed = matches!(answer, Answer::Worked(Work::Failed));
    if torn && !failed {
        f.write_str("; it stands in spite of a fault")?;
    }
    match answer {
        Answer::Worked(Work::Settled) => f.write_str("; the command is stored"),
        Answer::Worked(Work::Failed) => f.write_str("; it is torn, and the command failed"),
        _ => f.write_str("; the command needs more steps"),
    }
}

/// Tells of a power cut inside a step of the flash work.
fn tell_cut<W: fmt::Write>(f: &mut fmt::Formatter<W>, made: &Made) -> fmt::Result {
    match &made.last {
        Some(operation) => {
            f.write_str("the power is cut inside an operation: ")?;
            tell_operation(f, operation)
        }
        None => f.write_str("the power is cut while no command works"),
    }
}

/// Tells the answer of a whole transfer that sets an entry.
fn tell_set<W: fmt::Write>(f: &mut fmt::Formatter<W>, answer: &Answer, made: &Made) -> fmt::Result {
    let is_nothing = made.count == 0;
    if is_ack(answer) {
        if is_nothing {
            return f.write_str("it was so already, and nothing is written");
        }
        f.write_str("stored: ")?;
        return tell_all(f, made);
    }
    tell_refusal(f, answer)?;
    if is_nothing {
        return Ok(());
    }
    f.write_str("; ")?;
    tell_all(f, made)
}
