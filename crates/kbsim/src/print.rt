//! Answers and faults as lines.

ghost use Rattle.std.specs.Prelude.{◌≡◌, Some};
ghost use Rattle.kbsim.specs.Prints.{fault_line, fault_name, outcome_name, printed_line, shown, shown_outcome, shown_reading, shown_usages};

use crate::outcome::Outcome;
use crate::{Answer, LineFault, Reading, RunError, Work};
use std::fmt;
use text_io::{HexDigits, HexWord};

/// The line of an outcome: the number of the script's line, and the outcome.
#[derive(Drop)]
pub(crate) struct PrintedLine<'a> {
    pub(crate) number: usize,
    pub(crate) outcome: &'a Outcome,
}

impl fmt::Display for PrintedLine<'_> {
    ghost output = { λ l. Some (printed_line l.number l.outcome.now) };

    fn fmt<W: fmt::Write>(&self, f: &mut fmt::Formatter<W>) -> fmt::Result {
        let number = self.number;
        let shown = ShownOutcome(self.outcome);
        writeln!(f, "{number} {shown}")
    }
}

/// The line of a fault; nothing where it has none.
#[derive(Drop)]
pub(crate) struct FaultLine(pub(crate) RunError);

impl fmt::Display for FaultLine {
    ghost output = { λ l. Some (fault_line l.0) };

    fn fmt<W: fmt::Write>(&self, f: &mut fmt::Formatter<W>) -> fmt::Result {
        match self.0 {
            RunError::PageCount | RunError::Output => Ok(()),
            RunError::Line { line, fault } => {
                let name = name_of(fault);
                writeln!(f, "fault line {line}: {name}")
            }
            RunError::TooLong => writeln!(f, "fault too long"),
            RunError::Input => writeln!(f, "fault input"),
            RunError::Image => writeln!(f, "fault image"),
            RunError::Memory => writeln!(f, "fault memory"),
        }
    }
}

fn name_of(fault: LineFault) -> &'static str
    ensures { result.now ≡ fault_name fault }
{
    match fault {
        LineFault::UnknownWord => "unknown word",
        LineFault::WrongWords => "wrong words",
        LineFault::BadNumber => "bad number",
        LineFault::BadHex => "bad hex",
    }
}

/// What a line came to, as scripts show it.
#[derive(Drop)]
struct ShownOutcome<'a>(&'a Outcome);

impl fmt::Display for ShownOutcome<'_> {
    ghost output = { λ s. Some (shown_outcome s.0.now) };

    fn fmt<W: fmt::Write>(&self, f: &mut fmt::Formatter<W>) -> fmt::Result {
        match self.0 {
            Outcome::Answered(answer) => {
                let shown = Shown(answer);
                write!(f, "{shown}")
            }
            Outcome::Fetched(count) => {
                let count = *count;
                write!(f, "fetched {count}")
            }
        }
    }
}

/// An answer as scripts show it.
#[derive(Drop)]
struct Shown<'a>(&'a Answer);

impl fmt::Display for Shown<'_> {
    ghost output = { λ s. Some (shown s.0.now) };

    #[tactic(auto, unfolding(crate::specs::Prints::shown))]
    fn fmt<W: fmt::Write>(&self, f: &mut fmt::Formatter<W>) -> fmt::Result {
        match self.0 {
            Answer::Done => write!(f, "ok"),
            Answer::Sent { bytes, reading } => {
                let digits = HexDigits(bytes.as_slice());
                let read = Read(reading);
                write!(f, "report {digits} {read}")
            }
            Answer::Ack => write!(f, "ack"),
            Answer::Nak => write!(f, "nak"),
            Answer::Packet(bytes) if bytes.is_empty() => write!(f, "data -"),
            Answer::Packet(bytes) => {
                let digits = HexDigits(bytes.as_slice());
                write!(f, "data {digits}")
            }
            Answer::Stall(why) => {
                let number = why.number();
                write!(f, "stall {number}")
            }
            Answer::Worked(work) => write!(f, "{}", outcome_of(*work)),
            Answer::Restarted => write!(f, "restart"),
            Answer::EntryIs(code) => {
                let bytes = code.bits().to_be_bytes();
                let digits = HexDigits(bytes.as_slice());
                write!(f, "{digits}")
            }
            Answer::SlotIs(bytes) => {
                let digits = HexDigits(bytes.as_slice());
                write!(f, "{digits}")
            }
            Answer::NoSlot => write!(f, "no slot"),
            Answer::LedsAre(leds) => {
                let bytes = [*leds];
                let digits = HexDigits(bytes.as_slice());
                write!(f, "{digits}")
            }
        }
    }
}

/// What the host makes of a report, as scripts show it.
#[derive(Drop)]
struct Read<'a>(&'a Reading);

impl fmt::Display for Read<'_> {
    ghost output = { λ r. Some (shown_reading r.0.now) };

    #[tactic(auto, unfolding(crate::specs::Prints::shown_reading))]
    fn fmt<W: fmt::Write>(&self, f: &mut fmt::Formatter<W>) -> fmt::Result {
        match self.0 {
            Reading::Unread => write!(f, "unread"),
            Reading::NoMemory => write!(f, "no memory"),
            Reading::Usages(usages) if usages.as_slice().is_empty() => write!(f, "read none"),
            Reading::Usages(usages) => {
                let usages = Usages(usages.as_slice());
                write!(f, "read{usages}")
            }
        }
    }
}

/// Usages as eight hex digits, each after a space.
#[derive(Drop)]
struct Usages<'a>(&'a [u32]);

impl fmt::Display for Usages<'_> {
    ghost output = { λ u. Some (shown_usages u.0.now) };

    fn fmt<W: fmt::Write>(&self, f: &mut fmt::Formatter<W>) -> fmt::Result {
        for usage in self.0 {
            let usage = HexWord(*usage);
            write!(f, " {usage}")?;
        }
        Ok(())
    }
}

fn outcome_of(work: Work) -> &'static str
    ensures { result.now ≡ outcome_name work }
{
    match work {
        Work::Idle => "idle",
        Work::Working => "working",
        Work::Settled => "settled",
        Work::Failed => "failed",
    }
}
