//! The words of answers.

use crate::tests::asserts::made;
use crate::tests::rows::push;
use arrayvec::ArrayVec;
use kbsim::{Answer, Reading, Why, Work};
use std::process::Abort;

/// Adds the words of an answer to a text, the bytes in it in hex, and what the host reads in a report.
pub fn push_answer(rt: &impl Abort, text: &mut String, answer: &Answer) {
    push(rt, text, words(answer));
    for byte in bytes_in(answer).as_slice() {
        push_byte(rt, text, *byte);
    }
    if let Answer::Sent { reading, .. } = answer {
        push_reading(rt, text, reading);
    }
}

/// The words of an answer.
fn words(answer: &Answer) -> &'static str {
    match answer {
        Answer::Done => "ok",
        Answer::Ack => "ack",
        Answer::Nak => "nak",
        Answer::Restarted => "restart",
        Answer::NoSlot => "no slot",
        Answer::Worked(Work::Idle) => "idle",
        Answer::Worked(Work::Working) => "working",
        Answer::Worked(Work::Settled) => "settled",
        Answer::Worked(Work::Failed) => "failed",
        Answer::Packet(bytes) if bytes.is_empty() => "data -",
        Answer::Packet(_) => "data ",
        Answer::EntryIs(_) | Answer::SlotIs(_) | Answer::LedsAre(_) => "",
        Answer::Stall(why) => stall(*why),
        Answer::Sent { .. } => "report ",
    }
}

/// The bytes in an answer.
fn bytes_in(answer: &Answer) -> ArrayVec<u8, 32> {
    let mut bytes = ArrayVec::new();
    let _full = match answer {
        Answer::Packet(packet) => bytes.try_extend_from_slice(packet.as_slice()),
        Answer::EntryIs(code) => bytes.try_extend_from_slice(&code.bits().to_be_bytes()),
        Answer::SlotIs(slot) => bytes.try_extend_from_slice(slot),
        Answer::LedsAre(leds) => bytes.try_extend_from_slice(&[*leds]),
        Answer::Sent { bytes: report, .. } => bytes.try_extend_from_slice(report.as_slice()),
        _ => Ok(()),
    };
    bytes
}

fn push_byte(rt: &impl Abort, text: &mut String, byte: u8) {
    made(rt, text.push(digit(byte / 16)));
    made(rt, text.push(digit(byte % 16)));
}

fn digit(value: u8) -> char {
    char::from_digit(u32::from(value), 16).unwrap_or('?')
}

fn push_reading(rt: &impl Abort, text: &mut String, reading: &Reading) {
    match reading {
        Reading::Unread => push(rt, text, " unread"),
        Reading::NoMemory => panic!(rt; "memory"),
        Reading::Usages(usages) => push_usages(rt, text, usages.as_slice()),
    }
}

fn push_usages(rt: &impl Abort, text: &mut String, usages: &[u32]) {
    push(
        rt,
        text,
        if usages.is_empty() {
            " read none"
        } else {
            " read"
        },
    );
    for usage in usages {
        push(rt, text, " ");
        for byte in usage.to_be_bytes() {
            push_byte(rt, text, byte);
        }
    }
}

fn stall(why: Why) -> &'static str {
    match why {
        Why::UnknownRequest => "stall 1",
        Why::WrongInterface => "stall 2",
        Why::UnknownDescriptor => "stall 3",
        Why::UnknownReport => "stall 4",
        Why::WrongLength => "stall 5",
        Why::BadProtocol => "stall 6",
        Why::BadOperation => "stall 7",
        Why::BadLayer => "stall 8",
        Why::BadKey => "stall 9",
        Why::BadCode => "stall 10",
        Why::Unsound => "stall 11",
        Why::Worn => "stall 12",
        Why::FlashFault => "stall 13",
        Why::ShortData => "stall 14",
        Why::LongData => "stall 15",
        Why::WrongStage => "stall 16",
    }
}
