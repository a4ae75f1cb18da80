//! What a device answers to the events of a line, as a text.

use super::words::push_answer;
use crate::tests::asserts::{holds, made};
use crate::tests::rows::push;
use arrayvec::ArrayVec;
use kbsim::{Answer, Event, Work, World};
use script::{Action, Line, Statement, read_lines};
use std::alloc::Global;
use std::process::Abort;
use std::slice;

/// Takes one event.
pub fn taken(
    rt: &impl Abort,
    world: &mut World,
    answers: &mut Vec<Answer>,
    event: &Event,
) -> Answer {
    answers.clear();
    made(rt, world.run(slice::from_ref(event), answers));
    answers.pop().expect(rt, "an answer")
}

/// Adds what the lines of a script print, whose pages are below a number: each with its number before it, or alone.
pub fn take_script(
    rt: &impl Abort,
    alloc: Global,
    world: &mut World,
    pages: u8,
    is_numbered: bool,
    script: &[u8],
    text: &mut String,
) {
    holds(rt, script.len() <= 1000);
    let lines = read_lines(alloc, usize::from(pages), script)
        .ok()
        .expect(rt, "lines");
    let mut answers = Vec::new(alloc);
    for line in lines.as_slice() {
        if is_numbered {
            push_number(rt, alloc, line, text);
        }
        take_line(rt, alloc, world, &mut answers, &line.statement, text);
        if is_numbered {
            push(rt, text, "\n");
        }
    }
}

fn push_number(rt: &impl Abort, alloc: Global, line: &Line<'_>, text: &mut String) {
    let number = line.number;
    let printed = made(rt, format!(in alloc; "{number} "));
    push(rt, text, printed.as_str());
}

/// Takes the events of a line, and adds what it prints to a text.
fn take_line(
    rt: &impl Abort,
    alloc: Global,
    world: &mut World,
    answers: &mut Vec<Answer>,
    statement: &Statement<'_>,
    text: &mut String,
) {
    match statement {
        Statement::One(action) => {
            push_answer(rt, text, &taken(rt, world, answers, &event_of(action)));
        }
        Statement::Scans { count, scan } => {
            let event = Event::Scan(*scan);
            for _again in 1..count.get() {
                taken(rt, world, answers, &event);
            }
            push_answer(rt, text, &taken(rt, world, answers, &event));
        }
        Statement::Set { layer, key, code } => {
            push_answer(rt, text, &set(rt, world, answers, [*layer, *key], *code));
        }
        Statement::Fetch => fetched(rt, alloc, world, answers, text),
    }
}

/// The event of a line of one event.
fn event_of(action: &Action<'_>) -> Event {
    match action {
        Action::Scan(scan) => Event::Scan(*scan),
        Action::Poll => Event::Poll,
        Action::Setup(packet) => Event::Setup(*packet),
        Action::Out(packet) => Event::OutPacket(packet_of(packet.as_slice())),
        Action::In => Event::InPacket,
        Action::Work => Event::Work,
        Action::WorkFault(mask) => Event::WorkFault(mask.mask()),
        Action::Cut => Event::Cut,
        Action::CutWork(mask) => Event::CutInWork(mask.mask()),
        Action::Reset => Event::BusReset,
        Action::Entry(layer, key) => Event::Entry(*layer, *key),
        Action::Slot { page, slot } => Event::SlotAt {
            page: *page,
            slot: *slot,
        },
        Action::Leds => Event::Leds,
    }
}

/// A packet of these bytes, of which there are at most eight.
fn packet_of(bytes: &[u8]) -> ArrayVec<u8, 8> {
    let mut packet = ArrayVec::new();
    let _full = packet.try_extend_from_slice(bytes);
    packet
}

/// A feature transfer that sets an entry.
fn set(
    rt: &impl Abort,
    world: &mut World,
    answers: &mut Vec<Answer>,
    place: [u8; 2],
    code: u16,
) -> Answer {
    let setup = Event::Setup([0x21, 9, 3, 3, 0, 0, 6, 0]);
    taken(rt, world, answers, &setup);
    let [layer, key] = place;
    let [low, high] = code.to_le_bytes();
    let report = packet_of(&[3, 1, layer, key, low, high]);
    let got = taken(rt, world, answers, &Event::OutPacket(report));
    if !matches!(got, Answer::Ack) {
        return got;
    }
    for _step in 0..500 {
        let worked = taken(rt, world, answers, &Event::Work);
        if !matches!(worked, Answer::Worked(Work::Working)) {
            break;
        }
    }
    let status = taken(rt, world, answers, &Event::InPacket);
    match length(&status) {
        Some(0) => Answer::Ack,
        _ => status,
    }
}

/// How many bytes a packet of data has.
fn length(answer: &Answer) -> Option<usize> {
    match answer {
        Answer::Packet(bytes) => Some(bytes.len()),
        _ => None,
    }
}

/// A transfer of the report descriptor. What its line prints is added to a text.
fn fetched(
    rt: &impl Abort,
    alloc: Global,
    world: &mut World,
    answers: &mut Vec<Answer>,
    text: &mut String,
) {
    let setup = Event::Setup([0x81, 6, 0, 0x22, 0, 0, 0xFF, 0]);
    taken(rt, world, answers, &setup);
    let mut count = 0usize;
    for _packet in 0..99 {
        let got = taken(rt, world, answers, &Event::InPacket);
        let Some(length) = length(&got) else {
            return push_answer(rt, text, &got);
        };
        count = count.wrapping_add(length);
        if length < 8 {
            break;
        }
    }
    let got = taken(rt, world, answers, &Event::OutPacket(ArrayVec::new()));
    if !matches!(got, Answer::Ack) {
        return push_answer(rt, text, &got);
    }
    let printed = made(rt, format!(in alloc; "fetched {count}"));
    push(rt, text, printed.as_str());
}
