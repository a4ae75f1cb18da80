//! Worlds on flashes with something in them, or that are armed: lines of a script beside what each prints.

use super::device::{take_script, taken};
use crate::tests::asserts::{made, same_at, same_text};
use crate::tests::rows::image;
use flash_model::Mask;
use kbsim::{Answer, Event, SimFlash, World};
use std::alloc::Global;
use std::process::Abort;

/// A world on a flash of two pages with these slots.
fn world_on<R: AllocGlobal + Abort>(rt: &R, slots: &str) -> World {
    let flash = SimFlash::from_image(image(rt, slots)).expect(rt, "a flash");
    made(rt, World::new(rt.alloc(), flash))
}

/// Takes lines, each with what it prints behind ` = `, where that is looked at.
fn takes(rt: &impl Abort, alloc: Global, world: &mut World, rows: &str) {
    for row in rows.lines() {
        let row = row.trim();
        let (line, wanted) = row.split_once(" = ").unwrap_or((row, ""));
        let mut text = String::new(alloc);
        take_script(rt, alloc, world, 8, false, line.as_bytes(), &mut text);
        if !wanted.is_empty() {
            same_text(rt, text.as_str(), wanted, row);
        }
    }
}

/// Takes lines in a world on a flash with these slots.
fn session_on<R: AllocGlobal + Abort>(rt: &R, slots: &str, rows: &str) {
    takes(rt, rt.alloc(), &mut world_on(rt, slots), rows);
}

#[test]
fn a_header_that_is_not_sound(rt: HostRuntime) {
    session_on(
        &rt,
        "0 0 01000020feffffdf
        0 1 05000010faffffef
        1 0 0000000000000000",
        "entry 0 0 = 0005
        setup 2109030300000600
        out 030100000600 = stall 11
        in = stall 11
        set 0 0 0005 = stall 11
        set 4 0 0005 = stall 8
        setup 2109030300000600
        out 030000000000 = ack
        in = data -
        work = idle
        slot 1 0 = 0000000000000000",
    );
}

#[test]
fn the_last_sequence_numbers(rt: HostRuntime) {
    // Of format 1, with slots left.
    session_on(
        &rt,
        "0 0 ffffff1f000000e0",
        "set 0 0 0005 = stall 12
        set 0 0 0004 = ack",
    );
    // Of format 1, and full.
    session_on(
        &rt,
        "full
        0 0 ffffff1f000000e0
        1 9 0000000000000000",
        "set 0 0 0006 = stall 12
        entry 0 0 = 0005
        set 0 0 0005 = ack
        work = idle",
    );
    // Of format 2, with room.
    session_on(
        &rt,
        "0 0 ffffff2f000000d0",
        "setup 2109030300000600
        out 030100000500 = ack
        work = settled",
    );
}

#[test]
fn two_headers_with_one_number(rt: HostRuntime) {
    session_on(
        &rt,
        "0 0 01000010feffffef
        0 1 05000010faffffef
        1 0 01000010feffffef
        1 1 06000010f9ffffef",
        "entry 0 0 = 0005",
    );
}

/// A page of format 1, which the first change compacts.
const OF_FORMAT_1: &str = "0 0 01000010feffffef
    0 1 0d400010f2bfffef";

#[test]
fn a_page_of_format_1(rt: HostRuntime) {
    session_on(
        &rt,
        OF_FORMAT_1,
        "entry 0 0 = 4192
        set 0 0 4192 = ack
        work = idle
        setup 2109030300000600
        out 030100010600 = ack
        work = working
        work = working
        work = settled
        slot 1 0 = 02000020fdffffdf
        slot 1 1 = 924100106dbeffef
        slot 1 2 = 06000110f9fffeef",
    );
}

#[test]
fn a_cut_in_a_turn_keeps_the_keymap(rt: HostRuntime) {
    // Inside the copy, and inside the header.
    for cut in ["00", "01", "0f", "55", "aa", "f0", "fe", "ff"] {
        for before in ["leds", "work = working"] {
            let mut world = world_on(&rt, OF_FORMAT_1);
            let begun = "setup 2109030300000600\nout 030100010600 = ack";
            takes(&rt, rt.alloc(), &mut world, begun);
            takes(&rt, rt.alloc(), &mut world, before);
            let cut = made(&rt, format!(in rt.alloc(); "cutwork {cut} = restart"));
            takes(&rt, rt.alloc(), &mut world, cut.as_str());
            takes(
                &rt,
                rt.alloc(),
                &mut world,
                "entry 0 0 = 4192\nentry 0 1 = 0005",
            );
        }
    }
}

#[test]
fn a_full_page_takes_387_steps_or_none(rt: HostRuntime) {
    let slots = "full
        0 0 01000010feffffef
        1 9 0000000000000000";
    let mut world = world_on(&rt, slots);
    let begun = "setup 2109030300000600\nout 030100000000 = ack";
    takes(&rt, rt.alloc(), &mut world, begun);
    for _ in 0..386 {
        takes(&rt, rt.alloc(), &mut world, "work = working");
    }
    takes(
        &rt,
        rt.alloc(),
        &mut world,
        "entry 0 0 = 0005
        work = settled
        in = data -
        work = idle
        slot 1 385 = 00000010ffffffef
        slot 1 386 = ffffffffffffffff",
    );
    // What changes nothing takes no step.
    takes(
        &rt,
        rt.alloc(),
        &mut world,
        "set 0 0 0000 = ack\nwork = idle",
    );
}

/// A world on a blank flash whose next operation writes nothing and fails.
fn armed<R: AllocGlobal + Abort>(rt: &R) -> World {
    let mut flash = SimFlash::new(rt.alloc(), 2).expect(rt, "a flash");
    let mut mask = Mask::new();
    mask.try_push(0x00).ok().expect(rt, "room");
    flash.fault_next(mask);
    made(rt, World::new(rt.alloc(), flash))
}

/// Each on a flash that is armed: the first operation fails; a set whose command fails prints the stall of its status
/// stage; a fault takes the place of the armed one.
const ARMED: [&str; 3] = [
    "setup 2109030300000600
    out 030100000500 = ack
    work = failed
    in = stall 13
    set 0 0 0005 = ack
    slot 0 0 = 01000020feffffdf
    slot 0 1 = 05000010faffffef",
    "set 0 0 0005 = stall 13
    entry 0 0 = 0004
    set 0 0 0005 = ack
    entry 0 0 = 0005",
    "setup 2109030300000600
    out 030100000500 = ack
    workfault ff = working
    work = settled
    in = data -
    entry 0 0 = 0005",
];

#[test]
fn on_a_flash_that_is_armed(rt: HostRuntime) {
    for rows in ARMED {
        takes(&rt, rt.alloc(), &mut armed(&rt), rows);
    }
}

#[test]
fn a_place_outside_the_flash_is_no_slot(rt: HostRuntime) {
    let mut world = world_on(&rt, "1 511 05000010faffffef");
    let mut answers = Vec::new(rt.alloc());
    for (page, slot) in [(2, 0), (255, 0), (0, 512), (1, 65_535), (7, 65_535)] {
        let got = taken(&rt, &mut world, &mut answers, &Event::SlotAt { page, slot });
        same_at(&rt, &got, &Answer::NoSlot, &(page, slot));
    }
    takes(&rt, rt.alloc(), &mut world, "slot 1 511 = 05000010faffffef");
}
