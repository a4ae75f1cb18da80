//! Scripts that a fixed generator draws from the lines of the other tests, beside what a device
//! answers to their events, in words of this module's own.

use super::device::take_script;
use super::prints;
use crate::tests::asserts::made;
use crate::tests::rows::{next as next_number, push};
use kbsim::{SimFlash, World};
use std::alloc::Global;
use std::process::Abort;

/// The lines, in the order of the tests.
const LINES: &str = "# no line of these prints

entry 0 0
set 0 0 0005
slot 0 0
slot 0 1
cut
entry 0 0
set 0 0 0004
slot 0 2
setup 2109030300000600
out 030100000500
in
work
entry 0 0
work
in
work
setup 2109030300000600
out 030100000500
work
cutwork 0f
slot 0 1
entry 0 0
setup 2109030300000600
out 030100000600
work
cutwork ff
entry 0 0
in
setup 2109030300000600
out 030100000500
work
workfault ff
in
setup 2109030300000600
out 030100000600
workfault 00
in
slot 0 1
workfault 00
cutwork 55
slot 1 0
slot 1 1
setup 2109030300000600
out 030100000500
setup A103000000000100
work
cut
setup 2109030300000600
out 030100000500
set 0 1 0005
reset
in
work
work
entry 0 1
setup 210B000000000000
in
scans 4 0
scan
scans 4 0
poll
scan 0
poll
scans 5 0 1 2 3 4 5 6 88
poll
set 0 0 0004
set 0 1 0004
set 0 2 0004
scans 5 0 1 2 3 4 5 6
poll
set 0 10 5001
set 1 0 001E
scans 5 10
scans 5 0 10
scans 5 0
poll
set 0 0 5001
set 1 10 001E
scans 5 0 10
poll
fetch
setup 810600220000FF00
in
in
setup 8106002200006000
in
setup 8106002200004000
in
set 0 0 4192
scans 5 0
poll
fetch
set 0 1 40B0
scans 5 0 1
poll
poll
poll
scans 499 0 1
poll
scan 0 1
poll
set 0 0 4005
set 0 1 4004
set 0 2 4003
set 0 3 4002
set 0 4 4001
scans 5 0 1 2 3 4
poll
scans 5
poll
setup A102000100000100
in
setup A102010000000100
in
setup A102000000000100
in
setup 210A000000000000
in
setup 210A002800000000
in
setup A102020000000100
in
reset
setup 8000000000000200
in
setup A103000001000100
in
setup 8006000300000400
in
setup 2109030300000500
out 0301000005
setup 210B020000000000
in
setup 2109030300000600
out 030400000000
setup 2109030300000600
out 030104000500
setup 2109030300000600
out 030100600500
setup 2109030300000600
out 03010000A500
setup 2109030300000600
out 0301000005
setup 2109030300000600
out 03010000050000
setup 2109030300000600
out 010100000500
setup 2109030300000600
in
out
setup 2109010200000200
out 01e2
in
leds
reset
leds
setup 2109030300000600
out 030000010000
in
setup A101030300000600
in
out
set 4 0 0005
set 255 255 0005
set 0 96 0005
set 0 0 00a5
set 0 0 4000
set 0 0 4400
set 0 0 0001
scans 5 0
poll
setup 210B010000000000
in
scans 5 1
poll
slot 1 511
slot 0 511
slot 1 2
cutwork 00
scans 499 0
scans 5 0 1 2 3
scans 5 1 2 3 4
set 0 0 00A5
set 0 0 43ff
set 0 1 40E9
set 0 3 0004
set 0 4 0004
set 0 5 0004
set 0 6 0004
setup 8106002200006300
in";

/// A number that looks random, after another.
fn next(number: &mut u32) -> usize {
    *number = next_number(*number);
    (*number >> 16) as usize
}

/// Draws a script of 1 to 20 of these lines.
fn drawn(rt: &impl Abort, alloc: Global, lines: &[&str], number: &mut u32) -> String {
    let mut script = String::new(alloc);
    let mut place = next(number);
    for _line in 0..1 + next(number) % 20 {
        push(
            rt,
            &mut script,
            lines.get(place % 200).copied().unwrap_or(""),
        );
        push(rt, &mut script, "\n");
        // Mostly the line after it comes next, so that transfers come to their ends.
        place = place.wrapping_add(1);
        if next(number) % 4 == 0 {
            place = next(number);
        }
    }
    script
}

/// What a script prints, by what a device answers.
fn printed_by(rt: &impl Abort, alloc: Global, script: &[u8]) -> String {
    let flash = SimFlash::new(alloc, 2).expect(rt, "a flash");
    let mut world = made(rt, World::new(alloc, flash));
    let mut text = String::new(alloc);
    take_script(rt, alloc, &mut world, 2, true, script, &mut text);
    text
}

#[test]
fn two_thousand_scripts(rt: HostRuntime) {
    let alloc = rt.alloc();
    let lines: Vec<&str> = made(&rt, LINES.lines().collect(alloc));
    let mut number = 1;
    for _script in 0..2000 {
        let script = drawn(&rt, alloc, lines.as_slice(), &mut number);
        let expected = printed_by(&rt, alloc, script.as_bytes());
        prints(&rt, 2, script.as_bytes(), Ok(()), expected.as_str());
    }
}
