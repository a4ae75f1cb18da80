//! Texts and what they say: rows `TEXT = ANSWER`. Each text is parsed whole and in pieces.

use super::asserts::{made, same, same_at, same_text};
use super::rows::{bytes, shows, two};
use descriptor_parse::{Descriptor, Kind, ParseError, Parser, parse};
use std::alloc::Global;
use std::fmt;
use std::process::Abort;

/// The fields of a descriptor, `KIND ID BIT SIZE COUNT MIN MAX FORM USAGES` each, joined by semicolons.
#[derive(Drop)]
struct FieldWords<'a>(&'a Descriptor);

impl fmt::Display for FieldWords<'_> {
    fn fmt<W: fmt::Write>(&self, f: &mut fmt::Formatter<W>) -> fmt::Result {
        let fields = self.0.fields();
        if fields.is_empty() {
            return write!(f, "no fields");
        }
        for (place, field) in fields.iter().enumerate() {
            let between = if place > 0 { "; " } else { "" };
            let kind = kind_of(field.kind);
            let form = if field.array { "array" } else { "variable" };
            let usages = Ranges(self.0.ranges(place));
            write!(
                f,
                "{between}{kind} {} {} {} {} {} {} {form} {usages}",
                field.id, field.bit, field.size, field.count, field.min, field.max
            )?;
        }
        Ok(())
    }
}

fn kind_of(kind: Kind) -> &'static str {
    match kind {
        Kind::Input => "input",
        Kind::Output => "output",
        Kind::Feature => "feature",
    }
}

/// Ranges of usages, `FIRST-LAST` or one usage, joined by commas; `-` for none.
#[derive(Drop)]
struct Ranges<'a>(&'a [(u32, u32)]);

impl fmt::Display for Ranges<'_> {
    fn fmt<W: fmt::Write>(&self, f: &mut fmt::Formatter<W>) -> fmt::Result {
        if self.0.is_empty() {
            return write!(f, "-");
        }
        for (place, (first, last)) in self.0.iter().enumerate() {
            let between = if place > 0 { "," } else { "" };
            write!(f, "{between}{first:08x}")?;
            if first != last {
                write!(f, "-{last:08x}")?;
            }
        }
        Ok(())
    }
}

/// What is said of a text: its fields, or its fault as `NUMBER at OFFSET`.
#[derive(Drop)]
struct Answer<'a>(&'a Result<Descriptor, ParseError>);

impl fmt::Display for Answer<'_> {
    fn fmt<W: fmt::Write>(&self, f: &mut fmt::Formatter<W>) -> fmt::Result {
        match self.0 {
            Ok(descriptor) => fmt::Display::fmt(&FieldWords(descriptor), f),
            Err(error) => write!(f, "{} at {}", error.fault.number(), error.offset),
        }
    }
}

/// Parses a text in pieces of so many bytes, after a first one.
fn parse_cut(
    alloc: Global,
    text: &[u8],
    first: usize,
    size: usize,
) -> Result<Descriptor, ParseError> {
    let mut parser = Parser::new(alloc);
    feed_cut(&mut parser, text, first, size)?;
    parser.finish()
}

fn feed_cut(parser: &mut Parser, text: &[u8], first: usize, size: usize) -> Result<(), ParseError> {
    let (front, rest) = text.split_at(first.min(text.len()));
    parser.feed(front)?;
    for piece in rest.chunks(size.max(1)) {
        parser.feed(piece)?;
    }
    Ok(())
}

/// Compares the answer to the pieces of a text with that to the whole of it.
fn same_answers(
    rt: &impl Abort,
    got: &Result<Descriptor, ParseError>,
    whole: &Result<Descriptor, ParseError>,
    text: &[u8],
) {
    match (got, whole) {
        (Ok(a), Ok(b)) => {
            same(rt, &a.fields(), &b.fields());
            same(rt, &a.uses_ids(), &b.uses_ids());
            for field in 0..=b.fields().len() {
                same(rt, &a.ranges(field), &b.ranges(field));
            }
        }
        (Err(a), Err(b)) => same_at(rt, a, b, &text),
        _ => panic!(rt; "of {text:?} one refuses what the other does not"),
    }
}

/// Compares the answer to a text with those in every cutting of two pieces, of a long text in some hundreds of them, in
/// single bytes, and in pieces of eight.
fn check_cuttings(
    rt: &impl Abort,
    alloc: Global,
    text: &[u8],
    whole: &Result<Descriptor, ParseError>,
) {
    for first in (0..=text.len()).step_by(text.len() / 600 + 1) {
        same_answers(rt, &parse_cut(alloc, text, first, usize::MAX), whole, text);
    }
    same_answers(rt, &parse_cut(alloc, text, 0, 1), whole, text);
    same_answers(rt, &parse_cut(alloc, text, 0, 8), whole, text);
}

#[test]
fn texts_and_their_answers(rt: HostRuntime) {
    for row in TEXTS.lines() {
        let (words, wanted) = two(&rt, row, " = ");
        let text = bytes(&rt, words);
        let whole = parse(rt.alloc(), &text);
        shows(&rt, rt.alloc(), &Answer(&whole), wanted, row);
        check_cuttings(&rt, rt.alloc(), &text, &whole);
    }
}

const TEXTS: &str = "\
SERVED = input 1 0 1 8 0 1 variable 000700e0-000700e7; input 1 8 1 161 0 1 variable 00070004-000700a4; output 1 0 1 5 0 1 variable 00080001-00080005; input 2 0 16 4 0 1023 array 000c0000-000c03ff; feature 3 0 8 5 0 255 variable ff000002
- = no fields
05 = 1 at 0
A9 01 = 2 at 0
B4 = 3 at 0
85 00 = 5 at 0
C0 = 8 at 0
19 05 81 02 = 10 at 2
19 05 29 04 = 11 at 2
75 08 95 01 81 02 85 01 = 14 at 6
A1 01 = 15 at 2
FE 02 00 AA BB = no fields
15 00 25 A4 75 08 95 01 81 00 = input 0 0 8 1 0 164 array -
85 01 A4 85 02 B4 75 08 95 01 81 02 = input 1 0 8 1 0 0 variable -
9*A4 = 4 at 8
75 21 95 01 81 02 = 6 at 4
76 00 04 95 01 81 01 = no fields
76 01 04 95 01 81 01 = 6 at 5
75 01 96 01 04 81 02 = 7 at 5
17*A100 = 9 at 32
15 01 25 00 75 08 95 01 81 00 = 12 at 8
75 01 95 01 257*8102 = 13 at 516
4096*04 = no fields
4097*04 = 16 at 4096
2048*0501 05 = 1 at 4096";

/// Feeds pieces to a new parser, `PIECE = ANSWER` a row, and compares its answers: `ok`, or a fault. The last row is
/// `end = ANSWER`, and says what is told of the whole text.
fn feeds<R: AllocGlobal + Abort>(rt: &R, rows: &str) {
    let (pieces, end) = two(rt, rows, "end = ");
    let mut parser = Parser::new(rt.alloc());
    for row in pieces.lines() {
        let (piece, wanted) = two(rt, row, " = ");
        let got = parser.feed(&bytes(rt, piece));
        takes(rt, rt.alloc(), got, wanted, row);
    }
    shows(rt, rt.alloc(), &Answer(&parser.finish()), end, rows);
}

fn takes(rt: &impl Abort, alloc: Global, got: Result<(), ParseError>, wanted: &str, row: &str) {
    match got {
        Ok(()) => same_text(rt, "ok", wanted, row),
        Err(error) => {
            let got = format!(in alloc; "{} at {}", error.fault.number(), error.offset);
            same_text(rt, made(rt, got).as_str(), wanted, row);
        }
    }
}

#[test]
fn an_item_is_checked_once_it_is_whole(rt: HostRuntime) {
    for rows in WHOLE_ITEMS.split("\n\n") {
        feeds(&rt, rows);
    }
}

const WHOLE_ITEMS: &str = "\
A9 = ok
01 = 2 at 0
00 = 2 at 0
end = 2 at 0

A9 = ok
end = 1 at 0

4095*04 = ok
85 = ok
00 = 5 at 4095
end = 5 at 4095

4095*04 = ok
04 = ok
09 = ok
01 = 16 at 4096
end = 16 at 4096";

/// The served text in packets of eight bytes.
#[test]
fn the_served_descriptor_in_packets(rt: HostRuntime) {
    feeds(&rt, PACKETS);
}

const PACKETS: &str = "\
05 01 09 06 A1 01 85 01 = ok
05 07 19 E0 29 E7 15 00 = ok
25 01 75 01 95 08 81 02 = ok
19 04 29 A4 95 A1 81 02 = ok
95 07 81 03 05 08 19 01 = ok
29 05 95 05 91 02 95 03 = ok
91 03 C0 05 0C 09 01 A1 = ok
01 85 02 15 00 26 FF 03 = ok
19 00 2A FF 03 75 10 95 = ok
04 81 00 C0 06 00 FF 09 = ok
01 A1 01 85 03 09 02 15 = ok
00 26 FF 00 75 08 95 05 = ok
B1 02 C0 = ok
end = input 1 0 1 8 0 1 variable 000700e0-000700e7; input 1 8 1 161 0 1 variable 00070004-000700a4; output 1 0 1 5 0 1 variable 00080001-00080005; input 2 0 16 4 0 1023 array 000c0000-000c03ff; feature 3 0 8 5 0 255 variable ff000002";

/// What is said of the first 0, 1, 2 and so on bytes of the served text: the number of fields, or a fault.
const PREFIXES: &str = "\
0 1at0 0 1at2 0 1at4 15at6 1at6 15at8 1at8
15at10 1at10 15at12 1at12 15at14 1at14 15at16 1at16 15at18 1at18
15at20 1at20 15at22 1at22 15at24 1at24 15at26 1at26 15at28 1at28
15at30 1at30 15at32 1at32 15at34 1at34 15at36 1at36 15at38 1at38
15at40 1at40 15at42 1at42 15at44 1at44 15at46 1at46 15at48 1at48
15at50 3 1at51 3 1at53 3 1at55 15at57 1at57 15at59
1at59 15at61 1at61 1at61 15at64 1at64 15at66 1at66 1at66 15at69
1at69 15at71 1at71 15at73 1at73 15at75 4 1at76 1at76 4
1at79 4 1at81 15at83 1at83 15at85 1at85 15at87 1at87 15at89
1at89 1at89 15at92 1at92 15at94 1at94 15at96 1at96 15at98 5";

#[test]
fn each_prefix_of_the_served_text(rt: HostRuntime) {
    let text = bytes(&rt, "SERVED");
    for (len, wanted) in PREFIXES.split_whitespace().enumerate() {
        check_prefix(&rt, text.get(..len).unwrap_or(&[]), len, wanted);
    }
    let prefixes = PREFIXES.split_whitespace().count();
    same(&rt, &prefixes, &(text.len() + 1));
}

fn check_prefix<R: AllocGlobal + Abort>(rt: &R, text: &[u8], len: usize, wanted: &str) {
    same(rt, &text.len(), &len);
    let whole = parse(rt.alloc(), text);
    said_of_prefix(rt, rt.alloc(), &whole, wanted);
    check_cuttings(rt, rt.alloc(), text, &whole);
}

fn said_of_prefix(
    rt: &impl Abort,
    alloc: Global,
    got: &Result<Descriptor, ParseError>,
    wanted: &str,
) {
    let got = match got {
        Ok(descriptor) => format!(in alloc; "{}", descriptor.fields().len()),
        Err(error) => format!(in alloc; "{}at{}", error.fault.number(), error.offset),
    };
    same_text(rt, made(rt, got).as_str(), wanted, wanted);
}
