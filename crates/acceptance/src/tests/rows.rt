//! What rows are written in: numbers, bytes in hex digits and slots; numbers that look random; and the two sides of a row.

use super::asserts::{made, same_text};
use layers::ENTRIES;
use std::alloc::Global;
use std::fmt::Display;
use std::process::Abort;

/// The text of these bytes.
pub fn text_of(bytes: &[u8]) -> &str {
    std::str::from_utf8(bytes).unwrap_or("bytes that are no text")
}

/// Adds a text to another.
pub fn push(rt: &impl Abort, to: &mut String, more: &str) {
    made(rt, to.push_str(more));
}

/// The two sides of a row, which `between` parts.
pub fn two<'a>(rt: &impl Abort, row: &'a str, between: &str) -> (&'a str, &'a str) {
    match row.split_once(between) {
        Some(sides) => sides,
        None => panic!(rt; "no {between} in the row {row}"),
    }
}

/// A decimal number that a row gives.
pub fn number(rt: &impl Abort, word: &str) -> usize {
    match word.parse::<usize>() {
        Ok(number) => number,
        Err(_) => panic!(rt; "{word} is no number"),
    }
}

/// The byte of two hex digits.
fn byte_of(pair: &[u8]) -> Option<u8> {
    let [high, low] = pair else {
        return None;
    };
    let high = (*high as char).to_digit(16)?;
    let low = (*low as char).to_digit(16)?;
    u8::try_from(high.wrapping_mul(16) | low).ok()
}

/// Adds the bytes of two hex digits each; `None` where the text has others, or memory is refused.
fn push_bytes(to: &mut Vec<u8>, digits: &str) -> Option<()> {
    for pair in digits.as_bytes().chunks(2) {
        to.push(byte_of(pair)?).ok()?;
    }
    Some(())
}

/// The report descriptor that the keyboard serves, 99 bytes.
const SERVED: &str = "\
    05010906A1018501050719E029E715002501750195088102190429A495A18102950781030508190129059505910295039103C0\
    050C0901A1018502150026FF0319002AFF03751095048100C0\
    0600FF0901A10185030902150026FF0075089505B102C0";

/// The bytes that words write: hex digits; `3*A100`, which is three times `A1 00`; `SERVED`, the served descriptor; or `-`,
/// which is no byte.
pub fn bytes<R: AllocGlobal + Abort>(rt: &R, words: &str) -> Vec<u8> {
    let mut out = Vec::new(rt.alloc());
    push_words(rt, &mut out, words);
    out
}

fn push_words(rt: &impl Abort, out: &mut Vec<u8>, words: &str) {
    for word in words.split(' ') {
        let (count, digits) = match word {
            "SERVED" => (1, SERVED),
            "-" => (0, "00"),
            _ => match word.split_once('*') {
                Some((count, digits)) => (number(rt, count), digits),
                None => (1, word),
            },
        };
        assert!(rt; !digits.is_empty(), "a blank too many in {words}");
        for _ in 0..count {
            push_bytes(out, digits).expect(rt, "hex digits");
        }
    }
}

/// Compares what is shown of a value with what a row wants.
pub fn shows<T: Display>(rt: &impl Abort, alloc: Global, got: &T, wanted: &str, row: &str) {
    let shown = made(rt, format!(in alloc; "{got}"));
    same_text(rt, shown.as_str(), wanted, row);
}

/// A number that looks random, from the one before it.
pub fn next(random: u32) -> u32 {
    random.wrapping_mul(1_664_525).wrapping_add(1_013_904_223)
}

/// The bytes of a slot that holds a word: the word beside its complement.
pub fn good(word: u32) -> [u8; 8] {
    let [a, b, c, d] = word.to_le_bytes();
    [a, b, c, d, !a, !b, !c, !d]
}

/// The word of a slot of a full page, but for its first one: each entry is set to 0000, and then entry (0, 0) in turn to
/// 0005 and 0000.
fn full_word(slot: u32) -> u32 {
    let place = slot.wrapping_sub(1);
    let entry = if place < ENTRIES as u32 {
        place / 96 << 24 | place % 96 << 16
    } else {
        slot % 2 * 5
    };
    0x1000_0000 | entry
}

/// Writes a slot of an image; whether the image has it.
fn put_slot(image: &mut [u8], page: usize, slot: usize, bytes: [u8; 8]) -> bool {
    let from = page.wrapping_mul(512).wrapping_add(slot).wrapping_mul(8);
    for k in 0..8 {
        match image.get_mut(from.wrapping_add(k)) {
            Some(byte) => *byte = bytes[k],
            None => return false,
        }
    }
    true
}

/// Writes a slot of a row: its page, its number and its 16 digits; whether the image has it, if the row is one.
fn put_row(image: &mut [u8], row: &str) -> Option<bool> {
    let (page, rest) = row.split_once(' ')?;
    let (slot, digits) = rest.split_once(' ')?;
    let bytes = u64::from_str_radix(digits, 16).ok()?.to_be_bytes();
    Some(put_slot(
        image,
        page.parse::<usize>().ok()?,
        slot.parse::<usize>().ok()?,
        bytes,
    ))
}

/// An image of two pages, blank but for slots, a row each, as `0 1 05000010faffffef` for page 0, slot 1. `full` stands for
/// slots 1 to 511 of page 0, with all 384 entries set.
pub fn image<R: AllocGlobal + Abort>(rt: &R, rows: &str) -> Vec<u8> {
    let mut image = vec![in rt.alloc(); 0xffu8; 8192].ok().expect(rt, "memory");
    for row in rows.lines() {
        if row.trim() == "full" {
            fill_page(image.as_mut_slice());
        } else {
            assert!(rt;
                put_row(image.as_mut_slice(), row.trim()) == Some(true),
                "in {row}"
            );
        }
    }
    image
}

fn fill_page(image: &mut [u8]) {
    for slot in 1..512u32 {
        put_slot(image, 0, slot as usize, good(full_word(slot)));
    }
}
