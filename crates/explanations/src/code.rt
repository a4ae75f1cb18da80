//! Codes, commands and usages in words.

use crate::usages::{CONSUMER, KEYBOARD};
use layers::Command;
use std::fmt;
use text_io::HexWord;

/// The name of a usage of the keyboard page or the consumer page, where it has one.
fn usage_name(usage: u32) -> Option<&'static str> {
    let names = match usage >> 16 {
        0x07 => KEYBOARD,
        0x0C => CONSUMER,
        _ => return None,
    };
    for line in names.lines() {
        if let Some((number, name)) = line.split_once(' ') {
            if u32::from_str_radix(number, 16) == Ok(usage % 0x1_0000) {
                return Some(name);
            }
        }
    }
    None
}

/// Tells a usage, its page in the high 16 bits.
pub(crate) fn tell_usage<W: fmt::Write>(f: &mut fmt::Formatter<W>, usage: u32) -> fmt::Result {
    match usage_name(usage) {
        Some(name) => f.write_str(name),
        None => {
            let usage = HexWord(usage);
            write!(f, "usage {usage}")
        }
    }
}

/// Tells a code of a keymap.
pub(crate) fn tell_code<W: fmt::Write>(f: &mut fmt::Formatter<W>, code: u16) -> fmt::Result {
    match code {
        0x0000 => f.write_str("nothing"),
        0x0001 => f.write_str("what a lower layer says"),
        0x4000..=0x43FF => tell_usage(f, 0xC_0000 + (code % 0x1000) as u32),
        0x5001..=0x5003 => {
            let layer = code % 0x1000;
            write!(f, "layer {layer} while held")
        }
        _ => tell_usage(f, 0x7_0000 + code as u32),
    }
}

/// Tells the word of a command: its operation, layer, key and code.
pub(crate) fn tell_command<W: fmt::Write>(f: &mut fmt::Formatter<W>, word: u32) -> fmt::Result {
    if Command::from_word(word).is_none() {
        let word = HexWord(word);
        return write!(f, "a word that is no command, {word}");
    }
    let [low, high, key, top] = word.to_le_bytes();
    let layer = top % 16;
    match top / 16 {
        1 => {
            write!(f, "layer {layer}, key {key} = ")?;
            tell_code(f, u16::from_le_bytes([low, high]))
        }
        2 => write!(f, "layer {layer} = its default"),
        _ => f.write_str("all layers = their default"),
    }
}
