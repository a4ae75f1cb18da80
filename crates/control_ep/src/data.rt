//! The bytes that a read sends, as words, two to a packet.

ghost use Rattle.std.specs.Prelude.{◌≡◌, ◌+◌, ◌*◌, ◌<◌, ◌≤◌, [], ◌∷◌, length, take, map, None, IsSome, IfSome};
ghost use Rattle.std.specs.Option.{option_map};
ghost use Rattle.std.specs.List.{range_with_len};
ghost use Rattle.reports.specs.representation.Words.{byte_at, first_bytes};
ghost use Rattle.control_ep.specs.Packets.{packet_at};
ghost use Rattle.control_ep.specs.representation.ReadData.{descriptor_bytes, words_in, Fits};

use crate::words::{CONFIGURATION_WORDS, DEVICE_WORDS, HID_WORDS, REPORT_WORDS};
use reports::words::{four, word};
use std::marker::Model;

/// The descriptors, which are constants.
#[derive(Clone, Copy, Debug)]
pub(crate) enum Descriptor {
    /// That of the device.
    Device,
    /// That of the configuration, and what it holds.
    Configuration,
    /// The HID descriptor.
    Hid,
    /// The report descriptor.
    Report,
}

/// Where the words are.
#[derive(Clone, Copy, Debug)]
pub(crate) enum Source {
    /// A report, as it was at its SETUP packet: the words of the copy.
    Copied,
    /// A descriptor.
    Lent(&'static [u32]),
}

/// A read: its bytes, how many were asked for, and how many packets were sent.
#[derive(Debug, Drop)]
pub(crate) struct ReadData {
    source: Source,
    copy: [u32; 6],
    length: u8,
    sent: u8,
    asked: u16,
}

impl Model for ReadData {
    ghost use Rattle.reports.specs.representation.Words.{first_bytes};
    ghost use Rattle.control_ep.specs.representation.ReadData.{Reading, words_in, Fits};

    ghost Value = { Reading };

    ghost view = { λ d. record { bytes = first_bytes (words_in d.source d.copy) d.length; asked = d.asked; sent = d.sent } };

    ghost invariant = { λ d. Fits (words_in d.source d.copy) d.length };
}

impl ReadData {
    /// No bytes.
    pub(crate) fn new() -> ReadData {
        ReadData {
            source: Source::Copied,
            copy: [0; 6],
            length: 0,
            sent: 0,
            asked: 0,
        }
    }

    /// Takes a descriptor, for a read that begins.
    pub(crate) fn lend(&mut self, descriptor: Descriptor)
        ensures { self.new.bytes ≡ descriptor_bytes descriptor }
    {
        match descriptor {
            Descriptor::Device => self.lend_words(&DEVICE_WORDS, 18),
            Descriptor::Configuration => self.lend_words(&CONFIGURATION_WORDS, 34),
            Descriptor::Hid => self.lend_words(&HID_WORDS, 9),
            Descriptor::Report => self.lend_words(&REPORT_WORDS, 99),
        }
    }

    /// Takes the first bytes of constant words.
    fn lend_words(&mut self, words: &'static [u32], length: u8)
        requires { Fits words.now length }
        ensures { self.new.bytes ≡ first_bytes words.now length }
    {
        self.source = Source::Lent(words);
        self.length = length;
    }

    /// Takes a copy of the first bytes of these words, at most 24, for a read that begins.
    pub(crate) fn copy(&mut self, words: [u32; 6], length: u8)
        requires { length ≤ 24 }
        ensures { self.new.bytes ≡ first_bytes words length }
    {
        self.source = Source::Copied;
        self.copy = words;
        self.length = length;
    }

    /// Takes a copy of the first of these bytes, for a read that begins.
    pub(crate) fn copy_first(&mut self, bytes: [u8; 8], length: u8)
        requires { length ≤ 8 }
        ensures { self.new.bytes ≡ take length bytes }
    {
        let [a, b, c, d, e, f, g, h] = bytes;
        self.source = Source::Copied;
        self.copy[0] = word(a, b, c, d);
        self.copy[1] = word(e, f, g, h);
        self.length = length;
    }

    /// Takes a byte, for a read that begins.
    pub(crate) fn copy_byte(&mut self, byte: u8)
        ensures { self.new.bytes ≡ byte ∷ [] }
    {
        self.copy_first([byte, 0, 0, 0, 0, 0, 0, 0], 1);
    }

    /// Begins a read that asked for so many bytes.
    pub(crate) fn begin(&mut self, asked: u16)
        ensures { self.new ≡ record { bytes = self.old.bytes; asked = asked; sent = 0 } }
    {
        self.asked = asked;
        self.sent = 0;
    }

    /// Writes the next packet, and returns how many bytes it has; none where all were sent. Behind a short
    /// packet the buffer has what the words have.
    pub(crate) fn next_packet(&mut self, packet: &mut [u8; 8]) -> Option<u8>
        ensures packet { option_map (λ n. take n packet.new) result ≡ packet_at self.old.bytes self.old.asked self.old.sent }
        ensures room { IfSome result (λ n. n ≤ 8) }
        ensures counted { IsSome result → self.new ≡ record { bytes = self.old.bytes; asked = self.old.asked; sent = self.old.sent + 1 } }
        ensures ended { result ≡ None → self.new ≡ self.old }
    {
        let total = u16::from(self.length).min(self.asked);
        let start = 8 * u16::from(self.sent);
        if start < total {
            *packet = eight_at(words_in(self.source, &self.copy), 2 * self.sent);
            self.sent += 1;
            Some((total - start).min(8) as u8)
        } else if start == total && total < self.asked {
            self.sent += 1;
            Some(0)
        } else {
            None
        }
    }
}

/// The words, wherever they are.
fn words_in(source: Source, copy: &[u32; 6]) -> &[u32]
    ensures { result.now ≡ words_in source copy.now }
{
    match source {
        Source::Lent(words) => words,
        Source::Copied => copy,
    }
}

/// The bytes of two words: those of a packet.
fn eight_at(words: &[u32], place: u8) -> [u8; 8]
    requires inside { place + 1 < length words.now }
    requires low { place < 255 }
    ensures { result ≡ map (byte_at words.now) (range_with_len (4 * place) 8) }
{
    let [a, b, c, d] = four(words[place as usize]);
    let [e, f, g, h] = four(words[(place + 1) as usize]);
    [a, b, c, d, e, f, g, h]
}
