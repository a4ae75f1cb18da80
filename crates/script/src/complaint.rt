//! What is wrong with a line, for those who have to mend it.

ghost use Rattle.std.specs.Prelude.{◌≡◌, ◌≤◌, IfSome, false};
ghost use Rattle.script.specs.Complaints.{kind_of, IsSo};
ghost use Rattle.script.specs.Statements.{IsOfKind};

use crate::lines::Lines;
use crate::mask::MaskWord;
use crate::number::{byte, bytes, count, number, packet};
use crate::statement::Keyword;
use crate::words::Words;
use flash_model::PAGE_SLOTS;

/// The most words behind the first one of a line.
const MOST_WORDS: usize = 97;

/// What a word behind the first one of a line is to be.
#[derive(Clone, Copy, Debug, PartialEq, Eq)]
pub enum Wanted {
    /// The number of a key, 0 to 95.
    Key,
    /// The number of a layer, 0 to 3.
    Layer,
    /// The number of a page, below that of the flash's pages.
    Page,
    /// The number of a slot, 0 to 511.
    Slot,
    /// A number of scans, 1 to 10,000.
    Scans,
    /// A number for the byte of a layer, 0 to 255.
    LayerByte,
    /// A number for the byte of a key, 0 to 255.
    KeyByte,
    /// A SETUP packet, 8 bytes in hex.
    SetupPacket,
    /// An OUT packet, 1 to 8 bytes in hex.
    Packet,
    /// A mask, 1 to 4,096 bytes in hex, or `-`.
    Mask,
    /// A code, 2 bytes in hex.
    Code,
}

/// What is wrong with a line.
#[derive(Clone, Copy, Debug)]
pub enum Complaint<'t> {
    /// No line begins with this word.
    Unknown(&'t [u8]),
    /// So many words may not follow this one.
    Words(Keyword, usize),
    /// This word, at this byte of the line, counted from 1, is not what is wanted there.
    Word(&'t [u8], usize, Wanted),
}

/// What is wrong with the line of this number, counted from 1, of a script for a device with a flash of this many pages, at
/// most 256; `None` where there is no such line, or nothing is wrong with it. What is wrong is found as `read_lines`
/// finds it: the first word, the number of words, and then each word from the left.
pub fn what_is_wrong(pages: usize, text: &[u8], number: usize) -> Option<Complaint<'_>>
    requires { pages ≤ 256 }
    ensures { IfSome result (IsSo pages) }
{
    of_line(pages, line_of(text, number)?)
}

/// The line of this number.
fn line_of(text: &[u8], number: usize) -> Option<&[u8]> {
    Lines::new(text).nth(number.checked_sub(1)?)
}

/// What is wrong with a line.
fn of_line(pages: usize, line: &[u8]) -> Option<Complaint<'_>>
    requires { pages ≤ 256 }
    ensures { IfSome result (IsSo pages) }
{
    if line.first() == Some(&b'#') {
        return None;
    }
    let mut rest = Words::new(line);
    let name = rest.next()?;
    match Keyword::read(name) {
        None => Some(Complaint::Unknown(name)),
        Some(keyword) => of_words(pages, line.len(), keyword, rest),
    }
}

/// What is wrong with the words behind the first one of a line of so many bytes.
fn of_words<'t>(
    pages: usize,
    length: usize,
    keyword: Keyword,
    rest: Words<'t>,
) -> Option<Complaint<'t>>
    requires { pages ≤ 256 }
    ensures { IfSome result (IsSo pages) }
{
    if !keyword.takes(rest) {
        return Some(Complaint::Words(keyword, rest.count()));
    }
    of_each(pages, length, keyword, rest)
}

/// The first of these words that is not what is wanted in its place.
fn of_each<'t>(
    pages: usize,
    length: usize,
    keyword: Keyword,
    mut rest: Words<'t>,
) -> Option<Complaint<'t>>
    requires { pages ≤ 256 }
    ensures { IfSome result (IsSo pages) }
{
    for place in 0..MOST_WORDS {
        let word = rest.next()?;
        let wanted = keyword.wanted(place)?;
        if !wanted.is(pages, word) {
            let before = length
                .saturating_sub(rest.bytes_left())
                .saturating_sub(word.len());
            return Some(Complaint::Word(word, before.saturating_add(1), wanted));
        }
    }
    None
}

impl Wanted {
    /// Whether a word is what is wanted.
    fn is(self, pages: usize, word: &[u8]) -> bool
        requires { pages ≤ 256 }
        ensures { result ≡ false → ¬ (IsOfKind (kind_of pages self) word.now) }
    {
        match self {
            Wanted::Key => number(word, 96).is_ok(),
            Wanted::Layer => number(word, 4).is_ok(),
            Wanted::Page => number(word, pages as u32).is_ok(),
            Wanted::Slot => number(word, PAGE_SLOTS as u32).is_ok(),
            Wanted::Scans => count(word).is_ok(),
            Wanted::LayerByte | Wanted::KeyByte => byte(word).is_ok(),
            Wanted::SetupPacket => bytes::<8>(word).is_ok(),
            Wanted::Packet => packet(word).is_ok(),
            Wanted::Mask => MaskWord::read(word).is_ok(),
            Wanted::Code => bytes::<2>(word).is_ok(),
        }
    }
}

impl Keyword {
    /// What the word at this place behind this one is to be, where there is one.
    fn wanted(self, place: usize) -> Option<Wanted> {
        match self {
            Keyword::Scan => Some(Wanted::Key),
            Keyword::Scans => Some(if place == 0 {
                Wanted::Scans
            } else {
                Wanted::Key
            }),
            Keyword::Setup => Some(Wanted::SetupPacket),
            Keyword::Out => Some(Wanted::Packet),
            Keyword::WorkFault | Keyword::CutWork => Some(Wanted::Mask),
            Keyword::Entry => Some(if place == 0 {
                Wanted::Layer
            } else {
                Wanted::Key
            }),
            Keyword::Slot => Some(if place == 0 {
                Wanted::Page
            } else {
                Wanted::Slot
            }),
            Keyword::Set => Some(match place {
                0 => Wanted::LayerByte,
                1 => Wanted::KeyByte,
                _ => Wanted::Code,
            }),
            Keyword::Poll
            | Keyword::In
            | Keyword::Work
            | Keyword::Cut
            | Keyword::Reset
            | Keyword::Leds
            | Keyword::Fetch => None,
        }
    }
}
