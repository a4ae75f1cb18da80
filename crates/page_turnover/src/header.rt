//! The header of a page.

ghost use Rattle.std.specs.Prelude.{◌≡◌, ◌%◌, ◌<◌, ◌^◌, Some, None, MatchBool};
ghost use Rattle.records.specs.declared.Slot.{Slot};
ghost use Rattle.page_turnover.specs.Header.{header_of, header_word, format_of};

/// The header word of sequence number 0 in format 1, and what a format more adds to it.
const FIRST_HEADER: u32 = 1 << 28;

/// The format of the headers that are written.
pub const FORMAT: u8 = 2;

/// The greatest sequence number, of 28 bits.
pub const LAST_SEQ: u32 = (1 << 28) - 1;

/// Whether a word is a header of either format.
#[tactic(auto, unfolding(crate::specs::Header::header_of))]
pub fn is_header(word: u32) -> bool
    ensures { MatchBool result (header_of (Slot.Good word) ≡ Some (word % 2 ^ 28)) (header_of (Slot.Good word) ≡ None) }
{
    word / FIRST_HEADER == 1 || word / FIRST_HEADER == 2
}

/// The sequence number of a header word.
pub fn seq_of(word: u32) -> u32
    ensures { result ≡ word % 2 ^ 28 }
{
    word % FIRST_HEADER
}

/// The format of a header word.
#[tactic(auto, unfolding(crate::specs::Header::format_of))]
pub fn word_format(word: u32) -> u8
    ensures { result ≡ format_of (Slot.Good word) }
{
    (word / FIRST_HEADER) as u8
}

/// The header word of a sequence number, of format 2.
#[tactic(auto, unfolding(crate::specs::Header::header_word))]
pub fn header(seq: u32) -> u32
    requires { seq < 2 ^ 28 }
    ensures { result ≡ header_word 2 seq }
{
    2 * FIRST_HEADER + seq
}
