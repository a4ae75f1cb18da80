//! What the eight bytes of a flash slot hold: a word beside its complement.
//!
//! A slot is a little-endian 32-bit word followed by the complement of that word. The complement
//! tells a whole write from a torn one: a write that was cut short leaves a slot that is not Good,
//! or that is Good with the word that was meant (`theorems`).
//!
//! Nothing is kept. The guarantee is that what a program of a Free slot or an erase of a sound one
//! leaves, where it is torn, is never read as another word. `page_turnover` calls it for each slot
//! that it reads or writes.
#![tactic(auto)]

ghost use Rattle.std.specs.Prelude.{◌≡◌, ◌↔◌, IsTrue};
ghost use Rattle.records.specs.Slots.{encoded, slot_of, Covers, IsSound};

pub mod kernels;
pub mod theorems;

pub use kernels::{Kinds, all_ones, kinds8};

/// What a slot of eight bytes holds.
#[derive(Clone, Copy, Debug, PartialEq, Eq)]
pub enum Slot {
    /// Eight bytes FFh: erased, and not written since.
    Free,
    /// A word, followed by its complement.
    Good(u32),
    /// Anything else.
    Spoiled,
}

/// The eight bytes of a slot that holds `word`: the word and then its complement, each in four
/// bytes with the low byte first.
#[tactic(auto, unfolding(crate::specs::Slots::encoded))]
pub fn encode(word: u32) -> [u8; 8]
    ensures { result ≡ encoded word }
{
    let [a, b, c, d] = word.to_le_bytes();
    let [e, f, g, h] = (!word).to_le_bytes();
    [a, b, c, d, e, f, g, h]
}

/// What these eight bytes hold: Free where all are FFh, Good where the last four are the
/// complement of the first four, and Spoiled otherwise.
#[tactic(auto, unfolding(crate::specs::Slots::slot_of))]
pub fn classify(bytes: [u8; 8]) -> Slot
    ensures { result ≡ slot_of bytes }
{
    let [a, b, c, d, e, f, g, h] = bytes;
    let word = u32::from_le_bytes([a, b, c, d]);
    let check = u32::from_le_bytes([e, f, g, h]);
    if word == u32::MAX && check == u32::MAX {
        Slot::Free
    } else if check == !word {
        Slot::Good(word)
    } else {
        Slot::Spoiled
    }
}

/// Whether no bit position is clear in both halves of a slot, the first four bytes and the last.
pub fn is_sound(bytes: [u8; 8]) -> bool
    ensures { IsTrue result ↔ IsSound bytes }
{
    let [a, b, c, d, e, f, g, h] = bytes;
    covers(a, e) && covers(b, f) && covers(c, g) && covers(d, h)
}

/// Whether no bit position is clear in both bytes.
#[tactic(auto, using(crate::proofs::BitsOf::covers_of_or, crate::proofs::BitsOf::or_of_covers))]
fn covers(a: u8, b: u8) -> bool
    ensures { IsTrue result ↔ Covers a b }
{
    a | b == u8::MAX
}
