//! The usages of the keys that are held, as sets of bits.

ghost use Rattle.std.specs.Prelude.{◌≡◌, ◌+◌, ◌*◌, ◌/◌, ◌<◌, ◌==◌, ◌||◌, ◌≤◌, ℕ, List, true, false, length, slice_index, MatchOption, IfSome};
ghost use Rattle.std.specs.Int.{bit_at};
ghost use Rattle.layers.specs.Codes.{names_key_usage, names_consumer};
ghost use Rattle.layers.specs.Usages.{has_bit, has_key, has_consumer, AreMarked, IsNext, PassesNoneFrom, IsNextConsumer, HasNoConsumerFrom};

use crate::Code;
use crate::bits::{contains, insert, next_member};
use std::marker::Model;

/// How many words of 32 bits hold the usages 000h to 3FFh.
const CONSUMER_WORDS: usize = 32;

/// How many words of 32 bits hold the usages 00h to FFh.
const KEY_WORDS: usize = 8;

/// A set of usages of the keyboard page 07h (HUT section 10), and one of usages 001h to 3FFh of the
/// consumer page 0Ch (HUT section 15).
///
/// ```rust
/// # #[cfg(feature = "sim")]
/// # fn main() -> Result<(), wuzhikar::PageCount> {
/// use wuzhikar::{Keyboard, Scan, SimFlash};
///
/// let flash = SimFlash::blank(2).unwrap();
/// let mut keyboard = Keyboard::on(&flash)?;
/// for _ in 0..5 {
///     keyboard.scan(Scan { rows: [0b10, 0, 0, 0, 0, 0] });
/// }
/// let usages = keyboard.usages();
/// assert!(usages.has_key(0x05));
/// assert_eq!(usages.next_key(0), Some(0x05));
/// # Ok(())
/// # }
/// # #[cfg(not(feature = "sim"))]
/// # fn main() {}
/// ```
#[derive(Clone, Copy, Debug, PartialEq, Eq)]
pub struct Usages {
    keys: [u32; KEY_WORDS],
    consumer: [u32; CONSUMER_WORDS],
    /// The words of `consumer` that have a usage, as bits.
    occupied: [u32; 1],
}

impl Model for Usages {
    ghost use Rattle.std.specs.Prelude.{◌≡◌, length};
    ghost use Rattle.layers.specs.Usages.{UsageSets, AreMarked};

    ghost Value = { UsageSets };

    ghost view = { λ u. record { key_words = u.keys; consumer_words = u.consumer; occupied = u.occupied } };

    ghost invariant = { λ u. (length u.keys ≡ 8) × (length u.consumer ≡ 32) × (length u.occupied ≡ 1) × AreMarked u.consumer u.occupied };

    ghost inverse = { λ s. record { keys = s.key_words; consumer = s.consumer_words; occupied = s.occupied } };
}

impl Usages {
    /// Makes a set without a usage.
    pub fn none() -> Usages
        ensures no_keys { (usage : ℕ) → has_key result usage ≡ false }
        ensures no_consumer { (usage : ℕ) → has_consumer result usage ≡ false }
    {
        Usages {
            keys: [0; KEY_WORDS],
            consumer: [0; CONSUMER_WORDS],
            occupied: [0],
        }
    }

    /// Leaves no usage.
    pub(crate) fn clear(&mut self)
        ensures no_keys { (usage : ℕ) → has_key self.new usage ≡ false }
        ensures no_consumer { (usage : ℕ) → has_consumer self.new usage ≡ false }
    {
        self.keys = [0; KEY_WORDS];
        clear_consumer(&mut self.consumer, &mut self.occupied);
    }

    /// Adds the usage that a code names, if it names one.
    pub(crate) fn add(&mut self, code: Code)
        ensures keys { (usage : ℕ) → has_key self.new usage ≡ (names_key_usage usage code || has_key self.old usage) }
        ensures consumer { (usage : ℕ) → has_consumer self.new usage ≡ (names_consumer usage code || has_consumer self.old usage) }
    {
        insert_key_usage(&mut self.keys, code);
        insert_consumer(&mut self.consumer, &mut self.occupied, code);
    }

    /// Returns whether a usage of page 07h is in the set.
    pub fn has_key(&self, usage: u8) -> bool
        ensures { result ≡ has_key self.now usage }
    {
        contains(&self.keys, usage as u16)
    }

    /// Returns the modifiers in the set: bit i is usage E0h + i of page 07h.
    pub fn modifiers(&self) -> u8
        ensures { (i : ℕ) → i < 8 → (bit_at result i == 1) ≡ has_key self.now (0xE0 + i) }
    {
        (self.keys[0xE0 / 32] % 0x100) as u8
    }

    /// Returns the set of page 07h as bits: bit i of word w is usage 32 * w + i.
    pub fn key_words(&self) -> &[u32; 8]
        ensures size { length result.now ≡ 8 }
        ensures bits { (usage : ℕ) → has_bit 32 result.now usage ≡ has_key self.now usage }
    {
        &self.keys
    }

    /// Returns the least usage of page 07h in the set that is at or after `from`, if there is one.
    pub fn next_key(&self, from: u8) -> Option<u16>
        ensures next { MatchOption result (PassesNoneFrom (has_key self.now) from) (λ usage. IsNext (has_key self.now) from usage) }
        ensures within { IfSome result (λ usage. usage < 0x100) }
    {
        next_member(&self.keys, from as u16)
    }

    /// Returns whether a usage of page 0Ch is in the set.
    pub fn has_consumer(&self, usage: u16) -> bool
        ensures { result ≡ has_consumer self.now usage }
    {
        usage < 0x400 && contains(&self.consumer, usage)
    }

    /// Returns the least usage of page 0Ch in the set that is at or after `from`, if there is one.
    pub fn next_consumer(&self, from: u16) -> Option<u16>
        ensures next { MatchOption result (HasNoConsumerFrom self.now from) (λ usage. IsNextConsumer self.now from usage) }
        ensures within { IfSome result (λ usage. usage < 0x400) }
    {
        match next_member(&self.occupied, from / 32) {
            Some(place) => next_member(&self.consumer, later(from, 32 * place)),
            None => None,
        }
    }
}

/// Adds the usage of page 07h that a code names, if it names one.
fn insert_key_usage(set: &mut [u32], code: Code)
    requires { length set.old ≡ 8 }
    ensures { (usage : ℕ) → has_bit 32 set.new usage ≡ (names_key_usage usage code || has_bit 32 set.old usage) }
{
    if let Some(usage) = code.key_usage() {
        insert(set, u16::from(usage));
    }
}

/// The later of two numbers.
fn later(a: u16, b: u16) -> u16
    ensures first { a ≤ result }
    ensures second { b ≤ result }
    ensures least { (n : ℕ) → n < result → a ≤ n → n < b }
{
    if a < b { b } else { a }
}

/// Adds the usage of page 0Ch that a code names, if it names one, and marks its word.
fn insert_consumer(set: &mut [u32], occupied: &mut [u32], code: Code)
    requires words { length set.old ≡ 32 }
    requires marks { length occupied.old ≡ 1 }
    ensures adds { (usage : ℕ) → has_bit 32 set.new usage ≡ (names_consumer usage code || has_bit 32 set.old usage) }
    ensures marked { AreMarked set.old occupied.old → AreMarked set.new occupied.new }
{
    if let Some(usage) = code.consumer_usage() {
        insert(set, usage);
        insert(occupied, usage / 32);
    }
}

/// Leaves no usage of page 0Ch. Most often there was none, and then nothing is written.
fn clear_consumer(set: &mut [u32; CONSUMER_WORDS], occupied: &mut [u32; 1])
    requires { AreMarked set.old occupied.old }
    ensures words { length set.new ≡ 32 }
    ensures marks { length occupied.new ≡ 1 }
    ensures none { (usage : ℕ) → has_bit 32 set.new usage ≡ false }
    ensures marked { AreMarked set.new occupied.new }
{
    if occupied[0] != 0 {
        *set = [0; CONSUMER_WORDS];
        *occupied = [0];
    }
}
