//! Many bytes at once: the kinds of eight slots, and whether bytes are all FFh.

ghost use Rattle.std.specs.Prelude.{◌≡◌, ◌+◌, ◌-◌, ◌*◌, ◌^◌, ◌<◌, ◌==◌, ◌↔◌, ℕ, IsTrue, if◌then◌else◌, length, slice_index, bit_and};
ghost use Rattle.std.specs.Int.{bit_at};
ghost use Rattle.records.specs.Blocks.{slot_in, is_good, is_free};
ghost use Rattle.records.specs.representation.Blocks.{number_at};
ghost use Rattle.records.specs.Slots.{slot_of};

use std::simd::prelude::*;

/// Which of eight slots are Good, and which are Free: bit `i` is that of slot `i`.
#[derive(Clone, Copy, Debug, PartialEq, Eq)]
pub struct Kinds {
    /// The slots that hold a word and its complement.
    pub good: u8,
    /// The slots of eight bytes FFh.
    pub free: u8,
}

/// The kinds of eight slots that lie one after the other, as `classify` has them slot by slot.
#[inline]
pub fn kinds8(slots: &[u8; 64]) -> Kinds
    ensures good { (i : ℕ) → i < 8 → bit_at result.good i ≡ (if is_good (slot_of (slot_in slots.now i)) then 1 else 0) }
    ensures free { (i : ℕ) → i < 8 → bit_at result.free i ≡ (if is_free (slot_of (slot_in slots.now i)) then 1 else 0) }
{
    let halves = halves_of(*slots);
    let words = halves.swizzle([0, 2, 4, 6, 8, 10, 12, 14]);
    let checks = halves.swizzle([1, 3, 5, 7, 9, 11, 13, 15]);
    Kinds {
        good: ones_of(words ^ checks),
        free: ones_of(words & checks),
    }
}

/// The words of the slots and their complements, in turn.
#[inline(always)]
fn halves_of(slots: [u8; 64]) -> u32x16
    requires len { length slots ≡ 64 }
    requires bytes { (k : ℕ) → slice_index slots k < 256 }
    ensures len { length result ≡ 16 }
    ensures lanes { (j : ℕ) → j < 16 → slice_index result j ≡ number_at slots (4 * j) }
{
    u32x16::from_le_bytes(u8x64::from_array(slots))
}

/// Which lanes have every bit set: bit `i` is that of lane `i`.
#[inline(always)]
fn ones_of(lanes: u32x8) -> u8
    ensures { (i : ℕ) → i < 8 → bit_at result i ≡ (if slice_index lanes i == 2 ^ 32 - 1 then 1 else 0) }
{
    lanes.simd_eq(u32x8::splat(u32::MAX)).to_bitmask() as u8
}

/// Whether every byte is FFh, however many there are.
#[inline]
pub fn all_ones(bytes: &[u8]) -> bool
    ensures { IsTrue result ↔ ((k : ℕ) → k < length bytes.now → slice_index bytes.now k ≡ 255) }
{
    let mut all = u8x64::splat(u8::MAX);
    let mut i = 0;
    while bytes.len() - i >= 64 {
        all &= u8x64::from_slice(&bytes[i..]);
        i += 64;
    }
    if !is_ones(all) {
        return false;
    }
    while i < bytes.len() {
        if bytes[i] != u8::MAX {
            return false;
        }
        i += 1;
    }
    true
}

/// Whether every lane is FFh.
#[inline(always)]
fn is_ones(lanes: u8x64) -> bool
    ensures { IsTrue result ↔ ((m : ℕ) → m < 64 → slice_index lanes m ≡ 255) }
{
    // One comparison of 16 lanes serves for all: it is fewer instructions than four.
    quarters(lanes).simd_eq(u8x16::splat(u8::MAX)).to_bitmask() == 0xffff
}

/// The AND of the four quarters.
#[inline(always)]
fn quarters(lanes: u8x64) -> u8x16
    ensures len { length result ≡ 16 }
    ensures all { (k : ℕ) → k < 16 → slice_index result k ≡ bit_and (bit_and (slice_index lanes k) (slice_index lanes (16 + k))) (bit_and (slice_index lanes (32 + k)) (slice_index lanes (48 + k))) }
{
    let left = lanes.extract::<0, 16>() & lanes.extract::<16, 16>();
    let right = lanes.extract::<32, 16>() & lanes.extract::<48, 16>();
    left & right
}
