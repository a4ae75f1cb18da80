//! Operations that are torn by a mask.

ghost use Rattle.std.specs.Prelude.{◌≡◌, ◌+◌, ◌*◌, ◌<◌, ◌≤◌, ℕ, List, length, slice_index, bit_and, bit_or};
ghost use Rattle.std.specs.Int.{bit_not, w8};
ghost use Rattle.flash_model.specs.declared.TheConstants.{PAGE_SLOTS};
ghost use Rattle.flash_model.specs.Image.{page_count};
ghost use Rattle.flash_model.specs.ByMask.{mask_byte, ProgramsByMask, ErasesByMask};
ghost use Rattle.flash_model.specs.Operations.{MayProgram, MayErase};

use crate::{PAGE_BYTES, SLOT_BYTES};
use arrayvec::ArrayVec;

/// Which bits of an operation take effect: those that are set.
///
/// Byte `i` of the operation, 0 to 7 in a program and 0 to 4,095 in an erase, goes by byte
/// `i % len` of the mask; where the mask is empty, no bit takes effect.
pub type Mask = ArrayVec<u8, PAGE_BYTES>;

/// A program of a slot, as far as the mask lets it.
pub fn program(image: &mut [u8], page: usize, slot: usize, with: [u8; SLOT_BYTES], mask: &[u8])
    requires in_pages { (page < page_count image.old) × (page < 8) }
    requires in_page { slot < PAGE_SLOTS }
    ensures by_mask { ProgramsByMask image.old page slot with mask.now image.new }
    ensures torn { MayProgram image.old page slot with image.new }
    ensures bytes { (k : ℕ) → slice_index image.new k < 256 }
{
    clear(image, PAGE_BYTES * page + SLOT_BYTES * slot, with, mask);
}

/// An erase of a page, as far as the mask lets it.
pub fn erase(image: &mut [u8], page: usize, mask: &[u8])
    requires { (page < page_count image.old) × (page < 8) }
    ensures by_mask { ErasesByMask image.old page mask.now image.new }
    ensures torn { MayErase image.old page image.new }
    ensures bytes { (k : ℕ) → slice_index image.new k < 256 }
{
    set(image, PAGE_BYTES * page, mask);
}

/// Clears the bits of eight bytes that are clear in `with` and set in the mask.
fn clear(image: &mut [u8], at: usize, with: [u8; SLOT_BYTES], mask: &[u8])
    requires { at + SLOT_BYTES ≤ length image.old }
    ensures changed { (k : ℕ) → k < SLOT_BYTES → slice_index image.new (at + k) ≡ bit_and (slice_index image.old (at + k)) (bit_or (slice_index with k) (bit_not w8 (mask_byte mask.now k))) }
    ensures kept { (j : ℕ) → (at ≤ j → j < at + SLOT_BYTES → ⊥) → slice_index image.new j ≡ slice_index image.old j }
{
    for k in 0..SLOT_BYTES {
        image[at + k] &= with[k] | !mask_at(mask, k);
    }
}

/// Sets the bits of the bytes of a page that are set in the mask.
fn set(image: &mut [u8], at: usize, mask: &[u8])
    requires { at + PAGE_BYTES ≤ length image.old }
    ensures changed { (k : ℕ) → k < PAGE_BYTES → slice_index image.new (at + k) ≡ bit_or (slice_index image.old (at + k)) (mask_byte mask.now k) }
    ensures kept { (j : ℕ) → (at ≤ j → j < at + PAGE_BYTES → ⊥) → slice_index image.new j ≡ slice_index image.old j }
{
    for k in 0..PAGE_BYTES {
        image[at + k] |= mask_at(mask, k);
    }
}

/// What the mask says of byte `i` of an operation.
fn mask_at(mask: &[u8], i: usize) -> u8
    ensures { result ≡ mask_byte mask.now i }
{
    if mask.is_empty() {
        0
    } else {
        mask[i % mask.len()]
    }
}
