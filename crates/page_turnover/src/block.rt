//! Reading a page in blocks of eight slots.

ghost use Rattle.std.specs.Prelude.{◌≡◌, ◌+◌, ◌*◌, ◌<◌, ◌↔◌, ℕ, IsTrue, if◌then◌else◌};
ghost use Rattle.std.specs.Int.{bit_at};
ghost use Rattle.flash_model.specs.Image.{page_count, slot_at};
ghost use Rattle.records.specs.Slots.{slot_of};
ghost use Rattle.records.specs.Blocks.{is_good};
ghost use Rattle.page_turnover.specs.representation.Blocks.{slots_of};

use flash_model::{NorFlash, PAGE_SLOTS};
use records::{Slot, all_ones, kinds8};

/// How many slots are read at once.
pub const BLOCK_SLOTS: u32 = 8;

/// How many blocks a page has.
pub const PAGE_BLOCKS: u32 = PAGE_SLOTS as u32 / BLOCK_SLOTS;

/// Whether each slot of a block is Free.
#[inline(never)]
pub fn is_free_block<F: NorFlash>(flash: &F, page: usize, block: u32) -> bool
    requires in_pages { page < page_count (F.image flash.now) }
    requires in_page { block < 64 }
    ensures { IsTrue result ↔ ((i : ℕ) → i < 8 → slot_of (slot_at (F.image flash.now) page (8 * block + i)) ≡ Slot.Free) }
{
    let _pages = flash.pages();
    let slots = read_block(flash, page, block);
    all_ones(slots.as_flattened())
}

/// Which slots of a block are Good: bit `i` is that of slot `i` of the block.
#[inline(never)]
pub fn good_in_block<F: NorFlash>(flash: &F, page: usize, block: u32) -> u8
    requires in_pages { page < page_count (F.image flash.now) }
    requires in_page { block < 64 }
    ensures { (i : ℕ) → i < 8 → bit_at result i ≡ (if is_good (slot_of (slot_at (F.image flash.now) page (8 * block + i))) then 1 else 0) }
{
    let _pages = flash.pages();
    let slots = read_block(flash, page, block);
    match <&[u8; 64]>::try_from(slots.as_flattened()) {
        Ok(bytes) => kinds8(bytes).good,
        Err(_) => unreachable!(),
    }
}

/// The slots of a block, where they are read to: their bytes lie one slot after the other, and are
/// not copied into one array.
#[inline(always)]
fn read_block<F: NorFlash>(flash: &F, page: usize, block: u32) -> [[u8; 8]; 8]
    requires in_pages { page < page_count (F.image flash.now) }
    requires in_page { block < 64 }
    ensures { result ≡ slots_of (F.image flash.now) page block }
{
    let at = BLOCK_SLOTS * block;
    [
        flash.read_slot(page, at as usize),
        flash.read_slot(page, (at + 1) as usize),
        flash.read_slot(page, (at + 2) as usize),
        flash.read_slot(page, (at + 3) as usize),
        flash.read_slot(page, (at + 4) as usize),
        flash.read_slot(page, (at + 5) as usize),
        flash.read_slot(page, (at + 6) as usize),
        flash.read_slot(page, (at + 7) as usize),
    ]
}
