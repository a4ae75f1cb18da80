//! What a mount reads of a flash.

ghost use Rattle.std.specs.Prelude.{◌≡◌, ◌-◌, ◌<◌, ◌≤◌, ◌⊎◌, ℕ, Option, Some, None, IsTrue, ◌↔◌, MatchOption, ⊤};
ghost use Rattle.flash_model.specs.declared.TheConstants.{PAGE_SLOTS};
ghost use Rattle.flash_model.specs.Image.{page_count, slot_at};
ghost use Rattle.records.specs.Slots.{slot_of};
ghost use Rattle.page_turnover.specs.Active.{active, newer};
ghost use Rattle.page_turnover.specs.Header.{header_of};
ghost use Rattle.page_turnover.specs.representation.Log.{numbered};
ghost use Rattle.page_turnover.specs.Words.{IsTail, IsBlank};
ghost use Rattle.page_turnover.specs.Usable.{IsUsable, IsFirstUnsound};

use crate::block::{BLOCK_SLOTS, PAGE_BLOCKS, is_free_block};
use crate::header::{is_header, seq_of};
use flash_model::NorFlash;
use records::{Slot, classify, is_sound};

/// What the slots 0 of all pages say.
#[derive(Clone, Copy)]
pub struct Headers {
    /// The active page and the word of its header.
    pub active: Option<(usize, u32)>,
    /// The lowest page whose slot 0 is not sound.
    pub unsound: Option<usize>,
}

/// Reads slot 0 of each page.
pub fn read_headers<F: NorFlash>(flash: &F) -> Headers
    ensures active { numbered result.active ≡ active (F.image flash.now) }
    ensures words { MatchOption result.active ⊤ (λ r. slot_of (slot_at (F.image flash.now) r.0 0) ≡ Slot.Good r.1) }
    ensures unsound { MatchOption result.unsound (IsUsable (F.image flash.now)) (λ page. IsFirstUnsound (F.image flash.now) page) }
{
    let mut active = None;
    let mut unsound = None;
    for page in 0..flash.pages() {
        let header = flash.read_slot(page, 0);
        active = newer(active, page, classify(header));
        if unsound.is_none() && !is_sound(header) {
            unsound = Some(page);
        }
    }
    Headers { active, unsound }
}

/// The best page so far, or this one if it has a header with a greater sequence number.
#[tactic(auto, unfolding(crate::specs::Active::newer, crate::specs::Header::header_of))]
fn newer(best: Option<(usize, u32)>, page: usize, slot: Slot) -> Option<(usize, u32)>
    ensures active { numbered result ≡ newer (numbered best) page (header_of slot) }
    ensures word { MatchOption result ⊤ (λ r. (best ≡ Some r) ⊎ ((r.0 ≡ page) × (slot ≡ Slot.Good r.1))) }
{
    let Slot::Good(word) = slot else {
        return best;
    };
    if !is_header(word) {
        return best;
    }
    match best {
        Some((_, greatest)) if seq_of(greatest) >= seq_of(word) => best,
        _ => Some((page, word)),
    }
}

/// One more than the greatest slot of a page that is not Free, and 1 where slots 1 to 511 are Free.
pub fn tail<F: NorFlash>(flash: &F, page: usize) -> u16
    requires { page < page_count (F.image flash.now) }
    ensures { IsTail (F.image flash.now) page result }
{
    let mut block = PAGE_BLOCKS;
    while block > 1 && is_free_block(flash, page, block - 1) {
        block -= 1;
    }
    let mut tail = BLOCK_SLOTS * block;
    while tail > 1 && is_free(flash, page, tail - 1) {
        tail -= 1;
    }
    tail as u16
}

/// Whether a slot is Free.
pub fn is_free<F: NorFlash>(flash: &F, page: usize, slot: u32) -> bool
    requires in_pages { page < page_count (F.image flash.now) }
    requires in_page { slot < PAGE_SLOTS }
    ensures { IsTrue result ↔ (slot_of (slot_at (F.image flash.now) page slot) ≡ Slot.Free) }
{
    match classify(flash.read_slot(page, slot as usize)) {
        Slot::Free => true,
        Slot::Good(_) | Slot::Spoiled => false,
    }
}

/// Whether each slot of a page is Free.
pub fn is_blank<F: NorFlash>(flash: &F, page: usize) -> bool
    requires { page < page_count (F.image flash.now) }
    ensures { IsTrue result ↔ IsBlank (F.image flash.now) page }
{
    for block in 0..PAGE_BLOCKS {
        if !is_free_block(flash, page, block) {
            return false;
        }
    }
    true
}
