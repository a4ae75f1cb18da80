//! One flash operation, and whether it took effect.

ghost use Rattle.std.specs.Prelude.{◌≡◌, ◌⊎◌, ◌+◌, ◌%◌, ◌^◌, ◌<◌, ◌↔◌, ℕ, IsTrue, true};
ghost use Rattle.flash_model.specs.declared.TheConstants.{PAGE_SLOTS};
ghost use Rattle.flash_model.specs.Image.{page_count, slot_at, IsImage};
ghost use Rattle.records.specs.Slots.{slot_of, encoded};
ghost use Rattle.page_turnover.specs.declared.operation.Operation.{Operation};
ghost use Rattle.page_turnover.specs.representation.Made.{CanMake, IsMade, RaisesFaults};
ghost use Rattle.page_turnover.specs.Next.{on_flash};

use crate::reading::is_blank;
use flash_model::NorFlash;
use records::{Slot, classify, encode};

/// Programs a word into a slot. After a fault the slot is read back; the answer is whether it holds the word.
pub fn program<F: NorFlash>(flash: &mut F, page: u8, slot: u16, word: u32) -> bool
    requires { CanMake (F.image flash.old) (Operation.Program page slot word) }
    ensures whole { IsImage (F.image flash.new) }
    ensures same_pages { page_count (F.image flash.new) ≡ page_count (F.image flash.old) }
    ensures made { IsMade (F.image flash.old) (Operation.Program page slot word) result (F.image flash.new) }
    ensures counted { F.operations flash.new ≡ (F.operations flash.old + 1) % 2 ^ 64 }
    ensures faulted { RaisesFaults result (F.faults flash.old) (F.faults flash.new) }
    ensures faultless { (n : ℕ) → F.is_faultless flash.old (n + 1) → (word < 2 ^ 31) ⊎ F.takes_also flash.old page slot (encoded word) → F.is_faultless flash.new n × (result ≡ true) }
    ensures operated { F.operates flash.old (on_flash (Operation.Program page slot word)) flash.new }
{
    let _pages = flash.pages();
    let (page, slot) = (page as usize, slot as usize);
    match flash.program_slot(page, slot, encode(word)) {
        Ok(()) => true,
        Err(_) => holds(flash, page, slot, word),
    }
}

/// Erases a page. After a fault the page is read back; the answer is whether it is blank.
pub fn erase<F: NorFlash>(flash: &mut F, page: u8) -> bool
    requires { CanMake (F.image flash.old) (Operation.Erase page) }
    ensures whole { IsImage (F.image flash.new) }
    ensures same_pages { page_count (F.image flash.new) ≡ page_count (F.image flash.old) }
    ensures made { IsMade (F.image flash.old) (Operation.Erase page) result (F.image flash.new) }
    ensures counted { F.operations flash.new ≡ (F.operations flash.old + 1) % 2 ^ 64 }
    ensures faulted { RaisesFaults result (F.faults flash.old) (F.faults flash.new) }
    ensures faultless { (n : ℕ) → F.is_faultless flash.old (n + 1) → F.is_faultless flash.new n × (result ≡ true) }
    ensures operated { F.operates flash.old (on_flash (Operation.Erase page)) flash.new }
{
    let _pages = flash.pages();
    match flash.erase_page(page as usize) {
        Ok(()) => true,
        Err(_) => is_blank(flash, page as usize),
    }
}

/// Whether a slot is Good with this word.
fn holds<F: NorFlash>(flash: &F, page: usize, slot: usize, word: u32) -> bool
    requires in_pages { page < page_count (F.image flash.now) }
    requires in_page { slot < PAGE_SLOTS }
    ensures { IsTrue result ↔ (slot_of (slot_at (F.image flash.now) page slot) ≡ Slot.Good word) }
{
    match classify(flash.read_slot(page, slot)) {
        Slot::Good(read) => read == word,
        Slot::Free | Slot::Spoiled => false,
    }
}
