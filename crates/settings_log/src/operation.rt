//! Reading a slot, and single operations.

ghost use Rattle.std.specs.Prelude.{◌≡◌, ◌+◌, ◌<◌, ◌≤◌, ◌^◌, IfOk, IfSome};
ghost use Rattle.flash_model.specs.declared.TheConstants.{PAGE_SLOTS};
ghost use Rattle.flash_model.specs.Image.{page_count, slot_at};
ghost use Rattle.records.specs.Slots.{slot_of};
ghost use Rattle.settings_log.specs.Pages.{word_of};
ghost use Rattle.settings_log.specs.Values.{kind_at};
ghost use Rattle.settings_log.specs.representation.Kinds.{head_in, IsShortHead};

use crate::store::SettingsError;
use crate::words::{Head, Word, word_kind};
use flash_model::{NorFlash, PAGE_SLOTS};
use records::{Slot, classify, encode};

/// The word of a slot; none where the page has no such slot, or it is not Good.
#[tactic(auto, unfolding(crate::specs::Pages::word_of))]
pub fn word_in<F: NorFlash>(flash: &F, page: usize, slot: usize) -> Option<u32>
    requires { page < page_count (F.image flash.now) }
    ensures { slot < PAGE_SLOTS → result ≡ word_of (slot_of (slot_at (F.image flash.now) page slot)) }
{
    if slot >= PAGE_SLOTS {
        return None;
    }
    match classify(flash.read_slot(page, slot)) {
        Slot::Good(word) => Some(word),
        Slot::Free | Slot::Spoiled => None,
    }
}

/// What a slot is to a change.
#[tactic(auto, unfolding(crate::specs::Words::kind_of))]
pub fn kind_in<F: NorFlash>(flash: &F, page: usize, slot: usize) -> Word
    requires { page < page_count (F.image flash.now) }
    ensures kind { slot < PAGE_SLOTS → result ≡ kind_at (F.image flash.now) page slot }
    ensures short { IsShortHead result }
{
    match word_in(flash, page, slot) {
        Some(word) => word_kind(word),
        None => Word::Other,
    }
}

/// The head that a slot holds.
pub fn head_in<F: NorFlash>(flash: &F, page: usize, slot: usize) -> Option<Head>
    requires { page < page_count (F.image flash.now) }
    ensures head { slot < PAGE_SLOTS → result ≡ head_in (kind_at (F.image flash.now) page slot) }
    ensures short { IfSome result (λ head. head.len ≤ 1024) }
{
    match kind_in(flash, page, slot) {
        Word::Begins(head) => Some(head),
        Word::Data | Word::Other => None,
    }
}

/// Whether a slot is Free.
pub fn is_free<F: NorFlash>(flash: &F, page: usize, slot: usize) -> bool
    requires page { page < page_count (F.image flash.now) }
    requires slot { slot < PAGE_SLOTS }
{
    match classify(flash.read_slot(page, slot)) {
        Slot::Free => true,
        Slot::Good(_) | Slot::Spoiled => false,
    }
}

/// Whether each slot of a page is Free.
pub fn is_blank<F: NorFlash>(flash: &F, page: usize) -> bool
    requires { page < page_count (F.image flash.now) }
{
    for slot in 0..PAGE_SLOTS {
        if !is_free(flash, page, slot) {
            return false;
        }
    }
    true
}

/// One more than the greatest slot of a page that is not Free, and 1 where slots 1 to 511 are Free.
pub fn tail<F: NorFlash>(flash: &F, page: usize) -> usize
    requires { page < page_count (F.image flash.now) }
    ensures { result ≤ PAGE_SLOTS }
{
    let mut tail = 1;
    for slot in 1..PAGE_SLOTS {
        if !is_free(flash, page, slot) {
            tail = slot + 1;
        }
    }
    tail
}

/// Programs a word into a slot, and says which slot is next. After a fault the slot is read back: it counts as programmed where
/// it holds the word. `Full` where the page has no such slot.
pub fn put<F: NorFlash>(
    flash: &mut F,
    page: usize,
    slot: usize,
    word: u32,
) -> Result<usize, SettingsError>
    requires { page < page_count (F.image flash.old) }
    ensures same_pages { page_count (F.image flash.new) ≡ page_count (F.image flash.old) }
{
    if slot >= PAGE_SLOTS {
        return Err(SettingsError::Full);
    }
    let programmed = flash.program_slot(page, slot, encode(word));
    if programmed.is_ok() || word_in(flash, page, slot) == Some(word) {
        Ok(slot + 1)
    } else {
        Err(SettingsError::Fault)
    }
}

/// Erases a page unless it is blank. After a fault the page is read back.
pub fn clear<F: NorFlash>(flash: &mut F, page: usize) -> Result<(), SettingsError>
    requires { page < page_count (F.image flash.old) }
    ensures same_pages { page_count (F.image flash.new) ≡ page_count (F.image flash.old) }
{
    if is_blank(flash, page) {
        return Ok(());
    }
    let erased = flash.erase_page(page);
    if erased.is_ok() || is_blank(flash, page) {
        Ok(())
    } else {
        Err(SettingsError::Fault)
    }
}
