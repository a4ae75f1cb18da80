//! An iterator over the words of a page.

ghost use Rattle.std.specs.Prelude.{◌≡◌, ◌-◌, ◌<◌, ◌≤◌, []};
ghost use Rattle.std.specs.Iterator.{YieldsFirst, at_most, item_count};
ghost use Rattle.flash_model.specs.declared.TheConstants.{PAGE_SLOTS};
ghost use Rattle.flash_model.specs.Image.{page_count, slot_at};
ghost use Rattle.records.specs.Slots.{slot_of};
ghost use Rattle.page_turnover.specs.representation.Words.{words_after};
ghost use Rattle.page_turnover.specs.representation.Blocks.{AreGoodFrom, AreGoodWithin};
ghost use Rattle.page_turnover.specs.representation.Turn.{IsGood};

use crate::block::{BLOCK_SLOTS, good_in_block};
use flash_model::NorFlash;
use records::Slot;
use std::marker::Model;

/// The Good words of a page that are left, in rising order of their slots.
#[derive(Drop)]
pub struct Words<'a, F: NorFlash> {
    flash: &'a F,
    page: usize,
    /// The next slot.
    next: u32,
    /// The slot behind the last one, at most 512.
    end: u32,
    /// Which slots of the next one's block are Good, from it on; at a block's first slot still to be
    /// read.
    good: u8,
}

impl<'a, F: NorFlash> Model for Words<'a, F> {
    ghost use Rattle.std.specs.Prelude.{ℕ, List, ◌-◌, ◌<◌, ◌≤◌};
    ghost use Rattle.flash_model.specs.declared.TheConstants.{PAGE_SLOTS};
    ghost use Rattle.flash_model.specs.Image.{page_count};
    ghost use Rattle.page_turnover.specs.representation.Words.{words_after};
    ghost use Rattle.page_turnover.specs.representation.Blocks.{AreGoodWithin};

    ghost Value = { List ℕ };

    ghost view = { λ s. words_after (F.image s.flash.now) s.page s.next (s.end - s.next) };

    ghost invariant = { λ s. (s.page < page_count (F.image s.flash.now)) × (s.end ≤ PAGE_SLOTS) × AreGoodWithin (F.image s.flash.now) s.page s.next s.good };
}

impl<'a, F: NorFlash> Words<'a, F> {
    /// The words of the slots from 1 up to this one of a page.
    pub(crate) fn of_page(flash: &'a F, page: usize, end: u16) -> Words<'a, F>
        requires in_pages { page < page_count (F.image flash.now) }
        requires in_page { end ≤ PAGE_SLOTS }
        ensures { result ≡ words_after (F.image flash.now) page 1 (end - 1) }
    {
        let good = good_in_block(flash, page, 0) / 2;
        Words {
            flash,
            page,
            next: 1,
            end: end as u32,
            good,
        }
    }

    /// No words.
    pub(crate) fn none(flash: &'a F) -> Words<'a, F>
        ensures { result ≡ [] }
    {
        let _pages = flash.pages();
        Words {
            flash,
            page: 0,
            next: 0,
            end: 0,
            good: 0,
        }
    }
}

impl<'a, F: NorFlash> Iterator for Words<'a, F> {
    type Item = u32;

    ghost next_gives = { YieldsFirst (λ s. s) };

    ghost remaining = { item_count (λ s. s) };

    #[inline(always)]
    #[tactic(auto, using(crate::proofs::WordLists::words_after_less, crate::proofs::WordLists::words_after_end, crate::proofs::WordLists::word_of_none))]
    fn next(&mut self) -> Option<u32> {
        let end = self.end;
        for slot in self.next..end {
            let good = good_from(self.flash, self.page, slot, self.good);
            self.next = slot + 1;
            self.good = good / 2;
            if good % 2 == 1 {
                return Some(word_at(self.flash, self.page, slot));
            }
        }
        None
    }
}

/// Which slots are Good from this one to the end of its block, which is read at its first slot.
fn good_from<F: NorFlash>(flash: &F, page: usize, slot: u32, good: u8) -> u8
    requires in_pages { page < page_count (F.image flash.now) }
    requires in_page { slot < PAGE_SLOTS }
    requires within { AreGoodWithin (F.image flash.now) page slot good }
    ensures { AreGoodFrom (F.image flash.now) page slot result }
{
    if slot % BLOCK_SLOTS == 0 {
        good_in_block(flash, page, slot / BLOCK_SLOTS)
    } else {
        good
    }
}

/// The word of a Good slot.
fn word_at<F: NorFlash>(flash: &F, page: usize, slot: u32) -> u32
    requires in_pages { page < page_count (F.image flash.now) }
    requires in_page { slot < PAGE_SLOTS }
    requires good { IsGood (slot_of (slot_at (F.image flash.now) page slot)) }
    ensures { slot_of (slot_at (F.image flash.now) page slot) ≡ Slot.Good result }
{
    first_half(flash.read_slot(page, slot as usize))
}

/// The number in the first four bytes of a slot: its word where it is Good.
fn first_half(bytes: [u8; 8]) -> u32
    requires { IsGood (slot_of bytes) }
    ensures { slot_of bytes ≡ Slot.Good result }
{
    let [a, b, c, d, _, _, _, _] = bytes;
    u32::from_le_bytes([a, b, c, d])
}
