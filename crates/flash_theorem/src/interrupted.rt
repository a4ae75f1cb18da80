//! A flash of which the power is lost inside the next operation, and comes back.
//!
//! To who lends it, that operation fails: when it returns, the flash was started again. So what it
//! left is what a start shows, whatever the start had to write for it.

ghost use Rattle.std.specs.Prelude.{◌≡◌, ◌+◌, ◌*◌, ◌%◌, ◌^◌, ◌<◌, ◌≤◌, ◌++◌, ℕ, List, None, Some, IfOk, IsOk, MatchResult, is_ok, if◌then◌else◌, take};
ghost use Rattle.flash_model.specs.Image.{slot_at, page_count, IsImage};
ghost use Rattle.flash_model.specs.Assured.{IsAssured};
ghost use Rattle.flash_model.specs.FlashOperation.{programs, erases};
ghost use Rattle.flash_model.specs.Operations.{Programs, MayProgram, Erases, MayErase};
ghost use Rattle.flash_theorem.specs.Interrupted.{shows, Interrupts};

use crate::restartable::RestartableFlash;
use arrayvec::ArrayVec;
use flash_model::{FlashFault, NorFlash, PAGE_BYTES, PAGE_SLOTS, SLOT_BYTES};
use std::marker::Model;

/// Bytes of eight pages, the most that a flash has.
const MOST_BYTES: usize = 8 * PAGE_BYTES;

/// A flash whose power is lost inside its next operation. Behind that it is started again, and no
/// other operation touches it. Where no start goes through it reads as before.
#[derive(Drop)]
pub struct Interrupted<F: RestartableFlash> {
    flash: Option<F>,
    off: Option<F::Off>,
    loss: Option<u32>,
    starts: ArrayVec<u32, 64>,
    pages: usize,
    bytes: [u8; MOST_BYTES],
    operations: u64,
    faults: u64,
}

impl<F: RestartableFlash> Model for Interrupted<F> {
    ghost use Rattle.std.specs.Prelude.{◌≡◌, ◌*◌, ℕ, None, Some, IsSome, take};
    ghost use Rattle.flash_model.specs.declared.TheConstants.{PAGE_BYTES};
    ghost use Rattle.flash_model.specs.Image.{page_count, IsImage};
    ghost use Rattle.flash_theorem.specs.Interrupted.{Interruption};

    ghost Value = { Interruption F };

    ghost view = { λ s. record { flash = s.flash; loss = s.loss; before = take (PAGE_BYTES * s.pages) s.bytes; operations = s.operations; faults = s.faults } };

    ghost invariant = { λ s. IsImage (take (PAGE_BYTES * s.pages) s.bytes) × (page_count (take (PAGE_BYTES * s.pages) s.bytes) ≡ s.pages)
        × ((flash : F) → s.flash ≡ Some flash → IsImage (F.image flash) × (page_count (F.image flash) ≡ s.pages))
        × ((flash : F) (whole : ℕ) → s.flash ≡ Some flash → s.loss ≡ Some whole → F.image flash ≡ take (PAGE_BYTES * s.pages) s.bytes)
        × (s.flash ≡ None → IsSome s.off) × (((off : F.Off) → F.is_ready off) → IsSome s.flash) };
}

impl<F: RestartableFlash> Interrupted<F> {
    /// The power is lost inside the next operation, behind `whole` others of the flash below; inside
    /// each of `starts`, one after the other, behind so many; and then no more.
    pub fn new(flash: F, whole: u32, starts: ArrayVec<u32, 64>) -> Interrupted<F>
        ensures { result ≡ record { flash = Some flash; loss = Some whole; before = F.image flash; operations = 0; faults = 0 } }
    {
        let pages = flash.pages();
        let bytes = copy_of(&flash);
        Interrupted {
            flash: Some(flash),
            off: None,
            loss: Some(whole),
            starts,
            pages,
            bytes,
            operations: 0,
            faults: 0,
        }
    }

    /// The flash as it was started again; or without power, where no start went through. Where no
    /// operation was made the power is lost now.
    pub fn end(self) -> Result<F, F::Off>
        ensures image { IfOk result (λ next. (F.image next ≡ shows F.image self.flash self.before) × IsImage (F.image next)) }
        ensures rests { (flash : F) (whole : ℕ) → self.flash ≡ Some flash → self.loss ≡ Some whole → IfOk result (λ next. F.rests flash next) }
        ensures same { self.loss ≡ None → IfOk result (λ next. self.flash ≡ Some next) }
        ensures ready { ((off : F.Off) → F.is_ready off) → IsOk result }
    {
        match (self.flash, self.loss) {
            (Some(flash), Some(_)) => start_behind(flash.power_off(), self.starts.as_slice()),
            (Some(flash), None) => {
                let _pages = flash.pages();
                Ok(flash)
            }
            (None, _) => match self.off {
                Some(off) => Err(off),
                None => unreachable!(),
            },
        }
    }
}

impl<F: RestartableFlash> NorFlash for Interrupted<F> {
    ghost image = { λ s. shows F.image s.flash s.before };

    ghost operations = { λ s. s.operations };

    ghost faults = { λ s. s.faults };

    ghost takes_also = { λ _ _ _ _. ⊥ };

    ghost is_faultless = { λ _ _. ⊥ };

    ghost operates = { λ old operation new. Interrupts F.cuts old operation new };

    fn pages(&self) -> usize {
        match &self.flash {
            Some(flash) => flash.pages(),
            None => self.pages,
        }
    }

    fn read_slot(&self, page: usize, slot: usize) -> [u8; SLOT_BYTES] {
        match &self.flash {
            Some(flash) => flash.read_slot(page, slot),
            None => slot_of(&self.bytes, page, slot),
        }
    }

    fn program_slot(
        &mut self,
        page: usize,
        slot: usize,
        bytes: [u8; SLOT_BYTES],
    ) -> Result<(), FlashFault> {
        self.operations = self.operations.wrapping_add(1);
        self.faults = self.faults.wrapping_add(1);
        let Some(whole) = self.loss.take() else {
            return Err(FlashFault);
        };
        let Some(flash) = self.flash.take() else {
            return Err(FlashFault);
        };
        match program(flash, page, slot, bytes, whole, self.starts.as_slice()) {
            Ok(next) => self.flash = Some(next),
            Err(off) => self.off = Some(off),
        }
        Err(FlashFault)
    }

    fn erase_page(&mut self, page: usize) -> Result<(), FlashFault> {
        self.operations = self.operations.wrapping_add(1);
        self.faults = self.faults.wrapping_add(1);
        let Some(whole) = self.loss.take() else {
            return Err(FlashFault);
        };
        let Some(flash) = self.flash.take() else {
            return Err(FlashFault);
        };
        match erase(flash, page, whole, self.starts.as_slice()) {
            Ok(next) => self.flash = Some(next),
            Err(off) => self.off = Some(off),
        }
        Err(FlashFault)
    }
}

/// A program that the power is lost inside, and starts.
fn program<F: RestartableFlash>(
    flash: F,
    page: usize,
    slot: usize,
    bytes: [u8; SLOT_BYTES],
    whole: u32,
    starts: &[u32],
) -> Result<F, F::Off>
    requires in_pages { page < page_count (F.image flash) }
    requires in_page { slot < PAGE_SLOTS }
    ensures outcome { IfOk result (λ next. MayProgram (F.image flash) page slot bytes (F.image next)) }
    ensures whole { IfOk result (λ next. IsImage (F.image next)) }
    ensures cuts { IfOk result (λ next. F.cuts flash (programs page slot bytes) whole next) }
    ensures ready { ((off : F.Off) → F.is_ready off) → IsOk result }
{
    start_behind(flash.program_cut(page, slot, bytes, whole), starts)
}

/// An erase that the power is lost inside, and starts.
fn erase<F: RestartableFlash>(
    flash: F,
    page: usize,
    whole: u32,
    starts: &[u32],
) -> Result<F, F::Off>
    requires { page < page_count (F.image flash) }
    ensures outcome { IfOk result (λ next. MayErase (F.image flash) page (F.image next)) }
    ensures whole { IfOk result (λ next. IsImage (F.image next)) }
    ensures cuts { IfOk result (λ next. F.cuts flash (erases page) whole next) }
    ensures ready { ((off : F.Off) → F.is_ready off) → IsOk result }
{
    start_behind(flash.erase_cut(page, whole), starts)
}

/// The power is lost in each of these starts, and then in none.
pub fn start_behind<F: RestartableFlash>(off: F::Off, starts: &[u32]) -> Result<F, F::Off>
    ensures starts { IfOk result (λ flash. F.starts off flash) }
    ensures whole { IfOk result (λ flash. IsImage (F.image flash)) }
    ensures ready { ((off : F.Off) → F.is_ready off) → IsOk result }
{
    let mut off = off;
    for whole in starts {
        off = F::start_cut(off, *whole);
    }
    match F::start(off) {
        Ok(flash) => {
            let _pages = flash.pages();
            Ok(flash)
        }
        Err(off) => Err(off),
    }
}

/// The bytes of all pages, one page after the other.
fn copy_of<F: NorFlash>(flash: &F) -> [u8; MOST_BYTES]
    ensures { take (PAGE_BYTES * page_count (F.image flash.now)) result ≡ F.image flash.now }
{
    let mut bytes = [0u8; MOST_BYTES];
    for at in 0..PAGE_SLOTS * flash.pages() {
        put(
            &mut bytes,
            at,
            flash.read_slot(at / PAGE_SLOTS, at % PAGE_SLOTS),
        );
    }
    bytes
}

/// Puts a slot behind so many others.
fn put(bytes: &mut [u8; MOST_BYTES], at: usize, slot: [u8; SLOT_BYTES])
    requires { SLOT_BYTES * at + SLOT_BYTES ≤ MOST_BYTES }
    ensures { take (SLOT_BYTES * at + SLOT_BYTES) bytes.new ≡ take (SLOT_BYTES * at) bytes.old ++ slot }
{
    let first = SLOT_BYTES * at;
    bytes[first..first + SLOT_BYTES].copy_from_slice(&slot);
}

/// The eight bytes of a slot.
#[tactic(auto, unfolding(flash_model::specs::Image::slot_at))]
fn slot_of(bytes: &[u8; MOST_BYTES], page: usize, slot: usize) -> [u8; SLOT_BYTES]
    requires in_pages { page < 8 }
    requires in_page { slot < PAGE_SLOTS }
    ensures { result ≡ slot_at bytes.now page slot }
{
    let at = PAGE_BYTES * page + SLOT_BYTES * slot;
    [
        bytes[at],
        bytes[at + 1],
        bytes[at + 2],
        bytes[at + 3],
        bytes[at + 4],
        bytes[at + 5],
        bytes[at + 6],
        bytes[at + 7],
    ]
}
