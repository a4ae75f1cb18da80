//! A flash in memory, for runs without hardware.

ghost use Rattle.std.specs.Prelude.{◌≡◌, ◌≢◌, None, Some, IsNone, IsErr, MatchOption, ◌+◌, ◌*◌, ◌%◌, ◌^◌, ◌<◌, ◌≤◌, ◌↔◌, ℕ, ◌⊎◌, ⊤, List, length, IfOk, IsOk, OnErr, MatchResult, is_ok, if◌then◌else◌, replicate, slice_index, bit_and};
ghost use Rattle.std.specs.Cmp.Rules.{comparing};
ghost use Rattle.std.proofs.Common.{rules};
ghost use Rattle.flash_model.specs.declared.TheConstants.{PAGE_SLOTS};
ghost use Rattle.flash_model.specs.Image.{slot_at, page_count, IsImage};
ghost use Rattle.flash_model.specs.Assured.{IsAssured};
ghost use Rattle.flash_model.specs.ByMask.{ProgramsByMask, ErasesByMask};
ghost use Rattle.flash_model.specs.FlashOperation.{programs, erases};
ghost use Rattle.flash_model.specs.Operated.{IsOperated};
ghost use Rattle.flash_model.specs.Operations.{Programs, MayProgram, Erases, MayErase};
ghost use Rattle.flash_model.specs.Sim.{sim_eq};

use crate::{FlashFault, Mask, NorFlash, PAGE_BYTES, SLOT_BYTES, masks};
use std::alloc::Global;
use std::marker::Model;

/// Why there is no flash.
#[derive(Clone, Copy, Debug, PartialEq, Eq)]
pub enum FlashError {
    /// A flash has 2 to 8 pages.
    PageCount,
    /// There was no memory for the pages.
    Memory,
    /// The bytes are not those of 2 to 8 whole pages.
    ImageSize,
}

/// A flash in memory. No operation of it fails, but that which comes after `fault_next`. Two are equal
/// where their bytes, what is armed and both counts are.
///
/// ```rust
/// use wuzhikar_log::{Mask, NorFlash, SimFlash};
///
/// let mut flash = SimFlash::blank(2).unwrap();
/// // The next operation fails, and of its bits those of the mask take effect.
/// flash.fault_next(Mask::from_iter([0x0f]));
/// assert!(flash.program_slot(0, 0, [0; 8]).is_err());
/// assert_eq!(flash.read_slot(0, 0), [0xf0; 8]);
/// ```
#[derive(Clone, Debug, Drop)]
pub struct SimFlash {
    bytes: Vec<u8>,
    armed: Option<Mask>,
    operations: u64,
    faults: u64,
}

impl Model for SimFlash {
    ghost use Rattle.std.specs.Prelude.{◌≡◌, ◌*◌, ◌≤◌, length, option_map};
    ghost use Rattle.flash_model.specs.Image.{page_count};
    ghost use Rattle.flash_model.specs.declared.TheConstants.{PAGE_BYTES};
    ghost use Rattle.flash_model.specs.Sim.{SimValue};

    ghost Value = { SimValue };

    ghost view = { λ s. record { image = s.bytes.items; armed = option_map (λ m. m.items) s.armed; operations = s.operations; faults = s.faults } };

    ghost invariant = { λ s. (length s.bytes.items ≡ PAGE_BYTES * page_count s.bytes.items) × (2 ≤ page_count s.bytes.items) × (page_count s.bytes.items ≤ 8) };
}

impl SimFlash {
    /// Makes a blank flash of `pages` pages, every byte FFh, with nothing armed and no operation
    /// counted.
    ///
    /// `PageCount` where `pages` is not 2 to 8, asked first; `Memory` where there was no memory for
    /// the 4,096 bytes of each page.
    pub fn new(alloc: Global, pages: usize) -> Result<SimFlash, FlashError>
        ensures blank { IfOk result (λ f. f ≡ record { image = replicate (PAGE_BYTES * pages) 255; armed = None; operations = 0; faults = 0 }) }
        ensures page_count { (result ≡ Err FlashError.PageCount) ↔ ((pages < 2) ⊎ (8 < pages)) }
        ensures no_other { result ≢ Err FlashError.ImageSize }
    {
        if pages < 2 || pages > 8 {
            return Err(FlashError::PageCount);
        }
        match vec![in alloc; 255u8; PAGE_BYTES * pages] {
            Ok(bytes) => Ok(SimFlash {
                bytes,
                armed: None,
                operations: 0,
                faults: 0,
            }),
            Err(_) => Err(FlashError::Memory),
        }
    }

    /// Makes a flash that holds these bytes, with nothing armed and no operation counted.
    ///
    /// `ImageSize` where they are not 2 to 8 whole pages of 4,096 bytes; the bytes are then dropped.
    pub fn from_image(bytes: Vec<u8>) -> Result<SimFlash, FlashError>
        ensures holds { IfOk result (λ f. f ≡ record { image = bytes.items; armed = None; operations = 0; faults = 0 }) }
        ensures taken { IsOk result ↔ IsImage bytes.items }
        ensures image_size { OnErr result (result ≡ Err FlashError.ImageSize) }
    {
        let pages = bytes.len() / PAGE_BYTES;
        if bytes.len() % PAGE_BYTES != 0 || pages < 2 || pages > 8 {
            return Err(FlashError::ImageSize);
        }
        Ok(SimFlash {
            bytes,
            armed: None,
            operations: 0,
            faults: 0,
        })
    }

    /// Returns the bytes of the pages, one page after the other.
    pub fn image(&self) -> &[u8]
        ensures { result.now ≡ self.now.image }
    {
        self.bytes.as_slice()
    }

    /// Tears the next program or erase by the mask: its outcome is exactly the mask's, and it answers
    /// `FlashFault`. Operations after that one are whole again. A flash that is armed takes this
    /// mask in place of its own.
    pub fn fault_next(&mut self, mask: Mask)
        ensures { self.new ≡ record self.old { armed = Some mask.items } }
    {
        self.armed = Some(mask);
    }

    /// Takes back what `fault_next` armed, where no operation has come since.
    pub fn disarm(&mut self)
        ensures { self.new ≡ record self.old { armed = None } }
    {
        let _mask = self.armed.take();
    }

    /// After a torn operation: it counts as a fault, and its mask is used up.
    fn end_fault(&mut self)
        ensures { self.new ≡ record self.old { armed = None; faults = (self.old.faults + 1) % 2 ^ 64 } }
    {
        self.faults = self.faults.wrapping_add(1);
        self.armed = None;
    }
}

impl PartialEq for SimFlash {
    ghost eq = { sim_eq };

    ghost laws = { Prim.search (comparing, rules) depth 9 };

    fn eq(&self, other: &SimFlash) -> bool {
        self.bytes == other.bytes
            && self.armed == other.armed
            && self.operations == other.operations
            && self.faults == other.faults
    }
}

impl Eq for SimFlash {
    ghost laws = { Prim.search (comparing, rules) depth 9 };
}

impl NorFlash for SimFlash {
    ghost image = { λ f. f.image };

    ghost operations = { λ f. f.operations };

    ghost faults = { λ f. f.faults };

    ghost takes_also = { λ f page slot bytes. ⊤ };

    ghost is_faultless = { λ f n. f.armed ≡ None };

    ghost operates = { λ f o g. IsOperated f o g };

    fn pages(&self) -> usize {
        let bytes = self.bytes.as_slice();
        bytes.len() / PAGE_BYTES
    }

    #[tactic(auto, unfolding(crate::specs::Image::slot_at))]
    fn read_slot(&self, page: usize, slot: usize) -> [u8; SLOT_BYTES] {
        let bytes = self.bytes.as_slice();
        let at = PAGE_BYTES * page + SLOT_BYTES * slot;
        [
            bytes[at],
            bytes[at + 1],
            bytes[at + 2],
            bytes[at + 3],
            bytes[at + 4],
            bytes[at + 5],
            bytes[at + 6],
            bytes[at + 7],
        ]
    }

    fn program_slot(
        &mut self,
        page: usize,
        slot: usize,
        bytes: [u8; SLOT_BYTES],
    ) -> Result<(), FlashFault>
        requires in_pages { page < page_count self.old.image }
        requires in_page { slot < PAGE_SLOTS }
        ensures by_mask { MatchOption self.old.armed
            (IsOk result)
            (λ mask. IsErr result × ProgramsByMask self.old.image page slot bytes mask self.new.image) }
        ensures once { self.new.armed ≡ None }
        ensures outcome { MatchResult result
            (λ _. Programs self.old.image page slot bytes self.new.image)
            (λ _. MayProgram self.old.image page slot bytes self.new.image) }
        ensures whole { IsImage self.new.image }
        ensures same_pages { page_count self.new.image ≡ page_count self.old.image }
        ensures counted { self.new.operations ≡ (self.old.operations + 1) % 2 ^ 64 }
        ensures faulted { self.new.faults ≡ (if is_ok result then self.old.faults else (self.old.faults + 1) % 2 ^ 64) }
        ensures faultless { (n : ℕ) → self.old.armed ≡ None → IsAssured self.old.image page slot bytes ⊎ ⊤ → IsOk result × (self.new.armed ≡ None) }
        ensures operated { IsOperated self.old (programs page slot bytes) self.new }
    {
        self.operations = self.operations.wrapping_add(1);
        match &self.armed {
            None => {
                program(&mut self.bytes, page, slot, bytes);
                Ok(())
            }
            Some(mask) => {
                masks::program(&mut self.bytes, page, slot, bytes, mask.as_slice());
                self.end_fault();
                Err(FlashFault)
            }
        }
    }

    #[tactic(auto, using(crate::proofs::Writes::written_image))]
    fn erase_page(&mut self, page: usize) -> Result<(), FlashFault>
        requires { page < page_count self.old.image }
        ensures by_mask { MatchOption self.old.armed
            (IsOk result)
            (λ mask. IsErr result × ErasesByMask self.old.image page mask self.new.image) }
        ensures once { self.new.armed ≡ None }
        ensures outcome { MatchResult result
            (λ _. Erases self.old.image page self.new.image)
            (λ _. MayErase self.old.image page self.new.image) }
        ensures whole { IsImage self.new.image }
        ensures same_pages { page_count self.new.image ≡ page_count self.old.image }
        ensures counted { self.new.operations ≡ (self.old.operations + 1) % 2 ^ 64 }
        ensures faulted { self.new.faults ≡ (if is_ok result then self.old.faults else (self.old.faults + 1) % 2 ^ 64) }
        ensures faultless { (n : ℕ) → self.old.armed ≡ None → IsOk result × (self.new.armed ≡ None) }
        ensures operated { IsOperated self.old (erases page) self.new }
    {
        self.operations = self.operations.wrapping_add(1);
        match &self.armed {
            None => {
                erase(&mut self.bytes, page);
                Ok(())
            }
            Some(mask) => {
                masks::erase(&mut self.bytes, page, mask.as_slice());
                self.end_fault();
                Err(FlashFault)
            }
        }
    }
}

/// Clears the bits of a slot that are clear in `with`.
fn program(image: &mut [u8], page: usize, slot: usize, with: [u8; SLOT_BYTES])
    requires in_pages { (page < page_count image.old) × (page < 8) }
    requires in_page { slot < PAGE_SLOTS }
    ensures programmed { Programs image.old page slot with image.new }
    ensures bytes { (k : ℕ) → slice_index image.new k < 256 }
{
    clear(image, PAGE_BYTES * page + SLOT_BYTES * slot, with);
}

/// Sets every bit of a page.
fn erase(image: &mut [u8], page: usize)
    requires { (page < page_count image.old) × (page < 8) }
    ensures erased { Erases image.old page image.new }
    ensures bytes { (k : ℕ) → slice_index image.new k < 256 }
{
    set(image, PAGE_BYTES * page);
}

/// Clears the bits of eight bytes that are clear in `with`.
fn clear(image: &mut [u8], at: usize, with: [u8; SLOT_BYTES])
    requires { at + SLOT_BYTES ≤ length image.old }
    ensures changed { (k : ℕ) → k < SLOT_BYTES → slice_index image.new (at + k) ≡ bit_and (slice_index image.old (at + k)) (slice_index with k) }
    ensures kept { (j : ℕ) → (at ≤ j → j < at + SLOT_BYTES → ⊥) → slice_index image.new j ≡ slice_index image.old j }
{
    for k in 0..SLOT_BYTES {
        image[at + k] &= with[k];
    }
}

/// Sets every bit of the bytes of a page.
fn set(image: &mut [u8], at: usize)
    requires { at + PAGE_BYTES ≤ length image.old }
    ensures changed { (k : ℕ) → k < PAGE_BYTES → slice_index image.new (at + k) ≡ 255 }
    ensures kept { (j : ℕ) → (at ≤ j → j < at + PAGE_BYTES → ⊥) → slice_index image.new j ≡ slice_index image.old j }
{
    for k in 0..PAGE_BYTES {
        image[at + k] = u8::MAX;
    }
}
