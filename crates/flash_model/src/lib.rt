//! NOR flash: pages of 512 slots of eight bytes. A program clears bits of one slot, an erase sets
//! every bit of one page.
//!
//! `NorFlash` is the flash that the firmware writes to, with what each operation does to the bytes;
//! `SimFlash` is one in memory.
//!
//! A `SimFlash` keeps the bytes, both counts, and the mask that its next operation is torn by. The
//! guarantee is what a torn operation can leave: of its own bits some have taken effect and others
//! have not, and nothing else has changed. A driver of a flash implements `NorFlash`;
//! `page_turnover` and what stands on it write through it, and `world` runs on a `SimFlash`.
#![tactic(auto)]

ghost use Rattle.std.specs.Prelude.{◌≡◌, ◌⊎◌, ◌+◌, ◌%◌, ◌^◌, ◌<◌, ℕ, List, IsOk, MatchResult, is_ok, if◌then◌else◌};
ghost use Rattle.flash_model.specs.Image.{slot_at, page_count, IsImage};
ghost use Rattle.flash_model.specs.Assured.{IsAssured};
ghost use Rattle.flash_model.specs.FlashOperation.{FlashOperation, programs, erases};
ghost use Rattle.flash_model.specs.Operations.{Programs, MayProgram, Erases, MayErase};

pub mod masks;
pub mod sim;
pub mod theorems;

pub use masks::Mask;
pub use sim::{FlashError, SimFlash};

/// Slots of a page.
pub const PAGE_SLOTS: usize = 512;

/// Bytes of a slot.
pub const SLOT_BYTES: usize = 8;

/// Bytes of a page.
pub const PAGE_BYTES: usize = PAGE_SLOTS * SLOT_BYTES;

/// A program or an erase that was torn: some of its bits may have taken effect, and others not.
#[derive(Clone, Copy, Debug, PartialEq, Eq)]
pub struct FlashFault;

/// NOR flash of 2 to 8 pages of 4,096 bytes. A page has 512 slots of eight bytes, and their number
/// never changes.
pub trait NorFlash {
    /// The bytes of the pages, one page after the other.
    ghost image: { Self → List ℕ };

    /// How many programs and erases were made, modulo 2^64.
    ghost operations: { Self → ℕ };

    /// How many of them were torn, modulo 2^64.
    ghost faults: { Self → ℕ };

    /// A healthy flash makes this program of a slot of a page too. Each one programs an erased slot with
    /// a word whose bit 31 is clear; what else, a flash with error correction may refuse.
    ghost takes_also: { Self → ℕ → ℕ → List ℕ → Type 0 };

    /// Of the next so many operations, erases and programs that it takes, none fails. A flash may end,
    /// so each operation uses up one of them. Of hardware nothing makes this hold.
    ghost is_faultless: { Self → ℕ → Type 0 };

    /// This program or erase makes the second flash of the first. What it says beside `image` and the
    /// counts is each flash's own: of a simulated one, by which mask it was torn.
    ghost operates: { Self → FlashOperation → Self → Type 0 };

    /// Returns how many pages there are, 2 to 8.
    fn pages(&self) -> usize
        ensures count { result ≡ page_count (image self.now) }
        ensures whole { IsImage (image self.now) };

    /// Reads the eight bytes of slot `slot`, 0 to 511, of page `page`, below `pages()`.
    fn read_slot(&self, page: usize, slot: usize) -> [u8; SLOT_BYTES]
        requires in_pages { page < page_count (image self.now) }
        requires in_page { slot < PAGE_SLOTS }
        ensures { result ≡ slot_at (image self.now) page slot };

    /// Clears the bits of a slot that are clear in `bytes`. Slot `slot`, 0 to 511, of page `page`,
    /// below `pages()`, then holds what it held, AND `bytes`; no other slot is touched.
    ///
    /// `FlashFault`: the operation was torn. Of the bits that it would have cleared some are clear
    /// and others are as they were; no other bit of the slot, and no other slot, has changed.
    fn program_slot(
        &mut self,
        page: usize,
        slot: usize,
        bytes: [u8; SLOT_BYTES],
    ) -> Result<(), FlashFault>
        requires in_pages { page < page_count (image self.old) }
        requires in_page { slot < PAGE_SLOTS }
        ensures outcome { MatchResult result
            (λ _. Programs (image self.old) page slot bytes (image self.new))
            (λ _. MayProgram (image self.old) page slot bytes (image self.new)) }
        ensures whole { IsImage (image self.new) }
        ensures same_pages { page_count (image self.new) ≡ page_count (image self.old) }
        ensures counted { operations self.new ≡ (operations self.old + 1) % 2 ^ 64 }
        ensures faulted { faults self.new ≡ (if is_ok result then faults self.old else (faults self.old + 1) % 2 ^ 64) }
        ensures faultless { (n : ℕ) → is_faultless self.old (n + 1) → IsAssured (image self.old) page slot bytes ⊎ takes_also self.old page slot bytes → IsOk result × is_faultless self.new n }
        ensures operated { operates self.old (programs page slot bytes) self.new };

    /// Sets every bit of page `page`, below `pages()`; no other page is touched.
    ///
    /// `FlashFault`: the operation was torn. Of the clear bits of the page some are set; no bit
    /// was cleared, and no other page has changed.
    fn erase_page(&mut self, page: usize) -> Result<(), FlashFault>
        requires { page < page_count (image self.old) }
        ensures outcome { MatchResult result
            (λ _. Erases (image self.old) page (image self.new))
            (λ _. MayErase (image self.old) page (image self.new)) }
        ensures whole { IsImage (image self.new) }
        ensures same_pages { page_count (image self.new) ≡ page_count (image self.old) }
        ensures counted { operations self.new ≡ (operations self.old + 1) % 2 ^ 64 }
        ensures faulted { faults self.new ≡ (if is_ok result then faults self.old else (faults self.old + 1) % 2 ^ 64) }
        ensures faultless { (n : ℕ) → is_faultless self.old (n + 1) → IsOk result × is_faultless self.new n }
        ensures operated { operates self.old (erases page) self.new };
}
