//! Flash with error correction as `NorFlash`: two write units for a slot.
//!
//! `EccFlash` is the flash, whose units are written once between erases, and `PairedFlash` the
//! adapter. A `PairedFlash` keeps the flash and both counts, and no table. The first unit of a slot
//! holds the word beside its complement; the second a check of the word beside the check's
//! complement. In the check each byte of the word is XORed with the byte before it, so that each bit
//! of the word turns two bits of the check, and four of the unit.
//!
//! The guarantee is that of `NorFlash`: a torn operation leaves no other word than that which was
//! meant (`theorems`). A driver implements `EccFlash`; a log, a store and a keyboard run on a
//! `PairedFlash`.
//!
//! On a healthy flash a `PairedFlash` stores: each word of a log goes into a slot that is
//! Free, each page is erased, and a format succeeds.
#![tactic(auto)]

ghost use Rattle.std.specs.Prelude.{◌≡◌, ◌<◌, ◌≤◌, ℕ, Some, IsOk};
ghost use Rattle.ecc_flash.specs.Reading.{blank};
ghost use Rattle.ecc_flash.specs.Model.{WriteUnit, MayHold, MayBeErased, OneUnit, OnePageOfUnits};
ghost use Rattle.ecc_flash.specs.UnitOperation.{UnitOperation, programs_unit, erases_units};

pub mod cut;
pub mod paired;
pub mod reading;
pub mod theorems;
pub mod witness;

pub use cut::CutFlash;
use flash_model::FlashFault;
pub use paired::PairedFlash;
pub use reading::UNIT_BYTES;

/// Write units of a page: two for each slot.
pub const PAGE_UNITS: usize = 1024;

/// Flash with error correction: 2 to 8 pages of 1,024 write units of eight bytes.
///
/// A driver of a flash with longer write units gives each the eight bytes, filled up with FFh, and
/// puts as many erase units together as hold 1,024 of them. An answer `Ok` is relied on for nothing:
/// what was written is read back.
///
/// What each clause asks of the hardware:
///
/// - `read_unit`: that reads don't change between two operations, and that a double error, which
///   many chips tell by an interrupt, is answered with `None`. FFh is answered only where each cell
///   is set: where the chip tells that a bit was corrected in it, the answer is `None`.
/// - `outcome` of `program_unit` and `erase_units`: that the error correction corrects one cell of a
///   unit at most, and that a program only clears cells and an erase only sets them; the rest follows
///   (`theorems`). A maker of a flash with another correction shows, or trusts, these clauses alone.
/// - `others`: that no other unit, and no other page, is disturbed.
///
/// ```rust
/// use wuzhikar_log::{EccFlash, FlashFault, PAGE_UNITS, UNIT_BYTES};
///
/// /// Units in RAM that read as they were programmed.
/// struct Ram([[[u8; UNIT_BYTES]; PAGE_UNITS]; 2]);
///
/// impl EccFlash for Ram {
///     fn pages(&self) -> usize {
///         2
///     }
///     fn read_unit(&self, page: usize, unit: usize) -> Option<[u8; UNIT_BYTES]> {
///         Some(self.0[page][unit])
///     }
///     fn program_unit(&mut self, page: usize, unit: usize, bytes: [u8; UNIT_BYTES]) -> Result<(), FlashFault> {
///         self.0[page][unit] = bytes;
///         Ok(())
///     }
///     fn erase_units(&mut self, page: usize) -> Result<(), FlashFault> {
///         self.0[page] = [[0xff; UNIT_BYTES]; PAGE_UNITS];
///         Ok(())
///     }
/// }
/// # assert_eq!(Ram([[[0xff; UNIT_BYTES]; PAGE_UNITS]; 2]).pages(), 2);
/// ```
pub trait EccFlash {
    /// Each write unit, by its page and its place there.
    ghost units: { Self → ℕ → ℕ → WriteUnit };

    /// How many pages there are.
    ghost page_total: { Self → ℕ };

    /// This unit, by its page and its place there, takes programs: once it is programmed with something
    /// else than FFh, it no longer reads as blank. Of hardware nothing makes this hold.
    ghost takes: { Self → ℕ → ℕ → Type 0 };

    /// From here on each program of a blank unit is whole, and so is each erase: it answers `Ok`, and what
    /// it wrote reads back. Of hardware nothing makes this hold.
    ghost is_healthy: { Self → Type 0 };

    /// This unit program or erase makes the second flash of the first. What it says beside `units` is
    /// each flash's own: of one whose power fails, that nothing is made behind that.
    ghost operates: { Self → UnitOperation → Self → Type 0 };

    /// Returns how many pages there are, 2 to 8.
    fn pages(&self) -> usize
        ensures count { result ≡ page_total self.now }
        ensures range { (2 ≤ page_total self.now) × (page_total self.now ≤ 8) };

    /// Returns what unit `unit`, 0 to 1,023, of page `page` reads as; `None` where that is an error.
    fn read_unit(&self, page: usize, unit: usize) -> Option<[u8; UNIT_BYTES]>
        requires in_pages { page < page_total self.now }
        requires in_page { unit < PAGE_UNITS }
        ensures { result ≡ (units self.now page unit).reads };

    /// Programs unit `unit`, 0 to 1,023, of page `page`, which reads as eight bytes FFh.
    ///
    /// Whatever the answer: the flash refused the program, and nothing has changed, or the unit was
    /// programmed, as a whole or in part. `FlashFault`: the flash told of a fault.
    fn program_unit(
        &mut self,
        page: usize,
        unit: usize,
        bytes: [u8; UNIT_BYTES],
    ) -> Result<(), FlashFault>
        requires in_pages { page < page_total self.old }
        requires in_page { unit < PAGE_UNITS }
        requires free { (units self.old page unit).reads ≡ Some blank }
        ensures same_pages { page_total self.new ≡ page_total self.old }
        ensures outcome { MayHold (units self.old page unit) bytes (units self.new page unit) }
        ensures others { OneUnit (units self.old) page unit (units self.new) }
        ensures taken { takes self.old page unit → (units self.new page unit).reads ≡ Some blank → bytes ≡ blank }
        ensures still_takes { (p u : ℕ) → takes self.old p u → takes self.new p u }
        ensures healthy { is_healthy self.old → IsOk result × ((units self.new page unit).reads ≡ Some bytes) × is_healthy self.new }
        ensures operated { operates self.old (programs_unit page unit bytes) self.new };

    /// Erases page `page`.
    ///
    /// Whatever the answer: the page was erased, as a whole, in part or not at all. `FlashFault`: the
    /// flash told of a fault.
    fn erase_units(&mut self, page: usize) -> Result<(), FlashFault>
        requires { page < page_total self.old }
        ensures same_pages { page_total self.new ≡ page_total self.old }
        ensures outcome { (u : ℕ) → u < PAGE_UNITS → MayBeErased (units self.old page u) (units self.new page u) }
        ensures others { OnePageOfUnits (units self.old) page (units self.new) }
        ensures healthy { is_healthy self.old → IsOk result × ((u : ℕ) → u < PAGE_UNITS → (units self.new page u).reads ≡ Some blank) × is_healthy self.new }
        ensures operated { operates self.old (erases_units page) self.new };
}
