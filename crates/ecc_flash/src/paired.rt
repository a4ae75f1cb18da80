//! The adapter: each slot in two write units.

ghost use Rattle.std.specs.Prelude.{◌≡◌, ◌⊎◌, true, ◌+◌, ◌*◌, ◌%◌, ◌^◌, ◌<◌, ◌≤◌, ℕ, ◌↔◌, Some, IsOk, IsTrue, MatchResult, IfOk, is_ok, if◌then◌else◌, List};
ghost use Rattle.flash_model.specs.Image.{page_count, slot_at, IsImage};
ghost use Rattle.flash_model.specs.Assured.{IsAssured};
ghost use Rattle.flash_model.specs.Operations.{Programs, MayProgram, Erases, MayErase};
ghost use Rattle.ecc_flash.specs.Reading.{blank, is_word};
ghost use Rattle.ecc_flash.specs.Model.{MayHold, MayBeErased, OneUnit, OnePageOfUnits};
ghost use Rattle.ecc_flash.specs.Paired.{AllKept, slot_in, image_of};
ghost use Rattle.ecc_flash.specs.UnitOperation.{programs_unit, erases_units};
ghost use Rattle.ecc_flash.specs.Cut.{ProgramsPair, PairOperates};
ghost use Rattle.flash_model.specs.FlashOperation.{programs, erases};

use crate::reading::{UNIT_BYTES, check_of_word, is_blank, is_log_word, read};
use crate::{EccFlash, PAGE_UNITS};
use flash_model::{FlashFault, NorFlash, PAGE_SLOTS, SLOT_BYTES};
use std::marker::Model;

/// A flash with error correction, of which each slot is kept in two write units.
///
/// Slot `s` of a page stands in its units `2 * s` and `2 * s + 1`. Only words of a log are
/// programmed, which have bit 31 clear, and only into a slot that is Free: any other program is a
/// fault, and touches nothing. A program costs two unit programs, and four unit reads.
///
/// ```rust
/// # use wuzhikar_log::{EccFlash, FlashFault, PAGE_UNITS, UNIT_BYTES};
/// use wuzhikar_log::{FlashLog, PairedFlash};
///
/// # struct Ram([[[u8; UNIT_BYTES]; PAGE_UNITS]; 2]);
/// # impl EccFlash for Ram {
/// #     fn pages(&self) -> usize { 2 }
/// #     fn read_unit(&self, page: usize, unit: usize) -> Option<[u8; UNIT_BYTES]> { Some(self.0[page][unit]) }
/// #     fn program_unit(&mut self, page: usize, unit: usize, bytes: [u8; UNIT_BYTES]) -> Result<(), FlashFault> {
/// #         self.0[page][unit] = bytes;
/// #         Ok(())
/// #     }
/// #     fn erase_units(&mut self, page: usize) -> Result<(), FlashFault> {
/// #         self.0[page] = [[0xff; UNIT_BYTES]; PAGE_UNITS];
/// #         Ok(())
/// #     }
/// # }
/// # let units = Ram([[[0xff; UNIT_BYTES]; PAGE_UNITS]; 2]);
/// // `units` is the chip's flash, an `EccFlash`.
/// let mut log = FlashLog::mount(PairedFlash::mount(units))?;
/// log.rewrite([])?;
/// log.push(7)?;
/// assert_eq!(log.words().collect::<Vec<_>>(), [7]);
/// # Ok::<(), Box<dyn std::error::Error>>(())
/// ```
#[derive(Drop)]
pub struct PairedFlash<F: EccFlash + Drop> {
    flash: F,
    operations: u64,
    faults: u64,
}

impl<F: EccFlash + Drop> Model for PairedFlash<F> {
    ghost use Rattle.std.specs.Prelude.{ℕ, ◌≤◌};
    ghost use Rattle.ecc_flash.specs.Paired.{AllKept};

    ghost Value = { F × ℕ × ℕ };

    ghost view = { λ s. (s.flash, s.operations, s.faults) };

    ghost invariant = { λ s. AllKept (F.units s.flash) (F.page_total s.flash) × (2 ≤ F.page_total s.flash) × (F.page_total s.flash ≤ 8) };
}

impl<F: EccFlash + Drop> PairedFlash<F> {
    /// Makes the adapter of a flash that `format` made, and that nothing but such an adapter wrote to
    /// since. It writes nothing; both counts are 0.
    pub fn mount(flash: F) -> PairedFlash<F>
        requires { AllKept (F.units flash) (F.page_total flash) }
        ensures { result ≡ (flash, 0, 0) }
    {
        let _pages = flash.pages();
        PairedFlash {
            flash,
            operations: 0,
            faults: 0,
        }
    }

    /// Erases all of a flash, whatever it holds, and makes its adapter. What it held is lost.
    ///
    /// `FlashFault`: a page does not read as erased, or the flash told of a fault. On a healthy flash
    /// that does not come.
    pub fn format(mut flash: F) -> Result<PairedFlash<F>, FlashFault>
        ensures blank { IfOk result (λ paired. (p u : ℕ) → p < F.page_total paired.0 → u < PAGE_UNITS → (F.units paired.0 p u).reads ≡ Some blank) }
        ensures healthy { F.is_healthy flash → IsOk result × IfOk result (λ paired. F.is_healthy paired.0) }
    {
        let pages = flash.pages();
        for page in 0..pages {
            erase_units(&mut flash, page)?;
        }
        Ok(PairedFlash::mount(flash))
    }

    /// Returns the flash, with what was written to it.
    pub fn into_flash(self) -> F
        ensures same { result ≡ self.0 }
        ensures kept { AllKept (F.units result) (F.page_total result) }
    {
        self.flash
    }

    /// How many pages there are.
    fn page_total(&self) -> usize
        ensures count { result ≡ page_count (image_of (F.units self.now.0) (F.page_total self.now.0)) }
        ensures whole { IsImage (image_of (F.units self.now.0) (F.page_total self.now.0)) }
    {
        self.flash.pages()
    }
}

impl<F: EccFlash + Drop> NorFlash for PairedFlash<F> {
    ghost image = { λ s. image_of (F.units s.0) (F.page_total s.0) };

    ghost operations = { λ s. s.1 };

    ghost faults = { λ s. s.2 };

    ghost takes_also = { λ s page slot bytes. ⊥ };

    ghost is_faultless = { λ s n. F.is_healthy s.0 };

    ghost operates = { λ old operation new. PairOperates F.units F.operates old.0 operation new.0 };

    fn pages(&self) -> usize {
        self.page_total()
    }

    fn read_slot(&self, page: usize, slot: usize) -> [u8; SLOT_BYTES] {
        let unit = 2 * slot as u16;
        let first = self.flash.read_unit(page, unit as usize);
        let second = self.flash.read_unit(page, (unit + 1) as usize);
        read(first, second)
    }

    fn program_slot(
        &mut self,
        page: usize,
        slot: usize,
        bytes: [u8; SLOT_BYTES],
    ) -> Result<(), FlashFault>
        requires in_pages { page < page_count (image_of (F.units self.old.0) (F.page_total self.old.0)) }
        requires in_page { slot < PAGE_SLOTS }
        ensures outcome { MatchResult result
            (λ _. Programs (image_of (F.units self.old.0) (F.page_total self.old.0)) page slot bytes (image_of (F.units self.new.0) (F.page_total self.new.0)))
            (λ _. MayProgram (image_of (F.units self.old.0) (F.page_total self.old.0)) page slot bytes (image_of (F.units self.new.0) (F.page_total self.new.0))) }
        ensures whole { IsImage (image_of (F.units self.new.0) (F.page_total self.new.0)) }
        ensures same_pages { page_count (image_of (F.units self.new.0) (F.page_total self.new.0)) ≡ page_count (image_of (F.units self.old.0) (F.page_total self.old.0)) }
        ensures counted { self.new.1 ≡ (self.old.1 + 1) % 2 ^ 64 }
        ensures faulted { self.new.2 ≡ (if is_ok result then self.old.2 else (self.old.2 + 1) % 2 ^ 64) }
        ensures faultless { (n : ℕ) → F.is_healthy self.old.0 → IsAssured (image_of (F.units self.old.0) (F.page_total self.old.0)) page slot bytes ⊎ ⊥ → IsOk result × F.is_healthy self.new.0 }
        ensures operated { PairOperates F.units F.operates self.old.0 (programs page slot bytes) self.new.0 }
        ensures marked { is_word bytes ≡ true → F.takes self.old.0 page (2 * slot + 1) → slot_in (F.units self.new.0) page slot ≡ blank → ⊥ }
    {
        self.operations = self.operations.wrapping_add(1);
        let done = program(&mut self.flash, page, slot, bytes);
        if done.is_err() {
            self.faults = self.faults.wrapping_add(1);
        }
        done
    }

    fn erase_page(&mut self, page: usize) -> Result<(), FlashFault> {
        self.operations = self.operations.wrapping_add(1);
        let done = erase(&mut self.flash, page);
        if done.is_err() {
            self.faults = self.faults.wrapping_add(1);
        }
        done
    }
}

/// Programs a slot that is Free: the first unit with the word, and once that reads back, the second
/// with the check. Where the first unit takes nothing, the second is written all the same, so that
/// the slot is passed over from then on.
fn program<F: EccFlash>(
    flash: &mut F,
    page: usize,
    slot: usize,
    bytes: [u8; SLOT_BYTES],
) -> Result<(), FlashFault>
    requires in_pages { page < F.page_total flash.old }
    requires in_page { slot < PAGE_SLOTS }
    requires kept { AllKept (F.units flash.old) (F.page_total flash.old) }
    ensures same_pages { F.page_total flash.new ≡ F.page_total flash.old }
    ensures kept { AllKept (F.units flash.new) (F.page_total flash.old) }
    ensures outcome { MatchResult result
        (λ _. Programs (image_of (F.units flash.old) (F.page_total flash.old)) page slot bytes (image_of (F.units flash.new) (F.page_total flash.old)))
        (λ _. MayProgram (image_of (F.units flash.old) (F.page_total flash.old)) page slot bytes (image_of (F.units flash.new) (F.page_total flash.old))) }
    ensures marked { is_word bytes ≡ true → F.takes flash.old page (2 * slot + 1) → slot_in (F.units flash.new) page slot ≡ blank → ⊥ }
    ensures healthy { F.is_healthy flash.old → is_word bytes ≡ true → slot_in (F.units flash.old) page slot ≡ blank → IsOk result × F.is_healthy flash.new }
    ensures operated { ProgramsPair F.units F.operates flash.old page slot bytes flash.new }
{
    let unit = 2 * slot as u16;
    let first = unit as usize;
    let second = (unit + 1) as usize;
    if !is_log_word(bytes) || !is_free(flash, page, first) || !is_free(flash, page, second) {
        return Err(FlashFault);
    }
    match write_unit(flash, page, first, bytes) {
        Ok(()) => match write_unit(flash, page, second, check_of_word(bytes)) {
            Ok(()) => Ok(()),
            Err(fault) => Err(fault),
        },
        Err(fault) => {
            if is_free(flash, page, first) {
                let _marked = flash.program_unit(page, second, ZEROS);
            }
            Err(fault)
        }
    }
}

/// Programs a unit, and reads it back.
fn write_unit<F: EccFlash>(
    flash: &mut F,
    page: usize,
    unit: usize,
    bytes: [u8; UNIT_BYTES],
) -> Result<(), FlashFault>
    requires in_pages { page < F.page_total flash.old }
    requires in_page { unit < PAGE_UNITS }
    requires free { (F.units flash.old page unit).reads ≡ Some blank }
    ensures same_pages { F.page_total flash.new ≡ F.page_total flash.old }
    ensures outcome { MayHold (F.units flash.old page unit) bytes (F.units flash.new page unit) }
    ensures read_back { IfOk result (λ _. (F.units flash.new page unit).reads ≡ Some bytes) }
    ensures others { OneUnit (F.units flash.old) page unit (F.units flash.new) }
    ensures still_takes { (p u : ℕ) → F.takes flash.old p u → F.takes flash.new p u }
    ensures healthy { F.is_healthy flash.old → IsOk result × F.is_healthy flash.new }
    ensures operated { F.operates flash.old (programs_unit page unit bytes) flash.new }
{
    let done = flash.program_unit(page, unit, bytes);
    let now = flash.read_unit(page, unit);
    if now == Some(bytes) {
        done
    } else {
        Err(FlashFault)
    }
}

/// Erases the units of a page, and reads them back.
fn erase<F: EccFlash>(flash: &mut F, page: usize) -> Result<(), FlashFault>
    requires in_pages { page < F.page_total flash.old }
    requires kept { AllKept (F.units flash.old) (F.page_total flash.old) }
    ensures same_pages { F.page_total flash.new ≡ F.page_total flash.old }
    ensures kept { AllKept (F.units flash.new) (F.page_total flash.old) }
    ensures outcome { MatchResult result
        (λ _. Erases (image_of (F.units flash.old) (F.page_total flash.old)) page (image_of (F.units flash.new) (F.page_total flash.old)))
        (λ _. MayErase (image_of (F.units flash.old) (F.page_total flash.old)) page (image_of (F.units flash.new) (F.page_total flash.old))) }
    ensures healthy { F.is_healthy flash.old → IsOk result × F.is_healthy flash.new }
    ensures operated { F.operates flash.old (erases_units page) flash.new }
{
    match erase_units(flash, page) {
        Ok(()) => Ok(()),
        Err(fault) => Err(fault),
    }
}

/// The same, whatever the units were.
fn erase_units<F: EccFlash>(flash: &mut F, page: usize) -> Result<(), FlashFault>
    requires { page < F.page_total flash.old }
    ensures same_pages { F.page_total flash.new ≡ F.page_total flash.old }
    ensures outcome { (u : ℕ) → u < PAGE_UNITS → MayBeErased (F.units flash.old page u) (F.units flash.new page u) }
    ensures read_back { IfOk result (λ _. (u : ℕ) → u < PAGE_UNITS → (F.units flash.new page u).reads ≡ Some blank) }
    ensures others { OnePageOfUnits (F.units flash.old) page (F.units flash.new) }
    ensures healthy { F.is_healthy flash.old → IsOk result × F.is_healthy flash.new }
    ensures operated { F.operates flash.old (erases_units page) flash.new }
{
    let done = flash.erase_units(page);
    if is_erased(flash, page) {
        done
    } else {
        Err(FlashFault)
    }
}

/// Whether each unit of a page reads blank.
fn is_erased<F: EccFlash>(flash: &F, page: usize) -> bool
    requires { page < F.page_total flash.now }
    ensures { IsTrue result ↔ ((u : ℕ) → u < PAGE_UNITS → (F.units flash.now page u).reads ≡ Some blank) }
{
    for unit in 0..PAGE_UNITS {
        if !is_free(flash, page, unit) {
            return false;
        }
    }
    true
}

/// Whether a unit reads blank. A driver's read is long, and would stand in four places.
#[inline(never)]
fn is_free<F: EccFlash>(flash: &F, page: usize, unit: usize) -> bool
    requires in_pages { page < F.page_total flash.now }
    requires in_page { unit < PAGE_UNITS }
    ensures { IsTrue result ↔ (F.units flash.now page unit).reads ≡ Some blank }
{
    is_blank(flash.read_unit(page, unit))
}

/// What the second unit is programmed with where the first one took nothing.
const ZEROS: [u8; UNIT_BYTES] = [0; UNIT_BYTES];
