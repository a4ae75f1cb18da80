//! A cut of the power inside an operation of the adapter.
//!
//! A `CutFlash` is any flash whose power fails inside one of its programs and erases: that one may be
//! torn, and from then on nothing is written. `PairedFlash` is proved on every `EccFlash`, and so on
//! this one: what an operation of it leaves there is what the units held when the power failed.

ghost use Rattle.std.specs.Prelude.{◌≡◌, ◌<◌, ◌≤◌, ℕ, suc, None, Some, IsErr, IsOk};
ghost use Rattle.ecc_flash.specs.Reading.{blank};
ghost use Rattle.ecc_flash.specs.Model.{MayHold, MayBeErased, OneUnit, OnePageOfUnits};
ghost use Rattle.ecc_flash.specs.UnitOperation.{programs_unit, erases_units};
ghost use Rattle.ecc_flash.specs.Cut.{CutOperates};

use crate::{EccFlash, PAGE_UNITS, UNIT_BYTES};
use flash_model::FlashFault;
use std::marker::Model;

/// A flash whose power fails inside a program or an erase.
#[derive(Drop)]
pub struct CutFlash<F: EccFlash + Drop> {
    flash: F,
    left: Option<u32>,
}

impl<F: EccFlash + Drop> Model for CutFlash<F> {
    ghost use Rattle.std.specs.Prelude.{ℕ, Option};

    ghost Value = { F × Option ℕ };

    ghost view = { λ s. (s.flash, s.left) };
}

impl<F: EccFlash + Drop> CutFlash<F> {
    /// The power fails inside the program or erase of a unit or page that comes after `whole` others.
    pub fn new(flash: F, whole: u32) -> CutFlash<F>
        ensures { result ≡ (flash, Some whole) }
    {
        CutFlash {
            flash,
            left: Some(whole),
        }
    }

    /// The flash with what was written to it.
    pub fn into_flash(self) -> F
        ensures { result ≡ self.0 }
    {
        self.flash
    }
}

impl<F: EccFlash + Drop> EccFlash for CutFlash<F> {
    ghost units = { λ s. F.units s.0 };

    ghost page_total = { λ s. F.page_total s.0 };

    ghost takes = { λ _ _ _. ⊥ };

    ghost is_healthy = { λ _. ⊥ };

    ghost operates = { λ old operation new. CutOperates F.operates old operation new };

    fn pages(&self) -> usize {
        self.flash.pages()
    }

    fn read_unit(&self, page: usize, unit: usize) -> Option<[u8; UNIT_BYTES]> {
        self.flash.read_unit(page, unit)
    }

    fn program_unit(
        &mut self,
        page: usize,
        unit: usize,
        bytes: [u8; UNIT_BYTES],
    ) -> Result<(), FlashFault>
        requires in_pages { page < F.page_total self.old.0 }
        requires in_page { unit < PAGE_UNITS }
        requires free { (F.units self.old.0 page unit).reads ≡ Some blank }
        ensures same_pages { F.page_total self.new.0 ≡ F.page_total self.old.0 }
        ensures outcome { MayHold (F.units self.old.0 page unit) bytes (F.units self.new.0 page unit) }
        ensures others { OneUnit (F.units self.old.0) page unit (F.units self.new.0) }
        ensures taken { ⊥ → (F.units self.new.0 page unit).reads ≡ Some blank → bytes ≡ blank }
        ensures still_takes { (p u : ℕ) → ⊥ → ⊥ }
        ensures healthy { ⊥ → IsOk result × ((F.units self.new.0 page unit).reads ≡ Some bytes) × ⊥ }
        ensures counts { (left : ℕ) → self.old.1 ≡ Some (suc left) → self.new.1 ≡ Some left }
        ensures fails { self.old.1 ≡ Some 0 → (self.new.1 ≡ None) × IsErr result }
        ensures off { self.old.1 ≡ None → (self.new ≡ self.old) × IsErr result }
        ensures operated { CutOperates F.operates self.old (programs_unit page unit bytes) self.new }
    {
        match self.left {
            None => Err(FlashFault),
            Some(0) => {
                self.left = None;
                let _torn = self.flash.program_unit(page, unit, bytes);
                Err(FlashFault)
            }
            Some(left) => {
                self.left = Some(left - 1);
                self.flash.program_unit(page, unit, bytes)
            }
        }
    }

    fn erase_units(&mut self, page: usize) -> Result<(), FlashFault>
        requires { page < F.page_total self.old.0 }
        ensures same_pages { F.page_total self.new.0 ≡ F.page_total self.old.0 }
        ensures outcome { (u : ℕ) → u < PAGE_UNITS → MayBeErased (F.units self.old.0 page u) (F.units self.new.0 page u) }
        ensures others { OnePageOfUnits (F.units self.old.0) page (F.units self.new.0) }
        ensures healthy { ⊥ → IsOk result × ((u : ℕ) → u < PAGE_UNITS → (F.units self.new.0 page u).reads ≡ Some blank) × ⊥ }
        ensures counts { (left : ℕ) → self.old.1 ≡ Some (suc left) → self.new.1 ≡ Some left }
        ensures fails { self.old.1 ≡ Some 0 → (self.new.1 ≡ None) × IsErr result }
        ensures off { self.old.1 ≡ None → (self.new ≡ self.old) × IsErr result }
        ensures operated { CutOperates F.operates self.old (erases_units page) self.new }
    {
        match self.left {
            None => Err(FlashFault),
            Some(0) => {
                self.left = None;
                let _torn = self.flash.erase_units(page);
                Err(FlashFault)
            }
            Some(left) => {
                self.left = Some(left - 1);
                self.flash.erase_units(page)
            }
        }
    }
}
