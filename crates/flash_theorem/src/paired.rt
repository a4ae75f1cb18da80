//! Flash with error correction.

ghost use Rattle.std.specs.Prelude.{◌≡◌, ◌<◌, ℕ, List, IsOk, MatchResult};
ghost use Rattle.ecc_flash.specs.Paired.{image_of};
ghost use Rattle.ecc_flash.specs.Cut.{CutInside};
ghost use Rattle.flash_model.specs.Image.{page_count};
ghost use Rattle.flash_model.specs.FlashOperation.{FlashOperation, programs, erases};
ghost use Rattle.flash_model.specs.Operations.{MayProgram, MayErase};

use crate::restartable::RestartableFlash;
use ecc_flash::{CutFlash, EccFlash, PairedFlash};
use flash_model::{NorFlash, PAGE_SLOTS, SLOT_BYTES};

impl<F: EccFlash + Drop> RestartableFlash for PairedFlash<F> {
    type Off = PairedFlash<F>;

    ghost starts = { λ off next. next ≡ off };

    ghost rests = { λ old next. next ≡ old };

    ghost cuts = { λ old operation whole next. CutInside F.units F.operates old.0 operation whole next.0 };

    ghost is_ready = { λ _. Unit {0} };

    fn power_off(self) -> PairedFlash<F> {
        self
    }

    fn program_cut(
        self,
        page: usize,
        slot: usize,
        bytes: [u8; SLOT_BYTES],
        whole: u32,
    ) -> PairedFlash<F> {
        let mut cut = PairedFlash::mount(CutFlash::new(self.into_flash(), whole));
        let _torn = cut.program_slot(page, slot, bytes);
        PairedFlash::mount(cut.into_flash().into_flash())
    }

    fn erase_cut(self, page: usize, whole: u32) -> PairedFlash<F> {
        let _pages = self.pages();
        let mut cut = PairedFlash::mount(CutFlash::new(self.into_flash(), whole));
        let _torn = cut.erase_page(page);
        PairedFlash::mount(cut.into_flash().into_flash())
    }

    fn start(off: PairedFlash<F>) -> Result<PairedFlash<F>, PairedFlash<F>> {
        Ok(off)
    }

    fn start_cut(off: PairedFlash<F>, whole: u32) -> PairedFlash<F> {
        let _whole = whole;
        off
    }
}
