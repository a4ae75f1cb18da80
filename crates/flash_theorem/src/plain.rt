//! Plain flash, in memory: what was armed tears the operation that the power is lost in.

ghost use Rattle.std.specs.Prelude.{◌≡◌, ◌<◌, ℕ, List, IsOk, MatchResult};
ghost use Rattle.flash_model.specs.Image.{page_count};
ghost use Rattle.flash_model.specs.FlashOperation.{FlashOperation, programs, erases};
ghost use Rattle.flash_model.specs.Operated.{IsOperated};
ghost use Rattle.flash_model.specs.Operations.{MayProgram, MayErase};

use crate::restartable::RestartableFlash;
use flash_model::{NorFlash, PAGE_SLOTS, SLOT_BYTES, SimFlash};

impl RestartableFlash for SimFlash {
    type Off = SimFlash;

    ghost starts = { λ off next. next ≡ off };

    ghost rests = { λ old next. next ≡ old };

    ghost cuts = { λ old operation whole next. IsOperated old operation next };

    ghost is_ready = { λ _. Unit {0} };

    fn power_off(self) -> SimFlash {
        self
    }

    fn program_cut(
        self,
        page: usize,
        slot: usize,
        bytes: [u8; SLOT_BYTES],
        whole: u32,
    ) -> SimFlash {
        let _whole = whole;
        let mut flash = self;
        let _torn = flash.program_slot(page, slot, bytes);
        flash
    }

    fn erase_cut(self, page: usize, whole: u32) -> SimFlash {
        let _whole = whole;
        let mut flash = self;
        let _pages = flash.pages();
        let _torn = flash.erase_page(page);
        flash
    }

    fn start(off: SimFlash) -> Result<SimFlash, SimFlash> {
        Ok(off)
    }

    fn start_cut(off: SimFlash, whole: u32) -> SimFlash {
        let _whole = whole;
        off
    }
}
