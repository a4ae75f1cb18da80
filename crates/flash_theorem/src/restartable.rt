//! A flash that the power may be lost in.

ghost use Rattle.std.specs.Prelude.{◌≡◌, ◌<◌, ℕ, List, IsOk, MatchResult};
ghost use Rattle.flash_model.specs.Image.{page_count};
ghost use Rattle.flash_model.specs.FlashOperation.{FlashOperation, programs, erases};
ghost use Rattle.flash_model.specs.Operations.{MayProgram, MayErase};

use flash_model::{NorFlash, PAGE_SLOTS, SLOT_BYTES};

/// A flash that the power may be lost in at any moment, and that a start finds again.
pub trait RestartableFlash: NorFlash + Drop {
    /// The flash without power.
    type Off: Drop;

    /// Starts, of which the last one goes through and in each before the power is lost, may make the
    /// second of the first.
    ghost starts: { Self.Off → Self → Type 0 };

    /// A power loss between two operations, and such starts, make the second of the first.
    ghost rests: { Self → Self → Type 0 };

    /// So does one inside this operation, behind so many whole operations of the flash below.
    ghost cuts: { Self → FlashOperation → ℕ → Self → Type 0 };

    /// A start on it goes through.
    ghost is_ready: { Self.Off → Type 0 };

    /// The power is lost between two operations.
    fn power_off(self) -> Self::Off
        ensures image { (next : Self) → starts result next → Self.image next ≡ Self.image self }
        ensures rests { (next : Self) → starts result next → rests self next };

    /// The power is lost inside a program of a slot, or directly before or behind it.
    fn program_cut(self, page: usize, slot: usize, bytes: [u8; SLOT_BYTES], whole: u32) -> Self::Off
        requires in_pages { page < page_count (Self.image self) }
        requires in_page { slot < PAGE_SLOTS }
        ensures outcome { (next : Self) → starts result next → MayProgram (Self.image self) page slot bytes (Self.image next) }
        ensures cuts { (next : Self) → starts result next → cuts self (programs page slot bytes) whole next };

    /// The power is lost inside an erase of a page, or directly before or behind it.
    fn erase_cut(self, page: usize, whole: u32) -> Self::Off
        requires { page < page_count (Self.image self) }
        ensures outcome { (next : Self) → starts result next → MayErase (Self.image self) page (Self.image next) }
        ensures cuts { (next : Self) → starts result next → cuts self (erases page) whole next };

    /// A start. It may write, and it may be refused; then it was none.
    fn start(off: Self::Off) -> Result<Self, Self::Off>
        ensures starts { MatchResult result (λ flash. starts off flash) (λ left. (next : Self) → starts left next → starts off next) }
        ensures ready { is_ready off → IsOk result };

    /// A start that the power is lost in, behind so many whole operations of the flash below: it was none.
    fn start_cut(off: Self::Off, whole: u32) -> Self::Off
        ensures { (next : Self) → starts result next → starts off next };
}
