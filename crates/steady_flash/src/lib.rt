//! Flash whose torn cells waver as `NorFlash`: pages that move to a spare one.
//!
//! `MarkedFlash` is the flash, and `SteadyFlash` the adapter. A cell that an operation was torn at may
//! read as set now and as clear later, and an erase may program to 0 before it sets. So a start copies
//! each page that was written to a spare page, as it reads then, and marks say which page counts.
#![tactic(auto)]

ghost use Rattle.std.specs.Prelude.{◌≡◌, false, ◌*◌, ◌<◌, ◌≤◌, ℕ, MatchResult, IsOk};
ghost use Rattle.steady_flash.specs.Cells.{Written, IsReading, TakesSlot, TakesMark, IsProgrammed, MayBeProgrammed, MayBeErased, erased};
ghost use Rattle.steady_flash.specs.Marked.{Size, IsMarkReading, HasCells, Same, OnePlace, OnePageOfPlaces};

pub mod errors;
pub mod layout;
pub mod making;
pub mod marks;
pub mod moving;
pub mod starting;
pub mod steady;
pub mod theorems;
pub mod writing;

pub use errors::{MountError, Unmounted};
use flash_model::{FlashFault, PAGE_SLOTS, SLOT_BYTES};
pub use steady::SteadyFlash;

/// A NOR flash of 3 to 9 pages, each with 512 slots and, in erase units of their own, marks of eight bytes: one, and three for each
/// of its triples. [`SteadyFlash`](crate::SteadyFlash) makes the flash of a log from it, with one page less.
///
/// **What is asked of the hardware.** A cell is set, clear or in doubt; one in doubt may read as either, each time anew.
///
/// - A whole program makes each cell that is to be clear firmly clear. A torn one leaves each of these as it was, clear or in
///   doubt; a cell that was firmly clear stays so. No other cell changes.
/// - A whole erase makes each cell of its units firmly set. A torn one leaves them anything, also in doubt. A mark then reads as what
///   it held or as no word: no word comes from nowhere. No other unit changes.
/// - A mark may be programmed again with the same bits: once in the ordinary course, and once more for each power loss or fault
///   until its step is whole. So may a slot, for each fault. A mark into which zeros were torn may be programmed with other bits.
///   Some chips refuse a second program: look it up. [`check_marks`](crate::check_marks) tries it.
pub trait MarkedFlash {
    /// Each slot, by its page and its place there.
    ghost slots: { Self → ℕ → ℕ → Written };

    /// Each mark, by its page and its place there.
    ghost marks: { Self → ℕ → ℕ → Written };

    /// How many pages there are, and how many triples of marks each has.
    ghost size: { Self → Size };

    /// From here on no operation fails, and no read. Of hardware nothing makes this hold.
    ghost is_healthy: { Self → Type 0 };

    /// Returns how many pages there are, 3 to 9: one more than the log gets.
    fn pages(&self) -> usize
        ensures count { result ≡ (size self.now).pages }
        ensures cells { HasCells (size self.now) (slots self.now) (marks self.now) };

    /// Returns how many triples of marks a page has, 8 to 80. Marks are counted from 0 to three times as many.
    fn triples(&self) -> usize
        ensures { result ≡ (size self.now).triples };

    /// Reads the eight bytes of slot `slot`, 0 to 511, of page `page`.
    fn read_slot(&self, page: usize, slot: usize) -> [u8; SLOT_BYTES]
        requires in_pages { page < (size self.now).pages }
        requires in_page { slot < PAGE_SLOTS }
        ensures { IsReading (slots self.now page slot).cells result };

    /// Reads the eight bytes of mark `mark` of page `page`.
    fn read_mark(&self, page: usize, mark: usize) -> [u8; SLOT_BYTES]
        requires in_pages { page < (size self.now).pages }
        requires in_page { mark ≤ 3 * (size self.now).triples }
        ensures { IsMarkReading (marks self.now page mark) result };

    /// Clears the bits of a slot that are clear in `bytes`. `FlashFault`: the program was torn.
    fn program_slot(
        &mut self,
        page: usize,
        slot: usize,
        bytes: [u8; SLOT_BYTES],
    ) -> Result<(), FlashFault>
        requires in_pages { page < (size self.old).pages }
        requires in_page { slot < PAGE_SLOTS }
        ensures same_size { size self.new ≡ size self.old }
        ensures cells { HasCells (size self.new) (slots self.new) (marks self.new) }
        ensures outcome { TakesSlot (slots self.old page slot) bytes → MatchResult result
            (λ _. IsProgrammed (slots self.old page slot) bytes (slots self.new page slot))
            (λ _. MayBeProgrammed (slots self.old page slot) bytes (slots self.new page slot)) }
        ensures others { OnePlace (slots self.old) page slot (slots self.new) }
        ensures marks { Same (marks self.old) (marks self.new) }
        ensures healthy { is_healthy self.old → IsOk result × is_healthy self.new };

    /// Clears the bits of a mark that are clear in `bytes`. `FlashFault`: the program was torn.
    fn program_mark(
        &mut self,
        page: usize,
        mark: usize,
        bytes: [u8; SLOT_BYTES],
    ) -> Result<(), FlashFault>
        requires in_pages { page < (size self.old).pages }
        requires in_page { mark ≤ 3 * (size self.old).triples }
        ensures same_size { size self.new ≡ size self.old }
        ensures cells { HasCells (size self.new) (slots self.new) (marks self.new) }
        ensures outcome { TakesMark (marks self.old page mark) bytes → MatchResult result
            (λ _. IsProgrammed (marks self.old page mark) bytes (marks self.new page mark))
            (λ _. MayBeProgrammed (marks self.old page mark) bytes (marks self.new page mark)) }
        ensures others { OnePlace (marks self.old) page mark (marks self.new) }
        ensures slots { Same (slots self.old) (slots self.new) }
        ensures healthy { is_healthy self.old → IsOk result × is_healthy self.new };

    /// Sets every bit of the slots of page `page`, and leaves its marks. `FlashFault`: the erase was torn.
    fn erase_slots(&mut self, page: usize) -> Result<(), FlashFault>
        requires { page < (size self.old).pages }
        ensures same_size { size self.new ≡ size self.old }
        ensures cells { HasCells (size self.new) (slots self.new) (marks self.new) }
        ensures outcome { (s : ℕ) → s < PAGE_SLOTS → MatchResult result
            (λ _. slots self.new page s ≡ erased)
            (λ _. MayBeErased (slots self.old page s) (slots self.new page s)) }
        ensures others { OnePageOfPlaces (slots self.old) page (slots self.new) }
        ensures marks { Same (marks self.old) (marks self.new) }
        ensures healthy { is_healthy self.old → IsOk result × is_healthy self.new };

    /// Sets every bit of the marks of page `page`, and leaves its slots. `FlashFault`: the erase was torn.
    fn erase_marks(&mut self, page: usize) -> Result<(), FlashFault>
        requires { page < (size self.old).pages }
        ensures same_size { size self.new ≡ size self.old }
        ensures cells { HasCells (size self.new) (slots self.new) (marks self.new) }
        ensures outcome { (m : ℕ) → m ≤ 3 * (size self.old).triples → MatchResult result
            (λ _. marks self.new page m ≡ erased)
            (λ _. MayBeErased (marks self.old page m) (marks self.new page m)) }
        ensures others { OnePageOfPlaces (marks self.old) page (marks self.new) }
        ensures slots { Same (slots self.old) (slots self.new) }
        ensures healthy { is_healthy self.old → IsOk result × is_healthy self.new };

    /// Returns whether a read failed, so that what was read may be wrong. Nothing is written then.
    fn is_unreadable(&self) -> bool
        ensures { is_healthy self.now → result ≡ false };

    /// Resets the chip ([`FlashDriver::give_up`](crate::FlashDriver::give_up)).
    fn give_up(&mut self)
        ensures same_size { size self.new ≡ size self.old }
        ensures cells { HasCells (size self.new) (slots self.new) (marks self.new) }
        ensures slots { Same (slots self.old) (slots self.new) }
        ensures marks { Same (marks self.old) (marks self.new) };
}
