//! Theorems of the definitions: what a torn operation can leave.
//!
//! No code runs here. Each theorem is a clause about the definitions that the contracts of `NorFlash`
//! and `SimFlash` cite.

ghost use Rattle.std.specs.Prelude.{◌≡◌, ◌<◌, ◌↔◌, ℕ, List};
ghost use Rattle.flash_model.specs.declared.TheConstants.{PAGE_SLOTS};
ghost use Rattle.flash_model.specs.Image.{page_count, IsImage};
ghost use Rattle.flash_model.specs.ByMask.{IsMask, ProgramsByMask, ErasesByMask};
ghost use Rattle.flash_model.specs.Operations.{Programs, MayProgram, Erases, MayErase};

/// What a torn operation may leave is exactly what some mask leaves. So a fault of any flash is one
/// that `SimFlash::fault_next` can make.
pub fn torn_is_by_mask()
    ensures programs { (old new : List ℕ) (page slot : ℕ) (programmed : List ℕ) → IsImage old → IsImage new → page < page_count old → slot < PAGE_SLOTS
        → MayProgram old page slot programmed new ↔ ((mask : List ℕ) × (IsMask mask × ProgramsByMask old page slot programmed mask new)) }
    ensures erases { (old new : List ℕ) (page : ℕ) → IsImage old → IsImage new → page < page_count old
        → MayErase old page new ↔ ((mask : List ℕ) × (IsMask mask × ErasesByMask old page mask new)) }
{}

/// A mask has at most one outcome.
pub fn mask_has_one_outcome()
    ensures programs { (old new other : List ℕ) (page slot : ℕ) (programmed mask : List ℕ) → ProgramsByMask old page slot programmed mask new → ProgramsByMask old page slot programmed mask other → other ≡ new }
    ensures erases { (old new other : List ℕ) (page : ℕ) (mask : List ℕ) → ErasesByMask old page mask new → ErasesByMask old page mask other → other ≡ new }
{}

/// The whole operation and none at all are among the torn outcomes.
pub fn torn_may_be_whole_or_nothing()
    ensures whole_program { (old new : List ℕ) (page slot : ℕ) (programmed : List ℕ) → Programs old page slot programmed new → MayProgram old page slot programmed new }
    ensures no_program { (old : List ℕ) (page slot : ℕ) (programmed : List ℕ) → MayProgram old page slot programmed old }
    ensures whole_erase { (old new : List ℕ) (page : ℕ) → IsImage old → Erases old page new → MayErase old page new }
    ensures no_erase { (old : List ℕ) (page : ℕ) → MayErase old page old }
{}
