//! How a slot of the log is programmed: where it stands, or by a move of its page.

ghost use Rattle.std.specs.Prelude.{◌≡◌, ◌+◌, ◌<◌, ◌≤◌, ◌^◌, ℕ, None, Some, IfOk, IfErr, IsOk, MatchResult, slice_index, bit_and};
ghost use Rattle.shapes.specs.Shapes.{Bytes};
ghost use Rattle.flash_model.specs.Operations.{Programs, MayProgram};
ghost use Rattle.steady_flash.specs.Cells.{IsEight, blank};
ghost use Rattle.steady_flash.specs.Marked.{Same, OnePageOfPlaces};
ghost use Rattle.steady_flash.specs.Layout.{held_at, IsLaidOut};
ghost use Rattle.steady_flash.specs.Moves.{IsTorn, IsCopy};
ghost use Rattle.steady_flash.specs.Shown.{shown, image_of, image_as, IsSettled, IsSettledBeside, IsSettledBut, IsKept, IsChanged, IsTornInto, IsDoubted};
ghost use Rattle.steady_flash.specs.Faults.{Leaves, LeavesEither};
ghost use Rattle.steady_flash.specs.Claims.{IsClaimed, IsNoGreater};
ghost use Rattle.steady_flash.specs.Sound.{IsSound, IsCalm, IsEnded, IsShrunk, IsCut, IsOpen, steady_at, moving_at};

use crate::MarkedFlash;
use crate::layout::{Doubt, Layout};
use crate::marks::{BLANK, OPEN, ZEROS};
use crate::moving::{Changed, LAST_WRITTEN, Stop, TRIES, move_page, program_mark, program_slot};
use flash_model::{PAGE_SLOTS, SLOT_BYTES};

/// What a program that failed leaves.
#[derive(Clone, Copy, Debug)]
pub enum Failed {
    /// A slot that reads as torn, with no cell in doubt.
    Torn,
    /// Each slot as it was; another page may count, so the flash was given up.
    Lost,
    /// A slot in doubt, so the flash was given up.
    InDoubt,
}

/// Clears the bits of a slot that are clear in `bytes`.
fn program<F: MarkedFlash>(
    flash: &mut F,
    layout: &mut Layout,
    page: usize,
    slot: usize,
    bytes: [u8; SLOT_BYTES],
) -> Result<(), Failed>
    requires laid_out { IsLaidOut (F.size flash.old) layout.old }
    requires in_pages { page < layout.old.pages }
    requires in_page { slot < PAGE_SLOTS }
    ensures same_size { F.size flash.new ≡ F.size flash.old }
    ensures laid_out { IsLaidOut (F.size flash.old) layout.new }
    ensures same_pages { layout.new.pages ≡ layout.old.pages }
    ensures numbers { IsNoGreater layout.old layout.new }
    ensures outcome { IsSettled (F.slots flash.old) layout.old → MatchResult result
        (λ _. IsSettled (F.slots flash.new) layout.new × Programs (image_of (F.slots flash.old) layout.old) page slot bytes (image_of (F.slots flash.new) layout.new))
        (λ why. Leaves why (F.slots flash.old) layout.old page slot bytes (F.slots flash.new) layout.new) }
    ensures healthy { F.is_healthy flash.old → (held_at layout.old.held page).number ≤ LAST_WRITTEN → IsOk result × F.is_healthy flash.new }
    ensures cut { IsCalm (F.size flash.old) (F.marks flash.old) layout.old → IsSettled (F.slots flash.old) layout.old
        → IfErr result (λ why. (why ≡ Failed.Torn → ⊥) → IsCut (F.size flash.old) (F.marks flash.new) (F.slots flash.new) layout.old.pages (IsOpen (F.marks flash.new) (held_at layout.old.held page).page) (MayProgram (image_of (F.slots flash.old) layout.old) page slot bytes)) }
    ensures calm { IsCalm (F.size flash.old) (F.marks flash.old) layout.old → MatchResult result
        (λ _. IsCalm (F.size flash.old) (F.marks flash.new) layout.new)
        (λ why. IsEnded (F.size flash.old) (F.marks flash.new) layout.new why) }
    ensures claimed { IsClaimed (F.size flash.old) (F.marks flash.old) layout.old → IfOk result (λ _. IsClaimed (F.size flash.old) (F.marks flash.new) layout.new) }
{
    let held = flash.read_slot(layout.held[page].page as usize, slot);
    let after = both(held, bytes);
    if after == held {
        return Ok(());
    }
    if held != BLANK {
        return change(flash, layout, page, slot, after);
    }
    fill(flash, layout, page, slot, bytes)
}

/// Programs a slot, and keeps which one is in doubt.
pub fn write<F: MarkedFlash>(
    flash: &mut F,
    layout: &mut Layout,
    in_doubt: &mut Option<Doubt>,
    page: usize,
    slot: usize,
    bytes: [u8; SLOT_BYTES],
) -> Result<(), Failed>
    requires laid_out { IsLaidOut (F.size flash.old) layout.old }
    requires in_pages { page < layout.old.pages }
    requires in_page { slot < PAGE_SLOTS }
    ensures same_size { F.size flash.new ≡ F.size flash.old }
    ensures laid_out { IsLaidOut (F.size flash.old) layout.new }
    ensures same_pages { layout.new.pages ≡ layout.old.pages }
    ensures numbers { IsNoGreater layout.old layout.new }
    ensures sound { IfOk result (λ _. in_doubt.new ≡ in_doubt.old) }
    ensures outcome { in_doubt.old ≡ None → IsSettledBeside (F.slots flash.old) layout.old in_doubt.old → IsSettledBeside (F.slots flash.new) layout.new in_doubt.new × MatchResult result
        (λ _. Programs (image_as (F.slots flash.old) layout.old in_doubt.old) page slot bytes (image_as (F.slots flash.new) layout.new in_doubt.new))
        (λ _. MayProgram (image_as (F.slots flash.old) layout.old in_doubt.old) page slot bytes (image_as (F.slots flash.new) layout.new in_doubt.new)) }
    ensures healthy { F.is_healthy flash.old → (held_at layout.old.held page).number ≤ LAST_WRITTEN → IsOk result × F.is_healthy flash.new }
    ensures cut { IsCalm (F.size flash.old) (F.marks flash.old) layout.old → in_doubt.old ≡ None → IsSettledBeside (F.slots flash.old) layout.old in_doubt.old
        → IfErr result (λ why. (why ≡ Failed.Torn → ⊥) → IsCut (F.size flash.old) (F.marks flash.new) (F.slots flash.new) layout.old.pages (IsOpen (F.marks flash.new) (held_at layout.old.held page).page) (MayProgram (image_as (F.slots flash.old) layout.old in_doubt.old) page slot bytes)) }
    ensures no_doubt { IfErr result (λ why. why ≡ Failed.Torn → in_doubt.new ≡ in_doubt.old) }
    ensures calm { IsCalm (F.size flash.old) (F.marks flash.old) layout.old → MatchResult result
        (λ _. IsCalm (F.size flash.old) (F.marks flash.new) layout.new)
        (λ why. IsEnded (F.size flash.old) (F.marks flash.new) layout.new why) }
    ensures claimed { IsClaimed (F.size flash.old) (F.marks flash.old) layout.old → IfOk result (λ _. IsClaimed (F.size flash.old) (F.marks flash.new) layout.new) }
{
    match program(flash, layout, page, slot, bytes) {
        Ok(()) => Ok(()),
        Err(Failed::Torn) => Err(Failed::Torn),
        Err(Failed::Lost) => Err(Failed::Lost),
        Err(Failed::InDoubt) => {
            *in_doubt = Some(Doubt { page, slot });
            Err(Failed::InDoubt)
        }
    }
}

/// Moves a page with other bytes in one slot.
fn change<F: MarkedFlash>(
    flash: &mut F,
    layout: &mut Layout,
    page: usize,
    slot: usize,
    bytes: [u8; SLOT_BYTES],
) -> Result<(), Failed>
    requires laid_out { IsLaidOut (F.size flash.old) layout.old }
    requires in_pages { page < layout.old.pages }
    requires in_page { slot < PAGE_SLOTS }
    ensures same_size { F.size flash.new ≡ F.size flash.old }
    ensures laid_out { IsLaidOut (F.size flash.old) layout.new }
    ensures same_pages { layout.new.pages ≡ layout.old.pages }
    ensures numbers { IsNoGreater layout.old layout.new }
    ensures outcome { IsSettled (F.slots flash.old) layout.old → MatchResult result
        (λ _. IsChanged (F.slots flash.old) layout.old page slot bytes (F.slots flash.new) layout.new)
        (λ why. LeavesEither why (IsKept (F.slots flash.old) layout.old (F.slots flash.new) layout.new) ⊥) }
    ensures healthy { F.is_healthy flash.old → (held_at layout.old.held page).number ≤ LAST_WRITTEN → IsOk result × F.is_healthy flash.new }
    ensures cut { IsCalm (F.size flash.old) (F.marks flash.old) layout.old → IfErr result (λ why. (why ≡ Failed.Torn → ⊥) → IsSound (F.size flash.old) (F.marks flash.new) (moving_at layout.old page)
        × OnePageOfPlaces (F.slots flash.old) layout.old.spare (F.slots flash.new) × IsCopy (F.slots flash.old) (held_at layout.old.held page).page (Some (record { slot = slot; bytes = bytes })) (F.slots flash.new) layout.old.spare) }
    ensures calm { IsCalm (F.size flash.old) (F.marks flash.old) layout.old → MatchResult result
        (λ _. IsCalm (F.size flash.old) (F.marks flash.new) layout.new)
        (λ why. IsEnded (F.size flash.old) (F.marks flash.new) layout.new why) }
    ensures claimed { IsClaimed (F.size flash.old) (F.marks flash.old) layout.old → IfOk result (λ _. IsClaimed (F.size flash.old) (F.marks flash.new) layout.new) }
{
    let change = Changed { slot, bytes };
    match move_page(flash, layout, page, Some(change)) {
        Ok(()) => Ok(()),
        Err(Stop::InDoubt) => {
            flash.give_up();
            Err(Failed::Lost)
        }
        Err(_) => Err(Failed::Torn),
    }
}

/// Programs a slot that is blank where it stands.
fn fill<F: MarkedFlash>(
    flash: &mut F,
    layout: &mut Layout,
    page: usize,
    slot: usize,
    bytes: [u8; SLOT_BYTES],
) -> Result<(), Failed>
    requires laid_out { IsLaidOut (F.size flash.old) layout.old }
    requires in_pages { page < layout.old.pages }
    requires in_page { slot < PAGE_SLOTS }
    requires eight { IsEight bytes }
    ensures same_size { F.size flash.new ≡ F.size flash.old }
    ensures laid_out { IsLaidOut (F.size flash.old) layout.new }
    ensures same_pages { layout.new.pages ≡ layout.old.pages }
    ensures numbers { IsNoGreater layout.old layout.new }
    ensures outcome { IsSettled (F.slots flash.old) layout.old → shown (F.slots flash.old) layout.old page slot ≡ blank → (bytes ≡ blank → ⊥) → MatchResult result
        (λ _. IsChanged (F.slots flash.old) layout.old page slot bytes (F.slots flash.new) layout.new)
        (λ why. LeavesEither why (IsTornInto (F.slots flash.old) layout.old page slot bytes (F.slots flash.new) layout.new) (IsDoubted (F.slots flash.old) layout.old page slot (F.slots flash.new) layout.new)) }
    ensures healthy { F.is_healthy flash.old → IsOk result × F.is_healthy flash.new }
    ensures cut { IsCalm (F.size flash.old) (F.marks flash.old) layout.old → IsSettled (F.slots flash.old) layout.old → shown (F.slots flash.old) layout.old page slot ≡ blank → (bytes ≡ blank → ⊥)
        → IfErr result (λ why. (why ≡ Failed.Torn → ⊥) → IsCut (F.size flash.old) (F.marks flash.new) (F.slots flash.new) layout.old.pages (IsOpen (F.marks flash.new) (held_at layout.old.held page).page) (MayProgram (image_of (F.slots flash.old) layout.old) page slot bytes)) }
    ensures calm { IsCalm (F.size flash.old) (F.marks flash.old) layout.old → MatchResult result
        (λ _. IsCalm (F.size flash.old) (F.marks flash.new) layout.new)
        (λ why. IsEnded (F.size flash.old) (F.marks flash.new) layout.new why) }
    ensures claimed { IsClaimed (F.size flash.old) (F.marks flash.old) layout.old → IfOk result (λ _. IsClaimed (F.size flash.old) (F.marks flash.new) layout.new) }
{
    if open(flash, layout, page).is_err() {
        return Err(Failed::Torn);
    }
    let at = layout.held[page].page as usize;
    match program_slot(flash, at, slot, bytes) {
        Ok(()) => Ok(()),
        Err(_) => Err(settle(flash, layout, page, slot)),
    }
}

/// Says that slots of a page are programmed from here on: its next start settles it.
fn open<F: MarkedFlash>(flash: &mut F, layout: &mut Layout, page: usize) -> Result<(), Stop>
    requires laid_out { IsLaidOut (F.size flash.old) layout.old }
    requires in_pages { page < layout.old.pages }
    ensures same_size { F.size flash.new ≡ F.size flash.old }
    ensures laid_out { IsLaidOut (F.size flash.old) layout.new }
    ensures slots { Same (F.slots flash.old) (F.slots flash.new) }
    ensures same_pages { layout.new.pages ≡ layout.old.pages }
    ensures same_places { (p : ℕ) → (held_at layout.new.held p).page ≡ (held_at layout.old.held p).page }
    ensures numbers { (p : ℕ) → (held_at layout.new.held p).number ≡ (held_at layout.old.held p).number }
    ensures healthy { F.is_healthy flash.old → IsOk result × F.is_healthy flash.new }
    ensures calm { IsCalm (F.size flash.old) (F.marks flash.old) layout.old → IsCalm (F.size flash.old) (F.marks flash.new) layout.new }
    ensures claimed { IsClaimed (F.size flash.old) (F.marks flash.old) layout.old → IsClaimed (F.size flash.old) (F.marks flash.new) layout.new }
{
    if layout.held[page].is_opened {
        return Ok(());
    }
    program_mark(flash, layout.held[page].page as usize, OPEN, ZEROS)?;
    layout.held[page].is_opened = true;
    Ok(())
}

/// Settles a slot that could not be programmed, as it reads once, before the fault is told.
fn settle<F: MarkedFlash>(flash: &mut F, layout: &mut Layout, page: usize, slot: usize) -> Failed
    requires laid_out { IsLaidOut (F.size flash.old) layout.old }
    requires in_pages { page < layout.old.pages }
    requires in_page { slot < PAGE_SLOTS }
    ensures same_size { F.size flash.new ≡ F.size flash.old }
    ensures laid_out { IsLaidOut (F.size flash.old) layout.new }
    ensures same_pages { layout.new.pages ≡ layout.old.pages }
    ensures numbers { IsNoGreater layout.old layout.new }
    ensures outcome { (bytes : Bytes) → IsEight bytes → IsSettledBut (F.slots flash.old) layout.old page slot → IsTorn bytes (F.slots flash.old (held_at layout.old.held page).page slot)
        → LeavesEither result (IsTornInto (F.slots flash.old) layout.old page slot bytes (F.slots flash.new) layout.new) (IsDoubted (F.slots flash.old) layout.old page slot (F.slots flash.new) layout.new) }
    ensures opened { (q : ℕ) → (q ≡ layout.old.spare → ⊥) → F.marks flash.new q 0 ≡ F.marks flash.old q 0 }
    ensures cut { IsCalm (F.size flash.old) (F.marks flash.old) layout.old → (result ≡ Failed.Torn → ⊥) → IsShrunk (F.size flash.old) (steady_at layout.old) (F.marks flash.old) (F.slots flash.old) (F.marks flash.new) (F.slots flash.new) }
    ensures calm { IsCalm (F.size flash.old) (F.marks flash.old) layout.old → IsEnded (F.size flash.old) (F.marks flash.new) layout.new result }
{
    let read = flash.read_slot(layout.held[page].page as usize, slot);
    let change = Changed { slot, bytes: read };
    for _ in 0..TRIES {
        match move_page(flash, layout, page, Some(change)) {
            Ok(()) => return Failed::Torn,
            Err(Stop::Fault) => {}
            Err(_) => {
                flash.give_up();
                return Failed::InDoubt;
            }
        }
    }
    flash.give_up();
    Failed::InDoubt
}

/// The bits that are set in both.
fn both(held: [u8; SLOT_BYTES], bytes: [u8; SLOT_BYTES]) -> [u8; SLOT_BYTES]
    ensures { (k : ℕ) → k < 8 → slice_index result k ≡ bit_and (slice_index held k) (slice_index bytes k) }
{
    let mut after = held;
    for k in 0..SLOT_BYTES {
        after[k] &= bytes[k];
    }
    after
}
