//! How a page moves: to the spare page, or to a greater number.

ghost use Rattle.std.specs.Prelude.{◌≡◌, ◌+◌, ◌*◌, ◌<◌, ◌≤◌, ◌^◌, ℕ, MatchResult, IfOk, IfErr, IsOk};
ghost use Rattle.steady_flash.specs.Healthy.{IsRefused};
ghost use Rattle.steady_flash.specs.Claims.{IsSameOpen, HasRoom, IsRaised, IsMarked, IsErasedMarks, IsClaim, IsClaimed};
ghost use Rattle.steady_flash.specs.Marked.{Same, OnePlace, OnePageOfPlaces};
ghost use Rattle.flash_model.specs.Torn.{Within};
ghost use Rattle.steady_flash.specs.Cells.{blank, erased};
ghost use Rattle.steady_flash.specs.Moves.{Holds, IsTorn, IsCopied, IsErasedPage, IsCopy, moved};
ghost use Rattle.shapes.specs.Shapes.{Bytes};
ghost use Rattle.steady_flash.specs.Sound.{Standing, IsSound, IsAbout, IsFoundBy, IsSameClaim, IsLeft, IsFirmed, IsBumped, IsCalm, IsStopped, IsNoNewer};
ghost use Rattle.steady_flash.specs.Layout.{held_at, IsPlaced, IsLaidOut};

use crate::layout::{Held, Layout};
use crate::marks::{BLANK, LAST_NUMBER, OPEN, ZEROS, about, claim, claim_bytes, done, done_bytes};
use crate::{MarkedFlash, MountError};
use flash_model::{FlashFault, PAGE_SLOTS, SLOT_BYTES};

/// How often in a row an operation is tried.
pub const TRIES: usize = 8;

/// The last number of a page that is written: those behind it are left to starts, so that none of them is refused.
pub const LAST_WRITTEN: u32 = LAST_NUMBER - 1024;

/// Why a step of a move ends.
#[derive(Clone, Copy, Debug)]
pub enum Stop {
    /// The flash failed, and which pages count is as before.
    Fault,
    /// The flash failed, and another page may count.
    InDoubt,
    /// What a start is refused for.
    Named(MountError),
}

/// A slot that is given other bytes than it reads as.
#[derive(Clone, Copy, Debug)]
pub struct Changed {
    pub slot: usize,
    pub bytes: [u8; SLOT_BYTES],
}

/// Programs a mark with the same bits until it is whole.
pub fn program_mark<F: MarkedFlash>(
    flash: &mut F,
    at: usize,
    mark: usize,
    bytes: [u8; SLOT_BYTES],
) -> Result<(), Stop>
    requires in_pages { at < (F.size flash.old).pages }
    requires in_page { mark ≤ 3 * (F.size flash.old).triples }
    ensures fault { IfErr result (λ stop. stop ≡ Stop.Fault) }
    ensures same_size { F.size flash.new ≡ F.size flash.old }
    ensures slots { Same (F.slots flash.old) (F.slots flash.new) }
    ensures healthy { F.is_healthy flash.old → IsOk result × F.is_healthy flash.new }
    ensures marks { OnePlace (F.marks flash.old) at mark (F.marks flash.new) }
    ensures outcome { IsTorn bytes (F.marks flash.old at mark) → (bytes ≡ blank → ⊥) → MatchResult result
        (λ _. IsMarked bytes (F.marks flash.new at mark))
        (λ _. IsTorn bytes (F.marks flash.new at mark)) }
    // what was whole stays so, and what was clear
    ensures whole { IsMarked bytes (F.marks flash.old at mark) → (bytes ≡ blank → ⊥) → IsMarked bytes (F.marks flash.new at mark) }
    ensures clear { IsTorn bytes (F.marks flash.old at mark) → (bytes ≡ blank → ⊥) → Within blank (F.marks flash.new at mark).cells.most → Within blank (F.marks flash.old at mark).cells.most }
{
    for _tried in 0..TRIES {
        match flash.program_mark(at, mark, bytes) {
            Ok(()) => return Ok(()),
            Err(_) => {}
        }
    }
    Err(Stop::Fault)
}

/// Programs a slot with the same bits until it is whole.
pub fn program_slot<F: MarkedFlash>(
    flash: &mut F,
    at: usize,
    slot: usize,
    bytes: [u8; SLOT_BYTES],
) -> Result<(), Stop>
    requires in_pages { at < (F.size flash.old).pages }
    requires in_page { slot < PAGE_SLOTS }
    ensures fault { IfErr result (λ stop. stop ≡ Stop.Fault) }
    ensures same_size { F.size flash.new ≡ F.size flash.old }
    ensures others { OnePlace (F.slots flash.old) at slot (F.slots flash.new) }
    ensures outcome { F.slots flash.old at slot ≡ erased → (bytes ≡ blank → ⊥) → MatchResult result
        (λ _. Holds (F.slots flash.new at slot) bytes)
        (λ _. IsTorn bytes (F.slots flash.new at slot)) }
    ensures healthy { F.is_healthy flash.old → IsOk result × F.is_healthy flash.new }
    ensures marks { Same (F.marks flash.old) (F.marks flash.new) }
{
    for _tried in 0..TRIES {
        match flash.program_slot(at, slot, bytes) {
            Ok(()) => return Ok(()),
            Err(_) => {}
        }
    }
    Err(Stop::Fault)
}

/// Erases the marks of a page until they are whole.
pub fn erase_marks<F: MarkedFlash>(flash: &mut F, at: usize) -> Result<(), Stop>
    requires { at < (F.size flash.old).pages }
    ensures fault { IfErr result (λ stop. stop ≡ Stop.Fault) }
    ensures same_size { F.size flash.new ≡ F.size flash.old }
    ensures slots { Same (F.slots flash.old) (F.slots flash.new) }
    ensures healthy { F.is_healthy flash.old → IsOk result × F.is_healthy flash.new }
    ensures marks { OnePageOfPlaces (F.marks flash.old) at (F.marks flash.new) }
    ensures outcome { IfOk result (λ _. IsErasedMarks (F.marks flash.new) (F.size flash.old).triples at) }
    ensures no_newer { (m : ℕ) → m ≤ 3 * (F.size flash.old).triples → IsNoNewer (F.marks flash.old at m) (F.marks flash.new at m) }
{
    for _tried in 0..TRIES {
        match flash.erase_marks(at) {
            Ok(()) => return Ok(()),
            Err(_) => {}
        }
    }
    Err(Stop::Fault)
}

/// Erases the slots of a page until they are whole.
pub fn erase_slots<F: MarkedFlash>(flash: &mut F, at: usize) -> Result<(), Stop>
    requires { at < (F.size flash.old).pages }
    ensures fault { IfErr result (λ stop. stop ≡ Stop.Fault) }
    ensures same_size { F.size flash.new ≡ F.size flash.old }
    ensures others { OnePageOfPlaces (F.slots flash.old) at (F.slots flash.new) }
    ensures outcome { IfOk result (λ _. IsErasedPage (F.slots flash.new) at) }
    ensures healthy { F.is_healthy flash.old → IsOk result × F.is_healthy flash.new }
    ensures marks { Same (F.marks flash.old) (F.marks flash.new) }
{
    for _tried in 0..TRIES {
        match flash.erase_slots(at) {
            Ok(()) => return Ok(()),
            Err(_) => {}
        }
    }
    Err(Stop::Fault)
}

/// Erases the spare page, whatever it reads as.
pub fn prepare<F: MarkedFlash>(flash: &mut F, layout: &Layout) -> Result<(), Stop>
    requires { IsPlaced (F.size flash.old) layout.now }
    ensures fault { IfErr result (λ stop. stop ≡ Stop.Fault) }
    ensures same_size { F.size flash.new ≡ F.size flash.old }
    ensures others { OnePageOfPlaces (F.slots flash.old) layout.now.spare (F.slots flash.new) }
    ensures outcome { IfOk result (λ _. IsErasedPage (F.slots flash.new) layout.now.spare) }
    ensures healthy { F.is_healthy flash.old → IsOk result × F.is_healthy flash.new }
    ensures marks { OnePageOfPlaces (F.marks flash.old) layout.now.spare (F.marks flash.new) }
    ensures erased_marks { IfOk result (λ _. IsErasedMarks (F.marks flash.new) (F.size flash.old).triples layout.now.spare) }
    ensures calm { IsCalm (F.size flash.old) (F.marks flash.old) layout.now → IsCalm (F.size flash.old) (F.marks flash.new) layout.now }
{
    erase_marks(flash, layout.spare)?;
    erase_slots(flash, layout.spare)
}

/// Copies the slots of a page to the spare one, each as it reads once, but for the changed one.
fn copy<F: MarkedFlash>(
    flash: &mut F,
    from: usize,
    to: usize,
    changed: Option<Changed>,
) -> Result<(), Stop>
    requires from_in_pages { from < (F.size flash.old).pages }
    requires to_in_pages { to < (F.size flash.old).pages }
    ensures fault { IfErr result (λ stop. stop ≡ Stop.Fault) }
    ensures same_size { F.size flash.new ≡ F.size flash.old }
    ensures others { OnePageOfPlaces (F.slots flash.old) to (F.slots flash.new) }
    ensures outcome { (from ≡ to → ⊥) → IsErasedPage (F.slots flash.old) to → IfOk result (λ _. IsCopy (F.slots flash.old) from changed (F.slots flash.new) to) }
    ensures healthy { F.is_healthy flash.old → IsOk result × F.is_healthy flash.new }
    ensures marks { Same (F.marks flash.old) (F.marks flash.new) }
{
    for slot in 0..PAGE_SLOTS {
        let bytes = copied(flash, from, slot, changed);
        if bytes != BLANK {
            program_slot(flash, to, slot, bytes)?;
        }
    }
    Ok(())
}

/// What a copied slot is programmed with.
fn copied<F: MarkedFlash>(
    flash: &F,
    from: usize,
    slot: usize,
    changed: Option<Changed>,
) -> [u8; SLOT_BYTES]
    requires in_pages { from < (F.size flash.now).pages }
    requires in_page { slot < PAGE_SLOTS }
    ensures { IsCopied changed slot (F.slots flash.now from slot) result }
{
    match changed {
        Some(change) if change.slot == slot => change.bytes,
        _ => flash.read_slot(from, slot),
    }
}

/// Claims the spare page for a page of the log, with the next number. Behind a fault a start may find the claim, or not.
fn claim_spare<F: MarkedFlash>(
    flash: &mut F,
    layout: &Layout,
    page: usize,
    number: u32,
) -> Result<(), Stop>
    requires laid_out { IsLaidOut (F.size flash.old) layout.now }
    requires in_pages { page < layout.now.pages }
    requires small { number < 2 ^ 21 }
    ensures same_size { F.size flash.new ≡ F.size flash.old }
    ensures slots { Same (F.slots flash.old) (F.slots flash.new) }
    ensures in_doubt { IfErr result (λ stop. stop ≡ Stop.InDoubt) }
    ensures healthy { F.is_healthy flash.old → IsOk result × F.is_healthy flash.new }
    ensures marks { OnePlace (F.marks flash.old) layout.now.spare 1 (F.marks flash.new) }
    ensures outcome { (bytes : Bytes) × IsClaim layout.now.pages layout.now.spare page number bytes × (IsTorn bytes (F.marks flash.old layout.now.spare 1) → MatchResult result
        (λ _. IsMarked bytes (F.marks flash.new layout.now.spare 1))
        (λ _. IsTorn bytes (F.marks flash.new layout.now.spare 1))) }
{
    let to = layout.spare;
    match program_mark(
        flash,
        to,
        claim(0),
        claim_bytes(layout.place(to), page, number),
    ) {
        Ok(()) => Ok(()),
        Err(_) => Err(Stop::InDoubt),
    }
}

/// From the moment at which its claim is whole the spare page counts, and the one that did is spare.
pub fn switch<F: MarkedFlash>(flash: &mut F, layout: &mut Layout, page: usize) -> Result<(), Stop>
    requires laid_out { IsLaidOut (F.size flash.old) layout.old }
    requires in_pages { page < layout.old.pages }
    ensures same_size { F.size flash.new ≡ F.size flash.old }
    ensures laid_out { IsLaidOut (F.size flash.old) layout.new }
    ensures same_pages { layout.new.pages ≡ layout.old.pages }
    ensures slots { Same (F.slots flash.old) (F.slots flash.new) }
    ensures moved { MatchResult result (λ _. layout.new ≡ moved layout.old page) (λ _. layout.new ≡ layout.old) }
    ensures healthy { F.is_healthy flash.old → F.is_healthy flash.new × IfErr result IsRefused × ((held_at layout.old.held page).number + 1 < 2 ^ 21 → IsOk result) }
    ensures opened { IsSameOpen (F.marks flash.old) (F.marks flash.new) }
    ensures calm { IsCalm (F.size flash.old) (F.marks flash.old) layout.old → IsErasedMarks (F.marks flash.old) (F.size flash.old).triples layout.old.spare → MatchResult result
        (λ _. IsCalm (F.size flash.old) (F.marks flash.new) layout.new)
        (λ stop. IsStopped (F.size flash.old) (F.marks flash.new) layout.old page stop) }
    ensures claimed { IsClaimed (F.size flash.old) (F.marks flash.old) layout.old → IsErasedMarks (F.marks flash.old) (F.size flash.old).triples layout.old.spare → IfOk result (λ _. IsClaimed (F.size flash.old) (F.marks flash.new) layout.new) }
{
    let old = layout.held[page];
    let to = layout.spare;
    if old.number + 1 > LAST_NUMBER {
        return Err(Stop::Named(MountError::Worn));
    }
    program_mark(flash, old.page as usize, about(old.index as u16), ZEROS)?;
    claim_spare(flash, layout, page, old.number + 1)?;
    layout.held[page] = Held {
        page: to as u8,
        index: 0,
        number: old.number + 1,
        is_opened: false,
    };
    layout.spare = old.page as usize;
    // A fault here is none: the next start bumps.
    let _done = flash.program_mark(to, done(0), done_bytes(layout.place(to)));
    Ok(())
}

/// Moves a page to the spare one, each slot as it reads once, but for the changed one.
pub fn move_page<F: MarkedFlash>(
    flash: &mut F,
    layout: &mut Layout,
    page: usize,
    changed: Option<Changed>,
) -> Result<(), Stop>
    requires laid_out { IsLaidOut (F.size flash.old) layout.old }
    requires in_pages { page < layout.old.pages }
    ensures same_size { F.size flash.new ≡ F.size flash.old }
    ensures laid_out { IsLaidOut (F.size flash.old) layout.new }
    ensures same_pages { layout.new.pages ≡ layout.old.pages }
    ensures others { OnePageOfPlaces (F.slots flash.old) layout.old.spare (F.slots flash.new) }
    ensures moved { MatchResult result (λ _. layout.new ≡ moved layout.old page) (λ _. layout.new ≡ layout.old) }
    ensures copied { MatchResult result
        (λ _. IsCopy (F.slots flash.old) (held_at layout.old.held page).page changed (F.slots flash.new) layout.old.spare)
        (λ stop. stop ≡ Stop.InDoubt → IsCopy (F.slots flash.old) (held_at layout.old.held page).page changed (F.slots flash.new) layout.old.spare) }
    ensures healthy { F.is_healthy flash.old → F.is_healthy flash.new × IfErr result IsRefused × ((held_at layout.old.held page).number + 1 < 2 ^ 21 → IsOk result) }
    ensures opened { (q : ℕ) → (q ≡ layout.old.spare → ⊥) → F.marks flash.new q 0 ≡ F.marks flash.old q 0 }
    ensures calm { IsCalm (F.size flash.old) (F.marks flash.old) layout.old → MatchResult result
        (λ _. IsCalm (F.size flash.old) (F.marks flash.new) layout.new)
        (λ stop. IsStopped (F.size flash.old) (F.marks flash.new) layout.old page stop) }
    ensures claimed { IsClaimed (F.size flash.old) (F.marks flash.old) layout.old → IfOk result (λ _. IsClaimed (F.size flash.old) (F.marks flash.new) layout.new) }
{
    prepare(flash, layout)?;
    copy(
        flash,
        layout.held[page].page as usize,
        layout.spare,
        changed,
    )?;
    switch(flash, layout, page)
}

/// Moves an erased page to the spare one.
pub fn erase_page<F: MarkedFlash>(
    flash: &mut F,
    layout: &mut Layout,
    page: usize,
) -> Result<(), Stop>
    requires laid_out { IsLaidOut (F.size flash.old) layout.old }
    requires in_pages { page < layout.old.pages }
    ensures same_size { F.size flash.new ≡ F.size flash.old }
    ensures laid_out { IsLaidOut (F.size flash.old) layout.new }
    ensures same_pages { layout.new.pages ≡ layout.old.pages }
    ensures others { OnePageOfPlaces (F.slots flash.old) layout.old.spare (F.slots flash.new) }
    ensures moved { MatchResult result (λ _. layout.new ≡ moved layout.old page) (λ _. layout.new ≡ layout.old) }
    ensures erased { MatchResult result (λ _. IsErasedPage (F.slots flash.new) layout.old.spare) (λ stop. stop ≡ Stop.InDoubt → IsErasedPage (F.slots flash.new) layout.old.spare) }
    ensures healthy { F.is_healthy flash.old → F.is_healthy flash.new × IfErr result IsRefused × ((held_at layout.old.held page).number + 1 < 2 ^ 21 → IsOk result) }
    ensures opened { (q : ℕ) → (q ≡ layout.old.spare → ⊥) → F.marks flash.new q 0 ≡ F.marks flash.old q 0 }
    ensures calm { IsCalm (F.size flash.old) (F.marks flash.old) layout.old → MatchResult result
        (λ _. IsCalm (F.size flash.old) (F.marks flash.new) layout.new)
        (λ stop. IsStopped (F.size flash.old) (F.marks flash.new) layout.old page stop) }
    ensures claimed { IsClaimed (F.size flash.old) (F.marks flash.old) layout.old → IfOk result (λ _. IsClaimed (F.size flash.old) (F.marks flash.new) layout.new) }
{
    prepare(flash, layout)?;
    switch(flash, layout, page)
}

/// The page that counts claims a number above each that another one may have begun to claim.
pub fn bump<F: MarkedFlash>(flash: &mut F, layout: &mut Layout, page: usize) -> Result<(), Stop>
    requires laid_out { IsLaidOut (F.size flash.old) layout.old }
    requires in_pages { page < layout.old.pages }
    ensures same_size { F.size flash.new ≡ F.size flash.old }
    ensures laid_out { IsLaidOut (F.size flash.old) layout.new }
    ensures same_pages { layout.new.pages ≡ layout.old.pages }
    ensures slots { Same (F.slots flash.old) (F.slots flash.new) }
    ensures healthy { F.is_healthy flash.old → F.is_healthy flash.new × IfErr result IsRefused }
    ensures opened { IsSameOpen (F.marks flash.old) (F.marks flash.new) }
    ensures same_places { (p : ℕ) → (held_at layout.new.held p).page ≡ (held_at layout.old.held p).page }
    ensures complete { F.is_healthy flash.old → HasRoom (F.size flash.old).triples (held_at layout.old.held page) → IsOk result }
    ensures numbers { (p : ℕ) → IsRaised (held_at layout.old.held p) (held_at layout.new.held p) (p ≡ page) }
    ensures sound { (before : Standing) → IsSound (F.size flash.old) (F.marks flash.old) before → before.layout.pages ≡ layout.old.pages → IsFoundBy (F.marks flash.old) before page (held_at layout.old.held page) → MatchResult result
        (λ _. IsBumped (F.size flash.old) (F.marks flash.old) before page (F.marks flash.new) (held_at layout.new.held page))
        (λ _. IsLeft (F.size flash.old) (F.marks flash.old) before page (F.marks flash.new)) }
{
    let held = layout.held[page];
    if held.index as usize + 1 >= flash.triples() {
        return Err(Stop::Named(MountError::OutOfMarks));
    }
    if held.number + 2 > LAST_NUMBER {
        return Err(Stop::Named(MountError::Worn));
    }
    make_firm(flash, layout, page)?;
    outbid(flash, layout, page)
}

/// The claim that a page was found by is firm from here on, whatever it was, and the mark before a greater one is whole.
fn make_firm<F: MarkedFlash>(flash: &mut F, layout: &Layout, page: usize) -> Result<(), Stop>
    requires laid_out { IsLaidOut (F.size flash.old) layout.now }
    requires in_pages { page < layout.now.pages }
    ensures same_size { F.size flash.new ≡ F.size flash.old }
    ensures slots { Same (F.slots flash.old) (F.slots flash.new) }
    ensures healthy { F.is_healthy flash.old → IsOk result × F.is_healthy flash.new }
    ensures opened { IsSameOpen (F.marks flash.old) (F.marks flash.new) }
    ensures sound { (before : Standing) → IsSound (F.size flash.old) (F.marks flash.old) before → before.layout.pages ≡ layout.now.pages → IsFoundBy (F.marks flash.old) before page (held_at layout.now.held page) → MatchResult result
        (λ _. IsFirmed (F.size flash.old) (F.marks flash.old) before page (F.marks flash.new) (held_at layout.now.held page))
        (λ _. IsLeft (F.size flash.old) (F.marks flash.old) before page (F.marks flash.new)) }
{
    let held = layout.held[page];
    let at = held.page as usize;
    program_mark(flash, at, about(held.index as u16), ZEROS)?;
    program_mark(
        flash,
        at,
        claim(held.index as u16),
        claim_bytes(layout.place(at), page, held.number),
    )
}

/// The page claims the number after the next one.
fn outbid<F: MarkedFlash>(flash: &mut F, layout: &mut Layout, page: usize) -> Result<(), Stop>
    requires laid_out { IsLaidOut (F.size flash.old) layout.old }
    requires in_pages { page < layout.old.pages }
    requires room { (held_at layout.old.held page).index + 1 < (F.size flash.old).triples }
    requires small { (held_at layout.old.held page).number + 2 < 2 ^ 21 }
    ensures same_size { F.size flash.new ≡ F.size flash.old }
    ensures laid_out { IsLaidOut (F.size flash.old) layout.new }
    ensures same_pages { layout.new.pages ≡ layout.old.pages }
    ensures slots { Same (F.slots flash.old) (F.slots flash.new) }
    ensures healthy { F.is_healthy flash.old → IsOk result × F.is_healthy flash.new }
    ensures opened { IsSameOpen (F.marks flash.old) (F.marks flash.new) }
    ensures same_places { (p : ℕ) → (held_at layout.new.held p).page ≡ (held_at layout.old.held p).page }
    ensures numbers { (p : ℕ) → IsRaised (held_at layout.old.held p) (held_at layout.new.held p) (p ≡ page) }
    ensures sound { (before : Standing) → IsSound (F.size flash.old) (F.marks flash.old) before → before.layout.pages ≡ layout.old.pages → IsSameClaim (held_at layout.old.held page) (held_at before.layout.held page) → IsAbout (F.marks flash.old) (held_at before.layout.held page) → MatchResult result
        (λ _. IsBumped (F.size flash.old) (F.marks flash.old) before page (F.marks flash.new) (held_at layout.new.held page))
        (λ _. IsLeft (F.size flash.old) (F.marks flash.old) before page (F.marks flash.new)) }
{
    let held = layout.held[page];
    let at = held.page as usize;
    let next = Held {
        page: held.page,
        index: held.index + 1,
        number: held.number + 2,
        is_opened: false,
    };
    program_mark(
        flash,
        at,
        claim(next.index as u16),
        claim_bytes(layout.place(at), page, next.number),
    )?;
    layout.held[page] = next;
    program_mark(
        flash,
        at,
        done(next.index as u16),
        done_bytes(layout.place(at)),
    )
}
