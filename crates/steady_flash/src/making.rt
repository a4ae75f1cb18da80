//! The pages of a flash on which none are found.

ghost use Rattle.std.specs.Prelude.{length, false, ◌≡◌, ◌+◌, ◌-◌, ◌*◌, ◌<◌, ◌≤◌, ◌^◌, ℕ, IfOk, IfErr, IsOk};
ghost use Rattle.steady_flash.specs.Healthy.{IsRefusal, IsRefused};
ghost use Rattle.steady_flash.specs.Cells.{erased};
ghost use Rattle.steady_flash.specs.Marked.{Same, OnePlace, OnePageOfPlaces};
ghost use Rattle.steady_flash.specs.Claims.{IsErasedMarks, IsOpenTold, IsSameOpen};
ghost use Rattle.steady_flash.specs.Layout.{held_at, IsServed, IsPlaced, IsLaidOut};
ghost use Rattle.steady_flash.specs.Shown.{IsSettled};
ghost use Rattle.steady_flash.specs.Told.{IsFoundTold};

use crate::layout::Layout;
use crate::marks::{OPEN, Place, ZEROS, claim, claim_bytes, done, done_bytes, read_word};
use crate::moving::{LAST_WRITTEN, Stop, erase_marks, erase_page, erase_slots, program_mark};
use crate::starting::start;
use crate::{MarkedFlash, MountError};
use flash_model::PAGE_SLOTS;

/// Starts, and where nothing was formatted makes pages of what the slots hold.
pub fn take_over<F: MarkedFlash>(flash: &mut F) -> Result<Layout, MountError>
    ensures same_size { F.size flash.new ≡ F.size flash.old }
    ensures laid_out { IfOk result (λ layout. IsLaidOut (F.size flash.old) layout) }
    ensures healthy { F.is_healthy flash.old → F.is_healthy flash.new × IfErr result IsRefusal }
    ensures settled { IsFoundTold (F.size flash.old) (F.marks flash.old) (F.slots flash.old) ((F.size flash.old).pages - 1) → IfOk result (λ layout. IsSettled (F.slots flash.new) layout) }
{
    match start(flash) {
        Err(MountError::Unformatted) => make(flash, true),
        started => started,
    }
}

/// Erases all pages, whatever they hold, and starts.
pub fn format<F: MarkedFlash>(flash: &mut F) -> Result<Layout, MountError>
    ensures same_size { F.size flash.new ≡ F.size flash.old }
    ensures laid_out { IfOk result (λ layout. IsLaidOut (F.size flash.old) layout) }
    ensures healthy { F.is_healthy flash.old → F.is_healthy flash.new × IfErr result IsRefusal }
    ensures settled { IfOk result (λ layout. IsSettled (F.slots flash.new) layout) }
{
    match start(flash) {
        Ok(layout) => erase_each(flash, layout),
        Err(MountError::PageCount) => Err(MountError::PageCount),
        Err(MountError::Triples) => Err(MountError::Triples),
        Err(MountError::Unreadable) => Err(MountError::Unreadable),
        Err(MountError::Fault) => Err(MountError::Fault),
        Err(_) => make(flash, false),
    }
}

/// Erases each page of the log.
fn erase_each<F: MarkedFlash>(flash: &mut F, layout: Layout) -> Result<Layout, MountError>
    requires { IsLaidOut (F.size flash.old) layout }
    ensures same_size { F.size flash.new ≡ F.size flash.old }
    ensures laid_out { IfOk result (λ layout. IsLaidOut (F.size flash.old) layout) }
    ensures healthy { F.is_healthy flash.old → F.is_healthy flash.new × IfErr result IsRefusal }
    ensures settled { IfOk result (λ layout. IsSettled (F.slots flash.new) layout) }
{
    let mut layout = layout;
    if is_worn(&layout) {
        return Err(MountError::Worn);
    }
    for page in 0..layout.pages {
        match erase_page(flash, &mut layout, page) {
            Ok(()) => {}
            Err(Stop::InDoubt) => {
                flash.give_up();
                return Err(MountError::Fault);
            }
            Err(_) => return Err(MountError::Fault),
        }
    }
    Ok(layout)
}

/// Whether a page has come to the numbers that are left to starts.
fn is_worn(layout: &Layout) -> bool
    requires eight { length layout.now.held ≡ 8 }
    requires most { layout.now.pages ≤ 8 }
    ensures { result ≡ false → (p : ℕ) → p < layout.now.pages → (held_at layout.now.held p).number ≤ LAST_WRITTEN }
{
    for page in 0..layout.pages {
        if layout.held[page].number > LAST_WRITTEN {
            return true;
        }
    }
    false
}

/// Makes the pages anew, where the flash was not found: blank, or with what their slots hold.
fn make<F: MarkedFlash>(flash: &mut F, keeps: bool) -> Result<Layout, MountError>
    requires { IsServed (F.size flash.old) ((F.size flash.old).pages - 1) }
    ensures same_size { F.size flash.new ≡ F.size flash.old }
    ensures laid_out { IfOk result (λ layout. IsLaidOut (F.size flash.old) layout) }
    ensures healthy { F.is_healthy flash.old → F.is_healthy flash.new × IfErr result IsRefusal }
    ensures settled { IfOk result (λ layout. IsSettled (F.slots flash.new) layout) }
{
    match make_pages(flash, keeps) {
        Ok(()) => start(flash),
        Err(_) => Err(MountError::Fault),
    }
}

fn make_pages<F: MarkedFlash>(flash: &mut F, keeps: bool) -> Result<(), Stop>
    requires { IsServed (F.size flash.old) ((F.size flash.old).pages - 1) }
    ensures same_size { F.size flash.new ≡ F.size flash.old }
    ensures healthy { F.is_healthy flash.old → IsOk result × F.is_healthy flash.new }
    ensures told { IfOk result (λ _. IsFoundTold (F.size flash.old) (F.marks flash.new) (F.slots flash.new) ((F.size flash.old).pages - 1)) }
{
    let pages = flash.pages() - 1;
    clear_claims(flash, pages - 1)?;
    erase_all_marks(flash)?;
    begin_pages(flash, pages, keeps)?;
    claim_pages(flash, pages)?;
    finish_pages(flash, pages)
}

/// The claim that an earlier call, which was cut, made last: without it no start finds what the erases tear.
fn clear_claims<F: MarkedFlash>(flash: &mut F, at: usize) -> Result<(), Stop>
    requires in_pages { at < (F.size flash.old).pages }
    requires few { (F.size flash.old).triples < 1000 }
    ensures same_size { F.size flash.new ≡ F.size flash.old }
    ensures healthy { F.is_healthy flash.old → IsOk result × F.is_healthy flash.new }
{
    for index in 0..flash.triples() {
        program_mark(flash, at, claim(index as u16), ZEROS)?;
    }
    Ok(())
}

fn erase_all_marks<F: MarkedFlash>(flash: &mut F) -> Result<(), Stop>
    ensures same_size { F.size flash.new ≡ F.size flash.old }
    ensures healthy { F.is_healthy flash.old → IsOk result × F.is_healthy flash.new }
    ensures erased { IfOk result (λ _. (q : ℕ) → q < (F.size flash.old).pages → IsErasedMarks (F.marks flash.new) (F.size flash.old).triples q) }
{
    for at in 0..flash.pages() {
        erase_marks(flash, at)?;
    }
    Ok(())
}

/// What the slots hold is settled by the start behind, or erased.
fn begin_pages<F: MarkedFlash>(flash: &mut F, pages: usize, keeps: bool) -> Result<(), Stop>
    requires { IsServed (F.size flash.old) pages }
    ensures same_size { F.size flash.new ≡ F.size flash.old }
    ensures healthy { F.is_healthy flash.old → IsOk result × F.is_healthy flash.new }
    ensures told { ((q : ℕ) → q < pages → F.marks flash.old q 0 ≡ erased) → IfOk result (λ _. (q : ℕ) → q < pages → IsOpenTold (F.marks flash.new) (F.slots flash.new) q) }
    ensures others { (q m : ℕ) → (m ≡ 0 → ⊥) → F.marks flash.new q m ≡ F.marks flash.old q m }
{
    for at in 0..pages {
        begin_page(flash, at, keeps)?;
    }
    Ok(())
}

fn begin_page<F: MarkedFlash>(flash: &mut F, at: usize, keeps: bool) -> Result<(), Stop>
    requires { at < (F.size flash.old).pages }
    ensures same_size { F.size flash.new ≡ F.size flash.old }
    ensures healthy { F.is_healthy flash.old → IsOk result × F.is_healthy flash.new }
    ensures told { F.marks flash.old at 0 ≡ erased → IfOk result (λ _. IsOpenTold (F.marks flash.new) (F.slots flash.new) at) }
    ensures marks { OnePlace (F.marks flash.old) at 0 (F.marks flash.new) }
    ensures slots { OnePageOfPlaces (F.slots flash.old) at (F.slots flash.new) }
{
    if keeps {
        program_mark(flash, at, OPEN, ZEROS)
    } else {
        erase_slots(flash, at)
    }
}

fn claim_pages<F: MarkedFlash>(flash: &mut F, pages: usize) -> Result<(), Stop>
    requires { IsServed (F.size flash.old) pages }
    ensures same_size { F.size flash.new ≡ F.size flash.old }
    ensures healthy { F.is_healthy flash.old → IsOk result × F.is_healthy flash.new }
    ensures slots { Same (F.slots flash.old) (F.slots flash.new) }
    ensures opened { IsSameOpen (F.marks flash.old) (F.marks flash.new) }
    ensures others { (q m : ℕ) → pages ≤ q → F.marks flash.new q m ≡ F.marks flash.old q m }
{
    for page in 0..pages {
        program_mark(
            flash,
            page,
            claim(0),
            claim_bytes(Place { pages, at: page }, page, 1),
        )?;
    }
    Ok(())
}

fn finish_pages<F: MarkedFlash>(flash: &mut F, pages: usize) -> Result<(), Stop>
    requires { IsServed (F.size flash.old) pages }
    ensures same_size { F.size flash.new ≡ F.size flash.old }
    ensures healthy { F.is_healthy flash.old → IsOk result × F.is_healthy flash.new }
    ensures slots { Same (F.slots flash.old) (F.slots flash.new) }
    ensures opened { IsSameOpen (F.marks flash.old) (F.marks flash.new) }
    ensures others { (q m : ℕ) → pages ≤ q → F.marks flash.new q m ≡ F.marks flash.old q m }
{
    for page in 0..pages {
        program_mark(flash, page, done(0), done_bytes(Place { pages, at: page }))?;
    }
    Ok(())
}

/// What a flash has of marks: those of another geometry, and those behind a whole claim.
#[derive(Clone, Copy, Debug)]
struct Marks {
    is_other: bool,
    is_done: bool,
}

/// Why not each page is found, by whatever reads as a mark: one of another geometry may stand where this one has a slot.
pub fn why_not_found<F: MarkedFlash>(flash: &F, pages: usize) -> MountError
    requires { IsServed (F.size flash.now) pages }
    ensures healthy { F.is_healthy flash.now → IsRefusal result }
{
    let mut marks = Marks {
        is_other: false,
        is_done: false,
    };
    for at in 0..flash.pages() {
        look_at_marks(flash, Place { pages, at }, &mut marks);
        if has_word(flash, at) {
            marks.is_other = true;
        }
    }
    if flash.is_unreadable() {
        MountError::Unreadable
    } else if marks.is_other {
        MountError::OtherGeometry
    } else if marks.is_done {
        MountError::Damaged
    } else {
        MountError::Unformatted
    }
}

fn look_at_marks<F: MarkedFlash>(flash: &F, place: Place, marks: &mut Marks)
    requires in_pages { place.at < (F.size flash.now).pages }
    requires few { (F.size flash.now).triples ≤ 80 }
{
    for mark in 0..claim(flash.triples() as u16) {
        if let Some(word) = read_word(flash.read_mark(place.at, mark)) {
            if word.place != place {
                marks.is_other = true;
            }
            if word.number == 0 {
                marks.is_done = true;
            }
        }
    }
}

/// Whether a slot of a page reads as a mark.
fn has_word<F: MarkedFlash>(flash: &F, at: usize) -> bool
    requires { at < (F.size flash.now).pages }
{
    for slot in 0..PAGE_SLOTS {
        if read_word(flash.read_slot(at, slot)).is_some() {
            return true;
        }
    }
    false
}
