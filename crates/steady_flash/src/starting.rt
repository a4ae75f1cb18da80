//! A start: it finds the pages, and settles what a power loss left in doubt.

ghost use Rattle.std.specs.Prelude.{◌≡◌, ◌≢◌, ◌+◌, ◌-◌, ◌&&◌, nat_lt, length, if◌then◌else◌, ◌*◌, ◌<◌, ◌≤◌, ◌^◌, ℕ, IsTrue, ◌↔◌, IfOk, IfErr, IsOk, MatchResult};
ghost use Rattle.steady_flash.specs.Healthy.{IsRefusal, IsRefused};
ghost use Rattle.steady_flash.specs.Claims.{IsClaim, IsClaimed, IsFound, IsFoundTo, IsTaken, IsKeptOr, IsOpenTold, IsSettledPage, IsSameOpen, IsUntouched, IsOurs, IsUnheld, HasRoom, IsRaised};
ghost use Rattle.steady_flash.specs.Marked.{Size, Same};
ghost use Rattle.steady_flash.specs.Layout.{held_at, IsServed, IsPlaced, IsLaidOut};
ghost use Rattle.steady_flash.specs.Shown.{IsSettled};
ghost use Rattle.steady_flash.specs.Told.{IsFoundTold, IsReadTo, MayBeFound};
ghost use Rattle.steady_flash.specs.Sound.{Standing, IsSound, IsFoundBy, IsBumped, IsLeft, IsCalm, IsStill, HasRead, Narrows, Shrinks, IsShrunk, IsStarted, steady_at};

use crate::layout::{Held, Layout, MOST_PAGES, NOWHERE};
use crate::making::why_not_found;
use crate::marks::{BLANK, OPEN, Word, about, claim, done, done_bytes, read_word};
use crate::moving::{Stop, bump, move_page};
use crate::{MarkedFlash, MountError};
use flash_model::SLOT_BYTES;

/// The least triples of marks of a page.
const LEAST_TRIPLES: usize = 8;

/// The most triples of marks of a page.
const MOST_TRIPLES: usize = 80;

/// A start.
pub fn start<F: MarkedFlash>(flash: &mut F) -> Result<Layout, MountError>
    ensures served { result ≢ Err MountError.PageCount → result ≢ Err MountError.Triples → IsServed (F.size flash.old) ((F.size flash.old).pages - 1) }
    ensures same_size { F.size flash.new ≡ F.size flash.old }
    ensures laid_out { IfOk result (λ layout. IsLaidOut (F.size flash.old) layout) }
    ensures healthy { F.is_healthy flash.old → F.is_healthy flash.new × IfErr result IsRefusal }
    ensures settled { (before : Layout) → IsClaimed (F.size flash.old) (F.marks flash.old) before → IfOk result (λ layout. (layout.pages ≡ before.pages) × ((p : ℕ) → p < before.pages → IsOpenTold (F.marks flash.old) (F.slots flash.old) (held_at before.held p).page → IsSettledPage (F.slots flash.old) (held_at before.held p).page (F.slots flash.new) layout p)) }
    ensures told { IsFoundTold (F.size flash.old) (F.marks flash.old) (F.slots flash.old) ((F.size flash.old).pages - 1) → IfOk result (λ layout. IsSettled (F.slots flash.new) layout) }
    ensures complete { F.is_healthy flash.old → (before : Layout) → IsClaimed (F.size flash.old) (F.marks flash.old) before → IsOurs (F.size flash.old) (F.marks flash.old) before.pages → ((p : ℕ) → p < before.pages → HasRoom (F.size flash.old).triples (held_at before.held p)) → IsOk result }
    // also where it is cut: then the cells show no more than before
    ensures sound { (before : Standing) → IsSound (F.size flash.old) (F.marks flash.old) before → MatchResult result
        (λ layout. IsStarted (F.size flash.old) before (F.marks flash.old) (F.slots flash.old) layout (F.marks flash.new) (F.slots flash.new))
        (λ _. IsShrunk (F.size flash.old) before (F.marks flash.old) (F.slots flash.old) (F.marks flash.new) (F.slots flash.new)) }
{
    let count = flash.pages();
    if count < 3 || count > MOST_PAGES + 1 {
        return Err(MountError::PageCount);
    }
    let triples = flash.triples();
    if triples < LEAST_TRIPLES || triples > MOST_TRIPLES {
        return Err(MountError::Triples);
    }
    match settle_all(flash, count - 1) {
        Ok(layout) => Ok(layout),
        Err(Stop::Named(why)) => Err(why),
        Err(_) => Err(MountError::Fault),
    }
}

/// All pages are bumped before any is settled: an erase in between could leave a claim that a start takes for the greatest.
fn settle_all<F: MarkedFlash>(flash: &mut F, pages: usize) -> Result<Layout, Stop>
    requires { IsServed (F.size flash.old) pages }
    ensures same_size { F.size flash.new ≡ F.size flash.old }
    ensures laid_out { IfOk result (λ layout. IsLaidOut (F.size flash.old) layout) }
    ensures healthy { F.is_healthy flash.old → F.is_healthy flash.new × IfErr result IsRefused }
    ensures settled { (before : Layout) → IsClaimed (F.size flash.old) (F.marks flash.old) before → before.pages ≡ pages → IfOk result (λ layout. (layout.pages ≡ pages) × ((p : ℕ) → p < before.pages → IsOpenTold (F.marks flash.old) (F.slots flash.old) (held_at before.held p).page → IsSettledPage (F.slots flash.old) (held_at before.held p).page (F.slots flash.new) layout p)) }
    ensures told { IsFoundTold (F.size flash.old) (F.marks flash.old) (F.slots flash.old) pages → IfOk result (λ layout. IsSettled (F.slots flash.new) layout) }
    ensures complete { F.is_healthy flash.old → (before : Layout) → IsClaimed (F.size flash.old) (F.marks flash.old) before → before.pages ≡ pages → IsOurs (F.size flash.old) (F.marks flash.old) pages → ((p : ℕ) → p < before.pages → HasRoom (F.size flash.old).triples (held_at before.held p)) → IsOk result }
    ensures sound { (before : Standing) → IsSound (F.size flash.old) (F.marks flash.old) before → before.layout.pages ≡ pages → MatchResult result
        (λ layout. IsStarted (F.size flash.old) before (F.marks flash.old) (F.slots flash.old) layout (F.marks flash.new) (F.slots flash.new))
        (λ _. IsShrunk (F.size flash.old) before (F.marks flash.old) (F.slots flash.old) (F.marks flash.new) (F.slots flash.new)) }
{
    let mut layout = find(flash, pages)?;
    bump_all(flash, &mut layout)?;
    settle_opened(flash, &mut layout)?;
    Ok(layout)
}

fn bump_all<F: MarkedFlash>(flash: &mut F, layout: &mut Layout) -> Result<(), Stop>
    requires { IsLaidOut (F.size flash.old) layout.old }
    ensures same_size { F.size flash.new ≡ F.size flash.old }
    ensures laid_out { IsLaidOut (F.size flash.old) layout.new }
    ensures same_pages { layout.new.pages ≡ layout.old.pages }
    ensures healthy { F.is_healthy flash.old → F.is_healthy flash.new × IfErr result IsRefused }
    ensures slots { Same (F.slots flash.old) (F.slots flash.new) }
    ensures opened { IsSameOpen (F.marks flash.old) (F.marks flash.new) }
    ensures same_places { (p : ℕ) → (held_at layout.new.held p).page ≡ (held_at layout.old.held p).page }
    ensures complete { F.is_healthy flash.old → ((p : ℕ) → p < layout.old.pages → HasRoom (F.size flash.old).triples (held_at layout.old.held p)) → IsOk result × ((p : ℕ) → p < layout.old.pages → (held_at layout.new.held p).number + 1 < 2 ^ 21) }
    ensures sound { (before : Standing) → IsSound (F.size flash.old) (F.marks flash.old) before → before.layout.pages ≡ layout.old.pages → ((p : ℕ) → p < layout.old.pages → IsFoundBy (F.marks flash.old) before p (held_at layout.old.held p)) → MatchResult result
        (λ _. IsCalm (F.size flash.old) (F.marks flash.new) layout.new × Narrows before (steady_at layout.new))
        (λ _. IsStill (F.size flash.old) before (F.marks flash.new)) }
{
    let pages = layout.pages;
    for behind in 0..pages {
        bump_where_begun(flash, layout, pages - 1 - behind)?;
    }
    Ok(())
}

fn settle_opened<F: MarkedFlash>(flash: &mut F, layout: &mut Layout) -> Result<(), Stop>
    requires { IsLaidOut (F.size flash.old) layout.old }
    ensures same_size { F.size flash.new ≡ F.size flash.old }
    ensures laid_out { IsLaidOut (F.size flash.old) layout.new }
    ensures same_pages { layout.new.pages ≡ layout.old.pages }
    ensures healthy { F.is_healthy flash.old → F.is_healthy flash.new × IfErr result IsRefused }
    ensures settled { IfOk result (λ _. (p : ℕ) → p < layout.old.pages → IsOpenTold (F.marks flash.old) (F.slots flash.old) (held_at layout.old.held p).page → IsSettledPage (F.slots flash.old) (held_at layout.old.held p).page (F.slots flash.new) layout.new p) }
    ensures complete { F.is_healthy flash.old → ((p : ℕ) → p < layout.old.pages → (held_at layout.old.held p).number + 1 < 2 ^ 21) → IsOk result }
    ensures sound { IsCalm (F.size flash.old) (F.marks flash.old) layout.old → MatchResult result
        (λ _. IsCalm (F.size flash.old) (F.marks flash.new) layout.new × Shrinks (F.size flash.old) (steady_at layout.old) (F.marks flash.old) (F.slots flash.old) (steady_at layout.new) (F.marks flash.new) (F.slots flash.new))
        (λ _. IsShrunk (F.size flash.old) (steady_at layout.old) (F.marks flash.old) (F.slots flash.old) (F.marks flash.new) (F.slots flash.new)) }
{
    let pages = layout.pages;
    for page in 0..pages {
        settle_where_opened(flash, layout, page)?;
    }
    Ok(())
}

fn bump_where_begun<F: MarkedFlash>(
    flash: &mut F,
    layout: &mut Layout,
    page: usize,
) -> Result<(), Stop>
    requires laid_out { IsLaidOut (F.size flash.old) layout.old }
    requires in_pages { page < layout.old.pages }
    ensures same_size { F.size flash.new ≡ F.size flash.old }
    ensures laid_out { IsLaidOut (F.size flash.old) layout.new }
    ensures same_pages { layout.new.pages ≡ layout.old.pages }
    ensures healthy { F.is_healthy flash.old → F.is_healthy flash.new × IfErr result IsRefused }
    ensures slots { Same (F.slots flash.old) (F.slots flash.new) }
    ensures opened { IsSameOpen (F.marks flash.old) (F.marks flash.new) }
    ensures same_places { (p : ℕ) → (held_at layout.new.held p).page ≡ (held_at layout.old.held p).page }
    ensures complete { F.is_healthy flash.old → HasRoom (F.size flash.old).triples (held_at layout.old.held page) → IsOk result }
    ensures numbers { (p : ℕ) → IsRaised (held_at layout.old.held p) (held_at layout.new.held p) (p ≡ page) }
    ensures sound { (before : Standing) → IsSound (F.size flash.old) (F.marks flash.old) before → before.layout.pages ≡ layout.old.pages → IsFoundBy (F.marks flash.old) before page (held_at layout.old.held page) → MatchResult result
        (λ _. IsBumped (F.size flash.old) (F.marks flash.old) before page (F.marks flash.new) (held_at layout.new.held page))
        (λ _. IsLeft (F.size flash.old) (F.marks flash.old) before page (F.marks flash.new)) }
{
    let held = layout.held[page];
    let at = held.page as usize;
    let index = held.index as u16;
    let is_done = flash.read_mark(at, done(index)) == done_bytes(layout.place(at));
    let is_about = flash.read_mark(at, about(index)) != BLANK;
    if is_done && !is_about {
        Ok(())
    } else {
        bump(flash, layout, page)
    }
}

/// A page in which slots were programmed, or with few marks left, is moved as it reads now.
fn settle_where_opened<F: MarkedFlash>(
    flash: &mut F,
    layout: &mut Layout,
    page: usize,
) -> Result<(), Stop>
    requires laid_out { IsLaidOut (F.size flash.old) layout.old }
    requires in_pages { page < layout.old.pages }
    ensures same_size { F.size flash.new ≡ F.size flash.old }
    ensures laid_out { IsLaidOut (F.size flash.old) layout.new }
    ensures same_pages { layout.new.pages ≡ layout.old.pages }
    ensures healthy { F.is_healthy flash.old → F.is_healthy flash.new × IfErr result IsRefused }
    ensures settled { IsOpenTold (F.marks flash.old) (F.slots flash.old) (held_at layout.old.held page).page → IfOk result (λ _. IsSettledPage (F.slots flash.old) (held_at layout.old.held page).page (F.slots flash.new) layout.new page) }
    ensures others { IfOk result (λ _. (p : ℕ) → p < layout.old.pages → (p ≡ page → ⊥) → IsUntouched (F.marks flash.old) (F.slots flash.old) layout.old (F.marks flash.new) (F.slots flash.new) layout.new p) }
    ensures complete { F.is_healthy flash.old → (held_at layout.old.held page).number + 1 < 2 ^ 21 → IsOk result }
    ensures numbers { (p : ℕ) → (p ≡ page → ⊥) → (held_at layout.new.held p).number ≡ (held_at layout.old.held p).number }
    ensures sound { IsCalm (F.size flash.old) (F.marks flash.old) layout.old → MatchResult result
        (λ _. IsCalm (F.size flash.old) (F.marks flash.new) layout.new × Shrinks (F.size flash.old) (steady_at layout.old) (F.marks flash.old) (F.slots flash.old) (steady_at layout.new) (F.marks flash.new) (F.slots flash.new))
        (λ _. IsShrunk (F.size flash.old) (steady_at layout.old) (F.marks flash.old) (F.slots flash.old) (F.marks flash.new) (F.slots flash.new)) }
{
    let held = layout.held[page];
    let opened = flash.read_mark(held.page as usize, OPEN);
    if opened == BLANK && (held.index as usize) < flash.triples() / 2 {
        return Ok(());
    }
    move_page(flash, layout, page, None)?;
    Ok(())
}

/// Reads each claim once, and finds the greatest one of each page.
fn find<F: MarkedFlash>(flash: &F, pages: usize) -> Result<Layout, Stop>
    requires { IsServed (F.size flash.now) pages }
    ensures laid_out { IfOk result (λ layout. IsLaidOut (F.size flash.now) layout) }
    ensures healthy { F.is_healthy flash.now → IfErr result IsRefused }
    ensures found { (before : Layout) → IsClaimed (F.size flash.now) (F.marks flash.now) before → before.pages ≡ pages → IfOk result (λ layout. IsFound before layout) }
    ensures read { IfOk result (λ layout. (layout.pages ≡ pages) × MayBeFound (F.size flash.now) (F.marks flash.now) layout) }
    ensures pages { IfOk result (λ layout. layout.pages ≡ pages) }
    ensures sound { (before : Standing) → IsSound (F.size flash.now) (F.marks flash.now) before → before.layout.pages ≡ pages → IfOk result (λ layout. (p : ℕ) → p < pages → IsFoundBy (F.marks flash.now) before p (held_at layout.held p)) }
    ensures complete { F.is_healthy flash.now → (before : Layout) → IsClaimed (F.size flash.now) (F.marks flash.now) before → before.pages ≡ pages → IsOurs (F.size flash.now) (F.marks flash.now) pages → IsOk result }
{
    let mut layout = Layout {
        pages,
        held: [NOWHERE; MOST_PAGES],
        spare: pages,
    };
    find_claims(flash, &mut layout)?;
    layout.spare = spare_of(&layout);
    if flash.is_unreadable() {
        return Err(Stop::Named(MountError::Unreadable));
    }
    if !is_whole(&layout) {
        return Err(Stop::Named(why_not_found(flash, pages)));
    }
    Ok(layout)
}

/// Reads each claim of the flash once, and keeps the greatest one of each page.
fn find_claims<F: MarkedFlash>(flash: &F, layout: &mut Layout) -> Result<(), Stop>
    requires { IsPlaced (F.size flash.now) layout.old }
    ensures placed { IsPlaced (F.size flash.now) layout.new }
    ensures same_pages { layout.new.pages ≡ layout.old.pages }
    ensures healthy { F.is_healthy flash.now → IfErr result IsRefused }
    ensures found { (before : Layout) → IsClaimed (F.size flash.now) (F.marks flash.now) before → IsFoundTo before layout.old 0 0 → IfOk result (λ _. IsFoundTo before layout.new (layout.old.pages + 1) 0) }
    ensures read { IsReadTo (F.size flash.now).triples (F.marks flash.now) layout.old 0 0 → IfOk result (λ _. IsReadTo (F.size flash.now).triples (F.marks flash.now) layout.new (layout.old.pages + 1) 0) }
    ensures reads { HasRead (F.size flash.now) (F.marks flash.now) layout.old 0 0 → IfOk result (λ _. HasRead (F.size flash.now) (F.marks flash.now) layout.new (layout.old.pages + 1) 0) }
    ensures ours { IsOurs (F.size flash.now) (F.marks flash.now) layout.old.pages → IsOk result }
{
    for at in 0..flash.pages() {
        find_on(flash, layout, at)?;
    }
    Ok(())
}

fn find_on<F: MarkedFlash>(flash: &F, layout: &mut Layout, at: usize) -> Result<(), Stop>
    requires placed { IsPlaced (F.size flash.now) layout.old }
    requires in_pages { at ≤ layout.old.pages }
    ensures placed { IsPlaced (F.size flash.now) layout.new }
    ensures same_pages { layout.new.pages ≡ layout.old.pages }
    ensures healthy { F.is_healthy flash.now → IfErr result IsRefused }
    ensures found { (before : Layout) → IsClaimed (F.size flash.now) (F.marks flash.now) before → IsFoundTo before layout.old at 0 → IfOk result (λ _. IsFoundTo before layout.new at (F.size flash.now).triples) }
    ensures read { IsReadTo (F.size flash.now).triples (F.marks flash.now) layout.old at 0 → IfOk result (λ _. IsReadTo (F.size flash.now).triples (F.marks flash.now) layout.new at (F.size flash.now).triples) }
    ensures reads { HasRead (F.size flash.now) (F.marks flash.now) layout.old at 0 → IfOk result (λ _. HasRead (F.size flash.now) (F.marks flash.now) layout.new at (F.size flash.now).triples) }
    ensures ours { IsOurs (F.size flash.now) (F.marks flash.now) layout.old.pages → IsOk result }
{
    for index in 0..flash.triples() {
        let read = flash.read_mark(at, claim(index as u16));
        take_claim(layout, at, index, read)?;
    }
    Ok(())
}

/// Keeps a claim where it is greater than that before, and refuses one of another geometry.
fn take_claim(
    layout: &mut Layout,
    at: usize,
    index: usize,
    read: [u8; SLOT_BYTES],
) -> Result<(), Stop>
    requires eight { length layout.old.held ≡ 8 }
    requires least { 2 ≤ layout.old.pages }
    requires most { layout.old.pages ≤ 8 }
    requires in_pages { at ≤ layout.old.pages }
    requires in_page { index < 80 }
    ensures placed { (size : Size) → IsPlaced size layout.old → index < size.triples → IsPlaced size layout.new }
    ensures same_pages { layout.new.pages ≡ layout.old.pages }
    ensures refused { IfErr result IsRefused }
    ensures taken { IfOk result (λ _. (p : ℕ) → p < layout.old.pages → IsTaken (held_at layout.old.held p) (held_at layout.new.held p) layout.old.pages at index p read) }
    ensures greatest { IfOk result (λ _. (p m : ℕ) → p < layout.old.pages → m < 2 ^ 21 → IsClaim layout.old.pages at p m read → m ≤ (held_at layout.new.held p).number) }
    ensures ours { ((pages at' page number : ℕ) → IsClaim pages at' page number read → (pages ≡ layout.old.pages) × (at' ≡ at)) → IsOk result }
{
    match read_word(read) {
        None => Ok(()),
        Some(word) => {
            if word.place != layout.place(at) {
                return Err(Stop::Named(MountError::OtherGeometry));
            }
            keep_greater(layout, index, word);
            Ok(())
        }
    }
}

/// Keeps a claim where it is greater than that before.
fn keep_greater(layout: &mut Layout, index: usize, word: Word)
    requires eight { length layout.old.held ≡ 8 }
    requires most { layout.old.pages ≤ 8 }
    requires in_pages { word.place.at ≤ layout.old.pages }
    requires in_page { index < 80 }
    requires number { word.number < 2 ^ 21 }
    ensures placed { (size : Size) → IsPlaced size layout.old → index < size.triples → IsPlaced size layout.new }
    ensures same_pages { layout.new.pages ≡ layout.old.pages }
    ensures taken { (p : ℕ) → p < layout.old.pages → IsKeptOr (held_at layout.old.held p) (held_at layout.new.held p) word.place.at index (p ≡ word.page) word.number }
    ensures greatest { word.page < layout.old.pages → word.number ≤ (held_at layout.new.held word.page).number }
{
    let page = word.page;
    if page >= layout.pages || layout.held[page].number >= word.number {
        return;
    }
    layout.held[page] = Held {
        page: word.place.at as u8,
        index: index as u8,
        number: word.number,
        is_opened: false,
    };
}

/// The page of the flash that holds none.
fn spare_of(layout: &Layout) -> usize
    requires eight { length layout.now.held ≡ 8 }
    requires most { layout.now.pages ≤ 8 }
    ensures in_pages { result ≤ layout.now.pages }
    ensures free { (q : ℕ) → q ≤ layout.now.pages → IsUnheld layout.now q → IsUnheld layout.now result }
{
    for page in 0..layout.pages {
        if !is_held(layout, page) {
            return page;
        }
    }
    layout.pages
}

/// Whether a page of the flash holds one of the log.
fn is_held(layout: &Layout, at: usize) -> bool
    requires eight { length layout.now.held ≡ 8 }
    requires most { layout.now.pages ≤ 8 }
    ensures { IsTrue result ↔ ((p : ℕ) × (p < layout.now.pages) × (0 < (held_at layout.now.held p).number) × ((held_at layout.now.held p).page ≡ at)) }
{
    for page in 0..layout.pages {
        let held = layout.held[page];
        if held.number > 0 && held.page as usize == at {
            return true;
        }
    }
    false
}

/// Whether each page is found, each on a page of its own, and one is left.
fn is_whole(layout: &Layout) -> bool
    requires eight { length layout.now.held ≡ 8 }
    requires most { layout.now.pages ≤ 8 }
    ensures numbered { IsTrue result → (p : ℕ) → p < layout.now.pages → 1 ≤ (held_at layout.now.held p).number }
    ensures apart { IsTrue result → (p q : ℕ) → p < layout.now.pages → q < layout.now.pages → (held_at layout.now.held p).page ≡ (held_at layout.now.held q).page → p ≡ q }
    ensures free { IsTrue result → (p : ℕ) → p < layout.now.pages → (held_at layout.now.held p).page ≡ layout.now.spare → ⊥ }
    ensures whole { ((p : ℕ) → p < layout.now.pages → 1 ≤ (held_at layout.now.held p).number) → ((p q : ℕ) → p < layout.now.pages → q < layout.now.pages → (held_at layout.now.held p).page ≡ (held_at layout.now.held q).page → p ≡ q) → IsUnheld layout.now layout.now.spare → IsTrue result }
{
    for page in 0..layout.pages {
        if layout.held[page].number == 0 || is_doubled(layout, page) {
            return false;
        }
    }
    !is_held(layout, layout.spare)
}

/// Whether an earlier page is found on the same page of the flash.
fn is_doubled(layout: &Layout, page: usize) -> bool
    requires eight { length layout.now.held ≡ 8 }
    requires most { layout.now.pages ≤ 8 }
    requires in_pages { page < layout.now.pages }
    ensures { IsTrue result ↔ ((p : ℕ) × (p < page) × ((held_at layout.now.held p).page ≡ (held_at layout.now.held page).page)) }
{
    let at = layout.held[page].page;
    for other in 0..page {
        if layout.held[other].page == at {
            return true;
        }
    }
    false
}
