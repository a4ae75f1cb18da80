//! The pages as a ring: which of them count.

ghost use Rattle.std.specs.Prelude.{◌≡◌, ◌<◌, ◌≤◌, ◌+◌, ◌-◌, ◌%◌, ◌^◌, ◌↔◌, ℕ, IfSome, IsSome, IsSomeAnd, IsOk, IsTrue, MatchOption, Some, Ok, Err, []};
ghost use Rattle.flash_model.specs.Image.{page_count};
ghost use Rattle.settings_log.specs.Pages.{number_at, IsForeign, IsLost, IsWhole};
ghost use Rattle.settings_log.specs.Values.{newest_of, greater, heads_before, heads_on};
ghost use Rattle.settings_log.specs.representation.Ring.{IsBest, IsLater};
ghost use Rattle.settings_log.specs.declared.store.SettingsError.{SettingsError};

use crate::operation::word_in;
use crate::store::SettingsError;
use crate::words::number_of;
use flash_model::NorFlash;
use records::is_sound;

/// The page of a number.
pub fn page_of<F: NorFlash>(flash: &F, number: u32) -> usize
    ensures in_pages { result < page_count (F.image flash.now) }
    ensures place { result ≡ number % page_count (F.image flash.now) }
{
    number as usize % flash.pages()
}

/// The number of a page, if it has a header of its place.
#[tactic(auto, unfolding(crate::specs::Pages::number_at, crate::specs::Pages::number_of_slot, crate::specs::Pages::of_place))]
fn number_in<F: NorFlash>(flash: &F, page: usize) -> Option<u32>
    requires { page < page_count (F.image flash.now) }
    ensures number { result ≡ number_at (F.image flash.now) page }
    ensures small { IfSome result (λ number. number < 2 ^ 28) }
{
    match word_in(flash, page, 0) {
        Some(word) => match number_of(word) {
            Some(number) => {
                if page_of(flash, number) == page {
                    Some(number)
                } else {
                    None
                }
            }
            None => None,
        },
        None => None,
    }
}

/// The greatest number of a page, if any has one.
#[tactic(auto, using(crate::proofs::History::newest_none, crate::proofs::History::newest_more))]
pub fn newest<F: NorFlash>(flash: &F) -> Option<u32>
    ensures small { IfSome result (λ number. number < 2 ^ 28) }
    ensures greatest { IsBest (F.image flash.now) (page_count (F.image flash.now)) result }
    ensures value { result ≡ newest_of (F.image flash.now) (page_count (F.image flash.now)) }
{
    let mut best = None;
    for page in 0..flash.pages() {
        best = later(best, number_in(flash, page));
    }
    best
}

/// The greater number.
fn later(best: Option<u32>, number: Option<u32>) -> Option<u32>
    requires best { IfSome best (λ number. number < 2 ^ 28) }
    requires number { IfSome number (λ number. number < 2 ^ 28) }
    ensures small { IfSome result (λ number. number < 2 ^ 28) }
    ensures greater { IsLater best number result }
    ensures value { result ≡ greater best number }
{
    match (best, number) {
        (Some(a), Some(b)) => { if b > a { Some(b) } else { Some(a) } }
        (None, number) => number,
        (best, None) => best,
    }
}

/// The page so many before the newest, if it counts.
#[tactic(auto, using(crate::proofs::History::before_counts, crate::proofs::History::before_not, crate::proofs::History::before_early))]
pub fn counting<F: NorFlash>(flash: &F, newest: u32, back: usize) -> Option<usize>
    ensures in_pages { IfSome result (λ page. page < page_count (F.image flash.now)) }
    ensures counts { back + 1 < page_count (F.image flash.now) → back ≤ newest → (IsSome result ↔ (number_at (F.image flash.now) ((newest - back) % page_count (F.image flash.now)) ≡ Some (newest - back))) }
    ensures heads { back + 1 < page_count (F.image flash.now) → MatchOption result (heads_before (F.image flash.now) newest back ≡ []) (λ page. heads_before (F.image flash.now) newest back ≡ heads_on (F.image flash.now) page) }
{
    if back >= flash.pages() - 1 || back > newest as usize {
        return None;
    }
    let number = newest - back as u32;
    let page = page_of(flash, number);
    if number_in(flash, page) == Some(number) {
        Some(page)
    } else {
        None
    }
}

/// Whether anything may be written: `Foreign` where slot 0 of a page holds a word that is no header of its place, and `Damaged`
/// where one is not sound, or a page that should count has lost its header.
pub fn usable<F: NorFlash>(flash: &F) -> Result<(), SettingsError>
    ensures foreign { (page : ℕ) → IsForeign (F.image flash.now) page → result ≡ Err SettingsError.Foreign }
    ensures damaged { ((page : ℕ) → IsForeign (F.image flash.now) page → ⊥) → (IsWhole (F.image flash.now) → ⊥) → result ≡ Err SettingsError.Damaged }
    ensures whole { IsOk result → IsWhole (F.image flash.now) }
    ensures usable { ((page : ℕ) → IsForeign (F.image flash.now) page → ⊥) → IsWhole (F.image flash.now) → result ≡ Ok tt }
    ensures only_then { result ≡ Err SettingsError.Foreign → ((page : ℕ) × IsForeign (F.image flash.now) page) }
{
    for page in 0..flash.pages() {
        if word_in(flash, page, 0).is_some() && number_in(flash, page).is_none() {
            return Err(SettingsError::Foreign);
        }
    }
    if is_whole(flash) {
        Ok(())
    } else {
        Err(SettingsError::Damaged)
    }
}

/// Whether each slot 0 is sound, and each page counts that should.
#[tactic(auto, using(crate::proofs::Lost::lost_of_best, crate::proofs::Lost::not_kept))]
fn is_whole<F: NorFlash>(flash: &F) -> bool
    ensures { IsTrue result ↔ IsWhole (F.image flash.now) }
{
    let newest = newest(flash);
    for at in 0..flash.pages() {
        if !is_sound(flash.read_slot(at, 0)) || is_lost(flash, newest, at) {
            return false;
        }
    }
    true
}

/// Whether the page so many before the newest should count, and does not.
fn is_lost<F: NorFlash>(flash: &F, newest: Option<u32>, back: usize) -> bool
    requires { IsBest (F.image flash.now) (page_count (F.image flash.now)) newest }
    ensures { IsTrue result ↔ IsSomeAnd newest (λ number. IsLost (F.image flash.now) number back) }
{
    match newest {
        None => false,
        Some(newest) => {
            back <= newest as usize
                && back < flash.pages() - 1
                && counting(flash, newest, back).is_none()
        }
    }
}
