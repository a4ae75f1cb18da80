//! The calls of settings.

ghost use Rattle.std.specs.Prelude.{◌≡◌, ◌+◌, ◌<◌, ◌≤◌, ◌^◌, ◌↔◌, ℕ, IsTrue, IfSome, IfOk, IsOk, MatchResult, All, Some, None, Err, length, slice_index, take, option_map, if◌then◌else◌};
ghost use Rattle.flash_model.specs.Image.{page_count};
ghost use Rattle.settings_log.specs.Changes.{IsShort, Holds};
ghost use Rattle.settings_log.specs.Pages.{IsForeign, IsWhole};
ghost use Rattle.settings_log.specs.Values.{kind_at, value_of, bytes_behind, IsRead};
ghost use Rattle.settings_log.specs.Words.{data_words};
ghost use Rattle.settings_log.specs.representation.Here.{Stands, DataFrom};
ghost use Rattle.settings_log.specs.declared.words.Head.{Head};
ghost use Rattle.settings_log.specs.declared.words.Word.{Word};
ghost use Rattle.settings_log.specs.declared.store.SettingsError.{SettingsError};

use crate::change::{Change, head_of, size, word_at};
use crate::moving::{advance, words_alive};
use crate::operation::{head_in, put, tail, word_in};
use crate::ring::{counting, newest, usable};
use crate::scan::{Place, last_on};
use crate::words::{Head, data_words, word_bytes};
use flash_model::{NorFlash, PAGE_SLOTS};

/// Why a change was not stored, or a value not read. All values are as before.
#[derive(Clone, Copy, Debug, PartialEq, Eq)]
pub enum SettingsError {
    /// A value has more than 1,024 bytes, or more than the bytes that were lent for it.
    TooLong,
    /// Slot 0 of a page holds a word that is no header of its place: something else wrote there.
    Foreign,
    /// Slot 0 of a page is not sound, a page that should count has lost its header, or a flash reads otherwise than before.
    Damaged,
    /// The changes find no page with room for them.
    Full,
    /// The newest page has the greatest number, 0FFFFFFFh.
    Worn,
    /// The flash answered a fault, and what was written does not read back. A second try writes elsewhere.
    Fault,
}

/// The slots of a page that sets are given: one is left for a removal.
const SET_SLOTS: usize = PAGE_SLOTS - 1;

/// How many bytes the value of an id has, if it has one.
#[tactic(auto, using(crate::proofs::Lookup::value_length))]
pub fn length<F: NorFlash>(flash: &F, id: u16) -> Option<usize>
    ensures length { result ≡ option_map (λ bytes. length bytes) (value_of (F.image flash.now) id) }
    ensures short { IfSome result (λ bytes. bytes ≤ 1024) }
{
    match value_place(flash, id) {
        Some((_, head)) => Some(head.len as usize),
        None => None,
    }
}

/// Reads the value of an id into the first of the bytes that are lent, and says how many they are; `None` where it has none.
///
/// `TooLong` where it has more bytes than are lent.
pub fn get<F: NorFlash>(flash: &F, id: u16, into: &mut [u8]) -> Result<Option<usize>, SettingsError>
    ensures value { IsRead (value_of (F.image flash.now) id) result into.old into.new }
    ensures length { length into.new ≡ length into.old }
    ensures within { IfOk result (λ read. IfSome read (λ bytes. bytes ≤ length into.new)) }
{
    let Some((place, head)) = value_place(flash, id) else {
        return Ok(None);
    };
    let len = head.len as usize;
    if len > into.len() {
        return Err(SettingsError::TooLong);
    }
    for at in 0..data_words(head.len) as usize {
        match word_in(flash, place.page as usize, place.slot as usize + 1 + at) {
            Some(word) => copy_three(into, 3 * at, len, word_bytes(word)),
            None => return Err(SettingsError::Damaged),
        }
    }
    Ok(Some(len))
}

/// Copies three bytes to a place, but none past the end of a value.
fn copy_three(into: &mut [u8], at: usize, end: usize, bytes: [u8; 3])
    requires at { at ≤ 2 ^ 16 }
    requires end { end ≤ length into.old }
    ensures length { length into.new ≡ length into.old }
    ensures here { (k : ℕ) → k < 3 → at + k < end → slice_index into.new (at + k) ≡ slice_index bytes k }
    ensures others { (j : ℕ) → (at ≤ j → j < end → at + 3 ≤ j) → slice_index into.new j ≡ slice_index into.old j }
{
    for k in 0..3 {
        if at + k < end {
            into[at + k] = bytes[k];
        }
    }
}

/// Where the value of an id stands, with its head.
fn value_place<F: NorFlash>(flash: &F, id: u16) -> Option<(Place, Head)>
    ensures none { result ≡ None → value_of (F.image flash.now) id ≡ None }
    ensures some { IfSome result (λ found. Stands (F.image flash.now) id found.0 found.1) }
    ensures short { IfSome result (λ found. (found.0.page < page_count (F.image flash.now)) × (found.1.len ≤ 1024)) }
{
    let Some(newest) = newest(flash) else {
        return None;
    };
    for back in 0..flash.pages() - 1 {
        if let Some(place) = last_on(flash, newest, back, id) {
            return value_at(flash, place);
        }
    }
    None
}

/// A change that gives a value, with its head; none where it takes one.
fn value_at<F: NorFlash>(flash: &F, place: Place) -> Option<(Place, Head)>
    ensures head { (head : Head) → place.slot < 512 → place.page < page_count (F.image flash.now) → kind_at (F.image flash.now) place.page place.slot ≡ Word.Begins head
        → result ≡ (if head.removal then None else Some (place, head)) }
    ensures short { IfSome result (λ found. (found.0.page < page_count (F.image flash.now)) × (found.1.len ≤ 1024)) }
{
    if place.page as usize >= flash.pages() {
        return None;
    }
    match head_in(flash, place.page as usize, place.slot as usize) {
        Some(head) => {
            if head.removal {
                None
            } else {
                Some((place, head))
            }
        }
        None => None,
    }
}

/// Stores a value of at most 1,024 bytes. Nothing is written where the id has this value already. Refusals as of `transaction`.
pub fn set<F: NorFlash>(flash: &mut F, id: u16, bytes: &[u8]) -> Result<(), SettingsError>
    ensures too_long { 1024 < length bytes.now → (result ≡ Err SettingsError.TooLong) × (flash.new ≡ flash.old) }
    ensures foreign { (page : ℕ) → IsForeign (F.image flash.old) page → length bytes.now ≤ 1024 → (result ≡ Err SettingsError.Foreign) × (flash.new ≡ flash.old) }
    ensures damaged { ((page : ℕ) → IsForeign (F.image flash.old) page → ⊥) → (IsWhole (F.image flash.old) → ⊥) → length bytes.now ≤ 1024 → (result ≡ Err SettingsError.Damaged) × (flash.new ≡ flash.old) }
    ensures same { ((page : ℕ) → IsForeign (F.image flash.old) page → ⊥) → IsWhole (F.image flash.old) → length bytes.now ≤ 1024 → value_of (F.image flash.old) id ≡ Some bytes.now → IsOk result × (flash.new ≡ flash.old) }
{
    transaction(
        flash,
        &[Change {
            id,
            value: Some(bytes),
        }],
    )
}

/// Takes an id its value. Nothing is written where it has none. Refusals as of `transaction`, but that there is always room.
pub fn remove<F: NorFlash>(flash: &mut F, id: u16) -> Result<(), SettingsError>
    ensures foreign { (page : ℕ) → IsForeign (F.image flash.old) page → (result ≡ Err SettingsError.Foreign) × (flash.new ≡ flash.old) }
    ensures damaged { ((page : ℕ) → IsForeign (F.image flash.old) page → ⊥) → (IsWhole (F.image flash.old) → ⊥) → (result ≡ Err SettingsError.Damaged) × (flash.new ≡ flash.old) }
    ensures same { ((page : ℕ) → IsForeign (F.image flash.old) page → ⊥) → IsWhole (F.image flash.old) → value_of (F.image flash.old) id ≡ None → IsOk result × (flash.new ≡ flash.old) }
{
    transaction(flash, &[Change { id, value: None }])
}

/// Stores several changes, which are in force together: a loss of power leaves all of them or none. Of one id the last change
/// counts. Nothing is written where each id has the value already that it is given.
///
/// Refused are, in this order, `TooLong`, `Foreign`, `Damaged`, and `Full`, each before any operation; then `Worn`, and `Fault`
/// where the flash failed. All values are as before then.
pub fn transaction<F: NorFlash>(flash: &mut F, changes: &[Change<'_>]) -> Result<(), SettingsError>
    ensures too_long { (All (λ change. IsShort change) changes.now → ⊥) → (result ≡ Err SettingsError.TooLong) × (flash.new ≡ flash.old) }
    ensures foreign { (page : ℕ) → IsForeign (F.image flash.old) page → All (λ change. IsShort change) changes.now → (result ≡ Err SettingsError.Foreign) × (flash.new ≡ flash.old) }
    ensures damaged { ((page : ℕ) → IsForeign (F.image flash.old) page → ⊥) → (IsWhole (F.image flash.old) → ⊥) → All (λ change. IsShort change) changes.now → (result ≡ Err SettingsError.Damaged) × (flash.new ≡ flash.old) }
    ensures same { ((page : ℕ) → IsForeign (F.image flash.old) page → ⊥) → IsWhole (F.image flash.old) → All (λ change. IsShort change) changes.now → All (λ change. Holds (F.image flash.old) change) changes.now → IsOk result × (flash.new ≡ flash.old) }
{
    let words = words_of(changes)?;
    usable(flash)?;
    if all_hold(flash, changes) {
        return Ok(());
    }
    let end = end_for(changes);
    if words >= end || !has_room(flash, words, end) {
        return Err(SettingsError::Full);
    }
    let at = room_made(flash, words, end)?;
    append(flash, changes, at)
}

/// How many words changes take; a sum of more than 512 stays one. `TooLong` where a value has more than 1,024 bytes.
fn words_of(changes: &[Change<'_>]) -> Result<usize, SettingsError>
    ensures few { IfOk result (λ words. words ≤ 855) }
    ensures short { MatchResult result (λ _. All (λ change. IsShort change) changes.now) (λ why. (why ≡ SettingsError.TooLong) × (All (λ change. IsShort change) changes.now → ⊥)) }
{
    let mut words = 0;
    for change in changes {
        match head_of(change, true, true) {
            Some(head) => {
                if words <= PAGE_SLOTS {
                    words += size(head) as usize;
                }
            }
            None => return Err(SettingsError::TooLong),
        }
    }
    Ok(words)
}

/// The slot that changes may not reach: the last one of a page is kept for a removal.
fn end_for(changes: &[Change<'_>]) -> usize
    ensures { result ≤ 512 }
{
    match changes {
        [Change { value: None, .. }] => PAGE_SLOTS,
        _ => SET_SLOTS,
    }
}

/// Whether each id has the value already that it is given.
fn all_hold<F: NorFlash>(flash: &F, changes: &[Change<'_>]) -> bool
    ensures { IsTrue result ↔ All (λ change. Holds (F.image flash.now) change) changes.now }
{
    for change in changes {
        if !holds(flash, change) {
            return false;
        }
    }
    true
}

/// Whether an id has the value already that it is given.
fn holds<F: NorFlash>(flash: &F, change: &Change<'_>) -> bool
    ensures { IsTrue result ↔ Holds (F.image flash.now) change.now }
{
    let held = value_place(flash, change.id);
    match change.value {
        None => held.is_none(),
        Some(bytes) => match held {
            Some((place, head)) => head.len as usize == bytes.len()
                && has_bytes(flash, place, head, bytes),
            None => false,
        },
    }
}

/// Whether the words behind a head are those of a value.
fn has_bytes<F: NorFlash>(flash: &F, place: Place, head: Head, bytes: &[u8]) -> bool
    requires page { place.page < page_count (F.image flash.now) }
    requires length { length bytes.now ≡ head.len }
    requires short { head.len ≤ 1024 }
    requires words { DataFrom (F.image flash.now) place.page (place.slot + 1) (data_words head.len) }
    ensures { IsTrue result ↔ (take head.len (bytes_behind (F.image flash.now) place.page place.slot (data_words head.len)) ≡ bytes.now) }
{
    let words = data_words(head.len) as usize;
    for at in 0..words {
        match word_in(flash, place.page as usize, place.slot as usize + 1 + at) {
            Some(word) => {
                if !has_three(bytes, 3 * at, word_bytes(word)) {
                    return false;
                }
            }
            None => return false,
        }
    }
    true
}

/// Whether three bytes stand at a place, as far as there are so many.
fn has_three(bytes: &[u8], at: usize, three: [u8; 3]) -> bool
    requires { at ≤ 2 ^ 16 }
    ensures { IsTrue result ↔ ((k : ℕ) → k < 3 → at + k < length bytes.now → slice_index bytes.now (at + k) ≡ slice_index three k) }
{
    for k in 0..3 {
        if at + k < bytes.len() && bytes[at + k] != three[k] {
            return false;
        }
    }
    true
}

/// Whether so many words find room: behind the last word of the newest page, on a page that does not count yet, or on one beside
/// the values that are alive there.
fn has_room<F: NorFlash>(flash: &F, words: usize, end: usize) -> bool
    requires words { words ≤ end }
    requires end { end ≤ 512 }
{
    let Some(newest) = newest(flash) else {
        return true;
    };
    if tail_of(flash, newest) <= end - words {
        return true;
    }
    for back in 0..flash.pages() - 1 {
        if back > newest as usize || 1 + words_alive(flash, newest, back) <= end - words {
            return true;
        }
    }
    false
}

/// One more than the greatest slot of the newest page that is not Free.
fn tail_of<F: NorFlash>(flash: &F, newest: u32) -> usize
    ensures { result ≤ 512 }
{
    match counting(flash, newest, 0) {
        Some(page) => tail(flash, page),
        None => PAGE_SLOTS,
    }
}

/// Makes room for so many words, by moves of the oldest page: the page and the slot that they may begin in.
fn room_made<F: NorFlash>(
    flash: &mut F,
    words: usize,
    end: usize,
) -> Result<(usize, usize), SettingsError>
    requires { words ≤ end }
    ensures same_pages { page_count (F.image flash.new) ≡ page_count (F.image flash.old) }
    ensures page { IfOk result (λ at. at.0 < page_count (F.image flash.new)) }
{
    for _ in 0..flash.pages() + 1 {
        if let Some(at) = room_at(flash, words, end) {
            return Ok(at);
        }
        advance(flash)?;
    }
    Err(SettingsError::Full)
}

/// The newest page and its first free slot, where there is room for so many words.
fn room_at<F: NorFlash>(flash: &F, words: usize, end: usize) -> Option<(usize, usize)>
    requires { words ≤ end }
    ensures { IfSome result (λ at. at.0 < page_count (F.image flash.now)) }
{
    let Some(newest) = newest(flash) else {
        return None;
    };
    let Some(page) = counting(flash, newest, 0) else {
        return None;
    };
    let slot = tail(flash, page);
    if slot <= end - words {
        Some((page, slot))
    } else {
        None
    }
}

/// Writes the words of changes from a slot on.
fn append<F: NorFlash>(
    flash: &mut F,
    changes: &[Change<'_>],
    at: (usize, usize),
) -> Result<(), SettingsError>
    requires { at.0 < page_count (F.image flash.old) }
{
    let (page, first) = at;
    let mut slot = first;
    for k in 0..changes.len() {
        match head_of(&changes[k], k == 0, k + 1 == changes.len()) {
            Some(head) => slot = append_one(flash, &changes[k], head, page, slot)?,
            None => return Err(SettingsError::TooLong),
        }
    }
    Ok(())
}

/// Writes the words of a change that has this head, and says which slot is next.
fn append_one<F: NorFlash>(
    flash: &mut F,
    change: &Change<'_>,
    head: Head,
    page: usize,
    slot: usize,
) -> Result<usize, SettingsError>
    requires page { page < page_count (F.image flash.old) }
    requires len { head.len ≤ 1024 }
    ensures same_pages { page_count (F.image flash.new) ≡ page_count (F.image flash.old) }
{
    let mut slot = slot;
    for at in 0..size(head) {
        slot = put(flash, page, slot, word_at(change, head, at))?;
    }
    Ok(slot)
}

/// How many slots of the newest page sets may still take.
pub fn room_left<F: NorFlash>(flash: &F) -> usize {
    match newest(flash) {
        Some(newest) => {
            let tail = tail_of(flash, newest);
            if tail < SET_SLOTS {
                SET_SLOTS - tail
            } else {
                0
            }
        }
        None => SET_SLOTS - 1,
    }
}
