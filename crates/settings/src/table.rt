//! The values in a table that the caller lends, which are read without the flash.

ghost use Rattle.std.specs.Prelude.{◌≡◌, ◌≢◌, ◌+◌, ◌<◌, ◌≤◌, ◌^◌, ◌↔◌, ℕ, List, IsTrue, IsOk, IsErr, Some, None, IsSome, MatchOption, All, length, slice_index};
ghost use Rattle.settings.specs.declared.change.Change.{Change};
ghost use Rattle.settings.specs.Settings.{settings_of};
ghost use Rattle.settings.specs.Table.{kept, Mirrors, MirrorsBut, ids_below};
ghost use Rattle.settings.specs.representation.Table.{IsEntry, IsFree, end_of};
ghost use Rattle.settings.specs.representation.Store.{Refines};

use crate::change::{Change, Value};
use crate::lookup::IDS;
use crate::store::Settings;
use flash_model::NorFlash;

/// An entry of a table that has no value.
pub const FREE_ENTRY: Change = Change { id: 0, value: None };

/// The table has no entry for a value.
#[derive(Clone, Copy, Debug, PartialEq, Eq)]
pub struct TableTooSmall;

/// The value that a table has for an id, if any. No flash is read.
pub fn table_value(table: &[Change], id: u16) -> Option<&Value>
    ensures value { MatchOption result (kept table.now id ≡ None) (λ value. kept table.now id ≡ Some value.now) }
    // as `Settings::get` answers for each image that the table has the values of
    ensures mirrored { (image : List ℕ) → Mirrors image table.now → MatchOption result (settings_of image id ≡ None) (λ value. settings_of image id ≡ Some value.now) }
{
    let mut rest = table;
    while let [entry, later @ ..] = rest {
        if entry.id == id {
            if let Some(value) = &entry.value {
                return Some(value);
            }
        }
        rest = later;
    }
    None
}

/// Whether a table has a value for an id. No flash is read.
pub fn table_contains(table: &[Change], id: u16) -> bool
    // as `Settings::contains` answers for each image that the table has the values of
    ensures { (image : List ℕ) → Mirrors image table.now → (IsTrue result ↔ IsSome (settings_of image id)) }
{
    table_value(table, id).is_some()
}

/// Gives a table the value of each id that has one, and no other: `TableTooSmall` exactly where fewer
/// entries than ids with a value are lent, and then the table is of no use. The words of the page are
/// read twice for each id that one of them names, and once more.
pub fn fill_table<F: NorFlash>(
    settings: &Settings,
    flash: &F,
    table: &mut [Change],
) -> Result<(), TableTooSmall>
    requires { Refines (F.image flash.now) settings.now }
    ensures length { length table.new ≡ length table.old }
    ensures mirrors { IsOk result → Mirrors (F.image flash.now) table.new }
    ensures fits { IsOk result ↔ (ids_below (settings_of (F.image flash.now)) (2 ^ 16) ≤ length table.old) }
{
    let mut from = 0;
    let mut at = 0;
    while at < table.len() {
        let entry = entry_from(settings, flash, from);
        from = end_of(&entry);
        table[at] = entry;
        at += 1;
    }
    match entry_from(settings, flash, from).value {
        Some(_) => Err(TableTooSmall),
        None => Ok(()),
    }
}

/// The first id from one on that has a value, with it, or a free entry.
fn entry_from<F: NorFlash>(settings: &Settings, flash: &F, from: u32) -> Change
    requires small { from ≤ 2 ^ 16 }
    requires refines { Refines (F.image flash.now) settings.now }
    ensures { IsEntry (settings_of (F.image flash.now)) from result }
{
    if from < IDS {
        if let Some(change) = settings.next_from(flash, from) {
            return change;
        }
    }
    FREE_ENTRY
}

/// The id after that of an entry, and 65,536 after a free one.
fn end_of(entry: &Change) -> u32
    ensures { result ≡ end_of entry.now }
{
    match &entry.value {
        Some(_) => u32::from(entry.id) + 1,
        None => IDS,
    }
}

/// Gives a table the value that an id has now, where it has those of all others: after a change of that
/// id, the table has all values again. The words of the page are read once. `TableTooSmall` where the
/// id has a value and no entry is free for it.
pub fn refresh_table<F: NorFlash>(
    settings: &Settings,
    flash: &F,
    table: &mut [Change],
    id: u16,
) -> Result<(), TableTooSmall>
    requires refines { Refines (F.image flash.now) settings.now }
    requires others { MirrorsBut (F.image flash.now) id table.old }
    ensures length { length table.new ≡ length table.old }
    ensures others { MirrorsBut (F.image flash.now) id table.new }
    ensures mirrors { IsOk result → Mirrors (F.image flash.now) table.new }
    ensures too_small { IsErr result → IsSome (settings_of (F.image flash.now) id) × (kept table.new id ≡ None) × All (λ entry. IsSome entry.value) table.new }
{
    forget(table, id);
    match settings.get(flash, id) {
        Some(value) => put(
            table,
            Change {
                id,
                value: Some(value),
            },
        ),
        None => Ok(()),
    }
}

/// Takes an id out of a table.
fn forget(table: &mut [Change], id: u16)
    ensures length { length table.new ≡ length table.old }
    ensures forgotten { kept table.new id ≡ None }
    ensures others { (other : ℕ) → other ≢ id → kept table.new other ≡ kept table.old other }
{
    let mut at = 0;
    while at < table.len() {
        if table[at].id == id {
            table[at] = FREE_ENTRY;
        }
        at += 1;
    }
}

/// Puts a value into a table that has none of its id.
fn put(table: &mut [Change], change: Change) -> Result<(), TableTooSmall>
    requires some { IsSome change.value }
    requires absent { kept table.old change.id ≡ None }
    ensures length { length table.new ≡ length table.old }
    ensures own { IsOk result → kept table.new change.id ≡ change.value }
    ensures others { (other : ℕ) → other ≢ change.id → kept table.new other ≡ kept table.old other }
    ensures too_small { IsErr result → (table.new ≡ table.old) × All (λ entry. IsSome entry.value) table.new }
{
    match free_place(table) {
        Some(at) => {
            table[at] = change;
            Ok(())
        }
        None => Err(TableTooSmall),
    }
}

/// The first entry without a value.
fn free_place(table: &[Change]) -> Option<usize>
    ensures { MatchOption result (All (λ entry. IsSome entry.value) table.now) (λ at. IsFree table.now at) }
{
    let mut at = 0;
    while at < table.len() {
        if table[at].value.is_none() {
            return Some(at);
        }
        at += 1;
    }
    None
}
