//! What is known of the places of one Array while usages are put into it.

ghost use Rattle.std.specs.Prelude.{List, ℕ, ◌≡◌, ◌≤◌, length, true, Some, None, IfOk};
ghost use Rattle.descriptor_parse.specs.Descriptor.{usage_list};
ghost use Rattle.host_extract.specs.representation.Fits.{FitsReading};
ghost use Rattle.report_write.specs.representation.Hints.{least_of};
ghost use Rattle.report_write.specs.representation.Known.{IsKnown, AreNoted};

use crate::hints::{FEW, note, table};
use crate::kept::Kept;
use descriptor_parse::FieldUsages;
use field_values::read_place;
use std::alloc::{AllocError, Global};

/// What is known of the places of an Array.
#[derive(Drop)]
pub(crate) struct Known {
    /// The number of its field, if one is known.
    pub(crate) field: Option<usize>,
    /// No place before this one is free.
    pub(crate) free: u16,
    /// A table: at most the place that names a usage.
    pub(crate) named: Vec<u32>,
}

/// Nothing is known yet. There is a table where there are many settings.
pub(crate) fn known_for(alloc: Global, kept: &[Kept], settings: usize) -> Result<Known, AllocError>
    ensures { IfOk result (λ known. known.field ≡ None) }
{
    let named = table(
        alloc,
        if settings <= FEW {
            0
        } else {
            most_places(kept)
        },
    )?;
    Ok(Known {
        field: None,
        free: 0,
        named,
    })
}

/// Four slots for each place of the longest Array.
fn most_places(kept: &[Kept]) -> usize {
    let mut most: u16 = 0;
    for number in 0..kept.len() {
        if kept[number].field.array {
            most = most.max(kept[number].field.count);
        }
    }
    most as usize * 4
}

/// Learns which usages the places of an Array name, where they are not known.
pub(crate) fn know(
    known: &mut Known,
    field: usize,
    declared: &FieldUsages<'_>,
    bytes: &[u8],
    marks: &[u8],
)
    requires reading { FitsReading declared.now.field }
    requires known { known.old.field ≡ Some field → IsKnown declared.now.field (usage_list declared.now.ranges.now) bytes.now marks.now known.old.free known.old.named.items }
    ensures field { known.new.field ≡ Some field }
    ensures known { IsKnown declared.now.field (usage_list declared.now.ranges.now) bytes.now marks.now known.new.free known.new.named.items }
{
    if is_known(known, field) {
        return;
    }
    known.field = Some(field);
    known.free = 0;
    learn(&mut known.named, declared, bytes);
}

/// Whether the places of a field are known.
fn is_known(known: &Known, field: usize) -> bool
    ensures { result ≡ true → known.now.field ≡ Some field }
{
    match known.field {
        Some(number) => number == field,
        None => false,
    }
}

/// Notes which usages the places of an Array name, if there is a table.
fn learn(slots: &mut [u32], declared: &FieldUsages<'_>, bytes: &[u8])
    requires { FitsReading declared.now.field }
    ensures { AreNoted declared.now.field (usage_list declared.now.ranges.now) bytes.now declared.now.field.count slots.new }
{
    if slots.len() < 3 {
        return;
    }
    clear(slots);
    for place in 0..declared.field.count {
        if let Some(usage) = read_place(declared, false, bytes, place).usage {
            note_if(slots, usage, place);
        }
    }
}

/// Leaves nothing noted.
fn clear(slots: &mut [u32]) {
    for slot in 0..slots.len() {
        slots[slot] = u32::MAX;
    }
}

/// Notes the place of a usage, if there is a table.
pub(crate) fn note_if(slots: &mut [u32], usage: u32, place: u16)
    ensures length { length slots.new ≡ length slots.old }
    ensures fell { (u : ℕ) → least_of slots.new u ≤ least_of slots.old u }
    ensures noted { least_of slots.new usage ≤ place }
{
    if slots.len() >= 3 {
        note(slots, usage, place as u32);
    }
}
