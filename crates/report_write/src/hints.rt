//! From where on a usage is looked for.
//!
//! A table has two slots for each usage, which others share, and a last one for all: each holds the least number that was noted.
//! So the greater of the two is at most the number of the usage, and nothing before it has to be looked at.

ghost use Rattle.std.specs.Prelude.{ℕ, ◌≡◌, ◌≤◌, ◌<◌, IfOk, length, slice_index_or};
ghost use Rattle.report_write.specs.representation.Hints.{least_of, AreHints, near, far};

use crate::kept::Kept;
use descriptor_parse::Descriptor;
use std::alloc::{AllocError, Global};

/// So few settings are looked for without a table.
pub(crate) const FEW: usize = 8;

/// A range of more usages than this is noted for all usages.
const WIDE: u32 = 64;

/// Tables of the fields of a report, and of the ranges in each, by usage.
#[derive(Drop)]
pub(crate) struct Hints {
    /// The least place of a field in the report.
    pub(crate) fields: Vec<u32>,
    /// The least place of a range in its field.
    pub(crate) ranges: Vec<u32>,
}

/// Tables for so many settings.
pub(crate) fn hints_of(
    alloc: Global,
    descriptor: &Descriptor,
    kept: &[Kept],
    settings: usize,
) -> Result<Hints, AllocError>
    ensures { IfOk result (λ hints. AreHints descriptor.now kept.now hints.fields.items hints.ranges.items (length kept.now)) }
{
    let size = if settings <= FEW {
        0
    } else {
        size_for(descriptor, kept)
    };
    let mut fields = table(alloc, size)?;
    let mut ranges = table(alloc, size)?;
    for number in 0..kept.len() {
        let its = descriptor.ranges(kept[number].number);
        note_field(its, number, &mut fields, &mut ranges);
    }
    Ok(Hints { fields, ranges })
}

/// How many slots a table of all ranges has.
fn size_for(descriptor: &Descriptor, kept: &[Kept]) -> usize {
    let mut count: u32 = 1;
    for number in 0..kept.len() {
        count = count.saturating_add(at_most(descriptor.ranges(kept[number].number).len()));
    }
    count.saturating_mul(4) as usize
}

/// A table of so many slots, in which nothing is noted.
pub(crate) fn table(alloc: Global, size: usize) -> Result<Vec<u32>, AllocError> {
    let mut slots = Vec::with_capacity(alloc, size)?;
    for _ in 0..size {
        slots.push(u32::MAX)?;
    }
    Ok(slots)
}

/// Notes the place of a field, and those of its ranges.
fn note_field(its: &[(u32, u32)], field: usize, fields: &mut [u32], ranges: &mut [u32])
    ensures long { length fields.new ≡ length fields.old }
    ensures length { length ranges.new ≡ length ranges.old }
    ensures fields { (usage : ℕ) → least_of fields.new usage ≤ least_of fields.old usage }
    ensures ranges { (usage : ℕ) → least_of ranges.new usage ≤ least_of ranges.old usage }
    ensures noted { (range usage : ℕ) → range < length its.now → (slice_index_or its.now range (0, 0)).0 ≤ usage → usage ≤ (slice_index_or its.now range (0, 0)).1 → (least_of fields.new usage ≤ field) × (least_of ranges.new usage ≤ range) }
{
    for range in 0..its.len() {
        let (first, last) = its[range];
        note_range(fields, first, last, field);
        note_range(ranges, first, last, range);
    }
}

/// Notes a number for each usage of a range.
fn note_range(slots: &mut [u32], first: u32, last: u32, number: usize)
    ensures length { length slots.new ≡ length slots.old }
    ensures fell { (usage : ℕ) → least_of slots.new usage ≤ least_of slots.old usage }
    ensures noted { (usage : ℕ) → first ≤ usage → usage ≤ last → least_of slots.new usage ≤ number }
{
    if slots.len() < 3 || last < first {
        return;
    }
    let least = at_most(number);
    if last - first > WIDE {
        lower(slots, slots.len() - 1, least);
        return;
    }
    for step in 0..last - first + 1 {
        note(slots, first + step, least);
    }
}

/// Notes a number for a usage.
pub(crate) fn note(slots: &mut [u32], usage: u32, number: u32)
    requires some { 3 ≤ length slots.old }
    ensures length { length slots.new ≡ length slots.old }
    ensures fell { (u : ℕ) → least_of slots.new u ≤ least_of slots.old u }
    ensures noted { least_of slots.new usage ≤ number }
{
    let one = near(usage, slots.len());
    let other = far(usage, slots.len());
    lower(slots, one, number);
    lower(slots, other, number);
}

/// Lowers a slot to a number.
fn lower(slots: &mut [u32], slot: usize, number: u32)
    requires within { slot < length slots.old }
    ensures length { length slots.new ≡ length slots.old }
    ensures fell { (place : ℕ) → slice_index_or slots.new place 0 ≤ slice_index_or slots.old place 0 }
    ensures low { slice_index_or slots.new slot 0 ≤ number }
{
    if number < slots[slot] {
        slots[slot] = number;
    }
}

/// The number that is noted of a usage, or a lower one.
pub(crate) fn least_of(slots: &[u32], usage: u32) -> usize
    ensures { result ≡ least_of slots.now usage }
{
    if slots.len() < 3 {
        return 0;
    }
    let all = slots[slots.len() - 1];
    if all == 0 {
        return 0;
    }
    let one = slots[near(usage, slots.len())];
    let other = slots[far(usage, slots.len())];
    one.max(other).min(all) as usize
}

/// The first slot of a usage.
fn near(usage: u32, len: usize) -> usize
    requires some { 3 ≤ len }
    ensures same { result ≡ near usage len }
    ensures within { result < len }
{
    usage as usize % ((len - 1) / 2)
}

/// Its second slot.
fn far(usage: u32, len: usize) -> usize
    requires some { 3 ≤ len }
    ensures same { result ≡ far usage len }
    ensures within { result < len }
{
    len - 2 - (usage / 7) as usize % ((len - 1) / 2)
}

/// A number, or the greatest of 32 bits that is not over it.
fn at_most(number: usize) -> u32
    ensures { result ≤ number }
{
    if number < u32::MAX as usize {
        number as u32
    } else {
        u32::MAX
    }
}
