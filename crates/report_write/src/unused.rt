//! The value by which a place of an Array says that it names no usage.

ghost use Rattle.std.specs.Prelude.{ℕ, ℤ, ◌≡◌, ◌≤◌, false, None, length, take, pos, ◌+ℤ◌};
ghost use Rattle.descriptor_parse.specs.Descriptor.{usage_list};
ghost use Rattle.field_values.specs.Lists.{is_unused};
ghost use Rattle.report_write.specs.Unused.{unused, id_zero};
ghost use Rattle.report_write.specs.representation.Fits.{FitsRoom};

use descriptor_parse::FieldUsages;
use field_values::{is_unused, null_of};

/// The value that is written where a place of an Array is to name no usage: 0 where it names none, else one outside the
/// logical extents, past the list, or of a usage whose low half is 0.
pub(crate) fn unused(declared: &FieldUsages<'_>) -> Option<i64>
    requires { (room : ℕ) × FitsRoom room declared.now.field declared.now.ranges.now }
    ensures unused { result ≡ unused declared.now.field (usage_list declared.now.ranges.now) }
    ensures none { result ≡ None → (value : ℤ) → is_unused declared.now.field (usage_list declared.now.ranges.now) value ≡ false }
{
    if is_unused(declared, 0) {
        return Some(0);
    }
    if let Some(value) = null_of(&declared.field) {
        return Some(value);
    }
    let past = past_list(declared);
    if is_unused(declared, past) {
        return Some(past);
    }
    id_zero(declared)
}

/// The value past the list.
fn past_list(declared: &FieldUsages<'_>) -> i64
    requires { (room : ℕ) × FitsRoom room declared.now.field declared.now.ranges.now }
    ensures { result ≡ declared.now.field.min +ℤ pos (length (usage_list declared.now.ranges.now)) }
{
    declared.field.min + first_place(declared, declared.ranges.len()) as i64
}

/// The first value in the order of the list that names a usage whose low half is 0.
fn id_zero(declared: &FieldUsages<'_>) -> Option<i64>
    requires { (room : ℕ) × FitsRoom room declared.now.field declared.now.ranges.now }
    ensures { result ≡ id_zero declared.now.field (usage_list declared.now.ranges.now) }
{
    for range in 0..declared.ranges.len() {
        if declared.ranges[range].0 % 0x1_0000 == 0 {
            let value = declared.field.min + first_place(declared, range) as i64;
            if is_unused(declared, value) {
                return Some(value);
            }
        }
    }
    None
}

/// How many usages stand before a range.
pub(crate) fn first_place(declared: &FieldUsages<'_>, range: usize) -> u32
    requires { range ≤ length declared.now.ranges.now }
    ensures { result ≡ length (usage_list (take range declared.now.ranges.now)) }
{
    if range == 0 {
        0
    } else {
        declared.counts[range - 1]
    }
}
