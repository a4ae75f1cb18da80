//! What a place of a field holds.

ghost use Rattle.std.specs.Prelude.{◌≡◌, ◌<◌, ◌≤◌};
ghost use Rattle.descriptor_parse.specs.Descriptor.{usage_list};
ghost use Rattle.host_extract.specs.representation.Fits.{FitsReading};
ghost use Rattle.host_extract.specs.Found.{value_at};
ghost use Rattle.field_values.specs.Values.{where_is, usage_read, listed};

use crate::place::is_within;
use descriptor_parse::{Field, FieldUsages};
use host_extract::value_at;

/// Where a value is, by the logical extents of its field (HID 1.11, 5.10 and 6.2.2.5).
#[derive(Clone, Copy, Debug, PartialEq, Eq)]
pub enum Within {
    /// Within them.
    Range,
    /// Outside, in a Variable field with Null State: the control has no value.
    Null,
    /// Outside, in any other field.
    Out,
}

/// What a place of a field holds.
#[derive(Clone, Copy, Debug, PartialEq, Eq)]
pub struct PlaceValue {
    /// The number in the bits, in two's complement where the Logical Minimum is negative.
    pub raw: i64,
    /// Where it is, by the logical extents.
    pub within: Within,
    /// Of a Variable field the usage of the place; of an Array the usage that the value names. `None` where there is none.
    pub usage: Option<u32>,
}

/// Reads a place of a field, in the bytes of a report after its ID; bits past their end are 0. `null_state` is whether
/// the item of the field has Null State.
pub fn read_place(
    declared: &FieldUsages<'_>,
    null_state: bool,
    bytes: &[u8],
    place: u16,
) -> PlaceValue
    requires fits { FitsReading declared.now.field }
    requires within { place < declared.now.field.count }
    ensures raw { result.raw ≡ value_at declared.now.field bytes.now place }
    ensures within { result.within ≡ where_is declared.now.field null_state result.raw }
    ensures usage { result.usage ≡ usage_read declared.now.field (usage_list declared.now.ranges.now) place result.raw }
{
    let raw = raw_at(&declared.field, bytes, place);
    let within = where_is(&declared.field, null_state, raw);
    let usage = usage_of(declared, place, raw);
    PlaceValue { raw, within, usage }
}

/// The number in the bits of a place, in two's complement where the Logical Minimum is negative (HID 1.11, 5.8).
pub fn raw_at(field: &Field, bytes: &[u8], place: u16) -> i64
    requires fits { FitsReading field.now }
    requires within { place < field.now.count }
    ensures { result ≡ value_at field.now bytes.now place }
{
    value_at(field, bytes, place)
}

/// Where a value of a field is.
pub fn where_is(field: &Field, null_state: bool, value: i64) -> Within
    ensures { result ≡ where_is field.now null_state value }
{
    if is_within(field, value) {
        Within::Range
    } else if null_state && !field.array {
        Within::Null
    } else {
        Within::Out
    }
}

/// The usage of a place with this value: of a Variable field that of the place, of an Array the one that the value names.
pub fn usage_of(declared: &FieldUsages<'_>, place: u16, value: i64) -> Option<u32>
    ensures { result ≡ usage_read declared.now.field (usage_list declared.now.ranges.now) place value }
{
    if !declared.field.array {
        declared.usage(place as usize)
    } else {
        listed(declared, value)
    }
}

/// The usage that a value of an Array names.
pub(crate) fn listed(declared: &FieldUsages<'_>, value: i64) -> Option<u32>
    ensures { result ≡ listed declared.now.field (usage_list declared.now.ranges.now) value }
{
    if is_within(&declared.field, value) {
        declared.nth(value.abs_diff(declared.field.min) as usize)
    } else {
        None
    }
}
