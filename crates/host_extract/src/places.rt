//! The places of one field.

ghost use Rattle.std.specs.Prelude.{◌≡◌, ◌<◌, ◌++◌, ◌||◌, if◌then◌else◌, int_lt, pos, slice_get, None, true, false, OnOk};
ghost use Rattle.std.specs.Int.{int_gap};
ghost use Rattle.descriptor_parse.specs.Descriptor.{usage_list};
ghost use Rattle.host_extract.specs.Found.{named, in_array, readings_of, value_at};
ghost use Rattle.host_extract.specs.representation.Fits.{FitsReading};

use crate::number::{byte_or_number_at, number_at, value_under};
use crate::reading::Found;
use descriptor_parse::{Field, FieldUsages};
use std::alloc::AllocError;

/// Reads the places of a field, in order.
pub(crate) fn read_field(
    out: &mut Vec<Found>,
    declared: &FieldUsages<'_>,
    bytes: &[u8],
) -> Result<(), AllocError>
    requires { FitsReading declared.now.field }
    ensures { OnOk result (out.new.items ≡ out.old.items ++ readings_of declared.now.field (usage_list declared.now.ranges.now) bytes.now declared.now.field.count) }
{
    if declared.field.array {
        read_array(out, declared, bytes)
    } else {
        read_variable(out, declared, bytes)
    }
}

/// Reads a variable field: each place has a usage of its own, and the last usage serves the places that are left.
// Not inlined, so that its loop has the registers to itself: 46 instructions a place instead of 67.
#[inline(never)]
fn read_variable(
    out: &mut Vec<Found>,
    declared: &FieldUsages<'_>,
    bytes: &[u8],
) -> Result<(), AllocError>
    requires fits { FitsReading declared.now.field }
    requires variable { declared.now.field.array ≡ false }
    ensures { OnOk result (out.new.items ≡ out.old.items ++ readings_of declared.now.field (usage_list declared.now.ranges.now) bytes.now declared.now.field.count) }
{
    let field = &declared.field;
    let mut usages = declared.usages();
    let mut serving = None;
    for place in 0..field.count {
        serving = usages.next().or(serving);
        let value = value_at(field, bytes, place);
        push_named(out, serving, value)?;
    }
    Ok(())
}

/// Reads an array: each place names by its value a usage of the list, or none.
#[inline(never)]
fn read_array(
    out: &mut Vec<Found>,
    declared: &FieldUsages<'_>,
    bytes: &[u8],
) -> Result<(), AllocError>
    requires fits { FitsReading declared.now.field }
    requires array { declared.now.field.array ≡ true }
    ensures { OnOk result (out.new.items ≡ out.old.items ++ readings_of declared.now.field (usage_list declared.now.ranges.now) bytes.now declared.now.field.count) }
{
    let field = &declared.field;
    for place in 0..field.count {
        let value = value_in_array(field, bytes, place);
        let usage = usage_by_value(declared, value);
        push_named(out, usage, 1)?;
    }
    Ok(())
}

/// The usage that a value of an array names, if it is within the logical extents and the list has so many.
#[inline(always)]
fn usage_by_value(declared: &FieldUsages<'_>, value: i64) -> Option<u32>
    ensures usage { result ≡ (if int_lt value declared.now.field.min || int_lt declared.now.field.max value then None else slice_get (usage_list declared.now.ranges.now) (int_gap declared.now.field.min value)) }
    ensures reads { named result (pos 1) ≡ in_array declared.now.field (usage_list declared.now.ranges.now) value }
{
    let field = &declared.field;
    if value < field.min || value > field.max {
        return None;
    }
    declared.nth(value.abs_diff(field.min) as usize)
}

/// As `value_at`, sooner where each place is a byte, as in most arrays.
#[inline(always)]
fn value_in_array(field: &Field, bytes: &[u8], place: u16) -> i64
    requires fits { FitsReading field.now }
    requires within { place < field.now.count }
    ensures { result ≡ value_at field.now bytes.now place }
{
    let bit = field.bit + field.size as u64 * place as u64;
    let number = byte_or_number_at(bytes, bit, field.size);
    value_under(field.min, field.size, number)
}

/// The value of a place: the number in its bits, in two's complement where the Logical Minimum is negative (HID 1.11, 5.8).
#[inline(always)]
pub fn value_at(field: &Field, bytes: &[u8], place: u16) -> i64
    requires fits { FitsReading field.now }
    requires within { place < field.now.count }
    ensures { result ≡ value_at field.now bytes.now place }
{
    let bit = field.bit + field.size as u64 * place as u64;
    let number = number_at(bytes, bit, field.size);
    value_under(field.min, field.size, number)
}

/// Adds what a usage with a value is read as: none if there is no usage, or one whose low half is 0.
fn push_named(out: &mut Vec<Found>, usage: Option<u32>, value: i64) -> Result<(), AllocError>
    ensures { OnOk result (out.new.items ≡ out.old.items ++ named usage value) }
{
    match usage {
        Some(usage) if usage % 0x1_0000 != 0 => {
            out.push(Found { usage, value })?;
            Ok(())
        }
        Some(_) | None => Ok(()),
    }
}
