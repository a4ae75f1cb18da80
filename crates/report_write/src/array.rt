//! Usages of Arrays that are set. `marks` stands beside the bytes of a report: a bit of it is on where a place begins that an
//! earlier setting has set. `number` is the setting's.

ghost use Rattle.std.specs.Prelude.{ℕ, ◌≡◌, ◌*◌, ◌<◌, ◌≤◌, ◌&&◌, min, length, true, false, None, Some, IfSome, IfOk, IfErr, is_some};
ghost use Rattle.descriptor_parse.specs.Descriptor.{ranges_at, usage_list};
ghost use Rattle.host_extract.specs.representation.Fits.{FitsReading};
ghost use Rattle.field_values.specs.Held.{is_held};
ghost use Rattle.report_write.specs.representation.Fits.{FitsKept, FitsRoom};
ghost use Rattle.report_write.specs.representation.Hints.{IsFrom, least_of};
ghost use Rattle.report_write.specs.representation.Known.{IsKnown, IsStillKnown};
ghost use Rattle.report_write.specs.Firsts.{first};
ghost use Rattle.report_write.specs.Controls.{number_of};
ghost use Rattle.report_write.specs.Unused.{unused};
ghost use Rattle.report_write.specs.Puts.{is_set, ArePut};
ghost use Rattle.report_write.specs.Arrays.{names, is_free, place_for, on_refusal, off_refusal, usage_refusal, IsOn, IsOff};
ghost use Rattle.report_write.specs.Settings.{IsUsageSet};

use crate::control::is_usage;
use crate::hints::least_of;
use crate::kept::{Kept, usages_of};
use crate::known::{Known, note_if};
use crate::place::{is_set, mark, put_one};
use crate::setting::WriteError;
use crate::unused::unused;
use descriptor_parse::{Descriptor, FieldUsages};
use field_values::{Asked, is_held, is_no_control, number_of_usage_from, read_place};

/// Puts a usage into an Array, or takes it out. No range of the Array before `from` has it.
pub(crate) fn set_usage(
    descriptor: &Descriptor,
    kept: &Kept,
    known: &mut Known,
    from: usize,
    usage: u32,
    asked: Asked,
    number: usize,
    bytes: &mut [u8],
    marks: &mut [u8],
) -> Result<(), WriteError>
    requires fits { FitsKept descriptor.now (8 * length bytes.old) kept.now }
    requires array { kept.now.field.array ≡ true }
    requires beside { length marks.old ≡ length bytes.old }
    requires from { IsFrom (ranges_at descriptor.now kept.now.number) usage from }
    requires known { IsKnown kept.now.field (usage_list (ranges_at descriptor.now kept.now.number)) bytes.old marks.old known.old.free known.old.named.items }
    ensures known { IfOk result (λ _. IsStillKnown kept.now.field (usage_list (ranges_at descriptor.now kept.now.number)) bytes.new marks.new known.old.field known.new.field known.new.free known.new.named.items) }
    ensures taken { IfOk result (λ _. usage_refusal kept.now.field (usage_list (ranges_at descriptor.now kept.now.number)) bytes.old marks.old usage number asked ≡ None) }
    ensures refused { IfErr result (λ e. usage_refusal kept.now.field (usage_list (ranges_at descriptor.now kept.now.number)) bytes.old marks.old usage number asked ≡ Some e) }
    ensures set { IfOk result (λ _. IsUsageSet descriptor.now kept.now usage asked bytes.old bytes.new marks.old marks.new) }
    ensures long { IfOk result (λ _. length bytes.new ≡ length bytes.old) }
    ensures marks { IfOk result (λ _. length marks.new ≡ length marks.old) }
{
    let declared = usages_of(descriptor, kept);
    match asked {
        Asked::Null => Err(WriteError::NoNull(number)),
        Asked::Value(value) => {
            if value == 0 {
                take_out(&declared, known, usage, number, bytes, marks)
            } else if value == 1 {
                put_in(&declared, known, from, usage, number, bytes, marks)
            } else {
                Err(WriteError::OutOfRange(number))
            }
        }
    }
}

/// Puts a usage into the place that names it already, or else into the first that is free.
fn put_in(
    declared: &FieldUsages<'_>,
    known: &mut Known,
    from: usize,
    usage: u32,
    number: usize,
    bytes: &mut [u8],
    marks: &mut [u8],
) -> Result<(), WriteError>
    requires fits { FitsRoom (8 * length bytes.old) declared.now.field declared.now.ranges.now }
    requires beside { length marks.old ≡ length bytes.old }
    requires array { declared.now.field.array ≡ true }
    requires from { IsFrom declared.now.ranges.now usage from }
    requires known { IsKnown declared.now.field (usage_list declared.now.ranges.now) bytes.old marks.old known.old.free known.old.named.items }
    ensures field { known.new.field ≡ known.old.field }
    ensures known { IfOk result (λ _. IsKnown declared.now.field (usage_list declared.now.ranges.now) bytes.new marks.new known.new.free known.new.named.items) }
    ensures taken { IfOk result (λ _. on_refusal declared.now.field (usage_list declared.now.ranges.now) bytes.old marks.old usage number (number_of (usage_list declared.now.ranges.now) usage) ≡ None) }
    ensures refused { IfErr result (λ e. on_refusal declared.now.field (usage_list declared.now.ranges.now) bytes.old marks.old usage number (number_of (usage_list declared.now.ranges.now) usage) ≡ Some e) }
    ensures set { IfOk result (λ _. IsOn declared.now.field (usage_list declared.now.ranges.now) usage bytes.old bytes.new marks.old marks.new) }
{
    let value = match number_of_usage_from(declared, from, usage) {
        None => return Err(WriteError::Unknown(number)),
        Some(listed) => declared.field.min + listed as i64,
    };
    if !is_held(declared.field.min, declared.field.size, value) {
        return Err(WriteError::TooLarge(number));
    }
    if value > declared.field.max {
        return Err(WriteError::OutOfRange(number));
    }
    let place = match place_for(declared, known, bytes, marks, usage) {
        None => return Err(WriteError::NoRoom(number)),
        Some(place) => place,
    };
    if is_set(&declared.field, marks, place) {
        return Err(WriteError::Twice(number));
    }
    put_one(&declared.field, place, value, bytes);
    mark(&declared.field, marks, place);
    note_if(&mut known.named, usage, place);
    Ok(())
}

/// The first place that names a usage, or else the first that is free.
fn place_for(
    declared: &FieldUsages<'_>,
    known: &mut Known,
    bytes: &[u8],
    marks: &[u8],
    usage: u32,
) -> Option<u16>
    requires fits { FitsReading declared.now.field }
    requires known { IsKnown declared.now.field (usage_list declared.now.ranges.now) bytes.now marks.now known.old.free known.old.named.items }
    ensures field { known.new.field ≡ known.old.field }
    ensures known { IsKnown declared.now.field (usage_list declared.now.ranges.now) bytes.now marks.now known.new.free known.new.named.items }
    ensures place { result ≡ place_for declared.now.field (usage_list declared.now.ranges.now) bytes.now marks.now usage }
    ensures within { IfSome result (λ place. place < declared.now.field.count) }
{
    match first_named(declared, bytes, usage, least_of(&known.named, usage)) {
        Some(place) => Some(place),
        None => {
            let found = first_free(declared, bytes, marks, known.free);
            if let Some(place) = found {
                known.free = place;
            }
            found
        }
    }
}

/// The first place that names a usage. None before `from` does.
fn first_named(declared: &FieldUsages<'_>, bytes: &[u8], usage: u32, from: usize) -> Option<u16>
    requires fits { FitsReading declared.now.field }
    requires from { (place : ℕ) → place < declared.now.field.count → names declared.now.field (usage_list declared.now.ranges.now) bytes.now usage place ≡ true → from ≤ place }
    ensures place { result ≡ first (names declared.now.field (usage_list declared.now.ranges.now) bytes.now usage) declared.now.field.count }
    ensures within { IfSome result (λ place. place < declared.now.field.count) }
{
    for place in at_most(from, declared.field.count)..declared.field.count {
        if is_named(declared, bytes, usage, place) {
            return Some(place);
        }
    }
    None
}

/// A number, or the number of places, if that is less.
fn at_most(number: usize, count: u16) -> u16
    ensures { result ≡ min number count }
{
    if number < count as usize {
        number as u16
    } else {
        count
    }
}

/// The first place that is free. None before `from` is.
fn first_free(declared: &FieldUsages<'_>, bytes: &[u8], marks: &[u8], from: u16) -> Option<u16>
    requires fits { FitsReading declared.now.field }
    requires from { (place : ℕ) → place < from → place < declared.now.field.count → is_free declared.now.field (usage_list declared.now.ranges.now) bytes.now marks.now place ≡ false }
    ensures place { result ≡ first (is_free declared.now.field (usage_list declared.now.ranges.now) bytes.now marks.now) declared.now.field.count }
    ensures before { IfSome result (λ place. first (is_free declared.now.field (usage_list declared.now.ranges.now) bytes.now marks.now) place ≡ None) }
    ensures within { IfSome result (λ place. place < declared.now.field.count) }
{
    for place in from.min(declared.field.count)..declared.field.count {
        if is_free(declared, bytes, marks, place) {
            return Some(place);
        }
    }
    None
}

/// Whether a place names a usage.
fn is_named(declared: &FieldUsages<'_>, bytes: &[u8], usage: u32, place: u16) -> bool
    requires fits { FitsReading declared.now.field }
    requires within { place < declared.now.field.count }
    ensures { result ≡ names declared.now.field (usage_list declared.now.ranges.now) bytes.now usage place }
{
    is_usage(read_place(declared, false, bytes, place).usage, usage)
}

/// Whether a place names no usage, or one whose low half is 0, and no setting has set it.
fn is_free(declared: &FieldUsages<'_>, bytes: &[u8], marks: &[u8], place: u16) -> bool
    requires fits { FitsReading declared.now.field }
    requires within { place < declared.now.field.count }
    ensures { result ≡ is_free declared.now.field (usage_list declared.now.ranges.now) bytes.now marks.now place }
{
    !is_set(&declared.field, marks, place)
        && is_no_control(read_place(declared, false, bytes, place).usage)
}

/// Takes a usage out of each place that names it.
fn take_out(
    declared: &FieldUsages<'_>,
    known: &mut Known,
    usage: u32,
    number: usize,
    bytes: &mut [u8],
    marks: &mut [u8],
) -> Result<(), WriteError>
    requires fits { FitsRoom (8 * length bytes.old) declared.now.field declared.now.ranges.now }
    requires array { declared.now.field.array ≡ true }
    ensures field { known.new.field ≡ None }
    ensures taken { IfOk result (λ _. off_refusal declared.now.field (usage_list declared.now.ranges.now) bytes.old marks.old usage number (unused declared.now.field (usage_list declared.now.ranges.now)) ≡ None) }
    ensures refused { IfErr result (λ e. off_refusal declared.now.field (usage_list declared.now.ranges.now) bytes.old marks.old usage number (unused declared.now.field (usage_list declared.now.ranges.now)) ≡ Some e) }
    ensures set { IfOk result (λ _. IsOff declared.now.field (usage_list declared.now.ranges.now) usage bytes.old bytes.new marks.old marks.new) }
{
    known.field = None;
    let value = match unused(declared) {
        None => return Err(WriteError::NoRoom(number)),
        Some(value) => value,
    };
    if is_set_already(declared, usage, bytes, marks) {
        return Err(WriteError::Twice(number));
    }
    put_all(declared, usage, value, bytes);
    Ok(())
}

/// Whether a place that names a usage was set.
fn is_set_already(declared: &FieldUsages<'_>, usage: u32, bytes: &[u8], marks: &[u8]) -> bool
    requires { FitsReading declared.now.field }
    ensures { result ≡ is_some (first (λ place. names declared.now.field (usage_list declared.now.ranges.now) bytes.now usage place && is_set declared.now.field marks.now place) declared.now.field.count) }
{
    for place in 0..declared.field.count {
        if is_named(declared, bytes, usage, place) && is_set(&declared.field, marks, place) {
            return true;
        }
    }
    false
}

/// Writes a value into each place that names a usage.
fn put_all(declared: &FieldUsages<'_>, usage: u32, value: i64, bytes: &mut [u8])
    requires fits { FitsRoom (8 * length bytes.old) declared.now.field declared.now.ranges.now }
    requires held { is_held declared.now.field.min declared.now.field.size value ≡ true }
    ensures { ArePut declared.now.field (names declared.now.field (usage_list declared.now.ranges.now) bytes.old usage) value bytes.old bytes.new }
{
    for place in 0..declared.field.count {
        if is_named(declared, bytes, usage, place) {
            put_one(&declared.field, place, value, bytes);
        }
    }
}
