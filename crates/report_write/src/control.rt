//! The control that a setting means.

ghost use Rattle.std.specs.Prelude.{ℕ, ◌≡◌, ◌==◌, ◌+◌, ◌<◌, false, All, IfSome, IfOk, IfErr, length, slice_get, find, Some};
ghost use Rattle.descriptor_parse.specs.Descriptor.{usage_list};
ghost use Rattle.report_write.specs.Controls.{is_usage, places_with, controls_in, controls, control_of, place_in};
ghost use Rattle.report_write.specs.representation.Fits.{FitsKept, FitsControl};
ghost use Rattle.report_write.specs.representation.Hints.{AreHints, AreFrom, IsFrom};
ghost use Rattle.report_write.specs.representation.Known.{IsOfReport};
ghost use Rattle.report_write.specs.representation.Walks.{IsPlaceOf, AreServed};

use crate::hints::{Hints, least_of};
use crate::kept::{Kept, usages_of};
use crate::setting::Target;
use crate::unused::first_place;
use descriptor_parse::{Descriptor, FieldUsages};
use field_values::number_of_usage_from;

/// A control of a report.
#[derive(Clone, Copy, Debug, PartialEq, Eq)]
pub enum Control {
    /// A place of a field.
    Place(Kept, u16),
    /// A usage of an Array.
    Usage(Kept, u32),
}

/// The control that is meant; `None` where the report does not have it.
pub fn control_of(descriptor: &Descriptor, kept: &[Kept], target: Target) -> Option<Control>
    ensures control { result ≡ control_of descriptor.now kept.now target }
    ensures fits { (room : ℕ) → All (FitsKept descriptor.now room) kept.now → IfSome result (λ c. FitsControl descriptor.now room c) }
{
    match target {
        Target::Usage { usage, place } => control_with(descriptor, kept, usage, place, (0, 0)),
        Target::Field { field, place } => place_of(kept, field, place),
    }
}

/// The same, by tables.
pub(crate) fn control_by(
    descriptor: &Descriptor,
    kept: &[Kept],
    hints: &Hints,
    target: Target,
) -> Option<Control>
    requires hints { AreHints descriptor.now kept.now hints.now.fields.items hints.now.ranges.items (length kept.now) }
    ensures control { result ≡ control_of descriptor.now kept.now target }
    ensures its { IfSome result (λ c. IsOfReport descriptor.now kept.now hints.now.ranges.items c) }
    ensures fits { (room : ℕ) → All (FitsKept descriptor.now room) kept.now → IfSome result (λ c. FitsControl descriptor.now room c) }
{
    match target {
        Target::Usage { usage, place } => {
            let from = (
                least_of(&hints.fields, usage),
                least_of(&hints.ranges, usage),
            );
            control_with(descriptor, kept, usage, place, from)
        }
        Target::Field { field, place } => place_of(kept, field, place),
    }
}

/// The control with this number among those that have a usage. `from` is a field and a range in it: none before has it.
fn control_with(
    descriptor: &Descriptor,
    kept: &[Kept],
    usage: u32,
    place: usize,
    from: (usize, usize),
) -> Option<Control>
    requires { AreFrom descriptor.now kept.now usage from.0 from.1 }
    ensures { result ≡ slice_get (controls descriptor.now usage kept.now) place }
{
    let mut left = place;
    for number in from.0..kept.len() {
        let declared = usages_of(descriptor, &kept[number]);
        match control_in(&kept[number], &declared, usage, left, from.1) {
            Ok(control) => return Some(control),
            Err(past) => left = past,
        }
    }
    None
}

/// The control of a field with this number among those that have a usage, or else the number without them.
fn control_in(
    kept: &Kept,
    declared: &FieldUsages<'_>,
    usage: u32,
    number: usize,
    from: usize,
) -> Result<Control, usize>
    requires same { declared.now.field ≡ kept.now.field }
    requires before { IsFrom declared.now.ranges.now usage from }
    ensures here { IfOk result (λ control. slice_get (controls_in (usage_list declared.now.ranges.now) usage kept.now) number ≡ Some control) }
    ensures past { IfErr result (λ left. length (controls_in (usage_list declared.now.ranges.now) usage kept.now) + left ≡ number) }
{
    if declared.field.array {
        if !number_of_usage_from(declared, from, usage).is_some() {
            Err(number)
        } else if number == 0 {
            Ok(Control::Usage(*kept, usage))
        } else {
            Err(number - 1)
        }
    } else {
        match place_with(declared, usage, number, from) {
            Ok(place) => Ok(Control::Place(*kept, place)),
            Err(left) => Err(left),
        }
    }
}

/// The place of a Variable field with this number among those that have a usage, or else the number without them.
fn place_with(
    declared: &FieldUsages<'_>,
    usage: u32,
    number: usize,
    from: usize,
) -> Result<u16, usize>
    requires variable { declared.now.field.array ≡ false }
    requires before { IsFrom declared.now.ranges.now usage from }
    ensures here { IfOk result (λ place. slice_get (places_with declared.now.field (usage_list declared.now.ranges.now) usage declared.now.field.count) number ≡ Some place) }
    ensures past { IfErr result (λ left. length (places_with declared.now.field (usage_list declared.now.ranges.now) usage declared.now.field.count) + left ≡ number) }
{
    let mut left = number;
    for range in from.min(declared.ranges.len())..declared.ranges.len() {
        if let Some(place) = place_in_range(declared, range, usage) {
            if left == 0 {
                return Ok(place);
            }
            left -= 1;
        }
    }
    let served = served_by_last(declared, usage);
    if left < served as usize {
        Ok(declared.field.count - (served - left as u16))
    } else {
        Err(left - served as usize)
    }
}

/// The place to which a range gives a usage.
fn place_in_range(declared: &FieldUsages<'_>, range: usize, usage: u32) -> Option<u16>
    requires { range < length declared.now.ranges.now }
    ensures { IsPlaceOf declared.now.field declared.now.ranges.now range usage result }
{
    let (first, last) = declared.ranges[range];
    if usage < first || last < usage {
        return None;
    }
    let place = first_place(declared, range) as u64 + (usage - first) as u64;
    if place < declared.field.count as u64 {
        Some(place as u16)
    } else {
        None
    }
}

/// How many places past the list have a usage by its last one: all or none.
fn served_by_last(declared: &FieldUsages<'_>, usage: u32) -> u16
    requires { declared.now.field.array ≡ false }
    ensures { AreServed declared.now.field (usage_list declared.now.ranges.now) usage result }
{
    let listed = first_place(declared, declared.ranges.len());
    if listed < declared.field.count as u32 && is_usage(declared.usage(listed as usize), usage) {
        declared.field.count - listed as u16
    } else {
        0
    }
}

/// Whether something is this usage.
pub(crate) fn is_usage(found: Option<u32>, usage: u32) -> bool
    ensures { result ≡ is_usage usage found }
{
    match found {
        Some(other) => other == usage,
        None => false,
    }
}

/// A place of a field of a report.
fn place_of(kept: &[Kept], field: usize, place: usize) -> Option<Control>
    ensures { result ≡ place_in place (find (λ k. k.number == field) kept.now) }
{
    for number in 0..kept.len() {
        if kept[number].number == field {
            return place_in(&kept[number], place);
        }
    }
    None
}

/// A place of a field.
fn place_in(kept: &Kept, place: usize) -> Option<Control>
    ensures { result ≡ place_in place (Some kept.now) }
{
    if place < kept.field.count as usize {
        Some(Control::Place(*kept, place as u16))
    } else {
        None
    }
}
