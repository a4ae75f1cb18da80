//! What is kept of a field, so that a value of it takes few steps.

ghost use Rattle.std.specs.Prelude.{◌≡◌, ◌+◌, ◌^◌, ◌<◌, ◌≤◌, ℕ, [], ◌∷◌, All, min, slice_get, slice_index};
ghost use Rattle.descriptor_parse.specs.Descriptor.{ranges_at, usage_list};
ghost use Rattle.descriptor_parse.specs.WellFormed.{IsRange};
ghost use Rattle.host_extract.specs.representation.Fits.{FitsReading};
ghost use Rattle.host_extract.specs.Found.{value_at};
ghost use Rattle.field_values.specs.Held.{is_within};
ghost use Rattle.field_values.specs.Values.{where_is, usage_read};
ghost use Rattle.report_write.specs.representation.Fits.{FitsKept};
ghost use Rattle.report_read.specs.Values.{value_of};
ghost use Rattle.report_read.specs.representation.Lanes.{IsLane, IsForm, IsWay};

use crate::value::Value;
use descriptor_parse::{Descriptor, Field};
use field_values::{Within, is_within, usage_of};
use host_extract::{byte_at, number_at, value_at};
use report_write::{Kept, usages_of};

/// How the values of a field lie in a report.
#[derive(Clone, Copy, Debug, PartialEq, Eq)]
pub enum Form {
    /// Each is a bit, without a sign.
    Bit,
    /// Each is a whole byte, without a sign.
    Byte,
    /// In any other way.
    Other,
}

/// How the usage of a value is found.
#[derive(Clone, Copy, Debug, PartialEq, Eq)]
pub enum Way {
    /// By its place, in one range.
    Own,
    /// By the value, in one range.
    Named,
    /// In the descriptor.
    Listed,
}

/// A field of a report, and its usages where they are one range.
#[derive(Clone, Copy, Debug, PartialEq, Eq)]
pub struct Lane {
    /// The field.
    pub(crate) kept: Kept,
    /// How its values lie.
    pub(crate) form: Form,
    /// How its usages are found.
    pub(crate) way: Way,
    /// The first usage, where the field has one range, and what the last one is above it.
    pub(crate) first: u32,
    pub(crate) span: u32,
}

impl Lane {
    /// That of a field.
    pub(crate) fn new(descriptor: &Descriptor, kept: &Kept) -> Lane
        requires { (room : ℕ) × FitsKept descriptor.now room kept.now }
        ensures kept { result.kept ≡ kept.now }
        ensures lane { IsLane descriptor.now result }
    {
        let (way, first, span) = way_of(&kept.field, descriptor.ranges(kept.number));
        Lane {
            kept: *kept,
            form: form_of(&kept.field),
            way,
            first,
            span,
        }
    }

    /// The value of a place, in the bytes of a report after its ID.
    #[inline(always)]
    pub(crate) fn value(&self, descriptor: &Descriptor, bytes: &[u8], place: u16) -> Value
        requires lane { IsLane descriptor.now self.now }
        requires within { place < self.now.kept.field.count }
        ensures { result ≡ value_of descriptor.now bytes.now self.now.kept place }
    {
        let raw = self.raw(bytes, place);
        let inside = is_within(&self.kept.field, raw);
        Value {
            field: self.kept.number,
            place,
            usage: self.usage(descriptor, place, raw, inside),
            raw,
            within: where_in(&self.kept, raw, inside),
        }
    }

    /// The number in the bits of a place.
    #[inline(always)]
    fn raw(&self, bytes: &[u8], place: u16) -> i64
        requires form { IsForm self.now.kept.field self.now.form }
        requires fits { FitsReading self.now.kept.field }
        requires within { place < self.now.kept.field.count }
        ensures { result ≡ value_at self.now.kept.field bytes.now place }
    {
        let field = &self.kept.field;
        match self.form {
            Form::Bit => number_at(bytes, field.bit + place as u64, 1) as i64,
            Form::Byte => byte_at(bytes, field.bit / 8 + place as u64) as i64,
            Form::Other => value_at(field, bytes, place),
        }
    }

    /// The usage of a place with this value, which is within the logical extents or not.
    #[inline(always)]
    fn usage(&self, descriptor: &Descriptor, place: u16, raw: i64, inside: bool) -> Option<u32>
        requires lane { IsLane descriptor.now self.now }
        requires within { place < self.now.kept.field.count }
        requires inside { inside ≡ is_within self.now.kept.field raw }
        ensures { result ≡ usage_read self.now.kept.field (usage_list (ranges_at descriptor.now self.now.kept.number)) place raw }
    {
        match self.way {
            Way::Own => Some(self.first + (place as u32).min(self.span)),
            Way::Named if inside => nth_in(
                self.first,
                self.span,
                raw.abs_diff(self.kept.field.min),
            ),
            Way::Named => None,
            Way::Listed => listed_usage(descriptor, &self.kept, place, raw),
        }
    }
}

/// How the values of a field lie.
fn form_of(field: &Field) -> Form
    ensures { IsForm field.now result }
{
    if field.min < 0 {
        Form::Other
    } else if field.size == 1 {
        Form::Bit
    } else if field.size == 8 && field.bit % 8 == 0 {
        Form::Byte
    } else {
        Form::Other
    }
}

/// How the usages of a field are found, with the first of one range and what the last is above it.
fn way_of(field: &Field, ranges: &[(u32, u32)]) -> (Way, u32, u32)
    requires { All IsRange ranges.now }
    ensures { IsWay field.now ranges.now result.0 result.1 result.2 }
{
    let [(first, last)] = ranges else {
        return (Way::Listed, 0, 0);
    };
    let way = if field.array { Way::Named } else { Way::Own };
    (way, *first, last - first)
}

/// Where a value is that is within the logical extents or not.
#[inline(always)]
fn where_in(kept: &Kept, raw: i64, inside: bool) -> Within
    requires { inside ≡ is_within kept.now.field raw }
    ensures { result ≡ where_is kept.now.field kept.now.null_state raw }
{
    if inside {
        Within::Range
    } else if kept.null_state && !kept.field.array {
        Within::Null
    } else {
        Within::Out
    }
}

/// The usage of a range with this number.
#[inline(always)]
fn nth_in(first: u32, span: u32, number: u64) -> Option<u32>
    requires { first + span < 2 ^ 32 }
    ensures { result ≡ slice_get (usage_list ((first, first + span) ∷ [])) number }
{
    if number <= span as u64 {
        Some(first + number as u32)
    } else {
        None
    }
}

/// The usage of a place with this value, of any field.
#[inline(never)]
fn listed_usage(descriptor: &Descriptor, kept: &Kept, place: u16, raw: i64) -> Option<u32>
    ensures { result ≡ usage_read kept.now.field (usage_list (ranges_at descriptor.now kept.now.number)) place raw }
{
    usage_of(&usages_of(descriptor, kept), place, raw)
}
