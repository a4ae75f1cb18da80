//! The fields of one report.

ghost use Rattle.std.specs.Prelude.{◌≡◌, ◌<◌, false, All, IfOk, length, get_or, slice_get, unwrap_or};
ghost use Rattle.descriptor_parse.specs.declared.field.Field.{Field};
ghost use Rattle.descriptor_parse.specs.Descriptor.{ranges_at, bits_of};
ghost use Rattle.descriptor_parse.specs.Readers.{is_of_report};
ghost use Rattle.report_write.specs.Fields.{kept, kept_fields};
ghost use Rattle.report_write.specs.representation.Fits.{FitsKept};

use descriptor_parse::{Descriptor, Field, FieldUsages, Kind};
use std::alloc::{AllocError, Global};

/// A field of a report.
#[derive(Clone, Copy, Debug, PartialEq, Eq)]
pub struct Kept {
    /// Its place among the fields of the descriptor.
    pub number: usize,
    /// Whether its item has Null State.
    pub null_state: bool,
    /// The field.
    pub field: Field,
}

/// The fields of a report, in order. `null_states` is whether each field of the descriptor has Null State.
pub fn kept_fields(
    alloc: Global,
    descriptor: &Descriptor,
    null_states: &[bool],
    kind: Kind,
    id: u8,
) -> Result<Vec<Kept>, AllocError>
    ensures fields { IfOk result (λ v. v.items ≡ kept_fields descriptor.now null_states.now kind id) }
    ensures fit { IfOk result (λ v. All (FitsKept descriptor.now (bits_of descriptor.now kind id)) v.items) }
{
    let fields = descriptor.fields();
    let mut kept = Vec::new(alloc);
    for number in 0..fields.len() {
        let field = fields[number];
        if is_of_report(&field, kind, id) {
            let null_state = has_null_state(null_states, number);
            kept.push(Kept {
                number,
                null_state,
                field,
            })?;
        }
    }
    Ok(kept)
}

/// A field of the descriptor, with its number.
pub fn kept_at(descriptor: &Descriptor, null_states: &[bool], number: usize) -> Kept
    requires { number < length descriptor.now.fields }
    ensures kept { (default : Field) → result ≡ kept null_states.now number (get_or descriptor.now.fields number default) }
    ensures fits { FitsKept descriptor.now (bits_of descriptor.now result.field.kind result.field.id) result }
{
    Kept {
        number,
        null_state: has_null_state(null_states, number),
        field: descriptor.fields()[number],
    }
}

/// Whether a field has Null State; one past the list has none.
fn has_null_state(null_states: &[bool], number: usize) -> bool
    ensures { result ≡ unwrap_or (slice_get null_states.now number) false }
{
    null_states.get(number).copied().unwrap_or(false)
}

/// Whether a field is of a report.
fn is_of_report(field: &Field, kind: Kind, id: u8) -> bool
    ensures { result ≡ is_of_report kind id field.now }
{
    field.kind == kind && field.id == id
}

/// A field with its usages.
pub fn usages_of<'a>(descriptor: &'a Descriptor, kept: &Kept) -> FieldUsages<'a>
    ensures field { result.field ≡ kept.now.field }
    ensures ranges { result.ranges.now ≡ ranges_at descriptor.now kept.now.number }
{
    FieldUsages {
        field: kept.field,
        ranges: descriptor.ranges(kept.number),
        counts: descriptor.counts(kept.number),
    }
}
