//! The data items of a descriptor's fields.

ghost use Rattle.std.specs.Prelude.{◌≡◌, IfOk};
ghost use Rattle.field_details.specs.declared.detail.Detail.{Detail};
ghost use Rattle.report_read.specs.Items.{places_of, can_be_null, null_states_of};

use field_details::{Detail, Details};
use std::alloc::{AllocError, Global};

/// The place of each field's item among the data items; there are so many fields.
pub(crate) fn places_of(
    alloc: Global,
    details: &Details,
    fields: usize,
) -> Result<Vec<usize>, AllocError>
    ensures { IfOk result (λ v. v.items ≡ places_of details.now.fields.items) }
{
    let mut places = Vec::with_capacity(alloc, fields)?;
    for placed in details.data_fields() {
        places.push(placed.place)?;
    }
    Ok(places)
}

/// Whether the elements of each field can be null; there are so many fields.
pub(crate) fn null_states_of(
    alloc: Global,
    details: &Details,
    fields: usize,
) -> Result<Vec<bool>, AllocError>
    ensures { IfOk result (λ v. v.items ≡ null_states_of details.now.fields.items) }
{
    let mut null_states = Vec::with_capacity(alloc, fields)?;
    for placed in details.data_fields() {
        null_states.push(can_be_null(placed.detail))?;
    }
    Ok(null_states)
}

/// Whether an element can be null.
fn can_be_null(detail: &Detail) -> bool
    ensures { result ≡ can_be_null detail.now }
{
    detail.is_variable() && detail.has_null_state()
}
