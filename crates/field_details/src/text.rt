//! What a text declares.

ghost use Rattle.std.specs.Prelude.{◌≡◌, IfOk, IfErr};
ghost use Rattle.descriptor_parse.specs.Beside.{IsRefusal};
ghost use Rattle.descriptor_parse.specs.Descriptor.{Describes};
ghost use Rattle.descriptor_parse.specs.Faults.{IsFaultless, all_items};
ghost use Rattle.field_details.specs.Collections.{collections};
ghost use Rattle.field_details.specs.Details.{details};
ghost use Rattle.field_details.specs.representation.Named.{TellsNames};

use crate::details::Details;
use crate::walk::Walk;
use descriptor_parse::Descriptor;
use descriptor_parse::beside::{Refusal, parse_beside};
use std::alloc::Global;

/// Parses a report descriptor as `descriptor_parse::parse` does, with its details, in one walk over its items (HID 1.11,
/// 6.2.2.4 to 6.2.2.8).
pub fn parse_details(alloc: Global, text: &[u8]) -> Result<(Descriptor, Details), Refusal>
    ensures faultless { IfOk result (λ r. IsFaultless text.now) }
    ensures described { IfOk result (λ r. Describes (all_items text.now) r.0) }
    ensures fields { IfOk result (λ r. r.1.fields.items ≡ details (all_items text.now)) }
    ensures collections { IfOk result (λ r. r.1.collections.items ≡ collections (all_items text.now)) }
    ensures names { IfOk result (λ r. TellsNames (all_items text.now) r.1) }
    ensures refused { IfErr result (IsRefusal text.now) }
{
    let mut walk = Walk::new(alloc);
    let descriptor = parse_beside(alloc, text, &mut walk)?;
    Ok((descriptor, walk.into_details()))
}
