//! A new report.

ghost use Rattle.std.specs.Prelude.{ℕ, ◌≡◌, ◌*◌, length, true, false, All, IfOk, IfErr};
ghost use Rattle.report_write.specs.declared.setting.WriteError.{WriteError};
ghost use Rattle.report_write.specs.representation.Fits.{FitsKept};
ghost use Rattle.report_write.specs.Begins.{empty, cannot_be_empty, IsFilledIf, IsEmptyUpTo, IsNeverEmpty};

use crate::kept::{Kept, usages_of};
use crate::setting::WriteError;
use crate::unused::unused;
use descriptor_parse::Descriptor;
use field_values::{fill_places, null_of};

/// Fills a new report: null places, and places of Arrays that name no usage.
pub(crate) fn fill(
    descriptor: &Descriptor,
    kept: &[Kept],
    bytes: &mut [u8],
) -> Result<(), WriteError>
    requires { All (FitsKept descriptor.now (8 * length bytes.old)) kept.now }
    ensures filled { IfOk result (λ _. IsEmptyUpTo descriptor.now kept.now bytes.old (length kept.now) bytes.new) }
    ensures refused { IfErr result (λ e. (field : ℕ) × (e ≡ WriteError.NoUnused field) × IsNeverEmpty descriptor.now kept.now field) }
    ensures long { IfOk result (λ _. length bytes.new ≡ length bytes.old) }
{
    for number in 0..kept.len() {
        fill_field(descriptor, &kept[number], bytes)?;
    }
    Ok(())
}

/// Fills the places of one field.
fn fill_field(descriptor: &Descriptor, kept: &Kept, bytes: &mut [u8]) -> Result<(), WriteError>
    requires { FitsKept descriptor.now (8 * length bytes.old) kept.now }
    ensures taken { IfOk result (λ _. cannot_be_empty descriptor.now kept.now ≡ false) }
    ensures filled { IfOk result (λ _. IsFilledIf kept.now (empty descriptor.now kept.now) bytes.old bytes.new) }
    ensures refused { IfErr result (λ e. (e ≡ WriteError.NoUnused kept.now.number) × (cannot_be_empty descriptor.now kept.now ≡ true)) }
    ensures long { IfOk result (λ _. length bytes.new ≡ length bytes.old) }
{
    if kept.field.array {
        return match unused(&usages_of(descriptor, kept)) {
            None => Err(WriteError::NoUnused(kept.number)),
            Some(value) => {
                fill_places(&kept.field, bytes, value);
                Ok(())
            }
        };
    }
    if kept.null_state {
        if let Some(value) = null_of(&kept.field) {
            fill_places(&kept.field, bytes, value);
        }
    }
    Ok(())
}
