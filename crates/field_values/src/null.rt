//! Nulls: places that say that a control has no value.

ghost use Rattle.std.specs.Prelude.{◌≡◌, ℕ, ℤ, ◌≤◌, ◌-◌, ◌^◌, length, true, false, ◌&&◌, not, Some, None, IfOk, IfErr, pos, neg_ℤ, ◌+ℤ◌, ◌-ℤ◌, ◌<ℤ◌};
ghost use Rattle.host_extract.specs.representation.Fits.{FitsReading};
ghost use Rattle.host_extract.specs.Found.{value_at};
ghost use Rattle.host_extract.specs.Numbers.{report_bit};
ghost use Rattle.field_values.specs.Places.{IsOutside};
ghost use Rattle.field_values.specs.Held.{place_bit};
ghost use Rattle.field_values.specs.Nulls.{is_null, null_of, null_refusal, asked_refusal, asked_value};

use crate::place::{PlaceError, has_bits, is_held, is_within, put_place, write_place};
use descriptor_parse::Field;

/// What a control is set to.
#[derive(Clone, Copy, Debug, PartialEq, Eq)]
pub enum Asked {
    /// A value. For a usage of an Array 1 puts it into a place that names none, and 0 takes it out of all.
    Value(i64),
    /// No value: Null State.
    Null,
}

/// Writes what is asked for into a place of a field, in the bytes of a report after its ID. `null_state` is whether the
/// item of the field has Null State.
///
/// What is read there is then the value, or one outside the logical extents for a null, and each other bit is what it
/// was. Where it is refused, nothing changes.
pub fn set_place(
    field: &Field,
    null_state: bool,
    bytes: &mut [u8],
    place: u16,
    asked: Asked,
) -> Result<(), PlaceError>
    requires fits { FitsReading field.now }
    ensures taken { IfOk result (λ _. asked_refusal field.now null_state bytes.old place asked ≡ None) }
    ensures refused { IfErr result (λ e. asked_refusal field.now null_state bytes.old place asked ≡ Some e) }
    ensures written { IfOk result (λ _. asked_value field.now asked ≡ Some (value_at field.now bytes.new place)) }
    ensures length { length bytes.new ≡ length bytes.old }
    ensures others { (bit : ℕ) → IsOutside (place_bit field.now place) field.now.size bit → report_bit bytes.new bit ≡ report_bit bytes.old bit }
    ensures kept { IfErr result (λ _. bytes.new ≡ bytes.old) }
{
    match asked {
        Asked::Value(value) => write_place(field, bytes, place, value),
        Asked::Null => write_null(field, null_state, bytes, place),
    }
}

/// Writes a null into a place of a field.
fn write_null(
    field: &Field,
    null_state: bool,
    bytes: &mut [u8],
    place: u16,
) -> Result<(), PlaceError>
    requires fits { FitsReading field.now }
    ensures taken { IfOk result (λ _. null_refusal field.now null_state bytes.old place ≡ None) }
    ensures refused { IfErr result (λ e. null_refusal field.now null_state bytes.old place ≡ Some e) }
    ensures written { IfOk result (λ _. null_of field.now ≡ Some (value_at field.now bytes.new place)) }
    ensures length { length bytes.new ≡ length bytes.old }
    ensures others { (bit : ℕ) → IsOutside (place_bit field.now place) field.now.size bit → report_bit bytes.new bit ≡ report_bit bytes.old bit }
    ensures kept { IfErr result (λ _. bytes.new ≡ bytes.old) }
{
    if place >= field.count {
        return Err(PlaceError::NoPlace);
    }
    if !has_bits(field, bytes, place) {
        return Err(PlaceError::Short);
    }
    if !null_state || field.array {
        return Err(PlaceError::NoNull);
    }
    match null_of(field) {
        Some(value) => {
            put_place(field, bytes, place, value);
            Ok(())
        }
        None => Err(PlaceError::NoNull),
    }
}

/// The value by which a place of a field says that there is none: outside the logical extents, and one that the bits
/// hold. It is 0, or else one over the greatest, or else one under the least.
pub fn null_of(field: &Field) -> Option<i64>
    requires fits { FitsReading field.now }
    ensures null { result ≡ null_of field.now }
    ensures none { result ≡ None → (value : ℤ) → is_null field.now value ≡ false }
{
    if is_null(field, 0) {
        Some(0)
    } else if is_null_over(field) {
        Some(field.max + 1)
    } else if is_null_under(field) {
        Some(field.min - 1)
    } else {
        None
    }
}

/// Whether one over the greatest value says that there is none.
fn is_null_over(field: &Field) -> bool
    requires { FitsReading field.now }
    ensures same { result ≡ is_null field.now (field.now.max +ℤ pos 1) }
    ensures counted { result ≡ true → field.now.max <ℤ pos (2 ^ 63 - 1) }
{
    field.max < i64::MAX && is_null(field, field.max + 1)
}

/// Whether one under the least value does.
fn is_null_under(field: &Field) -> bool
    requires { FitsReading field.now }
    ensures same { result ≡ is_null field.now (field.now.min -ℤ pos 1) }
    ensures counted { result ≡ true → neg_ℤ (pos (2 ^ 63)) <ℤ field.now.min }
{
    field.min > i64::MIN && is_null(field, field.min - 1)
}

/// Whether a value is outside the logical extents and the bits of a place hold it.
pub fn is_null(field: &Field, value: i64) -> bool
    requires { FitsReading field.now }
    ensures { result ≡ is_null field.now value }
{
    !is_within(field, value) && is_held(field.min, field.size, value)
}
