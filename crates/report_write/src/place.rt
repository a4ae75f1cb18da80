//! One place that is set.

ghost use Rattle.std.specs.Prelude.{◌≡◌, ◌<◌, length, true, None, Some, IfOk, IfErr};
ghost use Rattle.host_extract.specs.representation.Fits.{FitsReading};
ghost use Rattle.field_values.specs.Held.{is_held, has_bits, place_bit};
ghost use Rattle.report_write.specs.Puts.{IsPut, IsMarked, is_set};
ghost use Rattle.report_write.specs.Settings.{place_refusal, as_write_error, IsPlaceSet};

use crate::kept::Kept;
use crate::setting::WriteError;
use descriptor_parse::Field;
use field_values::{Asked, PlaceError, put_number, put_value, set_place};
use host_extract::number_at;

/// Writes what is asked for into a place, and marks it.
pub(crate) fn set_one(
    kept: &Kept,
    place: u16,
    asked: Asked,
    number: usize,
    bytes: &mut [u8],
    marks: &mut [u8],
) -> Result<(), WriteError>
    requires reading { FitsReading kept.now.field }
    requires size { 0 < kept.now.field.size }
    requires within { place < kept.now.field.count }
    requires beside { length marks.old ≡ length bytes.old }
    ensures taken { IfOk result (λ _. place_refusal kept.now place bytes.old marks.old number asked ≡ None) }
    ensures refused { IfErr result (λ e. place_refusal kept.now place bytes.old marks.old number asked ≡ Some e) }
    ensures set { IfOk result (λ _. IsPlaceSet kept.now place asked bytes.old bytes.new marks.old marks.new) }
{
    if is_set(&kept.field, marks, place) {
        return Err(WriteError::Twice(number));
    }
    if let Err(error) = set_place(&kept.field, kept.null_state, bytes, place, asked) {
        return Err(as_write_error(number, error));
    }
    mark(&kept.field, marks, place);
    Ok(())
}

/// A refusal of a place, told of the setting with a number.
fn as_write_error(number: usize, error: PlaceError) -> WriteError
    ensures { result ≡ as_write_error number error }
{
    match error {
        PlaceError::NoPlace => WriteError::Unknown(number),
        PlaceError::Short => WriteError::Short,
        PlaceError::NoNull => WriteError::NoNull(number),
        PlaceError::TooLarge => WriteError::TooLarge(number),
        PlaceError::OutOfRange => WriteError::OutOfRange(number),
    }
}

/// The first bit of a place.
fn first_bit(field: &Field, place: u16) -> u64
    requires fits { FitsReading field.now }
    requires within { place < field.now.count }
    ensures { result ≡ place_bit field.now place }
{
    field.bit + field.size as u64 * place as u64
}

/// Whether a place was set.
pub(crate) fn is_set(field: &Field, marks: &[u8], place: u16) -> bool
    requires fits { FitsReading field.now }
    requires within { place < field.now.count }
    ensures { result ≡ is_set field.now marks.now place }
{
    number_at(marks, first_bit(field, place), 1) == 1
}

/// Marks a place as set.
pub(crate) fn mark(field: &Field, marks: &mut [u8], place: u16)
    requires fits { FitsReading field.now }
    requires size { 0 < field.now.size }
    requires within { place < field.now.count }
    requires bits { has_bits field.now marks.old place ≡ true }
    ensures { IsMarked field.now place marks.old marks.new }
{
    put_number(marks, first_bit(field, place), 1, 1);
}

/// Puts a value that the bits hold into a place.
pub(crate) fn put_one(field: &Field, place: u16, value: i64, bytes: &mut [u8])
    requires fits { FitsReading field.now }
    requires within { place < field.now.count }
    requires held { is_held field.now.min field.now.size value ≡ true }
    requires bits { has_bits field.now bytes.old place ≡ true }
    ensures { IsPut field.now place value bytes.old bytes.new }
{
    put_value(bytes, first_bit(field, place), field.size, field.min, value);
}
