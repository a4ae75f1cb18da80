//! All places of a field.

ghost use Rattle.std.specs.Prelude.{◌≡◌, ℕ, ◌<◌, ◌*◌, length, true};
ghost use Rattle.host_extract.specs.representation.Fits.{FitsReading};
ghost use Rattle.host_extract.specs.Found.{value_at};
ghost use Rattle.host_extract.specs.Numbers.{report_bit};
ghost use Rattle.field_values.specs.Places.{IsOutside};
ghost use Rattle.field_values.specs.Held.{AreBitsOf, place_bit, has_bits, is_held};

use crate::place::put_place;
use descriptor_parse::Field;

/// Writes a value that the bits hold into each place of a field, in the bytes of a report after its ID. What is read there
/// is then the value, and each other bit is what it was. Bits past the end of the bytes are left out.
pub fn fill_places(field: &Field, bytes: &mut [u8], value: i64)
    requires fits { FitsReading field.now }
    requires held { is_held field.now.min field.now.size value ≡ true }
    ensures length { length bytes.new ≡ length bytes.old }
    ensures there { (place : ℕ) → place < field.now.count → has_bits field.now bytes.old place ≡ true → value_at field.now bytes.new place ≡ value }
    ensures inside { (place : ℕ) → place < field.now.count → AreBitsOf field.now.min field.now.size value bytes.new (place_bit field.now place) }
    ensures others { (bit : ℕ) → IsOutside field.now.bit (field.now.size * field.now.count) bit → report_bit bytes.new bit ≡ report_bit bytes.old bit }
{
    for place in 0..field.count {
        put_place(field, bytes, place, value);
    }
}
