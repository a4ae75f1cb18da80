//! Numbers into the bits of a report.

ghost use Rattle.std.specs.Prelude.{◌≡◌, ◌≢◌, ℕ, ◌+◌, ◌*◌, ◌^◌, ◌<◌, ◌≤◌, length, if◌then◌else◌};
ghost use Rattle.std.specs.Int.{bit_at};
ghost use Rattle.host_extract.specs.Numbers.{report_bit, number_at};
ghost use Rattle.field_values.specs.Places.{IsOutside};

/// Writes a number of `size` bits from the bit `from` on, the least significant first. A bit of a report is counted from
/// the lowest one of its first byte; those past the end are left out.
pub fn put_number(bytes: &mut [u8], from: u64, size: u8, number: u32)
    requires few { size ≤ 32 }
    requires fits { number < 2 ^ size }
    requires counted { from + size < 2 ^ 64 }
    ensures length { length bytes.new ≡ length bytes.old }
    ensures there { from + size ≤ 8 * length bytes.old → number_at bytes.new from size ≡ number }
    ensures inside { (i : ℕ) → i < size → from + i < 8 * length bytes.old → report_bit bytes.new (from + i) ≡ bit_at number i }
    ensures others { (bit : ℕ) → IsOutside from size bit → report_bit bytes.new bit ≡ report_bit bytes.old bit }
{
    for place in 0..size {
        put_bit(bytes, from + place as u64, (number >> place) % 2 == 1);
    }
}

/// Writes one bit, where there is one.
fn put_bit(bytes: &mut [u8], bit: u64, one: bool)
    ensures length { length bytes.new ≡ length bytes.old }
    ensures there { bit < 8 * length bytes.old → report_bit bytes.new bit ≡ (if one then 1 else 0) }
    ensures others { (b : ℕ) → b ≢ bit → report_bit bytes.new b ≡ report_bit bytes.old b }
{
    // Compared before the cast, which loses bits where a `usize` has 32.
    if bit / 8 < bytes.len() as u64 {
        let place = (bit / 8) as usize;
        bytes[place] = with_bit(bytes[place], (bit % 8) as u8, one);
    }
}

/// A byte with this bit set or clear.
fn with_bit(byte: u8, place: u8, one: bool) -> u8
    requires { place < 8 }
    ensures there { bit_at result place ≡ (if one then 1 else 0) }
    ensures others { (i : ℕ) → i < 8 → i ≢ place → bit_at result i ≡ bit_at byte i }
{
    if one {
        byte | (1 << place)
    } else {
        byte & !(1 << place)
    }
}
