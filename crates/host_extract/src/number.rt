//! The numbers in the bits of a report.

ghost use Rattle.std.specs.Prelude.{◌≡◌, ◌+◌, ◌≤◌, ◌<◌, ◌^◌, take, drop, length, slice_index};
ghost use Rattle.descriptor_parse.specs.Globals.{unsigned};
ghost use Rattle.host_extract.specs.Numbers.{report_bit, number_at, value_under};

/// The number that `size` bits make from the bit `bit` on, the least significant first; bits past the end of the report
/// are 0.
#[inline(always)]
pub fn number_at(bytes: &[u8], bit: u64, size: u8) -> u32
    requires { size ≤ 32 }
    ensures { result ≡ number_at bytes.now bit size }
{
    if size == 1 {
        return bit_at(bytes, bit);
    }
    let window = window(bytes, bit / 8) >> (bit % 8);
    (window & ((1 << size) - 1)) as u32
}

/// As `number_at`, sooner where the bits are those of one byte.
#[inline(always)]
pub(crate) fn byte_or_number_at(bytes: &[u8], bit: u64, size: u8) -> u32
    requires { size ≤ 32 }
    ensures { result ≡ number_at bytes.now bit size }
{
    if size == 8 && bit % 8 == 0 {
        return byte_at(bytes, bit / 8);
    }
    number_at(bytes, bit, size)
}

/// A bit of the report, 0 or 1.
fn bit_at(bytes: &[u8], bit: u64) -> u32
    ensures { result ≡ report_bit bytes.now bit }
{
    byte_at(bytes, bit / 8) >> (bit % 8) & 1
}

/// A byte of the report, 0 past its end.
// Compared before the cast, which loses bits where a `usize` has 32.
#[inline(always)]
pub fn byte_at(bytes: &[u8], index: u64) -> u32
    ensures { result ≡ slice_index bytes.now index }
{
    if index < bytes.len() as u64 {
        bytes[index as usize] as u32
    } else {
        0
    }
}

/// The number that five bytes make from `first` on, the low byte first; those past the end of the report are 0.
#[inline(always)]
fn window(bytes: &[u8], first: u64) -> u64
    ensures { result ≡ unsigned (take 5 (drop first bytes.now)) }
{
    if first >= bytes.len() as u64 {
        return 0;
    }
    match bytes.get(first as usize..) {
        Some([a, b, c, d, e, ..]) => u64::from_le_bytes([*a, *b, *c, *d, *e, 0, 0, 0]),
        Some(rest) => unsigned(rest),
        None => 0,
    }
}

/// The number that at most four bytes make, the low byte first.
// By their number, and not byte by byte as `descriptor_parse::number::unsigned`: with that one a place takes five
// instructions more, of 62.
fn unsigned(bytes: &[u8]) -> u64
    requires { length bytes.now ≤ 4 }
    ensures { result ≡ unsigned bytes.now }
{
    match bytes {
        [] => 0,
        [a] => *a as u64,
        [a, b] => u16::from_le_bytes([*a, *b]) as u64,
        [a, b, c] => u32::from_le_bytes([*a, *b, *c, 0]) as u64,
        [a, b, c, d, ..] => u32::from_le_bytes([*a, *b, *c, *d]) as u64,
    }
}

/// The value of a number of `size` bits: in two's complement where the logical minimum is negative (HID 1.11, 5.8).
pub(crate) fn value_under(minimum: i64, size: u8, number: u32) -> i64
    requires { size ≤ 32 }
    ensures { result ≡ value_under minimum size number }
{
    let value = number as i64;
    if minimum < 0 && number as u64 * 2 >= 1 << size {
        value - (1 << size)
    } else {
        value
    }
}
