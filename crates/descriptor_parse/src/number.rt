//! The numbers that an item's data make (HID 1.11, 6.2.2.2).

ghost use Rattle.std.specs.Prelude.{◌≡◌, ◌≤◌, ◌^◌, pos, length, slice_index};
ghost use Rattle.descriptor_parse.specs.Globals.{unsigned, signed};

/// The number of up to four bytes, the least significant first.
#[inline(always)]
#[tactic(auto, using(crate::proofs::Numbers::unsigned_bytes, crate::proofs::Numbers::unsigned_one))]
pub fn unsigned(bytes: &[u8]) -> u32
    requires { length bytes.now ≤ 4 }
    ensures { result ≡ unsigned bytes.now }
{
    // Most data have one byte.
    if bytes.len() == 1 {
        return bytes[0] as u32;
    }
    u32::from_le_bytes([
        byte(bytes, 0),
        byte(bytes, 1),
        byte(bytes, 2),
        byte(bytes, 3),
    ])
}

/// The same in two's complement of as many bytes.
#[tactic(auto, unfolding(crate::specs::Globals::signed))]
pub fn signed(bytes: &[u8]) -> i64
    requires { length bytes.now ≤ 4 }
    ensures { result ≡ signed bytes.now }
{
    let value = unsigned(bytes) as i64;
    let range = range_of(bytes.len());
    if 2 * value < range {
        value
    } else {
        value - range
    }
}

/// How many numbers so many bytes make.
fn range_of(len: usize) -> i64
    requires { len ≤ 4 }
    ensures { result ≡ pos (256 ^ len) }
{
    match len {
        0 => 1,
        1 => 0x100,
        2 => 0x1_0000,
        3 => 0x100_0000,
        _ => 0x1_0000_0000,
    }
}

/// The byte at `place`, 0 past the end.
fn byte(bytes: &[u8], place: usize) -> u8
    ensures { result ≡ slice_index bytes.now place }
{
    bytes.get(place).copied().unwrap_or(0)
}
