//! String descriptors.

ghost use Rattle.std.specs.Prelude.{◌≡◌, ◌+◌, ◌-◌, ◌*◌, ◌≤◌, ◌<◌, ◌∷◌, length, take, drop, flat_map, slice_index, OnSome};
ghost use Rattle.std.specs.Option.{option_map};
ghost use Rattle.usb_device.specs.Packets.{packet_at};
ghost use Rattle.usb_device.specs.Strings.{held_count, is_first, string_descriptor, unit_bytes};

use arrayvec::ArrayVec;

/// The most units of a string descriptor, whose length is a byte: 2 + 2 · 126 = 254.
const MOST: usize = 126;

/// The type of a string descriptor (table 9-5).
const STRING: u8 = 3;

/// Whether a unit is the first of a character of two.
fn is_first(unit: u16) -> bool
    ensures { result ≡ is_first unit }
{
    unit >= 0xD800 && unit < 0xDC00
}

/// How many units of a text one descriptor holds: 126, or 125 where the last of 126 begins a character.
#[tactic(auto, unfolding(crate::specs::Strings::held_count))]
fn held_count(units: &[u16]) -> usize
    ensures held { result ≡ held_count units.now }
    ensures fits { result ≤ 126 }
    ensures there { result ≤ length units.now }
{
    if units.len() <= MOST {
        units.len()
    } else if is_first(units[MOST - 1]) {
        MOST - 1
    } else {
        MOST
    }
}

/// Byte `place` of the string descriptor that holds these units.
#[tactic(auto, using(crate::proofs::Places::byte_behind_head))]
fn byte_at(units: &[u16], place: usize) -> u8
    requires fits { length units.now ≤ 126 }
    requires there { place < 2 + 2 * length units.now }
    ensures { result ≡ slice_index ((2 + 2 * length units.now) ∷ 3 ∷ flat_map unit_bytes units.now) place }
{
    match place {
        0 => 2 + 2 * units.len() as u8,
        1 => STRING,
        _ => units[place / 2 - 1].to_le_bytes()[place % 2],
    }
}

/// The bytes from `start` to `end` of the string descriptor that holds these units.
fn bytes_between(units: &[u16], start: usize, end: usize) -> ArrayVec<u8, 8>
    requires fits { length units.now ≤ 126 }
    requires in_order { start ≤ end }
    requires room { end ≤ start + 8 }
    requires there { end ≤ 2 + 2 * length units.now }
    ensures { result.items ≡ take (end - start) (drop start ((2 + 2 * length units.now) ∷ 3 ∷ flat_map unit_bytes units.now)) }
{
    let mut bytes = ArrayVec::new();
    for place in start..end {
        let _full = bytes.try_push(byte_at(units, place));
    }
    bytes
}

/// Packet `index` of a read of a text's string descriptor (section 9.6.7), of which `asked` bytes were asked for. Of a text that
/// is longer than 126 units, as many whole characters are sent as these hold.
pub(crate) fn packet_of_text(text: &[u16], asked: u16, index: u16) -> Option<ArrayVec<u8, 8>>
    ensures packet { option_map (λ packet. packet.items) result ≡ packet_at (string_descriptor text.now) asked index }
    ensures in_data { OnSome result (8 * index ≤ asked) }
{
    let asked = usize::from(asked);
    let units = &text[..held_count(text)];
    let length = 2 + 2 * units.len() as u8;
    let sent = usize::from(length).min(asked);
    let start = 8 * usize::from(index);
    if start < sent {
        Some(bytes_between(units, start, sent.min(start + 8)))
    } else if start == sent && sent < asked {
        Some(ArrayVec::new())
    } else {
        None
    }
}
