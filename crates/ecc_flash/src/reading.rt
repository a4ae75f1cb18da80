//! What two write units read as, as a slot.

ghost use Rattle.std.specs.Prelude.{◌≡◌, ◌+◌, ◌*◌, ◌<◌, ◌↔◌, ℕ, IsTrue, Some};
ghost use Rattle.ecc_flash.specs.Reading.{blank, paired, is_word, check_of, slot_read};

/// Bytes of a write unit.
pub const UNIT_BYTES: usize = 8;

/// An erased unit, and a slot that is Free.
pub const BLANK: [u8; UNIT_BYTES] = [255; UNIT_BYTES];

/// A slot that is neither Free nor holds a word: all bits are set but bit 31 of its word. A word of a
/// log has this bit clear, so that a torn program of it may leave this slot.
pub const SPOILED: [u8; UNIT_BYTES] = [255, 255, 255, 127, 255, 255, 255, 255];

/// The slot that the units hold: Free where both are blank, the word of the first where the second
/// is its check, and else a slot that is no word.
#[tactic(auto, unfolding(crate::specs::Reading::slot_read, crate::specs::Reading::spoiled, crate::specs::Reading::blank))]
pub fn read(first: Option<[u8; UNIT_BYTES]>, second: Option<[u8; UNIT_BYTES]>) -> [u8; UNIT_BYTES]
    ensures { result ≡ slot_read first second }
{
    match first {
        None => SPOILED,
        Some(word) => match second {
            None => SPOILED,
            Some(check) => {
                if word == BLANK && check == BLANK {
                    BLANK
                } else if is_log_word(word) && check == check_of_word(word) {
                    word
                } else {
                    SPOILED
                }
            }
        },
    }
}

/// Whether a unit holds a word with bit 31 clear, beside its complement.
#[tactic(auto, unfolding(crate::specs::Reading::is_word))]
pub fn is_log_word(unit: [u8; UNIT_BYTES]) -> bool
    ensures { result ≡ is_word unit }
{
    let [a, b, c, d, e, f, g, h] = unit;
    let word = u32::from_le_bytes([a, b, c, d]);
    let beside = u32::from_le_bytes([e, f, g, h]);
    beside == !word && d < 128
}

/// The check of a word, beside its complement: each byte of the word XOR the one before it, and the
/// first byte with the last.
#[tactic(auto, unfolding(crate::specs::Reading::check_of))]
pub fn check_of_word(unit: [u8; UNIT_BYTES]) -> [u8; UNIT_BYTES]
    ensures { result ≡ check_of unit }
{
    let [a, b, c, d, _, _, _, _] = unit;
    let word = u32::from_le_bytes([a, b, c, d]);
    // Turned by a byte, so that each meets the one before it.
    beside_complement(word ^ word.rotate_left(8))
}

/// The bytes of a number, the low one first, and their complements.
#[tactic(auto, unfolding(crate::specs::Reading::paired))]
fn beside_complement(number: u32) -> [u8; UNIT_BYTES]
    ensures { (a b c d : ℕ) → a < 256 → b < 256 → c < 256 → d < 256 → number ≡ a + 256 * b + 65536 * c + 16777216 * d → result ≡ paired a b c d }
{
    let [a, b, c, d] = number.to_le_bytes();
    let [e, f, g, h] = (!number).to_le_bytes();
    [a, b, c, d, e, f, g, h]
}

/// Whether a unit reads blank.
#[tactic(auto, unfolding(crate::specs::Reading::blank))]
pub fn is_blank(unit: Option<[u8; UNIT_BYTES]>) -> bool
    ensures { IsTrue result ↔ unit ≡ Some blank }
{
    match unit {
        None => false,
        Some(bytes) => bytes == BLANK,
    }
}
