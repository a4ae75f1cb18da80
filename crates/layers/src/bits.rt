//! Sets of numbers as bits, 32 to a word.

ghost use Rattle.std.specs.Prelude.{◌≡◌, ◌*◌, ◌/◌, ◌<◌, ◌≤◌, ◌==◌, ◌||◌, ◌&&◌, not, ℕ, length, MatchOption, IfSome};
ghost use Rattle.layers.specs.Usages.{has_bit, IsNext, PassesNoneFrom};

/// Whether a number is in a set.
pub(crate) fn contains(words: &[u32], number: u16) -> bool
    requires { number / 32 < length words.now }
    ensures { result ≡ has_bit 32 words.now number }
{
    (words[number as usize / 32] >> (number % 32)) & 1 == 1
}

/// Adds a number to a set.
pub(crate) fn insert(words: &mut [u32], number: u16)
    requires { number / 32 < length words.old }
    ensures { (other : ℕ) → has_bit 32 words.new other ≡ ((number == other) || has_bit 32 words.old other) }
{
    words[number as usize / 32] |= 1 << (number % 32);
}

/// Takes a number out of a set.
pub(crate) fn remove(words: &mut [u32], number: u16)
    requires { number / 32 < length words.old }
    ensures { (other : ℕ) → has_bit 32 words.new other ≡ (not (number == other) && has_bit 32 words.old other) }
{
    words[number as usize / 32] &= !(1 << (number % 32));
}

/// The least number at or after `from` in a set of at most 1,024 numbers, if there is one.
pub(crate) fn next_member(words: &[u32], from: u16) -> Option<u16>
    requires { length words.now ≤ 32 }
    ensures next { MatchOption result (PassesNoneFrom (has_bit 32 words.now) from) (λ number. IsNext (has_bit 32 words.now) from number) }
    ensures within { IfSome result (λ number. number < 32 * length words.now) }
{
    let first = from as usize / 32;
    if first >= words.len() {
        return None;
    }
    let bits = words[first] >> (from % 32);
    if bits != 0 {
        return Some(from + bits.trailing_zeros() as u16);
    }
    for place in first + 1..words.len() {
        let bits = words[place];
        if bits != 0 {
            return Some(32 * place as u16 + bits.trailing_zeros() as u16);
        }
    }
    None
}
