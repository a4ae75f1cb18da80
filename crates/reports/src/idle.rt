//! An idle value, and the age that it allows.

ghost use Rattle.std.specs.Prelude.{◌≡◌, ◌*◌, ◌==◌, ◌&&◌, min, not, nat_le, ℕ};

use std::marker::Model;

/// An idle value in units of 4 ms, 0 for no repeats.
#[derive(Debug, Drop)]
pub(crate) struct Idle {
    value: u8,
    /// The greatest age at which a report need not be sent again: 65,535, which no age is above, for no
    /// repeats.
    limit: u16,
}

impl Model for Idle {
    ghost use Rattle.std.specs.Prelude.{◌≡◌, ◌+◌, ◌*◌, ◌<◌, ℕ};

    ghost Value = { ℕ };

    ghost view = { λ i. i.value };

    ghost invariant = { λ i. (i.value < 256) × (i.value ≡ 0 → i.limit ≡ 65535) × (0 < i.value → i.limit + 1 ≡ 4 * i.value) };
}

impl Idle {
    /// This value.
    pub(crate) fn of(value: u8) -> Idle
        ensures { result ≡ value }
    {
        Idle {
            value,
            limit: (4 * u16::from(value)).wrapping_sub(1),
        }
    }

    /// The value.
    pub(crate) fn value(&self) -> u8
        ensures { result ≡ self.now }
    {
        self.value
    }

    /// Whether a report of this age, in scans counted to 65,535, is to be sent again: the value is not 0,
    /// and as long has passed.
    pub(crate) fn has_passed(&self, age: u16) -> bool
        ensures { (scans : ℕ) → age ≡ min 65535 scans → result ≡ (not (self.now == 0) && nat_le (4 * self.now) scans) }
    {
        age > self.limit
    }
}
