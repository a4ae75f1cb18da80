//! An iterator over the keys of a scan.

ghost use Rattle.std.specs.Prelude.{◌≡◌, ◌<◌, ℕ};
ghost use Rattle.std.specs.Iterator.{YieldsFirst, item_count};
ghost use Rattle.debounce.specs.Scans.{set_keys};

use std::marker::Model;

/// The numbers of the keys of a scan that are left, in rising order.
#[derive(Debug, Drop)]
pub struct Keys {
    /// The keys that are left, 32 to a word.
    left: [u32; 3],
}

impl Model for Keys {
    ghost use Rattle.std.specs.Prelude.{◌≡◌, ℕ, List, length};
    ghost use Rattle.debounce.specs.Scans.{set_keys};
    ghost use Rattle.debounce.specs.representation.Rows.{rows_of};

    ghost Value = { List ℕ };

    ghost view = { λ s. set_keys (record { rows = rows_of s.left }) };

    ghost invariant = { λ s. length s.left ≡ 3 };
}

impl Keys {
    ghost use Rattle.debounce.specs.representation.Rows.{rows_of};

    /// The keys of these words.
    #[inline(always)]
    pub(crate) fn of(left: [u32; 3]) -> Keys
        ensures { result ≡ set_keys (record { rows = rows_of left }) }
    {
        Keys { left }
    }
}

impl Iterator for Keys {
    type Item = u8;

    ghost next_gives = { YieldsFirst (λ s. s) };

    ghost remaining = { item_count (λ s. s) };

    fn next(&mut self) -> Option<u8> {
        for word in 0..3usize {
            let set = self.left[word];
            if set != 0 {
                let column = set.trailing_zeros() as u8;
                self.left[word] = set & !(1 << column);
                return Some(32 * word as u8 + column);
            }
        }
        None
    }
}
