//! Debouncing of a matrix of 96 keys: scans in, edges and the keys that are down out. A contact
//! bounces when it closes or opens, so a key takes a new value only after five equal samples in a
//! row. One scan is one millisecond.
//!
//! A `Matrix` keeps of each key whether it is down, and how many of the latest samples say otherwise, 32
//! keys to a word. The guarantee is that a key has the value of the newest five equal samples in a row,
//! and that an edge is a change of it. `key_reports` calls it at each scan. A `Debouncer` is the same by
//! scans, and also counts the latest equal samples.
#![tactic(auto)]

ghost use Rattle.std.specs.Prelude.{◌≡◌, ◌/◌, ◌%◌, ◌<◌, ◌&&◌, ◌||◌, ◌==◌, ℕ, length, slice_index};
ghost use Rattle.std.specs.Int.{bit_at};
ghost use Rattle.debounce.specs.Scans.{has, set_keys};

pub mod debouncer;
pub mod keys;
pub mod matrix;
mod row;
pub mod set;
pub mod theorems;

pub use debouncer::{Debouncer, Edges};
pub use keys::Keys;
pub use matrix::Matrix;
pub use set::KeySet;

/// One look at the matrix, six rows of 16 keys: bit c of row r is set where key 16 * r + c is
/// pressed.
#[derive(Clone, Copy, Debug, PartialEq, Eq)]
pub struct Scan {
    pub rows: [u16; 6],
}

impl Scan {
    /// A scan with no key pressed.
    pub const NONE: Scan = Scan { rows: [0; 6] };

    /// Returns whether this scan has a key, one of 0 to 95.
    #[tactic(auto, unfolding(crate::specs::Scans::has))]
    pub fn has(&self, key: u8) -> bool
        requires { key < 96 }
        ensures { result ≡ has self.now key }
    {
        (self.rows[key as usize / 16] >> (key % 16)) & 1 == 1
    }

    /// Returns the numbers of its keys, in rising order, at most 96.
    pub fn keys(&self) -> Keys
        ensures { result ≡ set_keys self.now }
    {
        KeySet::of(self).keys()
    }

    /// Returns this scan, with a key, one of 0 to 95, too where `on` says so.
    #[tactic(auto, unfolding(crate::specs::Scans::has))]
    pub fn with(self, key: u8, on: bool) -> Scan
        requires { key < 96 }
        ensures { (other : ℕ) → other < 96
            → has result other ≡ ((on && (other == key)) || has self other) }
    {
        if !on {
            return self;
        }
        let mut rows = self.rows;
        add_key(&mut rows, key);
        Scan { rows }
    }
}

/// Sets the bit of a key.
fn add_key(rows: &mut [u16], key: u8)
    requires six { length rows.old ≡ 6 }
    requires in_range { key < 96 }
    ensures { (other : ℕ) → other < 96 → (bit_at (slice_index rows.new (other / 16)) (other % 16) == 1)
        ≡ ((other == key) || (bit_at (slice_index rows.old (other / 16)) (other % 16) == 1)) }
{
    rows[key as usize / 16] |= 1 << (key % 16);
}
