//! The debouncer by scans.

ghost use Rattle.std.specs.Prelude.{◌≡◌, ◌<◌, ◌/◌, ◌%◌, ◌&&◌, not, true, false, ℕ, Bool, List, [], ◌∷◌, slice_index, slice_index_or};
ghost use Rattle.std.specs.Int.{bit_at};
ghost use Rattle.debounce.specs.Scans.{has};
ghost use Rattle.debounce.specs.Samples.{samples, down, equal_latest};
ghost use Rattle.debounce.specs.declared.Scan.{Scan};

use crate::Scan;
use crate::matrix::Matrix;
use crate::row::{Count, joined, parts};
use std::marker::Model;

/// The keys whose value a scan changed.
#[derive(Clone, Copy, Debug, PartialEq, Eq)]
pub struct Edges {
    /// The keys that were down and are up.
    pub released: Scan,
    /// The keys that were up and are down.
    pub pressed: Scan,
}

impl Edges {
    /// Returns whether no key changed.
    pub fn is_none(&self) -> bool
        ensures released { result ≡ true → (key : ℕ) → key < 96 → has self.now.released key ≡ false }
        ensures pressed { result ≡ true → (key : ℕ) → key < 96 → has self.now.pressed key ≡ false }
    {
        let released = joined(&self.released.rows, 0)
            | joined(&self.released.rows, 1)
            | joined(&self.released.rows, 2);
        let pressed = joined(&self.pressed.rows, 0)
            | joined(&self.pressed.rows, 1)
            | joined(&self.pressed.rows, 2);
        released | pressed == 0
    }
}

/// The value of each key, up or down, after the scans that were fed.
#[derive(Clone, Debug, Drop)]
pub struct Debouncer {
    matrix: Matrix,
    latest: Scan,
    /// How many of the latest samples of a key are equal, counted to five: plane p has its bit p, at
    /// the place that the key has in a scan.
    planes: [[u16; 6]; 3],
}

impl Model for Debouncer {
    ghost use Rattle.debounce.specs.representation.Counted.{Counted};

    ghost Value = { Counted };

    ghost view = { λ d. record { matrix = d.matrix; latest = d.latest; planes = d.planes } };
}

impl Debouncer {
    ghost use Rattle.debounce.specs.representation.Counted.{Refines, IsCounted, plane_bit};

    /// Makes a debouncer before its first scan: every key is up.
    pub fn new() -> Debouncer
        ensures { Refines [] result }
    {
        Debouncer {
            matrix: Matrix::new(),
            latest: Scan::NONE,
            planes: [[0; 6]; 3],
        }
    }

    /// Takes one more scan, one millisecond after the last, and answers which keys it released and
    /// which it pressed.
    pub fn feed(&mut self, scan: Scan) -> Edges
        ensures refines { (scans : List Scan) → Refines scans self.old → Refines (scan ∷ scans) self.new }
        ensures released { (scans : List Scan) → Refines scans self.old → (key : ℕ) → key < 96
            → has result.released key ≡ (down scans key && not (down (scan ∷ scans) key)) }
        ensures pressed { (scans : List Scan) → Refines scans self.old → (key : ℕ) → key < 96
            → has result.pressed key ≡ (down (scan ∷ scans) key && not (down scans key)) }
    {
        self.planes = self.counted(&scan);
        self.latest = scan;
        let flips = self.matrix.feed(&scan);
        Edges {
            released: self.matrix.released(&flips).scan(),
            pressed: self.matrix.pressed(&flips).scan(),
        }
    }

    /// The planes after one more scan.
    fn counted(&self, scan: &Scan) -> [[u16; 6]; 3]
        ensures { (scans : List Scan) → Refines scans self.now → (key : ℕ) → key < 96 → IsCounted (has scan.now key ∷ samples scans key)
            (has scan.now key) (plane_bit result 0 key) (plane_bit result 1 key) (plane_bit result 2 key) }
    {
        let first = self.pair(0, scan);
        let second = self.pair(1, scan);
        let third = self.pair(2, scan);
        [
            parts(first.ones, second.ones, third.ones),
            parts(first.twos, second.twos, third.twos),
            parts(first.fours, second.fours, third.fours),
        ]
    }

    /// The counts of a pair of rows after one more scan.
    fn pair(&self, pair: usize, scan: &Scan) -> Count
        requires { pair < 3 }
        ensures { (scans : List Scan) → Refines scans self.now → (key : ℕ) → key / 32 ≡ pair → IsCounted (has scan.now key ∷ samples scans key)
            (has scan.now key) (bit_at result.ones (key % 32)) (bit_at result.twos (key % 32)) (bit_at result.fours (key % 32)) }
    {
        let [ones, twos, fours] = &self.planes;
        let count = Count {
            ones: joined(ones, pair),
            twos: joined(twos, pair),
            fours: joined(fours, pair),
        };
        let latest = joined(&self.latest.rows, pair);
        count.sampled(latest, joined(&scan.rows, pair))
    }

    /// Returns whether a key, one of 0 to 95, is down.
    pub fn is_down(&self, key: u8) -> bool
        requires { key < 96 }
        ensures { (scans : List Scan) → Refines scans self.now → result ≡ down scans key }
    {
        self.matrix.is_down(key)
    }

    /// Returns the planes of the counts: bit c of row r of plane p is bit p of how many of the latest
    /// samples of key 16 * r + c are equal, counted to five.
    pub fn planes(&self) -> &[[u16; 6]; 3]
        ensures { (scans : List Scan) → Refines scans self.now → (plane key : ℕ) → plane < 3 → key < 96
            → bit_at (slice_index (slice_index_or result.now plane []) (key / 16)) (key % 16)
            ≡ bit_at (equal_latest (samples scans key)) plane }
    {
        &self.planes
    }
}
