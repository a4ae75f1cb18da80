//! What is kept of the keys from scan to scan, in words.

ghost use Rattle.std.specs.Prelude.{◌≡◌, ◌≢◌, ◌<◌, ◌/◌, ◌%◌, ◌==◌, ◌&&◌, not, ℕ, List, [], ◌∷◌, length};
ghost use Rattle.std.specs.Int.{bit_at};
ghost use Rattle.debounce.specs.Scans.{has};
ghost use Rattle.debounce.specs.Samples.{down, same};
ghost use Rattle.debounce.specs.declared.Scan.{Scan};

use crate::Scan;
use crate::row::{Row, joined};
use crate::set::KeySet;
use std::marker::Model;

/// The value of each key, up or down, after the scans that were fed: what is kept of each pair of rows.
#[derive(Clone, Debug, Drop)]
pub struct Matrix {
    first: [u32; 3],
    second: [u32; 3],
    third: [u32; 3],
    down: [u32; 3],
}

impl Model for Matrix {
    ghost use Rattle.debounce.specs.representation.Kept.{Kept, HasThreePairs};

    ghost Value = { Kept };

    ghost view = { λ m. record { first = m.first; second = m.second; third = m.third; down = m.down } };

    ghost invariant = { λ m. HasThreePairs (record { first = m.first; second = m.second; third = m.third; down = m.down }) };
}

impl Matrix {
    ghost use Rattle.debounce.specs.representation.Kept.{row_of};
    ghost use Rattle.debounce.specs.representation.Relation.{Refines};

    /// Every key up, before the first scan.
    pub fn new() -> Matrix
        ensures { Refines [] result }
    {
        Matrix {
            first: [0; 3],
            second: [0; 3],
            third: [0; 3],
            down: [0; 3],
        }
    }

    /// Takes one more scan, one millisecond after the last, and answers which keys it changed.
    #[inline(always)]
    pub fn feed(&mut self, scan: &Scan) -> KeySet
        ensures refines { (scans : List Scan) → Refines scans self.old → Refines (scan.now ∷ scans) self.new }
        ensures flips { (scans : List Scan) → Refines scans self.old → (key : ℕ) → key < 96
            → has result key ≡ not (same (down scans key) (down (scan.now ∷ scans) key)) }
    {
        let mut flips = [0; 3];
        for pair in 0..3usize {
            let before = self.pair(pair);
            let after = before.sampled(joined(&scan.rows, pair));
            flips[pair] = before.down ^ after.down;
            self.keep(pair, after);
        }
        KeySet::of_words(flips)
    }

    /// What is kept of a pair of rows.
    #[inline(always)]
    fn pair(&self, pair: usize) -> Row
        requires { pair < 3 }
        ensures { result ≡ row_of self.now pair }
    {
        Row {
            first: self.first[pair],
            second: self.second[pair],
            third: self.third[pair],
            down: self.down[pair],
        }
    }

    /// Keeps this of a pair of rows.
    #[inline(always)]
    fn keep(&mut self, pair: usize, row: Row)
        requires { pair < 3 }
        ensures kept { row_of self.new pair ≡ row }
        ensures others { (other : ℕ) → other ≢ pair → row_of self.new other ≡ row_of self.old other }
    {
        self.first[pair] = row.first;
        self.second[pair] = row.second;
        self.third[pair] = row.third;
        self.down[pair] = row.down;
    }

    /// Of the keys that the latest scan changed those that are up.
    #[inline(always)]
    pub fn released(&self, flips: &KeySet) -> KeySet
        ensures { (scans : List Scan) → Refines scans self.now → (key : ℕ) → key < 96
            → has result key ≡ (has flips.now key && not (down scans key)) }
    {
        let [first, second, third] = flips.words();
        let [a, b, c] = &self.down;
        KeySet::of_words([*first & !*a, *second & !*b, *third & !*c])
    }

    /// Of the keys that the latest scan changed those that are down.
    #[inline(always)]
    pub fn pressed(&self, flips: &KeySet) -> KeySet
        ensures { (scans : List Scan) → Refines scans self.now → (key : ℕ) → key < 96
            → has result key ≡ (has flips.now key && down scans key) }
    {
        let [first, second, third] = flips.words();
        let [a, b, c] = &self.down;
        KeySet::of_words([*first & *a, *second & *b, *third & *c])
    }

    /// Whether a key, one of 0 to 95, is down.
    pub fn is_down(&self, key: u8) -> bool
        requires { key < 96 }
        ensures { (scans : List Scan) → Refines scans self.now → result ≡ down scans key }
    {
        has_bit(self.down[key as usize / 32], key % 32)
    }
}

/// Whether a word has a bit.
fn has_bit(word: u32, place: u8) -> bool
    requires { place < 32 }
    ensures { result ≡ (bit_at word place == 1) }
{
    (word >> place) & 1 == 1
}
