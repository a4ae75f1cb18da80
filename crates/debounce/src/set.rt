//! The keys of a scan, 32 to a word.

ghost use Rattle.std.specs.Prelude.{◌≡◌, ◌<◌, ℕ, true, false};
ghost use Rattle.debounce.specs.Scans.{has, set_keys};
ghost use Rattle.debounce.specs.declared.Scan.{Scan};

use crate::row::{joined, parts};
use crate::{Keys, Scan};
use std::marker::Model;

/// A set of keys, as a scan has it: bit c of word w is key 32 * w + c.
#[derive(Debug, Drop)]
pub struct KeySet {
    words: [u32; 3],
}

impl Model for KeySet {
    ghost use Rattle.std.specs.Prelude.{◌≡◌, length};
    ghost use Rattle.debounce.specs.declared.Scan.{Scan};
    ghost use Rattle.debounce.specs.representation.Rows.{rows_of};

    ghost Value = { Scan };

    ghost view = { λ s. record { rows = rows_of s.words } };

    ghost invariant = { λ s. length s.words ≡ 3 };
}

impl KeySet {
    ghost use Rattle.debounce.specs.representation.Rows.{rows_of};

    /// The keys of these words.
    #[inline(always)]
    pub(crate) fn of_words(words: [u32; 3]) -> KeySet
        ensures { result.rows ≡ rows_of words }
    {
        KeySet { words }
    }

    /// The keys of a scan.
    #[inline(always)]
    pub fn of(scan: &Scan) -> KeySet
        ensures { (key : ℕ) → key < 96 → has result key ≡ has scan.now key }
    {
        KeySet {
            words: [
                joined(&scan.rows, 0),
                joined(&scan.rows, 1),
                joined(&scan.rows, 2),
            ],
        }
    }

    /// Its words.
    #[inline(always)]
    pub(crate) fn words(&self) -> &[u32; 3]
        ensures { self.now.rows ≡ rows_of result.now }
    {
        &self.words
    }

    /// Whether it has no key.
    #[inline(always)]
    pub fn is_empty(&self) -> bool
        ensures { result ≡ true → (key : ℕ) → key < 96 → has self.now key ≡ false }
    {
        let [first, second, third] = &self.words;
        *first | *second | *third == 0
    }

    /// The same keys as a scan.
    pub fn scan(&self) -> Scan
        ensures { result ≡ self.now }
    {
        let [first, second, third] = &self.words;
        Scan {
            rows: parts(*first, *second, *third),
        }
    }

    /// The numbers of its keys, in rising order, at most 96.
    #[inline(always)]
    pub fn keys(&self) -> Keys
        ensures { result ≡ set_keys self.now }
    {
        Keys::of(self.words)
    }
}
