//! What the definitions of settings come to.

ghost use Rattle.std.specs.Prelude.{◌≡◌, ◌<◌, ◌^◌, ℕ, List, Option, None, [], ◌∷◌, ◌++◌, length, take, if◌then◌else◌, nat_lt};
ghost use Rattle.settings.specs.declared.change.Change.{Change};
ghost use Rattle.settings.specs.Words.{IsChange, AreValues, words_of};
ghost use Rattle.settings.specs.Settings.{changes_in, settled};
ghost use Rattle.settings.specs.Copies.{copies_below, all_copies};

/// A change is in force once its last word is there, and not before: whatever stands before it, a cut
/// after fewer of its words leaves the changes that were in force.
pub fn whole_or_absent()
    ensures absent { (words : List ℕ) (change : Change) (n : ℕ) → IsChange change → n < length (words_of change) → changes_in (words ++ take n (words_of change)) ≡ changes_in words }
    ensures whole { (words : List ℕ) (change : Change) → IsChange change → changes_in (words ++ words_of change) ≡ changes_in words ++ change ∷ [] }
{}

/// The words that a compaction writes stand for the values that it was begun with.
pub fn compacted()
    ensures { (values : ℕ → Option (List ℕ)) (id : ℕ) → AreValues values → id < 2 ^ 16 → settled (changes_in (all_copies values)) id ≡ values id }
{}
