//! What the definitions come to.

ghost use Rattle.std.specs.Prelude.{◌≡◌, ◌<◌, ◌↔◌, true, false, IsTrue, ℕ, List, Option, None};
ghost use Rattle.layers.specs.Codes.{keys, names_key_usage, names_consumer};
ghost use Rattle.layers.specs.Held.{resolved};
ghost use Rattle.layers.specs.Keymaps.{HasEntries, code_at};
ghost use Rattle.key_reports.specs.Calls.{KeyCall};
ghost use Rattle.key_reports.specs.Codes.{code_after, HasCode, SomeKeyHas};
ghost use Rattle.key_reports.specs.Past.{is_down, keys_after, consumer_after};
ghost use Rattle.key_reports.specs.Tables.{table};

/// A key has a code exactly while it is down by the debounced scans: that of its latest press.
pub fn codes_are_of_presses()
    ensures up { (past : List KeyCall) (key : ℕ) → key < keys → is_down past key ≡ false → code_after past key ≡ None }
    ensures down { (past : List KeyCall) (key : ℕ) → key < keys → is_down past key ≡ true → HasCode past key }
{}

/// The usages are those that the codes of the keys name that are down.
pub fn usages_are_of_keys_down()
    ensures keys { (past : List KeyCall) (usage : ℕ) → IsTrue (keys_after past usage) ↔ SomeKeyHas past (names_key_usage usage) }
    ensures consumer { (past : List KeyCall) (usage : ℕ) → IsTrue (consumer_after past usage) ↔ SomeKeyHas past (names_consumer usage) }
{}

/// The codes of a table are the entries that it was made of; no other list has them, and keys resolve
/// by it as by the entries.
pub fn tables_have_their_entries()
    ensures has { (entries : ℕ → ℕ → ℕ) → HasEntries entries (table entries) }
    ensures alone { (entries : ℕ → ℕ → ℕ) (keymap : List ℕ) → HasEntries entries keymap → keymap ≡ table entries }
    ensures resolved { (entries : ℕ → ℕ → ℕ) (codes : ℕ → Option ℕ) (key : ℕ) → key < keys
        → resolved (code_at (table entries)) codes key ≡ resolved entries codes key }
{}
