//! What the definitions come to.

ghost use Rattle.std.specs.Prelude.{◌≡◌, ◌≢◌, ◌↔◌, ◌≤◌, ◌<◌, ◌+◌, ◌++◌, ◌∷◌, [], ℕ, Bool, IsTrue, List, Option, None, Some, length};
ghost use Rattle.layers.specs.Codes.{layers, keys, none, is_code, default_code, DefaultCodes};
ghost use Rattle.layers.specs.Commands.{word_of, IsCommand};
ghost use Rattle.layers.specs.Copies.{places, AreCopies, IsNextChanged, IsDefaultFrom};
ghost use Rattle.layers.specs.Entries.{entry_in, written_by_word, NoneWrites};
ghost use Rattle.layers.specs.Held.{any_has, resolved, code, HeldCall, Press, Release};
ghost use Rattle.layers.specs.Keymaps.{code_at};
ghost use Rattle.layers.specs.Resolved.{SomeHas, IsHighest, IsTransparent};
ghost use Rattle.layers.specs.declared.command.Command.{Command};

/// The entry of a key is what the last word of a page that writes it gives it, and the default where
/// no word writes it.
pub fn last_writer()
    ensures written { (defaults : DefaultCodes) (format : ℕ) (before : List ℕ) (word : ℕ) (after : List ℕ) (layer key code : ℕ) → written_by_word defaults format word layer key ≡ Some code → NoneWrites defaults format after layer key → entry_in defaults format (before ++ word ∷ after) layer key ≡ code }
    ensures default { (defaults : DefaultCodes) (format : ℕ) (words : List ℕ) (layer key : ℕ) → NoneWrites defaults format words layer key → entry_in defaults format words layer key ≡ default_code defaults layer key }
{}

/// Each entry that words give is a code.
pub fn entries_are_codes()
    ensures { (defaults : DefaultCodes) (format : ℕ) (words : List ℕ) (layer key : ℕ) → key < keys → IsTrue (is_code (entry_in defaults format words layer key)) }
{}

/// The words of the commands that `next_changed` gives, one after the other from place 0 on, have
/// the entries of the keymap on a page of format 2; they are at most `ENTRIES`.
pub fn copies()
    ensures start { (defaults : DefaultCodes) (entries : ℕ → ℕ → ℕ) → AreCopies defaults entries 0 [] }
    ensures next { (defaults : DefaultCodes) (entries : ℕ → ℕ → ℕ) (from place : ℕ) (command : Command) (words : List ℕ) → AreCopies defaults entries from words → IsNextChanged defaults entries from place command → IsCommand command → AreCopies defaults entries (place + 1) (words ++ word_of command ∷ []) }
    ensures end { (defaults : DefaultCodes) (entries : ℕ → ℕ → ℕ) (from : ℕ) (words : List ℕ) → from ≤ places → AreCopies defaults entries from words → IsDefaultFrom defaults entries from → AreCopies defaults entries places words }
    ensures same_entries { (defaults : DefaultCodes) (entries : ℕ → ℕ → ℕ) (words : List ℕ) (layer key : ℕ) → AreCopies defaults entries places words → layer < layers → key < keys → entry_in defaults 2 words layer key ≡ entries layer key }
    ensures count { (defaults : DefaultCodes) (entries : ℕ → ℕ → ℕ) (place : ℕ) (words : List ℕ) → AreCopies defaults entries place words → length words ≤ place }
{}

/// A layer other than 0 is active, and a usage is in its set, where a held key has such a code. A
/// code is that of the highest active layer where it is not transparent.
pub fn held_keys()
    ensures some_has { (codes : ℕ → Option ℕ) (test : ℕ → Bool) → IsTrue (any_has codes test) ↔ SomeHas codes test }
    ensures highest { (entries : ℕ → ℕ → ℕ) (codes : ℕ → Option ℕ) (key layer : ℕ) → IsHighest entries codes key layer → resolved entries codes key ≡ entries layer key }
    ensures transparent { (entries : ℕ → ℕ → ℕ) (codes : ℕ → Option ℕ) (key : ℕ) → IsTransparent entries codes key → resolved entries codes key ≡ none }
{}

/// A code is fixed at the press of its key and stays until the release of that key.
pub fn fixed_at_press()
    ensures pressed { (past : List HeldCall) (keymap : List ℕ) (key : ℕ) → code past key ≡ None → code (Press keymap key ∷ past) key ≡ Some (resolved (code_at keymap) (code past) key) }
    ensures stays { (past : List HeldCall) (keymap : List ℕ) (key other is : ℕ) → code past key ≡ Some is → code (Press keymap other ∷ past) key ≡ Some is }
    ensures released { (past : List HeldCall) (key : ℕ) → code (Release key ∷ past) key ≡ None }
    ensures others_pressed { (past : List HeldCall) (keymap : List ℕ) (key other : ℕ) → key ≢ other → code (Press keymap other ∷ past) key ≡ code past key }
    ensures others_released { (past : List HeldCall) (key other : ℕ) → key ≢ other → code (Release other ∷ past) key ≡ code past key }
{}
