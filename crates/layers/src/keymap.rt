//! The table of codes.

ghost use Rattle.std.specs.Prelude.{◌≡◌, ◌≢◌, ◌+◌, ◌*◌, ◌/◌, ◌%◌, ◌<◌, ◌≤◌, ℕ, List, [], ◌∷◌, ◌++◌, Some, length, slice_index, MatchBool, MatchOption, IfSome, nat_eq};
ghost use Rattle.std.specs.Cmp.{partial_equiv_from_equiv};
ghost use Rattle.std.specs.Cmp.Lexicographic.{pointwise, nat_list_eq_equiv};
ghost use Rattle.layers.specs.Codes.{layers, keys, default_code, default_at};
ghost use Rattle.layers.specs.Commands.{IsCommand};
ghost use Rattle.layers.specs.Formats.{command_by_format};
ghost use Rattle.layers.specs.Entries.{changed, ChangesSome, ChangesNothing};
ghost use Rattle.layers.specs.Copies.{IsNextChanged, IsDefaultFrom};
ghost use Rattle.layers.specs.Keymaps.{code_at, place_of, HasEntries, Refines};

use crate::code::{ENTRIES, KEYS};
use crate::defaults::PhantomData;
use crate::{Code, Command, Defaults, KeyNo, LayerNo, Standard};
use std::marker::Model;

/// The code of each key on each layer, with these defaults.
///
/// ```rust
/// use wuzhikar::{KeyNo, Keymap, LayerNo};
///
/// let keymap = Keymap::standard();
/// // Key 0 of layer 0 is usage 04h, the letter A.
/// assert_eq!(keymap.get(LayerNo::read(0)?, KeyNo::read(0)?).bits(), 0x0004);
/// assert!(KeyNo::read(96).is_err());
/// # Ok::<(), wuzhikar::KeymapError>(())
/// ```
#[derive(Clone, Debug, Drop)]
pub struct KeymapOf<D: Defaults> {
    codes: [Code; ENTRIES],
    defaults: PhantomData<D>,
}

/// A keymap with the standard defaults.
pub type Keymap = KeymapOf<Standard>;

impl<D: Defaults> Model for KeymapOf<D> {
    ghost use Rattle.std.specs.Prelude.{◌≡◌, ℕ, List, length};
    ghost use Rattle.layers.specs.declared.code.TheConstants.{ENTRIES};

    ghost Value = { List ℕ };

    ghost view = { λ m. m.codes };

    ghost invariant = { λ m. length m.codes ≡ ENTRIES };
}

impl<D: Defaults> KeymapOf<D> {
    /// Returns the default keymap.
    pub fn standard() -> KeymapOf<D>
        ensures entries { HasEntries (default_code D.defaults) result }
        ensures refines { (format : ℕ) → Refines D.defaults format [] result }
    {
        let mut keymap = KeymapOf {
            codes: [Code::TRANSPARENT; ENTRIES],
            defaults: PhantomData,
        };
        keymap.set_standard();
        keymap
    }

    /// Makes it the default keymap, where it lies.
    pub fn set_standard(&mut self)
        ensures entries { HasEntries (default_code D.defaults) self.new }
        ensures refines { (format : ℕ) → Refines D.defaults format [] self.new }
    {
        D::reset(&mut self.codes, 0, ENTRIES);
    }

    /// Returns the code of a key on a layer.
    pub fn get(&self, layer: LayerNo, key: KeyNo) -> Code
        ensures value { result ≡ code_at self.now layer key }
        ensures entry { (entries : ℕ → ℕ → ℕ) → HasEntries entries self.now → result ≡ entries layer key }
    {
        self.codes[place(layer, key)]
    }

    /// Takes a command: the entries that it writes get their codes, the others stay.
    #[inline(always)]
    pub fn apply(&mut self, command: Command)
        ensures entries { (entries : ℕ → ℕ → ℕ) → HasEntries entries self.old → HasEntries (changed D.defaults entries (command ∷ [])) self.new }
        ensures refines { (format : ℕ) (words : List ℕ) (word : ℕ) → Refines D.defaults format words self.old → command_by_format format word ≡ Some command → Refines D.defaults format (words ++ word ∷ []) self.new }
    {
        match command {
            Command::SetKey { layer, key, code } => self.codes[place(layer, key)] = code,
            Command::ResetLayer(layer) => {
                let first = KEYS * layer.number() as usize;
                D::reset(&mut self.codes, first, first + KEYS);
            }
            Command::ResetAll => D::reset(&mut self.codes, 0, ENTRIES),
        }
    }

    /// Returns whether some entry would differ after the command.
    pub fn changes(&self, command: Command) -> bool
        ensures table { MatchBool result (ChangesSome D.defaults (code_at self.now) command) (ChangesNothing D.defaults (code_at self.now) command) }
        ensures entries { (entries : ℕ → ℕ → ℕ) → HasEntries entries self.now → MatchBool result (ChangesSome D.defaults entries command) (ChangesNothing D.defaults entries command) }
    {
        match command {
            Command::SetKey { layer, key, code } => self.codes[place(layer, key)] != code,
            Command::ResetLayer(layer) => {
                let first = KEYS * layer.number() as usize;
                differs::<D>(&self.codes, first, first + KEYS)
            }
            Command::ResetAll => differs::<D>(&self.codes, 0, ENTRIES),
        }
    }

    /// Returns the first place at or after `from` whose entry differs from the default, with the
    /// command that sets that entry; a place is 96 times the layer plus the key.
    pub fn next_changed(&self, from: u16) -> Option<(u16, Command)>
        ensures table { MatchOption result (IsDefaultFrom D.defaults (code_at self.now) from) (λ r. IsNextChanged D.defaults (code_at self.now) from r.0 r.1) }
        ensures entries { (entries : ℕ → ℕ → ℕ) → HasEntries entries self.now → MatchOption result (IsDefaultFrom D.defaults entries from) (λ r. IsNextChanged D.defaults entries from r.0 r.1) }
        ensures a_command { IfSome result (λ r. IsCommand r.1) }
    {
        for place in from..ENTRIES as u16 {
            let code = self.codes[place as usize];
            if code != D::code_at(place as usize) {
                return Some((place, set_key_at(place, code)));
            }
        }
        None
    }
}

impl<D: Defaults> PartialEq for KeymapOf<D> {
    ghost eq = { pointwise nat_eq };

    ghost laws = { partial_equiv_from_equiv nat_list_eq_equiv };

    fn eq(&self, other: &KeymapOf<D>) -> bool {
        self.codes == other.codes
    }
}

impl<D: Defaults> Eq for KeymapOf<D> {
    ghost laws = { nat_list_eq_equiv };
}

/// The command that gives the entry at a place this code.
fn set_key_at(place: u16, code: Code) -> Command
    requires { place < ENTRIES }
    ensures value { result ≡ Command.SetKey (place / keys) (place % keys) code }
    ensures a_command { IsCommand result }
{
    Command::SetKey {
        layer: LayerNo::of_place(place),
        key: KeyNo::of_place(place),
        code,
    }
}

/// Where the entry of a key on a layer stands.
fn place(layer: LayerNo, key: KeyNo) -> usize
    ensures value { result ≡ place_of layer key }
    ensures within { result < ENTRIES }
    ensures in_layers { layer < layers }
    ensures in_keys { key < keys }
{
    KEYS * layer.number() as usize + key.number() as usize
}

/// Whether some entry from `start` up to `end` is not its default code.
fn differs<D: Defaults>(codes: &[Code], start: usize, end: usize) -> bool
    requires whole { length codes.now ≡ ENTRIES }
    requires within { end ≤ ENTRIES }
    ensures { MatchBool result ((place : ℕ) × (start ≤ place) × (place < end) × (slice_index codes.now place ≢ default_at D.defaults place)) ((place : ℕ) → start ≤ place → place < end → slice_index codes.now place ≡ default_at D.defaults place) }
{
    for place in start..end {
        if codes[place] != D::code_at(place) {
            return true;
        }
    }
    false
}
