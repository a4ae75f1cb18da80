//! The keys that are held, each with the code that it got at its press.

ghost use Rattle.std.specs.Prelude.{◌≡◌, ◌<◌, ◌≤◌, ◌||◌, ℕ, Bool, true, false, Option, List, [], ◌∷◌, length, is_some, slice_index_or, if◌then◌else◌};
ghost use Rattle.layers.specs.Codes.{keys, transparent, activates};
ghost use Rattle.layers.specs.Held.{is_active, resolved, code, active, HeldCall, Press, Release};
ghost use Rattle.layers.specs.representation.HeldRelation.{kept, HeldRefines, AreNamed, AreActive, with_names, Puts};
ghost use Rattle.layers.specs.Keymaps.{code_at};
ghost use Rattle.layers.specs.Usages.{has_key, has_consumer, key_usages, consumer_usages};

use crate::bits::{contains, insert, next_member, remove};
use crate::code::{KEYS, LAYERS};
use crate::{Code, Defaults, KeyNo, KeymapOf, LayerNo, Usages};
use std::marker::Model;

/// How many words of 32 bits hold the keys.
const KEY_WORDS: usize = 3;

/// The code of each key that is held, and what these codes name.
#[derive(Clone, Debug, Drop)]
pub struct Held {
    /// The code of a held key is that of its press; of another key any.
    codes: [Code; KEYS],
    /// The keys that are held, as bits.
    held: [u32; KEY_WORDS],
    /// The usages that the codes named when they were named last, and those of the codes since then.
    usages: Usages,
    /// The layers that they activate, likewise.
    active: [bool; LAYERS],
    /// Whether these are the usages and the layers of the codes: no key was released since.
    named: bool,
}

impl Model for Held {
    ghost use Rattle.std.specs.Prelude.{◌≡◌, true, length};
    ghost use Rattle.layers.specs.representation.HeldRelation.{HeldValue, AreNamed, kept};

    ghost Value = { HeldValue };

    ghost view = { λ h. record { codes = h.codes; held = h.held; named = h.named } };

    ghost invariant = { λ h. (length h.codes ≡ 96) × (length h.held ≡ 3) × (length h.active ≡ 4)
        × (h.named ≡ true → AreNamed (kept h.codes h.held) h.usages h.active) };
}

impl Held {
    /// No key is held.
    pub fn new() -> Held
        ensures refines { HeldRefines [] result }
        ensures named { result.named ≡ true }
    {
        Held {
            codes: [Code::NONE; KEYS],
            held: [0; KEY_WORDS],
            usages: Usages::none(),
            active: [false; LAYERS],
            named: true,
        }
    }

    /// Leaves what `new` gives: no key is held.
    pub fn clear(&mut self)
        ensures refines { HeldRefines [] self.new }
        ensures named { self.new.named ≡ true }
    {
        self.held = [0; KEY_WORDS];
        self.usages.clear();
        self.active = no_layers();
        self.named = true;
    }

    /// Presses a key: its code is that of the keymap on the highest active layer where it is not
    /// transparent, with the layers that were active before; `Code::NONE` where it is transparent
    /// on each. A key that is held stays as it is.
    pub fn press<D: Defaults>(&mut self, keymap: &KeymapOf<D>, key: KeyNo)
        ensures { (past : List HeldCall) → HeldRefines past self.old → HeldRefines (Press keymap.now key ∷ past) self.new }
    {
        if !self.holds(key) {
            self.name_usages();
            self.put(keymap, key);
        }
    }

    /// Whether a key is held.
    fn holds(&self, key: KeyNo) -> bool
        ensures is { result ≡ is_some (kept self.now.codes self.now.held key) }
        ensures a_key { key < keys }
    {
        contains(&self.held, u16::from(key.number()))
    }

    /// Gives a key that is not held the code that it has now.
    fn put<D: Defaults>(&mut self, keymap: &KeymapOf<D>, key: KeyNo)
        requires named { self.old.named ≡ true }
        requires free { is_some (kept self.old.codes self.old.held key) ≡ false }
        ensures { Puts self.old self.new key (resolved (code_at keymap.now) (kept self.old.codes self.old.held) key) }
    {
        let place = key.number();
        let code = resolve(&self.active, keymap, key);
        self.codes[place as usize] = code;
        insert(&mut self.held, u16::from(place));
        self.usages.add(code);
        activate(&mut self.active, code);
    }

    /// Releases a key; one that is not held stays as it is.
    pub fn release(&mut self, key: KeyNo)
        ensures { (past : List HeldCall) → HeldRefines past self.old → HeldRefines (Release key ∷ past) self.new }
    {
        remove(&mut self.held, u16::from(key.number()));
        self.named = false;
    }

    /// Names what the codes name, where a key was released since they were named: `lent` then has it.
    pub fn name_usages(&mut self)
        ensures { self.new ≡ with_names self.old }
    {
        if !self.named {
            self.active = name(&self.codes, &self.held, &mut self.usages);
            self.named = true;
        }
    }

    /// Returns whether a layer is active: layer 0 is, another while a key with its momentary code is
    /// held.
    pub fn active(&self, layer: LayerNo) -> bool
        ensures { (past : List HeldCall) → HeldRefines past self.now → result ≡ active past layer }
    {
        if self.named {
            is_active(&self.active, layer)
        } else {
            let (_, active) = self.names();
            is_active(&active, layer)
        }
    }

    /// Returns the code of a key, fixed at its press; None while it is not held.
    pub fn code(&self, key: KeyNo) -> Option<Code>
        ensures { (past : List HeldCall) → HeldRefines past self.now → result ≡ code past key }
    {
        if self.holds(key) {
            Some(self.codes[key.number() as usize])
        } else {
            None
        }
    }

    /// Returns the usages that the codes of the held keys name.
    pub fn usages(&self) -> Usages
        ensures keys { (past : List HeldCall) (usage : ℕ) → HeldRefines past self.now → has_key result usage ≡ key_usages past usage }
        ensures consumer { (past : List HeldCall) (usage : ℕ) → HeldRefines past self.now → has_consumer result usage ≡ consumer_usages past usage }
    {
        if self.named {
            self.usages
        } else {
            let (usages, _) = self.names();
            usages
        }
    }

    /// Returns the same usages, lent, where they were named.
    pub fn lent(&self) -> &Usages
        requires { self.now.named ≡ true }
        ensures keys { (past : List HeldCall) (usage : ℕ) → HeldRefines past self.now → has_key result.now usage ≡ key_usages past usage }
        ensures consumer { (past : List HeldCall) (usage : ℕ) → HeldRefines past self.now → has_consumer result.now usage ≡ consumer_usages past usage }
    {
        &self.usages
    }

    /// The usages that the codes name, and the layers that they activate.
    fn names(&self) -> (Usages, [bool; LAYERS])
        ensures { AreNamed (kept self.now.codes self.now.held) result.0 result.1 }
    {
        let mut usages = Usages::none();
        let active = name(&self.codes, &self.held, &mut usages);
        (usages, active)
    }
}

/// No layer.
fn no_layers() -> [bool; LAYERS]
    ensures size { length result ≡ 4 }
    ensures none { (layer : ℕ) → slice_index_or result layer false ≡ false }
{
    [false; LAYERS]
}

/// The code of a key on the highest active layer where it is not transparent.
fn resolve<D: Defaults>(active: &[bool; LAYERS], keymap: &KeymapOf<D>, key: KeyNo) -> Code
    ensures { (codes : ℕ → Option ℕ) → AreActive codes active.now → result ≡ resolved (code_at keymap.now) codes key }
{
    for number in (0..layers_to_ask(active)).rev() {
        let code = code_where_active(active, keymap, LayerNo::known(number), key);
        if code != Code::TRANSPARENT {
            return code;
        }
    }
    Code::NONE
}

/// How many layers are to be asked, from layer 0 on: no layer above them is active.
fn layers_to_ask(active: &[bool; LAYERS]) -> u8
    ensures some { 0 < result }
    ensures most { result ≤ 4 }
    ensures rest { (layer : ℕ) → result ≤ layer → layer < 4 → slice_index_or active.now layer false ≡ false }
{
    if active[1] || active[2] || active[3] {
        4
    } else {
        1
    }
}

/// The code of a key on a layer that is active, transparent on another.
fn code_where_active<D: Defaults>(
    active: &[bool; LAYERS],
    keymap: &KeymapOf<D>,
    layer: LayerNo,
    key: KeyNo,
) -> Code
    ensures { (codes : ℕ → Option ℕ) → AreActive codes active.now
        → result ≡ (if is_active codes layer then code_at keymap.now layer key else transparent) }
{
    if is_active(active, layer) {
        keymap.get(layer, key)
    } else {
        Code::TRANSPARENT
    }
}

/// Whether a layer is active where these are the layers that held keys activate.
fn is_active(active: &[bool; LAYERS], layer: LayerNo) -> bool
    ensures { (codes : ℕ → Option ℕ) → AreActive codes active.now → result ≡ is_active codes layer }
{
    layer.number() == 0 || active[layer.number() as usize]
}

/// Adds the layer that a code activates, if it activates one.
fn activate(active: &mut [bool; LAYERS], code: Code)
    ensures { (layer : ℕ) → slice_index_or active.new layer false ≡ (activates layer code || slice_index_or active.old layer false) }
{
    if let Some(layer) = code.layer() {
        active[layer.number() as usize] = true;
    }
}

/// Leaves the usages that the codes of these keys name, and gives the layers that they activate.
fn name(codes: &[Code; KEYS], held: &[u32; KEY_WORDS], usages: &mut Usages) -> [bool; LAYERS]
    ensures { AreNamed (kept codes.now held.now) usages.new result }
{
    usages.clear();
    let mut active = no_layers();
    let mut from = 0;
    while let Some(key) = next_member(held, from) {
        let code = codes[key as usize];
        usages.add(code);
        activate(&mut active, code);
        from = key + 1;
    }
    active
}
