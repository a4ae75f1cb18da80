//! The numbers that a keymap is made of.

ghost use Rattle.std.specs.Prelude.{◌≡◌, ◌/◌, ◌%◌, ◌<◌, ◌==◌, ℕ, false, MatchOption, IfSome, IsTrue, if◌then◌else◌, nat_lt, Ok, Err};
ghost use Rattle.layers.specs.Codes.{activates, names_key_usage, names_consumer, is_code, layers, keys, default_at};
ghost use Rattle.layers.specs.Standard.{standard};

use std::marker::Model;

/// Why a number names no part of a keymap.
#[derive(Clone, Copy, Debug, PartialEq, Eq)]
pub enum KeymapError {
    /// The operation is none of 1, 2 and 3.
    BadOperation,
    /// The layer is 4 or more.
    BadLayer,
    /// The key is 96 or more.
    BadKey,
    /// The number is no code.
    BadCode,
}

/// How many layers there are.
pub(crate) const LAYERS: usize = 4;

/// How many keys there are.
pub(crate) const KEYS: usize = 96;

/// How many entries a keymap has: one for each key on each layer.
pub const ENTRIES: usize = LAYERS * KEYS;

/// The usages of page 07h that are codes, from `a` on.
const KEY_FIRST: u16 = 0x0004;

const KEY_LAST: u16 = 0x00A4;

/// The modifiers among the usages of page 07h.
const MODIFIER_FIRST: u16 = 0x00E0;

const MODIFIER_LAST: u16 = 0x00E7;

/// The codes of the consumer usages 001h to 3FFh: the usage above this number.
const CONSUMER_BASE: u16 = 0x4000;

const CONSUMER_FIRST: u16 = 0x4001;

const CONSUMER_LAST: u16 = 0x43FF;

/// The codes that activate layers 1 to 3: the layer above this number.
const MOMENTARY_BASE: u16 = 0x5000;

const MOMENTARY_FIRST: u16 = 0x5001;

const MOMENTARY_LAST: u16 = 0x5003;

/// What a key does, in 16 bits: 0000h nothing, 0001h what a lower active layer says, 0004h to
/// 00A4h and 00E0h to 00E7h this usage of the keyboard page (HUT section 10), 4001h to 43FFh the
/// usage 001h to 3FFh of the consumer page (HUT section 15), 5001h to 5003h to activate layer 1 to
/// 3 while it is held. Nothing else is a code.
///
/// ```rust
/// use wuzhikar::{Code, KeymapError};
///
/// let escape = Code::read(0x0029)?;
/// assert_eq!(escape.bits(), 0x0029);
/// assert_eq!(Code::read(0xffff), Err(KeymapError::BadCode));
/// # Ok::<(), KeymapError>(())
/// ```
#[derive(Clone, Copy, Debug, PartialEq, Eq)]
pub struct Code {
    bits: u16,
}

/// A layer, 0 to 3.
#[derive(Clone, Copy, Debug, PartialEq, Eq)]
pub struct LayerNo {
    layer: u8,
}

/// A key, 0 to 95.
#[derive(Clone, Copy, Debug, PartialEq, Eq)]
pub struct KeyNo {
    key: u8,
}

impl Model for Code {
    ghost use Rattle.std.specs.Prelude.{ℕ, IsTrue};
    ghost use Rattle.layers.specs.Codes.{is_code};

    ghost Value = { ℕ };

    ghost view = { λ c. c.bits };

    ghost invariant = { λ c. IsTrue (is_code c.bits) };

    ghost inverse = { λ n. record { bits = n } };
}

impl Model for LayerNo {
    ghost use Rattle.std.specs.Prelude.{ℕ, ◌<◌};

    ghost Value = { ℕ };

    ghost view = { λ l. l.layer };

    ghost invariant = { λ l. l.layer < 4 };

    ghost inverse = { λ n. record { layer = n } };
}

impl Model for KeyNo {
    ghost use Rattle.std.specs.Prelude.{ℕ, ◌<◌};

    ghost Value = { ℕ };

    ghost view = { λ k. k.key };

    ghost invariant = { λ k. k.key < 96 };

    ghost inverse = { λ n. record { key = n } };
}

impl Code {
    /// A key with this code does nothing.
    pub const NONE: Code = Code { bits: 0x0000 };

    /// A key with this code does what a lower active layer says.
    pub const TRANSPARENT: Code = Code { bits: 0x0001 };

    /// The code with these bits; `BadCode` where they are none.
    pub const fn read(bits: u16) -> Result<Code, KeymapError>
        ensures { result ≡ (if is_code bits then Ok bits else Err KeymapError.BadCode) }
    {
        match bits {
            0x0000
            | 0x0001
            | KEY_FIRST..=KEY_LAST
            | MODIFIER_FIRST..=MODIFIER_LAST
            | CONSUMER_FIRST..=CONSUMER_LAST
            | MOMENTARY_FIRST..=MOMENTARY_LAST => Ok(Code { bits }),
            _ => Err(KeymapError::BadCode),
        }
    }

    /// The code of bits that are known to be one.
    #[inline(always)]
    pub const fn known(bits: u16) -> Code
        requires { IsTrue (is_code bits) }
        ensures { result ≡ bits }
    {
        Code { bits }
    }

    /// The standard default code of the entry at a place, 96 times the layer plus the key.
    pub(crate) fn standard_at(place: usize) -> Code
        requires { place < ENTRIES }
        ensures { result ≡ default_at standard place }
    {
        match place {
            0..88 => Code {
                bits: 0x0004 + place as u16,
            },
            88..96 => Code {
                bits: 0x00E0 + (place as u16 - 88),
            },
            _ => Code::TRANSPARENT,
        }
    }

    /// The usage of page 07h that the code names, if it names one.
    pub(crate) fn key_usage(self) -> Option<u8>
        ensures { MatchOption result ((usage : ℕ) → names_key_usage usage self ≡ false) (λ u. (usage : ℕ) → names_key_usage usage self ≡ (u == usage)) }
    {
        match self.bits {
            KEY_FIRST..=KEY_LAST | MODIFIER_FIRST..=MODIFIER_LAST => Some(self.bits as u8),
            _ => None,
        }
    }

    /// The usage of page 0Ch that the code names, if it names one.
    pub(crate) fn consumer_usage(self) -> Option<u16>
        ensures names { MatchOption result ((usage : ℕ) → names_consumer usage self ≡ false) (λ u. (usage : ℕ) → names_consumer usage self ≡ (u == usage)) }
        ensures within { IfSome result (λ u. u < 0x400) }
    {
        match self.bits {
            CONSUMER_FIRST..=CONSUMER_LAST => Some(self.bits - CONSUMER_BASE),
            _ => None,
        }
    }

    /// The layer that a key with this code activates while it is held, if it activates one.
    pub(crate) fn layer(self) -> Option<LayerNo>
        ensures { MatchOption result ((layer : ℕ) → activates layer self ≡ false) (λ l. (layer : ℕ) → activates layer self ≡ (l == layer)) }
    {
        match self.bits {
            MOMENTARY_FIRST..=MOMENTARY_LAST => Some(LayerNo {
                layer: (self.bits - MOMENTARY_BASE) as u8,
            }),
            _ => None,
        }
    }

    /// Returns the bits of the code.
    pub fn bits(self) -> u16
        ensures value { result ≡ self }
        ensures a_code { IsTrue (is_code result) }
    {
        self.bits
    }
}

impl LayerNo {
    /// The layer of this number; `BadLayer` where it is 4 or more.
    pub fn read(layer: u8) -> Result<LayerNo, KeymapError>
        ensures { result ≡ (if nat_lt layer layers then Ok layer else Err KeymapError.BadLayer) }
    {
        if layer < 4 {
            Ok(LayerNo { layer })
        } else {
            Err(KeymapError::BadLayer)
        }
    }

    /// The layer of a number that is known to be one.
    pub fn known(layer: u8) -> LayerNo
        requires { layer < layers }
        ensures { result ≡ layer }
    {
        LayerNo { layer }
    }

    /// The layer of a place.
    pub(crate) fn of_place(place: u16) -> LayerNo
        requires { place < ENTRIES }
        ensures { result ≡ place / keys }
    {
        LayerNo {
            layer: (place / 96) as u8,
        }
    }

    /// Returns the number of the layer, 0 to 3.
    pub fn number(self) -> u8
        ensures value { result ≡ self }
        ensures a_layer { result < layers }
    {
        self.layer
    }
}

impl KeyNo {
    /// The key of this number; `BadKey` where it is 96 or more.
    pub fn read(key: u8) -> Result<KeyNo, KeymapError>
        ensures { result ≡ (if nat_lt key keys then Ok key else Err KeymapError.BadKey) }
    {
        if key < 96 {
            Ok(KeyNo { key })
        } else {
            Err(KeymapError::BadKey)
        }
    }

    /// The key of a number that is known to be one.
    pub fn known(key: u8) -> KeyNo
        requires { key < keys }
        ensures { result ≡ key }
    {
        KeyNo { key }
    }

    /// The key of a place.
    pub(crate) fn of_place(place: u16) -> KeyNo
        ensures { result ≡ place % keys }
    {
        KeyNo {
            key: (place % 96) as u8,
        }
    }

    /// Returns the number of the key, 0 to 95.
    pub fn number(self) -> u8
        ensures value { result ≡ self }
        ensures a_key { result < keys }
    {
        self.key
    }
}
