//! A change of a setting.

ghost use Rattle.std.specs.Prelude.{◌≡◌, ◌+◌, ◌≤◌, ◌<◌, ◌↔◌, ◌^◌, ℕ, length, take, slice_index, IsSome, IfSome, All};
ghost use Rattle.settings.specs.Words.{IsChange};

use std::marker::Model;

/// The most bytes that a value has.
pub const MAX_BYTES: usize = 64;

/// The room for the bytes of a value, in words of three.
pub(crate) const ROOM: usize = 66;

/// The value of a setting: 0 to 64 bytes.
#[derive(Debug, Drop)]
pub struct Value {
    len: u8,
    bytes: [u8; ROOM],
}

impl Model for Value {
    ghost use Rattle.std.specs.Prelude.{ℕ, ◌≤◌, List, take};

    ghost Value = { List ℕ };

    ghost view = { λ s. take s.len s.bytes };

    ghost invariant = { λ s. s.len ≤ 64 };
}

/// What becomes of one setting.
#[derive(Debug, Drop)]
pub struct Change {
    /// Whose value it is.
    pub id: u16,
    /// The new value, or `None` where it has none any more.
    pub value: Option<Value>,
}

impl Value {
    /// A value of these bytes, unless there are more than 64.
    pub fn new(from: &[u8]) -> Option<Value>
        ensures some { IfSome result (λ value. value ≡ from.now) }
        ensures fits { IsSome result ↔ (length from.now ≤ 64) }
    {
        if from.len() > MAX_BYTES {
            return None;
        }
        let mut bytes = [0; ROOM];
        bytes[..from.len()].copy_from_slice(from);
        Some(Value {
            len: from.len() as u8,
            bytes,
        })
    }

    /// The bytes.
    pub fn as_bytes(&self) -> &[u8]
        ensures { result.now ≡ self.now }
    {
        &self.bytes[..self.len as usize]
    }

    /// How many bytes there are.
    pub(crate) fn len(&self) -> u8
        ensures len { result ≡ length self.now }
        ensures short { result ≤ 64 }
    {
        self.len
    }

    /// The same value again.
    pub fn copied(&self) -> Value
        ensures { result ≡ self.now }
    {
        Value {
            len: self.len,
            bytes: self.bytes,
        }
    }

    /// The first bytes of some.
    pub(crate) fn of_bytes(len: u8, bytes: [u8; ROOM]) -> Value
        requires { len ≤ 64 }
        ensures { result ≡ take len bytes }
    {
        Value { len, bytes }
    }
}

/// What the proofs ask of changes holds of each: an id of 16 bits, and bytes, of which there are at
/// most 64.
pub(crate) fn are_changes(changes: &[Change])
    ensures { All (λ change. IsChange change) changes.now }
{
    for change in changes {
        is_change(change);
    }
}

/// A change is one.
fn is_change(change: &Change)
    ensures { IsChange change.now }
{
    let _id = change.id;
    if let Some(value) = &change.value {
        let _len = value.len();
        are_bytes(value.as_bytes());
    }
}

/// Each is a byte.
fn are_bytes(bytes: &[u8])
    ensures { (k : ℕ) → slice_index bytes.now k < 2 ^ 8 }
{
    let _len = bytes.len();
}
