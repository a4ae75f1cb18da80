//! The words that a change is kept as.

ghost use Rattle.std.specs.Prelude.{◌≡◌, ◌+◌, ◌<◌, ◌≤◌, ◌^◌, ◌↔◌, ◌/◌, Some, IsTrue, IfSome, length, slice_index};
ghost use Rattle.settings.specs.representation.Reading.{IsLen};
ghost use Rattle.settings.specs.Words.{is_data, head_of, word_bytes, is_known, words_of, words_with, data_word};

use crate::change::{Change, Value};

/// The words of three zero bytes, of a value without bytes of id 0, and of the removal of id 0.
const DATA: u32 = 0x4000_0000;

const VALUE: u32 = 0x7100_0000;

const REMOVAL: u32 = 0x7000_0000;

/// How many values there are of what stands in the lowest byte, the lowest two, and the lowest three.
const BYTE: u32 = 1 << 8;

const TWO_BYTES: u32 = 1 << 16;

const THREE_BYTES: u32 = 1 << 24;

/// What a word that begins a change says.
#[derive(Clone, Copy)]
pub struct Head {
    pub id: u16,
    /// How many bytes its value has; `None` where it has no value any more.
    pub len: Option<u8>,
}

/// Whether a word has bytes of a value.
#[tactic(auto, unfolding(crate::specs::Words::is_data))]
pub fn is_data(word: u32) -> bool
    ensures { result ≡ is_data word }
{
    word / THREE_BYTES == DATA / THREE_BYTES
}

/// The bytes of such a word.
pub fn word_bytes(word: u32) -> [u8; 3]
    ensures { result ≡ word_bytes word }
{
    [
        (word % BYTE) as u8,
        (word / BYTE % BYTE) as u8,
        (word / TWO_BYTES % BYTE) as u8,
    ]
}

/// What a word says that begins a change.
#[tactic(auto, unfolding(crate::specs::Words::head_of))]
pub fn head_of(word: u32) -> Option<Head>
    ensures head { result ≡ head_of word }
    ensures small { IfSome result (λ head. IsLen head.len) }
{
    let kind = word / THREE_BYTES;
    let len = word / TWO_BYTES % BYTE;
    let id = (word % TWO_BYTES) as u16;
    if kind == VALUE / THREE_BYTES && len <= 64 {
        return Some(Head {
            id,
            len: Some(len as u8),
        });
    }
    if kind == REMOVAL / THREE_BYTES && len == 0 {
        return Some(Head { id, len: None });
    }
    None
}

/// Whether a word is one of settings.
#[tactic(auto, unfolding(crate::specs::Words::is_known))]
pub fn is_known(word: u32) -> bool
    ensures { result ≡ is_known word }
{
    is_data(word) || head_of(word).is_some()
}

/// How many words a change has, 1 to 23.
pub fn size(change: &Change) -> u8
    ensures words { result ≡ length (words_of change.now) }
    ensures few { (1 ≤ result) × (result ≤ 23) }
{
    match &change.value {
        Some(value) => 1 + (value.len() + 2) / 3,
        None => 1,
    }
}

/// A word of a change, from 0 on.
pub fn word_at(change: &Change, at: u8) -> u32
    requires { at < length (words_of change.now) }
    ensures word { result ≡ slice_index (words_of change.now) at }
    ensures small { result < 2 ^ 31 }
{
    match &change.value {
        None => REMOVAL + u32::from(change.id),
        Some(value) => value_word_at(change.id, value, at),
    }
}

/// A word of an id and its value.
fn value_word_at(id: u16, value: &Value, at: u8) -> u32
    requires { at < 1 + (length value.now + 2) / 3 }
    ensures word { result ≡ slice_index (words_with id (Some value.now)) at }
    ensures small { result < 2 ^ 31 }
{
    let len = value.len();
    if at == 0 {
        VALUE + len as u32 * TWO_BYTES + u32::from(id)
    } else {
        data_word(value.as_bytes(), 3 * (at - 1))
    }
}

/// The word of three bytes from one on; what is missing is zeros.
fn data_word(bytes: &[u8], at: u8) -> u32
    requires { at ≤ 64 }
    ensures word { result ≡ data_word (slice_index bytes.now at) (slice_index bytes.now (at + 1)) (slice_index bytes.now (at + 2)) }
    ensures small { result < 2 ^ 31 }
{
    let a = byte_at(bytes, at as usize);
    let b = byte_at(bytes, (at + 1) as usize);
    let c = byte_at(bytes, (at + 2) as usize);
    DATA + c * TWO_BYTES + b * BYTE + a
}

/// A byte, or 0 past the end.
fn byte_at(bytes: &[u8], at: usize) -> u32
    ensures byte { result ≡ slice_index bytes.now at }
    ensures small { result < 256 }
{
    match bytes.get(at) {
        Some(byte) => u32::from(*byte),
        None => 0,
    }
}
