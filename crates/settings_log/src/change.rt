//! A change of a setting, and the words that it is kept as.

ghost use Rattle.std.specs.Prelude.{◌≡◌, ◌+◌, ◌<◌, ◌≤◌, ◌^◌, MatchOption};
ghost use Rattle.settings_log.specs.Changes.{IsShort};

use crate::words::{Head, MAX_BYTES, data_word, data_words, head_word};

/// What becomes of one setting.
#[derive(Clone, Copy, Debug)]
pub struct Change<'a> {
    /// Whose value it is.
    pub id: u16,
    /// The new value, or `None` where it has none any more.
    pub value: Option<&'a [u8]>,
}

/// The head of a change: whether it is the first and the last of those that are in force together. None where its value has more
/// than 1,024 bytes.
pub fn head_of(change: &Change<'_>, first: bool, last: bool) -> Option<Head>
    ensures { MatchOption result (IsShort change.now → ⊥) (λ head. IsShort change.now × (head.len ≤ 1024)) }
{
    match change.value {
        None => Some(Head {
            id: change.id,
            len: 0,
            removal: true,
            first,
            last,
        }),
        Some(bytes) => {
            if bytes.len() > MAX_BYTES {
                return None;
            }
            Some(Head {
                id: change.id,
                len: bytes.len() as u16,
                removal: false,
                first,
                last,
            })
        }
    }
}

/// How many words a head and its bytes take.
pub fn size(head: Head) -> u16
    requires { head.len ≤ 1024 }
    ensures { result ≤ 343 }
{
    1 + data_words(head.len)
}

/// A word of a change, from 0 on, that has this head.
pub fn word_at(change: &Change<'_>, head: Head, at: u16) -> u32
    requires { head.len ≤ 1024 }
    ensures { result < 2 ^ 31 }
{
    if at == 0 {
        return head_word(head);
    }
    match change.value {
        Some(bytes) => data_word(bytes, 3 * (at as usize - 1)),
        None => 0,
    }
}
