//! What a line comes to.

use crate::Answer;

/// What a line of a script prints after its number.
#[derive(Drop)]
pub enum Outcome {
    /// An answer of one of its events.
    Answered(Answer),
    /// So many bytes of the report descriptor came, in a whole transfer.
    Fetched(u16),
}
