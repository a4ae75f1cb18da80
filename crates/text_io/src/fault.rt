//! Why a text is not read, or not printed.

use thiserror::Error;

/// Why not all of a text is read.
#[derive(Clone, Copy, Debug, PartialEq, Eq, Error)]
pub enum ReadError {
    /// The reader gives more bytes than were asked for.
    #[error("the text is too long")]
    TooLong,
    /// The reader failed, or was interrupted.
    #[error("the text can't be read")]
    Input,
    /// A request for memory was refused.
    #[error("out of memory")]
    Memory,
}

/// The writer failed, was interrupted, or took no byte.
#[derive(Clone, Copy, Debug, PartialEq, Eq, Error)]
#[error("the output can't be written")]
pub struct WriteError;
