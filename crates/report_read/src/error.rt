//! Why a report is not read.

use std::alloc::AllocError;
use thiserror::Error;

/// Why a report is not read. Where several hold, the first is reported.
#[derive(Clone, Copy, Debug, PartialEq, Eq, Error)]
pub enum ReadingError {
    /// The report has no byte.
    #[error("the report is empty")]
    Empty,
    /// There is no report of this kind with the ID that it begins with, or none of this kind where no IDs are used.
    #[error("the descriptor has no such report")]
    UnknownReport,
    /// It is shorter than the descriptor declares.
    #[error("the report is too short")]
    Short,
    /// Two reports that are compared have different IDs.
    #[error("the two reports have different IDs")]
    OtherId,
    /// It has no such field, or the field is not of Buffered Bytes.
    #[error("the report has no such field of Buffered Bytes")]
    NoSuchField,
    /// There was no memory.
    #[error("out of memory")]
    Memory,
}

impl From<AllocError> for ReadingError {
    ghost use Rattle.std.specs.Prelude.{◌≡◌};
    ghost use Rattle.report_read.specs.declared.error.ReadingError.{ReadingError};

    ghost from_gives = { λ _ e. e ≡ ReadingError.Memory };

    fn from(_: AllocError) -> ReadingError {
        ReadingError::Memory
    }
}
