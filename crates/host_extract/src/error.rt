//! Why a report is not read.

ghost use Rattle.std.specs.Prelude.{◌≡◌};
ghost use Rattle.host_extract.specs.Refusals.{number_of};

use std::alloc::AllocError;
use thiserror::Error;

/// Why a report is not read. Where several hold, the first is reported.
#[derive(Clone, Copy, Debug, PartialEq, Eq, Error)]
pub enum ExtractError {
    /// The report has no byte.
    #[error("the report is empty")]
    Empty = 1,
    /// Report IDs are used, and no input report has the one that the report begins with.
    #[error("no input report has this ID")]
    UnknownId = 2,
    /// The report is shorter than the input report that its descriptor declares.
    #[error("the report is too short")]
    Short = 3,
    /// A growth was refused.
    #[error("out of memory")]
    Memory = 4,
}

impl ExtractError {
    /// Returns the number of the refusal, 1 to 4.
    pub fn number(self) -> u8
        ensures { result ≡ number_of self }
    {
        self as u8
    }
}

impl From<AllocError> for ExtractError {
    ghost use Rattle.std.specs.Prelude.{◌≡◌};
    ghost use Rattle.host_extract.specs.declared.error.ExtractError.{ExtractError};

    ghost from_gives = { λ _ e. e ≡ ExtractError.Memory };

    fn from(_: AllocError) -> ExtractError {
        ExtractError::Memory
    }
}
