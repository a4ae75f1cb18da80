//! Why a script is not run to its end.

ghost use Rattle.std.specs.Prelude.{◌≡◌};
ghost use Rattle.kbsim.specs.Readers.{unread};

use script::LineFault;
use text_io::ReadError;
use thiserror::Error;

/// Why a run ends before the end of its script.
#[derive(Clone, Copy, Debug, PartialEq, Eq, Error)]
pub enum RunError {
    /// The number of pages is not 2 to 8. Nothing was read.
    #[error("the flash has 2 to 8 pages")]
    PageCount,
    /// A line is not of the language. Lines are counted from 1. No event was run.
    #[error("line {line}: {fault}")]
    Line { line: usize, fault: LineFault },
    /// The script is longer than 1,048,576 bytes.
    #[error("the script is longer than 1048576 bytes")]
    TooLong,
    /// The reader of the script or of the image failed, or was interrupted.
    #[error("the input can't be read")]
    Input,
    /// The image is not 2 to 8 whole pages of 4,096 bytes. No event was run.
    #[error("the image is not 2 to 8 pages of 4096 bytes")]
    Image,
    /// The writer failed, or took no byte. Nothing was printed after that.
    #[error("the output can't be written")]
    Output,
    /// A request for memory was refused.
    #[error("out of memory")]
    Memory,
}

impl From<ReadError> for RunError {
    ghost from_gives = { λ e fault. fault ≡ unread e };

    fn from(error: ReadError) -> RunError {
        match error {
            ReadError::TooLong => RunError::TooLong,
            ReadError::Input => RunError::Input,
            ReadError::Memory => RunError::Memory,
        }
    }
}
