//! Why lines are not printed.

ghost use Rattle.std.specs.Prelude.{◌≡◌};
ghost use Rattle.parse_lines.specs.Texts.{unread};

use descriptor_parse::ParseError;
use text_io::ReadError;
use thiserror::Error;

/// Why `parse_text` or `describe` ends before its last line.
#[derive(Clone, Copy, Debug, PartialEq, Eq, Error)]
pub enum LinesError {
    /// The text has a character that is no hex digit and no blank, or an odd number of digits.
    #[error("the text is not pairs of hex digits")]
    BadHexText,
    /// The report descriptor has a fault, other than want of memory.
    #[error("the report descriptor is refused: {0}")]
    Refused(ParseError),
    /// The text is longer than 1,048,576 bytes.
    #[error("the text is longer than 1048576 bytes")]
    TooLong,
    /// The reader failed, or was interrupted.
    #[error("the text can't be read")]
    Input,
    /// The writer failed, or took no byte. Nothing was printed after that.
    #[error("the output can't be written")]
    Output,
    /// A request for memory was refused.
    #[error("out of memory")]
    Memory,
}

impl From<ReadError> for LinesError {
    ghost from_gives = { λ e fault. fault ≡ unread e };

    fn from(error: ReadError) -> LinesError {
        match error {
            ReadError::TooLong => LinesError::TooLong,
            ReadError::Input => LinesError::Input,
            ReadError::Memory => LinesError::Memory,
        }
    }
}
