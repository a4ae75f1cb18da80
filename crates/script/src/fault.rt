//! Why a script is refused.

use thiserror::Error;

/// What is wrong with a line of a script. A line is checked in this order: its first word, the
/// number of its words, and then each word from the left.
#[derive(Clone, Copy, Debug, PartialEq, Eq, Error)]
pub enum LineFault {
    /// The first word begins no line of the language.
    #[error("unknown word")]
    UnknownWord,
    /// There are more or fewer words than this line takes.
    #[error("wrong words")]
    WrongWords,
    /// A word is no decimal number of 1 to 5 digits, or its number is out of its range.
    #[error("bad number")]
    BadNumber,
    /// A word is not the hex digits of as many bytes as this line takes.
    #[error("bad hex")]
    BadHex,
}

/// Why the lines of a script are refused.
#[derive(Clone, Copy, Debug, PartialEq, Eq, Error)]
pub enum ScriptError {
    /// A line is not of the language. Lines are counted from 1.
    #[error("line {line}: {fault}")]
    Line { line: usize, fault: LineFault },
    /// A request for memory was refused.
    #[error("out of memory")]
    Memory,
}
