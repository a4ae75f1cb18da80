//! What is asked for, and why it is refused.

ghost use Rattle.std.specs.Prelude.{◌≡◌};

use field_values::Asked;
use std::alloc::AllocError;
use thiserror::Error;

/// Which control of a report is set.
#[derive(Clone, Copy, Debug, PartialEq, Eq)]
pub enum Target {
    /// A usage, with its page in the high half. `place` counts what in the report has it, in order, from 0: each place of a
    /// Variable field, and each Array whose list has it.
    Usage {
        /// The usage.
        usage: u32,
        /// Which of those that have it.
        place: usize,
    },
    /// A place of a field, by the field's place in the descriptor's.
    Field {
        /// The field.
        field: usize,
        /// The place in it.
        place: usize,
    },
}

/// A control of a report, and what it is set to.
#[derive(Clone, Copy, Debug, PartialEq, Eq)]
pub struct Setting {
    /// Which one.
    pub target: Target,
    /// To what.
    pub asked: Asked,
}

/// Why nothing is written. The first four are of the report: the first that holds is reported. The others but `Memory` are of a
/// setting, by its number from 0, and are told of the first one that is refused: of several the first in this order, but for a
/// usage of an Array, which is refused as `NoNull`, `OutOfRange` where it is set to neither 0 nor 1, `TooLarge`, `OutOfRange`,
/// `NoRoom` or `Twice`.
#[derive(Clone, Copy, Debug, PartialEq, Eq, Error)]
pub enum WriteError {
    /// The descriptor has no such report.
    #[error("the descriptor has no such report")]
    UnknownReport,
    /// The report that was given begins with another ID.
    #[error("the given report has another ID")]
    OtherId,
    /// The report that was given is too short.
    #[error("the given report is too short")]
    Short,
    /// In a new report a place of this Array, by its place among the descriptor's fields, can't say that it names no usage.
    #[error("the array of field {0} can't be empty")]
    NoUnused(usize),
    /// The report does not have the usage, so many times, or the field or place.
    #[error("setting {0}: the report has no such usage, field or place")]
    Unknown(usize),
    /// The place is set twice. One that a usage was taken out of is free, and may be set again.
    #[error("setting {0}: the place is set twice")]
    Twice(usize),
    /// A null, and the field has no Null State, or no value for it.
    #[error("setting {0}: the field has no null")]
    NoNull(usize),
    /// The value does not fit into the bits.
    #[error("setting {0}: the value does not fit")]
    TooLarge(usize),
    /// The value is outside the logical extents, or is neither 0 nor 1 for a usage of an Array.
    #[error("setting {0}: the value is out of range")]
    OutOfRange(usize),
    /// Each place of the Array names another usage or is set, or none can say that it names no usage.
    #[error("setting {0}: the array has no room")]
    NoRoom(usize),
    /// There was no memory.
    #[error("out of memory")]
    Memory,
}

impl From<AllocError> for WriteError {
    ghost use Rattle.std.specs.Prelude.{◌≡◌};
    ghost use Rattle.report_write.specs.declared.setting.WriteError.{WriteError};

    ghost from_gives = { λ _ e. e ≡ WriteError.Memory };

    fn from(_: AllocError) -> WriteError {
        WriteError::Memory
    }
}
