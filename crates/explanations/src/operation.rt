//! The operations of the flash work.

use crate::code::tell_command;
use kbsim::Operation as Asked;
use records::{Slot, classify};
use std::fmt;

/// An operation of the flash work.
#[derive(Clone, Copy, Debug, PartialEq, Eq)]
pub(crate) enum Operation {
    /// A page is erased.
    Erase { page: usize },
    /// The header of a page, with its sequence number.
    Header { page: usize, number: u32 },
    /// An entry is copied to a page that is not active yet.
    Copy { page: usize, slot: usize, word: u32 },
    /// A command's record.
    Record { page: usize, slot: usize, word: u32 },
}

impl Operation {
    /// The operation that a flash was asked for, where this page was active before it.
    pub(crate) fn of(asked: Asked, active: Option<usize>) -> Operation {
        match asked {
            Asked::Erase { page } => Operation::Erase { page },
            Asked::Program { page, slot, bytes } => {
                let word = match classify(bytes) {
                    Slot::Good(word) => word,
                    Slot::Free | Slot::Spoiled => u32::MAX,
                };
                if slot == 0 {
                    Operation::Header {
                        page,
                        number: word % 0x1000_0000,
                    }
                } else if active == Some(page) {
                    Operation::Record { page, slot, word }
                } else {
                    Operation::Copy { page, slot, word }
                }
            }
        }
    }
}

/// Tells an operation.
pub(crate) fn tell_operation<W: fmt::Write>(
    f: &mut fmt::Formatter<W>,
    operation: &Operation,
) -> fmt::Result {
    match operation {
        Operation::Erase { page } => write!(f, "erase of page {page}"),
        Operation::Header { page, number } => write!(
            f,
            "header of page {page}, sequence number {number}"
        ),
        Operation::Copy { page, slot, word } => {
            write!(f, "copy to page {page}, slot {slot}: ")?;
            tell_command(f, *word)
        }
        Operation::Record { page, slot, word } => {
            write!(f, "record in page {page}, slot {slot}: ")?;
            tell_command(f, *word)
        }
    }
}

/// What the operations of a line were.
#[derive(Clone, Copy, Debug)]
pub(crate) struct Made {
    /// How many there were.
    pub(crate) count: u16,
    /// How many of them were copies.
    pub(crate) copies: u16,
    /// The page that was erased, and that which got a header.
    pub(crate) erased: Option<usize>,
    pub(crate) header: Option<usize>,
    /// The last one.
    pub(crate) last: Option<Operation>,
}

impl Made {
    /// No operation.
    pub(crate) const NONE: Made = Made {
        count: 0,
        copies: 0,
        erased: None,
        header: None,
        last: None,
    };

    /// One operation more.
    pub(crate) fn add(&mut self, operation: Operation) {
        self.count = self.count.saturating_add(1);
        match operation {
            Operation::Erase { page } => self.erased = Some(page),
            Operation::Header { page, .. } => self.header = Some(page),
            Operation::Copy { .. } => self.copies = self.copies.saturating_add(1),
            Operation::Record { .. } => {}
        }
        self.last = Some(operation);
    }
}

/// Tells the operations of a whole command.
pub(crate) fn tell_all<W: fmt::Write>(f: &mut fmt::Formatter<W>, made: &Made) -> fmt::Result {
    if let Some(page) = made.erased {
        write!(f, "erase of page {page}, ")?;
    }
    match made.copies {
        0 => {}
        1 => f.write_str("1 copy, ")?,
        copies => write!(f, "{copies} copies, ")?,
    }
    if let Some(page) = made.header {
        write!(f, "header of page {page}, ")?;
    }
    match &made.last {
        Some(operation) => tell_operation(f, operation),
        None => f.write_str("no operation"),
    }
}
