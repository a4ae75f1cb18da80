//! A log of words over the pages of a NOR flash.
//!
//! A page is a log page where its slot 0 is a header: a Good slot whose word holds a format, 1 or 2,
//! and a sequence number of 28 bits. The page with the greatest number is the active one, and the
//! Good words of its slots 1 to 511 are the words of the log. Pages of format 1 are only read; what
//! is written is of format 2.
//!
//! A log makes one flash operation a step. After a fault it reads back what it wrote: an operation
//! that reads as intended is done, and any other leaves the words as they were. The same holds of an
//! operation that is cut short by the power (`theorems::an_operation_leaves`).
//!
//! A `Log` keeps which page is active, its tail, and what is under way; the words stay in the
//! flash. The guarantee is that each step leaves the words as they are or commits what is under way,
//! and nothing between the two, also where the power is cut inside it. `keymap_store` calls it, and
//! whoever keeps settings in NOR flash can.
#![tactic(auto)]

mod attempt;
mod block;
mod header;
mod log;
mod operation;
mod reading;
pub mod theorems;
mod words;

pub use log::{Log, Step, TurnRefusal, Unsound};
pub use words::Words;
