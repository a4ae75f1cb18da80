//! The lenient mode of the reader of report descriptors (HID 1.11, section 6.2.2).
//!
//! [`parse_lenient`] gives a text that `descriptor_parse::parse` refuses the answer to another one, and says which faults it
//! passed over. [`rewritten`] makes that text:
//!
//! - Of a set between Delimiters the first usage, the first designator and the first string stay.
//! - A data item of a size or a count past the limits, and of 2^20 bits at most, is padding of as many bits.
//! - In a text with Report IDs, the data items before the first one are left out with their Local items.
//!
//! The guarantee is that a text which the strict reader takes gets the same answer, with nothing passed over, and that the
//! offset of a fault is one in the text itself.
#![tactic(auto)]

mod ahead;
pub mod lenient;
mod output;
mod parts;
mod seen;
mod sizes;
mod state;
mod text;

pub use lenient::{Lenient, rewritten};
pub use text::parse_lenient;
