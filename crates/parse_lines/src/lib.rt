//! Report descriptors as lines of text: the fields of one that is given in hex, and the descriptors that the keyboard serves.
//!
//! [`parse_text`] reads hex digits and prints a line for each field that they declare (HID 1.11, section 6.2.2), and
//! [`parse_bytes`] does so of the bytes themselves. [`describe`] prints the descriptors of the keyboard. They go from any
//! reader to any writer, and keep nothing. The guarantee is that the lines are exactly those of the text, and that a text which
//! is refused is told by its first fault. The program `kbsim_cli` calls them.
#![tactic(auto)]

mod fault;
mod hex_text;
mod print;
mod served;
mod text;

pub use fault::LinesError;
pub use served::describe;
pub use text::{parse_bytes, parse_text, print_fault};
