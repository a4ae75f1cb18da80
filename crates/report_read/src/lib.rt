//! The values of reports, by a kept reader (HID 1.11, sections 5.6, 5.8, 5.10, 6.2.2.5 and 8.1).
//!
//! A [`ReportReader`] is made once of a text. [`ReportReader::read`] gives the values of a report of any kind one by one,
//! in the order of its fields and their places: each with its field and place, the usage that it has or names, the number in
//! its bits and where that is by the logical extents. The guarantee is that each value is exactly what the descriptor says, that
//! none is left out, which refusal is reported, and which bytes are past the end.
//!
//! ```
//! let reader = ReportReader::of_text(alloc, text)?;
//! for value in reader.read(Kind::Input, report)? {
//!     sum += value.raw;
//! }
//! ```
//!
//! [`pressed`] gives the usages that are on in a report, [`changes`] those in which two reports differ, and [`buffered`] the bytes
//! of a field of Buffered Bytes. A reading takes no memory; these three take that of what they give.
#![tactic(auto)]

mod difference;
mod error;
mod items;
mod lane;
mod reader;
mod reading;
mod stream;
pub mod theorems;
mod value;

pub use difference::{Changed, changes, pressed};
pub use error::ReadingError;
pub use lane::Lane;
pub use reader::ReportReader;
pub use reading::Reading;
pub use stream::buffered;
pub use value::Value;
