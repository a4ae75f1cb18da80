//! What a report descriptor declares beside the bits of its fields (HID 1.11, sections 6.2.2.4 to 6.2.2.8).
//!
//! [`parse_details`] parses a text as `descriptor_parse` does, and keeps of each data item, padding among them, all bits of the
//! item, the logical and the physical extents, the unit and its power of ten, the collections around it, and its strings and
//! designators. Who asks for the fields alone pays nothing for it.
//!
//! The guarantee is that each of these is exactly what the items before the data item say, as a function of the history.
#![tactic(auto)]

mod applications;
mod around;
pub mod collection;
pub mod detail;
mod details;
mod extents;
mod names;
mod naming;
mod pending;
mod placed;
mod report;
mod text;
pub mod theorems;
pub mod unit;
mod walk;

pub use applications::Applications;
pub use around::Around;
pub use collection::Collection;
pub use detail::Detail;
pub use details::Details;
pub use placed::{Placed, PlacedFields};
pub use report::{ReportFacts, Reports, ReportsOf};
pub use text::parse_details;
pub use unit::Dimension;
