//! Values in the bits of reports (HID 1.11, sections 5.6, 5.8, 5.10 and 6.2.2.5 to 6.2.2.8).
//!
//! [`read_place`] reads a place of a field: its number, where that is by the logical extents, and the usage that it has
//! or names. [`set_place`] writes a value or a null into one, and [`write_place`] a value. The guarantee is that what is
//! read there is what was asked for, and that each other bit is what it was. [`physical_value`] is what a value is in
//! its unit, as an exact fraction.
//!
//! Nothing is kept, and nothing takes memory.
#![tactic(auto)]

mod bits;
mod fill;
mod list;
mod null;
mod physical;
mod place;
pub mod theorems;
mod value;

pub use bits::put_number;
pub use fill::fill_places;
pub use list::{is_no_control, is_unused, number_of_usage, number_of_usage_from};
pub use null::{Asked, is_null, null_of, set_place};
pub use physical::{Extents, NoPhysical, Physical, physical_value};
pub use place::{PlaceError, is_held, is_within, put_value, write_place};
pub use value::{PlaceValue, Within, raw_at, read_place, usage_of, where_is};
