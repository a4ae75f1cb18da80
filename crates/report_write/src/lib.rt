//! Reports that are written from values (HID 1.11, sections 5.6, 5.8, 5.10, 6.2.2.5 and 8.1).
//!
//! [`write`] writes a report of any kind from settings: each names a control, by its usage and the place among those that have
//! it or by field and place, and what it is set to, a value or none. Each other bit is that of the report that is given; in a
//! new one places with Null State are null where there is a value for it, Arrays name no usage, and the rest is 0. The
//! guarantee is that what is read of a control that was set is what was asked for, that no other bit changes, and which
//! refusal is reported.
//!
//! Nothing is kept.
#![tactic(auto)]

mod array;
mod begin;
mod control;
mod fill;
mod hints;
mod kept;
mod known;
mod place;
mod setting;
pub mod theorems;
mod unused;
mod writing;

pub use control::{Control, control_of};
pub use kept::{Kept, kept_at, kept_fields, usages_of};
pub use setting::{Setting, Target, WriteError};
pub use writing::write;
