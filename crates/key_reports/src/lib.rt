//! The keys of the device, from scans of the matrix to what a poll of endpoint 1 sends: a debouncer,
//! the codes of the held keys, and the reports of the usages that they name. `KeyReports::new` takes
//! memory, and nothing else does.
//!
//! `KeyReports` keeps these three parts, and nothing beside them. The guarantee is that a report has
//! the usages of the keys that are down, each by the code that it got at its press. `keyboard`
//! calls it at each scan and poll, with the keymap of its store.
#![tactic(auto)]

pub mod key_reports;
mod keys;
pub mod theorems;

pub use debounce::Scan;
pub use key_reports::KeyReports;
pub use reports::{IdleId, Protocol, Report};
