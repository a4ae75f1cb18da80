//! A keyboard, its host and its flash, as keys, bus and power supply see them: a list of events, each
//! with its answer.
//!
//! `World` holds a `Keyboard`, a `Host` and a `SimFlash`, and `World::run` hands events on, tears
//! flash operations and cuts the power. The contract of `run` says, for every list of events on every
//! image, what each answer is by what came before it, what the host reads in each report, and what a
//! power cut may leave of the keymap. The theorems say what follows for every history, for each of its
//! sessions and for each report.
//!
//! A `World` keeps these three, and no history: that is the contract's. The guarantee is that of
//! `run`, the theorem of this repository. `kbsim` calls it, and the tests of a host's driver can.
#![tactic(auto)]

mod event;
pub mod examples;
mod injector;
pub mod readings;
pub mod sessions;
pub mod theorems;
mod world;

pub use control_ep::Why;
pub use debounce::Scan;
pub use event::{Answer, Event};
pub use flash_model::Mask;
pub use host::{Reading, UsageList};
pub use injector::Operation;
pub use keymap_store::Work;
pub use reports::Report;
pub use world::{World, WorldOf};
