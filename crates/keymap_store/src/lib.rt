//! A keymap that lives in flash: in RAM it is the keymap of the flash's image, and a command is in
//! flash before it is in RAM.
//!
//! A `Store` keeps the log of the flash, the keymap, and the command that works. The guarantee is
//! that after every call the keymap in RAM is that of the flash's image, whatever was torn.
//! `keyboard` calls it: `submit` takes a command, and each `work` makes at most one flash operation
//! for it.
#![tactic(auto)]

mod command_word;
mod store;
pub mod theorems;

pub use store::{Store, StoreOf, SubmitRefusal, Taken, Work};
