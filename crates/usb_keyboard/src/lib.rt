//! The keyboard on the bus: a command whose status stage the host saw is stored.
//!
//! `UsbKeyboard` is a keyboard with the flash that keeps its keymap, as the device behind the USB device layer
//! (`usb_device::UsbDevice`), or behind a lock and a pace before it (`usb_device::Guarded`). `UsbKeyboard::write` and `read`
//! make whole control transfers, for a stack that keeps endpoint 0 to itself, and know no lock. Each of its calls says how the session goes
//! on, from the image that the keyboard started on. `UsbKeyboardOf` has a maker's own defaults, and a keyboard that is its own or
//! is lent (`HoldsKeyboard`), and all of this holds for them, and where `usb_device::Forgetting` stands before it
//! (`theorems::stored_where_forgotten`).
//!
//! The guarantee: a feature command that the host saw the end of is in the flash, also behind every power loss, until a later
//! command is accepted that writes the entry (`theorems::seen_is_stored`, `theorems::stored_until_written`). The commands accepted since
//! are those that the host sent behind that status stage: of one command, another, and the first again, the last stays. Behind a
//! lock and a pace the keyboard accepts no command while the lock is set, and at most one for each pace
//! (`theorems::accepted_behind_a_guard`), also where `usb_device::Forgetting` stands between (`theorems::accepted_where_forgotten`).
//!
//! What `UsbDevice` says of the device behind it names no first image. So that a session began on what the power loss before
//! it left is said by the clauses of `UsbKeyboard`, and is a premise of `theorems::stored_until_written`.
#![tactic(auto)]

mod device;
mod held;
pub mod theorems;
mod transfers;

pub use device::{UsbKeyboard, UsbKeyboardOf};
pub use held::HoldsKeyboard;
