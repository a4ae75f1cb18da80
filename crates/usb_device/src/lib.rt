//! The USB device layer: what stands between a controller and a device that serves the class requests.
//!
//! `UsbDevice` is what a loop calls. `DeviceLayer` serves the standard requests of USB 2.0 chapter 9 in each state of the
//! device, with descriptors and names that a maker lends (`Descriptors`), and hands everything else on to the device behind
//! it (`Endpoints`). `ControlBuffers` and `ReportBuffers` hand the packets of endpoints 0 and 1 to a controller beforehand
//! (`Controller`, `Buffers`). `write` makes a whole control write and `read` a whole control read, for a stack that keeps endpoint 0 to
//! itself. `Guarded` is a maker's lock and pace of feature commands (`guard_theorems`), and `Forgetting` lets no key
//! stay down where the protocol is set. It takes no memory and needs no `unsafe`. Sections are those of USB 2.0.
//!
//! The guarantee: a control write that the host saw the end of was acknowledged, and then confirmed by the empty packet, in
//! the session of the device behind, whatever acknowledgements were lost (`theorems::confirmed_on_the_bus`); `usb_keyboard` leads
//! on to the flash. Each answer of a standard request is that of tables 9-3 and 9-4 in the state that the
//! events before give (`theorems::endpoint_is_looked_back`). The host takes as new the reports of the device, each whole, in
//! their order (`theorems::reports_are_got_in_order`): once, and at least once where the device emptied its buffers and does not know
//! that the host has the status packet, whatever data toggle it then wants. A report that waits where the protocol is set is given up: each is of the protocol in which its first
//! packet was handed over. The controller is told of each change of endpoint 1 before the host. `UsbDevice::serve`
//! looks at what came, asks again for what was put off, and hands over a report that waits, except in a pause of at most 50 scans
//! behind the status packet of a request that sets endpoint 1 or the protocol. Behind it the buffers of endpoint 0 answer as the device did: with its next packet, and by NAK
//! or STALL for a reason. Whatever the host got on endpoint 0, the device gave, in this order.
//!
//! The controller is told its address once the host has acknowledged the status packet of SET_ADDRESS and no later SETUP packet
//! came, and at no other time.
//!
//! A remote wakeup is asked for once in each suspend, where the host enabled it and a report waits (`UsbDevice::wakes`).
#![tactic(auto)]

mod answer;
mod buffers;
mod control_buffers;
mod controller;
mod descriptors;
mod device;
mod device_layer;
mod endpoints;
mod forgetting;
mod guard;
pub mod guard_theorems;
mod guarded;
mod packets;
mod played_buffers;
mod played_controller;
mod quiet_controller;
mod report_buffers;
mod request;
mod strings;
#[cfg(test)]
mod tests;
pub mod theorems;
mod usb_device;
mod whole_reads;
mod whole_transfers;

pub use answer::{Change, Endpoint1, EpAnswer, PollAnswer, Report};
pub use buffers::{Buffers, PacketSize};
pub use control_buffers::ControlBuffers;
pub use controller::{Controller, Input, Output, Waiting};
pub use descriptors::Descriptors;
pub use device::Device;
pub use device_layer::DeviceLayer;
pub use endpoints::Endpoints;
pub use forgetting::Forgetting;
pub use guarded::{Guarded, ScansMatrix};
pub use played_buffers::{Brought, Played, PlayedBuffers};
pub use played_controller::{Played0, PlayedController, Saw};
pub use quiet_controller::QuietController;
pub use report_buffers::ReportBuffers;
pub use usb_device::UsbDevice;
pub use whole_reads::{ReadBytes, read};
pub use whole_transfers::{Status, TransferError, Works, data_status_of, status_of, write};
