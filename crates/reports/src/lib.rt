//! Input reports: the bytes of each report for a set of usages, and which of them a poll sends. A
//! report that a scan changes waits in a queue of eight, so that the host sees a key that is pressed and
//! released between two polls. `Poller::new` takes the queue's memory, and nothing else takes any.
//!
//! A `Poller` keeps what was made and what was sent last of each report, how many scans ago it was
//! sent, the reports that wait, and the idle values. The guarantee is that each poll is answered as a history function over the
//! poller's calls says. `key_reports` calls it at each scan and poll.
#![tactic(auto)]

use arrayvec::ArrayVec;

pub mod bytes;
mod idle;
pub mod input_report;
pub mod poller;
mod queue;
mod sent;
pub mod theorems;
pub mod words;

pub use bytes::{bitmap, boot, consumer};
pub use input_report::InputReport;
pub use poller::Poller;

/// The bytes of one report, with its Report ID first where the protocol has IDs.
pub type Report = ArrayVec<u8, 32>;

/// The protocol that the host has chosen (HID 1.11 sections 7.2.5 and 7.2.6).
#[derive(Clone, Copy, Debug, PartialEq, Eq)]
pub enum Protocol {
    /// The fixed layout of the boot keyboard (HID 1.11 appendix B.1).
    Boot,
    /// The layout of the report descriptor.
    Report,
}

/// The reports that an idle request names by its Report ID (HID 1.11 sections 7.2.3 and 7.2.4).
#[derive(Clone, Copy, Debug, PartialEq, Eq)]
pub enum IdleId {
    /// Report ID 0: all input reports.
    All,
    /// Report ID 1.
    One,
    /// Report ID 2.
    Two,
}

/// An input report of the device.
#[derive(Clone, Copy, Debug, PartialEq, Eq)]
pub enum Input {
    /// The boot keyboard's, 8 bytes, in boot protocol.
    Boot,
    /// The keys as a bitmap, 23 bytes with Report ID 1, in report protocol.
    One,
    /// The consumer usages, 9 bytes with Report ID 2, in report protocol.
    Two,
}
