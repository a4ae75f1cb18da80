//! The gathering and reading host.

ghost use Rattle.std.specs.Prelude.{◌≡◌, ◌≤◌, List, [], ◌∷◌, length, true, OnErr, is_ok, is_some, Some};
ghost use Rattle.host_extract.specs.Boot.{boot_descriptor_bytes};
ghost use Rattle.host.specs.Reads.{Reads, ReadsWith};

use crate::gathering::{Gathered, Gathering};
use crate::reading::{Reading, UsageList};
use descriptor_parse::{Descriptor, parse};
use host_extract::{BOOT_DESCRIPTOR, ExtractError, extract, pressed};
use reports::Protocol;
use std::alloc::{AllocError, Global};

/// The bytes of a boot report (HID 1.11, appendix B.1).
const BOOT_LENGTH: usize = 8;

/// A host of the keyboard, as far as it gathers the report descriptor and reads input reports.
///
/// It sees each SETUP packet and each packet of data that the keyboard answers. A GET_DESCRIPTOR of the report
/// descriptor begins a gathering, and each packet is parsed as it comes. Only `packet` and `read` take memory.
#[derive(Debug, Drop)]
pub struct Host {
    alloc: Global,
    gathering: Option<Gathering>,
    kept: Option<Descriptor>,
}

impl Host {
    ghost use Rattle.host.specs.Calls.{HostCall, was_set_up, got_packet, lost};
    ghost use Rattle.host.specs.Kept.{gathering};
    ghost use Rattle.host.specs.Reads.{Reads, text_by};
    ghost use Rattle.host.specs.representation.Refines.{Refines};

    /// Makes a host that keeps no descriptor.
    pub fn new(alloc: Global) -> Host
        ensures { Refines [] result }
    {
        Host {
            alloc,
            gathering: None,
            kept: None,
        }
    }

    /// Takes a SETUP packet (USB 2.0, table 9-2): it ends a gathering, and `81 06 00 22 00 00 LL LL` begins one of LLLL
    /// bytes, the low byte first.
    pub fn setup(&mut self, packet: [u8; 8])
        ensures { (past : List HostCall) → Refines past self.old → Refines (was_set_up packet ∷ past) self.new }
    {
        self.gathering = Gathering::begun_by(self.alloc, packet);
    }

    /// Takes a packet of data, of at most 8 bytes; outside a gathering it changes nothing.
    ///
    /// A gathering ends with a packet of less than 8 bytes, or with the last byte that was asked for. A text of 99 bytes
    /// without a fault is then kept, in the place of the one before. The error says that a growth was refused: the
    /// gathering is dropped, and what was kept before stays.
    pub fn packet(&mut self, packet: &[u8]) -> Result<(), AllocError>
        requires { length packet.now ≤ 8 }
        ensures refines { (past : List HostCall) → Refines past self.old → Refines (got_packet packet.now (is_ok result) ∷ past) self.new }
        ensures refused { (past : List HostCall) → Refines past self.old → OnErr result (is_some (gathering past) ≡ true) }
    {
        let Some(gathering) = self.gathering.take() else {
            return Ok(());
        };
        match gathering.with(packet)? {
            Gathered::Part(gathering) => self.gathering = Some(gathering),
            Gathered::Text(descriptor) => self.kept = Some(descriptor),
            Gathered::Nothing => {}
        }
        Ok(())
    }

    /// Drops a gathering: the keyboard was cut off or reset.
    pub fn lose(&mut self)
        ensures { (past : List HostCall) → Refines past self.old → Refines (lost ∷ past) self.new }
    {
        self.gathering = None;
    }

    /// Reads an input report: in boot protocol by the host's own descriptor, in report protocol by the one that it keeps.
    ///
    /// The reading is `Unread` without a descriptor, and where [`extract`] refuses the report otherwise than for memory.
    /// In boot protocol the descriptor is parsed anew for each report.
    pub fn read(&self, protocol: Protocol, report: &[u8]) -> Reading
        ensures { (past : List HostCall) → Refines past self.now → Reads (text_by protocol past) report.now result }
    {
        match protocol {
            Protocol::Boot => read_boot(self.alloc, report),
            Protocol::Report => match &self.kept {
                Some(descriptor) => read_by(self.alloc, descriptor, report),
                None => Reading::Unread,
            },
        }
    }
}

/// Reads a boot report, by the host's own descriptor.
fn read_boot(alloc: Global, report: &[u8]) -> Reading
    ensures { Reads (Some boot_descriptor_bytes) report.now result }
{
    if report.len() < BOOT_LENGTH {
        return Reading::Unread;
    }
    match parse(alloc, &BOOT_DESCRIPTOR) {
        Ok(descriptor) => read_by(alloc, &descriptor, report),
        Err(_) => Reading::NoMemory,
    }
}

/// Reads a report by a descriptor.
fn read_by(alloc: Global, descriptor: &Descriptor, report: &[u8]) -> Reading
    ensures { ReadsWith descriptor.now report.now result }
{
    let found = match extract(alloc, descriptor, report) {
        Ok(found) => found,
        Err(ExtractError::Memory) => return Reading::NoMemory,
        Err(_) => return Reading::Unread,
    };
    match pressed(alloc, &found) {
        Ok(usages) => Reading::Usages(UsageList::new(usages)),
        Err(_) => Reading::NoMemory,
    }
}
