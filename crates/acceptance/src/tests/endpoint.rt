//! Each request to endpoint 0, beside a table of those that are served, and a read that ends with whole packets.

use super::asserts::{holds, holds_at, same};
use arrayvec::ArrayVec;
use control_ep::*;
use reports::{IdleId, Protocol};
use std::process::Abort;

/// A device at its start.
const STARTED: DeviceView = DeviceView {
    protocol: Protocol::Report,
    idle_one: 0x7D,
    idle_two: 0x00,
    leds: 0x00,
    feature: [0x03, 0x00, 0x00, 0x00, 0x04, 0x00],
    bitmap: [0x01; 23],
    consumer: [0x02, 0xCD, 0x00, 0x00, 0x00, 0x00, 0x00, 0x00, 0x00],
    boot: [0x00, 0x00, 0x04, 0x00, 0x00, 0x00, 0x00, 0x00],
};

/// A device in boot protocol, with a modifier held.
const BOOTED: DeviceView = DeviceView {
    protocol: Protocol::Boot,
    idle_one: 0x00,
    idle_two: 0x28,
    leds: 0x02,
    feature: [0x03, 0x00, 0x00, 0x01, 0x05, 0x00],
    bitmap: [0x01; 23],
    consumer: [0x02, 0xCD, 0x00, 0x00, 0x00, 0x00, 0x00, 0x00, 0x00],
    boot: [0x81, 0x00, 0x04, 0x00, 0x00, 0x00, 0x00, 0x00],
};

/// What comes of a request.
#[derive(Clone, Copy)]
enum Comes {
    Refused(Why),
    /// It reads this byte.
    Reads(u8),
    /// It has no data, and its status stage this effect.
    Brings(Effect),
}

use Comes::{Brings, Reads, Refused};

/// The requests that are served: bmRequestType, bRequest, what comes of wValue 0000h without data in report protocol, and of
/// wValue 0100h with a byte of data in boot protocol.
const SERVED: [(u8, u8, Comes, Comes); 8] = [
    (0x80, 0x06, Refused(Why::UnknownDescriptor), Reads(0x12)),
    (
        0x81,
        0x06,
        Refused(Why::UnknownDescriptor),
        Refused(Why::UnknownDescriptor),
    ),
    (0xA1, 0x01, Refused(Why::UnknownReport), Reads(0x81)),
    (
        0xA1,
        0x02,
        Brings(Effect::Nothing),
        Refused(Why::UnknownReport),
    ),
    (0xA1, 0x03, Brings(Effect::Nothing), Reads(0x00)),
    (
        0x21,
        0x09,
        Refused(Why::UnknownReport),
        Refused(Why::UnknownReport),
    ),
    (
        0x21,
        0x0A,
        Brings(Effect::Idle(IdleId::All, 0x00)),
        Refused(Why::WrongLength),
    ),
    (
        0x21,
        0x0B,
        Brings(Effect::SetProtocol(Protocol::Boot)),
        Refused(Why::BadProtocol),
    ),
];

/// What is to come of a request, by the table.
fn comes_of(kind: u8, code: u8, index: u8, booted: bool) -> Comes {
    for (its_kind, its_code, plain, with_data) in SERVED {
        if its_kind == kind && its_code == code {
            // The interface of a request to the device is not looked at.
            if index != 0 && kind != 0x80 {
                return Refused(Why::WrongInterface);
            }
            return if booted { with_data } else { plain };
        }
    }
    Refused(Why::UnknownRequest)
}

/// A packet of these bytes.
fn packet(bytes: &[u8]) -> EpAnswer {
    let mut packet = ArrayVec::new();
    match packet.try_extend_from_slice(bytes) {
        Ok(()) => EpAnswer::Packet(packet),
        Err(_) => EpAnswer::Nak,
    }
}

/// Whether an IN packet and an empty OUT packet after a SETUP packet are answered so.
fn answers(ep: &mut ControlEp, comes: Comes) -> bool {
    let got = ep.in_packet();
    let (wanted, then) = match comes {
        Refused(why) => (
            (EpAnswer::Stall(why), Effect::Nothing),
            EpAnswer::Stall(why),
        ),
        Reads(byte) => ((packet(&[byte]), Effect::Nothing), EpAnswer::Ack),
        Brings(effect) => ((packet(&[]), effect), EpAnswer::Stall(Why::WrongStage)),
    };
    got == wanted && ep.out(&[]) == OutStep::Answered(then)
}

#[test]
fn answers_each_request(rt: HostRuntime) {
    let mut ep = ControlEp::new();
    for pair in 0..=u16::MAX {
        let [kind, code] = pair.to_le_bytes();
        for index in 0..2 {
            for more in 0..2 {
                let setup = [kind, code, 0, more, index, 0, more, 0];
                ep.setup(setup, if more == 1 { &BOOTED } else { &STARTED });
                let comes = comes_of(kind, code, index, more == 1);
                holds_at(&rt, answers(&mut ep, comes), &setup);
            }
        }
    }
}

/// The next packet, which has no effect.
fn brings(rt: &impl Abort, ep: &mut ControlEp, wanted: EpAnswer) {
    same(rt, &ep.in_packet(), &(wanted, Effect::Nothing));
}

#[test]
fn an_empty_packet_follows_whole_ones(rt: HostRuntime) {
    // Nine bytes of a report of eight, and eight of them.
    for length in [9, 8] {
        let mut ep = ControlEp::new();
        brings(&rt, &mut ep, EpAnswer::Stall(Why::WrongStage));
        ep.setup([0xA1, 0x01, 0, 1, 0, 0, length, 0], &BOOTED);
        brings(&rt, &mut ep, packet(&BOOTED.boot));
        if length == 9 {
            brings(&rt, &mut ep, packet(&[]));
        }
        brings(&rt, &mut ep, EpAnswer::Stall(Why::WrongStage));
    }
}

#[test]
fn a_command_is_offered_once(rt: HostRuntime) {
    let mut ep = ControlEp::new();
    ep.setup([0x21, 0x09, 3, 3, 0, 0, 6, 0], &STARTED);
    let step = ep.out(&[3, 1, 0, 0, 5, 0]);
    same(&rt, &step, &OutStep::Offer([1, 0, 0, 5, 0]));
    same(&rt, &ep.verdict(Verdict::Working), &EpAnswer::Ack);
    brings(&rt, &mut ep, EpAnswer::Nak);
    ep.settle();
    brings(&rt, &mut ep, packet(&[]));
    holds(
        &rt,
        ep.out(&[]) == OutStep::Answered(EpAnswer::Stall(Why::WrongStage)),
    );
}
