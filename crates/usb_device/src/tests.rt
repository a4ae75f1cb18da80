//! A device on a bus that is played: what the host got, where an acknowledgement is lost and the bus is reset.

ghost use Rattle.std.specs.Prelude.{List};
ghost use Rattle.usb_device.specs.Calls.{EpCall};

use crate::Played::{LosesAck, Resets, Rests, Takes};
use crate::{
    Brought, Descriptors, Device, DeviceLayer, Endpoint1, Endpoints, EpAnswer, PacketSize, Played,
    PlayedBuffers, Report,
};
use arrayvec::ArrayVec;
use std::process::Abort;

/// It has reports of 12 bytes, of which each is the number of the report.
#[derive(Drop)]
struct Counts {
    next: u8,
}

/// So many bytes of report `number`.
fn bytes_of(number: u8, count: usize) -> Report {
    let mut report = ArrayVec::new();
    for _ in 0..count {
        let _full = report.try_push(number);
    }
    report
}

impl Endpoints for Counts {
    ghost refines = { λ calls c. Unit {0} };

    fn setup(&mut self, _packet: [u8; 8]) {}

    fn out(&mut self, _packet: &[u8]) -> EpAnswer {
        EpAnswer::Stall
    }

    fn in_packet(&mut self) -> EpAnswer {
        EpAnswer::Packet(ArrayVec::new())
    }

    fn poll(&mut self) -> Option<Report> {
        if self.next >= 9 {
            return None;
        }
        self.next += 1;
        Some(bytes_of(self.next, 12))
    }

    fn bus_reset(&mut self) {}
}

/// A device with reports, on a bus on which this happens.
fn device_on<'a>(script: &'a [Played]) -> Device<'a, Counts, PlayedBuffers<'a>> {
    let lent = Descriptors {
        device: &[],
        configuration: &[],
        hid: &[],
        manufacturer: &[],
        product: &[],
        serial_number: &[],
    };
    Device::new(
        DeviceLayer::new(lent),
        Counts { next: 0 },
        PlayedBuffers::new(script),
        PacketSize::Bytes8,
    )
}

/// The host configures the device, and has the status packet: the script goes on by two.
fn configure<'a>(rt: &impl Abort, device: &mut Device<'a, Counts, PlayedBuffers<'a>>) {
    device.setup([0x00, 0x09, 1, 0, 0, 0, 0, 0]);
    let answer = device.in_packet();
    assert_eq!(rt; answer, EpAnswer::Packet(ArrayVec::new()));
    device.is_done();
}

#[test]
fn a_report_comes_once_where_an_acknowledgement_is_lost(rt: HostRuntime) {
    let script = [
        Rests, Rests, Rests, Rests, LosesAck, Takes, Rests, Takes, Rests,
    ];
    let mut device = device_on(&script);
    configure(&rt, &mut device);
    for _ in 0..4 {
        device.serve_reports();
    }
    let got = [
        Brought::New(bytes_of(1, 4)),
        Brought::New(bytes_of(1, 8)),
        Brought::Known,
        Brought::Anew(Endpoint1::Ready),
    ];
    assert_eq!(rt; device.buffers.got(), &got[..]);
}

#[test]
fn a_report_is_given_up_by_a_reset(rt: HostRuntime) {
    let script = [
        Rests, Rests, Rests, Rests, Takes, Resets, Rests, Rests, Rests, Rests, Takes, Rests, Takes,
        Rests,
    ];
    let mut device = device_on(&script);
    configure(&rt, &mut device);
    for _ in 0..2 {
        device.serve_reports();
    }
    device.bus_reset();
    configure(&rt, &mut device);
    for _ in 0..3 {
        device.serve_reports();
    }
    let got = [
        Brought::New(bytes_of(2, 4)),
        Brought::New(bytes_of(2, 8)),
        Brought::Known,
        Brought::Anew(Endpoint1::Ready),
    ];
    assert_eq!(rt; device.buffers.got(), &got[..]);
}

/// SET_PROTOCOL, as a host asks it.
const SET_BOOT: [u8; 8] = [0x21, 0x0b, 0, 0, 0, 0, 0, 0];

#[test]
fn a_report_that_waits_is_given_up_with_its_protocol(rt: HostRuntime) {
    let script = [
        Rests, Rests, Rests, Rests, Rests, Rests, Rests, Rests, Takes, Rests, Takes, Rests,
    ];
    let mut device = device_on(&script);
    configure(&rt, &mut device);
    device.serve_reports();
    // Its first packet is in the buffer.
    device.setup(SET_BOOT);
    let answer = device.in_packet();
    assert_eq!(rt; answer, EpAnswer::Packet(ArrayVec::new()));
    device.is_done();
    for _ in 0..3 {
        device.serve_reports();
    }
    let got = [
        Brought::New(bytes_of(2, 4)),
        Brought::New(bytes_of(2, 8)),
        Brought::GivenUp,
        Brought::Known,
        Brought::Anew(Endpoint1::Ready),
    ];
    assert_eq!(rt; device.buffers.got(), &got[..]);
}

#[test]
fn a_report_of_which_the_host_has_a_packet_goes_on(rt: HostRuntime) {
    let script = [
        Rests, Rests, Rests, Rests, Takes, Rests, Rests, Takes, Rests,
    ];
    let mut device = device_on(&script);
    configure(&rt, &mut device);
    device.serve_reports();
    device.serve_reports();
    device.setup(SET_BOOT);
    let answer = device.in_packet();
    assert_eq!(rt; answer, EpAnswer::Packet(ArrayVec::new()));
    device.is_done();
    device.serve_reports();
    let got = [
        Brought::New(bytes_of(1, 4)),
        Brought::New(bytes_of(1, 8)),
        Brought::Known,
        Brought::Anew(Endpoint1::Ready),
    ];
    assert_eq!(rt; device.buffers.got(), &got[..]);
}
