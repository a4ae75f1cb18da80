//! The events of a run, each kind in a place of its own.

ghost use Rattle.std.specs.Prelude.{◌≡◌};

use crate::Event;
use arrayvec::ArrayVec;
use layers::{KeyNo, LayerNo};
use std::marker::Model;
use world::{Mask, Scan};

/// An event of each kind, made once a run, and lent to the world as the event of a line.
///
/// An event has room for a mask of 4,096 bytes, and to make one can cost as many bytes of zeros. So
/// nothing else in this crate makes one: an event that says more than its kind gets that where it
/// lies.
#[derive(Drop)]
pub(crate) struct Spare {
    scan: Event,
    setup: Event,
    out_packet: Event,
    in_packet: Event,
    poll: Event,
    work: Event,
    work_fault: Event,
    cut: Event,
    cut_in_work: Event,
    bus_reset: Event,
    entry: Event,
    slot_at: Event,
    leds: Event,
}

impl Model for Spare {
    ghost use Rattle.std.specs.Prelude.{◌≡◌};
    ghost use Rattle.world.specs.declared.event.Event.TheVariants as event;

    ghost Value = { Unit {0} };

    ghost view = { λ _. tt };

    ghost invariant = { λ s. ((scan : _) × (s.scan ≡ event.Scan scan)) × ((packet : _) × (s.setup ≡ event.Setup packet))
        × ((packet : _) × (s.out_packet ≡ event.OutPacket packet)) × (s.in_packet ≡ event.InPacket) × (s.poll ≡ event.Poll)
        × (s.work ≡ event.Work) × ((mask : _) × (s.work_fault ≡ event.WorkFault mask)) × (s.cut ≡ event.Cut)
        × ((mask : _) × (s.cut_in_work ≡ event.CutInWork mask)) × (s.bus_reset ≡ event.BusReset)
        × ((layer key : _) × (s.entry ≡ event.Entry layer key)) × ((page slot : _) × (s.slot_at ≡ event.SlotAt page slot))
        × (s.leds ≡ event.Leds) };
}

impl Spare {
    /// Events without keys, without bytes, and of the first entry and slot.
    pub(crate) fn new() -> Spare {
        Spare {
            scan: Event::Scan(Scan::NONE),
            setup: Event::Setup([0; 8]),
            out_packet: Event::OutPacket(ArrayVec::new()),
            in_packet: Event::InPacket,
            poll: Event::Poll,
            work: Event::Work,
            work_fault: Event::WorkFault(Mask::new()),
            cut: Event::Cut,
            cut_in_work: Event::CutInWork(Mask::new()),
            bus_reset: Event::BusReset,
            entry: Event::Entry(LayerNo::known(0), KeyNo::known(0)),
            slot_at: Event::SlotAt { page: 0, slot: 0 },
            leds: Event::Leds,
        }
    }

    pub(crate) fn scan(&mut self, scan: Scan) -> &Event
        ensures { result.now ≡ Event.Scan scan }
    {
        let Event::Scan(place) = &mut self.scan else {
            unreachable!();
        };
        *place = scan;
        &self.scan
    }

    pub(crate) fn setup(&mut self, packet: [u8; 8]) -> &Event
        ensures { result.now ≡ Event.Setup packet }
    {
        let Event::Setup(place) = &mut self.setup else {
            unreachable!();
        };
        *place = packet;
        &self.setup
    }

    pub(crate) fn out_packet(&mut self, packet: ArrayVec<u8, 8>) -> &Event
        ensures { result.now ≡ Event.OutPacket packet }
    {
        let Event::OutPacket(place) = &mut self.out_packet else {
            unreachable!();
        };
        *place = packet;
        &self.out_packet
    }

    pub(crate) fn in_packet(&self) -> &Event
        ensures { result.now ≡ Event.InPacket }
    {
        &self.in_packet
    }

    pub(crate) fn poll(&self) -> &Event
        ensures { result.now ≡ Event.Poll }
    {
        &self.poll
    }

    pub(crate) fn work(&self) -> &Event
        ensures { result.now ≡ Event.Work }
    {
        &self.work
    }

    pub(crate) fn work_fault(&mut self, mask: Mask) -> &Event
        ensures { result.now ≡ Event.WorkFault mask }
    {
        let Event::WorkFault(place) = &mut self.work_fault else {
            unreachable!();
        };
        *place = mask;
        &self.work_fault
    }

    pub(crate) fn cut(&self) -> &Event
        ensures { result.now ≡ Event.Cut }
    {
        &self.cut
    }

    pub(crate) fn cut_in_work(&mut self, mask: Mask) -> &Event
        ensures { result.now ≡ Event.CutInWork mask }
    {
        let Event::CutInWork(place) = &mut self.cut_in_work else {
            unreachable!();
        };
        *place = mask;
        &self.cut_in_work
    }

    pub(crate) fn bus_reset(&self) -> &Event
        ensures { result.now ≡ Event.BusReset }
    {
        &self.bus_reset
    }

    pub(crate) fn entry(&mut self, layer: LayerNo, key: KeyNo) -> &Event
        ensures { result.now ≡ Event.Entry layer key }
    {
        let Event::Entry(its_layer, its_key) = &mut self.entry else {
            unreachable!();
        };
        *its_layer = layer;
        *its_key = key;
        &self.entry
    }

    pub(crate) fn slot_at(&mut self, page: u8, slot: u16) -> &Event
        ensures { result.now ≡ Event.SlotAt page slot }
    {
        let Event::SlotAt {
            page: its_page,
            slot: its_slot,
        } = &mut self.slot_at
        else {
            unreachable!();
        };
        *its_page = page;
        *its_slot = slot;
        &self.slot_at
    }

    pub(crate) fn leds(&self) -> &Event
        ensures { result.now ≡ Event.Leds }
    {
        &self.leds
    }
}
