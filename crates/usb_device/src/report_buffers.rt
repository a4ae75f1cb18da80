//! Endpoint 1 behind buffers: reports in packets, and data toggles.

ghost use Rattle.std.specs.Prelude.{◌≡◌, ◌⊎◌, ◌+◌, ◌-◌, ◌/◌, ◌∷◌, ◌<◌, nat_lt, suc, Bool, true, false, List, [], Some, ◌==◌, ◌&&◌};
ghost use Rattle.usb_device.specs.declared.answer.Endpoint1.{Endpoint1};
ghost use Rattle.usb_device.specs.Calls.{EpCall, SetUp, In, BusReset, Polled};
ghost use Rattle.usb_device.specs.Bus1.{Bus1, Told, HostBegan, room_of, reported, anew, blank, Changed, sent_of, is_old, newest, sets_protocol, IsKnown, Through1};
ghost use Rattle.usb_device.specs.Confirmed.{asked_of};
ghost use Rattle.usb_device.specs.States.{is_empty_packet};
ghost use Rattle.usb_device.specs.Reports.{count_of};
ghost use Rattle.usb_device.specs.Pauses.{pause_by};
ghost use Rattle.usb_device.specs.representation.Link1.{ReportState, Link1, size_of, to_hand, is_more, is_over, is_begun, is_under_way, IsHeld, InStep, Bides, KeepsStates};
ghost use Rattle.usb_device.specs.declared.report_buffers.Course.TheVariants.{Rests, Begins, Goes};

use crate::packets::{behind, first_bytes, held};
use crate::{Buffers, EpAnswer, PacketSize, Report};
use arrayvec::ArrayVec;
use std::marker::Model;

/// The scans, a millisecond each, in which a host that asks takes the packet of a status stage (section 9.2.6.4).
const STATUS_SCANS: u8 = 50;

/// Where the report under way stands.
#[derive(Clone, Copy, PartialEq, Eq)]
pub(crate) enum Course {
    /// None is under way.
    Rests,
    /// It is to be handed over from its first packet on.
    Begins,
    /// Packets of it were handed over.
    Goes,
}

/// What is known of the buffers, and the report under way.
///
/// A change of endpoint 1 is made before the host knows of it. So no packet is handed over until the host has taken the status packet,
/// or has let 50 scans go by: the acknowledgement may be lost, and then the device never knows of it (section 8.5.3.3). Then the host
/// may want either data toggle, and drops a packet that has the other one. So the next report is handed over twice.
///
/// A request that sets the protocol (HID 1.11 section 7.2.6) gives up a report that waits, as it is of the protocol before, and
/// the host may have a packet of it. One of which the host is known to have a packet goes on, as the host's transfer does.
#[derive(Drop)]
pub struct ReportBuffers {
    size: PacketSize,
    course: Course,
    report: Report,
    rest: Report,
    due: usize,
    again: bool,
    buffered: u8,
    unsure: bool,
    lost: bool,
    is_old: bool,
    protocol: bool,
    waits: u8,
}

impl Model for ReportBuffers {
    ghost use Rattle.usb_device.specs.representation.Link1.{ReportState, size_of};

    ghost Value = { ReportState };

    ghost view = { λ r. record {
      size = size_of r.size;
      course = r.course;
      report = r.report.items;
      rest = r.rest.items;
      due = r.due;
      again = r.again;
      buffered = r.buffered;
      unsure = r.unsure;
      lost = r.lost;
      old = r.is_old;
      protocol = r.protocol;
      left = r.waits;
    } };
}

/// The scans to be waited behind a status packet, where so many are waited before it.
fn pause(waits: u8) -> u8
    ensures { result ≡ pause_by true waits }
{
    if waits == 0 { STATUS_SCANS } else { waits }
}

/// How many buffers there are.
fn room<B: Buffers>(buffers: &B) -> u8
    ensures { result ≡ room_of B.two }
{
    if buffers.has_two() { 2 } else { 1 }
}

/// Whether a SETUP packet is SET_PROTOCOL.
pub(crate) fn sets_protocol(setup: [u8; 8]) -> bool
    ensures { result ≡ sets_protocol (Some setup) }
{
    setup[0] == 0x21 && setup[1] == 0x0b
}

/// Whether an answer is the empty packet.
pub(crate) fn is_empty(answer: &EpAnswer) -> bool
    ensures { result ≡ is_empty_packet answer.now }
{
    match answer {
        EpAnswer::Packet(packet) => packet.is_empty(),
        EpAnswer::Ack | EpAnswer::Nak | EpAnswer::Stall => false,
    }
}

impl ReportBuffers {
    /// Empty buffers that wait for nothing, behind a reset of the bus.
    pub fn new(size: PacketSize) -> ReportBuffers
        ensures linked { Link1 result (blank false) [] }
        ensures waits { result.left ≡ 0 }
        ensures size { result.size ≡ size_of size }
    {
        ReportBuffers {
            size,
            course: Course::Rests,
            report: ArrayVec::new(),
            rest: ArrayVec::new(),
            due: 0,
            again: false,
            buffered: 0,
            unsure: false,
            lost: false,
            is_old: false,
            protocol: false,
            waits: 0,
        }
    }

    /// The controller empties the buffers, and begins with DATA0: a request that sets endpoint 1 is answered by its status
    /// packet. A report that the host has not whole begins anew, and nothing is handed over until `release` or 50 scans.
    pub fn begin_anew(&mut self)
        ensures linked { (state : Endpoint1) (b : Bus1) (calls : List EpCall) → (self.old.course ≡ Goes → self.old.old ≡ false)
            → Link1 self.old b calls → Link1 self.new (anew b state) calls }
        ensures waits { self.new.left ≡ pause_by true self.old.left }
        ensures size { self.new.size ≡ self.old.size }
    {
        self.unsure = true;
        self.lost = false;
        self.waits = pause(self.waits);
        match self.course {
            Course::Goes => self.course = Course::Begins,
            Course::Rests | Course::Begins => {}
        }
    }

    /// A scan of the matrix, a millisecond after the one before.
    pub fn scan(&mut self)
        ensures less { self.new.left ≡ self.old.left - 1 }
        ensures linked { (b : Bus1) (calls : List EpCall) → Link1 self.old b calls → Link1 self.new b calls }
        ensures size { self.new.size ≡ self.old.size }
    {
        self.waits = self.waits.saturating_sub(1);
    }

    /// The host has taken the status packet: nothing is waited for.
    pub fn release(&mut self)
        ensures linked { (b : Bus1) (calls : List EpCall) → Link1 self.old b calls → Link1 self.new b calls }
        ensures same { self.new ≡ record self.old { left = 0 } }
    {
        self.waits = 0;
    }

    /// The host has begun anew with DATA0, where the device has: the toggles agree.
    pub fn agree<B: Buffers>(&mut self, buffers: &mut B)
        ensures linked { (calls : List EpCall) → Link1 self.old (B.bus buffers.old) calls → Link1 self.new (B.bus buffers.new) calls }
        ensures reported { (states : List Told) → InStep states (B.bus buffers.old) → InStep (HostBegan ∷ states) (B.bus buffers.new) }
        ensures bides { Bides (B.bus buffers.old) (B.bus buffers.new) }
        ensures known { ((B.bus buffers.old).reset ≡ false → (B.bus buffers.old).opened ≡ true) → (B.bus buffers.new).reset ≡ false → IsKnown (B.bus buffers.new).got }
        ensures waits { self.new.left ≡ self.old.left }
        ensures size { self.new.size ≡ self.old.size }
    {
        buffers.host_began();
        if !self.lost {
            self.unsure = false;
        }
    }

    /// A SETUP packet has come.
    pub fn setup(&mut self, packet: [u8; 8])
        ensures waits { self.new.left ≡ self.old.left }
        ensures linked { (b : Bus1) (calls : List EpCall) → Link1 self.old b calls → Link1 self.new b (SetUp packet ∷ calls) }
        ensures size { self.new.size ≡ self.old.size }
    {
        self.protocol = sets_protocol(packet);
    }

    /// This was the answer to an IN token of endpoint 0. The empty packet of SET_PROTOCOL sets the protocol, of which the host is to know.
    pub fn answered<B: Buffers>(&mut self, answer: &EpAnswer, buffers: &mut B)
        ensures linked { (calls : List EpCall) → Link1 self.old (B.bus buffers.old) calls → Link1 self.new (B.bus buffers.new) (In answer.now ∷ calls) }
        ensures reported { KeepsStates (B.bus buffers.old) (B.bus buffers.new) }
        ensures waits { self.new.left ≡ pause_by (is_empty_packet answer.now && self.old.protocol) self.old.left }
        ensures size { self.new.size ≡ self.old.size }
    {
        if self.is_change(answer) {
            let count = buffers.taken_1();
            self.taken(count);
            self.change(buffers);
            self.wait();
        }
    }

    /// Nothing is handed over until `release` or 50 scans, where nothing was waited for.
    fn wait(&mut self)
        ensures { self.new ≡ record self.old { left = pause_by true self.old.left } }
    {
        self.waits = pause(self.waits);
    }

    /// Whether this answer sets the protocol.
    fn is_change(&self, answer: &EpAnswer) -> bool
        ensures { result ≡ (is_empty_packet answer.now && self.now.protocol) }
    {
        is_empty(answer) && self.protocol
    }

    /// The report under way goes on, and is of the protocol before.
    fn go_on(&mut self)
        ensures { self.new ≡ record self.old { old = true } }
    {
        self.is_old = true;
    }

    /// The protocol is set: a report that waits is given up, and one of which the host has a packet goes on.
    fn change<B: Buffers>(&mut self, buffers: &mut B)
        ensures linked { (calls later : List EpCall) → sent_of later ≡ Changed ∷ sent_of calls → asked_of later ≡ asked_of calls
            → Link1 self.old (B.bus buffers.old) calls → Link1 self.new (B.bus buffers.new) later }
        ensures goes_on { self.old.course ≡ Goes → is_begun self.old ≡ true → (self.new ≡ record self.old { old = true }) × (buffers.new ≡ buffers.old) }
        ensures reported { KeepsStates (B.bus buffers.old) (B.bus buffers.new) }
        ensures waits { self.new.left ≡ self.old.left }
        ensures size { self.new.size ≡ self.old.size }
    {
        match self.course {
            Course::Rests => {}
            Course::Begins => self.give_up(buffers),
            Course::Goes => {
                if self.is_begun() {
                    self.go_on();
                } else {
                    self.give_up(buffers);
                }
            }
        }
    }

    /// A report of the protocol before does not begin anew: it is given up.
    pub fn give_up_old<B: Buffers>(&mut self, buffers: &mut B)
        ensures linked { (calls : List EpCall) → Link1 self.old (B.bus buffers.old) calls → Link1 self.new (B.bus buffers.new) calls }
        ensures none { self.new.course ≡ Goes → self.new.old ≡ false }
        ensures others { self.old.old ≡ false → (self.new ≡ self.old) × (buffers.new ≡ buffers.old) }
        ensures waits { self.new.left ≡ self.old.left }
        ensures reported { KeepsStates (B.bus buffers.old) (B.bus buffers.new) }
        ensures size { self.new.size ≡ self.old.size }
    {
        match self.course {
            Course::Goes => {
                if self.is_old {
                    self.give_up(buffers);
                }
            }
            Course::Rests | Course::Begins => {}
        }
    }

    /// The report under way is given up. Where packets of it were handed over, the toggles may differ.
    fn give_up<B: Buffers>(&mut self, buffers: &mut B)
        ensures linked { (calls later : List EpCall) → (self.old.course ≡ Rests → ⊥)
            → ((self.old.course ≡ Goes → is_old (sent_of calls) ≡ self.old.old) → is_old (sent_of later) ≡ true)
            → newest (sent_of later) ≡ newest (sent_of calls) → asked_of later ≡ asked_of calls
            → Link1 self.old (B.bus buffers.old) calls → Link1 self.new (B.bus buffers.new) later }
        ensures reported { KeepsStates (B.bus buffers.old) (B.bus buffers.new) }
        ensures waits { self.new.left ≡ self.old.left }
        ensures rests { self.new.course ≡ Rests }
        ensures size { self.new.size ≡ self.old.size }
    {
        buffers.give_up();
        match self.course {
            Course::Goes => {
                self.unsure = true;
                self.lost = true;
                self.course = Course::Rests;
            }
            Course::Rests | Course::Begins => self.course = Course::Rests,
        }
    }

    /// Whether the host has a packet of the report under way.
    fn is_begun(&self) -> bool
        ensures { result ≡ is_begun self.now }
    {
        !self.again && (self.buffered as usize) < self.count().saturating_sub(self.due)
    }

    /// A reset of the bus. The report under way is dropped, as the host has forgotten what it knew.
    pub fn reset(&mut self)
        ensures linked { (calls : List EpCall) → Link1 self.new (blank false) (BusReset ∷ calls) }
        ensures waits { self.new.left ≡ 0 }
        ensures size { self.new.size ≡ self.old.size }
    {
        self.course = Course::Rests;
        self.unsure = false;
        self.lost = false;
        self.protocol = false;
        self.waits = 0;
    }

    /// So many packets were taken since this was reported before.
    pub fn taken(&mut self, count: usize)
        ensures linked { (b : Bus1) (calls : List EpCall) → b.taken ≡ count → Link1 self.old b calls
            → Link1 self.new (reported b) calls }
        ensures waits { self.new.left ≡ self.old.left }
        ensures size { self.new.size ≡ self.old.size }
    {
        self.buffered = (self.buffered as usize).saturating_sub(count) as u8;
        match self.course {
            Course::Goes => {
                if self.is_over() {
                    self.course = Course::Rests;
                }
            }
            Course::Rests | Course::Begins => {}
        }
    }

    /// Whether the host has all packets of the report under way.
    fn is_over(&self) -> bool
        ensures { result ≡ is_over self.now }
    {
        self.buffered == 0 && !self.is_more()
    }

    /// Whether packets are still to be handed over, of the report under way.
    fn is_more(&self) -> bool
        ensures { result ≡ is_more self.now }
    {
        self.due > 0 || self.again
    }

    /// Whether nothing is waited for.
    pub fn is_known(&self) -> bool
        ensures { result ≡ (self.now.left == 0) }
    {
        self.waits == 0
    }

    /// Whether a report is under way.
    pub fn is_under_way(&self) -> bool
        ensures { result ≡ is_under_way self.now.course }
    {
        !matches!(self.course, Course::Rests)
    }

    /// Whether no report is under way.
    pub fn is_free(&self) -> bool
        ensures free { result ≡ true → self.now.course ≡ Rests }
        ensures busy { result ≡ false → self.now.course ≡ Rests → ⊥ }
    {
        match self.course {
            Course::Rests => true,
            Course::Begins | Course::Goes => false,
        }
    }

    /// A report that the device gave is under way. For buffers that are free.
    pub fn begin(&mut self, report: Report)
        ensures linked { (b : Bus1) (calls : List EpCall) → self.old.course ≡ Rests → Link1 self.old b calls
            → Link1 self.new b (Polled (Some report.items) ∷ calls) }
        ensures begins { self.new.course ≡ Begins }
        ensures waits { self.new.left ≡ self.old.left }
        ensures size { self.new.size ≡ self.old.size }
    {
        self.report = report;
        self.course = Course::Begins;
    }

    /// Hands over packets of the report under way, while there are free buffers.
    pub fn fill<B: Buffers>(&mut self, buffers: &mut B)
        ensures linked { (calls : List EpCall) → Link1 self.old (B.bus buffers.old) calls → Link1 self.new (B.bus buffers.new) calls }
        ensures held { (self.new.course ≡ Goes) × IsHeld (room_of B.two) self.new ⊎ (self.old.course ≡ Rests) × (buffers.new ≡ buffers.old) × (self.new ≡ self.old) }
        ensures fills { (calls : List EpCall) → Link1 self.old (B.bus buffers.old) calls → (steps : List Bus1) × Through1 steps (B.bus buffers.old) (B.bus buffers.new) }
        ensures waits { self.new.left ≡ self.old.left }
        ensures size { self.new.size ≡ self.old.size }
    {
        match self.course {
            Course::Rests => {}
            Course::Begins => {
                self.first(buffers);
                self.more(buffers);
            }
            Course::Goes => {
                self.more(buffers);
                self.more(buffers);
            }
        }
    }

    /// Hands over the first packet of the report, which is to be handed over twice where the toggles may differ.
    fn first<B: Buffers>(&mut self, buffers: &mut B)
        ensures linked { (calls : List EpCall) → self.old.course ≡ Begins → Link1 self.old (B.bus buffers.old) calls
            → Link1 self.new (B.bus buffers.new) calls }
        ensures goes { self.new.course ≡ Goes }
        ensures one { self.new.buffered ≡ 1 }
        ensures fills { (calls : List EpCall) → self.old.course ≡ Begins → Link1 self.old (B.bus buffers.old) calls
            → (steps : List Bus1) × Through1 steps (B.bus buffers.old) (B.bus buffers.new) }
        ensures waits { self.new.left ≡ self.old.left }
        ensures size { self.new.size ≡ self.old.size }
    {
        self.restart();
        let packet = self.next_packet();
        self.buffered = 1;
        self.course = Course::Goes;
        buffers.input_1(packet);
    }

    /// Hands over another packet of the report, where there is one, and a free buffer.
    fn more<B: Buffers>(&mut self, buffers: &mut B)
        ensures linked { (calls : List EpCall) → self.old.course ≡ Goes → Link1 self.old (B.bus buffers.old) calls
            → Link1 self.new (B.bus buffers.new) calls }
        ensures goes { self.new.course ≡ self.old.course }
        ensures none { IsHeld (room_of B.two) self.old → self.new ≡ self.old }
        ensures more { (self.new ≡ self.old) × IsHeld (room_of B.two) self.old ⊎ (self.new.buffered ≡ self.old.buffered + 1) }
        ensures fills { (calls : List EpCall) → self.old.course ≡ Goes → Link1 self.old (B.bus buffers.old) calls
            → (steps : List Bus1) × Through1 steps (B.bus buffers.old) (B.bus buffers.new) }
        ensures waits { self.new.left ≡ self.old.left }
        ensures size { self.new.size ≡ self.old.size }
    {
        if self.buffered < room(buffers) && self.is_more() {
            let packet = self.next_packet();
            self.buffered += 1;
            buffers.input_1(packet);
        }
    }

    /// Begins the report: once more, where the toggles may differ.
    fn restart(&mut self)
        ensures { self.new ≡ record self.old {
          rest = self.old.report;
          due = count_of self.old.size self.old.report;
          again = self.old.unsure;
          unsure = false;
          lost = false;
          old = false;
        } }
    {
        self.rest = held(self.report.as_slice());
        self.due = self.count();
        self.again = self.unsure;
        self.unsure = false;
        self.lost = false;
        self.is_old = false;
    }

    /// How many packets the report has.
    fn count(&self) -> usize
        ensures { result ≡ count_of self.now.size self.now.report }
    {
        usize::from(self.report.len().saturating_sub(1) as u8) / self.size.bytes() + 1
    }

    /// The next packet of the report.
    fn next_packet(&mut self) -> Report
        ensures packet { is_more self.old ≡ true → to_hand self.old ≡ result.items ∷ to_hand self.new }
        ensures same { self.new ≡ record self.old { rest = self.new.rest; due = self.new.due; again = self.new.again } }
    {
        self.refill();
        self.take_packet()
    }

    /// Begins the report once more where all of it was handed over.
    fn refill(&mut self)
        ensures packets { is_more self.old ≡ true → (to_hand self.new ≡ to_hand self.old) × (nat_lt 0 self.new.due ≡ true) }
        ensures same { self.new ≡ record self.old { rest = self.new.rest; due = self.new.due; again = self.new.again } }
    {
        if self.due == 0 {
            self.rest = held(self.report.as_slice());
            self.due = self.count();
            self.again = false;
        }
    }

    /// Takes a packet from what is to be handed over.
    fn take_packet(&mut self) -> Report
        ensures packet { nat_lt 0 self.old.due ≡ true → to_hand self.old ≡ result.items ∷ to_hand self.new }
        ensures same { self.new ≡ record self.old { rest = self.new.rest; due = self.new.due } }
    {
        let size = self.size.bytes();
        let packet = first_bytes(self.rest.as_slice(), size);
        self.rest = behind(self.rest.as_slice(), size);
        self.due = self.due.saturating_sub(1);
        packet
    }
}
