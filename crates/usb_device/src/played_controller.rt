//! A bus of endpoint 0 that a script plays: the clauses of `Controller` can be met by a controller that delivers.

ghost use Rattle.std.specs.Prelude.{◌≡◌, ◌≤◌, ◌∷◌, [], List, true, false, length, map};
ghost use Rattle.usb_device.specs.Bus.{InGot, got, is_pending, nothing_met, Naks, NaksOut};
ghost use Rattle.usb_device.specs.Addresses.{StaysBy};
ghost use Rattle.usb_device.specs.representation.Link.{met_view};
ghost use Rattle.usb_device.specs.representation.Played0.{seen_of, played_bus_0, address_by, Moved0};

use crate::controller::{Controller, Input, Output, Waiting};
use arrayvec::ArrayVec;

/// What happens on the bus.
#[derive(Clone, Copy, Debug, PartialEq, Eq)]
pub enum Played0 {
    /// Nothing.
    Rests,
    /// The host sends this SETUP packet.
    SetsUp([u8; 8]),
    /// It takes the packet in the buffer.
    Takes,
    /// It takes the packet, and its acknowledgement is lost.
    LosesAck,
    /// It sends a packet of these bytes, where OUT is open.
    Sends([u8; 6]),
    /// It sends an empty one.
    Ends,
    /// It resets the bus.
    Resets,
}

/// What the host met.
#[derive(Clone, Debug, Drop, PartialEq, Eq)]
pub enum Saw {
    /// It sent this SETUP packet.
    SetupSent([u8; 8]),
    /// This packet of it was acknowledged.
    OutTaken(ArrayVec<u8, 8>),
    /// It got this packet, anew.
    InGot(ArrayVec<u8, 8>),
    /// It reset the bus.
    WasReset,
}

impl Default for Saw {
    fn default() -> Saw {
        Saw::WasReset
    }
}

/// A controller of endpoint 0, and its host.
///
/// Each call plays what is next in the script, and then has its effect. The host notes 64 things that it met, and does
/// nothing where it has no room for another.
#[derive(Drop)]
pub struct PlayedController<'a> {
    script: &'a [Played0],
    seen: ArrayVec<Saw, 64>,
    input: Input,
    has: bool,
    output: Output,
    met: Waiting,
    address: u8,
}

/// Nothing was met, but for a reset.
fn only(reset: bool) -> Waiting
    ensures { met_view result ≡ record { reset = reset; setup = None; out = None; taken = false } }
{
    Waiting {
        reset,
        setup: None,
        out: None,
        taken: false,
    }
}

/// At most 8 bytes, copied.
fn copied(bytes: &[u8]) -> ArrayVec<u8, 8>
    ensures { length bytes.now ≤ 8 → result.items ≡ bytes.now }
{
    let mut copied = ArrayVec::new();
    let _full = copied.try_extend_from_slice(bytes);
    copied
}

/// Notes what the host meets, and whether there was room.
fn is_noted(saw: Saw, seen: &mut ArrayVec<Saw, 64>) -> bool
    ensures noted { result ≡ true → map seen_of seen.new.items ≡ seen_of saw ∷ map seen_of seen.old.items }
    ensures full { result ≡ false → seen.new ≡ seen.old }
{
    seen.try_insert(0, saw).is_ok()
}

/// Notes a packet that the host gets, where it does not have it already, and whether there was room.
fn is_got(has: bool, packet: &[u8], seen: &mut ArrayVec<Saw, 64>) -> bool
    ensures noted { length packet.now ≤ 8 → result ≡ true → map seen_of seen.new.items ≡ got packet.now has (map seen_of seen.old.items) }
    ensures full { result ≡ false → seen.new ≡ seen.old }
{
    has || seen.try_insert(0, Saw::InGot(copied(packet))).is_ok()
}

impl<'a> PlayedController<'a> {
    /// A controller with empty buffers, and a bus on which this will happen.
    pub fn new(script: &'a [Played0]) -> PlayedController<'a>
        ensures { played_bus_0 result ≡ record { seen = []; input = Naks; output = NaksOut; met = nothing_met } }
    {
        PlayedController {
            script,
            seen: ArrayVec::new(),
            input: Input::Nak,
            has: false,
            output: Output::Nak,
            met: only(false),
            address: 0,
        }
    }

    /// The address that it answers to.
    pub fn address(&self) -> u8
        ensures { result ≡ self.now.address }
    {
        self.address
    }

    /// What the host met, newest first.
    pub fn seen(&self) -> &[Saw] {
        self.seen.as_slice()
    }

    /// Whether a SETUP packet or a reset has come that was not looked at.
    fn is_pending(&self) -> bool
        ensures { result ≡ is_pending (met_view self.now.met) }
    {
        self.met.reset || self.met.setup.is_some()
    }

    /// The next thing of the script happens.
    #[tactic(auto, using(crate::proofs::Playing0::address_stays))]
    fn play(&mut self)
        ensures moved { Moved0 (played_bus_0 self.old) (played_bus_0 self.new) }
        ensures stays { StaysBy self.new.met.reset (address_by self.old.met.reset self.old.address) (address_by self.new.met.reset self.new.address) }
    {
        let Some((first, rest)) = self.script.split_first() else {
            return;
        };
        self.script = rest;
        match *first {
            Played0::Rests => {}
            Played0::SetsUp(setup) => self.set_up(setup),
            Played0::Takes => self.deliver(true),
            Played0::LosesAck => self.deliver(false),
            Played0::Sends(bytes) => self.send(bytes),
            Played0::Ends => self.bring(&[]),
            Played0::Resets => self.reset(),
        }
    }

    /// The host sends a SETUP packet.
    fn set_up(&mut self, setup: [u8; 8])
        ensures moved { Moved0 (played_bus_0 self.old) (played_bus_0 self.new) }
        ensures stays { self.new.address ≡ self.old.address }
        ensures met { self.new.met.reset ≡ self.old.met.reset }
    {
        if is_noted(Saw::SetupSent(setup), &mut self.seen) {
            self.input = Input::Nak;
            self.output = Output::Nak;
            self.met.setup = Some(setup);
        }
    }

    /// The host takes the packet in the buffer.
    fn deliver(&mut self, is_acknowledged: bool)
        ensures moved { Moved0 (played_bus_0 self.old) (played_bus_0 self.new) }
        ensures stays { self.new.address ≡ self.old.address }
        ensures met { self.new.met.reset ≡ self.old.met.reset }
    {
        match &self.input {
            Input::Packet(packet) => {
                if is_got(self.has, packet.as_slice(), &mut self.seen) {
                    if is_acknowledged {
                        self.input = Input::Nak;
                        self.met.taken = true;
                    } else {
                        self.has = true;
                    }
                }
            }
            Input::Nak | Input::Stall => {}
        }
    }

    /// The host sends a packet of these bytes.
    fn send(&mut self, bytes: [u8; 6])
        ensures moved { Moved0 (played_bus_0 self.old) (played_bus_0 self.new) }
        ensures stays { self.new.address ≡ self.old.address }
        ensures met { self.new.met.reset ≡ self.old.met.reset }
    {
        self.bring(&bytes);
    }

    /// The host sends a packet.
    fn bring(&mut self, bytes: &[u8])
        ensures moved { length bytes.now ≤ 8 → Moved0 (played_bus_0 self.old) (played_bus_0 self.new) }
        ensures stays { self.new.address ≡ self.old.address }
        ensures met { self.new.met.reset ≡ self.old.met.reset }
    {
        match self.output {
            Output::Take => {
                if is_noted(Saw::OutTaken(copied(bytes)), &mut self.seen) {
                    self.output = Output::Nak;
                    self.met.out = Some(copied(bytes));
                }
            }
            Output::Nak | Output::Stall => {}
        }
    }

    /// The host resets the bus.
    #[tactic(auto, using(crate::proofs::Playing0::address_stays, crate::proofs::Playing0::address_zero))]
    fn reset(&mut self)
        ensures moved { Moved0 (played_bus_0 self.old) (played_bus_0 self.new) }
        ensures stays { StaysBy self.new.met.reset (address_by self.old.met.reset self.old.address) (address_by self.new.met.reset self.new.address) }
    {
        if is_noted(Saw::WasReset, &mut self.seen) {
            self.input = Input::Nak;
            self.output = Output::Nak;
            self.met = only(true);
            self.address = 0;
        }
    }
}

impl<'a> Controller for PlayedController<'a> {
    ghost bus = { λ c. played_bus_0 c };

    ghost address_of = { λ c. address_by c.met.reset c.address };

    #[tactic(auto, using(crate::proofs::Playing0::address_looked))]
    fn waiting(&mut self) -> Waiting {
        self.play();
        if self.met.reset {
            self.address = 0;
        }
        std::mem::replace(&mut self.met, only(false))
    }

    fn input_0(&mut self, answer: Input) {
        self.play();
        if !self.is_pending() {
            self.input = answer;
            self.has = false;
        }
    }

    fn output_0(&mut self, answer: Output) {
        self.play();
        if !self.is_pending() {
            self.output = answer;
        }
    }

    #[tactic(auto, using(crate::proofs::Playing0::address_reported))]
    fn set_address(&mut self, address: u8) {
        self.play();
        self.address = if self.met.reset { 0 } else { address };
    }
}
