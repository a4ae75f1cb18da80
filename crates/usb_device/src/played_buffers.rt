//! A bus of endpoint 1 that a script plays: the clauses of `Buffers` can be met by buffers that deliver.

ghost use Rattle.std.specs.Prelude.{◌≡◌, [], List, true, false, map, length, ◌≤◌};
ghost use Rattle.usb_device.specs.Bus1.{agree, blank, received};
ghost use Rattle.usb_device.specs.representation.Played.{begun_if, got_of, played_bus, Moved};

use crate::buffers::Buffers;
use crate::packets::held;
use crate::{Endpoint1, Report};
use arrayvec::ArrayVec;

/// What happens on the bus.
#[derive(Clone, Copy, Debug, PartialEq, Eq)]
pub enum Played {
    /// Nothing.
    Rests,
    /// The host takes the packet in the buffer.
    Takes,
    /// It takes the packet, and its acknowledgement is lost.
    LosesAck,
    /// It begins anew with DATA0, where the device has.
    Begins,
    /// It resets the bus.
    Resets,
}

/// What the buffer brought the host.
#[derive(Clone, Debug, Drop, PartialEq, Eq)]
pub enum Brought {
    /// A packet that it took as new.
    New(Report),
    /// The device began anew.
    Anew(Endpoint1),
    /// The device gave a report up.
    GivenUp,
    /// The device knew that the host has begun anew, too.
    Known,
}

impl Default for Brought {
    fn default() -> Brought {
        Brought::Anew(Endpoint1::Off)
    }
}

/// One buffer of endpoint 1, and its host.
///
/// Each call plays what is next in the script, and then has its effect. The host notes 32 things that it was brought. Where
/// it has no room it takes no packet, and resets the bus where it is to note anything else.
#[derive(Drop)]
pub struct PlayedBuffers<'a> {
    script: &'a [Played],
    got: ArrayVec<Brought, 32>,
    host: bool,
    device: bool,
    slot: Option<Report>,
    taken: bool,
    opened: bool,
    reset: bool,
}

/// Notes a packet that is new to the host, and whether there was room.
fn is_noted(is_new: bool, packet: &[u8], got: &mut ArrayVec<Brought, 32>) -> bool
    ensures noted { length packet.now ≤ 23 → result ≡ true → map got_of got.new.items ≡ received is_new packet.now (map got_of got.old.items) }
    ensures full { result ≡ false → got.new ≡ got.old }
{
    !is_new || got.try_insert(0, Brought::New(held(packet))).is_ok()
}

impl<'a> PlayedBuffers<'a> {
    /// An empty buffer, and a bus on which this will happen.
    pub fn new(script: &'a [Played]) -> PlayedBuffers<'a>
        ensures { played_bus result ≡ blank false }
    {
        PlayedBuffers {
            script,
            got: ArrayVec::new(),
            host: false,
            device: false,
            slot: None,
            taken: false,
            opened: false,
            reset: false,
        }
    }

    /// What the host was brought since the last reset, newest first.
    pub fn got(&self) -> &[Brought] {
        self.got.as_slice()
    }

    /// The next thing of the script happens.
    fn play(&mut self)
        ensures { Moved (played_bus self.old) (played_bus self.new) }
    {
        let Some((first, rest)) = self.script.split_first() else {
            return;
        };
        self.script = rest;
        match *first {
            Played::Rests => {}
            Played::Takes => self.deliver(true),
            Played::LosesAck => self.deliver(false),
            Played::Begins => self.begin(),
            Played::Resets => self.set_back(true),
        }
    }

    /// The host takes the packet in the buffer, as new where it wants its toggle.
    fn deliver(&mut self, is_acknowledged: bool)
        ensures { Moved (played_bus self.old) (played_bus self.new) }
    {
        let is_new = self.agrees();
        match &self.slot {
            Some(packet) if !self.taken => {
                if is_noted(is_new, packet.as_slice(), &mut self.got) {
                    self.host = !self.device;
                    if is_acknowledged {
                        self.device = !self.device;
                        self.slot = None;
                        self.taken = true;
                    }
                }
            }
            _ => {}
        }
    }

    /// Whether the host wants the toggle of the packet.
    fn agrees(&self) -> bool
        ensures { result ≡ agree (played_bus self.now) }
    {
        if self.host { self.device } else { !self.device }
    }

    /// The host begins anew, where the device has.
    fn begin(&mut self)
        ensures { played_bus self.new ≡ begun_if self.old.opened (played_bus self.old) }
    {
        if self.opened {
            self.host = false;
        }
    }

    /// The bus is as behind a reset.
    fn set_back(&mut self, reset: bool)
        ensures { played_bus self.new ≡ blank reset }
    {
        self.got = ArrayVec::new();
        self.host = false;
        self.device = false;
        self.slot = None;
        self.taken = false;
        self.opened = false;
        self.reset = reset;
    }
}

impl<'a> Buffers for PlayedBuffers<'a> {
    ghost bus = { λ b. played_bus b };

    ghost two = { false };

    fn has_two(&self) -> bool {
        false
    }

    fn taken_1(&mut self) -> usize {
        self.play();
        let count = usize::from(self.taken);
        self.taken = false;
        count
    }

    fn begin_anew(&mut self, state: Endpoint1) {
        self.play();
        if self.reset {
            return;
        }
        if self.got.try_insert(0, Brought::Anew(state)).is_ok() {
            self.device = false;
            self.slot = None;
            self.taken = false;
            self.opened = true;
        } else {
            self.set_back(true);
        }
    }

    fn give_up(&mut self) {
        self.play();
        if self.reset {
            return;
        }
        if self.got.try_insert(0, Brought::GivenUp).is_ok() {
            self.slot = None;
            self.taken = false;
        } else {
            self.set_back(true);
        }
    }

    fn host_began(&mut self) {
        self.play();
        if !self.opened {
            return;
        }
        if self.got.try_insert(0, Brought::Known).is_ok() {
            self.host = false;
            self.opened = false;
        } else {
            self.set_back(true);
        }
    }

    fn forget(&mut self) {
        self.set_back(false);
    }

    fn input_1(&mut self, packet: Report) {
        self.play();
        if !self.reset && self.slot.is_none() {
            self.slot = Some(packet);
            self.opened = false;
        }
    }
}
