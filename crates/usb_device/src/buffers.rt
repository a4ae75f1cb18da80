//! What is asked of the buffers of endpoint 1.

ghost use Rattle.std.specs.Prelude.{◌≡◌, ◌≤◌, ◌<◌, length, Bool, false, List};
ghost use Rattle.usb_device.specs.Bus1.{Bus1, Goes1, anew, blank, filled, given_up, known_if, room_of, reported};
ghost use Rattle.usb_device.specs.representation.Link1.{size_of};

use crate::{Endpoint1, Report};

/// The buffers of endpoint 1, which count its data toggle. A reset of the bus empties them.
///
/// One buffer in memory, whose packets no host takes:
///
/// ```rust
/// use wuzhikar_device::{Buffers, Endpoint1, Report};
///
/// struct OneBuffer {
///     packet: Option<Report>,
/// }
///
/// impl Buffers for OneBuffer {
///     fn has_two(&self) -> bool {
///         false
///     }
///
///     fn taken_1(&mut self) -> usize {
///         0
///     }
///
///     fn begin_anew(&mut self, _state: Endpoint1) {
///         self.packet = None;
///     }
///
///     fn give_up(&mut self) {
///         self.packet = None;
///     }
///
///     fn host_began(&mut self) {}
///
///     fn forget(&mut self) {
///         self.packet = None;
///     }
///
///     fn input_1(&mut self, packet: Report) {
///         self.packet = Some(packet);
///     }
/// }
///
/// let mut buffer = OneBuffer { packet: None };
/// buffer.input_1([1, 2].into_iter().collect());
/// buffer.give_up();
/// assert_eq!(buffer.packet, None);
/// ```
pub trait Buffers {
    /// They, and what the host got from them.
    ghost bus: { Self → Bus1 };

    /// Whether there are two, which are sent in turns, or one.
    ghost two: { Bool };

    /// Whether there are two.
    fn has_two(&self) -> bool
        ensures { result ≡ two };

    /// How many packets the host has taken, and acknowledged; reported once.
    fn taken_1(&mut self) -> usize
        ensures { (steps : List Bus1) × (mid : Bus1) × Goes1 steps (bus self.old) mid × (result ≡ mid.taken) × (bus self.new ≡ reported mid) };

    /// Endpoint 1 is this from now on, with empty buffers and DATA0. Without effect after a reset that `forget` did not follow.
    fn begin_anew(&mut self, state: Endpoint1)
        ensures { (steps : List Bus1) × (mid : Bus1) × Goes1 steps (bus self.old) mid × (bus self.new ≡ anew mid state) };

    /// Empties the buffers: the next packet has the toggle of the oldest one that was in them. Without effect after a reset that
    /// `forget` did not follow.
    fn give_up(&mut self)
        ensures { (steps : List Bus1) × (mid : Bus1) × Goes1 steps (bus self.old) mid × (bus self.new ≡ given_up mid) };

    /// The host has the status packet of the request behind the last `begin_anew`: else it is not called. Such a host has begun anew.
    fn host_began(&mut self)
        ensures { (steps : List Bus1) × (mid : Bus1) × Goes1 steps (bus self.old) mid × (bus self.new ≡ known_if mid.opened mid) };

    /// Follows a reset of the bus: endpoint 1 is off, with empty buffers and DATA0.
    fn forget(&mut self)
        ensures { bus self.new ≡ blank false };

    /// Puts a packet into a free buffer; there is one. Without effect after a reset that `forget` did not follow.
    fn input_1(&mut self, packet: Report)
        ensures { (steps : List Bus1) × (mid : Bus1) × Goes1 steps (bus self.old) mid
            × (length mid.slots < room_of two → bus self.new ≡ filled mid packet.items) };
}

/// The bytes of a packet of endpoint 1 (section 5.7.3).
#[derive(Clone, Copy, Debug, PartialEq, Eq)]
pub enum PacketSize {
    Bytes8,
    Bytes16,
    Bytes32,
    Bytes64,
}

impl PacketSize {
    /// The number of bytes.
    pub fn bytes(self) -> usize
        ensures size { result ≡ size_of self }
        ensures some { 8 ≤ result }
    {
        match self {
            PacketSize::Bytes8 => 8,
            PacketSize::Bytes16 => 16,
            PacketSize::Bytes32 => 32,
            PacketSize::Bytes64 => 64,
        }
    }
}
