//! What stands behind the USB device layer.

ghost use Rattle.std.specs.Prelude.{◌≡◌, ◌∷◌, ℕ, List, Option};
ghost use Rattle.std.specs.Option.{option_map};
ghost use Rattle.usb_device.specs.Calls.{EpCall, SetUp, Out, In, Polled, BusReset};

use crate::{EpAnswer, Report};

/// A device that serves what the USB device layer leaves to it.
pub trait Endpoints {
    /// It stands for these calls, newest first: each was answered as its own contract says.
    ghost refines: { List EpCall → Self → Type 0 };

    /// It has come from there to here, by these calls alone.
    ghost keeps: { Self → Self → Type 0 } = { λ _ _. Unit {0} };

    /// A SETUP packet of endpoint 0, which is always acknowledged.
    fn setup(&mut self, packet: [u8; 8])
        ensures refines { (past : List EpCall) → refines past self.old → refines (SetUp packet ∷ past) self.new }
        ensures kept { (from : Self) → keeps from self.old → keeps from self.new };

    /// An OUT packet of endpoint 0.
    fn out(&mut self, packet: &[u8]) -> EpAnswer
        ensures refines { (past : List EpCall) → refines past self.old → refines (Out packet.now result ∷ past) self.new }
        ensures kept { (from : Self) → keeps from self.old → keeps from self.new };

    /// An IN token of endpoint 0.
    fn in_packet(&mut self) -> EpAnswer
        ensures refines { (past : List EpCall) → refines past self.old → refines (In result ∷ past) self.new }
        ensures kept { (from : Self) → keeps from self.old → keeps from self.new };

    /// The report that is due for endpoint 1, which then counts as sent.
    fn poll(&mut self) -> Option<Report>
        ensures refines { (past : List EpCall) → refines past self.old → refines (Polled (option_map (λ r. r.items) result) ∷ past) self.new }
        ensures kept { (from : Self) → keeps from self.old → keeps from self.new };

    /// A bus reset.
    fn bus_reset(&mut self)
        ensures refines { (past : List EpCall) → refines past self.old → refines (BusReset ∷ past) self.new }
        ensures kept { (from : Self) → keeps from self.old → keeps from self.new };
}
