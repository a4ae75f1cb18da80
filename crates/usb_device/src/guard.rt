//! Which OUT packets a lock and a pace let through.

ghost use Rattle.std.specs.Prelude.{◌≡◌, ◌-◌, ◌&&◌, ◌||◌, ◌==◌, not, ℕ, Bool, true, false, Some};
ghost use Rattle.usb_device.specs.Guarding.{is_feature, writes, passage_by};
ghost use Rattle.usb_device.specs.representation.Guarded.{passage_view, is_taken, left_by};

use crate::EpAnswer;

/// What becomes of an OUT packet.
#[derive(Clone, Copy, PartialEq, Eq)]
pub(crate) enum Passage {
    /// It is stalled.
    Refuses,
    /// It is put off.
    Waits,
    /// It goes on to the device behind.
    Passes,
}

/// Lock and pace of feature commands.
#[derive(Drop)]
pub(crate) struct Guard {
    pace: u16,
    locked: bool,
    /// The transfer is SET_REPORT of the feature report.
    feature: bool,
    /// A command of it came while the lock was set.
    refused: bool,
    /// So many scans still have to come before the next command.
    left: u16,
}

/// Whether a SETUP packet is SET_REPORT of the feature report, ID 3.
fn is_feature(setup: [u8; 8]) -> bool
    ensures { result ≡ is_feature (Some setup) }
{
    setup[0] == 0x21 && setup[1] == 0x09 && u16::from_le_bytes([setup[2], setup[3]]) == 0x0303
}

/// Whether a packet's operation writes the keymap.
fn writes(packet: &[u8]) -> bool
    ensures { result ≡ writes packet.now }
{
    match packet.get(1) {
        Some(operation) => 0 < *operation && *operation < 4,
        None => false,
    }
}

impl Guard {
    /// The lock is off, and the first command waits as long as one behind another.
    pub(crate) fn new(pace: u16) -> Guard
        ensures { result ≡ record { pace = pace; locked = false; feature = false; refused = false; left = pace } }
    {
        Guard {
            pace,
            locked: false,
            feature: false,
            refused: false,
            left: pace,
        }
    }

    /// Sets the lock, or takes it away.
    pub(crate) fn set_locked(&mut self, on: bool)
        ensures { self.new ≡ record self.old { locked = on } }
    {
        self.locked = on;
    }

    /// A scan has come.
    pub(crate) fn scan(&mut self)
        ensures { self.new ≡ record self.old { left = self.old.left - 1 } }
    {
        self.left = self.left.saturating_sub(1);
    }

    /// A SETUP packet has come.
    pub(crate) fn setup(&mut self, packet: [u8; 8])
        ensures { self.new ≡ record self.old { feature = is_feature (Some packet); refused = false } }
    {
        self.feature = is_feature(packet);
        self.refused = false;
    }

    /// The bus was reset.
    pub(crate) fn reset(&mut self)
        ensures { self.new ≡ record self.old { feature = false; refused = false } }
    {
        self.feature = false;
        self.refused = false;
    }

    /// Whether the transfer was refused.
    pub(crate) fn is_refused(&self) -> bool
        ensures { result ≡ self.now.refused }
    {
        self.refused
    }

    /// What becomes of an OUT packet.
    pub(crate) fn passage(&self, packet: &[u8]) -> Passage
        ensures { passage_view result ≡ passage_by (self.now.refused || (self.now.locked && (self.now.feature && writes packet.now)))
            ((self.now.feature && writes packet.now) && not (self.now.left == 0)) }
    {
        let is_command = self.feature && writes(packet);
        if self.refused || (self.locked && is_command) {
            Passage::Refuses
        } else if is_command && self.left != 0 {
            Passage::Waits
        } else {
            Passage::Passes
        }
    }

    /// The transfer is refused from here on.
    pub(crate) fn refuse(&mut self)
        ensures { self.new ≡ record self.old { refused = true } }
    {
        self.refused = true;
    }

    /// The device behind gave this answer to an OUT packet.
    pub(crate) fn note(&mut self, packet: &[u8], answer: &EpAnswer)
        ensures { self.new ≡ record self.old { left = left_by (is_taken answer.now && (self.old.feature && writes packet.now)) self.old.pace self.old.left } }
    {
        let is_taken = match answer {
            EpAnswer::Ack => true,
            EpAnswer::Nak | EpAnswer::Packet(_) | EpAnswer::Stall => false,
        };
        if is_taken && self.feature && writes(packet) {
            self.left = self.pace;
        }
    }
}
