//! Whole control transfers, for a stack that keeps endpoint 0 to itself.

ghost use Rattle.std.specs.Prelude.{◌≡◌, ◌≢◌, ◌⊎◌, ◌+◌, ◌∷◌, ◌++◌, [], ℕ, List, Ok, Err, MatchResult};
ghost use Rattle.control_ep.specs.Requests.{request_of, transfer_of};
ghost use Rattle.control_ep.specs.declared.answer.EpAnswer.{EpAnswer as Answer};
ghost use Rattle.keyboard.specs.Calls.{Call, Out};
ghost use Rattle.keyboard.specs.Endpoint.{view_after};
ghost use Rattle.keyboard.specs.Single.{NoneFails};
ghost use Rattle.usb_keyboard.specs.Checks.{IsChecked, FailsBy, read_answer};
ghost use Rattle.usb_keyboard.specs.Whole.{IsWritten, Fails, HasNoEffect, Stores, IsRead, IsUnread};
ghost use Rattle.usb_keyboard.specs.Uses.{UsesAtMost};
ghost use Rattle.usb_keyboard.specs.representation.Relation.{RunsSince};
ghost use Rattle.usb_keyboard.specs.representation.Whole.{Gives, IsStatusStage, NotConfirmed, Receives, NotReceived};

use crate::{HoldsKeyboard, UsbKeyboardOf};
use arrayvec::ArrayVec;
use keyboard::NorFlash;
use layers::Defaults;
use usb_device::{
    Endpoints, EpAnswer, ReadBytes, Status, TransferError, data_status_of, status_of,
};

/// How often a status stage is asked for: a command takes at most 387 steps of the flash work.
const MOST_ASKED: u16 = 388;

/// The most packets of a read, of 8 bytes each: the longest, the report descriptor, has 99 bytes.
const MOST_PACKETS: usize = 13;

impl<D: Defaults, K: HoldsKeyboard<D> + Drop, F: NorFlash + Drop> UsbKeyboardOf<D, K, F> {
    /// Makes a control write: its SETUP packet, its data, and the status stage, for which the flash work goes on.
    ///
    /// The checks of the request and of its data decide, in their order (`docs/formats.md`). `Ok` says that they are passed
    /// and that the data were confirmed: so what a feature command writes is in the flash. The stack may then acknowledge the
    /// status stage, and on an error it stalls it. `Busy` says that another command works: nothing was taken, and the same
    /// write may be made later. `Refused` says that a check is not passed or that the request reads, and nothing was taken; or
    /// that the command failed for a fault of the flash. Where the flash answers no fault in this call, `Ok` comes exactly where
    /// the request reads no byte, and it and its data pass the checks. `Unfinished` never comes.
    ///
    /// It knows no lock and no pace, and lets no host forget a report. `usb_device::Guarded` and `usb_device::Forgetting` stand
    /// before a keyboard on the bus, and not before this call: a stack asks its maker's lock before it calls, or calls the
    /// function `usb_device::write` on `Guarded`.
    pub fn write(&mut self, setup: [u8; 8], bytes: &[u8]) -> Result<(), TransferError>
        // its calls, and what they stored
        ensures calls { (start : List ℕ) (past : List Call) → RunsSince D.defaults start past self.old.0 (F.image self.old.1)
            → (since : List Call) × RunsSince D.defaults start (since ++ past) self.new.0 (F.image self.new.1)
            × MatchResult result (λ _. IsWritten setup bytes.now since × Stores D.defaults start (since ++ past) setup bytes.now)
            (λ e. Fails e setup bytes.now since × HasNoEffect D.defaults start past since) }
        // it ends as the checks of its request and of its data say. Each that they accept ends by Ok where no fault of the flash came
        // in this call, and on a flash that is healthy for 388 operations or more
        ensures checked { (start : List ℕ) (past : List Call) → RunsSince D.defaults start past self.old.0 (F.image self.old.1)
            → (answer : Answer) × IsChecked D.defaults start past setup bytes.now answer
            × MatchResult result (λ _. answer ≡ Answer.Ack) (λ e. FailsBy e answer ((F.faults self.new.1 ≡ F.faults self.old.1) ⊎ ((n : ℕ) × F.is_faultless self.old.1 (n + 388)))) }
        // of a flash that is healthy for so many operations it uses up those that it makes
        ensures faultless { UsesAtMost F.operations F.is_faultless 388 self.old.1 self.new.1 }
    {
        self.setup(setup);
        match self.give(bytes) {
            Status::Done => self.confirm(),
            Status::Waits => Err(TransferError::Busy),
            Status::Refuses => Err(TransferError::Refused),
        }
    }

    /// Hands over the data of a write, if there are any.
    fn give(&mut self, bytes: &[u8]) -> Status
        ensures calls { (start : List ℕ) (past : List Call) → RunsSince D.defaults start past self.old.0 (F.image self.old.1)
            → (since : List Call) × RunsSince D.defaults start (since ++ past) self.new.0 (F.image self.new.1) × Gives result bytes.now since }
        ensures flash { self.new.1 ≡ self.old.1 }
    {
        if bytes.is_empty() {
            Status::Done
        } else {
            data_status_of(self.out(bytes))
        }
    }

    /// Asks for the empty packet of the status stage.
    fn confirm(&mut self) -> Result<(), TransferError>
        ensures calls { (start : List ℕ) (past : List Call) → RunsSince D.defaults start past self.old.0 (F.image self.old.1)
            → (since : List Call) × RunsSince D.defaults start (since ++ past) self.new.0 (F.image self.new.1)
            × MatchResult result (λ _. IsStatusStage since) (λ e. NotConfirmed D.defaults start past e since)
            × ((F.faults self.new.1 ≡ F.faults self.old.1) ⊎ ((n : ℕ) × F.is_faultless self.old.1 (n + 388)) → NoneFails since) }
        ensures faultless { UsesAtMost F.operations F.is_faultless 388 self.old.1 self.new.1 }
    {
        for _asked in 0..MOST_ASKED {
            match status_of(self.in_packet()) {
                Status::Done => return Ok(()),
                Status::Waits => {
                    let _work = self.step();
                }
                Status::Refuses => return Err(TransferError::Refused),
            }
        }
        Err(TransferError::Unfinished)
    }

    /// Makes a control read: its SETUP packet, the packets that the keyboard gives, put together, and the empty packet of the
    /// status stage.
    ///
    /// `Ok` has the bytes that the request reads, no more than wLength, as the keyboard had them at the call: a descriptor, a
    /// report, the idle value or the protocol. `Refused` says that the keyboard stalls the request, that it does not read, or
    /// that wLength is 0: a request without data is a `write`. No other error comes.
    pub fn read(&mut self, setup: [u8; 8]) -> Result<ReadBytes, TransferError>
        // its calls
        ensures calls { (start : List ℕ) (past : List Call) → RunsSince D.defaults start past self.old.0 (F.image self.old.1)
            → (since : List Call) × RunsSince D.defaults start (since ++ past) self.new.0 (F.image self.new.1)
            × MatchResult result (λ bytes. IsRead setup bytes.items since) (λ e. IsUnread setup since) }
        // it answers what the request reads from the keyboard as it was
        ensures answer { (start : List ℕ) (past : List Call) → RunsSince D.defaults start past self.old.0 (F.image self.old.1)
            → MatchResult result (λ bytes. read_answer (transfer_of (request_of setup) (view_after D.defaults start past)) (request_of setup).length ≡ Ok bytes.items)
            (λ e. read_answer (transfer_of (request_of setup) (view_after D.defaults start past)) (request_of setup).length ≡ Err e) }
        // the flash stays as it is
        ensures flash { self.new.1 ≡ self.old.1 }
    {
        let asked = length_of(setup);
        if asked == 0 {
            return Err(TransferError::Refused);
        }
        self.setup(setup);
        match self.receive(asked as usize) {
            Ok(bytes) => self.close(bytes),
            Err(error) => Err(error),
        }
    }

    /// Asks for packets until one ends the read.
    fn receive(&mut self, asked: usize) -> Result<ReadBytes, TransferError>
        ensures calls { (start : List ℕ) (past : List Call) → RunsSince D.defaults start past self.old.0 (F.image self.old.1)
            → (since : List Call) × RunsSince D.defaults start (since ++ past) self.new.0 (F.image self.new.1)
            × MatchResult result (λ bytes. Receives asked bytes.items since) (λ e. NotReceived e asked since) }
        ensures flash { self.new.1 ≡ self.old.1 }
    {
        let mut bytes = ArrayVec::new();
        for _packet in 0..MOST_PACKETS {
            match self.in_packet() {
                EpAnswer::Packet(packet) => {
                    let _full = bytes.try_extend_from_slice(&packet);
                    if packet.len() < 8 || bytes.len() >= asked {
                        return Ok(bytes);
                    }
                }
                EpAnswer::Nak => return Err(TransferError::Busy),
                EpAnswer::Ack | EpAnswer::Stall => return Err(TransferError::Refused),
            }
        }
        Err(TransferError::Unfinished)
    }

    /// Hands over the empty packet of the status stage.
    fn close(&mut self, bytes: ReadBytes) -> Result<ReadBytes, TransferError>
        ensures calls { (start : List ℕ) (past : List Call) → RunsSince D.defaults start past self.old.0 (F.image self.old.1)
            → (answer : Answer) × RunsSince D.defaults start (Out [] answer ∷ past) self.new.0 (F.image self.new.1)
            × MatchResult result (λ given. given ≡ bytes) (λ e. answer ≢ Answer.Ack) }
        ensures flash { self.new.1 ≡ self.old.1 }
    {
        match self.out(&[]) {
            EpAnswer::Ack => Ok(bytes),
            EpAnswer::Nak | EpAnswer::Packet(_) | EpAnswer::Stall => Err(TransferError::Refused),
        }
    }
}

/// wLength.
fn length_of(setup: [u8; 8]) -> u16
    ensures { result ≡ (request_of setup).length }
{
    u16::from_le_bytes([setup[6], setup[7]])
}
