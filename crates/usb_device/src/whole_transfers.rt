//! Whole control transfers, for a stack that keeps endpoint 0 to itself and hands over a request with its data.

ghost use Rattle.std.specs.Prelude.{◌≡◌, ◌++◌, ℕ, List, MatchResult};
ghost use Rattle.usb_device.specs.Calls.{EpCall};
ghost use Rattle.usb_device.specs.Whole.{FailedBy, IsWritten, WorksBehind, data_status_of, status_of};
ghost use Rattle.usb_device.specs.representation.Whole.{Gives, IsConfirmed, NotConfirmed};

use crate::{Endpoints, EpAnswer};
use thiserror::Error;

/// A device that has work of its own to do between two packets, as one that writes a flash.
pub trait Works: Endpoints {
    /// This is a step of it.
    ghost works: { Self → Self → Type 0 };

    /// A step of this work, which is nothing to the bus.
    fn work(&mut self)
        ensures made { works self.old self.new }
        ensures refines { (past : List EpCall) → Self.refines past self.old → Self.refines past self.new };
}

/// Why a whole transfer failed.
#[derive(Clone, Copy, Debug, PartialEq, Eq, Error)]
pub enum TransferError {
    /// The device stalled the request, its data or its status stage.
    #[error("the device refused the transfer")]
    Refused,
    /// The device put the data off by NAK, and took nothing. The same transfer may be made again later.
    #[error("the device is busy and took nothing")]
    Busy,
    /// The device took the data, and was not done after the steps that it was given: it goes on with them.
    #[error("the transfer did not end")]
    Unfinished,
}

/// Makes a control write: its SETUP packet, its data in one packet if there are any, and its status stage, for which the
/// device works at most so many steps (USB 2.0 section 8.5.3).
///
/// `Ok` says that the device took the data and then confirmed them by the empty packet: so they are stored, where that is
/// what the device confirms. The stack may then acknowledge the status stage, and on an error it stalls it. Each error says
/// what the device was asked: behind `Unfinished` it has the data, and behind `Busy` it has not.
///
/// ```rust
/// # fn main() -> Result<(), Box<dyn std::error::Error>> {
/// use wuzhikar::SimFlash;
/// use wuzhikar_device::{Keys, write};
///
/// let mut keys = Keys::start(SimFlash::blank(2).unwrap())?;
/// // SET_REPORT of the feature report: operation 1 writes code 0005h, the letter b, on layer 0, key 0.
/// write(&mut keys, [0x21, 0x09, 3, 3, 0, 0, 6, 0], &[3, 1, 0, 0, 0x05, 0x00], 388)?;
/// // It is in the flash.
/// let keys = Keys::start(keys.into_flash())?;
/// assert!(!keys.keyboard().is_first_start());
/// # Ok(())
/// # }
/// ```
pub fn write<E: Works>(
    device: &mut E,
    setup: [u8; 8],
    bytes: &[u8],
    steps: u16,
) -> Result<(), TransferError>
    ensures { (past : List EpCall) → E.refines past device.old → (since : List EpCall) × E.refines (since ++ past) device.new
        × MatchResult result (λ _. IsWritten setup bytes.now since) (λ e. FailedBy e steps setup bytes.now since)
        × WorksBehind E.Endpoints.refines E.works past since }
{
    device.setup(setup);
    match give(device, bytes) {
        Status::Done => confirm(device, steps),
        Status::Waits => Err(TransferError::Busy),
        Status::Refuses => Err(TransferError::Refused),
    }
}

/// What an answer says of its stage.
#[derive(Clone, Copy, Debug, PartialEq, Eq)]
pub enum Status {
    /// The stage is over: ACK of the data, or the empty packet of the status stage.
    Done,
    /// NAK.
    Waits,
    /// Anything else.
    Refuses,
}

/// Reads an answer to the data.
pub fn data_status_of(answer: EpAnswer) -> Status
    ensures { result ≡ data_status_of answer }
{
    match answer {
        EpAnswer::Ack => Status::Done,
        EpAnswer::Nak => Status::Waits,
        EpAnswer::Packet(_) | EpAnswer::Stall => Status::Refuses,
    }
}

/// Reads an answer in a status stage.
pub fn status_of(answer: EpAnswer) -> Status
    ensures { result ≡ status_of answer }
{
    match answer {
        EpAnswer::Packet(packet) => {
            if packet.is_empty() {
                Status::Done
            } else {
                Status::Refuses
            }
        }
        EpAnswer::Nak => Status::Waits,
        EpAnswer::Ack | EpAnswer::Stall => Status::Refuses,
    }
}

/// Hands over the data of a write, if there are any.
fn give<E: Endpoints>(device: &mut E, bytes: &[u8]) -> Status
    ensures { (past : List EpCall) → E.refines past device.old → (since : List EpCall) × E.refines (since ++ past) device.new
        × Gives result bytes.now since }
{
    if bytes.is_empty() {
        Status::Done
    } else {
        data_status_of(device.out(bytes))
    }
}

/// Asks for the empty packet of the status stage.
fn confirm<E: Works>(device: &mut E, steps: u16) -> Result<(), TransferError>
    ensures { (past : List EpCall) → E.refines past device.old → (since : List EpCall) × E.refines (since ++ past) device.new
        × MatchResult result (λ _. IsConfirmed since) (λ e. NotConfirmed e steps since)
        × WorksBehind E.Endpoints.refines E.works past since }
{
    for _step in 0..steps {
        match status_of(device.in_packet()) {
            Status::Done => return Ok(()),
            Status::Waits => device.work(),
            Status::Refuses => return Err(TransferError::Refused),
        }
    }
    Err(TransferError::Unfinished)
}
