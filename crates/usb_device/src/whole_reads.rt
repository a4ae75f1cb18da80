//! Whole control reads, for a stack that keeps endpoint 0 to itself and sends what it is handed.

ghost use Rattle.std.specs.Prelude.{◌≡◌, ◌≢◌, ◌∷◌, ◌++◌, [], List, MatchResult};
ghost use Rattle.usb_device.specs.declared.answer.EpAnswer.{EpAnswer as Answer};
ghost use Rattle.usb_device.specs.Calls.{EpCall, Out};
ghost use Rattle.usb_device.specs.Requests.{word_at};
ghost use Rattle.usb_device.specs.WholeReads.{IsRead, FailsToRead};
ghost use Rattle.usb_device.specs.representation.WholeReads.{Receives, NotReceived};

use crate::{Endpoints, EpAnswer, TransferError};
use arrayvec::ArrayVec;

/// The most packets of a read, of 8 bytes each.
const MOST_PACKETS: usize = 13;

/// What a read brings: at most 104 bytes. The longest that a keyboard is asked for is its report descriptor, of 99.
pub type ReadBytes = ArrayVec<u8, 104>;

/// Makes a control read: its SETUP packet, the packets of 8 bytes that the device gives, put together, and the empty packet of
/// the status stage (USB 2.0 section 8.5.3).
///
/// `Ok` has what the device gave, at most wLength bytes where it gives no more than it is asked for. `Refused` says that it
/// stalled a packet, or that wLength is 0: a request without data is a `write`. `Busy` says that it put a packet off by NAK,
/// and `Unfinished` that the read has more than 104 bytes.
///
/// ```rust
/// # fn main() -> Result<(), Box<dyn std::error::Error>> {
/// use wuzhikar::SimFlash;
/// use wuzhikar_device::{Keys, TransferError, read};
///
/// let mut keys = Keys::start(SimFlash::blank(2).unwrap())?;
/// // GET_DESCRIPTOR of the report descriptor.
/// assert_eq!(read(&mut keys, [0x81, 0x06, 0, 0x22, 0, 0, 255, 0])?.len(), 99);
/// // Strings are not the keyboard's.
/// assert_eq!(read(&mut keys, [0x80, 0x06, 0, 3, 0, 0, 255, 0]), Err(TransferError::Refused));
/// # Ok(())
/// # }
/// ```
pub fn read<E: Endpoints>(device: &mut E, setup: [u8; 8]) -> Result<ReadBytes, TransferError>
    ensures { (past : List EpCall) → E.refines past device.old → (since : List EpCall) × E.refines (since ++ past) device.new
        × MatchResult result (λ bytes. IsRead setup bytes.items since) (λ e. FailsToRead e setup since) }
{
    let asked = length_of(setup);
    if asked == 0 {
        return Err(TransferError::Refused);
    }
    device.setup(setup);
    match receive(device, asked as usize) {
        Ok(bytes) => close(device, bytes),
        Err(error) => Err(error),
    }
}

/// wLength.
fn length_of(setup: [u8; 8]) -> u16
    ensures { result ≡ word_at setup 6 }
{
    u16::from_le_bytes([setup[6], setup[7]])
}

/// Asks for packets until one ends the read.
fn receive<E: Endpoints>(device: &mut E, asked: usize) -> Result<ReadBytes, TransferError>
    ensures { (past : List EpCall) → E.refines past device.old → (since : List EpCall) × E.refines (since ++ past) device.new
        × MatchResult result (λ bytes. Receives asked bytes.items since) (λ e. NotReceived e asked since) }
{
    let mut bytes = ArrayVec::new();
    for _packet in 0..MOST_PACKETS {
        match device.in_packet() {
            EpAnswer::Packet(packet) => {
                let _full = bytes.try_extend_from_slice(&packet);
                if packet.len() < 8 || bytes.len() >= asked {
                    return Ok(bytes);
                }
            }
            EpAnswer::Nak => return Err(TransferError::Busy),
            EpAnswer::Ack | EpAnswer::Stall => return Err(TransferError::Refused),
        }
    }
    Err(TransferError::Unfinished)
}

/// Hands over the empty packet of the status stage.
fn close<E: Endpoints>(device: &mut E, bytes: ReadBytes) -> Result<ReadBytes, TransferError>
    ensures { (past : List EpCall) → E.refines past device.old → (answer : Answer) × E.refines (Out [] answer ∷ past) device.new
        × MatchResult result (λ given. (given ≡ bytes) × (answer ≡ Answer.Ack)) (λ e. (e ≡ TransferError.Refused) × (answer ≢ Answer.Ack)) }
{
    match device.out(&[]) {
        EpAnswer::Ack => Ok(bytes),
        EpAnswer::Nak | EpAnswer::Packet(_) | EpAnswer::Stall => Err(TransferError::Refused),
    }
}
