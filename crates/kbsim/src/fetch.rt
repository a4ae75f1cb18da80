//! A whole transfer of the report descriptor.

ghost use Rattle.std.specs.Prelude.{◌≡◌, ◌≢◌, ◌≤◌, ◌<◌, ℕ, List, length, IfOk, MatchOption, MatchResult};
ghost use Rattle.kbsim.specs.Fetches.{get_report_descriptor, IsGathered, IsFetched, IsUnfetched, IsCutShort};
ghost use Rattle.kbsim.specs.Outputs.{FetchRuns, GoesOn};

use crate::outcome::Outcome;
use crate::run::{ask, is_ack, open, send};
use crate::sink::Sink;
use crate::spare::Spare;
use crate::{Answer, World};
use arrayvec::ArrayVec;
use std::alloc::AllocError;

/// The SETUP packet that asks for 255 bytes of the report descriptor (HID 1.11 section 7.1.1).
const GET_REPORT_DESCRIPTOR: [u8; 8] = [0x81, 0x06, 0x00, 0x22, 0x00, 0x00, 0xFF, 0x00];

/// The most IN packets that 255 bytes take.
const MOST_PACKETS: u16 = 32;

/// Asks for the report descriptor, and closes the transfer once its data came. The outcome is the
/// number of bytes, or the first answer that is neither a packet of data nor, of the packet that
/// closes it, `Ack`.
pub(crate) fn fetch<S: Sink>(
    world: &mut World,
    answers: &mut Vec<Answer>,
    spare: &mut Spare,
    sink: &mut S,
) -> Result<Outcome, AllocError>
    ensures { IfOk result (λ outcome. GoesOn (λ steps. FetchRuns steps outcome) world.old world.new) }
{
    let count = match gather(world, answers, spare, sink)? {
        Ok(count) => count,
        Err(answer) => return Ok(Outcome::Answered(answer)),
    };
    let reported = send(world, ArrayVec::new(), answers, spare, sink)?;
    if is_ack(&reported) {
        return Ok(Outcome::Fetched(count));
    }
    Ok(Outcome::Answered(reported))
}

/// Asks for the report descriptor, and takes IN packets until one is shorter than eight bytes. The
/// answer is the number of bytes that came, or the first answer that is no packet of data.
fn gather<S: Sink>(
    world: &mut World,
    answers: &mut Vec<Answer>,
    spare: &mut Spare,
    sink: &mut S,
) -> Result<Result<u16, Answer>, AllocError>
    ensures { IfOk result (λ gathered. MatchResult gathered
        (λ count. GoesOn (IsGathered count) world.old world.new)
        (λ answer. GoesOn (IsCutShort answer) world.old world.new)) }
{
    // A SETUP packet is always acknowledged.
    open(world, GET_REPORT_DESCRIPTOR, answers, spare, sink)?;
    for full in 0..MOST_PACKETS {
        let answer = ask(world, answers, spare, sink)?;
        let Some(length) = packet_length(&answer) else {
            return Ok(Err(answer));
        };
        if length < 8 {
            return Ok(Ok(8 * full + length));
        }
    }
    // So many packets are never all full.
    Ok(Ok(8 * MOST_PACKETS))
}

/// How many bytes an answer has that is a packet of data.
fn packet_length(answer: &Answer) -> Option<u16>
    ensures { MatchOption result
        ((packet : List ℕ) → answer.now ≢ Answer.Packet (record { items = packet }))
        (λ count. (packet : List ℕ) × (answer.now ≡ Answer.Packet (record { items = packet })) × (count ≡ length packet) × (count ≤ 8)) }
{
    match answer {
        Answer::Packet(bytes) => Some(bytes.len() as u16),
        _ => None,
    }
}
