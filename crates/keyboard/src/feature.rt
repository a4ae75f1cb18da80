//! What a feature report asks for.

ghost use Rattle.std.specs.Prelude.{◌≡◌, ◌+◌, ◌*◌, slice_index};
ghost use Rattle.keyboard.specs.Feature.{command_of_bytes};
ghost use Rattle.keyboard.specs.representation.Private.{verdict_of};

use control_ep::{Verdict, Why};
use keymap_store::{SubmitRefusal, Taken};
use layers::{Command, KeymapError};

/// The command in a feature report's bytes after its ID, or the first of its numbers that is none.
pub(crate) fn command_of_bytes(bytes: [u8; 5]) -> Result<Command, KeymapError>
    ensures { result ≡ command_of_bytes bytes }
{
    let [op, layer, key, low, high] = bytes;
    Command::read(op, layer, key, u16::from_le_bytes([low, high]))
}

/// The verdict on a command, by what the store made of it.
pub(crate) fn verdict_of(taken: Result<Taken, SubmitRefusal>) -> Verdict
    ensures { result ≡ verdict_of taken }
{
    match taken {
        Ok(Taken::Settled) => Verdict::Done,
        Ok(Taken::Working) => Verdict::Working,
        Err(SubmitRefusal::Busy) => Verdict::Busy,
        Err(SubmitRefusal::Unsound) => Verdict::Refused(Why::Unsound),
        Err(SubmitRefusal::Worn) => Verdict::Refused(Why::Worn),
    }
}
