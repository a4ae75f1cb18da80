//! A whole text as a descriptor.

ghost use Rattle.std.specs.Prelude.{◌≡◌, ◌≢◌, IfOk, IfErr};
ghost use Rattle.descriptor_parse.specs.Faults.{IsFaultless, IsFirstFault, MayWantMemory, all_items};
ghost use Rattle.descriptor_parse.specs.Descriptor.{Describes};
ghost use Rattle.descriptor_parse.specs.declared.fault.ParseFault.{ParseFault};

use crate::descriptor::Descriptor;
use crate::fault::ParseError;
use crate::reading::{end_error, read_items};
use crate::state::State;
use std::alloc::Global;

/// Parses a report descriptor of at most 4,096 bytes (HID 1.11, section 6.2.2).
///
/// The error is the first fault of the text: that of the least offset, and there of the least number. `Memory`
/// comes where a growth was refused, with the offset of the item that wanted it. A text that is longer is read up
/// to the item at 4,096, which can still have a fault of its own.
pub fn parse(alloc: Global, text: &[u8]) -> Result<Descriptor, ParseError>
    ensures faultless { IfOk result (λ d. IsFaultless text.now) }
    ensures described { IfOk result (λ d. Describes (all_items text.now) d) }
    ensures first { IfErr result (λ e. e.fault ≢ ParseFault.Memory → IsFirstFault text.now e) }
    ensures memory { IfErr result (λ e. e.fault ≡ ParseFault.Memory → MayWantMemory text.now e.offset) }
{
    // Without a `Parser`, which keeps bytes of an item that is not whole.
    let mut state = State::new(alloc);
    let (offset, left) = read_items(&mut state, 0, text)?;
    // Before the state is given away, which would copy it for what drops it.
    if let Some(error) = end_error(&state, left, offset) {
        return Err(error);
    }
    Ok(Descriptor::new(state.into_reports()))
}
