//! A text that is parsed for more than its fields, in one walk over its items.

ghost use Rattle.std.specs.Prelude.{◌≡◌, ◌≢◌, ◌≤◌, ℕ, IsTrue, List, [], ◌∷◌, length, OnOk, OnErr, IfOk, IfErr};
ghost use Rattle.descriptor_parse.specs.Items.{ItemValue};
ghost use Rattle.descriptor_parse.specs.ItemViews.{item_view};
ghost use Rattle.descriptor_parse.specs.Faults.{IsFaultless, all_items};
ghost use Rattle.descriptor_parse.specs.Descriptor.{Describes};
ghost use Rattle.descriptor_parse.specs.Tags.{tag_of};
ghost use Rattle.descriptor_parse.specs.Beside.{IsRefusal, wants_beside};
ghost use Rattle.descriptor_parse.specs.representation.StateRefines.{StateRefines};

use crate::descriptor::Descriptor;
use crate::fault::ParseError;
use crate::items::{Item, cut};
use crate::reading::{end, take_item};
use crate::state::State;
use std::alloc::{AllocError, Global};

/// What is kept beside the fields.
pub trait Beside {
    /// It stands for the items before, newest first.
    ghost refines: { List ItemValue → Self → Type 0 };

    /// Takes an item, after those that this state stands for. Memory is wanted only at a data item, a Collection, a Push, and an
    /// item that the parser skips.
    fn take(&mut self, item: &Item<'_>, before: &State) -> Result<(), AllocError>
        requires few { item.now.prefix ≢ 254 → length item.now.bytes.now ≤ 4 }
        requires not_three { item.now.prefix ≢ 254 → length item.now.bytes.now ≢ 3 }
        ensures taken { OnOk result ((items : List ItemValue) → StateRefines items before.now → refines items self.old → refines (item_view item.now ∷ items) self.new) }
        ensures refused { OnErr result (IsTrue (wants_beside (tag_of item.now.prefix))) };
}

/// Why a text is not parsed.
#[derive(Clone, Copy, Debug, PartialEq, Eq)]
pub enum Refusal {
    /// The text is refused, or there was no memory for its fields.
    Parse(ParseError),
    /// There was no memory for what is kept beside.
    Memory,
}

/// Parses a report descriptor as [`parse`](crate::parse) does, and gives each item to what is kept beside the fields.
///
/// A fault of an item comes before the memory that was wanted for it beside.
pub fn parse_beside<B: Beside>(
    alloc: Global,
    text: &[u8],
    beside: &mut B,
) -> Result<Descriptor, Refusal>
    ensures faultless { IfOk result (λ d. IsFaultless text.now) }
    ensures described { IfOk result (λ d. Describes (all_items text.now) d) }
    ensures beside { OnOk result (B.refines [] beside.old → B.refines (all_items text.now) beside.new) }
    ensures refused { IfErr result (IsRefusal text.now) }
{
    let mut state = State::new(alloc);
    let mut at = 0;
    let mut rest = text;
    while let Some((item, after, _)) = cut(at, rest) {
        let kept = beside.take(&item, &state);
        match take_item(&mut state, &item, rest.len() - after.len()) {
            Ok(offset) => at = offset,
            Err(error) => return Err(Refusal::Parse(error)),
        }
        if kept.is_err() {
            return Err(Refusal::Memory);
        }
        rest = after;
    }
    match end(state, rest, at) {
        Ok(descriptor) => Ok(descriptor),
        Err(error) => Err(Refusal::Parse(error)),
    }
}
