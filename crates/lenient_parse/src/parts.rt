//! The parts of a text: its whole items, and an item that was cut off.

ghost use Rattle.std.specs.Prelude.{◌≡◌, IfOk, map, length, drop};
ghost use Rattle.descriptor_parse.specs.Items.{items_at};
ghost use Rattle.descriptor_parse.specs.ItemViews.{item_view};
ghost use Rattle.lenient_parse.specs.Lenient.{items_of, end_of};

use descriptor_parse::{Item, Items};
use std::alloc::{AllocError, Global};

/// The whole items of a text in order, and where they end.
pub(crate) fn whole_items(alloc: Global, text: &[u8]) -> Result<(Vec<Item<'_>>, usize), AllocError>
    ensures items { IfOk result (λ r. map item_view r.0.items ≡ items_of text.now) }
    ensures end { IfOk result (λ r. r.1 ≡ end_of (length text.now) (items_at 0 text.now)) }
{
    let mut items = Vec::new(alloc);
    for each in Items::new(text) {
        match each {
            Ok(item) => items.push(item)?,
            Err(error) => return Ok((items, error.offset)),
        }
    }
    Ok((items, text.len()))
}

/// The bytes of a text from an offset on.
pub(crate) fn part_from(text: &[u8], offset: usize) -> &[u8]
    ensures { result.now ≡ drop offset text.now }
{
    let (_, part) = text.split_at(offset.min(text.len()));
    part
}
