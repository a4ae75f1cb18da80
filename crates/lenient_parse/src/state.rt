//! What is kept between two items.

ghost use Rattle.std.specs.Prelude.{◌≡◌, ◌<◌, ◌≤◌, ◌*◌, ◌^◌, ◌&&◌, ◌||◌, nat_lt, nat_le, if◌then◌else◌, List, [], ◌∷◌, OnOk, IfOk, map, None};
ghost use Rattle.descriptor_parse.specs.Items.{ItemValue};
ghost use Rattle.descriptor_parse.specs.ItemViews.{item_view};
ghost use Rattle.descriptor_parse.specs.Fields.{is_constant};
ghost use Rattle.descriptor_parse.specs.representation.StackRefines.{StackRefines};
ghost use Rattle.lenient_parse.specs.Late.{has_id, late_after, is_late, next_is_data};
ghost use Rattle.lenient_parse.specs.Sets.{opens, set_after, is_left, begins_set};
ghost use Rattle.lenient_parse.specs.Padding.{is_large, is_padded};
ghost use Rattle.lenient_parse.specs.Lenient.{instead, passed};
ghost use Rattle.lenient_parse.specs.representation.Relation.{sizes_of, Relation, IsShort};

use crate::ahead::{
    closes, has_id, is_constant, is_data, is_delimiter, is_local, is_main, is_report_id, is_zero,
    next_is_data,
};
use crate::seen::Seen;
use crate::sizes::{Sizes, take};
use descriptor_parse::stack::Stack;
use descriptor_parse::{Item, ParseFault};
use std::alloc::{AllocError, Global};

/// What stands in place of an item.
pub(crate) enum Instead {
    /// The item itself.
    Item,
    Nothing,
    /// Padding of as many bits.
    Padding,
}

/// The most bits of a data item that padding stands for.
const MAX_BITS: u64 = 0x10_0000;

const MAX_SIZE: u32 = 32;

/// The most bits of a Constant item's place.
const MAX_CONSTANT_SIZE: u32 = 1024;

const MAX_COUNT: u32 = 1024;

#[derive(Drop)]
pub(crate) struct State {
    /// Whether the first Report ID is still to come.
    pub(crate) late: bool,
    /// Whether the first of the Main items and the Report IDs to come is a data item.
    pub(crate) leaving: bool,
    /// What the set has that is open.
    pub(crate) set: Option<Seen>,
    pub(crate) sizes: Stack<Sizes>,
}

impl State {
    /// That before the first item.
    pub(crate) fn new(alloc: Global, items: &[Item<'_>]) -> State
        ensures refines { Relation [] (map item_view items.now) result }
        ensures late { result.late ≡ has_id (map item_view items.now) }
        ensures set { result.set ≡ None }
    {
        State {
            late: has_id(items),
            leaving: next_is_data(items),
            set: None,
            sizes: Stack::new(alloc, Sizes::NONE),
        }
    }

    /// What stands in place of an item.
    pub(crate) fn instead(&self, item: &Item<'_>, more: &[Item<'_>]) -> Instead
        ensures { (before : List ItemValue) → Relation before (item_view item.now ∷ map item_view more.now) self.now
            → result ≡ instead self.now.late self.now.set before (item_view item.now) (map item_view more.now) }
    {
        if self.is_late(item) || self.is_left(item, more) {
            return Instead::Nothing;
        }
        if self.is_padded(item) {
            Instead::Padding
        } else {
            Instead::Item
        }
    }

    /// The fault that is passed over at an item.
    pub(crate) fn passed(&self, item: &Item<'_>, more: &[Item<'_>]) -> Option<ParseFault>
        ensures { (before : List ItemValue) → Relation before (item_view item.now ∷ map item_view more.now) self.now
            → result ≡ passed self.now.late self.now.set before (item_view item.now) (map item_view more.now) }
    {
        if self.late && is_data(item) {
            return Some(ParseFault::MixedIds);
        }
        if self.begins_set(item, more) {
            return Some(ParseFault::Delimiter);
        }
        if !self.is_padded(item) {
            return None;
        }
        if self.is_large(item) {
            Some(ParseFault::SizeTooLarge)
        } else {
            Some(ParseFault::CountTooLarge)
        }
    }

    /// Takes an item.
    pub(crate) fn take(&mut self, item: &Item<'_>, more: &[Item<'_>]) -> Result<(), AllocError>
        requires { IsShort (item_view item.now) }
        ensures late { OnOk result (self.new.late ≡ late_after self.old.late (item_view item.now)) }
        ensures set { OnOk result (self.new.set ≡ set_after self.old.set (item_view item.now) (map item_view more.now)) }
        ensures refines { OnOk result ((before : List ItemValue) → Relation before (item_view item.now ∷ map item_view more.now) self.old
            → Relation (item_view item.now ∷ before) (map item_view more.now) self.new) }
    {
        take(&mut self.sizes, item)?;
        self.set = self.set_after(item, more);
        self.late = self.late && !is_report_id(item);
        self.leaving = self.leaves_after(item, more);
        Ok(())
    }

    fn leaves_after(&self, item: &Item<'_>, more: &[Item<'_>]) -> bool
        ensures { self.now.leaving ≡ next_is_data (item_view item.now ∷ map item_view more.now) → result ≡ next_is_data (map item_view more.now) }
    {
        if is_main(item) || is_report_id(item) {
            next_is_data(more)
        } else {
            self.leaving
        }
    }

    fn is_late(&self, item: &Item<'_>) -> bool
        ensures { (more : List ItemValue) → self.now.leaving ≡ next_is_data (item_view item.now ∷ more)
            → result ≡ is_late self.now.late (item_view item.now) more }
    {
        self.late && (is_data(item) || is_local(item)) && self.leaving
    }

    fn set_after(&self, item: &Item<'_>, more: &[Item<'_>]) -> Option<Seen>
        ensures { result ≡ set_after self.now.set (item_view item.now) (map item_view more.now) }
    {
        match self.set {
            None if opens(item, more) => Some(Seen::NOTHING),
            None => None,
            Some(_) if is_delimiter(item) => None,
            Some(seen) => Some(seen.after(item)),
        }
    }

    fn is_left(&self, item: &Item<'_>, more: &[Item<'_>]) -> bool
        ensures { result ≡ is_left self.now.set (item_view item.now) (map item_view more.now) }
    {
        match self.set {
            None => opens(item, more),
            Some(seen) => is_delimiter(item) || seen.is_other(item),
        }
    }

    fn begins_set(&self, item: &Item<'_>, more: &[Item<'_>]) -> bool
        ensures { result ≡ begins_set self.now.set (item_view item.now) (map item_view more.now) }
    {
        match self.set {
            None => opens(item, more),
            Some(_) => false,
        }
    }

    fn is_large(&self, item: &Item<'_>) -> bool
        ensures { (before : List ItemValue) → StackRefines sizes_of before self.now.sizes → result ≡ is_large before (item_view item.now) }
    {
        let limit = if is_constant(item.bytes) {
            MAX_CONSTANT_SIZE
        } else {
            MAX_SIZE
        };
        self.sizes.now.size > limit
    }

    fn is_padded(&self, item: &Item<'_>) -> bool
        ensures { (before : List ItemValue) → StackRefines sizes_of before self.now.sizes → result ≡ is_padded before (item_view item.now) }
    {
        let Sizes { size, count } = self.sizes.now;
        is_data(item)
            && (self.is_large(item) || count > MAX_COUNT)
            && size as u64 * count as u64 <= MAX_BITS
    }
}

/// Whether a set begins at an item.
fn opens(item: &Item<'_>, more: &[Item<'_>]) -> bool
    ensures { result ≡ opens (item_view item.now) (map item_view more.now) }
{
    is_delimiter(item) && !is_zero(item.bytes) && closes(more)
}
