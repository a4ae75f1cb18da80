//! The strings and designators that wait for the next Main item.

ghost use Rattle.std.specs.Prelude.{◌≡◌, ◌≢◌, ◌≤◌, List, [], ◌∷◌, None, OnOk, length};
ghost use Rattle.descriptor_parse.specs.Items.{ItemValue};
ghost use Rattle.descriptor_parse.specs.ItemViews.{item_view};
ghost use Rattle.descriptor_parse.specs.Tags.{tag_of};
ghost use Rattle.descriptor_parse.specs.declared.tag.Tag.{Tag};
ghost use Rattle.field_details.specs.declared.naming.Naming.{Naming};
ghost use Rattle.field_details.specs.representation.Named.{IsPending, ArePending};

use crate::naming::{Naming, least_after, range_of};
use descriptor_parse::Item;
use std::alloc::{AllocError, Global};

/// The strings or the designators since the latest Main item.
#[derive(Drop)]
pub(crate) struct Pending {
    /// The ranges in order, first and last number of each.
    pub(crate) ranges: Vec<(u32, u32)>,
    /// The Minimum that waits for a Maximum.
    pub(crate) least: Option<u32>,
}

impl Pending {
    fn new(alloc: Global) -> Pending
        ensures ranges { result.ranges.items ≡ [] }
        ensures least { result.least ≡ None }
    {
        Pending {
            ranges: Vec::new(alloc),
            least: None,
        }
    }

    /// Takes a Local item, or another that the parser of fields skips.
    fn take(&mut self, naming: Naming, item: &Item<'_>) -> Result<(), AllocError>
        requires { item.now.prefix ≢ 254 → length item.now.bytes.now ≤ 4 }
        ensures { OnOk result ((items : List ItemValue) → IsPending naming items self.old
            → IsPending naming (item_view item.now ∷ items) self.new) }
    {
        if let Some(range) = range_of(naming, item, self.least) {
            self.ranges.push(range)?;
        }
        self.least = least_after(naming, item, self.least);
        Ok(())
    }

    /// Ends them at a Main item.
    fn clear(&mut self)
        ensures ranges { self.new.ranges.items ≡ [] }
        ensures least { self.new.least ≡ None }
    {
        self.ranges.clear();
        self.least = None;
    }
}

/// The strings and the designators since the latest Main item.
#[derive(Drop)]
pub(crate) struct AllPending {
    pub(crate) strings: Pending,
    pub(crate) designators: Pending,
}

impl AllPending {
    pub(crate) fn new(alloc: Global) -> AllPending
        ensures { ArePending [] result }
    {
        AllPending {
            strings: Pending::new(alloc),
            designators: Pending::new(alloc),
        }
    }

    /// Takes a Local item, or another that the parser of fields skips.
    pub(crate) fn take(&mut self, item: &Item<'_>) -> Result<(), AllocError>
        requires { item.now.prefix ≢ 254 → length item.now.bytes.now ≤ 4 }
        ensures { OnOk result ((items : List ItemValue) → ArePending items self.old → ArePending (item_view item.now ∷ items) self.new) }
    {
        self.strings.take(Naming::Strings, item)?;
        self.designators.take(Naming::Designators, item)
    }

    /// Ends them at a Main item.
    pub(crate) fn clear(&mut self)
        ensures { ArePending [] self.new }
    {
        self.strings.clear();
        self.designators.clear();
    }
}
