//! The Report Size and the Report Count in force (HID 1.11, 6.2.2.7).

ghost use Rattle.std.specs.Prelude.{◌≡◌, ◌≢◌, ◌≤◌, List, ◌∷◌, OnOk, length};
ghost use Rattle.descriptor_parse.specs.Items.{ItemValue};
ghost use Rattle.descriptor_parse.specs.ItemViews.{item_view};
ghost use Rattle.descriptor_parse.specs.Globals.{unsigned};
ghost use Rattle.descriptor_parse.specs.Tags.{tag_of};
ghost use Rattle.descriptor_parse.specs.declared.tag.Tag.{Tag};
ghost use Rattle.descriptor_parse.specs.representation.StackRefines.{StackRefines};
ghost use Rattle.lenient_parse.specs.representation.Relation.{sizes_of, IsShort};

use descriptor_parse::number::unsigned;
use descriptor_parse::stack::Stack;
use descriptor_parse::{GlobalTag, Item, Tag};
use std::alloc::AllocError;

#[derive(Clone, Copy)]
pub(crate) struct Sizes {
    /// The Report Size.
    pub(crate) size: u32,
    /// The Report Count.
    pub(crate) count: u32,
}

impl Sizes {
    /// Those before the first item.
    pub(crate) const NONE: Sizes = Sizes { size: 0, count: 0 };
}

/// Takes an item.
pub(crate) fn take(sizes: &mut Stack<Sizes>, item: &Item<'_>) -> Result<(), AllocError>
    requires { IsShort (item_view item.now) }
    ensures { OnOk result ((before : List ItemValue) → StackRefines sizes_of before sizes.old → StackRefines sizes_of (item_view item.now ∷ before) sizes.new) }
{
    match item.tag() {
        Tag::Global(tag) => take_global(sizes, tag, item.bytes),
        _ => Ok(()),
    }
}

fn take_global(sizes: &mut Stack<Sizes>, tag: GlobalTag, bytes: &[u8]) -> Result<(), AllocError>
    requires { length bytes.now ≤ 4 }
    ensures { OnOk result ((before : List ItemValue) (item : ItemValue) → tag_of item.prefix ≡ Tag.Global tag → item.bytes ≡ bytes.now
        → StackRefines sizes_of before sizes.old → StackRefines sizes_of (item ∷ before) sizes.new) }
{
    match tag {
        GlobalTag::Push => sizes.save()?,
        GlobalTag::Pop => sizes.restore(),
        GlobalTag::ReportSize => sizes.now.size = unsigned(bytes),
        GlobalTag::ReportCount => sizes.now.count = unsigned(bytes),
        _ => {}
    }
    Ok(())
}
