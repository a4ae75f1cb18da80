//! The Global items that the parser uses (HID 1.11, 6.2.2.7).

ghost use Rattle.std.specs.Prelude.{◌≡◌, ◌≤◌, ◌<◌, List, ◌∷◌, OnOk, OnErr, length};
ghost use Rattle.descriptor_parse.specs.Items.{ItemValue};
ghost use Rattle.descriptor_parse.specs.Tags.{tag_of};
ghost use Rattle.descriptor_parse.specs.Globals.{unsigned};
ghost use Rattle.descriptor_parse.specs.representation.GlobalsOf.{globals_of, max_of, globals_with};
ghost use Rattle.descriptor_parse.specs.representation.StackRefines.{StackRefines};
ghost use Rattle.descriptor_parse.specs.declared.tag.Tag.{Tag};
ghost use Rattle.descriptor_parse.specs.declared.tag.GlobalTag.{GlobalTag};

use crate::number::{signed, unsigned};
use crate::stack::Stack;
use crate::tag::GlobalTag;
use std::alloc::AllocError;

/// The values of the Global items that the parser uses.
#[derive(Clone, Copy, Debug)]
pub struct Globals {
    /// The Usage Page.
    pub page: u16,
    /// The Logical Minimum.
    pub min: i64,
    /// The Logical Maximum, read as signed.
    pub signed_max: i64,
    /// The same, read as unsigned.
    pub unsigned_max: u32,
    /// The Report Size.
    pub size: u32,
    /// The Report Count.
    pub count: u32,
    /// The Report ID, 0 if there is none.
    pub id: u8,
}

impl Globals {
    /// Those before the first item.
    pub(crate) const NONE: Globals = Globals {
        page: 0,
        min: 0,
        signed_max: 0,
        unsigned_max: 0,
        size: 0,
        count: 0,
        id: 0,
    };

    /// The Logical Maximum: signed only under a negative minimum.
    pub fn max(&self) -> i64
        ensures { result ≡ max_of self.now }
    {
        if self.min < 0 {
            self.signed_max
        } else {
            self.unsigned_max as i64
        }
    }
}

impl Globals {
    /// Sets the value that an item other than Push and Pop gives.
    #[inline(always)]
    fn set(&mut self, tag: GlobalTag, bytes: &[u8])
        requires { length bytes.now ≤ 4 }
        ensures { self.new ≡ globals_with tag bytes.now self.old }
    {
        match tag {
            GlobalTag::UsagePage => self.page = (unsigned(bytes) % 0x1_0000) as u16,
            GlobalTag::LogicalMinimum => self.min = signed(bytes),
            GlobalTag::LogicalMaximum => {
                self.signed_max = signed(bytes);
                self.unsigned_max = unsigned(bytes);
            }
            GlobalTag::ReportSize => self.size = unsigned(bytes),
            GlobalTag::ReportId => self.id = (unsigned(bytes) % 0x100) as u8,
            GlobalTag::ReportCount => self.count = unsigned(bytes),
            GlobalTag::Push | GlobalTag::Pop => {}
        }
    }
}

/// Takes a Global item.
#[inline(always)]
pub(crate) fn take_global(
    globals: &mut Stack<Globals>,
    tag: GlobalTag,
    bytes: &[u8],
) -> Result<(), AllocError>
    requires { length bytes.now ≤ 4 }
    ensures taken { OnOk result ((before : List ItemValue) (item : ItemValue) → tag_of item.prefix ≡ Tag.Global tag
        → item.bytes ≡ bytes.now → (tag ≡ GlobalTag.ReportId → unsigned item.bytes < 256)
        → StackRefines globals_of before globals.old → StackRefines globals_of (item ∷ before) globals.new) }
    ensures refused { OnErr result (tag ≡ GlobalTag.Push) }
{
    match tag {
        GlobalTag::Push => globals.save()?,
        GlobalTag::Pop => globals.restore(),
        _ => globals.now.set(tag, bytes),
    }
    Ok(())
}
