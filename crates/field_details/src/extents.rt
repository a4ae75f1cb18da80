//! The Global items that the parser of fields skips (HID 1.11, 6.2.2.7).

ghost use Rattle.std.specs.Prelude.{◌≡◌, ◌≢◌, ◌-◌, ◌%◌, ◌≤◌, List, ◌∷◌, OnOk, OnErr, length};
ghost use Rattle.descriptor_parse.specs.Items.{ItemValue};
ghost use Rattle.descriptor_parse.specs.Tags.{tag_of};
ghost use Rattle.descriptor_parse.specs.declared.tag.Tag.{Tag};
ghost use Rattle.descriptor_parse.specs.declared.tag.GlobalTag.{GlobalTag};
ghost use Rattle.descriptor_parse.specs.representation.StackRefines.{StackRefines};
ghost use Rattle.field_details.specs.Extents.{signed_digit, power_of};
ghost use Rattle.field_details.specs.representation.Relation.{greatest, extents_of, extents_by};

use crate::unit::signed_digit;
use descriptor_parse::GlobalTag;
use descriptor_parse::number::{signed, unsigned};
use descriptor_parse::stack::Stack;
use std::alloc::AllocError;

/// Physical extents and unit.
#[derive(Clone, Copy)]
pub(crate) struct Extents {
    pub(crate) min: i64,
    /// The Physical Maximum, read as signed.
    pub(crate) signed_max: i64,
    /// The same, read as unsigned.
    pub(crate) unsigned_max: u32,
    /// The power of ten of the unit.
    pub(crate) exponent: i64,
    pub(crate) unit: u32,
}

impl Extents {
    /// Those before the first item.
    pub(crate) const NONE: Extents = Extents {
        min: 0,
        signed_max: 0,
        unsigned_max: 0,
        exponent: 0,
        unit: 0,
    };

    /// The Physical Maximum: signed only under a negative minimum.
    pub(crate) fn greatest(&self) -> i64
        ensures { result ≡ greatest self.now }
    {
        if self.min < 0 {
            self.signed_max
        } else {
            self.unsigned_max as i64
        }
    }

    /// Sets the value that an item gives, if it gives one.
    fn set(&mut self, prefix: u8, bytes: &[u8])
        requires { prefix ≢ 254 → length bytes.now ≤ 4 }
        ensures { self.new ≡ extents_by (prefix - prefix % 4) bytes.now self.old }
    {
        match prefix - prefix % 4 {
            0x34 => self.min = signed(bytes),
            0x44 => {
                self.signed_max = signed(bytes);
                self.unsigned_max = unsigned(bytes);
            }
            0x54 => self.exponent = power(bytes),
            0x64 => self.unit = unsigned(bytes),
            _ => {}
        }
    }
}

/// The power of ten that data say.
#[tactic(auto, unfolding(crate::specs::Extents::power_of))]
fn power(bytes: &[u8]) -> i64
    requires { length bytes.now ≤ 4 }
    ensures { result ≡ power_of bytes.now }
{
    let digit = unsigned(bytes);
    if digit < 16 {
        signed_digit(digit as u8) as i64
    } else {
        signed(bytes)
    }
}

/// Takes a Global item that the parser of fields reads.
pub(crate) fn take_global(extents: &mut Stack<Extents>, tag: GlobalTag) -> Result<(), AllocError>
    ensures taken { OnOk result ((before : List ItemValue) (item : ItemValue) → tag_of item.prefix ≡ Tag.Global tag
        → StackRefines extents_of before extents.old → StackRefines extents_of (item ∷ before) extents.new) }
    ensures refused { OnErr result (tag ≡ GlobalTag.Push) }
{
    match tag {
        GlobalTag::Push => extents.save()?,
        GlobalTag::Pop => extents.restore(),
        _ => {}
    }
    Ok(())
}

/// Takes an item that it skips.
pub(crate) fn take_skipped(extents: &mut Stack<Extents>, prefix: u8, bytes: &[u8])
    requires { prefix ≢ 254 → length bytes.now ≤ 4 }
    ensures { (before : List ItemValue) (item : ItemValue) → tag_of item.prefix ≡ Tag.Skipped → item.prefix ≡ prefix
        → item.bytes ≡ bytes.now → StackRefines extents_of before extents.old → StackRefines extents_of (item ∷ before) extents.new }
{
    extents.now.set(prefix, bytes);
}
