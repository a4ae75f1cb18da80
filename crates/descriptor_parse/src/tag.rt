//! What an item is, by its prefix.

ghost use Rattle.std.specs.Prelude.{◌≡◌};
ghost use Rattle.descriptor_parse.specs.Tags.{tag_of};
ghost use Rattle.descriptor_parse.specs.representation.TagTable.{tag_by};

use crate::field::Kind;

/// What an item is, by its type and its tag (HID 1.11, 6.2.2.4, 6.2.2.7 and 6.2.2.8).
#[derive(Clone, Copy, Debug, PartialEq, Eq)]
pub enum Tag {
    Main(MainTag),
    Global(GlobalTag),
    Local(LocalTag),
    /// A long item, a reserved type or a tag that is not listed.
    Skipped,
}

/// The Main items (HID 1.11, 6.2.2.4).
#[derive(Clone, Copy, Debug, PartialEq, Eq)]
pub enum MainTag {
    Data(Kind),
    Collection,
    EndCollection,
}

/// The Global items (6.2.2.7).
#[derive(Clone, Copy, Debug, PartialEq, Eq)]
pub enum GlobalTag {
    UsagePage,
    LogicalMinimum,
    LogicalMaximum,
    ReportSize,
    ReportId,
    ReportCount,
    Push,
    Pop,
}

/// The Local items that are read (6.2.2.8).
#[derive(Clone, Copy, Debug, PartialEq, Eq)]
pub enum LocalTag {
    Usage,
    UsageMinimum,
    UsageMaximum,
    Delimiter,
}

impl Tag {
    /// What the item with this prefix is.
    #[inline(always)]
    pub(crate) fn of(prefix: u8) -> Tag
        ensures { result ≡ tag_of prefix }
    {
        of_quarter(prefix / 4)
    }
}

/// What an item is, by its prefix without the two bits of the size: the compiler makes one table of so dense a range.
#[inline(always)]
fn of_quarter(quarter: u8) -> Tag
    ensures { result ≡ tag_by quarter }
{
    match quarter {
        0x20 => Tag::Main(MainTag::Data(Kind::Input)),
        0x24 => Tag::Main(MainTag::Data(Kind::Output)),
        0x2C => Tag::Main(MainTag::Data(Kind::Feature)),
        0x28 => Tag::Main(MainTag::Collection),
        0x30 => Tag::Main(MainTag::EndCollection),
        0x01 => Tag::Global(GlobalTag::UsagePage),
        0x05 => Tag::Global(GlobalTag::LogicalMinimum),
        0x09 => Tag::Global(GlobalTag::LogicalMaximum),
        0x1D => Tag::Global(GlobalTag::ReportSize),
        0x21 => Tag::Global(GlobalTag::ReportId),
        0x25 => Tag::Global(GlobalTag::ReportCount),
        0x29 => Tag::Global(GlobalTag::Push),
        0x2D => Tag::Global(GlobalTag::Pop),
        0x02 => Tag::Local(LocalTag::Usage),
        0x06 => Tag::Local(LocalTag::UsageMinimum),
        0x0A => Tag::Local(LocalTag::UsageMaximum),
        0x2A => Tag::Local(LocalTag::Delimiter),
        _ => Tag::Skipped,
    }
}
