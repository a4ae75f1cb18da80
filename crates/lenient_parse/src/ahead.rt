//! What an item is, and what follows it.

ghost use Rattle.std.specs.Prelude.{◌≡◌, ◌==◌, ◌%◌, map};
ghost use Rattle.descriptor_parse.specs.ItemViews.{item_view};
ghost use Rattle.descriptor_parse.specs.Globals.{unsigned};
ghost use Rattle.descriptor_parse.specs.Tags.{tag, is_main, is_data, is_report_id, is_delimiter};
ghost use Rattle.lenient_parse.specs.Late.{has_id, next_is_data, is_local};
ghost use Rattle.lenient_parse.specs.Sets.{is_zero, closes};

use descriptor_parse::{GlobalTag, Item, LocalTag, MainTag, Tag};

pub(crate) fn is_main(item: &Item<'_>) -> bool
    ensures { result ≡ is_main (tag (item_view item.now)) }
{
    match item.tag() {
        Tag::Main(_) => true,
        _ => false,
    }
}

pub(crate) fn is_data(item: &Item<'_>) -> bool
    ensures { result ≡ is_data (tag (item_view item.now)) }
{
    match item.tag() {
        Tag::Main(MainTag::Data(_)) => true,
        _ => false,
    }
}

pub(crate) fn is_report_id(item: &Item<'_>) -> bool
    ensures { result ≡ is_report_id (tag (item_view item.now)) }
{
    match item.tag() {
        Tag::Global(GlobalTag::ReportId) => true,
        _ => false,
    }
}

pub(crate) fn is_delimiter(item: &Item<'_>) -> bool
    ensures { result ≡ is_delimiter (tag (item_view item.now)) }
{
    match item.tag() {
        Tag::Local(LocalTag::Delimiter) => true,
        _ => false,
    }
}

/// Whether the item is of the type Local, whatever its tag is.
pub(crate) fn is_local(item: &Item<'_>) -> bool
    ensures { result ≡ is_local (item_view item.now) }
{
    item.prefix / 4 % 4 == 2
}

/// Whether a data item with these data is Constant.
pub(crate) fn is_constant(bytes: &[u8]) -> bool
    ensures { result ≡ (unsigned bytes.now % 2 == 1) }
{
    match bytes.first() {
        Some(byte) => byte % 2 == 1,
        None => false,
    }
}

/// Whether all bytes are 0.
pub(crate) fn is_zero(bytes: &[u8]) -> bool
    ensures { result ≡ is_zero bytes.now }
{
    let mut rest = bytes;
    while let Some((byte, more)) = rest.split_first() {
        if *byte != 0 {
            return false;
        }
        rest = more;
    }
    true
}

pub(crate) fn has_id(items: &[Item<'_>]) -> bool
    ensures { result ≡ has_id (map item_view items.now) }
{
    let mut at = 0;
    while let Some(item) = items.get(at) {
        if is_report_id(item) {
            return true;
        }
        at += 1;
    }
    false
}

/// Whether the first of the Main items and the Report IDs is a data item.
pub(crate) fn next_is_data(items: &[Item<'_>]) -> bool
    ensures { result ≡ next_is_data (map item_view items.now) }
{
    let mut at = 0;
    while let Some(item) = items.get(at) {
        if is_main(item) {
            return is_data(item);
        }
        if is_report_id(item) {
            return false;
        }
        at += 1;
    }
    false
}

/// Whether the first of the Main items and the Delimiters is a Delimiter of 0.
pub(crate) fn closes(items: &[Item<'_>]) -> bool
    ensures { result ≡ closes (map item_view items.now) }
{
    let mut at = 0;
    while let Some(item) = items.get(at) {
        if is_delimiter(item) {
            return is_zero(item.bytes);
        }
        if is_main(item) {
            return false;
        }
        at += 1;
    }
    false
}
