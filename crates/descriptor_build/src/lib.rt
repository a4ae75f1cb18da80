//! Report descriptors from lists of items, and the descriptors that the keyboard serves.
//!
//! `build` turns items into the bytes of a report descriptor. The keyboard's own descriptors are
//! constants (`DEVICE`, `CONFIGURATION`, `HID`, `SERVED_REPORT`), so that they can be lent to whoever
//! sends them; `served_report` builds the last one from its list of items.
//!
//! Nothing is kept. The guarantee is that each descriptor is, byte by byte, what the definitions say,
//! and that the lengths in them are right. `control_ep` lends the constants to the host, and
//! `parse_lines` prints them.
#![tactic(auto)]

ghost use Rattle.std.specs.Prelude.{◌≡◌, ◌+◌, ◌≤◌, ◌++◌, ◌↔◌, length, IsOk, IfOk, OnOk};
ghost use Rattle.arrayvec.specs.ArrayVec.{array_vec_len};
ghost use Rattle.descriptor_build.specs.Items.{tag_of, data_of, size_bits, item_bytes, descriptor_bytes, signed_bytes, unsigned_bytes};

use arrayvec::ArrayVec;

pub mod served;

pub use served::{CONFIGURATION, DEVICE, HID, SERVED_REPORT, SERVED_REPORT_LEN, served_report};

/// A short item of a report descriptor (HID 1.11 section 6.2.2.2): Main items (6.2.2.4), Global items
/// (6.2.2.7) and Local items (6.2.2.8).
#[derive(Clone, Copy, Debug, PartialEq, Eq)]
pub enum ReportSpec {
    /// Global: the page of the usages.
    UsagePage(u16),
    /// Local: a usage of the page.
    Usage(u16),
    /// Local: the first usage of a range.
    UsageMin(u16),
    /// Local: the last usage of a range.
    UsageMax(u16),
    /// Global: the least value of a field.
    LogicalMin(i32),
    /// Global: the greatest value of a field.
    LogicalMax(i32),
    /// Global: bits of a field.
    ReportSize(u8),
    /// Global: how many fields a data item has.
    ReportCount(u16),
    /// Global: the ID that a report begins with.
    ReportId(u8),
    /// Main: a collection of this type begins.
    Collection(u8),
    /// Main: the collection ends.
    EndCollection,
    /// Main: fields of an input report, with these flags.
    Input(u8),
    /// Main: fields of an output report, with these flags.
    Output(u8),
    /// Main: fields of a feature report, with these flags.
    Feature(u8),
}

/// The items take more than 256 bytes.
#[derive(Clone, Copy, Debug, PartialEq, Eq)]
pub struct TooLong;

/// The items' bytes in order: each a prefix and its data, little-endian (HID 1.11 section 6.2.2.2).
/// Logical extents take the fewest of 1, 2 and 4 bytes that hold them signed, End Collection none, all
/// other items the fewest of 1 and 2 that hold them unsigned. `TooLong` exactly where that is more than
/// 256 bytes.
pub fn build(specs: &[ReportSpec]) -> Result<ArrayVec<u8, 256>, TooLong>
    ensures fits { IsOk result ↔ (length (descriptor_bytes specs.now) ≤ 256) }
    ensures bytes { IfOk result (λ built. built.items ≡ descriptor_bytes specs.now) }
{
    let mut bytes = ArrayVec::new();
    for spec in specs {
        push_item(&mut bytes, *spec)?;
    }
    Ok(bytes)
}

/// Appends one item, where it has room: its prefix with the size bits, then its data.
fn push_item(bytes: &mut ArrayVec<u8, 256>, spec: ReportSpec) -> Result<(), TooLong>
    ensures room { IsOk result ↔ (array_vec_len bytes.old + length (item_bytes spec) ≤ 256) }
    ensures appended { OnOk result (bytes.new.items ≡ bytes.old.items ++ item_bytes spec) }
{
    let item_data = data_of(spec);
    let prefix = tag_of(spec) + size_bits(item_data.len());
    bytes.try_push(prefix).map_err(|_| TooLong)?;
    bytes
        .try_extend_from_slice(item_data.as_slice())
        .map_err(|_| TooLong)
}

/// The size bits of a prefix.
fn size_bits(size: usize) -> u8
    ensures { result ≡ size_bits size }
{
    match size {
        0 => 0,
        1 => 1,
        2 => 2,
        _ => 3,
    }
}

/// An item's prefix with its size bits clear.
fn tag_of(spec: ReportSpec) -> u8
    ensures tag { result ≡ tag_of spec }
    ensures room { result ≤ 0xC0 }
{
    match spec {
        ReportSpec::UsagePage(_) => 0x04,
        ReportSpec::Usage(_) => 0x08,
        ReportSpec::UsageMin(_) => 0x18,
        ReportSpec::UsageMax(_) => 0x28,
        ReportSpec::LogicalMin(_) => 0x14,
        ReportSpec::LogicalMax(_) => 0x24,
        ReportSpec::ReportSize(_) => 0x74,
        ReportSpec::ReportCount(_) => 0x94,
        ReportSpec::ReportId(_) => 0x84,
        ReportSpec::Collection(_) => 0xA0,
        ReportSpec::EndCollection => 0xC0,
        ReportSpec::Input(_) => 0x80,
        ReportSpec::Output(_) => 0x90,
        ReportSpec::Feature(_) => 0xB0,
    }
}

/// An item's data.
fn data_of(spec: ReportSpec) -> ArrayVec<u8, 4>
    ensures { result.items ≡ data_of spec }
{
    match spec {
        ReportSpec::UsagePage(n)
        | ReportSpec::Usage(n)
        | ReportSpec::UsageMin(n)
        | ReportSpec::UsageMax(n)
        | ReportSpec::ReportCount(n) => unsigned_bytes(n),
        ReportSpec::ReportSize(n)
        | ReportSpec::ReportId(n)
        | ReportSpec::Collection(n)
        | ReportSpec::Input(n)
        | ReportSpec::Output(n)
        | ReportSpec::Feature(n) => unsigned_bytes(u16::from(n)),
        ReportSpec::LogicalMin(n) => signed_bytes(n),
        ReportSpec::LogicalMax(n) => signed_bytes(n),
        ReportSpec::EndCollection => ArrayVec::new(),
    }
}

/// The fewest of 1 and 2 bytes that hold the number unsigned, little-endian.
fn unsigned_bytes(number: u16) -> ArrayVec<u8, 4>
    ensures { result.items ≡ unsigned_bytes number }
{
    let size = if number < 0x100 { 1 } else { 2 };
    let mut bytes = ArrayVec::from(u32::from(number).to_le_bytes());
    bytes.truncate(size);
    bytes
}

/// The fewest of 1, 2 and 4 bytes that hold the number in two's complement, little-endian.
fn signed_bytes(number: i32) -> ArrayVec<u8, 4>
    ensures { result.items ≡ signed_bytes number }
{
    let size = if -0x80 <= number && number < 0x80 {
        1
    } else if -0x8000 <= number && number < 0x8000 {
        2
    } else {
        4
    };
    let mut bytes = ArrayVec::from(number.to_le_bytes());
    bytes.truncate(size);
    bytes
}
