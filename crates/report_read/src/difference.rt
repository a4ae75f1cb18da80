//! The usages that are on in a report, and those in which two reports differ.

ghost use Rattle.std.specs.Prelude.{◌≡◌, ◌≢◌, ℕ, ◌++◌, ◌↔◌, [], Contains, IfOk, IfErr, OnErr, None, Some, false, not, filter};
ghost use Rattle.std.specs.List.Sorted.{IsStrictlyIncreasing};
ghost use Rattle.report_read.specs.declared.error.ReadingError.{ReadingError};
ghost use Rattle.report_read.specs.Refusals.{refusal};
ghost use Rattle.report_read.specs.Changes.{control, is_of_array, counts, on_by, on_by_all, on_in, AreRising, AreOnlyIn, changes_refusal};
ghost use Rattle.report_read.specs.representation.Listed.{is_listed, listed};

use crate::error::ReadingError;
use crate::reader::ReportReader;
use crate::reading::Reading;
use crate::value::Value;
use descriptor_parse::{Descriptor, Kind};
use field_values::Within;
use std::alloc::{AllocError, Global};

/// The usages in which two reports differ, each list rising, and each usage once.
#[derive(Debug, Drop)]
pub struct Changed {
    /// Those that are on in the later report alone.
    pub pressed: Vec<u32>,
    /// Those that are on in the earlier report alone.
    pub released: Vec<u32>,
}

/// The usages that are on in a report of a kind, rising, each once: those that Arrays name, and those of Variable fields
/// whose value isn't 0. Values outside the logical extents count for none, nulls among them, and a usage whose low half is 0
/// is none.
///
/// 07:01 to 07:03 of a keyboard (ErrorRollOver, POSTFail, ErrorUndefined) are reported as any usage. They are no keys: a report
/// with one of them does not tell which keys are down.
///
/// The errors are those of [`ReportReader::read`], and then `Memory`, where a usage is on.
pub fn pressed(
    alloc: Global,
    reader: &ReportReader,
    kind: Kind,
    report: &[u8],
) -> Result<Vec<u32>, ReadingError>
    ensures pressed { IfOk result (λ v. AreRising (on_in reader.now kind report.now) v.items) }
    ensures taken { IfOk result (λ _. refusal reader.now.descriptor kind report.now ≡ None) }
    ensures refused { IfErr result (λ e. e ≢ ReadingError.Memory → refusal reader.now.descriptor kind report.now ≡ Some e) }
    ensures memory { IfErr result (λ e. e ≡ ReadingError.Memory → refusal reader.now.descriptor kind report.now ≡ None) }
    ensures wanted { IfErr result (λ e. e ≡ ReadingError.Memory → on_in reader.now kind report.now ≢ []) }
{
    let reading = reader.read(kind, report)?;
    let mut usages = gather(alloc, reader.descriptor(), reading)?;
    make_rising(&mut usages);
    Ok(usages)
}

/// The usages in which two reports of a kind and ID differ.
///
/// The errors are those of [`ReportReader::read`] for the earlier report, and for the later one; then `OtherId` where they have
/// different IDs, and `Memory`, where a usage is on in one of them.
pub fn changes(
    alloc: Global,
    reader: &ReportReader,
    kind: Kind,
    before: &[u8],
    now: &[u8],
) -> Result<Changed, ReadingError>
    ensures pressed { IfOk result (λ c. AreOnlyIn (on_in reader.now kind now.now) (on_in reader.now kind before.now) c.pressed.items) }
    ensures released { IfOk result (λ c. AreOnlyIn (on_in reader.now kind before.now) (on_in reader.now kind now.now) c.released.items) }
    ensures taken { IfOk result (λ _. changes_refusal reader.now.descriptor kind before.now now.now ≡ None) }
    ensures refused { IfErr result (λ e. e ≢ ReadingError.Memory → changes_refusal reader.now.descriptor kind before.now now.now ≡ Some e) }
    ensures memory { IfErr result (λ e. e ≡ ReadingError.Memory → changes_refusal reader.now.descriptor kind before.now now.now ≡ None) }
    ensures wanted { IfErr result (λ e. e ≡ ReadingError.Memory → on_in reader.now kind before.now ++ on_in reader.now kind now.now ≢ []) }
{
    let earlier = reader.read(kind, before)?;
    let later = reader.read(kind, now)?;
    if earlier.id() != later.id() {
        return Err(ReadingError::OtherId);
    }
    let were = pressed(alloc, reader, kind, before)?;
    let are = pressed(alloc, reader, kind, now)?;
    Ok(Changed {
        pressed: only_in(alloc, &are, &were)?,
        released: only_in(alloc, &were, &are)?,
    })
}

/// The usages that the values of a reading say are on, in their order.
fn gather(
    alloc: Global,
    descriptor: &Descriptor,
    reading: Reading<'_>,
) -> Result<Vec<u32>, AllocError>
    ensures gathered { IfOk result (λ v. v.items ≡ on_by_all descriptor.now reading.entry.left) }
    ensures refused { OnErr result (on_by_all descriptor.now reading.entry.left ≢ []) }
{
    let mut usages = Vec::new(alloc);
    for value in reading {
        if let Some(usage) = usage_on(descriptor, &value) {
            usages.push(usage)?;
        }
    }
    Ok(usages)
}

/// The usage that a value says is on.
fn usage_on(descriptor: &Descriptor, value: &Value) -> Option<u32>
    ensures { listed result ≡ on_by descriptor.now value.now }
{
    if counts(value.within) && (is_of_array(descriptor, value) || value.raw != 0) {
        control(value.usage)
    } else {
        None
    }
}

/// Whether a value is within the logical extents.
fn counts(within: Within) -> bool
    ensures { result ≡ counts within }
{
    match within {
        Within::Range => true,
        Within::Null | Within::Out => false,
    }
}

/// Whether the field of a value is an Array.
fn is_of_array(descriptor: &Descriptor, value: &Value) -> bool
    ensures { result ≡ is_of_array descriptor.now value.now }
{
    match descriptor.fields().get(value.field) {
        Some(field) => field.array,
        None => false,
    }
}

/// A usage whose low half is not 0.
fn control(usage: Option<u32>) -> Option<u32>
    ensures { listed result ≡ control usage }
{
    match usage {
        Some(usage) if usage % 0x1_0000 != 0 => Some(usage),
        Some(_) | None => None,
    }
}

/// Sorts usages, and drops repeats.
fn make_rising(usages: &mut Vec<u32>)
    ensures { AreRising usages.old.items usages.new.items }
{
    usages.sort_unstable();
    usages.dedup();
}

/// The usages that only the first of two lists has, which both rise.
fn only_in(alloc: Global, these: &[u32], those: &[u32]) -> Result<Vec<u32>, AllocError>
    requires { IsStrictlyIncreasing those.now }
    ensures only { IfOk result (λ v. v.items ≡ filter (λ usage. not (is_listed those.now usage)) these.now) }
    ensures refused { OnErr result (these.now ≢ []) }
{
    let mut only = Vec::new(alloc);
    for usage in these {
        if !is_listed(those, *usage) {
            only.push(*usage)?;
        }
    }
    Ok(only)
}

/// Whether a rising list has a usage.
fn is_listed(usages: &[u32], usage: u32) -> bool
    requires { IsStrictlyIncreasing usages.now }
    ensures { result ≡ is_listed usages.now usage }
{
    usages.binary_search(&usage).is_ok()
}
