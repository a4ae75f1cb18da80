//! The bytes of fields of Buffered Bytes.

ghost use Rattle.std.specs.Prelude.{◌≡◌, ◌≢◌, ◌+◌, ◌-◌, ◌*◌, ◌<◌, min, IfOk, IfErr, IfSome, Some, None, slice_get};
ghost use Rattle.descriptor_parse.specs.Readers.{is_of_report};
ghost use Rattle.host_extract.specs.Found.{bytes_of};
ghost use Rattle.host_extract.specs.Numbers.{number_at};
ghost use Rattle.host_extract.specs.representation.Fits.{FitsReading};
ghost use Rattle.report_read.specs.declared.error.ReadingError.{ReadingError};
ghost use Rattle.report_read.specs.Items.{item_of, says_buffered};
ghost use Rattle.report_read.specs.Buffered.{AreBytesOf, AreBytesIn, buffered_if, buffered_field, buffered_refusal};

use crate::error::ReadingError;
use crate::reader::{ReportReader, split};
use descriptor_parse::{Field, Kind};
use host_extract::number_at;
use std::alloc::{AllocError, Global};

/// The bytes of a field of Buffered Bytes in a report of a kind: the bits of its places one after the other, the last byte
/// filled up with 0. The field is given by its place in `Descriptor::fields`.
///
/// The errors are those of [`ReportReader::read`]; then `NoSuchField` where the report has no such field, or the field's item
/// does not say Buffered Bytes; then `Memory`.
pub fn buffered(
    alloc: Global,
    reader: &ReportReader,
    kind: Kind,
    report: &[u8],
    field: usize,
) -> Result<Vec<u8>, ReadingError>
    ensures bytes { IfOk result (λ v. AreBytesIn (buffered_field reader.now kind report.now field) (bytes_of reader.now.descriptor report.now) v.items) }
    ensures taken { IfOk result (λ _. buffered_refusal reader.now kind report.now field ≡ None) }
    ensures refused { IfErr result (λ e. e ≢ ReadingError.Memory → buffered_refusal reader.now kind report.now field ≡ Some e) }
    ensures memory { IfErr result (λ e. e ≡ ReadingError.Memory → buffered_refusal reader.now kind report.now field ≡ None) }
{
    let found = buffered_field(reader, kind, report, field)?;
    let (_, bytes) = split(reader.descriptor(), report);
    Ok(bytes_of_field(alloc, &found, bytes)?)
}

/// The field with a number, if it is one of Buffered Bytes of a report.
fn buffered_field(
    reader: &ReportReader,
    kind: Kind,
    report: &[u8],
    number: usize,
) -> Result<Field, ReadingError>
    ensures field { IfOk result (λ found. buffered_field reader.now kind report.now number ≡ Some found) }
    ensures fits { IfOk result FitsReading }
    ensures taken { IfOk result (λ _. buffered_refusal reader.now kind report.now number ≡ None) }
    ensures refused { IfErr result (λ e. e ≢ ReadingError.Memory → buffered_refusal reader.now kind report.now number ≡ Some e) }
    ensures memory { IfErr result (λ e. e ≡ ReadingError.Memory → buffered_refusal reader.now kind report.now number ≡ None) }
{
    match reader.read(kind, report) {
        Ok(reading) => match field_if(reader, kind, reading.id(), number) {
            Some(found) => Ok(found),
            None => Err(ReadingError::NoSuchField),
        },
        Err(error) => Err(error),
    }
}

/// The field with a number, if it is one of Buffered Bytes of the report of a kind and ID.
fn field_if(reader: &ReportReader, kind: Kind, id: u8, number: usize) -> Option<Field>
    ensures field { result ≡ buffered_if kind id (says_buffered (item_of reader.now.details.fields.items number)) (slice_get reader.now.descriptor.fields number) }
    ensures fits { IfSome result FitsReading }
{
    match reader.descriptor().fields().get(number) {
        Some(field) if is_of_report(field, kind, id) && says_buffered(reader, number) => Some(
            *field,
        ),
        Some(_) | None => None,
    }
}

/// Whether a field is of a report.
fn is_of_report(field: &Field, kind: Kind, id: u8) -> bool
    ensures { result ≡ is_of_report kind id field.now }
{
    field.kind == kind && field.id == id
}

/// Whether the item of a field says Buffered Bytes.
fn says_buffered(reader: &ReportReader, number: usize) -> bool
    ensures { result ≡ says_buffered (item_of reader.now.details.fields.items number) }
{
    match reader.placed(number) {
        Some(placed) => placed.detail.is_buffered(),
        None => false,
    }
}

/// The bytes of a field.
fn bytes_of_field(alloc: Global, field: &Field, report: &[u8]) -> Result<Vec<u8>, AllocError>
    requires { FitsReading field.now }
    ensures { IfOk result (λ v. AreBytesOf field.now report.now v.items) }
{
    let bits = field.size as u64 * field.count as u64;
    let length = bits.div_ceil(8);
    let mut bytes = Vec::with_capacity(alloc, length as usize)?;
    for place in 0..length {
        bytes.push(byte_from(report, field.bit + 8 * place, bits - 8 * place))?;
    }
    Ok(bytes)
}

/// The number that eight bits make from one on, of which so many are left; those that aren't are 0.
fn byte_from(report: &[u8], bit: u64, left: u64) -> u8
    ensures { result ≡ number_at report.now bit (min 8 left) }
{
    number_at(report, bit, left.min(8) as u8) as u8
}
