//! The fields of a report descriptor as lines.

ghost use Rattle.std.specs.Prelude.{◌≡◌, ◌≢◌, ℕ, List, ◌⊎◌, IfOk, IfErr, IfSome, OnOk};
ghost use Rattle.std.specs.Io.KnownBytes.{Appends};
ghost use Rattle.text_io.specs.Printers.{Prints, printer_writer};
ghost use Rattle.descriptor_parse.specs.Faults.{IsFaultless, all_items};
ghost use Rattle.descriptor_parse.specs.Descriptor.{Describes};
ghost use Rattle.parse_lines.specs.Texts.{IsSound, Declares, IsOutput, IsTextFault, IsRefusal, lines_of};
ghost use Rattle.parse_lines.specs.Prints.{fault_line, field_lines};

use crate::LinesError;
use crate::hex_text::bytes_of;
use crate::print::{FaultLine, FieldLine};
use descriptor_parse::{Descriptor, ParseFault, parse};
use std::alloc::Global;
use std::io::{Read, Write};
use text_io::{Printer, WriteError, read_text};

/// Reads a report descriptor in hex, and prints a line for each of its fields (HID 1.11, section 6.2.2).
///
/// The reader gives at most 1,048,576 bytes: hex digits in either case, two a byte. Spaces, tabs, CR and LF are
/// dropped. A line is `KIND ID BIT SIZE COUNT MIN MAX FORM USAGES`: `input`, `output` or `feature`; the report ID, 0
/// without one; the first bit, counted behind the ID byte; the bits of a place and the number of places; the logical
/// extents; `variable` or `array`; the usages as they were declared, 8 hex digits each, as `first-last` or one number,
/// joined by commas, `-` where there are none.
///
/// The line of a fault is printed last, before the fault is returned, and then no field is printed. `Input` comes at
/// any fault of the reader, an interruption too, and `TooLong` where it gives more bytes, both before any of the text
/// is checked. Then comes `BadHexText`, and then `Refused` with the first fault of the descriptor. `Memory` comes
/// wherever a request for memory is refused. `Output` comes where the writer fails or takes no byte; nothing is
/// printed after it.
pub fn parse_text<R: Read, W: Write>(
    alloc: Global,
    reader: &mut R,
    writer: &mut W,
) -> Result<(), LinesError>
    // The text is short enough, pairs of hex digits, and a descriptor without a fault.
    ensures sound { OnOk result (IfSome (R.remaining reader.old) IsSound) }
    // What is printed is the lines of its fields.
    ensures printed { OnOk result (IfSome (R.remaining reader.old) (λ text. (lines : List ℕ)
        × IsOutput text lines × Appends (W.contents writer.old) (W.contents writer.new) lines)) }
    // Each fault is one of the text, and comes in its order.
    ensures refused { IfErr result (λ e. IsTextFault (R.remaining reader.old) e) }
    // The line of a fault is all that is printed.
    ensures fault_alone { IfErr result (λ e. e ≢ LinesError.Output
        → Appends (W.contents writer.old) (W.contents writer.new) (fault_line e)) }
{
    match descriptor_of(alloc, reader) {
        Ok(descriptor) => print_fields(&descriptor, writer),
        Err(error) => print_fault(error, writer),
    }
}

/// Prints a line for each field of the report descriptor with these bytes.
///
/// The lines are those of [`parse_text`], and so are the errors, where nothing is read: `Refused` with the first fault of
/// the descriptor, `Memory` and `Output`. The line of a fault is printed before the fault is returned, and then no field is.
pub fn parse_bytes<W: Write>(alloc: Global, bytes: &[u8], writer: &mut W) -> Result<(), LinesError>
    // The descriptor has no fault.
    ensures sound { OnOk result (IsFaultless bytes.now) }
    // What is printed is the lines of its fields.
    ensures printed { OnOk result (Appends (W.contents writer.old) (W.contents writer.new) (lines_of bytes.now)) }
    // Each fault is one of the descriptor.
    ensures refused { IfErr result (λ e. e ≢ LinesError.Output → IsRefusal bytes.now e) }
    // The line of a fault is all that is printed.
    ensures fault_alone { IfErr result (λ e. e ≢ LinesError.Output
        → Appends (W.contents writer.old) (W.contents writer.new) (fault_line e)) }
{
    match parsed(alloc, bytes) {
        Ok(descriptor) => print_fields(&descriptor, writer),
        Err(error) => print_fault(error, writer),
    }
}

/// The descriptor that the reader's text declares.
fn descriptor_of<R: Read>(alloc: Global, reader: &mut R) -> Result<Descriptor, LinesError>
    ensures read { IfOk result (λ d. IfSome (R.remaining reader.old) (λ text. Declares text d)) }
    ensures refused { IfErr result (λ e. IsTextFault (R.remaining reader.old) e) }
    ensures no_output { result ≢ Err LinesError.Output }
{
    let text = read_text(alloc, reader)?;
    let bytes = bytes_of(alloc, text)?;
    parsed(alloc, bytes.as_slice())
}

/// The descriptor of these bytes.
pub(crate) fn parsed(alloc: Global, bytes: &[u8]) -> Result<Descriptor, LinesError>
    ensures faultless { IfOk result (λ d. IsFaultless bytes.now) }
    ensures described { IfOk result (λ d. Describes (all_items bytes.now) d) }
    ensures refused { IfErr result (λ e. IsRefusal bytes.now e) }
{
    match parse(alloc, bytes) {
        Ok(descriptor) => Ok(descriptor),
        Err(refusal) => match refusal.fault {
            ParseFault::Memory => Err(LinesError::Memory),
            _ => Err(LinesError::Refused(refusal)),
        },
    }
}

/// Prints a line for each field.
fn print_fields<W: Write>(descriptor: &Descriptor, writer: &mut W) -> Result<(), LinesError>
    ensures printed { OnOk result (Appends (W.contents writer.old) (W.contents writer.new)
        (field_lines descriptor.now.fields descriptor.now.ranges)) }
    ensures refused { IfErr result (λ e. e ≡ LinesError.Output) }
{
    let mut printer = Printer::new(writer);
    let printed = put_fields(descriptor, &mut printer);
    if printed.is_err() || printer.finish().is_err() {
        return Err(LinesError::Output);
    }
    Ok(())
}

fn put_fields<W: Write>(
    descriptor: &Descriptor,
    printer: &mut Printer<'_, W>,
) -> Result<(), WriteError>
    ensures printed { OnOk result (Prints W.contents printer.old printer.new (field_lines descriptor.now.fields descriptor.now.ranges)) }
    ensures same_writer { OnOk result (printer_writer printer.new ≡ printer_writer printer.old) }
{
    for (place, field) in descriptor.fields().iter().enumerate() {
        let ranges = descriptor.ranges(place);
        printer.print(&FieldLine { field, ranges })?;
    }
    Ok(())
}

/// Prints the line of a fault, and answers the fault, or `Output` where the writer fails or takes no byte. `Output` has no
/// line.
pub fn print_fault<W: Write>(error: LinesError, writer: &mut W) -> Result<(), LinesError>
    ensures answered { (result ≡ Err error) ⊎ (result ≡ Err LinesError.Output) }
    ensures printed { result ≡ Err error → error ≢ LinesError.Output
        → Appends (W.contents writer.old) (W.contents writer.new) (fault_line error) }
{
    let mut printer = Printer::new(writer);
    if printer.print(&FaultLine(error)).is_err() || printer.finish().is_err() {
        return Err(LinesError::Output);
    }
    Err(error)
}
