//! Printing to a writer in few writes.

ghost use Rattle.std.specs.Prelude.{◌≡◌, [], IfSome, IsOk, OnOk};
ghost use Rattle.std.specs.Io.KnownBytes.{Appends, Keeps, append_known};
ghost use Rattle.text_io.specs.Printers.{NothingWaits, Prints, given, printed, printer_writer};

use crate::WriteError;
use arrayvec::ArrayString;
use std::fmt;
use std::fmt::{Display, Write as _};
use std::io::Write;

/// Text on its way to a writer, which gets it in pieces of at most 4,096 bytes; a longer piece is handed on as it is. It asks
/// for no memory. After a `WriteError` nothing more is to be printed: a part may come twice. What waits when a printer is
/// dropped is lost.
#[derive(Debug, Drop)]
pub struct Printer<'w, W> {
    writer: &'w mut W,
    waiting: ArrayString<4096>,
}

impl<'w, W: Write> Printer<'w, W> {
    /// A printer to this writer.
    pub fn new(writer: &'w mut W) -> Printer<'w, W>
        ensures printed { printed W.contents result ≡ W.contents writer.old }
        ensures same_writer { printer_writer result ≡ writer.entry.ghost_name }
        ensures empty { NothingWaits result }
    {
        Printer {
            writer,
            waiting: ArrayString::new(),
        }
    }

    /// Prints a value as it shows itself. `WriteError` comes where the writer fails, is interrupted or takes no byte, and where
    /// the value does not show itself.
    pub fn print<T: Display>(&mut self, shown: &T) -> Result<(), WriteError>
        ensures printed { OnOk result (IfSome (T.output shown.now) (Prints W.contents self.old self.new)) }
        ensures same_writer { OnOk result (IfSome (T.output shown.now) (λ text. printer_writer self.new ≡ printer_writer self.old)) }
    {
        match write!(self, "{shown}") {
            Ok(()) => Ok(()),
            Err(_) => Err(WriteError),
        }
    }

    /// Gives the writer all that was printed, and flushes it; nothing waits then. `WriteError` comes where it fails, is
    /// interrupted or takes no byte.
    pub fn finish(&mut self) -> Result<(), WriteError>
        ensures given { OnOk result (Keeps (printed W.contents self.old) (given W.contents self.new)) }
        ensures kept { OnOk result (Keeps (printed W.contents self.old) (printed W.contents self.new)) }
        ensures empty { OnOk result (NothingWaits self.new) }
        ensures same_writer { OnOk result (printer_writer self.new ≡ printer_writer self.old) }
    {
        self.send()?;
        self.writer.flush().map_err(|_| WriteError)
    }

    /// Gives the writer what waits.
    fn send(&mut self) -> Result<(), WriteError>
        ensures given { OnOk result (Keeps (printed W.contents self.old) (given W.contents self.new)) }
        ensures empty { OnOk result (self.new.waiting.bytes ≡ []) }
        ensures nothing { self.old.waiting.bytes ≡ [] → IsOk result }
        ensures same_writer { printer_writer self.new ≡ printer_writer self.old }
    {
        write_whole(self.writer, self.waiting.as_str().as_bytes())?;
        self.waiting.clear();
        Ok(())
    }
}

impl<W: Write> fmt::Write for Printer<'_, W> {
    ghost write_str_gives = { λ s bs t. (printer_writer t ≡ printer_writer s) × Prints W.contents s t bs };

    fn write_str(&mut self, text: &str) -> fmt::Result {
        if self.waiting.try_push_str(text).is_ok() {
            return Ok(());
        }
        self.send().map_err(|_| fmt::Error)?;
        if self.waiting.try_push_str(text).is_ok() {
            return Ok(());
        }
        write_whole(self.writer, text.as_bytes()).map_err(|_| fmt::Error)
    }
}

/// Writes all these bytes. Any fault of the writer ends it, an interruption too.
fn write_whole<W: Write>(writer: &mut W, bytes: &[u8]) -> Result<(), WriteError>
    ensures given { OnOk result (Appends (W.contents writer.old) (W.contents writer.new) bytes.now) }
    ensures nothing { bytes.now ≡ [] → IsOk result }
{
    let mut rest = bytes;
    while !rest.is_empty() {
        match writer.write(rest) {
            Ok(taken) if taken > 0 => rest = &rest[taken..],
            _ => return Err(WriteError),
        }
    }
    Ok(())
}
