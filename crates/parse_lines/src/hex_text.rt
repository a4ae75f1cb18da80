//! The bytes that a text of hex digits says.

ghost use Rattle.std.specs.Prelude.{◌≡◌, IfOk, IfErr};
ghost use Rattle.parse_lines.specs.HexTexts.{is_blank, digits_of, SaysBytes, IsHexFault};

use crate::LinesError;
use hex::FromHexError;
use std::alloc::Global;

/// The bytes of a text of hex digits, two a byte, in either case. Spaces, tabs, CR and LF are dropped. `BadHexText`
/// comes at any other character, or where the number of digits is odd. `Memory` comes where pairs of digits find no room.
pub fn bytes_of(alloc: Global, text: Vec<u8>) -> Result<Vec<u8>, LinesError>
    ensures said { IfOk result (λ bytes. SaysBytes text.items bytes.items) }
    ensures refused { IfErr result (λ e. IsHexFault text.items e) }
{
    let digits = without_blanks(text);
    match hex::decode(alloc, digits.as_slice()) {
        Ok(bytes) => Ok(bytes),
        Err(error) => match error {
            FromHexError::OutOfMemory => Err(LinesError::Memory),
            _ => Err(LinesError::BadHexText),
        },
    }
}

/// The text without its blanks.
fn without_blanks(mut text: Vec<u8>) -> Vec<u8>
    ensures { result.items ≡ digits_of text.items }
{
    text.retain(|character| !is_blank(*character));
    text
}

/// Whether a character is a space, a tab, CR or LF.
fn is_blank(character: u8) -> bool
    ensures { result ≡ is_blank character }
{
    matches!(character, b' ' | b'\t' | b'\r' | b'\n')
}
