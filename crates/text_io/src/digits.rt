//! Bytes and numbers as hex digits.

ghost use Rattle.std.specs.Prelude.{Some};
ghost use Rattle.text_io.specs.Digits.{in_hex, word_in_hex};

use std::fmt;

/// Bytes as hex digits in lower case, two a byte.
#[derive(Clone, Copy, Debug, PartialEq, Eq)]
pub struct HexDigits<'a>(pub &'a [u8]);

impl fmt::Display for HexDigits<'_> {
    ghost output = { λ d. Some (in_hex d.0.now) };

    fn fmt<W: fmt::Write>(&self, f: &mut fmt::Formatter<W>) -> fmt::Result {
        let bytes = self.0;
        for byte in bytes {
            let byte = *byte;
            write!(f, "{byte:02x}")?;
        }
        Ok(())
    }
}

/// A number of 32 bits as eight hex digits in lower case, such as a usage: its page, and its number on that page.
#[derive(Clone, Copy, Debug, PartialEq, Eq)]
pub struct HexWord(pub u32);

impl fmt::Display for HexWord {
    ghost output = { λ w. Some (word_in_hex w.0) };

    fn fmt<W: fmt::Write>(&self, f: &mut fmt::Formatter<W>) -> fmt::Result {
        let bytes = self.0.to_be_bytes();
        let digits = HexDigits(bytes.as_slice());
        write!(f, "{digits}")
    }
}
