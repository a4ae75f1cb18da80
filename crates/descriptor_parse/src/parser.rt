//! The parser of a text that comes in pieces.

ghost use Rattle.std.specs.Prelude.{◌≡◌, ℕ, List, [], ◌++◌, Err, IfErr, OnOk};
ghost use Rattle.descriptor_parse.specs.Fed.{RefusesAll};
ghost use Rattle.descriptor_parse.specs.representation.Fed.{WasFed};

use crate::descriptor::Descriptor;
use crate::fault::ParseError;
use crate::reading::Reading;
use std::alloc::Global;
use std::fmt;
use std::fmt::Debug;

/// A parser of a report descriptor that comes in pieces, as it is read off the bus (HID 1.11, section 6.2.2).
///
/// An item is checked once all its bytes are there, and at most 258 bytes of an item that is not whole yet are kept. A
/// refusal ends the parser for good: each later call answers it again.
///
/// ```rust
/// use wuzhikar_reader::Parser;
///
/// let mut parser = Parser::default();
/// // A descriptor as it comes off endpoint 0, eight bytes a packet.
/// for packet in [&[0x05, 0x09, 0x09, 1, 0x25, 1, 0x75, 8][..], &[0x95, 1, 0x81, 0x02]] {
///     parser.feed(packet)?;
/// }
/// assert_eq!(parser.finish()?.fields().len(), 1);
/// # Ok::<(), wuzhikar_reader::ParseError>(())
/// ```
#[derive(Drop)]
pub struct Parser {
    reading: Reading,
    refused: Option<ParseError>,
    ghost refines: { ∥ ((text : List ℕ) × WasFed text reading refused) ∥₁ },
}

impl Parser {
    ghost use Rattle.descriptor_parse.specs.Parse.{Answers, MayGoOn};
    ghost use Rattle.descriptor_parse.specs.representation.Refines.{Refines, HasRefused};

    /// Makes a parser that was fed nothing. It takes no memory yet.
    pub fn new(alloc: Global) -> Parser
        ensures { Refines [] result }
    {
        Parser {
            reading: Reading::new(alloc),
            refused: None,
        }
    }

    /// Takes the next bytes of the text.
    ///
    /// The error is the first fault of each text that begins with what was fed: that of the least offset, and there of
    /// the least number. `Memory` comes where a growth was refused, with the offset of the item that wanted it.
    /// `TooLong` comes once every item that begins at 4,096 or before is whole.
    pub fn feed(&mut self, piece: &[u8]) -> Result<(), ParseError>
        // The parser stands for all that it was fed.
        ensures fed { (text : List ℕ) → Refines text self.old → Refines (text ++ piece.now) self.new }
        // A refusal is that of every text that begins so.
        ensures refused { (text : List ℕ) → Refines text self.old → IfErr result (RefusesAll (text ++ piece.now)) }
        // While it goes on, the bytes so far show no fault but that they end within an item or a collection.
        ensures goes_on { (text : List ℕ) → Refines text self.old → OnOk result (MayGoOn (text ++ piece.now)) }
        // A refusal is for good.
        ensures for_good { IfErr result (λ e. HasRefused e self.new) }
        ensures again { (e : ParseError) → HasRefused e self.old → result ≡ Err e }
    {
        if let Some(error) = self.refused {
            return Err(error);
        }
        match self.reading.read(piece) {
            Ok(()) => Ok(()),
            Err(error) => {
                self.refused = Some(error);
                Err(error)
            }
        }
    }

    /// Ends the text: its descriptor, or its first fault.
    pub fn finish(self) -> Result<Descriptor, ParseError>
        ensures answers { (text : List ℕ) → Refines text self → Answers text result }
        ensures again { (e : ParseError) → HasRefused e self → result ≡ Err e }
    {
        let Parser { reading, refused } = self;
        match refused {
            Some(error) => Err(error),
            None => reading.finish(),
        }
    }
}

impl Debug for Parser {
    fn fmt<W: fmt::Write>(&self, f: &mut fmt::Formatter<W>) -> fmt::Result {
        f.debug_struct("Parser")
            .field("offset", &self.reading.offset)
            .field("refused", &self.refused)
            .finish_non_exhaustive()
    }
}
