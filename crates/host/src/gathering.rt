//! A report descriptor that comes in packets.

ghost use Rattle.std.specs.Prelude.{◌≡◌, ◌≢◌, ◌≤◌, ◌<◌, length, IfOk, MatchBool};
ghost use Rattle.descriptor_parse.specs.declared.fault.ParseFault.{ParseFault};

use descriptor_parse::{Descriptor, ParseError, ParseFault, Parser};
use std::alloc::{AllocError, Global};

/// The bytes of a text that is kept: those of the keyboard's report descriptor.
const TEXT_LENGTH: usize = 99;

/// The bytes of a packet that is not the last one of its text, whatever was asked for (USB 2.0, 5.5.3).
const PACKET_LENGTH: usize = 8;

/// A text that is being gathered: how many bytes were asked for, how many came, and the parser that was fed them.
#[derive(Debug, Drop)]
pub(crate) struct Gathering {
    pub(crate) wanted: u16,
    pub(crate) length: usize,
    pub(crate) parser: Parser,
    ghost short: { length < 65536 },
}

/// What a text that is being gathered becomes with a packet.
#[derive(Drop)]
pub(crate) enum Gathered {
    /// It goes on.
    Part(Gathering),
    /// It ended, and is to be kept.
    Text(Descriptor),
    /// It ended, and is not to be kept.
    Nothing,
}

impl Gathering {
    ghost use Rattle.host.specs.Kept.{Fetch, begun_by};
    ghost use Rattle.host.specs.representation.Relation.{Gathers, GathersSome, Becomes};

    /// The text that a SETUP packet begins, if it asks for the report descriptor (HID 1.11, 7.1.1).
    pub(crate) fn begun_by(alloc: Global, setup: [u8; 8]) -> Option<Gathering>
        ensures { GathersSome (begun_by setup) result }
    {
        let [0x81, 0x06, 0x00, 0x22, 0x00, 0x00, low, high] = setup else {
            return None;
        };
        Some(Gathering {
            wanted: u16::from_le_bytes([low, high]),
            length: 0,
            parser: Parser::new(alloc),
        })
    }

    /// Takes a packet. The error says that a growth was refused.
    pub(crate) fn with(self, packet: &[u8]) -> Result<Gathered, AllocError>
        requires { length packet.now ≤ 8 }
        ensures { (fetch : Fetch) → Gathers fetch self → IfOk result (Becomes fetch packet.now) }
    {
        let Gathering {
            wanted,
            length,
            mut parser,
        } = self;
        // A fault is reported again at the end, and such a text is not kept.
        match parser.feed(packet) {
            Err(error) if is_memory(error) => return Err(AllocError),
            Ok(()) | Err(_) => {}
        }
        let length = length + packet.len();
        if packet.len() >= PACKET_LENGTH && length < wanted as usize {
            return Ok(Gathered::Part(Gathering {
                wanted,
                length,
                parser,
            }));
        }
        if length != TEXT_LENGTH {
            return Ok(Gathered::Nothing);
        }
        match parser.finish() {
            Ok(descriptor) => Ok(Gathered::Text(descriptor)),
            Err(error) if is_memory(error) => Err(AllocError),
            Err(_) => Ok(Gathered::Nothing),
        }
    }
}

/// Whether a growth was refused.
fn is_memory(error: ParseError) -> bool
    ensures { MatchBool result (error.fault ≡ ParseFault.Memory) (error.fault ≢ ParseFault.Memory) }
{
    matches!(error.fault, ParseFault::Memory)
}
