//! A whole text as a descriptor, in the lenient mode.

ghost use Rattle.std.specs.Prelude.{◌≡◌, ◌≢◌, [], IfOk, IfErr};
ghost use Rattle.descriptor_parse.specs.Descriptor.{Describes};
ghost use Rattle.descriptor_parse.specs.Faults.{IsFaultless, IsFirstFault, all_items};
ghost use Rattle.descriptor_parse.specs.declared.fault.ParseFault.{ParseFault};
ghost use Rattle.lenient_parse.specs.Answers.{IsFaultOf, MayWantIn, MayWantFor};
ghost use Rattle.lenient_parse.specs.Lenient.{rewritten, passed_over, lenient_of};

use crate::lenient::{Lenient, rewritten};
use descriptor_parse::{Descriptor, ParseError, ParseFault, parse};
use std::alloc::Global;

/// Parses a report descriptor of at most 4,096 bytes in the lenient mode (HID 1.11, section 6.2.2): its descriptor, and the
/// faults of the strict reader that were passed over, in order.
///
/// A text that the strict reader takes gets its answer, with no fault. The error is the first fault that is left; `Memory` comes
/// where a growth was refused, with the offset of the item that wanted it, or that of the first fault, which the growth was to pass.
pub fn parse_lenient(
    alloc: Global,
    text: &[u8],
) -> Result<(Descriptor, Vec<ParseError>), ParseError>
    ensures strict { IsFaultless text.now → IfOk result (λ r. Describes (all_items text.now) r.0 × (r.1.items ≡ [])) }
    ensures taken { IsFaultless text.now → IfErr result (λ e. e.fault ≡ ParseFault.Memory) }
    ensures faultless { (IsFaultless text.now → ⊥) → IfOk result (λ r. IsFaultless (rewritten text.now)) }
    ensures described { (IsFaultless text.now → ⊥) → IfOk result (λ r. Describes (all_items (rewritten text.now)) r.0) }
    ensures passed { (IsFaultless text.now → ⊥) → IfOk result (λ r. r.1.items ≡ passed_over text.now) }
    ensures first { passed_over text.now ≡ [] → IfErr result (λ e. e.fault ≢ ParseFault.Memory → IsFirstFault text.now e) }
    ensures first_left { passed_over text.now ≢ [] → IfErr result (λ e. e.fault ≢ ParseFault.Memory → IsFaultOf (lenient_of text.now) e) }
    ensures memory { IfErr result (λ e. e.fault ≡ ParseFault.Memory → MayWantFor text.now e.offset) }
{
    match parse(alloc, text) {
        Ok(descriptor) => Ok((descriptor, Vec::new(alloc))),
        Err(error) => match error.fault {
            ParseFault::Memory => Err(error),
            _ => parse_refused(alloc, text, error),
        },
    }
}

/// Parses a text that the strict reader refuses for this error.
fn parse_refused(
    alloc: Global,
    text: &[u8],
    error: ParseError,
) -> Result<(Descriptor, Vec<ParseError>), ParseError>
    requires first { IsFirstFault text.now error }
    requires not_memory { error.fault ≢ ParseFault.Memory }
    ensures faultless { IfOk result (λ r. IsFaultless (rewritten text.now)) }
    ensures described { IfOk result (λ r. Describes (all_items (rewritten text.now)) r.0) }
    ensures passed { IfOk result (λ r. r.1.items ≡ passed_over text.now) }
    ensures first { passed_over text.now ≡ [] → IfErr result (λ e. e.fault ≢ ParseFault.Memory → IsFirstFault text.now e) }
    ensures first_left { passed_over text.now ≢ [] → IfErr result (λ e. e.fault ≢ ParseFault.Memory → IsFaultOf (lenient_of text.now) e) }
    ensures memory { IfErr result (λ e. e.fault ≡ ParseFault.Memory → MayWantFor text.now e.offset) }
{
    match rewritten(alloc, text) {
        Ok(Some(lenient)) => parse_instead(alloc, lenient),
        Ok(None) => Err(error),
        Err(_) => Err(ParseError {
            fault: ParseFault::Memory,
            offset: error.offset,
        }),
    }
}

fn parse_instead(
    alloc: Global,
    lenient: Lenient,
) -> Result<(Descriptor, Vec<ParseError>), ParseError>
    ensures faultless { IfOk result (λ r. IsFaultless lenient.text) }
    ensures described { IfOk result (λ r. Describes (all_items lenient.text) r.0) }
    ensures passed { IfOk result (λ r. r.1.items ≡ lenient.passed) }
    ensures first { IfErr result (λ e. e.fault ≢ ParseFault.Memory → IsFaultOf lenient e) }
    ensures memory { IfErr result (λ e. e.fault ≡ ParseFault.Memory → MayWantIn lenient e.offset) }
{
    match parse(alloc, lenient.text()) {
        Ok(descriptor) => Ok((descriptor, lenient.into_passed())),
        Err(error) => Err(ParseError {
            fault: error.fault,
            offset: lenient.origin(error.offset),
        }),
    }
}
