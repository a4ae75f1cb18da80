//! The reports that the host sends.

ghost use Rattle.std.specs.Prelude.{◌≡◌};
ghost use Rattle.control_ep.specs.Answers.{received_report};
ghost use Rattle.control_ep.specs.representation.Views.{report_view, received_view};

use crate::request::HostReport;
use crate::{Received, Why};

/// The bits of the LED byte that stand for LEDs.
const LED_BITS: u8 = 0x1F;

/// What the packet of a report comes to. In this order `ShortData` and `LongData` for another length, and
/// `UnknownReport` for another Report ID.
#[tactic(auto, using(crate::proofs::Reports::drop_six))]
pub(crate) fn received_report(report: HostReport, packet: &[u8]) -> Result<Received, Why>
    ensures { received_view result ≡ received_report (report_view report) packet.now }
{
    let length = report.length();
    if packet.len() < length {
        return Err(Why::ShortData);
    }
    if packet.len() > length {
        return Err(Why::LongData);
    }
    match (report, packet) {
        (HostReport::LedsWithId, [0x01, leds]) => Ok(Received::Leds(*leds & LED_BITS)),
        (HostReport::LedsAlone, [leds]) => Ok(Received::Leds(*leds & LED_BITS)),
        (HostReport::Feature, [0x03, op, layer, key, low, high]) => {
            Ok(Received::Offer([*op, *layer, *key, *low, *high]))
        }
        _ => Err(Why::UnknownReport),
    }
}
