//! The device that a SETUP packet is answered from.

ghost use Rattle.std.specs.Prelude.{◌≡◌};
ghost use Rattle.reports.specs.representation.Words.{first_bytes};
ghost use Rattle.control_ep.specs.declared.answer.DeviceView.{DeviceView};

use crate::DeviceView;
use reports::Protocol;
use reports::words::words_of;

/// A device that a SETUP packet is answered from. Each part is asked for only where the packet reads it,
/// so that a report's bytes need not be there before.
pub trait DeviceReports {
    /// What the device has at that moment.
    ghost shows: { Self → DeviceView → Type 0 };

    /// Which reports exist, and the answer of GET_PROTOCOL.
    fn protocol(&self) -> Protocol
        ensures { (view : DeviceView) → shows self.now view → result ≡ view.protocol };

    /// The idle value of Report ID 1, in units of 4 ms.
    fn idle_one(&self) -> u8
        ensures { (view : DeviceView) → shows self.now view → result ≡ view.idle_one };

    /// The idle value of Report ID 2, in units of 4 ms.
    fn idle_two(&self) -> u8
        ensures { (view : DeviceView) → shows self.now view → result ≡ view.idle_two };

    /// The LEDs, bits 0 to 4.
    fn leds(&self) -> u8
        ensures { (view : DeviceView) → shows self.now view → result ≡ view.leds };

    /// The feature report: its Report ID 3, 0, layer, key, code low, code high.
    fn feature(&self) -> [u8; 6]
        ensures { (view : DeviceView) → shows self.now view → result ≡ view.feature };

    /// The input report of Report ID 1, with the ID: 23 bytes, four to a word, the first in the low bits.
    fn bitmap(&self) -> [u32; 6]
        ensures { (view : DeviceView) → shows self.now view → first_bytes result 23 ≡ view.bitmap };

    /// The input report of Report ID 2, with the ID: 9 bytes, likewise.
    fn consumer(&self) -> [u32; 6]
        ensures { (view : DeviceView) → shows self.now view → first_bytes result 9 ≡ view.consumer };

    /// The boot input report: 8 bytes, likewise.
    fn boot(&self) -> [u32; 6]
        ensures { (view : DeviceView) → shows self.now view → first_bytes result 8 ≡ view.boot };
}

impl DeviceReports for DeviceView {
    ghost shows = { λ device view. device ≡ view };

    fn protocol(&self) -> Protocol {
        self.protocol
    }

    fn idle_one(&self) -> u8 {
        self.idle_one
    }

    fn idle_two(&self) -> u8 {
        self.idle_two
    }

    fn leds(&self) -> u8 {
        self.leds
    }

    fn feature(&self) -> [u8; 6] {
        self.feature
    }

    fn bitmap(&self) -> [u32; 6] {
        words_of(&self.bitmap)
    }

    fn consumer(&self) -> [u32; 6] {
        words_of(&self.consumer)
    }

    fn boot(&self) -> [u32; 6] {
        words_of(&self.boot)
    }
}
