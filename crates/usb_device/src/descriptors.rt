//! The descriptors that a maker lends, and the bytes of a read.

ghost use Rattle.std.specs.Prelude.{◌≡◌, ◌*◌, ◌≤◌, OnSome};
ghost use Rattle.std.specs.Option.{option_map};
ghost use Rattle.usb_device.specs.Packets.{packet_at};
ghost use Rattle.usb_device.specs.Requests.{has_names, can_wake};
ghost use Rattle.usb_device.specs.representation.Value.{lent_view, data_bytes};

use crate::packets::packet_at;
use crate::strings::packet_of_text;
use arrayvec::ArrayVec;

/// The descriptors that a maker lends: three that are finished, and names in UTF-16, of which an empty one is none.
///
/// Of a name that is longer than 126 units, as many whole characters are sent as these hold.
#[derive(Clone, Copy, Debug)]
pub struct Descriptors<'a> {
    /// The device descriptor (section 9.6.1).
    pub device: &'a [u8],
    /// The configuration descriptor with those of its interface and endpoint (section 9.6.3). Bit 6 of its bmAttributes is clear:
    /// GET_STATUS says that the bus powers the device (section 9.4.5).
    pub configuration: &'a [u8],
    /// The HID descriptor (HID 1.11 section 6.2.1).
    pub hid: &'a [u8],
    /// The maker's name: string 1.
    pub manufacturer: &'a [u16],
    /// The product's name: string 2.
    pub product: &'a [u16],
    /// The serial number: string 3.
    pub serial_number: &'a [u16],
}

/// Bit 5 of bmAttributes (table 9-10).
const REMOTE_WAKEUP: u8 = 0x20;

impl<'a> Descriptors<'a> {
    /// Whether the device can wake its host.
    pub(crate) fn can_wake(self) -> bool
        ensures { result ≡ can_wake (lent_view self.entry) }
    {
        self.configuration.len() > 7 && self.configuration[7] & REMOTE_WAKEUP != 0
    }

    /// Whether there is a name.
    pub(crate) fn has_names(self) -> bool
        ensures { result ≡ has_names (lent_view self.entry) }
    {
        !self.manufacturer.is_empty() || !self.product.is_empty() || !self.serial_number.is_empty()
    }
}

/// The bytes of a read.
#[derive(Debug, Drop)]
pub(crate) enum Data<'a> {
    /// These bytes.
    Lent(&'a [u8]),
    /// The string descriptor of this text.
    Text(&'a [u16]),
    /// These one or two bytes.
    Copied(ArrayVec<u8, 2>),
}

impl<'a> Data<'a> {
    /// Packet `index` of a read that asked for `asked` bytes.
    #[inline(never)]
    pub(crate) fn packet_at(&self, asked: u16, index: u16) -> Option<ArrayVec<u8, 8>>
        ensures packet { option_map (λ packet. packet.items) result ≡ packet_at (data_bytes self.now) asked index }
        ensures in_data { OnSome result (8 * index ≤ asked) }
    {
        match self {
            Data::Lent(bytes) => packet_at(bytes, asked, index),
            Data::Text(text) => packet_of_text(text, asked, index),
            Data::Copied(bytes) => packet_at(bytes.as_slice(), asked, index),
        }
    }
}
