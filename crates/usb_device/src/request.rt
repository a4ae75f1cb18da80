//! What a SETUP packet asks for.

ghost use Rattle.std.specs.Prelude.{◌≡◌, ◌∷◌, [], ◌==◌, ◌&&◌};
ghost use Rattle.usb_device.specs.Requests.{request_of, served, is_configured, is_halted, bit, names, device_status, remote_wakeup, interface_status, endpoint_status, halt, set_address, configuration, set_configuration, interface, set_interface, string, descriptor, hid_descriptor};
ghost use Rattle.usb_device.specs.representation.Value.{fields_view, begun_view, lent_view};

use crate::descriptors::{Data, Descriptors};
use crate::{Change, Endpoint1};
use arrayvec::ArrayVec;

/// The text of string 0: the languages (section 9.6.7). English of the United States is the one.
const LANGUAGES: [u16; 1] = [0x0409];

/// The fields of a SETUP packet (table 9-2).
#[derive(Clone, Copy)]
pub(crate) struct Request {
    kind: u8,
    code: u8,
    value: u16,
    index: u16,
    pub(crate) length: u16,
}

/// What a request that is served begins.
#[derive(Drop)]
pub(crate) enum Served<'a> {
    Reads(Data<'a>),
    Sets(Change),
}

impl Endpoint1 {
    /// Whether the device is configured.
    pub(crate) fn is_configured(self) -> bool
        ensures { result ≡ is_configured self }
    {
        !matches!(self, Endpoint1::Off)
    }
}

impl Request {
    /// The fields of a SETUP packet's bytes.
    pub(crate) fn read(setup: [u8; 8]) -> Request
        ensures { fields_view result ≡ request_of setup }
    {
        let [kind, code, v0, v1, i0, i1, l0, l1] = setup;
        Request {
            kind,
            code,
            value: u16::from_le_bytes([v0, v1]),
            index: u16::from_le_bytes([i0, i1]),
            length: u16::from_le_bytes([l0, l1]),
        }
    }

    /// What the USB device layer serves it with; none where it is left to the device behind.
    #[tactic(auto, unfolding(crate::specs::Requests::served))]
    pub(crate) fn served<'a>(
        self,
        state: Endpoint1,
        wakeup: bool,
        lent: Descriptors<'a>,
    ) -> Option<Served<'a>>
        ensures { begun_view result ≡ served (lent_view lent.entry) state wakeup (fields_view self) }
    {
        match (self.kind, self.code) {
            (0x80, 0x00) => self.device_status(wakeup),
            (0x81, 0x00) => self.interface_status(state),
            (0x82, 0x00) => self.endpoint_status(state),
            (0x02, 0x01) => self.halt(state, Endpoint1::Ready),
            (0x02, 0x03) => self.halt(state, Endpoint1::Halted),
            (0x00, 0x01) => self.remote_wakeup(lent, false),
            (0x00, 0x03) => self.remote_wakeup(lent, true),
            (0x00, 0x05) => self.set_address(state),
            (0x80, 0x06) => self.descriptor(lent),
            (0x81, 0x06) => self.hid_descriptor(lent),
            (0x80, 0x08) => self.configuration(state),
            (0x00, 0x09) => self.set_configuration(),
            (0x81, 0x0A) => self.interface(state),
            (0x01, 0x0B) => self.set_interface(state),
            _ => None,
        }
    }

    /// Whether wValue and wIndex are these.
    fn names(self, value: u16, index: u16) -> bool
        ensures { result ≡ names (fields_view self) value index }
    {
        self.value == value && self.index == index
    }

    fn device_status<'a>(self, wakeup: bool) -> Option<Served<'a>>
        ensures { begun_view result ≡ device_status wakeup (fields_view self) }
    {
        if self.names(0, 0) {
            Some(two(if wakeup { 2 } else { 0 }))
        } else {
            None
        }
    }

    fn interface_status<'a>(self, state: Endpoint1) -> Option<Served<'a>>
        ensures { begun_view result ≡ interface_status state (fields_view self) }
    {
        if state.is_configured() && self.names(0, 0) {
            Some(two(0))
        } else {
            None
        }
    }

    fn endpoint_status<'a>(self, state: Endpoint1) -> Option<Served<'a>>
        ensures { begun_view result ≡ endpoint_status state (fields_view self) }
    {
        if self.names(0, 0) || self.names(0, 0x80) {
            Some(two(0))
        } else if state.is_configured() && self.names(0, 0x81) {
            Some(two(if state == Endpoint1::Halted { 1 } else { 0 }))
        } else {
            None
        }
    }

    fn remote_wakeup<'a>(self, lent: Descriptors<'a>, next: bool) -> Option<Served<'a>>
        ensures { begun_view result ≡ remote_wakeup (lent_view lent.entry) (fields_view self) next }
    {
        if lent.can_wake() && self.names(1, 0) && self.length == 0 {
            Some(Served::Sets(Change::Wakeup(next)))
        } else {
            None
        }
    }

    fn halt<'a>(self, state: Endpoint1, next: Endpoint1) -> Option<Served<'a>>
        ensures { begun_view result ≡ halt state (fields_view self) next }
    {
        if state.is_configured() && self.names(0, 0x81) && self.length == 0 {
            Some(Served::Sets(Change::Endpoint(next)))
        } else {
            None
        }
    }

    fn set_address<'a>(self, state: Endpoint1) -> Option<Served<'a>>
        ensures { begun_view result ≡ set_address state (fields_view self) }
    {
        if self.value < 128 && !state.is_configured() && self.index == 0 && self.length == 0 {
            Some(Served::Sets(Change::Address(self.value as u8)))
        } else {
            None
        }
    }

    fn descriptor<'a>(self, lent: Descriptors<'a>) -> Option<Served<'a>>
        ensures { begun_view result ≡ descriptor (lent_view lent.entry) (fields_view self) }
    {
        match self.value {
            0x0100 => Some(Served::Reads(Data::Lent(lent.device))),
            0x0200 => Some(Served::Reads(Data::Lent(lent.configuration))),
            0x0300 if lent.has_names() => Some(Served::Reads(Data::Text(&LANGUAGES))),
            0x0301 => self.string(lent.manufacturer),
            0x0302 => self.string(lent.product),
            0x0303 => self.string(lent.serial_number),
            _ => None,
        }
    }

    /// The string descriptor of a text in the language that is asked for.
    fn string<'a>(self, text: &'a [u16]) -> Option<Served<'a>>
        ensures { begun_view result ≡ string (fields_view self) text.now }
    {
        if self.index == LANGUAGES[0] && !text.is_empty() {
            Some(Served::Reads(Data::Text(text)))
        } else {
            None
        }
    }

    fn hid_descriptor<'a>(self, lent: Descriptors<'a>) -> Option<Served<'a>>
        ensures { begun_view result ≡ hid_descriptor (lent_view lent.entry) (fields_view self) }
    {
        if self.names(0x2100, 0) {
            Some(Served::Reads(Data::Lent(lent.hid)))
        } else {
            None
        }
    }

    fn configuration<'a>(self, state: Endpoint1) -> Option<Served<'a>>
        ensures { begun_view result ≡ configuration state (fields_view self) }
    {
        if self.names(0, 0) {
            Some(one(if state.is_configured() { 1 } else { 0 }))
        } else {
            None
        }
    }

    fn set_configuration<'a>(self) -> Option<Served<'a>>
        ensures { begun_view result ≡ set_configuration (fields_view self) }
    {
        if self.names(0, 0) && self.length == 0 {
            Some(Served::Sets(Change::Endpoint(Endpoint1::Off)))
        } else if self.names(1, 0) && self.length == 0 {
            Some(Served::Sets(Change::Endpoint(Endpoint1::Ready)))
        } else {
            None
        }
    }

    fn interface<'a>(self, state: Endpoint1) -> Option<Served<'a>>
        ensures { begun_view result ≡ interface state (fields_view self) }
    {
        if state.is_configured() && self.names(0, 0) {
            Some(one(0))
        } else {
            None
        }
    }

    fn set_interface<'a>(self, state: Endpoint1) -> Option<Served<'a>>
        ensures { begun_view result ≡ set_interface state (fields_view self) }
    {
        if state.is_configured() && self.names(0, 0) && self.length == 0 {
            Some(Served::Sets(Change::Endpoint(Endpoint1::Ready)))
        } else {
            None
        }
    }
}

/// A read of this byte and a zero.
fn two<'a>(first: u8) -> Served<'a>
    ensures { begun_view (Some result) ≡ begun_view (Some (Served.Reads (Data.Copied (record { items = first ∷ 0 ∷ [] })))) }
{
    let mut bytes = ArrayVec::new();
    let _full = bytes.try_extend_from_slice(&[first, 0]);
    Served::Reads(Data::Copied(bytes))
}

/// A read of this byte.
fn one<'a>(byte: u8) -> Served<'a>
    ensures { begun_view (Some result) ≡ begun_view (Some (Served.Reads (Data.Copied (record { items = byte ∷ [] })))) }
{
    let mut bytes = ArrayVec::new();
    let _full = bytes.try_extend_from_slice(&[byte]);
    Served::Reads(Data::Copied(bytes))
}
