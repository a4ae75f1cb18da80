//! What a SETUP packet is answered from: the keyboard without its endpoint.

ghost use Rattle.keyboard.specs.representation.Shown.{Shows};

use control_ep::DeviceReports;
use key_reports::{IdleId, KeyReports, Protocol};
use keymap_store::StoreOf;
use layers::{Defaults, KeyNo, LayerNo};

/// The parts of a keyboard that a SETUP packet is answered from.
#[derive(Drop)]
pub(crate) struct Shown<'a, D: Defaults> {
    pub(crate) keys: &'a KeyReports,
    pub(crate) store: &'a StoreOf<D>,
    pub(crate) protocol: Protocol,
    pub(crate) leds: u8,
    pub(crate) layer: LayerNo,
    pub(crate) key: KeyNo,
}

impl<'a, D: Defaults> DeviceReports for Shown<'a, D> {
    ghost shows = { Shows D.defaults };

    fn protocol(&self) -> Protocol {
        self.protocol
    }

    fn idle_one(&self) -> u8 {
        self.keys.idle(IdleId::One)
    }

    fn idle_two(&self) -> u8 {
        self.keys.idle(IdleId::Two)
    }

    fn leds(&self) -> u8 {
        self.leds
    }

    fn feature(&self) -> [u8; 6] {
        let code = self.store.keymap().get(self.layer, self.key);
        let [low, high] = code.bits().to_le_bytes();
        [3, 0, self.layer.number(), self.key.number(), low, high]
    }

    fn bitmap(&self) -> [u32; 6] {
        self.keys.bitmap()
    }

    fn consumer(&self) -> [u32; 6] {
        self.keys.consumer()
    }

    fn boot(&self) -> [u32; 6] {
        self.keys.boot()
    }
}
