//! The longest command that a keymap in flash can take: a page of format 1 on which all 384 entries differ from the
//! default, behind which a page is to be erased, copied into and begun.

ghost use Rattle.std.specs.Prelude.{◌≡◌};

use super::asserts::same;
use super::rows::image;
use flash_model::{NorFlash, SimFlash};
use keymap_store::{Store, Taken, Work};
use layers::{Command, KeyNo, LayerNo};
use std::marker::Model;
use std::process::Abort;

/// A store and its flash.
#[derive(Drop)]
struct Device {
    store: Store,
    flash: SimFlash,
}

impl Model for Device {
    ghost use Rattle.std.specs.Prelude.{ℕ, List};
    ghost use Rattle.layers.specs.Standard.{standard};
    ghost use Rattle.keymap_store.specs.representation.Store.{Mirrors};

    ghost Value = { List ℕ };

    ghost view = { λ d. d.flash.image };

    ghost invariant = { λ d. Mirrors standard d.flash.image d.store };
}

impl Device {
    fn start(flash: SimFlash) -> Device {
        Device {
            store: Store::mount(&flash),
            flash,
        }
    }

    fn work(&mut self) -> Work {
        self.store.work(&mut self.flash)
    }

    /// Works until the command is settled, and says how many operations that took.
    fn settle(&mut self) -> Option<usize> {
        for operations in 1..1000 {
            match self.work() {
                Work::Working => {}
                Work::Settled => return Some(operations),
                Work::Idle | Work::Failed => return None,
            }
        }
        None
    }

    /// The code of entry (0, 0).
    fn entry(&self) -> Option<u16> {
        let (layer, key) = LayerNo::read(0).ok().zip(KeyNo::read(0).ok())?;
        Some(self.store.keymap().get(layer, key).bits())
    }

    /// A slot of page 1.
    fn slot(&self, slot: usize) -> Option<[u8; 8]> {
        if self.flash.pages() > 1 && slot < 512 {
            Some(self.flash.read_slot(1, slot))
        } else {
            None
        }
    }
}

/// Page 0 is full, and page 1 is not blank.
const LONGEST: &str = "full
    0 0 01000010feffffef
    1 9 0000000000000000";

#[test]
fn the_longest_command_takes_387_operations(rt: HostRuntime) {
    let flash = SimFlash::from_image(image(&rt, LONGEST)).expect(&rt, "a flash");
    let mut device = Device::start(flash);
    same(&rt, &device.entry(), &Some(0x0005));
    let command = Command::from_word(0x1000_0000).expect(&rt, "a command");
    same(&rt, &device.store.submit(command), &Ok(Taken::Working));
    same(&rt, &device.settle(), &Some(387));
    same(&rt, &device.entry(), &Some(0x0000));
    same(
        &rt,
        &device.slot(385),
        &Some([0x00, 0x00, 0x00, 0x10, 0xff, 0xff, 0xff, 0xef]),
    );
    same(&rt, &device.slot(386), &Some([0xff; 8]));
}
