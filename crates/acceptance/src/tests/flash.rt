//! Flashes: how many pages there are, what a new one holds, and what a torn erase leaves.

use super::asserts::{holds, same, same_at};
use super::rows::image;
use flash_model::{FlashError, Mask, NorFlash, SimFlash};
use std::alloc::Global;
use std::process::Abort;

#[test]
fn one_page_is_no_flash(rt: HostRuntime) {
    for pages in [0, 1, 9, usize::MAX] {
        let flash = SimFlash::new(rt.alloc(), pages);
        same_at(&rt, &flash.err(), &Some(FlashError::PageCount), &pages);
    }
}

#[test]
fn a_new_flash_is_blank(rt: HostRuntime) {
    let flash = SimFlash::new(rt.alloc(), 2).expect(&rt, "a flash");
    same(&rt, &flash.pages(), &2);
    same(&rt, &flash.image().len(), &8192);
    for byte in flash.image() {
        same(&rt, byte, &0xff);
    }
}

/// The flash of an image of so many bytes.
fn of_bytes(rt: &impl Abort, alloc: Global, bytes: usize) -> Result<SimFlash, FlashError> {
    SimFlash::from_image(vec![in alloc; 0xffu8; bytes].expect(rt, "an image"))
}

#[test]
fn the_bytes_of_one_page_are_no_image(rt: HostRuntime) {
    for bytes in [0, 4096, 8191, 8193, 36_864] {
        let flash = of_bytes(&rt, rt.alloc(), bytes);
        same_at(&rt, &flash.err(), &Some(FlashError::ImageSize), &bytes);
    }
    for bytes in [8192, 32_768] {
        holds(&rt, of_bytes(&rt, rt.alloc(), bytes).is_ok());
    }
}

/// A flash on which an erase of page 0, whose slot 0 holds a header, is torn by this mask.
fn torn_erase<R: AllocGlobal + Abort>(rt: &R, mask: &[u8]) -> SimFlash {
    let mut flash = SimFlash::from_image(image(rt, "0 0 01000010feffffef")).expect(rt, "a flash");
    let mut bytes = Mask::new();
    holds(rt, bytes.try_extend_from_slice(mask).is_ok());
    flash.fault_next(bytes);
    holds(rt, flash.erase_page(0).is_err());
    flash
}

// Spoiled, and sound.
#[test]
fn a_torn_erase_sets_the_bits_of_its_mask(rt: HostRuntime) {
    let flash = torn_erase(&rt, &[0x01]);
    same(
        &rt,
        &flash.read_slot(0, 0),
        &[0x01, 0x01, 0x01, 0x11, 0xff, 0xff, 0xff, 0xef],
    );
    same(
        &rt,
        &records::classify(flash.read_slot(0, 0)),
        &records::Slot::Spoiled,
    );
    holds(&rt, records::is_sound(flash.read_slot(0, 0)));
    same(&rt, &flash.read_slot(1, 511), &[0xff; 8]);
}
