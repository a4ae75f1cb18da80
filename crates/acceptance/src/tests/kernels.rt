//! The kernels on rows.

use super::asserts::{holds, same};
use records::{Kinds, all_ones, kinds8};

const FREE: [u8; 8] = [0xff; 8];

const HEADER: [u8; 8] = [0x01, 0x00, 0x00, 0x20, 0xfe, 0xff, 0xff, 0xdf];

const OLD_HEADER: [u8; 8] = [0x01, 0x00, 0x00, 0x10, 0xfe, 0xff, 0xff, 0xef];

const RECORD: [u8; 8] = [0x05, 0x00, 0x00, 0x10, 0xfa, 0xff, 0xff, 0xef];

const TORN_RECORD: [u8; 8] = [0xf5, 0xf0, 0xf0, 0xf0, 0xfa, 0xff, 0xff, 0xff];

/// Eight slots, one after the other.
fn block_of(slots: [[u8; 8]; 8]) -> [u8; 64] {
    let mut block = [0; 64];
    for i in 0..8 {
        for k in 0..8 {
            block[8 * i + k] = slots[i][k];
        }
    }
    block
}

#[test]
fn a_header_a_record_and_a_torn_one(rt: HostRuntime) {
    for header in [HEADER, OLD_HEADER] {
        let slots = [header, RECORD, TORN_RECORD, FREE, FREE, FREE, FREE, FREE];
        let (good, free) = (0x03, 0xf8);
        same(&rt, &kinds8(&block_of(slots)), &Kinds { good, free });
    }
}

#[test]
fn one_clear_bit_is_seen_at_each_place(rt: HostRuntime) {
    let mut bytes = [0xff; 130];
    for len in 0..131 {
        holds(&rt, all_ones(&bytes[..len]));
        for k in 0..len {
            for bit in [0xfe, 0xfd, 0xfb, 0xf7, 0xef, 0xdf, 0xbf, 0x7f] {
                bytes[k] = bit;
                holds(&rt, !all_ones(&bytes[..len]));
                bytes[k] = 0xff;
            }
        }
    }
}
