//! The keys of scans, and the planes of the debouncer.

use super::asserts::{same, same_at};
use debounce::{Debouncer, Scan};
use std::process::Abort;

const NONE: Scan = Scan { rows: [0; 6] };

const KEY_0: Scan = Scan {
    rows: [1, 0, 0, 0, 0, 0],
};

const KEY_95: Scan = Scan {
    rows: [0, 0, 0, 0, 0, 0x8000],
};

/// The keys of a scan, in the order in which the iterator gives them.
fn assert_keys(rt: &impl Abort, scan: Scan, wanted: &[u8]) {
    let mut count = 0;
    for key in scan.keys() {
        same_at(rt, &wanted.get(count), &Some(&key), &count);
        count = count.saturating_add(1);
    }
    same(rt, &count, &wanted.len());
}

#[test]
fn the_keys_of_a_scan_rise(rt: HostRuntime) {
    assert_keys(&rt, NONE, &[]);
    assert_keys(&rt, KEY_95, &[95]);
    let corners = Scan {
        rows: [0x8001, 0, 0, 0, 0, 0x8000],
    };
    assert_keys(&rt, corners, &[0, 15, 95]);
    let all = Scan { rows: [0xFFFF; 6] };
    let mut numbers = [0; 96];
    for (key, number) in (0..96u8).zip(numbers.iter_mut()) {
        *number = key;
    }
    assert_keys(&rt, all, &numbers);
}

#[test]
fn the_planes_count_to_five(rt: HostRuntime) {
    let mut keys = Debouncer::new();
    same(&rt, keys.planes(), &[[0; 6]; 3]);
    for _ in 0..3 {
        let _ = keys.feed(NONE);
    }
    let _ = keys.feed(KEY_0);
    let counted = [
        [0x0001, 0, 0, 0, 0, 0],
        [0x0000; 6],
        [0xFFFE, 0xFFFF, 0xFFFF, 0xFFFF, 0xFFFF, 0xFFFF],
    ];
    same(&rt, keys.planes(), &counted);
    // Five and more are five.
    for _ in 0..9 {
        let _ = keys.feed(KEY_0);
    }
    same(&rt, keys.planes(), &[[0xFFFF; 6], [0x0000; 6], [0xFFFF; 6]]);
}
