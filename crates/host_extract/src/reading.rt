//! What is read in one place.

/// A usage that a report names, with its value (HID 1.11, 5.6).
///
/// The high half of `usage` is its page. `value` is that of a variable field's place; a place of an array that names
/// a usage has the value 1.
///
/// ```rust
/// use wuzhikar_reader::{extract, parse};
///
/// // An axis X of 8 bits, -127 to 127.
/// let descriptor = parse(&[0x05, 0x01, 0x09, 0x30, 0x15, 0x81, 0x25, 0x7f, 0x75, 8, 0x95, 1, 0x81, 0x06])?;
/// let found = extract(&descriptor, &[0xfe])?;
/// assert_eq!((found[0].usage, found[0].value), (0x0001_0030, -2));
/// # Ok::<(), Box<dyn core::error::Error>>(())
/// ```
#[derive(Clone, Copy, Debug, PartialEq, Eq)]
pub struct Found {
    pub usage: u32,
    pub value: i64,
}
