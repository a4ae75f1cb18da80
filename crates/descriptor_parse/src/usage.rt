//! A usage as it is written (HID 1.11, 6.2.2.8).

ghost use Rattle.std.specs.Prelude.{◌≡◌, ◌≢◌, ◌≤◌, length};
ghost use Rattle.descriptor_parse.specs.representation.Written.{usage_of, usage_on};

use crate::number::unsigned;

/// A usage as it is written: with its page, or without.
#[derive(Clone, Copy, Debug)]
pub enum Usage {
    /// Two bytes or fewer: of the Usage Page in force.
    Short(u16),
    /// Four bytes: with its page in the high half.
    Whole(u32),
}

/// The usage that the data of a Local item write.
pub fn read_usage(bytes: &[u8]) -> Usage
    requires few { length bytes.now ≤ 4 }
    requires not_three { length bytes.now ≢ 3 }
    ensures { result ≡ usage_of bytes.now }
{
    // Most usages have one byte.
    if bytes.len() == 1 {
        return Usage::Short(bytes[0] as u16);
    }
    let number = unsigned(bytes);
    if bytes.len() == 4 {
        Usage::Whole(number)
    } else {
        Usage::Short(number as u16)
    }
}

impl Usage {
    /// The number of the usage, where a short one is of this page.
    pub fn on(self, page: u16) -> u32
        ensures { result ≡ usage_on page self }
    {
        match self {
            Usage::Short(id) => page as u32 * 0x1_0000 + id as u32,
            Usage::Whole(number) => number,
        }
    }
}
