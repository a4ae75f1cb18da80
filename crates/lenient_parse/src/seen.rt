//! What a set between Delimiters has so far.

ghost use Rattle.std.specs.Prelude.{◌≡◌, ◌≤◌, ◌<◌, nat_le, nat_lt, ◌&&◌};
ghost use Rattle.descriptor_parse.specs.ItemViews.{item_view};
ghost use Rattle.lenient_parse.specs.Sets.{weight, count_after, seen_after, is_other};

use descriptor_parse::Item;

/// How much a set has of a usage, a designator and a string: 2 where it has a whole one, 1 for a Minimum or a Maximum.
#[derive(Clone, Copy)]
pub(crate) struct Seen {
    pub(crate) usages: u8,
    pub(crate) designators: u8,
    pub(crate) strings: u8,
}

/// The prefixes of Usage, Designator Index and String Index, without the size of their data.
const USAGE: u8 = 0x08;

const DESIGNATOR: u8 = 0x38;

const STRING: u8 = 0x78;

impl Seen {
    /// Those at the begin of a set.
    pub(crate) const NOTHING: Seen = Seen {
        usages: 0,
        designators: 0,
        strings: 0,
    };

    /// Whether an item gives another usage, designator or string than the first.
    pub(crate) fn is_other(&self, item: &Item<'_>) -> bool
        ensures { result ≡ is_other self.now (item_view item.now) }
    {
        is_more(self.usages, weight(USAGE, item))
            || is_more(self.designators, weight(DESIGNATOR, item))
            || is_more(self.strings, weight(STRING, item))
    }

    /// Those after an item.
    pub(crate) fn after(&self, item: &Item<'_>) -> Seen
        ensures { result ≡ seen_after self.now (item_view item.now) }
    {
        Seen {
            usages: count_after(self.usages, weight(USAGE, item)),
            designators: count_after(self.designators, weight(DESIGNATOR, item)),
            strings: count_after(self.strings, weight(STRING, item)),
        }
    }
}

fn is_more(count: u8, more: u8) -> bool
    ensures { result ≡ (nat_le 2 count && nat_lt 0 more) }
{
    count >= 2 && more > 0
}

fn count_after(count: u8, more: u8) -> u8
    requires { more ≤ 2 }
    ensures { result ≡ count_after count more }
{
    if count >= 2 { count } else { count + more }
}

/// How much of a usage, a designator or a string an item is, of which this prefix gives a whole one.
fn weight(alone: u8, item: &Item<'_>) -> u8
    requires { alone < 200 }
    ensures weight { result ≡ weight alone (item_view item.now) }
    ensures most { result ≤ 2 }
{
    let prefix = item.prefix - item.prefix % 4;
    if prefix == alone {
        return 2;
    }
    if prefix == alone + 0x10 || prefix == alone + 0x20 {
        1
    } else {
        0
    }
}
