//! The values of an Array: those that name usages, and those that name none.

ghost use Rattle.std.specs.Prelude.{◌≡◌, ◌⊎◌, ◌≤◌, ◌<◌, true, ◌&&◌, MatchOption, MatchBool};
ghost use Rattle.descriptor_parse.specs.Counts.{AreCounts};
ghost use Rattle.descriptor_parse.specs.Descriptor.{usage_list};
ghost use Rattle.host_extract.specs.representation.Fits.{FitsReading};
ghost use Rattle.field_values.specs.Lists.{is_no_control, is_unused, IsUnlisted, IsFirst};
ghost use Rattle.field_values.specs.representation.Ranges.{AreWithout};

use crate::place::is_held;
use crate::value::listed;
use descriptor_parse::FieldUsages;

/// Whether the bits of a place of an Array hold a value, and it names no control: it is outside the logical extents, past
/// the list, or that of a usage whose low half is 0.
pub fn is_unused(declared: &FieldUsages<'_>, value: i64) -> bool
    requires { FitsReading declared.now.field }
    ensures { result ≡ is_unused declared.now.field (usage_list declared.now.ranges.now) value }
{
    is_held(declared.field.min, declared.field.size, value)
        && is_no_control(listed(declared, value))
}

/// Whether a usage is none, or one whose low half is 0.
pub fn is_no_control(usage: Option<u32>) -> bool
    ensures { result ≡ is_no_control usage }
{
    match usage {
        None => true,
        Some(usage) => usage % 0x1_0000 == 0,
    }
}

/// The number of a usage in the list of a field, the first where it is listed more than once; `None` where it is not.
/// A value of an Array that is so much above the Logical Minimum names it.
pub fn number_of_usage(declared: &FieldUsages<'_>, usage: u32) -> Option<u32>
    ensures { MatchOption result (IsUnlisted (usage_list declared.now.ranges.now) usage) (IsFirst (usage_list declared.now.ranges.now) usage) }
{
    number_in(declared.ranges, declared.counts, 0, usage)
}

/// The same, where no range before this one has the usage.
pub fn number_of_usage_from(declared: &FieldUsages<'_>, from: usize, usage: u32) -> Option<u32>
    requires { AreWithout declared.now.ranges.now usage from }
    ensures { MatchOption result (IsUnlisted (usage_list declared.now.ranges.now) usage) (IsFirst (usage_list declared.now.ranges.now) usage) }
{
    number_in(declared.ranges, declared.counts, from, usage)
}

/// The same by ranges, beside each how many usages those up to it have.
fn number_in(ranges: &[(u32, u32)], counts: &[u32], from: usize, usage: u32) -> Option<u32>
    requires counts { AreCounts ranges.now counts.now }
    requires without { AreWithout ranges.now usage from }
    ensures { MatchOption result (IsUnlisted (usage_list ranges.now) usage) (IsFirst (usage_list ranges.now) usage) }
{
    for place in from.min(ranges.len())..ranges.len() {
        if has(ranges[place], usage) {
            return Some(counts[place] - 1 - (ranges[place].1 - usage));
        }
    }
    None
}

/// Whether a range has a usage.
fn has(range: (u32, u32), usage: u32) -> bool
    ensures { MatchBool result ((range.0 ≤ usage) × (usage ≤ range.1)) ((usage < range.0) ⊎ (range.1 < usage)) }
{
    range.0 <= usage && usage <= range.1
}
