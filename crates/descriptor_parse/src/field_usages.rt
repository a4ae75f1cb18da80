//! A field with its usages.

ghost use Rattle.std.specs.Prelude.{◌≡◌, slice_get};
ghost use Rattle.descriptor_parse.specs.Descriptor.{usage_list, usage_of_place};
ghost use Rattle.descriptor_parse.specs.Counts.{AreCounts};

use crate::counts::{nth_usage, place_usage};
use crate::field::Field;
use crate::readers::Usages;

/// A field with its usages: the first and the last of each range, and how many usages the ranges up to each have.
#[derive(Clone, Copy, Debug)]
pub struct FieldUsages<'a> {
    pub field: Field,
    pub ranges: &'a [(u32, u32)],
    pub counts: &'a [u32],
    pub ghost counted: { ∥ AreCounts ranges.now counts.now ∥₁ },
}

impl<'a> FieldUsages<'a> {
    /// Returns the usages one by one.
    pub fn usages(&self) -> Usages<'a>
        ensures { result ≡ usage_list self.now.ranges.now }
    {
        Usages::new(self.ranges)
    }

    /// Returns the usage of a place of a variable field, or usage `place` of an array's list; `None` for what does not
    /// exist.
    ///
    /// In a variable field the last usage serves the places that are left (HID 1.11, 6.2.2.8). The time grows with the
    /// logarithm of the number of ranges.
    pub fn usage(&self, place: usize) -> Option<u32>
        ensures { result ≡ usage_of_place self.now.field (usage_list self.now.ranges.now) place }
    {
        place_usage(&self.field, self.ranges, self.counts, place)
    }

    /// Returns the usage with this number in the list that the ranges make, whatever the field is.
    ///
    /// The time grows with the logarithm of the number of ranges.
    #[inline(always)]
    pub fn nth(&self, number: usize) -> Option<u32>
        ensures { result ≡ slice_get (usage_list self.now.ranges.now) number }
    {
        nth_usage(self.ranges, self.counts, number)
    }
}
