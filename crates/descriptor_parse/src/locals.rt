//! The Local items since the latest Main item (HID 1.11, 6.2.2.8).

ghost use Rattle.std.specs.Prelude.{◌≡◌, ◌≢◌, ◌≤◌, ◌<◌, ◌/◌, ℕ, List, [], ◌∷◌, ◌++◌, OnOk, OnErr, IsSome, IsTrue, length, map};
ghost use Rattle.descriptor_parse.specs.Items.{ItemValue};
ghost use Rattle.descriptor_parse.specs.Tags.{tag_of};
ghost use Rattle.descriptor_parse.specs.Locals.{usage_number};
ghost use Rattle.descriptor_parse.specs.representation.LocalsRefine.{LocalsRefine, range_on, raw_of, are_alike, fault_of_pair, fault_of_local, adds_range, TakesHalf};
ghost use Rattle.descriptor_parse.specs.representation.Written.{usage_of};
ghost use Rattle.descriptor_parse.specs.representation.CountsRefine.{count_with, wrapped_counts};
ghost use Rattle.descriptor_parse.specs.declared.tag.Tag.{Tag};
ghost use Rattle.descriptor_parse.specs.declared.tag.LocalTag.{LocalTag};

use crate::fault::ParseFault;
use crate::tag::LocalTag;
use crate::usage::Usage;
use smallvec::SmallVec;
use std::alloc::{AllocError, Global};

/// How many ranges there is room for without memory.
const FIRST_RANGES: usize = 16;

/// A range of usages, its first and its last.
#[derive(Clone, Copy)]
pub(crate) struct UsageRange {
    pub(crate) first: Usage,
    pub(crate) last: Usage,
}

impl Default for UsageRange {
    /// What stands where there is none.
    fn default() -> UsageRange {
        UsageRange {
            first: Usage::Short(0),
            last: Usage::Short(0),
        }
    }
}

/// A Usage Minimum or Maximum that has not met its pair.
#[derive(Clone, Copy)]
pub(crate) struct Half {
    pub(crate) minimum: bool,
    pub(crate) usage: Usage,
}

/// The usages since the latest Main item, and the Minimum or Maximum that has not met its pair.
#[derive(Drop)]
pub(crate) struct Locals {
    pub(crate) usages: SmallVec<UsageRange, FIRST_RANGES>,
    pub(crate) half: Option<Half>,
}

impl Locals {
    pub(crate) fn new(alloc: Global) -> Locals
        ensures { LocalsRefine [] result }
    {
        Locals {
            usages: SmallVec::new(alloc),
            half: None,
        }
    }

    /// The fault of a Local item.
    #[inline(always)]
    pub(crate) fn check(&self, tag: LocalTag, usage: Usage) -> Option<ParseFault>
        ensures { result ≡ fault_of_local tag usage self.now.half }
    {
        match tag {
            LocalTag::Usage => None,
            LocalTag::UsageMinimum => match self.half {
                Some(half) => pair_fault(!half.minimum, usage, half.usage),
                None => None,
            },
            LocalTag::UsageMaximum => match self.half {
                Some(half) => pair_fault(half.minimum, half.usage, usage),
                None => None,
            },
            LocalTag::Delimiter => Some(ParseFault::Delimiter),
        }
    }

    /// Takes a Local item.
    #[inline(always)]
    pub(crate) fn take(&mut self, tag: LocalTag, usage: Usage) -> Result<(), AllocError>
        ensures taken { OnOk result ((before : List ItemValue) (item : ItemValue) → tag_of item.prefix ≡ Tag.Local tag
            → usage_of item.bytes ≡ usage → LocalsRefine before self.old → LocalsRefine (item ∷ before) self.new) }
        ensures refused { OnErr result (IsTrue (adds_range tag self.old.half)) }
    {
        match tag {
            LocalTag::Usage => self.add(usage, usage)?,
            LocalTag::UsageMinimum => self.take_half(true, usage)?,
            LocalTag::UsageMaximum => self.take_half(false, usage)?,
            LocalTag::Delimiter => {}
        }
        Ok(())
    }

    /// Adds a range.
    #[inline(always)]
    fn add(&mut self, first: Usage, last: Usage) -> Result<(), AllocError>
        ensures added { OnOk result (self.new.usages.items ≡ self.old.usages.items ++ record { first = first; last = last } ∷ []) }
        ensures same { self.new.half ≡ self.old.half }
    {
        self.usages.push(UsageRange { first, last })?;
        Ok(())
    }

    /// Keeps a Minimum or Maximum, or makes it a range with its pair.
    fn take_half(&mut self, minimum: bool, usage: Usage) -> Result<(), AllocError>
        ensures taken { OnOk result (TakesHalf minimum usage self.old self.new) }
        ensures refused { OnErr result (IsSome self.old.half) }
    {
        match self.half {
            None => self.half = Some(Half { minimum, usage }),
            Some(half) => {
                let (first, last) = if minimum {
                    (usage, half.usage)
                } else {
                    (half.usage, usage)
                };
                self.add(first, last)?;
                self.half = None;
            }
        }
        Ok(())
    }

    /// Ends the Local items at a Main item.
    pub(crate) fn clear(&mut self)
        ensures usages { self.new.usages.items ≡ [] }
        ensures half { self.new.half ≡ None }
    {
        self.usages.clear();
        if self.half.is_some() {
            self.half = None;
        }
    }

    /// Appends the ranges, where short usages are of this page, and how many usages those up to each have.
    #[inline(always)]
    pub(crate) fn append_to(
        &self,
        ranges: &mut Vec<(u32, u32)>,
        counts: &mut Vec<u32>,
        page: u16,
    ) -> Result<(), AllocError>
        ensures ranges { OnOk result (ranges.new.items ≡ ranges.old.items ++ map (range_on page) self.now.usages.items) }
        ensures counts { OnOk result (counts.new.items ≡ counts.old.items ++ wrapped_counts 0 (map (range_on page) self.now.usages.items)) }
    {
        let mut count = 0;
        for range in self.usages.as_slice() {
            let (first, last) = (range.first.on(page), range.last.on(page));
            count = count_with(count, first, last);
            ranges.push((first, last))?;
            counts.push(count)?;
        }
        Ok(())
    }
}

/// The number of usages with those of a range more. The ranges of a text without a fault have less than 2^32 usages.
#[inline(always)]
fn count_with(count: u32, first: u32, last: u32) -> u32
    ensures { result ≡ count_with count (first, last) }
{
    count.wrapping_add(last.wrapping_sub(first)).wrapping_add(1)
}

/// What is wrong with a pair.
fn pair_fault(paired: bool, min: Usage, max: Usage) -> Option<ParseFault>
    ensures { result ≡ fault_of_pair paired min max }
{
    if !paired || !matches(min, max) {
        return Some(ParseFault::UnpairedUsage);
    }
    if raw(max) < raw(min) {
        Some(ParseFault::UsageInverted)
    } else {
        None
    }
}

/// Whether two usages have no page of their own, or the same one.
fn matches(min: Usage, max: Usage) -> bool
    ensures { result ≡ are_alike min max }
{
    match (min, max) {
        (Usage::Short(_), Usage::Short(_)) => true,
        (Usage::Whole(a), Usage::Whole(b)) => a / 0x1_0000 == b / 0x1_0000,
        _ => false,
    }
}

/// The number as it is written.
fn raw(usage: Usage) -> u32
    ensures { result ≡ raw_of usage }
{
    match usage {
        Usage::Short(id) => id as u32,
        Usage::Whole(number) => number,
    }
}
