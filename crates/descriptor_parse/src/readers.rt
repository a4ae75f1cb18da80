//! Readers of a descriptor: the fields of one report, and the usages of a field one by one.

ghost use Rattle.std.specs.Prelude.{◌≡◌, ◌≤◌, [], ◌∷◌, MatchOption, length, take, drop};
ghost use Rattle.std.specs.Iterator.{YieldsFirst, YieldsFirstBy, item_count};
ghost use Rattle.descriptor_parse.specs.Descriptor.{usage_list};
ghost use Rattle.descriptor_parse.specs.representation.CountsRefine.{RefineTogether};
ghost use Rattle.descriptor_parse.specs.FieldView.{field_view};
ghost use Rattle.descriptor_parse.specs.representation.FieldsLeft.{fields_left, IsNext};
ghost use Rattle.descriptor_parse.specs.representation.Linked.{AreLinked, ends_of};

use crate::descriptor::first_range;
use crate::field::{Field, Kind};
use crate::field_usages::FieldUsages;
use crate::reports::Link;
use std::fmt;
use std::fmt::Debug;
use std::marker::Model;

/// The fields of one report, in order of declaration.
#[derive(Drop)]
pub struct ReportFields<'a> {
    kind: Kind,
    id: u8,
    /// The place of the next field.
    next: u16,
    fields: &'a [Field],
    links: &'a [Link],
    ranges: &'a [(u32, u32)],
    counts: &'a [u32],
}

impl<'a> Model for ReportFields<'a> {
    ghost use Rattle.std.specs.Prelude.{ℕ, List};
    ghost use Rattle.descriptor_parse.specs.declared.field.Field.{Field};
    ghost use Rattle.descriptor_parse.specs.representation.FieldsLeft.{fields_left, IsNext};
    ghost use Rattle.descriptor_parse.specs.representation.CountsRefine.{RefineTogether};
    ghost use Rattle.descriptor_parse.specs.representation.Linked.{AreLinked, ends_of};

    ghost Value = { List (Field × List (ℕ × ℕ)) };

    ghost view = { λ s. fields_left s.kind s.id s.next s.fields.now (ends_of s.links.now) s.ranges.now };

    ghost invariant = { λ s. ∥ RefineTogether 0 (ends_of s.links.now) s.ranges.now s.counts.now ∥₁
        × AreLinked s.fields.now s.links.now × IsNext s.kind s.id s.next s.fields.now };
}

impl<'a> ReportFields<'a> {
    pub(crate) fn new(
        kind: Kind,
        id: u8,
        first: u16,
        fields: &'a [Field],
        links: &'a [Link],
        ranges: &'a [(u32, u32)],
        counts: &'a [u32],
    ) -> ReportFields<'a>
        requires together { ∥ RefineTogether 0 (ends_of links.now) ranges.now counts.now ∥₁ }
        requires linked { AreLinked fields.now links.now }
        requires next { IsNext kind id first fields.now }
        ensures { result ≡ fields_left kind id first fields.now (ends_of links.now) ranges.now }
    {
        ReportFields {
            kind,
            id,
            next: first,
            fields,
            links,
            ranges,
            counts,
        }
    }

    /// The next field, and what is left is without it; `None` past the last.
    fn take(&mut self) -> Option<FieldUsages<'a>>
        ensures { MatchOption result ((self.old ≡ []) × (self.new ≡ [])) (λ f. self.old ≡ field_view f ∷ self.new) }
    {
        let place = self.next as usize;
        let Some(link) = self.links.get(place) else {
            return None;
        };
        let start = first_range(self.links, place);
        let ranges = between(self.ranges, start, link.end);
        let counts = between(self.counts, start, link.end);
        self.next = link.next;
        Some(FieldUsages {
            field: self.fields[place],
            ranges,
            counts,
        })
    }
}

/// The elements from `start` to `end`.
#[inline(always)]
fn between<T>(all: &[T], start: usize, end: usize) -> &[T]
    requires order { start ≤ end }
    requires within { end ≤ length all.now }
    ensures { result.now ≡ drop start (take end all.now) }
{
    let (front, _) = all.split_at(end);
    let (_, wanted) = front.split_at(start);
    wanted
}

impl<'a> Iterator for ReportFields<'a> {
    type Item = FieldUsages<'a>;

    ghost next_gives = { YieldsFirstBy field_view (λ s. s) };

    ghost remaining = { item_count (λ s. s) };

    fn next(&mut self) -> Option<FieldUsages<'a>> {
        self.take()
    }
}

impl Debug for ReportFields<'_> {
    fn fmt<W: fmt::Write>(&self, f: &mut fmt::Formatter<W>) -> fmt::Result {
        f.debug_struct("ReportFields")
            .field("kind", &self.kind)
            .field("id", &self.id)
            .field("next", &self.next)
            .finish_non_exhaustive()
    }
}

/// The usages of a field one by one.
#[derive(Debug, Drop)]
pub struct Usages<'a> {
    /// The next usage and the last of the range in hand, if any is left of it.
    next: u32,
    last: u32,
    in_hand: bool,
    rest: &'a [(u32, u32)],
}

impl<'a> Model for Usages<'a> {
    ghost use Rattle.std.specs.Prelude.{◌≡◌, ℕ, List, ◌+◌, ◌-◌, ◌++◌, ◌≤◌, true, if◌then◌else◌};
    ghost use Rattle.descriptor_parse.specs.Descriptor.{count_up, usage_list};

    ghost Value = { List ℕ };

    ghost view = { λ w. count_up w.next (if w.in_hand then w.last + 1 - w.next else 0) ++ usage_list w.rest.now };

    ghost invariant = { λ w. w.in_hand ≡ true → w.next ≤ w.last };
}

impl<'a> Usages<'a> {
    /// The usages that these ranges make.
    pub fn new(ranges: &'a [(u32, u32)]) -> Usages<'a>
        ensures { result ≡ usage_list ranges.now }
    {
        Usages {
            next: 0,
            last: 0,
            in_hand: false,
            rest: ranges,
        }
    }

    /// The next usage, and what is left is without it; `None` past the last.
    fn take(&mut self) -> Option<u32>
        ensures { MatchOption result ((self.old ≡ []) × (self.new ≡ [])) (λ usage. self.old ≡ usage ∷ self.new) }
    {
        while !self.in_hand {
            let [(first, last), rest @ ..] = self.rest else {
                return None;
            };
            self.next = *first;
            self.last = *last;
            self.in_hand = first <= last;
            self.rest = rest;
        }
        let usage = self.next;
        if usage < self.last {
            self.next = usage + 1;
        } else {
            self.in_hand = false;
        }
        Some(usage)
    }
}

impl<'a> Iterator for Usages<'a> {
    type Item = u32;

    ghost next_gives = { YieldsFirst (λ s. s) };

    ghost remaining = { item_count (λ s. s) };

    fn next(&mut self) -> Option<u32> {
        self.take()
    }
}
