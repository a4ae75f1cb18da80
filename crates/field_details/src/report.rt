//! Reports.

ghost use Rattle.std.specs.Prelude.{◌≡◌, ◌≤◌, ◌<◌, ◌+◌, ◌*◌, [], ◌∷◌, MatchOption, map};
ghost use Rattle.std.specs.Iterator.{YieldsFirst, item_count};
ghost use Rattle.descriptor_parse.specs.Tags.{same_kind};
ghost use Rattle.field_details.specs.representation.Relation.{end_in};
ghost use Rattle.field_details.specs.Reports.{is_of_report, report_named};
ghost use Rattle.field_details.specs.representation.Asked.{left, passes, facts_in};
ghost use Rattle.field_details.specs.declared.placed.Question.{Question};

use crate::collection::Collection;
use crate::detail::Detail;
use crate::placed::{PlacedFields, Question};
use descriptor_parse::Kind;
use std::marker::Model;

/// A report that a descriptor declares.
#[derive(Clone, Copy, Debug, PartialEq, Eq)]
pub struct ReportFacts {
    /// Input, Output or Feature.
    pub kind: Kind,
    /// The Report ID, 0 where none is used.
    pub id: u32,
    /// The bits of its data items, padding among them, without the ID byte.
    pub bits: u64,
}

impl ReportFacts {
    /// The bytes of its data items, rounded up, without the ID byte.
    pub fn bytes(&self) -> u64
        ensures enough { self.now.bits ≤ 8 * result }
        ensures fewest { 8 * result < self.now.bits + 8 }
    {
        if self.bits % 8 == 0 {
            self.bits / 8
        } else {
            self.bits / 8 + 1
        }
    }
}

/// All reports, by their first data items.
#[derive(Debug, Drop)]
pub struct Reports<'a> {
    reported: &'a [Detail],
    firsts: PlacedFields<'a>,
}

impl<'a> Model for Reports<'a> {
    ghost use Rattle.std.specs.Prelude.{List, map};
    ghost use Rattle.field_details.specs.declared.report.ReportFacts.{ReportFacts};
    ghost use Rattle.field_details.specs.representation.Asked.{facts_in};

    ghost Value = { List ReportFacts };

    ghost view = { λ s. map (facts_in s.reported.now) s.firsts };
}

impl<'a> Reports<'a> {
    pub(crate) fn new(reported: &'a [Detail], groups: &'a [Collection]) -> Reports<'a>
        ensures { result ≡ map (facts_in reported.now) (left (passes Question.First reported.now groups.now) reported.now 0) }
    {
        Reports {
            reported,
            firsts: PlacedFields::new(Question::First, reported, groups),
        }
    }

    /// The next one, and what is left is without it; `None` past the last.
    fn take(&mut self) -> Option<ReportFacts>
        ensures { MatchOption result ((self.old ≡ []) × (self.new ≡ [])) (λ facts. self.old ≡ facts ∷ self.new) }
    {
        match self.firsts.next() {
            Some(first) => Some(ReportFacts {
                kind: first.detail.kind,
                id: first.detail.id,
                bits: end_of_report(self.reported, first.detail.kind, first.detail.id),
            }),
            None => None,
        }
    }
}

impl<'a> Iterator for Reports<'a> {
    type Item = ReportFacts;

    ghost next_gives = { YieldsFirst (λ s. s) };

    ghost remaining = { item_count (λ s. s) };

    fn next(&mut self) -> Option<ReportFacts> {
        self.take()
    }
}

/// The reports of an application, kind and ID of each, by their first data items in it.
#[derive(Debug, Drop)]
pub struct ReportsOf<'a> {
    firsts: PlacedFields<'a>,
}

impl<'a> Model for ReportsOf<'a> {
    ghost use Rattle.std.specs.Prelude.{ℕ, List, map};
    ghost use Rattle.descriptor_parse.specs.declared.field.Kind.{Kind};
    ghost use Rattle.field_details.specs.Reports.{report_named};

    ghost Value = { List (Kind × ℕ) };

    ghost view = { λ s. map report_named s.firsts };
}

impl<'a> ReportsOf<'a> {
    pub(crate) fn new(
        reported: &'a [Detail],
        groups: &'a [Collection],
        application: usize,
    ) -> ReportsOf<'a>
        ensures { result ≡ map report_named (left (passes (Question.FirstInside application) reported.now groups.now) reported.now 0) }
    {
        ReportsOf {
            firsts: PlacedFields::new(Question::FirstInside(application), reported, groups),
        }
    }

    /// The next one, and what is left is without it; `None` past the last.
    fn take(&mut self) -> Option<(Kind, u32)>
        ensures { MatchOption result ((self.old ≡ []) × (self.new ≡ [])) (λ report. self.old ≡ report ∷ self.new) }
    {
        match self.firsts.next() {
            Some(first) => Some((first.detail.kind, first.detail.id)),
            None => None,
        }
    }
}

impl<'a> Iterator for ReportsOf<'a> {
    type Item = (Kind, u32);

    ghost next_gives = { YieldsFirst (λ s. s) };

    ghost remaining = { item_count (λ s. s) };

    fn next(&mut self) -> Option<(Kind, u32)> {
        self.take()
    }
}

/// The bit after the last of these data items that is of a report, 0 if none is.
pub(crate) fn end_of_report(reported: &[Detail], kind: Kind, id: u32) -> u64
    ensures { result ≡ end_in kind id reported.now }
{
    let mut rest = reported;
    // Mostly it is the last one of all.
    while let Some((last, front)) = rest.split_last() {
        if is_of_report(last, kind, id) {
            return last.end();
        }
        rest = front;
    }
    0
}

/// Whether a data item is of a report.
pub(crate) fn is_of_report(detail: &Detail, kind: Kind, id: u32) -> bool
    ensures { result ≡ is_of_report kind id detail.now }
{
    same_kind(kind, detail.kind) && detail.id == id
}

fn same_kind(a: Kind, b: Kind) -> bool
    ensures { result ≡ same_kind a b }
{
    match (a, b) {
        (Kind::Input, Kind::Input) => true,
        (Kind::Output, Kind::Output) => true,
        (Kind::Feature, Kind::Feature) => true,
        _ => false,
    }
}
