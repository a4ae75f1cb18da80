//! Data items with their places, by what is asked for.

ghost use Rattle.std.specs.Prelude.{◌≡◌, ◌<◌, ◌≤◌, ◌+◌, [], ◌∷◌, MatchOption, length};
ghost use Rattle.std.specs.List.{list_any};
ghost use Rattle.std.specs.Iterator.{YieldsFirstBy, item_count};
ghost use Rattle.field_details.specs.Reports.{is_of_report, is_inside, has_inside};
ghost use Rattle.field_details.specs.representation.Asked.{application_in, placed_view, left, passes};

use crate::around::application_of;
use crate::collection::Collection;
use crate::detail::Detail;
use crate::report::is_of_report;
use descriptor_parse::Kind;
use std::marker::Model;

/// A data item with its place among all of a descriptor.
#[derive(Clone, Copy, Debug, PartialEq, Eq)]
pub struct Placed<'a> {
    /// The place in [`Details::fields`](crate::Details::fields).
    pub place: usize,
    /// What it declares.
    pub detail: &'a Detail,
}

/// Which data items are asked for.
#[derive(Clone, Copy, Debug)]
pub(crate) enum Question {
    /// Those that are not Constant.
    Data,
    /// Those that are.
    Padding,
    /// Those of a report.
    Report(Kind, u32),
    /// The first of each report.
    First,
    /// The first of each report among those of an application.
    FirstInside(usize),
}

/// Data items with their places, in order.
#[derive(Debug, Drop)]
pub struct PlacedFields<'a> {
    question: Question,
    reported: &'a [Detail],
    groups: &'a [Collection],
    /// The place of the next one that may be asked for.
    next: usize,
}

impl<'a> Model for PlacedFields<'a> {
    ghost use Rattle.std.specs.Prelude.{ℕ, List};
    ghost use Rattle.field_details.specs.declared.detail.Detail.{Detail};
    ghost use Rattle.field_details.specs.representation.Asked.{left, passes};

    ghost Value = { List (ℕ × Detail) };

    ghost view = { λ s. left (passes s.question s.reported.now s.groups.now) s.reported.now s.next };
}

impl<'a> PlacedFields<'a> {
    pub(crate) fn new(
        question: Question,
        reported: &'a [Detail],
        groups: &'a [Collection],
    ) -> PlacedFields<'a>
        ensures { result ≡ left (passes question reported.now groups.now) reported.now 0 }
    {
        PlacedFields {
            question,
            reported,
            groups,
            next: 0,
        }
    }

    /// The next one, and what is left is without it; `None` past the last.
    fn take(&mut self) -> Option<Placed<'a>>
        ensures { MatchOption result ((self.old ≡ []) × (self.new ≡ [])) (λ placed. self.old ≡ placed_view placed ∷ self.new) }
    {
        let found = first_from(self.question, self.reported, self.groups, self.next);
        match found {
            Some(placed) => self.next = placed.place + 1,
            None => {}
        }
        found
    }
}

impl<'a> Iterator for PlacedFields<'a> {
    type Item = Placed<'a>;

    ghost next_gives = { YieldsFirstBy placed_view (λ s. s) };

    ghost remaining = { item_count (λ s. s) };

    fn next(&mut self) -> Option<Placed<'a>> {
        self.take()
    }
}

/// The first data item from a place on that is asked for.
fn first_from<'a>(
    question: Question,
    reported: &'a [Detail],
    groups: &[Collection],
    from: usize,
) -> Option<Placed<'a>>
    ensures { MatchOption result (left (passes question reported.now groups.now) reported.now from ≡ []) (λ p. (p.place < length reported.now)
        × (left (passes question reported.now groups.now) reported.now from ≡ placed_view p ∷ left (passes question reported.now groups.now) reported.now (p.place + 1))) }
{
    let mut place = from;
    while let Some(detail) = reported.get(place) {
        if passes(question, reported, groups, place, detail) {
            return Some(Placed { place, detail });
        }
        place += 1;
    }
    None
}

/// Whether a data item is asked for.
fn passes(
    question: Question,
    reported: &[Detail],
    groups: &[Collection],
    place: usize,
    detail: &Detail,
) -> bool
    requires { place < length reported.now }
    ensures { result ≡ passes question reported.now groups.now (place, detail.now) }
{
    match question {
        Question::Data => !detail.is_constant(),
        Question::Padding => detail.is_constant(),
        Question::Report(kind, id) => is_of_report(detail, kind, id),
        Question::First => !has_report(reported.split_at(place).0, detail.kind, detail.id),
        Question::FirstInside(number) => {
            let front = reported.split_at(place).0;
            is_inside(reported, groups, number, place)
                && !has_inside(front, reported, groups, number, detail.kind, detail.id)
        }
    }
}

/// Whether one of these data items is of a report.
fn has_report(front: &[Detail], kind: Kind, id: u32) -> bool
    ensures { result ≡ list_any (is_of_report kind id) front.now }
{
    let mut rest = front;
    while let Some((first, behind)) = rest.split_first() {
        if is_of_report(first, kind, id) {
            return true;
        }
        rest = behind;
    }
    false
}

/// Whether the data item at a place belongs to an application.
fn is_inside(reported: &[Detail], groups: &[Collection], number: usize, place: usize) -> bool
    ensures { result ≡ is_inside (application_in reported.now groups.now) number place }
{
    match application_of(reported, groups, place) {
        Some(application) => application == number,
        None => false,
    }
}

/// Whether one of the data items in front is of a report and belongs to an application.
pub(crate) fn has_inside(
    front: &[Detail],
    reported: &[Detail],
    groups: &[Collection],
    number: usize,
    kind: Kind,
    id: u32,
) -> bool
    ensures { result ≡ has_inside (application_in reported.now groups.now) number kind id front.now }
{
    let mut place = 0;
    while let Some(detail) = front.get(place) {
        if is_of_report(detail, kind, id) && is_inside(reported, groups, number, place) {
            return true;
        }
        place += 1;
    }
    false
}
