//! Application collections.

ghost use Rattle.std.specs.Prelude.{◌≡◌, ◌<◌, ◌+◌, [], ◌∷◌, MatchOption, length};
ghost use Rattle.std.specs.Iterator.{YieldsFirstBy, item_count};
ghost use Rattle.field_details.specs.representation.Asked.{left, belongs, group_view};

use crate::collection::Collection;
use crate::detail::Detail;
use crate::placed::has_inside;
use descriptor_parse::Kind;
use std::marker::Model;

/// Application collections with their numbers, in order.
#[derive(Debug, Drop)]
pub struct Applications<'a> {
    /// The report that they are of, if one is asked for.
    of: Option<(Kind, u32)>,
    reported: &'a [Detail],
    groups: &'a [Collection],
    /// The number of the next one that may be asked for.
    next: usize,
}

impl<'a> Model for Applications<'a> {
    ghost use Rattle.std.specs.Prelude.{ℕ, List};
    ghost use Rattle.field_details.specs.declared.collection.Collection.{Collection};
    ghost use Rattle.field_details.specs.representation.Asked.{left, belongs};

    ghost Value = { List (ℕ × Collection) };

    ghost view = { λ s. left (belongs s.of s.reported.now s.groups.now) s.groups.now s.next };
}

impl<'a> Applications<'a> {
    pub(crate) fn new(
        of: Option<(Kind, u32)>,
        reported: &'a [Detail],
        groups: &'a [Collection],
    ) -> Applications<'a>
        ensures { result ≡ left (belongs of reported.now groups.now) groups.now 0 }
    {
        Applications {
            of,
            reported,
            groups,
            next: 0,
        }
    }

    /// The next one, and what is left is without it; `None` past the last.
    fn take(&mut self) -> Option<(usize, &'a Collection)>
        ensures { MatchOption result ((self.old ≡ []) × (self.new ≡ [])) (λ group. self.old ≡ group_view group ∷ self.new) }
    {
        let found = first_from(self.of, self.reported, self.groups, self.next);
        match found {
            Some((number, _)) => self.next = number + 1,
            None => {}
        }
        found
    }
}

impl<'a> Iterator for Applications<'a> {
    type Item = (usize, &'a Collection);

    ghost next_gives = { YieldsFirstBy group_view (λ s. s) };

    ghost remaining = { item_count (λ s. s) };

    fn next(&mut self) -> Option<(usize, &'a Collection)> {
        self.take()
    }
}

/// The first collection from a number on that is asked for.
fn first_from<'a>(
    of: Option<(Kind, u32)>,
    reported: &[Detail],
    groups: &'a [Collection],
    from: usize,
) -> Option<(usize, &'a Collection)>
    ensures { MatchOption result (left (belongs of reported.now groups.now) groups.now from ≡ []) (λ g. (g.0 < length groups.now)
        × (left (belongs of reported.now groups.now) groups.now from ≡ group_view g ∷ left (belongs of reported.now groups.now) groups.now (g.0 + 1))) }
{
    let mut number = from;
    while let Some(group) = groups.get(number) {
        if belongs(of, reported, groups, number, group) {
            return Some((number, group));
        }
        number += 1;
    }
    None
}

/// Whether a collection is asked for.
fn belongs(
    of: Option<(Kind, u32)>,
    reported: &[Detail],
    groups: &[Collection],
    number: usize,
    group: &Collection,
) -> bool
    ensures { result ≡ belongs of reported.now groups.now (number, group.now) }
{
    match of {
        Some((kind, id)) => {
            group.is_application() && has_inside(reported, reported, groups, number, kind, id)
        }
        None => group.is_application(),
    }
}
