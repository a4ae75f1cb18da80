//! The collections around a data item, by the numbers that are reported.

ghost use Rattle.std.specs.Prelude.{◌≡◌, ◌≤◌, [], ◌∷◌, MatchOption, length, reverse, take, slice_get, option_and_then};
ghost use Rattle.std.specs.Iterator.{YieldsFirst, item_count};
ghost use Rattle.field_details.specs.Around.{is_application, less_than, inside_in};
ghost use Rattle.field_details.specs.representation.Around.{outer_in};
ghost use Rattle.field_details.specs.representation.Asked.{all_outwards, application_in};

use crate::collection::Collection;
use crate::detail::Detail;
use std::marker::Model;

/// The innermost collection around a data item.
pub(crate) fn inside(reported: &[Detail], place: usize) -> Option<usize>
    ensures { result ≡ inside_in reported.now place }
{
    match reported.get(place) {
        Some(detail) => detail.inside,
        None => None,
    }
}

/// The collection right around one: it began before.
pub(crate) fn outer(groups: &[Collection], number: usize) -> Option<usize>
    ensures { result ≡ outer_in groups.now number }
{
    match groups.get(number) {
        Some(group) => less(group.outer, number),
        None => None,
    }
}

/// A number, if it is less than this.
fn less(outer: Option<usize>, number: usize) -> Option<usize>
    ensures { result ≡ option_and_then (less_than number) outer }
{
    match outer {
        Some(outer) if outer < number => Some(outer),
        _ => None,
    }
}

fn is_application(groups: &[Collection], number: usize) -> bool
    ensures { result ≡ is_application groups.now number }
{
    match groups.get(number) {
        Some(group) => group.is_application(),
        None => false,
    }
}

/// The innermost Application collection around a data item.
pub(crate) fn application_of(
    reported: &[Detail],
    groups: &[Collection],
    place: usize,
) -> Option<usize>
    ensures { result ≡ application_in reported.now groups.now place }
{
    let mut next = inside(reported, place);
    while let Some(number) = next {
        if is_application(groups, number) {
            return Some(number);
        }
        next = outer(groups, number);
    }
    None
}

/// How many collections stand outwards from one, it among them.
fn depth(groups: &[Collection], inner: Option<usize>) -> usize
    ensures { result ≡ length (all_outwards groups.now inner) }
{
    // No way outwards is longer.
    let most = groups.len() + 1;
    let mut left = most;
    let mut next = inner;
    while let Some(number) = next {
        left -= 1;
        next = outer(groups, number);
    }
    most - left
}

/// The collection that stands outwards from one by a number of steps.
fn outwards(groups: &[Collection], inner: Option<usize>, steps: usize) -> Option<usize>
    ensures { result ≡ slice_get (all_outwards groups.now inner) steps }
{
    let mut left = steps;
    let mut next = inner;
    while let Some(number) = next {
        if left == 0 {
            return next;
        }
        left -= 1;
        next = outer(groups, number);
    }
    None
}

/// The numbers of the collections around a data item, outermost first.
#[derive(Debug, Drop)]
pub struct Around<'a> {
    groups: &'a [Collection],
    /// The innermost.
    inner: Option<usize>,
    /// How many are left.
    left: usize,
}

impl<'a> Model for Around<'a> {
    ghost use Rattle.std.specs.Prelude.{ℕ, List, ◌≤◌, length, reverse, take};
    ghost use Rattle.field_details.specs.representation.Asked.{all_outwards};

    ghost Value = { List ℕ };

    ghost view = { λ s. reverse (take s.left (all_outwards s.groups.now s.inner)) };

    ghost invariant = { λ s. s.left ≤ length (all_outwards s.groups.now s.inner) };
}

impl<'a> Around<'a> {
    /// Those around a data item.
    pub(crate) fn new(reported: &[Detail], groups: &'a [Collection], place: usize) -> Around<'a>
        ensures { result ≡ reverse (all_outwards groups.now (inside_in reported.now place)) }
    {
        let inner = inside(reported, place);
        Around {
            groups,
            inner,
            left: depth(groups, inner),
        }
    }

    /// The next one, and what is left is without it; `None` past the last.
    fn take(&mut self) -> Option<usize>
        ensures { MatchOption result ((self.old ≡ []) × (self.new ≡ [])) (λ number. self.old ≡ number ∷ self.new) }
    {
        if self.left == 0 {
            return None;
        }
        self.left -= 1;
        outwards(self.groups, self.inner, self.left)
    }
}

impl<'a> Iterator for Around<'a> {
    type Item = usize;

    ghost next_gives = { YieldsFirst (λ s. s) };

    ghost remaining = { item_count (λ s. s) };

    fn next(&mut self) -> Option<usize> {
        self.take()
    }
}
