//! The values of a report one by one.

ghost use Rattle.std.specs.Prelude.{◌≡◌, ◌<◌, [], ◌∷◌, All, MatchOption};
ghost use Rattle.std.specs.Iterator.{YieldsFirst, item_count};
ghost use Rattle.report_read.specs.representation.Lanes.{IsLane, values_of_lanes};

use crate::lane::Lane;
use crate::value::Value;
use descriptor_parse::Descriptor;
use std::fmt;
use std::fmt::Debug;
use std::marker::Model;

/// The values of a report one by one, in the order of its fields and their places.
#[derive(Drop)]
pub struct Reading<'a> {
    id: u8,
    rest: &'a [u8],
    descriptor: &'a Descriptor,
    bytes: &'a [u8],
    /// What is left, and the next place of the first of it.
    lanes: &'a [Lane],
    place: u16,
}

impl<'a> Model for Reading<'a> {
    ghost use Rattle.std.specs.Prelude.{All, drop};
    ghost use Rattle.report_read.specs.Values.{ReadingValue};
    ghost use Rattle.report_read.specs.representation.Lanes.{IsLane, IsPlace, values_of_lanes};

    ghost Value = { ReadingValue };

    ghost view = { λ r. record { id = r.id; rest = r.rest.now; left = drop r.place (values_of_lanes r.descriptor.now r.bytes.now r.lanes.now) } };

    ghost invariant = { λ r. All (IsLane r.descriptor.now) r.lanes.now × IsPlace r.place r.lanes.now };
}

impl<'a> Reading<'a> {
    #[inline(always)]
    pub(crate) fn new(
        id: u8,
        rest: &'a [u8],
        descriptor: &'a Descriptor,
        bytes: &'a [u8],
        lanes: &'a [Lane],
    ) -> Reading<'a>
        requires { All (IsLane descriptor.now) lanes.now }
        ensures { result ≡ record { id = id; rest = rest.now; left = values_of_lanes descriptor.now bytes.now lanes.now } }
    {
        Reading {
            id,
            rest,
            descriptor,
            bytes,
            lanes,
            place: 0,
        }
    }

    /// The Report ID, 0 where none is used.
    pub fn id(&self) -> u8
        ensures { result ≡ self.now.id }
    {
        self.id
    }

    /// The bytes past the end of the report; none where it is as long as its descriptor declares.
    pub fn rest(&self) -> &'a [u8]
        ensures { result.now ≡ self.now.rest }
    {
        self.rest
    }

    /// The next value, and what is left is without it; `None` past the last.
    #[inline(always)]
    fn take(&mut self) -> Option<Value>
        ensures value { MatchOption result ((self.old.left ≡ []) × (self.new.left ≡ [])) (λ v. self.old.left ≡ v ∷ self.new.left) }
        ensures same { (self.new.id ≡ self.old.id) × (self.new.rest ≡ self.old.rest) }
    {
        let [lane, lanes @ ..] = self.lanes else {
            return None;
        };
        let place = self.place;
        let value = lane.value(self.descriptor, self.bytes, place);
        if place + 1 < lane.kept.field.count {
            self.place = place + 1;
        } else {
            self.lanes = lanes;
            self.place = 0;
        }
        Some(value)
    }
}

impl<'a> Iterator for Reading<'a> {
    type Item = Value;

    ghost next_gives = { λ s r t. YieldsFirst (λ x. x.left) s r t × (t.id ≡ s.id) × (t.rest ≡ s.rest) };

    ghost remaining = { item_count (λ s. s.left) };

    #[inline]
    fn next(&mut self) -> Option<Value> {
        self.take()
    }
}

impl Debug for Reading<'_> {
    fn fmt<W: fmt::Write>(&self, f: &mut fmt::Formatter<W>) -> fmt::Result {
        f.debug_struct("Reading")
            .field("id", &self.id)
            .field("rest", &self.rest)
            .field("place", &self.place)
            .finish_non_exhaustive()
    }
}
