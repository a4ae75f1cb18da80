//! The bytes that one report has, those that were sent last of it, and when.

ghost use Rattle.std.specs.Prelude.{◌≡◌, ◌+◌, ◌*◌, ◌==◌, ◌&&◌, ◌++◌, ◌∷◌, [], min, not, nat_le, ℕ, false, if◌then◌else◌};
ghost use Rattle.std.specs.Str.{bytes_eq};
ghost use Rattle.circular_buffer.specs.Buffer.{keep_last};
ghost use Rattle.reports.specs.Wanted.{wanted};

use crate::idle::Idle;
use crate::queue::Queue;
use crate::{Input, InputReport};
use std::marker::Model;

/// The bytes that a report has, those that were sent last of it, and how long ago.
#[derive(Debug, Drop)]
pub(crate) struct Sent {
    bytes: InputReport,
    /// The bytes that the report has, as they were made last.
    made: InputReport,
    /// Whether they are not those sent last.
    changed: bool,
    /// The scans since then, counted to 65,535, which is more than any idle value needs.
    age: u16,
}

impl Model for Sent {
    ghost use Rattle.std.specs.Prelude.{◌≡◌, not};
    ghost use Rattle.std.specs.Str.{bytes_eq};
    ghost use Rattle.reports.specs.representation.Kept.{SentValue};

    ghost Value = { SentValue };

    ghost view = { λ s. record { bytes = s.bytes; made = s.made; age = s.age } };

    ghost invariant = { λ s. s.changed ≡ not (bytes_eq s.made s.bytes) };
}

impl Sent {
    /// The bytes for no usages, made and sent now.
    #[tactic(auto, using(crate::proofs::Changes::unchanged))]
    pub(crate) fn unused(input: Input) -> Sent
        ensures bytes { result.bytes ≡ wanted (λ _. false) (λ _. false) input }
        ensures made { result.made ≡ wanted (λ _. false) (λ _. false) input }
        ensures age { result.age ≡ 0 }
    {
        Sent {
            bytes: InputReport::unused(input),
            made: InputReport::unused(input),
            changed: false,
            age: 0,
        }
    }

    /// Takes the passing of one scan.
    pub(crate) fn tick(&mut self)
        ensures bytes { self.new.bytes ≡ self.old.bytes }
        ensures made { self.new.made ≡ self.old.made }
        ensures age { (scans : ℕ) → self.old.age ≡ min 65535 scans → self.new.age ≡ min 65535 (scans + 1) }
    {
        self.age = self.age.saturating_add(1);
    }

    /// Takes the bytes that the report has from now on.
    pub(crate) fn make(&mut self, made: InputReport)
        ensures bytes { self.new.bytes ≡ self.old.bytes }
        ensures made { self.new.made ≡ made }
        ensures age { self.new.age ≡ self.old.age }
    {
        self.changed = !made.is_same(&self.bytes);
        self.made = made;
    }

    /// Takes the bytes that the report has from now on, which wait where they are not those that it had.
    pub(crate) fn turn(&mut self, now: InputReport, queue: &mut Queue)
        ensures bytes { self.new.bytes ≡ self.old.bytes }
        ensures made { self.new.made ≡ now }
        ensures age { self.new.age ≡ self.old.age }
        ensures queue { queue.new ≡ (if bytes_eq self.old.made now then queue.old else keep_last 8 (queue.old ++ now ∷ [])) }
    {
        if !self.made.is_same(&now) {
            queue.add(now.copy());
            self.make(now);
        }
    }

    /// The bytes that the report has.
    pub(crate) fn made(&self) -> &InputReport
        ensures { result.now ≡ self.now.made }
    {
        &self.made
    }

    /// Whether they are not those sent last.
    pub(crate) fn is_changed(&self) -> bool
        ensures { result ≡ not (bytes_eq self.now.made self.now.bytes) }
    {
        self.changed
    }

    /// Whether the report is to be sent again at this idle value: it is not 0, and as long has passed.
    pub(crate) fn is_elapsed(&self, idle: &Idle) -> bool
        ensures { (scans : ℕ) → self.now.age ≡ min 65535 scans
            → result ≡ (not (idle.now == 0) && nat_le (4 * idle.now) scans) }
    {
        idle.has_passed(self.age)
    }

    /// Counts these bytes as sent now.
    pub(crate) fn send(&mut self, bytes: InputReport)
        ensures bytes { self.new.bytes ≡ bytes }
        ensures made { self.new.made ≡ self.old.made }
        ensures age { self.new.age ≡ 0 }
    {
        self.changed = !self.made.is_same(&bytes);
        self.bytes = bytes;
        self.age = 0;
    }
}
