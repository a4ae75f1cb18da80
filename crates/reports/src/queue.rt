//! The reports that wait to be sent.

ghost use Rattle.std.specs.Prelude.{◌≡◌, ◌≤◌, ◌++◌, ◌∷◌, [], List, drop, length, slice_get, if◌then◌else◌, is_none, IfOk};
ghost use Rattle.std.specs.Str.{bytes_eq};
ghost use Rattle.std.specs.Option.{option_map};
ghost use Rattle.circular_buffer.specs.Buffer.{keep_last};

use crate::InputReport;
use circular_buffer::HeapCircularBuffer;
use std::alloc::{AllocError, Global};
use std::marker::Model;

/// How many reports can wait.
const ROOM: usize = 8;

/// At most eight reports; where one more comes, the oldest is dropped.
#[derive(Debug, Drop)]
pub(crate) struct Queue {
    ring: HeapCircularBuffer<InputReport>,
}

impl Model for Queue {
    ghost use Rattle.std.specs.Prelude.{◌≡◌, ℕ, List};

    ghost Value = { List (List ℕ) };

    ghost view = { λ q. q.ring.items };

    ghost invariant = { λ q. q.ring.capacity ≡ 8 };
}

impl Queue {
    /// No report, and room for eight.
    pub(crate) fn new(alloc: Global) -> Result<Queue, AllocError>
        ensures { IfOk result (λ q. q ≡ []) }
    {
        let ring = HeapCircularBuffer::with_capacity(alloc, ROOM)?;
        Ok(Queue { ring })
    }

    /// Appends a report.
    pub(crate) fn add(&mut self, report: InputReport)
        ensures { self.new ≡ keep_last 8 (self.old ++ report ∷ []) }
    {
        self.ring.push_back(report);
    }

    /// Whether no report waits.
    pub(crate) fn is_empty(&self) -> bool
        ensures { result ≡ is_none (slice_get self.now 0) }
    {
        self.ring.is_empty()
    }

    /// Takes the report that has waited longest.
    pub(crate) fn pop(&mut self) -> Option<InputReport>
        ensures front { result ≡ slice_get self.old 0 }
        ensures rest { self.new ≡ drop 1 self.old }
    {
        self.ring.pop_front()
    }

    /// Drops all reports.
    pub(crate) fn clear(&mut self)
        ensures { self.new ≡ [] }
    {
        self.ring.clear();
    }
}
