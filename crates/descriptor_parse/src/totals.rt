//! The bits of each report, and where its fields begin.

ghost use Rattle.std.specs.Prelude.{◌≡◌, ◌≢◌, ◌+◌, ◌-◌, ◌^◌, ◌<◌, ◌≤◌, ℕ, map, min, IfOk, OnOk, OnErr, length, slice_index_or, if◌then◌else◌, ◌&&◌, ◌==◌};
ghost use Rattle.descriptor_parse.specs.Tags.{same_kind};
ghost use Rattle.descriptor_parse.specs.declared.field.Kind.{Kind};
ghost use Rattle.descriptor_parse.specs.Descriptor.{bits_on, no_bits};
ghost use Rattle.descriptor_parse.specs.Readers.{is_of_report};
ghost use Rattle.descriptor_parse.specs.representation.Totals.{bits_in, first_in, first_on, no_field, no_reports};

use crate::field::{Field, Kind};
use std::alloc::{AllocError, Global};

/// How many IDs the table has room for at first.
const FIRST_IDS: usize = 16;

/// No place of a field: it is past the last.
pub(crate) const NO_FIELD: u16 = u16::MAX;

/// The bits of the reports of one ID.
#[derive(Clone, Copy)]
pub(crate) struct ReportBits {
    pub(crate) input: u64,
    pub(crate) output: u64,
    pub(crate) feature: u64,
}

impl ReportBits {
    const NONE: ReportBits = ReportBits {
        input: 0,
        output: 0,
        feature: 0,
    };

    /// The bits of the report of this kind.
    pub(crate) fn of(self, kind: Kind) -> u64
        ensures { result ≡ bits_on kind self }
    {
        match kind {
            Kind::Input => self.input,
            Kind::Output => self.output,
            Kind::Feature => self.feature,
        }
    }

    /// Adds to the bits of the report of this kind, and gives those that were.
    #[inline(always)]
    fn add(&mut self, kind: Kind, more: u64) -> u64
        ensures was { result ≡ bits_on kind self.old }
        ensures bits { (k : Kind) → bits_on k self.new ≡ (if same_kind k kind then min (2 ^ 64 - 1) (bits_on k self.old + more) else bits_on k self.old) }
    {
        match kind {
            Kind::Input => {
                let was = self.input;
                self.input = was.saturating_add(more);
                was
            }
            Kind::Output => {
                let was = self.output;
                self.output = was.saturating_add(more);
                was
            }
            Kind::Feature => {
                let was = self.feature;
                self.feature = was.saturating_add(more);
                was
            }
        }
    }
}

/// The first fields of the reports of one ID.
#[derive(Clone, Copy)]
pub(crate) struct FirstFields {
    pub(crate) input: u16,
    pub(crate) output: u16,
    pub(crate) feature: u16,
}

impl FirstFields {
    const NONE: FirstFields = FirstFields {
        input: NO_FIELD,
        output: NO_FIELD,
        feature: NO_FIELD,
    };

    /// The first field of the report of this kind.
    fn of(self, kind: Kind) -> u16
        ensures { result ≡ first_on kind self }
    {
        match kind {
            Kind::Input => self.input,
            Kind::Output => self.output,
            Kind::Feature => self.feature,
        }
    }

    /// Makes a field the first of the report of this kind, and gives the one that was.
    #[inline(always)]
    fn lead(&mut self, kind: Kind, place: u16) -> u16
        ensures was { result ≡ first_on kind self.old }
        ensures first { (k : Kind) → first_on k self.new ≡ (if same_kind kind k then place else first_on k self.old) }
    {
        match kind {
            Kind::Input => {
                let was = self.input;
                self.input = place;
                was
            }
            Kind::Output => {
                let was = self.output;
                self.output = place;
                was
            }
            Kind::Feature => {
                let was = self.feature;
                self.feature = place;
                was
            }
        }
    }
}

/// The reports of one ID.
#[derive(Clone, Copy)]
pub(crate) struct IdReports {
    pub(crate) bits: ReportBits,
    pub(crate) first: FirstFields,
}

impl IdReports {
    const NONE: IdReports = IdReports {
        bits: ReportBits::NONE,
        first: FirstFields::NONE,
    };
}

/// The bits of each report and its first field, by ID; a report that is not there has none.
#[derive(Clone, Drop)]
pub(crate) struct Totals {
    pub(crate) by_id: Vec<IdReports>,
}

impl Totals {
    pub(crate) fn new(alloc: Global) -> Totals
        ensures bits { (kind : Kind) (id : ℕ) → bits_in result kind id ≡ 0 }
        ensures first { (kind : Kind) (id : ℕ) → first_in result kind id ≡ no_field }
    {
        Totals {
            by_id: Vec::new(alloc),
        }
    }

    /// The bits of a report.
    pub(crate) fn bits(&self, kind: Kind, id: u8) -> u64
        ensures { result ≡ bits_in self.now kind id }
    {
        match self.by_id.get(id as usize) {
            Some(reports) => reports.bits.of(kind),
            None => 0,
        }
    }

    /// The first field of a report.
    pub(crate) fn first(&self, kind: Kind, id: u8) -> u16
        ensures { result ≡ first_in self.now kind id }
    {
        match self.by_id.get(id as usize) {
            Some(reports) => reports.first.of(kind),
            None => NO_FIELD,
        }
    }

    /// Makes a field the first of its report, and gives the one that was.
    #[inline(always)]
    pub(crate) fn lead(&mut self, field: &Field, place: u16) -> u16
        requires { field.now.id < length self.old.by_id.items }
        ensures was { result ≡ first_in self.old field.now.kind field.now.id }
        ensures first { (k : Kind) (i : ℕ) → first_in self.new k i ≡ (if is_of_report k i field.now then place else first_in self.old k i) }
        ensures bits { map (λ r. r.bits) self.new.by_id.items ≡ map (λ r. r.bits) self.old.by_id.items }
        ensures same { length self.new.by_id.items ≡ length self.old.by_id.items }
    {
        self.by_id[field.id as usize].first.lead(field.kind, place)
    }

    /// Adds to the bits of a report, and gives those that were; to add none takes no memory.
    #[inline(always)]
    pub(crate) fn add(&mut self, kind: Kind, id: u8, more: u64) -> Result<u64, AllocError>
        ensures was { IfOk result (λ was. was ≡ bits_in self.old kind id) }
        ensures added { OnOk result ((k : Kind) (i : ℕ) → bits_in self.old k i < 2 ^ 64 → bits_in self.new k i
            ≡ (if same_kind k kind && id == i then min (2 ^ 64 - 1) (bits_in self.old k i + more) else bits_in self.old k i)) }
        ensures first { OnOk result ((k : Kind) (i : ℕ) → first_in self.new k i ≡ first_in self.old k i) }
        ensures refused { OnErr result (0 < more) }
    {
        if more == 0 {
            return Ok(self.bits(kind, id));
        }
        let place = id as usize;
        self.fill_to(place)?;
        Ok(self.by_id[place].bits.add(kind, more))
    }

    /// Lengthens the table, by IDs without reports, until it has this place.
    #[inline(always)]
    #[tactic(auto, using(crate::proofs::TotalLemmas::padded))]
    fn fill_to(&mut self, place: usize) -> Result<(), AllocError>
        ensures long { OnOk result (place < length self.new.by_id.items) }
        ensures same { OnOk result ((i : ℕ) → slice_index_or self.new.by_id.items i no_reports ≡ slice_index_or self.old.by_id.items i no_reports) }
    {
        if self.by_id.is_empty() {
            self.by_id.reserve(FIRST_IDS)?;
        }
        while self.by_id.len() <= place {
            self.by_id.push(IdReports::NONE)?;
        }
        Ok(())
    }
}
