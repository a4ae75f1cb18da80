//! A kept reader.

ghost use Rattle.std.specs.Prelude.{◌≡◌, ◌+◌, ◌<◌, ◌≤◌, ℕ, Bool, List, [], All, IfOk, IfErr, map, length, slice_get, option_map, Some, None, unwrap_or, MatchOption};
ghost use Rattle.descriptor_parse.specs.declared.field.Kind.{Kind};
ghost use Rattle.descriptor_parse.specs.Beside.{IsRefusal};
ghost use Rattle.descriptor_parse.specs.Descriptor.{Describes, report_len};
ghost use Rattle.descriptor_parse.specs.Faults.{IsFaultless, all_items};
ghost use Rattle.field_details.specs.Collections.{collections};
ghost use Rattle.field_details.specs.Details.{details};
ghost use Rattle.field_details.specs.representation.Asked.{placed_view};
ghost use Rattle.field_details.specs.representation.Named.{TellsNames};
ghost use Rattle.host_extract.specs.Found.{id_of, bytes_of};
ghost use Rattle.report_write.specs.Fields.{kept_fields};
ghost use Rattle.report_read.specs.Items.{item_of, null_states_of};
ghost use Rattle.report_read.specs.Values.{reading};
ghost use Rattle.report_read.specs.Refusals.{refusal};
ghost use Rattle.report_read.specs.representation.Lanes.{IsLane};
ghost use Rattle.report_read.specs.representation.Plans.{IsFilled, AreFilled, IsAdded, ArePlans, plan_on};

use crate::error::ReadingError;
use crate::items::{null_states_of, places_of};
use crate::lane::Lane;
use crate::reading::Reading;
use descriptor_parse::beside::Refusal;
use descriptor_parse::{Descriptor, Kind};
use field_details::{Details, Placed, parse_details};
use report_write::kept_at;
use std::alloc::{AllocError, Global};
use std::marker::Model;

/// A report: its bytes, 0 where there is none, and its fields.
#[derive(Debug, Drop)]
pub(crate) struct Plan {
    pub(crate) len: usize,
    pub(crate) lanes: Vec<Lane>,
}

/// The reports of an ID.
#[derive(Debug, Drop)]
pub(crate) struct Plans {
    pub(crate) input: Plan,
    pub(crate) output: Plan,
    pub(crate) feature: Plan,
}

/// A reader of reports that is made once of a descriptor.
#[derive(Drop)]
pub struct ReportReader {
    descriptor: Descriptor,
    details: Details,
    /// The place of each field's item among the data items.
    places: Vec<usize>,
    /// Whether the elements of each field can be null.
    null_states: Vec<bool>,
    /// The reports by their IDs, up to the last ID that a field has.
    by_id: Vec<Plans>,
}

impl Model for ReportReader {
    ghost use Rattle.std.specs.Prelude.{◌≡◌};
    ghost use Rattle.report_read.specs.Items.{places_of, null_states_of};
    ghost use Rattle.report_read.specs.Values.{ReaderValue};
    ghost use Rattle.report_read.specs.representation.Plans.{ArePlans};

    ghost Value = { ReaderValue };

    ghost view = { λ r. record { descriptor = r.descriptor; details = r.details } };

    ghost invariant = { λ r. ArePlans r.descriptor (null_states_of r.details.fields.items) r.by_id.items
        × (r.places.items ≡ places_of r.details.fields.items) × (r.null_states.items ≡ null_states_of r.details.fields.items) };
}

impl ReportReader {
    /// The reader of a report descriptor of at most 4,096 bytes (HID 1.11, 6.2.2).
    ///
    /// The error is the first fault of the text with its offset in bytes, or says that there was no memory.
    pub fn of_text(alloc: Global, text: &[u8]) -> Result<ReportReader, Refusal>
        ensures faultless { IfOk result (λ _. IsFaultless text.now) }
        ensures described { IfOk result (λ r. Describes (all_items text.now) r.descriptor) }
        ensures details { IfOk result (λ r. r.details.fields.items ≡ details (all_items text.now)) }
        ensures collections { IfOk result (λ r. r.details.collections.items ≡ collections (all_items text.now)) }
        ensures names { IfOk result (λ r. TellsNames (all_items text.now) r.details) }
        ensures refused { IfErr result (IsRefusal text.now) }
    {
        let (descriptor, details) = parse_details(alloc, text)?;
        match ReportReader::new(alloc, descriptor, details) {
            Ok(reader) => Ok(reader),
            Err(_) => Err(Refusal::Memory),
        }
    }

    /// The reader of a descriptor with its details.
    fn new(
        alloc: Global,
        descriptor: Descriptor,
        details: Details,
    ) -> Result<ReportReader, AllocError>
        ensures { IfOk result (λ r. r ≡ record { descriptor = descriptor; details = details }) }
    {
        let fields = descriptor.fields().len();
        let places = places_of(alloc, &details, fields)?;
        let null_states = null_states_of(alloc, &details, fields)?;
        let by_id = all_plans(alloc, &descriptor, &null_states)?;
        Ok(ReportReader {
            descriptor,
            details,
            places,
            null_states,
            by_id,
        })
    }

    /// The descriptor.
    #[inline(always)]
    pub fn descriptor(&self) -> &Descriptor
        ensures { result.now ≡ self.now.descriptor }
    {
        &self.descriptor
    }

    /// The details: all data items, padding among them, the collections, and what names them.
    pub fn details(&self) -> &Details
        ensures { result.now ≡ self.now.details }
    {
        &self.details
    }

    /// The item of a field with its place among the data items, by the field's place in `Descriptor::fields`; `None` where there is
    /// no such field.
    #[inline]
    pub fn placed(&self, field: usize) -> Option<Placed<'_>>
        ensures { option_map placed_view result ≡ item_of self.now.details.fields.items field }
    {
        match self.places.get(field) {
            Some(place) => item_at(&self.details, *place),
            None => None,
        }
    }

    /// Whether the elements of each field can be null, by its place in `Descriptor::fields`.
    pub fn null_states(&self) -> &[bool]
        ensures { result.now ≡ null_states_of self.now.details.fields.items }
    {
        &self.null_states
    }

    /// Reads a report of a kind: its values one by one, in the order of its fields and their places. Bytes past its end are
    /// left, as [`Reading::rest`].
    ///
    /// The errors, in this order: `Empty` where there is no byte; `UnknownReport` where there is no report of this kind with the
    /// ID that it begins with; `Short` where it is shorter than its descriptor says.
    #[inline]
    pub fn read<'a>(&'a self, kind: Kind, report: &'a [u8]) -> Result<Reading<'a>, ReadingError>
        ensures read { IfOk result (λ r. r ≡ reading self.now kind report.now) }
        ensures taken { IfOk result (λ _. refusal self.now.descriptor kind report.now ≡ None) }
        ensures refused { IfErr result (λ e. refusal self.now.descriptor kind report.now ≡ Some e) }
    {
        if report.is_empty() {
            return Err(ReadingError::Empty);
        }
        let (id, bytes) = split(&self.descriptor, report);
        let (len, lanes) = self.plan(kind, id);
        if len == 0 {
            return Err(ReadingError::UnknownReport);
        }
        if report.len() < len {
            return Err(ReadingError::Short);
        }
        let (_, rest) = report.split_at(len);
        Ok(Reading::new(id, rest, &self.descriptor, bytes, lanes))
    }

    /// The bytes of a report, 0 where there is none, and its fields.
    #[inline(always)]
    fn plan(&self, kind: Kind, id: u8) -> (usize, &[Lane])
        ensures len { result.0 ≡ unwrap_or (report_len self.now.descriptor kind id) 0 }
        ensures fields { 0 < result.0 → map (λ lane. lane.kept) result.1.now ≡ kept_fields self.now.descriptor (null_states_of self.now.details.fields.items) kind id }
        ensures lanes { All (IsLane self.now.descriptor) result.1.now }
    {
        match self.by_id.get(id as usize) {
            Some(plans) => {
                let plan = plan_on(plans, kind);
                (plan.len, &plan.lanes)
            }
            // Past the last ID that a field has there are reports of padding alone.
            None => (self.descriptor.report_len(kind, id).unwrap_or(0), &[]),
        }
    }
}

/// The data item at a place.
#[inline]
fn item_at(details: &Details, place: usize) -> Option<Placed<'_>>
    ensures { option_map placed_view result ≡ option_map (λ detail. (place, detail)) (slice_get details.now.fields.items place) }
{
    match details.fields.get(place) {
        Some(detail) => Some(Placed { place, detail }),
        None => None,
    }
}

/// The ID of a report, 0 where none is used, and the bytes after it.
#[inline(always)]
pub(crate) fn split<'a>(descriptor: &Descriptor, report: &'a [u8]) -> (u8, &'a [u8])
    ensures id { result.0 ≡ id_of descriptor.now report.now }
    ensures bytes { result.1.now ≡ bytes_of descriptor.now report.now }
{
    if !descriptor.uses_ids() {
        return (0, report);
    }
    match report {
        [id, bytes @ ..] => (*id, bytes),
        [] => (0, report),
    }
}

/// The report of a kind.
#[inline(always)]
fn plan_on(plans: &Plans, kind: Kind) -> &Plan
    ensures { result.now ≡ plan_on kind plans.now }
{
    match kind {
        Kind::Input => &plans.input,
        Kind::Output => &plans.output,
        Kind::Feature => &plans.feature,
    }
}

/// The reports by their IDs, up to the last ID that a field has.
fn all_plans(
    alloc: Global,
    descriptor: &Descriptor,
    null_states: &[bool],
) -> Result<Vec<Plans>, AllocError>
    ensures { IfOk result (λ v. ArePlans descriptor.now null_states.now v.items) }
{
    let mut by_id = empty_plans(alloc, descriptor)?;
    for number in 0..descriptor.fields().len() {
        add_field(descriptor, null_states, number, &mut by_id)?;
    }
    Ok(by_id)
}

/// The reports by their IDs, without their fields.
fn empty_plans(alloc: Global, descriptor: &Descriptor) -> Result<Vec<Plans>, AllocError>
    ensures filled { (null_states : List Bool) → IfOk result (λ v. AreFilled descriptor.now null_states 0 v.items) }
    ensures all { IfOk result (λ v. All (λ field. field.id < length v.items) descriptor.now.fields) }
{
    let rows = rows_of(descriptor);
    let mut by_id = Vec::with_capacity(alloc, rows as usize)?;
    for id in 0..rows {
        by_id.push(Plans {
            input: empty_plan(alloc, descriptor, Kind::Input, id as u8),
            output: empty_plan(alloc, descriptor, Kind::Output, id as u8),
            feature: empty_plan(alloc, descriptor, Kind::Feature, id as u8),
        })?;
    }
    Ok(by_id)
}

/// The report of a kind and ID, without its fields.
fn empty_plan(alloc: Global, descriptor: &Descriptor, kind: Kind, id: u8) -> Plan
    ensures { (null_states : List Bool) → IsFilled descriptor.now null_states kind id 0 result }
{
    Plan {
        len: descriptor.report_len(kind, id).unwrap_or(0),
        lanes: Vec::new(alloc),
    }
}

/// Adds a field to its report, which has those before it.
fn add_field(
    descriptor: &Descriptor,
    null_states: &[bool],
    number: usize,
    by_id: &mut [Plans],
) -> Result<(), AllocError>
    requires there { number < length descriptor.now.fields }
    requires all { All (λ field. field.id < length by_id.old) descriptor.now.fields }
    requires filled { AreFilled descriptor.now null_states.now number by_id.old }
    ensures filled { IfOk result (λ _. AreFilled descriptor.now null_states.now (number + 1) by_id.new) }
    ensures long { length by_id.new ≡ length by_id.old }
{
    let kept = kept_at(descriptor, null_states, number);
    let lane = Lane::new(descriptor, &kept);
    push_lane(&mut by_id[kept.field.id as usize], kept.field.kind, lane)
}

/// Adds a field to the report of a kind.
fn push_lane(plans: &mut Plans, kind: Kind, lane: Lane) -> Result<(), AllocError>
    ensures { IfOk result (λ _. IsAdded kind lane plans.old plans.new) }
{
    match kind {
        Kind::Input => plans.input.lanes.push(lane)?,
        Kind::Output => plans.output.lanes.push(lane)?,
        Kind::Feature => plans.feature.lanes.push(lane)?,
    }
    Ok(())
}

/// How many IDs there are up to the last that a field has.
fn rows_of(descriptor: &Descriptor) -> u16
    ensures few { result ≤ 256 }
    ensures all { All (λ field. field.id < result) descriptor.now.fields }
{
    let mut rows = 0;
    for field in descriptor.fields() {
        rows = rows.max(field.id as u16 + 1);
    }
    rows
}
