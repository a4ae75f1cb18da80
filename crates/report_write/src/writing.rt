//! A report that is written.

ghost use Rattle.std.specs.Prelude.{ℕ, ◌≡◌, ◌≢◌, ◌*◌, ◌≤◌, length, None, Some, All, IfOk, IfErr};
ghost use Rattle.std.specs.Option.{option_map};
ghost use Rattle.descriptor_parse.specs.Descriptor.{bits_of, report_len};
ghost use Rattle.report_write.specs.declared.setting.WriteError.{WriteError};
ghost use Rattle.report_write.specs.representation.Fits.{FitsKept};
ghost use Rattle.report_write.specs.representation.Hints.{AreHints};
ghost use Rattle.report_write.specs.representation.Known.{IsKnownOf, AreOne};
ghost use Rattle.report_write.specs.Settings.{refusal_at, IsSet, IsAfter, IsRefused};
ghost use Rattle.report_write.specs.Begins.{begin_refusal, given_refusal, IsStart, IsNeverEmpty};
ghost use Rattle.report_write.specs.Written.{IsWritten, IsNotWritten};

use crate::array::set_usage;
use crate::begin::{after_id, copy_of, refuse, with_id, zeros};
use crate::control::{Control, control_by};
use crate::fill::fill;
use crate::hints::{Hints, hints_of, least_of};
use crate::kept::{Kept, kept_fields, usages_of};
use crate::known::{Known, know, known_for};
use crate::place::set_one;
use crate::setting::{Setting, WriteError};
use descriptor_parse::{Descriptor, Kind};
use std::alloc::Global;

/// A report of a kind and ID, 0 where none is used, with these controls set. `null_states` is whether each field of the
/// descriptor has Null State, and one that it has no word of has none.
///
/// Each other bit is that of `onto`, also past the end of the report; in a new report places with Null State are null, where
/// the field has a value for it, places of Arrays name no usage, and the rest is 0. `Memory` is reported only where there is the
/// report, and where `onto` can be written onto.
pub fn write(
    alloc: Global,
    descriptor: &Descriptor,
    null_states: &[bool],
    kind: Kind,
    id: u8,
    settings: &[Setting],
    onto: Option<&[u8]>,
) -> Result<Vec<u8>, WriteError>
    ensures written { IfOk result (λ v. IsWritten descriptor.now null_states.now kind id settings.now (option_map (λ given. given.now) onto.entry) v.items) }
    ensures refused { IfErr result (λ e. e ≢ WriteError.Memory → IsNotWritten descriptor.now null_states.now kind id settings.now (option_map (λ given. given.now) onto.entry) e) }
    ensures memory { IfErr result (λ e. e ≡ WriteError.Memory → begin_refusal descriptor.now id (report_len descriptor.now kind id) (option_map (λ given. given.now) onto.entry) ≡ None) }
{
    let Some(len) = descriptor.report_len(kind, id) else {
        return Err(WriteError::UnknownReport);
    };
    let uses_ids = descriptor.uses_ids();
    if let Some(error) = refuse(uses_ids, id, len, onto) {
        return Err(error);
    }
    let kept = kept_fields(alloc, descriptor, null_states, kind, id)?;
    let mut bytes = start(alloc, descriptor, &kept, kind, id, len, onto)?;
    let mut marks = zeros(alloc, bytes.len())?;
    let hints = hints_of(alloc, descriptor, &kept, settings.len())?;
    let mut known = known_for(alloc, &kept, settings.len())?;
    set_all(
        descriptor, &kept, &hints, &mut known, settings, &mut bytes, &mut marks,
    )?;
    Ok(with_id(uses_ids, id, bytes)?)
}

/// The bytes that settings are written onto, after the ID.
fn start(
    alloc: Global,
    descriptor: &Descriptor,
    kept: &[Kept],
    kind: Kind,
    id: u8,
    len: usize,
    onto: Option<&[u8]>,
) -> Result<Vec<u8>, WriteError>
    requires fit { All (FitsKept descriptor.now (bits_of descriptor.now kind id)) kept.now }
    requires len { report_len descriptor.now kind id ≡ Some len }
    requires taken { given_refusal descriptor.now.uses_ids id len (option_map (λ given. given.now) onto) ≡ None }
    ensures starts { IfOk result (λ v. IsStart descriptor.now kept.now len (option_map (λ given. given.now) onto.entry) v.items) }
    ensures room { IfOk result (λ v. bits_of descriptor.now kind id ≤ 8 * length v.items) }
    ensures refused { IfErr result (λ e. e ≢ WriteError.Memory → (onto.entry ≡ None) × ((field : ℕ) × (e ≡ WriteError.NoUnused field) × IsNeverEmpty descriptor.now kept.now field)) }
{
    match onto {
        Some(given) => Ok(copy_of(alloc, after_id(descriptor.uses_ids(), given))?),
        None => new_report(alloc, descriptor, kept, kind, id, len),
    }
}

/// The bytes of a new report, after its ID.
fn new_report(
    alloc: Global,
    descriptor: &Descriptor,
    kept: &[Kept],
    kind: Kind,
    id: u8,
    len: usize,
) -> Result<Vec<u8>, WriteError>
    requires fit { All (FitsKept descriptor.now (bits_of descriptor.now kind id)) kept.now }
    requires len { report_len descriptor.now kind id ≡ Some len }
    ensures starts { IfOk result (λ v. IsStart descriptor.now kept.now len None v.items) }
    ensures room { IfOk result (λ v. bits_of descriptor.now kind id ≤ 8 * length v.items) }
    ensures refused { IfErr result (λ e. e ≢ WriteError.Memory → (field : ℕ) × (e ≡ WriteError.NoUnused field) × IsNeverEmpty descriptor.now kept.now field) }
{
    let count = if descriptor.uses_ids() { len - 1 } else { len };
    let mut bytes = zeros(alloc, count)?;
    fill(descriptor, kept, &mut bytes)?;
    Ok(bytes)
}

/// Does what all settings ask for, in order.
fn set_all(
    descriptor: &Descriptor,
    kept: &[Kept],
    hints: &Hints,
    known: &mut Known,
    settings: &[Setting],
    bytes: &mut [u8],
    marks: &mut [u8],
) -> Result<(), WriteError>
    requires hints { AreHints descriptor.now kept.now hints.now.fields.items hints.now.ranges.items (length kept.now) }
    requires one { AreOne kept.now }
    requires known { IsKnownOf descriptor.now kept.now bytes.old marks.old known.old.field known.old.free known.old.named.items }
    requires fit { All (FitsKept descriptor.now (8 * length bytes.old)) kept.now }
    requires beside { length marks.old ≡ length bytes.old }
    ensures set { IfOk result (λ _. IsAfter descriptor.now kept.now settings.now bytes.old marks.old (length settings.now) bytes.new marks.new) }
    ensures refused { IfErr result (λ e. IsRefused descriptor.now kept.now settings.now bytes.old marks.old e) }
{
    for number in 0..settings.len() {
        set(
            descriptor,
            kept,
            hints,
            known,
            &settings[number],
            number,
            bytes,
            marks,
        )?;
    }
    Ok(())
}

/// Does what one setting asks for.
fn set(
    descriptor: &Descriptor,
    kept: &[Kept],
    hints: &Hints,
    known: &mut Known,
    setting: &Setting,
    number: usize,
    bytes: &mut [u8],
    marks: &mut [u8],
) -> Result<(), WriteError>
    requires hints { AreHints descriptor.now kept.now hints.now.fields.items hints.now.ranges.items (length kept.now) }
    requires one { AreOne kept.now }
    requires known { IsKnownOf descriptor.now kept.now bytes.old marks.old known.old.field known.old.free known.old.named.items }
    requires fit { All (FitsKept descriptor.now (8 * length bytes.old)) kept.now }
    requires beside { length marks.old ≡ length bytes.old }
    ensures taken { IfOk result (λ _. refusal_at descriptor.now kept.now bytes.old marks.old number setting.now ≡ None) }
    ensures refused { IfErr result (λ e. refusal_at descriptor.now kept.now bytes.old marks.old number setting.now ≡ Some e) }
    ensures set { IfOk result (λ _. IsSet descriptor.now kept.now setting.now bytes.old bytes.new marks.old marks.new) }
    ensures long { IfOk result (λ _. length bytes.new ≡ length bytes.old) }
    ensures marks { IfOk result (λ _. length marks.new ≡ length marks.old) }
    ensures known { IfOk result (λ _. IsKnownOf descriptor.now kept.now bytes.new marks.new known.new.field known.new.free known.new.named.items) }
{
    match control_by(descriptor, kept, hints, setting.target) {
        None => Err(WriteError::Unknown(number)),
        Some(Control::Place(field, place)) => {
            known.field = None;
            set_one(&field, place, setting.asked, number, bytes, marks)
        }
        Some(Control::Usage(field, usage)) => {
            know(
                known,
                field.number,
                &usages_of(descriptor, &field),
                bytes,
                marks,
            );
            set_usage(
                descriptor,
                &field,
                known,
                least_of(&hints.ranges, usage),
                usage,
                setting.asked,
                number,
                bytes,
                marks,
            )
        }
    }
}
