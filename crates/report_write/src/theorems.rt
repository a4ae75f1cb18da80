//! Theorems on the definitions.

ghost use Rattle.std.specs.Prelude.{◌≡◌, ◌≢◌, ◌+◌, ◌%◌, ◌^◌, ◌<◌, ℕ, ℤ, List, [], ◌∷◌, Bool, true, Option, Some, length, slice_get, slice_index, if◌then◌else◌, pos};
ghost use Rattle.descriptor_parse.specs.declared.field.Field.{Field};
ghost use Rattle.descriptor_parse.specs.declared.field.Kind.{Kind};
ghost use Rattle.descriptor_parse.specs.Descriptor.{DescriptorValue, ranges_at, usage_list};
ghost use Rattle.host_extract.specs.Found.{value_at, bytes_of, named, reading_at};
ghost use Rattle.host_extract.specs.Numbers.{report_bit};
ghost use Rattle.field_values.specs.declared.null.Asked.{Asked};
ghost use Rattle.field_values.specs.Held.{place_bit};
ghost use Rattle.field_values.specs.Nulls.{asked_value};
ghost use Rattle.field_values.specs.Values.{usage_read};
ghost use Rattle.report_write.specs.declared.kept.Kept.{Kept};
ghost use Rattle.report_write.specs.declared.control.Control.{Control};
ghost use Rattle.report_write.specs.declared.setting.Setting.{Setting};
ghost use Rattle.report_write.specs.declared.setting.Target.{Target};
ghost use Rattle.report_write.specs.Controls.{control_of};
ghost use Rattle.report_write.specs.Fields.{kept_fields};
ghost use Rattle.report_write.specs.Untouched.{IsOutsideFrom, IsLeftFrom};
ghost use Rattle.report_write.specs.Held.{IsNamed, AreHeldIn};
ghost use Rattle.report_write.specs.Written.{IsWritten};

/// Each bit that no setting means is that of the report that is written onto.
pub fn other_bits_stay()
    ensures { (d : DescriptorValue) (null_states : List Bool) (kind : Kind) (id : ℕ) (settings : List Setting) (given report : List ℕ) (bit : ℕ)
        → IsWritten d null_states kind id settings (Some given) report
        → IsOutsideFrom d (kept_fields d null_states kind id) settings 0 bit
        → report_bit (bytes_of d report) bit ≡ report_bit (bytes_of d given) bit }
{}

/// What is read in a place that is set is what was asked for, where no later setting means a bit of it: the value that the
/// place holds, and the usage that is found with it.
pub fn what_is_set_is_read()
    ensures value { (d : DescriptorValue) (null_states : List Bool) (kind : Kind) (id : ℕ) (settings : List Setting) (onto : Option (List ℕ)) (report : List ℕ)
        (number : ℕ) (setting : Setting) (kept : Kept) (place : ℕ)
        → IsWritten d null_states kind id settings onto report
        → slice_get settings number ≡ Some setting
        → control_of d (kept_fields d null_states kind id) setting.target ≡ Some (Control.Place kept place)
        → ((i : ℕ) → i < kept.field.size → IsOutsideFrom d (kept_fields d null_states kind id) settings (number + 1) (place_bit kept.field place + i))
        → asked_value kept.field setting.asked ≡ Some (value_at kept.field (bytes_of d report) place) }
    ensures found { (d : DescriptorValue) (null_states : List Bool) (kind : Kind) (id : ℕ) (settings : List Setting) (onto : Option (List ℕ)) (report : List ℕ)
        (number : ℕ) (setting : Setting) (kept : Kept) (place : ℕ) (usages : List ℕ) (value : ℤ)
        → IsWritten d null_states kind id settings onto report
        → slice_get settings number ≡ Some setting
        → control_of d (kept_fields d null_states kind id) setting.target ≡ Some (Control.Place kept place)
        → ((i : ℕ) → i < kept.field.size → IsOutsideFrom d (kept_fields d null_states kind id) settings (number + 1) (place_bit kept.field place + i))
        → asked_value kept.field setting.asked ≡ Some value
        → reading_at kept.field usages (bytes_of d report) place ≡ named (usage_read kept.field usages place value) (if kept.field.array then pos 1 else value) }
{}

/// A report that is written onto another one is as long.
pub fn lengths_stay()
    ensures { (d : DescriptorValue) (null_states : List Bool) (kind : Kind) (id : ℕ) (settings : List Setting) (given report : List ℕ)
        → IsWritten d null_states kind id settings (Some given) report → length (bytes_of d report) ≡ length (bytes_of d given) }
{}

/// Where a place is set to the value that it holds, the report is the one that was given.
pub fn what_was_read_is_written_back()
    ensures { (d : DescriptorValue) (null_states : List Bool) (kind : Kind) (id : ℕ) (target : Target) (given report : List ℕ) (kept : Kept) (place : ℕ)
        → ((i : ℕ) → slice_index given i < 256) → ((i : ℕ) → slice_index report i < 256)
        → control_of d (kept_fields d null_states kind id) target ≡ Some (Control.Place kept place)
        → IsWritten d null_states kind id (record { target = target; asked = Asked.Value (value_at kept.field (bytes_of d given) place) } ∷ []) (Some given) report
        → report ≡ given }
{}

/// Where each setting asks for what the report that is given holds, the report is that one: of a place for its value, or a null
/// that it holds, of an Array for a usage that is in it.
pub fn what_is_held_is_written_back()
    ensures { (d : DescriptorValue) (null_states : List Bool) (kind : Kind) (id : ℕ) (settings : List Setting) (given report : List ℕ)
        → ((i : ℕ) → slice_index given i < 256) → ((i : ℕ) → slice_index report i < 256)
        → AreHeldIn d (kept_fields d null_states kind id) settings (bytes_of d given)
        → IsWritten d null_states kind id settings (Some given) report
        → report ≡ given }
{}

/// A usage that the list of an Array has once, and that a place names, is in the Array, so that to put it in leaves the report.
pub fn what_is_named_is_in()
    ensures { (field : Field) (usages bytes : List ℕ) (usage place : ℕ) → field.array ≡ true
        → ((one other : ℕ) → slice_get usages one ≡ Some usage → slice_get usages other ≡ Some usage → one ≡ other)
        → place < field.count → usage_read field usages place (value_at field bytes place) ≡ Some usage
        → IsNamed field usages usage bytes }
{}

/// A usage that was put into an Array, where no later setting means a bit of the field: a place names it, and reads it, with
/// the value 1, if its low half is not 0.
pub fn what_is_put_in_is_found()
    ensures { (d : DescriptorValue) (null_states : List Bool) (kind : Kind) (id : ℕ) (settings : List Setting) (onto : Option (List ℕ)) (report : List ℕ)
        (number : ℕ) (setting : Setting) (kept : Kept) (usage : ℕ)
        → IsWritten d null_states kind id settings onto report
        → slice_get settings number ≡ Some setting
        → control_of d (kept_fields d null_states kind id) setting.target ≡ Some (Control.Usage kept usage)
        → setting.asked ≡ Asked.Value (pos 1)
        → IsLeftFrom d (kept_fields d null_states kind id) settings (number + 1) kept
        → (place : ℕ) × (place < kept.field.count)
        × (usage_read kept.field (usage_list (ranges_at d kept.number)) place (value_at kept.field (bytes_of d report) place) ≡ Some usage)
        × (reading_at kept.field (usage_list (ranges_at d kept.number)) (bytes_of d report) place ≡ named (Some usage) (pos 1)) }
{}

/// A usage that was taken out of an Array, where no later setting means a bit of the field and its low half is not 0: no place
/// names it.
pub fn what_is_taken_out_is_gone()
    ensures { (d : DescriptorValue) (null_states : List Bool) (kind : Kind) (id : ℕ) (settings : List Setting) (onto : Option (List ℕ)) (report : List ℕ)
        (number : ℕ) (setting : Setting) (kept : Kept) (usage place : ℕ)
        → IsWritten d null_states kind id settings onto report
        → slice_get settings number ≡ Some setting
        → control_of d (kept_fields d null_states kind id) setting.target ≡ Some (Control.Usage kept usage)
        → setting.asked ≡ Asked.Value (pos 0) → usage % 2 ^ 16 ≢ 0
        → IsLeftFrom d (kept_fields d null_states kind id) settings (number + 1) kept
        → place < kept.field.count
        → usage_read kept.field (usage_list (ranges_at d kept.number)) place (value_at kept.field (bytes_of d report) place) ≢ Some usage }
{}
