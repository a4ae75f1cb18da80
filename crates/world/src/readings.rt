//! What a host reads in the keyboard's input reports is what they were to say: a theorem over the definitions of the bytes
//! that the keyboard sends, of its report descriptor, and of what a host reads by a descriptor.
//!
//! Nothing is kept, and nothing runs: the functions have empty bodies, and their contracts are the theorem. A session takes it
//! for its reports.
ghost use Rattle.std.specs.Prelude.{◌≡◌, ℕ, Bool, length, None, true};
ghost use Rattle.descriptor_build.specs.Served.{report_bytes};
ghost use Rattle.descriptor_parse.specs.Descriptor.{DescriptorValue, Describes};
ghost use Rattle.descriptor_parse.specs.Faults.{IsFaultless, all_items};
ghost use Rattle.descriptor_parse.specs.Fields.{fields, field_usages};
ghost use Rattle.host.specs.Faultless.{is_faultless};
ghost use Rattle.host_extract.specs.Boot.{boot_descriptor_bytes};
ghost use Rattle.host_extract.specs.Found.{found};
ghost use Rattle.host_extract.specs.Pressed.{ArePressed};
ghost use Rattle.host_extract.specs.Refusals.{refusal};
ghost use Rattle.reports.specs.Wanted.{wanted};
ghost use Rattle.world.specs.DescriptorFields.{boot_fields, boot_usages, served_fields, served_usages};
ghost use Rattle.world.specs.Texts.{text_of};
ghost use Rattle.world.specs.Usages.{wanted_usages};
ghost use Rattle.reports.specs.declared.Input.{Input};

/// The keyboard's report descriptor has 99 bytes and no fault, and its fields and their usages are these.
pub fn served_declares()
    ensures size { length report_bytes ≡ 99 }
    ensures faultless { is_faultless report_bytes ≡ true }
    ensures fields { fields (all_items report_bytes) ≡ served_fields }
    ensures usages { field_usages (all_items report_bytes) ≡ served_usages }
{}

/// The host's own descriptor of boot reports has no fault, and its fields and their usages are these.
pub fn boot_declares()
    ensures faultless { is_faultless boot_descriptor_bytes ≡ true }
    ensures fields { fields (all_items boot_descriptor_bytes) ≡ boot_fields }
    ensures usages { field_usages (all_items boot_descriptor_bytes) ≡ boot_usages }
{}

/// A host reads in each input report exactly the usages that it is to name: the reports 1 and 2 by the keyboard's
/// report descriptor, the boot report by the host's own descriptor. No such report is refused.
pub fn reports_are_read()
    ensures read { (keys consumer : ℕ → Bool) (input : Input) (d : DescriptorValue) → Describes (all_items (text_of input)) d
        → ArePressed (found d (wanted keys consumer input)) (wanted_usages keys consumer input) }
    ensures taken { (keys consumer : ℕ → Bool) (input : Input) (d : DescriptorValue) → Describes (all_items (text_of input)) d
        → refusal d (wanted keys consumer input) ≡ None }
{}
