//! Theorems on the definitions.

ghost use Rattle.std.specs.Prelude.{◌≡◌, List, map};
ghost use Rattle.descriptor_parse.specs.Descriptor.{DescriptorValue, Describes};
ghost use Rattle.descriptor_parse.specs.Items.{ItemValue};
ghost use Rattle.field_details.specs.AsFields.{field_of, as_counted};
ghost use Rattle.field_details.specs.Details.{details};
ghost use Rattle.field_details.specs.Reports.{data_fields};

/// The items that are of fields declare just the fields of the descriptor, in their order.
pub fn items_declare_their_fields()
    ensures { (items : List ItemValue) (d : DescriptorValue) → Describes items d → map (λ p. field_of p.1) (data_fields (details items)) ≡ map as_counted d.fields }
{}
