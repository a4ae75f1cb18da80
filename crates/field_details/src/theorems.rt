//! Theorems on the definitions.

ghost use Rattle.std.specs.Prelude.{◌≡◌, List, map, filter};
ghost use Rattle.descriptor_parse.specs.Items.{ItemValue};
ghost use Rattle.descriptor_parse.specs.Fields.{fields};
ghost use Rattle.field_details.specs.Details.{details};
ghost use Rattle.field_details.specs.AsFields.{is_of_data, field_of, as_counted};

/// The data items that are not Constant are the fields that `descriptor_parse` gives, in its order.
pub fn fields_are_reported()
    ensures { (items : List ItemValue) → map field_of (filter is_of_data (details items)) ≡ map as_counted (fields items) }
{}
