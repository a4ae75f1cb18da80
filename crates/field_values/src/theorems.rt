//! Theorems on the definitions.

ghost use Rattle.std.specs.Prelude.{◌≡◌, ◌≢◌, ◌<◌, ℕ, ℤ, List, Bool, length, slice_index, pos, true, false, Some, if◌then◌else◌};
ghost use Rattle.descriptor_parse.specs.declared.field.Field.{Field};
ghost use Rattle.host_extract.specs.Found.{value_at, named, reading_at};
ghost use Rattle.host_extract.specs.Numbers.{report_bit};
ghost use Rattle.field_values.specs.Places.{IsOutside};
ghost use Rattle.field_values.specs.Held.{place_bit, is_within};
ghost use Rattle.field_values.specs.Nulls.{null_of};
ghost use Rattle.field_values.specs.Values.{where_is, usage_read};
ghost use Rattle.field_values.specs.declared.value.Within.{Within};

/// What `host_extract` finds in a place is the usage that is read there: of a Variable field with the value, of an Array
/// with 1.
pub fn is_what_is_extracted()
    ensures { (field : Field) (usages bytes : List ℕ) (place : ℕ)
        → reading_at field usages bytes place
        ≡ named (usage_read field usages place (value_at field bytes place)) (if field.array then pos 1 else value_at field bytes place) }
{}

/// Where the bits outside a place stay, each other place of its field holds what it held.
pub fn other_places_stay()
    ensures { (field : Field) (old now : List ℕ) (place other : ℕ) → place ≢ other
        → ((bit : ℕ) → IsOutside (place_bit field place) field.size bit → report_bit now bit ≡ report_bit old bit)
        → value_at field now other ≡ value_at field old other }
{}

/// Where a place is made to hold what it holds, and the bits outside it stay, the bytes are the same.
pub fn what_was_read_is_written_back()
    ensures { (field : Field) (old now : List ℕ) (place : ℕ)
        → ((i : ℕ) → slice_index old i < 256) → ((i : ℕ) → slice_index now i < 256) → length now ≡ length old
        → ((bit : ℕ) → IsOutside (place_bit field place) field.size bit → report_bit now bit ≡ report_bit old bit)
        → value_at field now place ≡ value_at field old place → now ≡ old }
{}

/// The value that is written for a null is read as one, in a Variable field with Null State.
pub fn a_null_is_read_as_null()
    ensures { (field : Field) (value : ℤ) → field.array ≡ false → null_of field ≡ Some value → where_is field true value ≡ Within.Null }
{}

/// A value that is written is read as one within the logical extents.
pub fn a_value_is_read_in_range()
    ensures { (field : Field) (null_state : Bool) (value : ℤ) → is_within field value ≡ true → where_is field null_state value ≡ Within.Range }
{}
