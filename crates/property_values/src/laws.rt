//! Laws of what is read and printed, each the contract of a function that does nothing.
ghost use Rattle.std.specs.Prelude.{◌≡◌, ◌↔◌, ℕ, ℤ, List, Some, IsTrue, FitsSigned};
ghost use Rattle.std.specs.Int.{w64};
ghost use Rattle.std.specs.Fmt.{signed_decimal};
ghost use Rattle.graph_model.specs.declared.properties.Value.{Value};
ghost use Rattle.graph_model.specs.PropertyField.{has_no_colon, property_of, IsWritable, WritesProperty};
ghost use Rattle.graph_model.specs.Record.{prop_text};
ghost use Rattle.graph_model.specs.TextForm.{is_name};
ghost use Rattle.graph_model.specs.WholeNumber.{whole_of, WritesWhole};

/// A text is read as a whole number exactly where it is an optional minus sign and one to nineteen digits that write this number,
/// in 64 signed bits.
pub fn whole_numbers_are_signed_digits()
    ensures { (text : List ℕ) (z : ℤ) → (whole_of text ≡ Some z) ↔ WritesWhole text z }
{}

/// The decimal text of a number of 64 signed bits is read as that number.
pub fn whole_numbers_are_read_again()
    ensures { (z : ℤ) → FitsSigned w64 z → whole_of (signed_decimal z) ≡ Some z }
{}

/// A field is read as a property exactly where it is a name without a `:`, a `:`, and a text that writes the value.
pub fn properties_are_named_values()
    ensures { (field key : List ℕ) (value : Value) → (property_of field ≡ Some (key, value)) ↔ WritesProperty field key value }
{}

/// The text of a value is read as that value under any key that has no `:`.
pub fn printed_properties_are_read_again()
    ensures { (key : List ℕ) (value : Value) → IsTrue (is_name key) → IsTrue (has_no_colon key) → IsWritable value → property_of (prop_text (key, value)) ≡ Some (key, value) }
{}
