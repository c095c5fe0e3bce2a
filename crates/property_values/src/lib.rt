//! Whole numbers, values and properties: read from the fields of a record, compared, and printed.
#![tactic(auto)]

mod laws;
mod property_fields;
mod values;
mod whole_numbers;

pub use laws::{
    printed_properties_are_read_again, properties_are_named_values, whole_numbers_are_read_again,
    whole_numbers_are_signed_digits,
};
pub use property_fields::{PropFault, read_property};
pub use values::{compare, print_value, type_of};
pub use whole_numbers::read_whole;
