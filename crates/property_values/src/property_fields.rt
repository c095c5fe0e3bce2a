//! Properties as the fields of a record.
ghost use Rattle.std.specs.Prelude.{◌≡◌, ◌↔◌, Some, None, IfOk, IsErrOf, option_map, if◌then◌else◌};
ghost use Rattle.graph_model.specs.declared.properties.Value.TheVariants.{Int, Flag, Text as TextOf};
ghost use Rattle.graph_model.specs.PropertyField.{flag_of, property_of, value_of_text, words_of};
ghost use Rattle.graph_model.specs.TextForm.{is_name};
ghost use Rattle.graph_model.specs.WholeNumber.{whole_of};

use crate::whole_numbers::read_whole;
use graph_model::{MOST_NAME_BYTES, Name, NameFault, Text, TextFault, Value};
use std::alloc::Global;

/// Why a property was not read.
#[derive(Debug, Drop)]
pub enum PropFault {
    /// The field is no property.
    Form,
    Memory,
}

/// The property that a field writes: a key, the first `:` of the field, and a value.
///
/// The key is a name of 1 to 256 bytes. The value is `i=` and a whole number, `b=` and `true` or
/// `false`, or `s=` and a text of at most 4,096 bytes, which may be empty and may hold further `:`.
pub fn read_property(alloc: Global, field: &str) -> Result<(Name, Value), PropFault>
    ensures property { IfOk result (λ property. property_of field.now ≡ Some property) }
    ensures form { IsErrOf result PropFault.Form ↔ (property_of field.now ≡ None) }
{
    let Some((key, text)) = field.split_once(':') else {
        return Err(PropFault::Form);
    };
    if !may_be_name(key) {
        return Err(PropFault::Form);
    }
    let value = value(alloc, text)?;
    match Name::new(alloc, key) {
        Ok(key) => Ok((key, value)),
        Err(NameFault::Form) => unreachable!(),
        Err(NameFault::Memory) => Err(PropFault::Memory),
    }
}

/// Whether a text has the length of a name.
fn may_be_name(text: &str) -> bool
    ensures { result ≡ is_name text.now }
{
    !text.is_empty() && text.len() <= MOST_NAME_BYTES
}

/// The value that a text writes, by the letter before its `=`.
fn value(alloc: Global, text: &str) -> Result<Value, PropFault>
    ensures value { IfOk result (λ value. value_of_text text.now ≡ Some value) }
    ensures form { IsErrOf result PropFault.Form ↔ (value_of_text text.now ≡ None) }
{
    if let Some(number) = text.strip_prefix("i=") {
        return number_value(number);
    }
    if let Some(word) = text.strip_prefix("b=") {
        return flag_value(word);
    }
    if let Some(words) = text.strip_prefix("s=") {
        return text_value(alloc, words);
    }
    Err(PropFault::Form)
}

fn number_value(text: &str) -> Result<Value, PropFault>
    ensures value { IfOk result (λ value. option_map Int (whole_of text.now) ≡ Some value) }
    ensures form { IsErrOf result PropFault.Form ↔ (option_map Int (whole_of text.now) ≡ None) }
{
    match read_whole(text) {
        Some(n) => Ok(Value::Int(n)),
        None => Err(PropFault::Form),
    }
}

fn flag_value(text: &str) -> Result<Value, PropFault>
    ensures value { IfOk result (λ value. option_map Flag (flag_of text.now) ≡ Some value) }
    ensures form { IsErrOf result PropFault.Form ↔ (option_map Flag (flag_of text.now) ≡ None) }
{
    match flag(text) {
        Some(b) => Ok(Value::Flag(b)),
        None => Err(PropFault::Form),
    }
}

fn flag(text: &str) -> Option<bool>
    ensures { result ≡ flag_of text.now }
{
    match text {
        "true" => Some(true),
        "false" => Some(false),
        _ => None,
    }
}

fn text_value(alloc: Global, text: &str) -> Result<Value, PropFault>
    ensures value { IfOk result (λ value. option_map TextOf (words_of text.now) ≡ Some value) }
    ensures form { IsErrOf result PropFault.Form ↔ (option_map TextOf (words_of text.now) ≡ None) }
{
    match Text::new(alloc, text) {
        Ok(text) => Ok(Value::Text(text)),
        Err(TextFault::Long) => Err(PropFault::Form),
        Err(TextFault::Memory) => Err(PropFault::Memory),
    }
}
