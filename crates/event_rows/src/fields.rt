// The fields of a record, and the times that they say.
ghost use Rattle.std.specs.Prelude.{◌≡◌, Some, None, option_map, true, if◌then◌else◌};
ghost use Rattle.std.specs.Str.{is_utf8};
ghost use Rattle.csv.specs.Records.{fields_of};
ghost use Rattle.graph_model.specs.Said.{are_order_digits, are_texts, field_of, kind_of_record, moment_of, moment_with, order_of};
ghost use Rattle.graph_model.specs.TextForm.{is_name};
ghost use Rattle.graph_model.specs.WholeNumber.{number_of};
ghost use Rattle.event_rows.specs.Parsing.{record_kind};

use crate::parsed::RowKind;
use csv::ByteRecord;
use graph_model::{Bounds, MOST_NAME_BYTES};
use property_values::read_whole;
use std::str;

/// The most digits of an order.
const MOST_DIGITS: usize = 10;

/// The first number that is no order.
const ORDERS: u64 = 1 << 32;

/// The field at a place, or an empty one where there is none.
pub fn field(fields: &ByteRecord, i: usize) -> &[u8]
    ensures { result.now ≡ field_of (fields_of fields.now) i }
{
    fields.get(i).unwrap_or(&[])
}

// Whether a field is text.
fn is_text(field: &[u8]) -> bool
    ensures { result ≡ is_utf8 field.now }
{
    match str::from_utf8(field) {
        Ok(_) => true,
        Err(_) => false,
    }
}

/// Whether each field is text.
pub fn all_text(fields: &ByteRecord) -> bool
    ensures { result ≡ are_texts (fields_of fields.now) }
{
    for i in 0..fields.len() {
        if !is_text(field(fields, i)) {
            return false;
        }
    }
    true
}

/// The text of the field at a place.
pub fn text_at(fields: &ByteRecord, i: usize) -> &str
    requires { are_texts (fields_of fields.now) ≡ true }
    ensures { result.now ≡ field_of (fields_of fields.now) i }
{
    match str::from_utf8(field(fields, i)) {
        Ok(text) => text,
        Err(_) => unreachable!(),
    }
}

/// Whether a text can be a name.
pub fn can_be_name(text: &str) -> bool
    ensures { result ≡ is_name text.now }
{
    !text.is_empty() && text.len() <= MOST_NAME_BYTES
}

// A kind, where the record has its form.
fn kind_where(formed: bool, kind: RowKind) -> Option<RowKind>
    ensures { result ≡ (if formed then Some kind else None) }
{
    if formed { Some(kind) } else { None }
}

/// The kind of a record, where it has that kind's form; `first` says that it is record 1.
pub fn kind(fields: &ByteRecord, first: bool) -> Option<RowKind>
    ensures { option_map record_kind result ≡ kind_of_record first (fields_of fields.now) }
{
    let word = field(fields, 0);
    let len = fields.len();
    if word == b"span".as_slice() {
        return kind_where(first && len == 3, RowKind::Span);
    }
    if word == b"type".as_slice() {
        return kind_where(len == 3, RowKind::NodeType);
    }
    if word == b"node".as_slice() {
        return kind_where(len >= 3, RowKind::Update);
    }
    if word == b"edge".as_slice() {
        return kind_where(len >= 5, RowKind::Addition);
    }
    if word == b"delete".as_slice() {
        return kind_where(len == 5, RowKind::Deletion);
    }
    None
}

// The number that one to ten digits write.
fn number(digits: &[u8]) -> Option<u64>
    ensures { result ≡ (if are_order_digits digits.now then Some (number_of digits.now) else None) }
{
    if digits.is_empty() || digits.len() > MOST_DIGITS {
        return None;
    }
    let mut n = 0u64;
    for digit in digits {
        if !digit.is_ascii_digit() {
            return None;
        }
        n = n * 10 + u64::from(*digit - b'0');
    }
    Some(n)
}

// The order that a text says.
fn order(digits: &str) -> Option<u32>
    ensures { result ≡ order_of digits.now }
{
    let n = number(digits.as_bytes())?;
    if n >= ORDERS {
        return None;
    }
    Some(n as u32)
}

// A time that an event may have, and its order.
fn moment_with(time: Option<i64>, order: Option<u32>) -> Option<(i64, u32)>
    ensures { result ≡ moment_with time order }
{
    let time = time?;
    let order = order?;
    if time < Bounds::EARLIEST || time >= Bounds::LATEST {
        return None;
    }
    Some((time, order))
}

/// The time and the order that a field says.
pub fn read_moment(field: &str) -> Option<(i64, u32)>
    ensures { result ≡ moment_of field.now }
{
    match field.split_once('@') {
        Some((time, digits)) => moment_with(read_whole(time), order(digits)),
        None => moment_with(read_whole(field), Some(0)),
    }
}
