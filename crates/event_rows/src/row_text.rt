//! The rows that say events, types and bounds.
ghost use Rattle.std.specs.Prelude.{◌≡◌, ◌∷◌, [], ◌++◌, IfOk, OnOk, map};
ghost use Rattle.std.specs.Fmt.{signed_decimal};
ghost use Rattle.csv.specs.Records.{fields_of, partial_of};
ghost use Rattle.csv.specs.Writing.{default_writer, row_text};
ghost use Rattle.graph_model.specs.declared.events.What.TheVariants.{Node as Update, Add, Delete};
ghost use Rattle.graph_model.specs.Record.{event_fields, order_text, prop_text, span_fields, type_fields, what_fields};
ghost use Rattle.graph_model.specs.RowText.{record_text};

use crate::row_writer::RowWriter;
use csv::ByteRecord;
use graph_model::{Bounds, Event, Memory, Name, Props, Value, What};
use itoa::Buffer;
use property_values::print_value;
use std::alloc::Global;

// Adds a field to a row.
fn add_field(row: &mut ByteRecord, field: &[u8]) -> Result<(), Memory>
    requires { partial_of row.old ≡ [] }
    ensures fields { OnOk result (fields_of row.new ≡ fields_of row.old ++ field.now ∷ []) }
    ensures whole { OnOk result (partial_of row.new ≡ []) }
{
    row.push_field(field)
}

// Puts the text of a time with its order.
fn set_moment_text(text: &mut Vec<u8>, time: i64, order: u32) -> Result<(), Memory>
    ensures { OnOk result (text.new.items ≡ signed_decimal time ++ order_text order) }
{
    text.clear();
    text.extend_from_slice(Buffer::new().format(time).as_bytes())?;
    if order != 0 {
        text.push(b'@')?;
        text.extend_from_slice(Buffer::new().format(order).as_bytes())?;
    }
    Ok(())
}

// Puts the text of a property.
fn set_property_text(text: &mut Vec<u8>, key: &Name, value: &Value) -> Result<(), Memory>
    ensures { OnOk result (text.new.items ≡ prop_text (key.now, value.now)) }
{
    text.clear();
    text.extend_from_slice(key.as_str().as_bytes())?;
    text.push(b':')?;
    print_value(value, text)
}

/// Adds a property to a row. `text` is room for its text, and what it has is lost.
///
/// Want of memory leaves anything in `row`.
pub fn add_property(
    row: &mut ByteRecord,
    text: &mut Vec<u8>,
    key: &Name,
    value: &Value,
) -> Result<(), Memory>
    requires { partial_of row.old ≡ [] }
    ensures fields { OnOk result (fields_of row.new ≡ fields_of row.old ++ prop_text (key.now, value.now) ∷ []) }
    ensures whole { OnOk result (partial_of row.new ≡ []) }
{
    set_property_text(text, key, value)?;
    add_field(row, text.as_slice())
}

// Adds properties to a row, each written into `text` first.
fn add_props(row: &mut ByteRecord, text: &mut Vec<u8>, props: &Props) -> Result<(), Memory>
    requires { partial_of row.old ≡ [] }
    ensures { OnOk result (fields_of row.new ≡ fields_of row.old ++ map prop_text props.now) }
{
    for i in 0..props.len() {
        add_property(row, text, props.key_at(i), props.value_at(i))?;
    }
    Ok(())
}

// Makes `row` a kind and a time, of which the time is written into `text` first.
fn set_moment(
    row: &mut ByteRecord,
    text: &mut Vec<u8>,
    kind: &[u8],
    time: i64,
    order: u32,
) -> Result<(), Memory>
    ensures fields { OnOk result (fields_of row.new ≡ kind.now ∷ (signed_decimal time ++ order_text order) ∷ []) }
    ensures whole { OnOk result (partial_of row.new ≡ []) }
{
    row.clear();
    add_field(row, kind)?;
    set_moment_text(text, time, order)?;
    add_field(row, text.as_slice())
}

// Adds an edge.
fn add_edge(row: &mut ByteRecord, src: &Name, dst: &Name, layer: &Name) -> Result<(), Memory>
    requires { partial_of row.old ≡ [] }
    ensures fields { OnOk result (fields_of row.new ≡ fields_of row.old ++ src.now ∷ dst.now ∷ layer.now ∷ []) }
    ensures whole { OnOk result (partial_of row.new ≡ []) }
{
    add_field(row, src.as_str().as_bytes())?;
    add_field(row, dst.as_str().as_bytes())?;
    add_field(row, layer.as_str().as_bytes())
}

/// Makes `row` the row of an update of a node, to which properties can be added. `text` is room for
/// the texts of fields, and what it has is lost.
///
/// Want of memory leaves anything in `row`.
pub fn set_node(
    row: &mut ByteRecord,
    text: &mut Vec<u8>,
    time: i64,
    order: u32,
    name: &Name,
) -> Result<(), Memory>
    ensures fields { OnOk result (fields_of row.new ≡ what_fields (signed_decimal time ++ order_text order) (Update name.now [])) }
    ensures whole { OnOk result (partial_of row.new ≡ []) }
{
    set_moment(row, text, b"node", time, order)?;
    add_field(row, name.as_str().as_bytes())
}

/// Makes `row` the row of an addition of an edge, to which properties can be added. `text` is room
/// for the texts of fields, and what it has is lost.
///
/// Want of memory leaves anything in `row`.
pub fn set_addition(
    row: &mut ByteRecord,
    text: &mut Vec<u8>,
    time: i64,
    order: u32,
    edge: (&Name, &Name, &Name),
) -> Result<(), Memory>
    ensures fields { OnOk result (fields_of row.new ≡ what_fields (signed_decimal time ++ order_text order) (Add (record { src = edge.entry.0.now; dst = edge.entry.1.now; layer = edge.entry.2.now }) [])) }
    ensures whole { OnOk result (partial_of row.new ≡ []) }
{
    set_moment(row, text, b"edge", time, order)?;
    add_edge(row, edge.0, edge.1, edge.2)
}

/// Makes `row` the row of a deletion of an edge. `text` is room for the texts of fields, and what it
/// has is lost.
///
/// Want of memory leaves anything in `row`.
pub fn set_deletion(
    row: &mut ByteRecord,
    text: &mut Vec<u8>,
    time: i64,
    order: u32,
    edge: (&Name, &Name, &Name),
) -> Result<(), Memory>
    ensures fields { OnOk result (fields_of row.new ≡ what_fields (signed_decimal time ++ order_text order) (Delete (record { src = edge.entry.0.now; dst = edge.entry.1.now; layer = edge.entry.2.now }))) }
    ensures whole { OnOk result (partial_of row.new ≡ []) }
{
    set_moment(row, text, b"delete", time, order)?;
    add_edge(row, edge.0, edge.1, edge.2)
}

/// Makes `row` the row of an event. `text` is room for the texts of its fields, and what it has is lost.
///
/// Want of memory leaves anything in `row`.
pub fn set_event(row: &mut ByteRecord, text: &mut Vec<u8>, event: &Event) -> Result<(), Memory>
    ensures { OnOk result (fields_of row.new ≡ event_fields event.now) }
{
    match &event.what {
        What::Node(name, props) => {
            set_node(row, text, event.time, event.order, name)?;
            add_props(row, text, props)
        }
        What::Add(edge, props) => {
            let parts = (&edge.src, &edge.dst, &edge.layer);
            set_addition(row, text, event.time, event.order, parts)?;
            add_props(row, text, props)
        }
        What::Delete(edge) => {
            let parts = (&edge.src, &edge.dst, &edge.layer);
            set_deletion(row, text, event.time, event.order, parts)
        }
    }
}

/// Makes `row` the row of bounds.
///
/// Want of memory leaves anything in `row`.
pub fn set_span(row: &mut ByteRecord, bounds: Bounds) -> Result<(), Memory>
    ensures { OnOk result (fields_of row.new ≡ span_fields bounds) }
{
    row.clear();
    add_field(row, b"span")?;
    add_field(row, Buffer::new().format(bounds.lo()).as_bytes())?;
    add_field(row, Buffer::new().format(bounds.hi()).as_bytes())
}

/// Makes `row` the row of a node's type.
///
/// Want of memory leaves anything in `row`.
pub fn set_type(row: &mut ByteRecord, node: &Name, kind: &Name) -> Result<(), Memory>
    ensures { OnOk result (fields_of row.new ≡ type_fields node.now kind.now) }
{
    row.clear();
    add_field(row, b"type")?;
    add_field(row, node.as_str().as_bytes())?;
    add_field(row, kind.as_str().as_bytes())
}

// The text of one row.
fn text_of(alloc: Global, row: &ByteRecord) -> Result<Vec<u8>, Memory>
    ensures { IfOk result (λ text. text.items ≡ row_text default_writer (fields_of row.now)) }
{
    let mut writer = RowWriter::new(alloc);
    writer.add(row)?;
    writer.into_text()
}

/// The row of an event. For many rows `set_event` and a `RowWriter` are faster.
pub fn event_text(alloc: Global, event: &Event) -> Result<Vec<u8>, Memory>
    ensures { IfOk result (λ text. text.items ≡ record_text event.now) }
{
    let mut row = ByteRecord::new(alloc);
    let mut text = Vec::new(alloc);
    set_event(&mut row, &mut text, event)?;
    text_of(alloc, &row)
}

/// The row of bounds.
pub fn span_text(alloc: Global, bounds: Bounds) -> Result<Vec<u8>, Memory>
    ensures { IfOk result (λ text. text.items ≡ row_text default_writer (span_fields bounds)) }
{
    let mut row = ByteRecord::new(alloc);
    set_span(&mut row, bounds)?;
    text_of(alloc, &row)
}

/// The row of a node's type.
pub fn type_text(alloc: Global, node: &Name, kind: &Name) -> Result<Vec<u8>, Memory>
    ensures { IfOk result (λ text. text.items ≡ row_text default_writer (type_fields node.now kind.now)) }
{
    let mut row = ByteRecord::new(alloc);
    set_type(&mut row, node, kind)?;
    text_of(alloc, &row)
}
