//! The records of the world of a view.
ghost use Rattle.std.specs.Prelude.{◌≡◌, ◌∷◌, [], ◌++◌, length, map, OnOk};
ghost use Rattle.std.specs.List.{All};
ghost use Rattle.csv.specs.Records.{fields_of, partial_of};
ghost use Rattle.csv.specs.Writing.{default_writer, row_text};
ghost use Rattle.graph_model.specs.Answer.{EventRow, SpanRow, TypeRow, row_fields, world_rows};
ghost use Rattle.graph_model.specs.Record.{event_fields, prop_text};
ghost use Rattle.graph_model.specs.RowText.{rows_text};
ghost use Rattle.view_trait.specs.Coverage.{Covers};
ghost use Rattle.view_lists.specs.Borrowed.{event_borrowed, props_borrowed};
ghost use Rattle.view_lists.specs.Listing.{IsShownEntity, IsPlaced, event_placed};
ghost use Rattle.view_lists.specs.Types.{types_listed};
ghost use Rattle.answer_parts.specs.WorldPart.{part_rows};
ghost use Rattle.view_answers.specs.Records.{type_row};

use answer_parts::add_world;
use csv::ByteRecord;
use event_rows::{
    RowWriter, add_property, set_addition, set_deletion, set_node, set_span, set_type,
};
use graph_model::{Bounds, Memory};
use std::alloc::Global;
use std::sync::ledger::Ledger;
use time_column::Steps;
use view_lists::{
    BorrowedEvent, EventPlace, Property, ShownEntity, Subject, TypedNode, borrowed_event,
    list_whole,
};
use view_trait::{Roster, View};

/// Adds the record of bounds.
fn add_bounds(out: &mut RowWriter, row: &mut ByteRecord, bounds: Bounds) -> Result<(), Memory>
    ensures { OnOk result (out.new ≡ out.old ++ row_text default_writer (row_fields (SpanRow bounds))) }
{
    set_span(row, bounds)?;
    out.add(row)
}

/// Adds the records of types.
fn add_types(
    out: &mut RowWriter,
    row: &mut ByteRecord,
    types: &[TypedNode<'_>],
) -> Result<(), Memory>
    ensures { OnOk result (out.new ≡ out.old ++ rows_text (map row_fields (map type_row types.now))) }
{
    for typed in types {
        set_type(row, typed.node, typed.kind)?;
        out.add(row)?;
    }
    Ok(())
}

/// Adds properties to a row, each written into `text` first.
fn add_props(row: &mut ByteRecord, text: &mut Vec<u8>, props: &[Property<'_>]) -> Result<(), Memory>
    requires { partial_of row.old ≡ [] }
    ensures { OnOk result (fields_of row.new ≡ fields_of row.old ++ map prop_text (props_borrowed props.now)) }
{
    for property in props {
        add_property(row, text, property.key, property.value)?;
    }
    Ok(())
}

/// Makes `row` the record of an event with these properties.
fn set_record(
    row: &mut ByteRecord,
    text: &mut Vec<u8>,
    event: BorrowedEvent<'_>,
    props: &[Property<'_>],
) -> Result<(), Memory>
    ensures { OnOk result (fields_of row.new ≡ event_fields (event_borrowed event.entry (props_borrowed props.now))) }
{
    match event.subject {
        Subject::Node(_, name) => {
            set_node(row, text, event.time, event.order, name)?;
            add_props(row, text, props)
        }
        Subject::Edge(_, src, dst, layer) => {
            let edge = (src, dst, layer);
            if event.kind.is_deletion() {
                return set_deletion(row, text, event.time, event.order, edge);
            }
            set_addition(row, text, event.time, event.order, edge)?;
            add_props(row, text, props)
        }
    }
}

/// Adds the records of the events at places. The nodes and edges are those that the view shows. The
/// memory that one record takes serves the next.
fn add_records<'s, V: View, L: Ledger>(
    alloc: Global,
    out: &mut RowWriter,
    row: &mut ByteRecord,
    view: &'s V,
    shown: &[ShownEntity<'s>],
    places: &[EventPlace],
    steps: &mut Steps<L>,
) -> Result<(), Memory>
    requires parts { All (IsShownEntity (V.contents view.now) (V.world view.now)) shown.now }
    requires placed { All (IsPlaced (V.world view.now) shown.now) places.now }
    ensures { OnOk result (out.new ≡ out.old ++ rows_text (map row_fields (map (λ p. EventRow (event_placed (V.world view.now) shown.now p)) places.now))) }
{
    let mut text = Vec::new(alloc);
    let mut props = Vec::new(alloc);
    for place in places {
        let event = borrowed_event(&mut props, view, shown, *place, steps)?;
        set_record(row, &mut text, event, props.as_slice())?;
        out.add(row)?;
    }
    Ok(())
}

/// Adds the part of the world of a view: its bounds, its types, and the records of its events in
/// canonical order. They are the same for every roster that covers the view; the span of each node and
/// edge on it is asked once.
pub fn add_world_records<V: View, L: Ledger>(
    alloc: Global,
    out: &mut RowWriter,
    view: &V,
    roster: Roster<'_>,
    steps: &mut Steps<L>,
) -> Result<(), Memory>
    requires covers { Covers (V.contents view.now) (V.world view.now) roster }
    ensures { let w = V.world view.now in
        OnOk result (out.new ≡ out.old ++ rows_text (part_rows w (world_rows w))) }
{
    let whole = list_whole(alloc, view, roster, steps)?;
    let (types, places) = (whole.types.as_slice(), whole.listed.events.as_slice());
    let bounds = view.bounds();
    let mut row = ByteRecord::new(alloc);
    add_world(out, bounds, 1 + types.len() + places.len())?;
    add_bounds(out, &mut row, bounds)?;
    add_types(out, &mut row, types)?;
    let shown = whole.listed.shown.as_slice();
    add_records(alloc, out, &mut row, view, shown, places, steps)
}
