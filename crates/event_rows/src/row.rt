// What a record says.
ghost use Rattle.std.specs.Prelude.{◌≡◌, Ok, Some, true, IfOk, IfErr, OnOk, IsOkUnless};
ghost use Rattle.csv.specs.Records.{fields_of};
ghost use Rattle.graph_model.specs.Said.{addition_of, are_texts, bounds_said, deletion_of, edge_of, field_of, moment_inside, moment_of, names_edge, props_from, row_of, said_by, type_said, update_of};
ghost use Rattle.graph_model.specs.TextForm.{is_name};
ghost use Rattle.event_rows.specs.Gathering.{put_field as put_field_of};
ghost use Rattle.event_rows.specs.Parsing.{IsAtFront, IsRefused, IsInsideBounds, Lacks, Refuses, record_kind, said_of};

use crate::fields::{all_text, can_be_name, kind, read_moment, text_at};
use crate::parsed::{Parsed, RowKind, RowRefusal};
use csv::ByteRecord;
use graph_model::{Bounds, EdgeName, Event, Name, NameFault, Props, PropsFault, What};
use property_values::{PropFault, read_property, read_whole};
use std::alloc::Global;

// A name of a text that can be one.
fn name(alloc: Global, text: &str) -> Result<Name, RowRefusal>
    requires { is_name text.now ≡ true }
    ensures name { IfOk result (λ name. name ≡ text.now) }
    ensures memory { IsOkUnless result RowRefusal.Memory }
{
    match Name::new(alloc, text) {
        Ok(name) => Ok(name),
        Err(NameFault::Form) => unreachable!(),
        Err(NameFault::Memory) => Err(RowRefusal::Memory),
    }
}

// Puts the property that a field is.
fn put_field(alloc: Global, props: &mut Props, field: &str) -> Result<(), RowRefusal>
    ensures ok { OnOk result (put_field_of props.old field.now ≡ Some props.new) }
    ensures err { IfErr result (λ e. Lacks e (put_field_of props.old field.now)) }
{
    match read_property(alloc, field) {
        Ok((key, value)) => match props.insert(key, value) {
            Ok(()) => Ok(()),
            Err(PropsFault::Repeated) => Err(RowRefusal::Property),
            Err(PropsFault::Full) => Err(RowRefusal::Property),
            Err(PropsFault::Memory) => Err(RowRefusal::Memory),
        },
        Err(PropFault::Form) => Err(RowRefusal::Property),
        Err(PropFault::Memory) => Err(RowRefusal::Memory),
    }
}

// The properties of the fields from a place on.
fn read_props(alloc: Global, fields: &ByteRecord, start: usize) -> Result<Props, RowRefusal>
    requires { are_texts (fields_of fields.now) ≡ true }
    ensures ok { IfOk result (λ props. props_from start (fields_of fields.now) ≡ Some props) }
    ensures err { IfErr result (λ e. Lacks e (props_from start (fields_of fields.now))) }
{
    let mut props = Props::new(alloc);
    for i in start..fields.len() {
        if let Err(refusal) = put_field(alloc, &mut props, text_at(fields, i)) {
            return Err(refusal);
        }
    }
    Ok(props)
}

// Whether the source, the destination and the layer can be names.
fn has_edge_names(fields: &ByteRecord) -> bool
    requires { are_texts (fields_of fields.now) ≡ true }
    ensures { result ≡ names_edge (fields_of fields.now) }
{
    can_be_name(text_at(fields, 2))
        && can_be_name(text_at(fields, 3))
        && can_be_name(text_at(fields, 4))
}

// The edge that is named.
fn edge(alloc: Global, fields: &ByteRecord) -> Result<EdgeName, RowRefusal>
    requires text { are_texts (fields_of fields.now) ≡ true }
    requires names { names_edge (fields_of fields.now) ≡ true }
    ensures edge { IfOk result (λ edge. edge ≡ edge_of (fields_of fields.now)) }
    ensures memory { IsOkUnless result RowRefusal.Memory }
{
    let src = name(alloc, text_at(fields, 2))?;
    let dst = name(alloc, text_at(fields, 3))?;
    let layer = name(alloc, text_at(fields, 4))?;
    Ok(EdgeName { src, dst, layer })
}

// The update of a node that a record says.
fn update(alloc: Global, fields: &ByteRecord) -> Result<What, RowRefusal>
    requires { are_texts (fields_of fields.now) ≡ true }
    ensures said { IfOk result (λ what. update_of (fields_of fields.now) ≡ Ok what) }
    ensures refused { IfErr result (λ e. Refuses e (update_of (fields_of fields.now))) }
{
    let node = text_at(fields, 2);
    if !can_be_name(node) {
        return Err(RowRefusal::Name);
    }
    let node = name(alloc, node)?;
    let props = read_props(alloc, fields, 3)?;
    Ok(What::Node(node, props))
}

// The addition of an edge that a record says.
fn addition(alloc: Global, fields: &ByteRecord) -> Result<What, RowRefusal>
    requires { are_texts (fields_of fields.now) ≡ true }
    ensures said { IfOk result (λ what. addition_of (fields_of fields.now) ≡ Ok what) }
    ensures refused { IfErr result (λ e. Refuses e (addition_of (fields_of fields.now))) }
{
    if !has_edge_names(fields) {
        return Err(RowRefusal::Name);
    }
    let edge = edge(alloc, fields)?;
    let props = read_props(alloc, fields, 5)?;
    Ok(What::Add(edge, props))
}

// The deletion of an edge that a record says.
fn deletion(alloc: Global, fields: &ByteRecord) -> Result<What, RowRefusal>
    requires { are_texts (fields_of fields.now) ≡ true }
    ensures said { IfOk result (λ what. deletion_of (fields_of fields.now) ≡ Ok what) }
    ensures refused { IfErr result (λ e. Refuses e (deletion_of (fields_of fields.now))) }
{
    if !has_edge_names(fields) {
        return Err(RowRefusal::Name);
    }
    let edge = edge(alloc, fields)?;
    Ok(What::Delete(edge))
}

// The bounds that a record says.
fn span(fields: &ByteRecord) -> Result<Parsed, RowRefusal>
    requires { are_texts (fields_of fields.now) ≡ true }
    ensures said { IfOk result (λ parsed. bounds_said (fields_of fields.now) ≡ Ok (said_of parsed)) }
    ensures refused { IfErr result (λ e. IsRefused e (bounds_said (fields_of fields.now))) }
{
    let Some(lo) = read_whole(text_at(fields, 1)) else {
        return Err(RowRefusal::Time);
    };
    let Some(hi) = read_whole(text_at(fields, 2)) else {
        return Err(RowRefusal::Time);
    };
    match Bounds::new(lo, hi) {
        Some(bounds) => Ok(Parsed::Span(bounds)),
        None => Err(RowRefusal::Time),
    }
}

// The type of a node that a record says.
fn node_type(alloc: Global, fields: &ByteRecord) -> Result<Parsed, RowRefusal>
    requires { are_texts (fields_of fields.now) ≡ true }
    ensures said { IfOk result (λ parsed. type_said (fields_of fields.now) ≡ Ok (said_of parsed)) }
    ensures refused { IfErr result (λ e. Refuses e (type_said (fields_of fields.now))) }
{
    let node = text_at(fields, 1);
    let kind = text_at(fields, 2);
    if !(can_be_name(node) && can_be_name(kind)) {
        return Err(RowRefusal::Name);
    }
    let node = name(alloc, node)?;
    let kind = name(alloc, kind)?;
    Ok(Parsed::NodeType(node, kind))
}

// The time and the order of a record whose time is inside the bounds.
fn moment_in(fields: &ByteRecord, bounds: Bounds) -> Result<(i64, u32), RowRefusal>
    requires { are_texts (fields_of fields.now) ≡ true }
    ensures said { IfOk result (λ at. moment_inside bounds (moment_of (field_of (fields_of fields.now) 1)) ≡ Ok at) }
    ensures refused { IfErr result (λ e. IsRefused e (moment_inside bounds (moment_of (field_of (fields_of fields.now) 1)))) }
{
    let Some((time, order)) = read_moment(text_at(fields, 1)) else {
        return Err(RowRefusal::Time);
    };
    if !bounds.holds(time) {
        return Err(RowRefusal::Outside);
    }
    Ok((time, order))
}

// What a record of a kind says, where its fields are text.
#[tactic(auto, using(crate::proofs::Lacking::event_refused, crate::proofs::Lacking::is_refuses, crate::proofs::Lacking::what_refused))]
fn say(
    alloc: Global,
    fields: &ByteRecord,
    bounds: Bounds,
    kind: RowKind,
) -> Result<Parsed, RowRefusal>
    requires { are_texts (fields_of fields.now) ≡ true }
    ensures said { IfOk result (λ parsed. said_by (record_kind kind) bounds (fields_of fields.now) ≡ Ok (said_of parsed)) }
    ensures refused { IfErr result (λ e. Refuses e (said_by (record_kind kind) bounds (fields_of fields.now))) }
{
    match kind {
        RowKind::Span => span(fields),
        RowKind::NodeType => node_type(alloc, fields),
        RowKind::Update => {
            let (time, order) = moment_in(fields, bounds)?;
            let what = update(alloc, fields)?;
            Ok(Parsed::Event(Event { time, order, what }))
        }
        RowKind::Addition => {
            let (time, order) = moment_in(fields, bounds)?;
            let what = addition(alloc, fields)?;
            Ok(Parsed::Event(Event { time, order, what }))
        }
        RowKind::Deletion => {
            let (time, order) = moment_in(fields, bounds)?;
            let what = deletion(alloc, fields)?;
            Ok(Parsed::Event(Event { time, order, what }))
        }
    }
}

/// What a record says, whatever was read before it: `bounds` are those of the graph, and `first`
/// says that it is record 1. The time of an event is inside the bounds, and only record 1 says
/// bounds.
///
/// # Errors
/// The first cause of refusal that holds, in the order of `RowRefusal`. `Memory`, for want of
/// memory, comes only where the record says something or its properties alone are at fault.
pub fn read_row(
    alloc: Global,
    fields: &ByteRecord,
    bounds: Bounds,
    first: bool,
) -> Result<Parsed, RowRefusal>
    ensures said { IfOk result (λ parsed. row_of first bounds (fields_of fields.now) ≡ Ok (said_of parsed)) }
    ensures inside { IfOk result (λ parsed. IsInsideBounds bounds parsed) }
    ensures front { IfOk result (λ parsed. IsAtFront first parsed) }
    ensures refused { IfErr result (λ e. Refuses e (row_of first bounds (fields_of fields.now))) }
{
    let Some(kind) = kind(fields, first) else {
        return Err(RowRefusal::Shape);
    };
    if !all_text(fields) {
        return Err(RowRefusal::Text);
    }
    say(alloc, fields, bounds, kind)
}
