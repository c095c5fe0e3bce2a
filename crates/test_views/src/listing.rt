//! Views that are listed, and stores made of the lists.
ghost use Rattle.std.specs.Prelude.{◌≡◌, IfOk};
ghost use Rattle.graph_store.specs.Contents.{base_of};

use base_graphs::{EventGraph, PersistentGraph};
use csv::ByteRecord;
use event_rows::{Parsed, RecordReader, event_text, read_row, span_text, type_text};
use graph_model::{Bounds, EventList, Memory, Model, TypeList};
use graph_store::{EdgeId, NodeId, Store};
use materialise::{into_store, list_types, list_world};
use std::alloc::Global;
use std::marker::Brand;
use std::process::Abort;
use std::sync::ledger::{Blank, Ledger};
use std::test::Fail;
use time_column::Steps;
use view_lists::{Moments, edge_moments, node_moments};
use view_trait::{Roster, View};
use walk_algorithms::{DegreeRows, degrees};
use window_view::window;

/// Puts what a record says into a store, and says whether it was accepted.
fn put_said<L: Ledger>(
    alloc: Global,
    store: &mut Store,
    row: &ByteRecord,
    steps: &mut Steps<L>,
) -> bool {
    match read_row(alloc, row, store.bounds(), false) {
        Ok(Parsed::Event(event)) => store.apply(event, steps).is_ok(),
        Ok(Parsed::NodeType(node, kind)) => store.set_type(node, kind).is_ok(),
        _ => false,
    }
}

/// Puts records into a store, and says whether all were accepted.
pub(crate) fn put_records<L: Ledger>(
    alloc: Global,
    store: &mut Store,
    records: &[&[u8]],
    steps: &mut Steps<L>,
) -> Result<bool, Memory> {
    let mut row = ByteRecord::new(alloc);
    for record in records {
        let mut reader = RecordReader::new(alloc, record);
        if !reader.next(&mut row)? || !put_said(alloc, store, &row, steps) {
            return Ok(false);
        }
    }
    Ok(true)
}

/// Adds types as records.
fn add_types(alloc: Global, text: &mut Vec<u8>, types: &TypeList) -> Result<(), Memory> {
    for i in 0..types.len() {
        let (node, kind) = types.item(i);
        text.extend_from_slice(type_text(alloc, node, kind)?.as_slice())?;
    }
    Ok(())
}

/// Adds events as records.
fn add_events(alloc: Global, text: &mut Vec<u8>, events: &EventList) -> Result<(), Memory> {
    for i in 0..events.len() {
        text.extend_from_slice(event_text(alloc, events.item(i))?.as_slice())?;
    }
    Ok(())
}

/// Adds the types of a view as records.
fn add_listed_types<V: View, L: Ledger>(
    alloc: Global,
    text: &mut Vec<u8>,
    view: &V,
    steps: &mut Steps<L>,
) -> Result<(), Memory> {
    let types = list_types(alloc, view, Roster::All, steps)?;
    add_types(alloc, text, &types)
}

/// Adds the events of a view as records.
fn add_listed_events<V: View, L: Ledger>(
    alloc: Global,
    text: &mut Vec<u8>,
    view: &V,
    steps: &mut Steps<L>,
) -> Result<(), Memory> {
    let events = list_world(alloc, view, Roster::All, steps)?;
    add_events(alloc, text, &events)
}

/// The bounds, the types and the events of a view, as records.
fn printed<V: View, L: Ledger>(
    alloc: Global,
    view: &V,
    steps: &mut Steps<L>,
) -> Result<Vec<u8>, Memory> {
    let mut text = span_text(alloc, view.bounds())?;
    add_listed_types(alloc, &mut text, view, steps)?;
    add_listed_events(alloc, &mut text, view, steps)?;
    Ok(text)
}

/// A view is listed as these records.
pub(crate) fn prints<V: View, L: Ledger>(
    rt: &impl Abort,
    alloc: Global,
    view: &V,
    records: &[u8],
    steps: &mut Steps<L>,
) -> Result<(), Memory> {
    let text = printed(alloc, view, steps)?;
    assert_eq!(rt; text.as_slice(), records);
    Ok(())
}

/// A store made of all that another one lists.
fn stored_again<L: Ledger>(
    alloc: Global,
    graph: &PersistentGraph<'_>,
    steps: &mut Steps<L>,
) -> Result<Store, Memory>
    ensures { IfOk result (λ again. base_of again ≡ base_of graph.now.store.now) }
{
    let store = graph.store;
    let _limits = store.events();
    let events = list_world(alloc, graph, Roster::All, steps)?;
    let types = list_types(alloc, graph, Roster::All, steps)?;
    into_store(alloc, store.model(), store.bounds(), &types, &events, steps)
}

/// A node with a type, an edge to it that is deleted later, and the type of a node that no event names.
const RECORDS: [&[u8]; 5] = [
    b"type,\"x, \"\"y\"\"\",shop\n",
    b"type,b,person\n",
    b"delete,7,a,\"x, \"\"y\"\"\",l\n",
    b"edge,2,a,\"x, \"\"y\"\"\",l,w:i=3\n",
    b"node,1,\"x, \"\"y\"\"\",k:s=hi\n",
];

/// All of it.
const WHOLE: &[u8] =
    b"span,-4611686018427387904,4611686018427387904\ntype,\"x, \"\"y\"\"\",shop\nnode,1,\"x, \"\"y\"\"\",k:s=hi\nedge,2,a,\"x, \"\"y\"\"\",l,w:i=3\ndelete,7,a,\"x, \"\"y\"\"\",l\n";

/// What is shown from 5 up to 9: the update and the edge are carried to 5.
const CARRIED: &[u8] =
    b"span,5,9\ntype,\"x, \"\"y\"\"\",shop\nnode,5,\"x, \"\"y\"\"\",k:s=hi\nedge,5,a,\"x, \"\"y\"\"\",l,w:i=3\ndelete,7,a,\"x, \"\"y\"\"\",l\n";

/// The times of the events of a node or an edge.
fn times_are(rt: &impl Abort, moments: &Moments, times: &[i64]) {
    assert_eq!(rt; moments.len(), times.len());
    for (i, time) in times.iter().enumerate() {
        if i < moments.len() {
            assert_eq!(rt; moments.item(i).time, *time);
        }
    }
}

/// The first node is named by its type alone until it is updated, and the first edge goes to it.
fn moments<L: Ledger>(
    rt: &impl Abort,
    alloc: Global,
    graph: PersistentGraph<'_>,
    steps: &mut Steps<L>,
) -> Result<(), Fail> {
    let store = graph.store;
    if store.nodes() == 0 || store.edges() == 0 {
        return Err(Fail::from("the store has a node and an edge"));
    }
    times_are(
        rt,
        &node_moments(alloc, &graph, NodeId(0), steps)?,
        [1].as_slice(),
    );
    times_are(
        rt,
        &edge_moments(alloc, &graph, EdgeId(0), steps)?,
        [2, 7].as_slice(),
    );
    let shown = window(graph, 5, 9);
    times_are(
        rt,
        &edge_moments(alloc, &shown, EdgeId(0), steps)?,
        [5, 7].as_slice(),
    );
    Ok(())
}

/// All of a store is listed as these records.
fn prints_store<L: Ledger>(
    rt: &impl Abort,
    alloc: Global,
    store: &Store,
    records: &[u8],
    steps: &mut Steps<L>,
) -> Result<(), Fail> {
    let graph = PersistentGraph::over(store).ok_or("the store is of the persistent model")?;
    prints(rt, alloc, &graph, records, steps)?;
    Ok(())
}

/// A store that is made of lists is listed as the one that they were made of.
fn again<L: Ledger>(
    rt: &impl Abort,
    alloc: Global,
    graph: &PersistentGraph<'_>,
    steps: &mut Steps<L>,
) -> Result<(), Fail> {
    let store = stored_again(alloc, graph, steps)?;
    prints_store(rt, alloc, &store, WHOLE, steps)
}

fn listing<L: Ledger>(
    rt: &impl Abort,
    alloc: Global,
    store: &mut Store,
    steps: &mut Steps<L>,
) -> Result<(), Fail> {
    assert!(rt; put_records(alloc, store, RECORDS.as_slice(), steps)?);
    let graph = PersistentGraph::over(store).ok_or("the store is of the persistent model")?;
    prints(rt, alloc, &graph, WHOLE, steps)?;
    prints(rt, alloc, &window(graph, 5, 9), CARRIED, steps)?;
    moments(rt, alloc, graph, steps)?;
    again(rt, alloc, &graph, steps)
}

/// Three edges between three nodes.
const EDGES: [&[u8]; 3] = [
    b"edge,1,a,b,mail\n",
    b"edge,2,b,c,mail\n",
    b"edge,3,a,c,chat\n",
];

/// The neighbours inwards, outwards and in all of each node.
fn degrees_are(rt: &impl Abort, rows: &DegreeRows, wanted: &[(u32, u32, u32)]) {
    assert_eq!(rt; rows.len(), wanted.len());
    for (i, counts) in wanted.iter().enumerate() {
        if i < rows.len() {
            let row = rows.item(i);
            assert_eq!(rt; (row.ins, row.outs, row.both), *counts);
        }
    }
}

fn counting<L: Ledger>(
    rt: &impl Abort,
    alloc: Global,
    store: &mut Store,
    steps: &mut Steps<L>,
) -> Result<(), Fail> {
    assert!(rt; put_records(alloc, store, EDGES.as_slice(), steps)?);
    let graph = EventGraph::over(store).ok_or("the store is of the event model")?;
    let rows = degrees(alloc, &graph, Roster::All, steps)?;
    degrees_are(rt, &rows, [(0, 2, 2), (1, 1, 2), (2, 0, 2)].as_slice());
    Ok(())
}

fn lists_of_a_store<L: Ledger>(rt: &impl Abort, alloc: Global, blank: Blank) -> Result<(), Fail>
    requires name { blank.name ≡ L.name }
    requires parts { blank.parts ≡ L.parts }
    requires one { blank.parts ≡ 1 }
{
    let mut steps = Steps::<L>::new(blank);
    let mut store = Store::new(alloc, Model::Persistent, Bounds::whole());
    let outcome = listing(rt, alloc, &mut store, &mut steps);
    drop(store);
    outcome
}

fn degrees_of_a_store<L: Ledger>(rt: &impl Abort, alloc: Global, blank: Blank) -> Result<(), Fail>
    requires name { blank.name ≡ L.name }
    requires parts { blank.parts ≡ L.parts }
    requires one { blank.parts ≡ 1 }
{
    let mut steps = Steps::<L>::new(blank);
    let mut store = Store::new(alloc, Model::Event, Bounds::whole());
    let outcome = counting(rt, alloc, &mut store, &mut steps);
    drop(store);
    outcome
}

#[test]
fn listed_and_stored_again(rt: HostRuntime) -> Result<(), Fail> {
    lists_of_a_store::<Brand>(&rt, rt.alloc(), Blank::new(1))
}

#[test]
fn three_edges_have_their_degrees(rt: HostRuntime) -> Result<(), Fail> {
    degrees_of_a_store::<Brand>(&rt, rt.alloc(), Blank::new(1))
}
