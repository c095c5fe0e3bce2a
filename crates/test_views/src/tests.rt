//! Views in views over small stores.
ghost use Rattle.std.specs.Prelude.{◌≡◌};

use base_graphs::{EventGraph, PersistentGraph};
use graph_model::{Bounds, Direction, EdgeName, Event, Model, Name, Props, What};
use graph_store::{EdgeId, NodeId, Store};
use keep_views::{exclude_nodes, layers};
use std::alloc::Global;
use std::marker::Brand;
use std::process::Abort;
use std::sync::ledger::{Blank, Ledger};
use std::test::Fail;
use time_column::Steps;
use view_trait::{
    EdgeList, NodeList, Roster, View, WorldExtent, edge_present, extent, neighbours, next_contact,
};
use window_view::{at, window};

/// What happens to an edge.
#[derive(Clone, Copy)]
enum Change {
    Add,
    Delete,
}

/// An event at a time, of an edge by the names of its source, its destination and its layer.
#[derive(Clone, Copy)]
struct Row<'r> {
    time: i64,
    change: Change,
    src: &'r str,
    dst: &'r str,
    layer: &'r str,
}

/// The event of a row.
fn event_of(alloc: Global, row: Row<'_>) -> Option<Event> {
    let edge = EdgeName {
        src: Name::new(alloc, row.src).ok()?,
        dst: Name::new(alloc, row.dst).ok()?,
        layer: Name::new(alloc, row.layer).ok()?,
    };
    let what = match row.change {
        Change::Add => What::Add(edge, Props::new(alloc)),
        Change::Delete => What::Delete(edge),
    };
    Some(Event {
        time: row.time,
        order: 0,
        what,
    })
}

/// Puts the event of a row into a store, and says whether it was accepted.
fn put<L: Ledger>(alloc: Global, store: &mut Store, row: Row<'_>, steps: &mut Steps<L>) -> bool {
    let Some(event) = event_of(alloc, row) else {
        return false;
    };
    store.bounds().holds(event.time) && store.apply(event, steps).is_ok()
}

/// Puts rows into a store, and says whether all were accepted.
fn put_all<L: Ledger>(
    alloc: Global,
    store: &mut Store,
    rows: &[Row<'_>],
    steps: &mut Steps<L>,
) -> bool {
    for row in rows {
        if !put(alloc, store, *row, steps) {
            return false;
        }
    }
    true
}

/// The node `b` has the neighbour `c` alone.
fn has_one_neighbour<V: View, L: Ledger>(
    rt: &impl Abort,
    view: &V,
    b: NodeId,
    c: NodeId,
    steps: &mut Steps<L>,
) {
    assert!(rt; b.0 < view.store().nodes());
    let mut walk = neighbours(view, b, Direction::Both);
    assert_eq!(rt; walk.next(steps), Some(c));
    assert_eq!(rt; walk.next(steps), None);
}

/// The number of a node.
fn node(alloc: Global, store: &Store, name: &str) -> Option<NodeId> {
    let name = Name::new(alloc, name).ok()?;
    store.node_of(&name)
}

/// The bit of a layer.
fn bit(alloc: Global, store: &Store, name: &str) -> Option<u64> {
    let name = Name::new(alloc, name).ok()?;
    let layer = store.layer_of(&name)?;
    if layer < 64 { Some(1 << layer) } else { None }
}

/// Two windows, a layer and a dropped node, each view over a reference to the one before.
fn over_references<L: Ledger>(
    rt: &impl Abort,
    graph: &EventGraph<'_>,
    bits: u64,
    dropped: &NodeList,
    b: NodeId,
    c: NodeId,
    steps: &mut Steps<L>,
) {
    let outer = window(graph, 0, 9);
    let inner = window(&outer, 2, 9);
    let kept = layers(&inner, bits);
    has_one_neighbour(rt, &exclude_nodes(&kept, dropped), b, c, steps);
}

/// The same, each view around the one before.
fn by_value<L: Ledger>(
    rt: &impl Abort,
    graph: EventGraph<'_>,
    bits: u64,
    dropped: &NodeList,
    b: NodeId,
    c: NodeId,
    steps: &mut Steps<L>,
) {
    let nest = exclude_nodes(layers(window(window(graph, 0, 9), 2, 9), bits), dropped);
    has_one_neighbour(rt, &nest, b, c, steps);
}

/// Two edges from `a` to `b` in layers `x` and `y`, and one from `b` to `c` in layer `x`.
const TWO_LAYERS: [Row<'static>; 3] = [
    Row {
        time: 1,
        change: Change::Add,
        src: "a",
        dst: "b",
        layer: "x",
    },
    Row {
        time: 2,
        change: Change::Add,
        src: "a",
        dst: "b",
        layer: "y",
    },
    Row {
        time: 3,
        change: Change::Add,
        src: "b",
        dst: "c",
        layer: "x",
    },
];

fn nests<L: Ledger>(
    rt: &impl Abort,
    alloc: Global,
    store: &mut Store,
    steps: &mut Steps<L>,
) -> Result<(), Fail> {
    assert!(rt; put_all(alloc, store, TWO_LAYERS.as_slice(), steps));
    let a = node(alloc, store, "a").ok_or("the node a")?;
    let b = node(alloc, store, "b").ok_or("the node b")?;
    let c = node(alloc, store, "c").ok_or("the node c")?;
    let bits = bit(alloc, store, "x").ok_or("the layer x")?;
    let mut dropped = NodeList::new(alloc);
    dropped.push(a)?;
    let graph = EventGraph::over(store).ok_or("the store is of the event model")?;
    over_references(rt, &graph, bits, &dropped, b, c, steps);
    by_value(rt, graph, bits, &dropped, b, c, steps);
    Ok(())
}

/// Whether the first edge is present in a view.
fn first_present<V: View, L: Ledger>(view: &V, steps: &mut Steps<L>) -> Option<bool> {
    if view.store().edges() == 0 {
        return None;
    }
    Some(edge_present(view, EdgeId(0), steps))
}

/// The edge is present from its addition up to its deletion, and from its second addition on.
fn four_windows<L: Ledger>(rt: &impl Abort, graph: &PersistentGraph<'_>, steps: &mut Steps<L>) {
    assert_eq!(rt; first_present(&at(graph, 4), steps), Some(true));
    assert_eq!(rt; first_present(&at(graph, 5), steps), Some(false));
    assert_eq!(rt; first_present(&window(graph, 5, 9), steps), Some(false));
    assert_eq!(rt; first_present(&at(graph, 9), steps), Some(true));
}

/// The next contact of the first edge after a moment.
fn contact<V: View, L: Ledger>(view: &V, after: i64, steps: &mut Steps<L>) -> Option<i64> {
    if view.store().edges() == 0 {
        return None;
    }
    next_contact(view, EdgeId(0), after, steps)
}

/// The edge lives on from one moment to the next up to its deletion, also in a window that it is
/// carried into.
fn contacts<L: Ledger>(rt: &impl Abort, graph: &PersistentGraph<'_>, steps: &mut Steps<L>) {
    assert_eq!(rt; contact(graph, 0, steps), Some(1));
    assert_eq!(rt; contact(graph, 1, steps), Some(2));
    assert_eq!(rt; contact(graph, 4, steps), Some(9));
    assert_eq!(rt; contact(&window(graph, 2, 9), 0, steps), Some(2));
    assert_eq!(rt; contact(&window(graph, 2, 9), 4, steps), None);
}

/// Two events are in a window, and the addition is carried into it.
fn counted<L: Ledger>(rt: &impl Abort, graph: &PersistentGraph<'_>, steps: &mut Steps<L>) {
    let shown = extent(&window(graph, 3, 10), Roster::All, steps);
    let wanted = WorldExtent {
        events: 3,
        first: Some(3),
        last: Some(9),
    };
    assert_eq!(rt; shown, wanted);
}

/// A window beyond the window that it stands on has no moment and no edge.
fn beyond<L: Ledger>(rt: &impl Abort, graph: PersistentGraph<'_>, steps: &mut Steps<L>) {
    let beyond = window(window(graph, 0, 5), 7, 9);
    assert_eq!(rt; beyond.bounds().lo(), 7);
    assert_eq!(rt; beyond.bounds().hi(), 7);
    assert_eq!(rt; first_present(&beyond, steps), Some(false));
}

/// An edge that is added, deleted and added again.
const DELETED_EDGE: [Row<'static>; 3] = [
    Row {
        time: 1,
        change: Change::Add,
        src: "a",
        dst: "b",
        layer: "l",
    },
    Row {
        time: 5,
        change: Change::Delete,
        src: "a",
        dst: "b",
        layer: "l",
    },
    Row {
        time: 9,
        change: Change::Add,
        src: "a",
        dst: "b",
        layer: "l",
    },
];

fn deletions<L: Ledger>(
    rt: &impl Abort,
    alloc: Global,
    store: &mut Store,
    steps: &mut Steps<L>,
) -> Result<(), Fail> {
    assert!(rt; put_all(alloc, store, DELETED_EDGE.as_slice(), steps));
    assert!(rt; EventGraph::over(store).is_none());
    let graph = PersistentGraph::over(store).ok_or("the store is of the persistent model")?;
    four_windows(rt, &graph, steps);
    contacts(rt, &graph, steps);
    counted(rt, &graph, steps);
    beyond(rt, graph, steps);
    Ok(())
}

fn nests_of_two_layers<L: Ledger>(rt: &impl Abort, alloc: Global, blank: Blank) -> Result<(), Fail>
    requires name { blank.name ≡ L.name }
    requires parts { blank.parts ≡ L.parts }
    requires one { blank.parts ≡ 1 }
{
    let mut steps = Steps::<L>::new(blank);
    let mut store = Store::new(alloc, Model::Event, Bounds::whole());
    let outcome = nests(rt, alloc, &mut store, &mut steps);
    drop(store);
    outcome
}

fn windows_of_a_deleted_edge<L: Ledger>(
    rt: &impl Abort,
    alloc: Global,
    blank: Blank,
) -> Result<(), Fail>
    requires name { blank.name ≡ L.name }
    requires parts { blank.parts ≡ L.parts }
    requires one { blank.parts ≡ 1 }
{
    let mut steps = Steps::<L>::new(blank);
    let mut store = Store::new(alloc, Model::Persistent, Bounds::whole());
    let outcome = deletions(rt, alloc, &mut store, &mut steps);
    drop(store);
    outcome
}

#[test]
fn nests_by_value_and_over_references(rt: HostRuntime) -> Result<(), Fail> {
    nests_of_two_layers::<Brand>(&rt, rt.alloc(), Blank::new(1))
}

#[test]
fn deleted_edge_under_windows(rt: HostRuntime) -> Result<(), Fail> {
    windows_of_a_deleted_edge::<Brand>(&rt, rt.alloc(), Blank::new(1))
}

#[test]
fn numbers_are_left_once_each(rt: HostRuntime) -> Result<(), Fail> {
    let mut nodes = NodeList::new(rt.alloc());
    nodes.refill([7, 3, 7, 1].as_slice())?;
    assert_eq!(rt; nodes.len(), 3);
    assert_eq!(rt;
        (nodes.item(0).0, nodes.item(1).0, nodes.item(2).0),
        (1, 3, 7)
    );
    let mut edges = EdgeList::new(rt.alloc());
    edges.push(EdgeId(9))?;
    edges.refill([2, 2].as_slice())?;
    assert_eq!(rt; edges.len(), 1);
    assert_eq!(rt; edges.item(0), EdgeId(2));
    Ok(())
}
