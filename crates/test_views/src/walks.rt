//! Walks over views of a small store, and the labels of its nodes.
ghost use Rattle.std.specs.Prelude.{◌≡◌};

use crate::listing::put_records;
use base_graphs::EventGraph;
use graph_model::{Bounds, Direction, Model};
use graph_store::{NodeId, Store};
use present_links::NodeRows;
use std::alloc::Global;
use std::marker::Brand;
use std::process::Abort;
use std::sync::ledger::{Blank, Ledger};
use std::test::Fail;
use time_column::Steps;
use view_trait::{Roster, View};
use walk_algorithms::{hops, in_component, out_component, weak_parts};
use window_view::window;

/// Six edges, and a node without one. The nodes have the numbers m 0, z 1, a 2, b 3, c 4, q 5, p 6 and
/// n 7, and so another order by number than by name.
const RECORDS: [&[u8]; 7] = [
    b"edge,1,m,z,l\n",
    b"edge,2,z,a,l\n",
    b"edge,3,m,a,l\n",
    b"edge,4,a,b,l\n",
    b"edge,5,c,m,l\n",
    b"edge,6,q,p,l\n",
    b"node,7,n\n",
];

/// Where a window begins and ends, the start of a walk and its direction, and the nodes that it reaches
/// with their distances, by name.
type Walk = (u32, u32, u32, Direction, &'static [(u32, u32)]);

const WALKS: [Walk; 6] = [
    (
        0,
        9,
        0,
        Direction::Outward,
        &[(2, 1), (3, 2), (0, 0), (1, 1)],
    ),
    (0, 9, 0, Direction::Inward, &[(4, 1), (0, 0)]),
    (
        0,
        9,
        0,
        Direction::Both,
        &[(2, 1), (3, 2), (4, 1), (0, 0), (1, 1)],
    ),
    (0, 9, 7, Direction::Both, &[(7, 0)]),
    (0, 3, 0, Direction::Outward, &[(2, 2), (0, 0), (1, 1)]),
    (6, 9, 0, Direction::Outward, &[]),
];

/// Where a window begins and ends, a node, and its out-component and in-component.
type Component = (u32, u32, u32, &'static [u32], &'static [u32]);

const COMPONENTS: [Component; 4] = [
    (0, 9, 0, &[2, 3, 1], &[4]),
    (0, 9, 2, &[3], &[4, 0, 1]),
    (0, 3, 2, &[], &[0, 1]),
    (6, 9, 0, &[], &[]),
];

/// Where a window begins and ends, and the present nodes with their labels.
type Labels = (u32, u32, &'static [(u32, u32)]);

const LABELS: [Labels; 3] = [
    (
        0,
        9,
        &[
            (2, 2),
            (3, 2),
            (4, 2),
            (0, 2),
            (7, 7),
            (6, 6),
            (5, 6),
            (1, 2),
        ],
    ),
    (0, 3, &[(2, 2), (0, 2), (1, 2)]),
    (8, 9, &[]),
];

fn walk_of<L: Ledger>(
    rt: &impl Abort,
    alloc: Global,
    graph: &EventGraph<'_>,
    walk: &Walk,
    steps: &mut Steps<L>,
) -> Result<(), Fail> {
    let (from, to, start, direction, wanted) = *walk;
    assert!(rt; start < graph.store.nodes());
    let view = window(graph, i64::from(from), i64::from(to));
    let rows = hops(alloc, &view, Roster::All, NodeId(start), direction, steps)?;
    assert_eq!(rt; rows.len(), wanted.len());
    for (i, hop) in wanted.iter().enumerate() {
        if i < rows.len() {
            let row = rows.item(i);
            assert_eq!(rt; (row.node.0, row.hops), *hop);
        }
    }
    Ok(())
}

/// The numbers of nodes.
fn nodes_are(rt: &impl Abort, rows: &NodeRows, wanted: &[u32]) {
    assert_eq!(rt; rows.len(), wanted.len());
    for (i, node) in wanted.iter().enumerate() {
        if i < rows.len() {
            assert_eq!(rt; rows.item(i).0, *node);
        }
    }
}

fn components_of<L: Ledger>(
    rt: &impl Abort,
    alloc: Global,
    graph: &EventGraph<'_>,
    component: &Component,
    steps: &mut Steps<L>,
) -> Result<(), Fail> {
    let (from, to, node, outward, inward) = *component;
    assert!(rt; node < graph.store.nodes());
    let view = window(graph, i64::from(from), i64::from(to));
    nodes_are(
        rt,
        &out_component(alloc, &view, Roster::All, NodeId(node), steps)?,
        outward,
    );
    nodes_are(
        rt,
        &in_component(alloc, &view, Roster::All, NodeId(node), steps)?,
        inward,
    );
    Ok(())
}

fn labels_of<L: Ledger>(
    rt: &impl Abort,
    alloc: Global,
    graph: &EventGraph<'_>,
    labels: &Labels,
    steps: &mut Steps<L>,
) -> Result<(), Fail> {
    let (from, to, wanted) = *labels;
    let view = window(graph, i64::from(from), i64::from(to));
    let parts = weak_parts(alloc, &view, Roster::All, steps)?;
    assert_eq!(rt; parts.len(), wanted.len());
    for (i, label) in wanted.iter().enumerate() {
        if i < parts.len() {
            let part = parts.item(i);
            assert_eq!(rt; (part.node.0, part.label.0), *label);
        }
    }
    Ok(())
}

fn walking<L: Ledger>(
    rt: &impl Abort,
    alloc: Global,
    store: &mut Store,
    steps: &mut Steps<L>,
) -> Result<(), Fail> {
    assert!(rt; put_records(alloc, store, RECORDS.as_slice(), steps)?);
    let graph = EventGraph::over(store).ok_or("the store is of the event model")?;
    for walk in &WALKS {
        walk_of(rt, alloc, &graph, walk, steps)?;
    }
    for component in &COMPONENTS {
        components_of(rt, alloc, &graph, component, steps)?;
    }
    for labels in &LABELS {
        labels_of(rt, alloc, &graph, labels, steps)?;
    }
    Ok(())
}

fn walks_of_a_store<L: Ledger>(rt: &impl Abort, alloc: Global, blank: Blank) -> Result<(), Fail>
    requires name { blank.name ≡ L.name }
    requires parts { blank.parts ≡ L.parts }
    requires one { blank.parts ≡ 1 }
{
    let mut steps = Steps::<L>::new(blank);
    let mut store = Store::new(alloc, Model::Event, Bounds::whole());
    let outcome = walking(rt, alloc, &mut store, &mut steps);
    drop(store);
    outcome
}

#[test]
fn walks_and_labels(rt: HostRuntime) -> Result<(), Fail> {
    walks_of_a_store::<Brand>(&rt, rt.alloc(), Blank::new(1))
}
