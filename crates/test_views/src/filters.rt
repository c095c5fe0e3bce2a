//! Filters by values, and questions about one node or one edge, over a small store.
ghost use Rattle.std.specs.Prelude.{◌≡◌};

use crate::listing::{prints, put_records};
use base_graphs::PersistentGraph;
use filter_view::{edges_where, nodes_where, valid};
use graph_model::{Bounds, Cmp, Model, Name, Value};
use graph_store::{EdgeId, NodeId, Store};
use std::alloc::Global;
use std::marker::Brand;
use std::process::Abort;
use std::sync::ledger::{Blank, Ledger};
use std::test::Fail;
use time_column::Steps;
use view_answers::{PointAnswer, PointAsk, answer_point};

/// A node with a value, and three edges with values, of which the third is deleted.
const RECORDS: [&[u8]; 5] = [
    b"node,1,a,age:i=41\n",
    b"edge,2,a,b,l,w:i=5\n",
    b"edge,3,a,c,l,w:i=2\n",
    b"edge,4,b,c,l,w:i=9\n",
    b"delete,7,b,c,l\n",
];

/// The edges with a value of at least 3: the deleted one has no value.
const HEAVY: &[u8] =
    b"span,-4611686018427387904,4611686018427387904\nnode,1,a,age:i=41\nedge,2,a,b,l,w:i=5\n";

/// The nodes with the value 41, and no edge, since its other end has no value.
const AGED: &[u8] = b"span,-4611686018427387904,4611686018427387904\nnode,1,a,age:i=41\n";

/// The edges that are not deleted.
const KEPT: &[u8] =
    b"span,-4611686018427387904,4611686018427387904\nnode,1,a,age:i=41\nedge,2,a,b,l,w:i=5\nedge,3,a,c,l,w:i=2\n";

fn filters<L: Ledger>(
    rt: &impl Abort,
    alloc: Global,
    graph: &PersistentGraph<'_>,
    steps: &mut Steps<L>,
) -> Result<(), Fail> {
    let age = graph
        .store
        .node_key(&Name::new(alloc, "age").ok().ok_or("a name")?);
    let weight = graph
        .store
        .edge_key(&Name::new(alloc, "w").ok().ok_or("a name")?);
    let least = Value::Int(3);
    prints(
        rt,
        alloc,
        &edges_where(graph, weight, Cmp::Ge, &least),
        HEAVY,
        steps,
    )?;
    let years = Value::Int(41);
    prints(
        rt,
        alloc,
        &nodes_where(graph, age, Cmp::Eq, &years),
        AGED,
        steps,
    )?;
    prints(rt, alloc, &valid(graph), KEPT, steps)?;
    Ok(())
}

/// The first node and the first edge have their values, and the third edge is dead from its deletion on.
fn points<L: Ledger>(
    rt: &impl Abort,
    graph: &PersistentGraph<'_>,
    steps: &mut Steps<L>,
) -> Result<(), Fail> {
    let store = graph.store;
    if store.nodes() < 1 || store.node_keys() < 1 || store.edges() < 3 || store.edge_keys() < 1 {
        return Err(Fail::from("the store has a node and three edges with values"));
    }
    let age = answer_point(graph, PointAsk::NodeValue(NodeId(0), 0), steps);
    assert!(rt; matches!(age, PointAnswer::Value(Value::Int(41))));
    let weight = answer_point(graph, PointAsk::EdgeValue(EdgeId(0), 0), steps);
    assert!(rt; matches!(weight, PointAnswer::Value(Value::Int(5))));
    for (moment, lives) in [(6, true), (7, false)] {
        let alive = answer_point(graph, PointAsk::EdgeAlive(EdgeId(2), moment), steps);
        assert!(rt;
            matches!(alive, PointAnswer::Flag(flag) if flag == lives),
            "at {moment}"
        );
    }
    Ok(())
}

fn filtering<L: Ledger>(
    rt: &impl Abort,
    alloc: Global,
    store: &mut Store,
    steps: &mut Steps<L>,
) -> Result<(), Fail> {
    assert!(rt; put_records(alloc, store, RECORDS.as_slice(), steps)?);
    let graph = PersistentGraph::over(store).ok_or("the store is of the persistent model")?;
    filters(rt, alloc, &graph, steps)?;
    points(rt, &graph, steps)
}

fn filters_of_a_store<L: Ledger>(rt: &impl Abort, alloc: Global, blank: Blank) -> Result<(), Fail>
    requires name { blank.name ≡ L.name }
    requires parts { blank.parts ≡ L.parts }
    requires one { blank.parts ≡ 1 }
{
    let mut steps = Steps::<L>::new(blank);
    let mut store = Store::new(alloc, Model::Persistent, Bounds::whole());
    let outcome = filtering(rt, alloc, &mut store, &mut steps);
    drop(store);
    outcome
}

#[test]
fn filters_and_points(rt: HostRuntime) -> Result<(), Fail> {
    filters_of_a_store::<Brand>(&rt, rt.alloc(), Blank::new(1))
}
