//! Earliest arrivals in small graphs.
ghost use Rattle.std.specs.Prelude.{◌≡◌};

use crate::listing::put_records;
use base_graphs::{EventGraph, PersistentGraph};
use graph_model::{Bounds, Model, Name};
use graph_store::{NodeId, Store};
use std::alloc::Global;
use std::marker::Brand;
use std::process::Abort;
use std::sync::ledger::{Blank, Ledger};
use std::test::Fail;
use temporal_reach::{Arrivals, Reached, earliest_arrival};
use time_column::Steps;
use view_trait::{NodeList, View};

/// Two edges at one moment, one way round that is later, an edge that is over before the start, and a
/// node of which nothing but its type is known.
const RECORDS: [&[u8]; 6] = [
    b"edge,1,a,b,l\n",
    b"edge,1,b,c,l\n",
    b"edge,5,a,d,l\n",
    b"edge,9,d,c,l\n",
    b"edge,-3,a,e,l\n",
    b"type,z,person\n",
];

fn node(alloc: Global, store: &Store, name: &str) -> Option<NodeId> {
    let name = Name::new(alloc, name).ok()?;
    store.node_of(&name)
}

/// The nodes with these names, of which the store has all.
fn nodes(alloc: Global, store: &Store, names: &[&str]) -> Result<NodeList, Fail> {
    let mut nodes = NodeList::new(alloc);
    for name in names {
        nodes.push(node(alloc, store, name).ok_or("a node of the store")?)?;
    }
    Ok(nodes)
}

/// The nodes and when they are reached; a seed is reached at no moment.
fn arrivals_are(
    rt: &impl Abort,
    alloc: Global,
    store: &Store,
    arrivals: &Arrivals,
    wanted: &[(&str, Option<i64>)],
) {
    assert_eq!(rt; arrivals.len(), wanted.len());
    for (i, (name, moment)) in wanted.iter().enumerate() {
        if i < arrivals.len() {
            let arrival = arrivals.item(i);
            assert!(rt; node(alloc, store, name).is_some_and(|n| n.0 == arrival.node.0));
            let reached = match arrival.reached {
                Reached::Start => None,
                Reached::Moment { moment, by: _ } => Some(moment),
            };
            assert_eq!(rt; reached, *moment);
        }
    }
}

/// From `a`, which is present, and `z`, which is not, from the moment 0 on.
fn from_two_seeds<V: View, L: Ledger>(
    rt: &impl Abort,
    alloc: Global,
    view: &V,
    wanted: &[(&str, Option<i64>)],
    steps: &mut Steps<L>,
) -> Result<(), Fail> {
    let seeds = nodes(alloc, view.store(), ["a", "z"].as_slice())?;
    let arrivals = earliest_arrival(alloc, view, &seeds, 0, steps)?;
    arrivals_are(rt, alloc, view.store(), &arrivals, wanted);
    Ok(())
}

fn arriving<L: Ledger>(
    rt: &impl Abort,
    alloc: Global,
    store: &mut Store,
    steps: &mut Steps<L>,
) -> Result<(), Fail> {
    assert!(rt; put_records(alloc, store, RECORDS.as_slice(), steps)?);
    match store.model() {
        Model::Event => {
            let graph = EventGraph::over(store).ok_or("the store is of the event model")?;
            let wanted = [("a", None), ("b", Some(1)), ("c", Some(9)), ("d", Some(5))];
            from_two_seeds(rt, alloc, &graph, wanted.as_slice(), steps)
        }
        Model::Persistent => {
            let graph = PersistentGraph::over(store).ok_or("the store is of the other model")?;
            let wanted = [
                ("a", None),
                ("b", Some(1)),
                ("c", Some(2)),
                ("d", Some(5)),
                ("e", Some(0)),
            ];
            from_two_seeds(rt, alloc, &graph, wanted.as_slice(), steps)
        }
    }
}

fn arrivals_of_a_store<L: Ledger>(
    rt: &impl Abort,
    alloc: Global,
    model: Model,
    blank: Blank,
) -> Result<(), Fail>
    requires name { blank.name ≡ L.name }
    requires parts { blank.parts ≡ L.parts }
    requires one { blank.parts ≡ 1 }
{
    let mut steps = Steps::<L>::new(blank);
    let mut store = Store::new(alloc, model, Bounds::whole());
    let outcome = arriving(rt, alloc, &mut store, &mut steps);
    drop(store);
    outcome
}

#[test]
fn moments_rise_strictly_in_event_graphs(rt: HostRuntime) -> Result<(), Fail> {
    arrivals_of_a_store::<Brand>(&rt, rt.alloc(), Model::Event, Blank::new(1))
}

#[test]
fn journeys_wait_on_lasting_edges(rt: HostRuntime) -> Result<(), Fail> {
    arrivals_of_a_store::<Brand>(&rt, rt.alloc(), Model::Persistent, Blank::new(1))
}
