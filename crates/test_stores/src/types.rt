//! Types of nodes, given first, given again and refused.
use crate::names::name;
use graph_model::{Bounds, Model, Name};
use graph_store::{NodeId, Store, StoreRefusal};
use std::alloc::Global;
use std::process::Abort;
use std::test::Fail;

/// What becomes of a type that is given to a node, in a word.
fn given(alloc: Global, store: &mut Store, node: &str, kind: &str) -> Result<&'static str, Fail> {
    let node = name(alloc, node)?;
    let kind = name(alloc, kind)?;
    Ok(match store.set_type(node, kind) {
        Ok(()) => "accepted",
        Err(StoreRefusal::Retype { kept: 0 }) => "the first type is kept",
        Err(_) => "refused",
    })
}

fn types_given(rt: &impl Abort, alloc: Global, store: &mut Store) -> Result<(), Fail> {
    let rows = [
        ("a", "person", "accepted"),
        ("b", "shop", "accepted"),
        ("a", "bank", "the first type is kept"),
        ("c", "person", "accepted"),
        ("a", "person", "accepted"),
    ];
    for (node, kind, wanted) in rows.as_slice() {
        assert_eq!(rt; given(alloc, store, node, kind)?, *wanted, "{node} {kind}");
    }
    Ok(())
}

/// The number of the second node's type and its name, and the length of the node's history.
fn second(store: &Store) -> Option<(u32, &str, u32)> {
    if store.nodes() < 2 {
        return None;
    }
    let kind = store.type_of(NodeId(1))?;
    let length = store.node_history(NodeId(1)).len();
    Some((kind, store.type_name(kind).as_str(), length))
}

fn types_read(rt: &impl Abort, alloc: Global, store: &Store) -> Result<(), Fail> {
    assert_eq!(rt; store.type_id(&name(alloc, "person")?), Some(0));
    assert_eq!(rt; store.type_id(&name(alloc, "bank")?), None);
    assert_eq!(rt; (store.types(), store.nodes(), store.events()), (2, 3, 0));
    assert_eq!(rt; second(store), Some((1, "shop", 0)));
    Ok(())
}

fn kept_types(rt: &impl Abort, alloc: Global, store: &mut Store) -> Result<(), Fail> {
    types_given(rt, alloc, store)?;
    types_read(rt, alloc, store)
}

#[test]
fn a_node_keeps_the_type_that_it_was_given_first(rt: HostRuntime) -> Result<(), Fail> {
    let mut store = Store::new(rt.alloc(), Model::Event, Bounds::whole());
    let outcome = kept_types(&rt, rt.alloc(), &mut store);
    drop(store);
    outcome
}
