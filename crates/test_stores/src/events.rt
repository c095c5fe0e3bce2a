//! Events taken and refused one after another, with what a person says of them.
ghost use Rattle.std.specs.Prelude.{◌≡◌};

use crate::names::name;
use graph_model::{
    Bounds, EdgeName, Event, Model as Lasting, Name, Props, Text, Value, ValueType, What,
};
use graph_store::{Count, EdgeId, NodeId, PairId, Store, StoreRefusal};
use std::alloc::Global;
use std::marker::Brand;
use std::process::Abort;
use std::sync::ledger::{Blank, Ledger};
use std::test::Fail;
use time_column::Steps;

fn edge(alloc: Global, src: &str, dst: &str, layer: &str) -> Result<EdgeName, Fail> {
    Ok(EdgeName {
        src: name(alloc, src)?,
        dst: name(alloc, dst)?,
        layer: name(alloc, layer)?,
    })
}

fn value(alloc: Global, text: &str) -> Result<Value, Fail> {
    if text == "7" {
        return Ok(Value::Int(7));
    }
    Ok(Value::Text(Text::new(alloc, text).ok().ok_or("no text")?))
}

/// A value of the key `k`: the number 7, another text, or none where the text is empty.
fn props(alloc: Global, text: &str) -> Result<Props, Fail> {
    if text.is_empty() {
        return Ok(Props::new(alloc));
    }
    let key = name(alloc, "k")?;
    let value = value(alloc, text)?;
    let mut props = Props::new(alloc);
    props.insert(key, value).ok().ok_or("no property")?;
    Ok(props)
}

/// An update of the first node, or an addition or a deletion of an edge.
fn what(alloc: Global, sort: &str, names: (&str, &str, &str), set: &str) -> Result<What, Fail> {
    let props = props(alloc, set)?;
    if sort == "node" {
        return Ok(What::Node(name(alloc, names.0)?, props));
    }
    let edge = edge(alloc, names.0, names.1, names.2)?;
    if sort == "add" {
        Ok(What::Add(edge, props))
    } else {
        Ok(What::Delete(edge))
    }
}

/// Why an event is refused, in a word.
fn cause(refusal: StoreRefusal) -> &'static str {
    match refusal {
        StoreRefusal::Deletion => "deletion",
        StoreRefusal::KeyType {
            kept: ValueType::Int,
            given: ValueType::Text,
        } => "a number is kept",
        StoreRefusal::KeyType { .. } => "type",
        StoreRefusal::Retype { .. } => "retype",
        StoreRefusal::Limit(Count::Layers) => "layers",
        StoreRefusal::Limit(_) => "limit",
        StoreRefusal::Memory => "memory",
    }
}

/// What becomes of an event, in a word.
fn outcome<L: Ledger>(
    store: &mut Store,
    time: i64,
    what: What,
    steps: &mut Steps<L>,
) -> &'static str {
    if !store.bounds().holds(time) {
        return "outside";
    }
    let event = Event {
        time,
        order: 0,
        what,
    };
    match store.apply(event, steps) {
        Ok(_) => "accepted",
        Err(refusal) => cause(refusal),
    }
}

/// Events in words, one after another, with what becomes of each: its sort, its time, the names of
/// its node or of its edge's source, destination and layer, and what it sets.
fn outcomes_are<L: Ledger>(
    rt: &impl Abort,
    alloc: Global,
    store: &mut Store,
    events: &[(&str, i64, &str, &str, &str, &str, &str)],
    steps: &mut Steps<L>,
) -> Result<(), Fail> {
    for words in events {
        let (sort, time, src, dst, layer, set, wanted) = *words;
        let what = what(alloc, sort, (src, dst, layer), set)?;
        assert_eq!(rt;
            outcome(store, time, what, steps),
            wanted,
            "{sort} at {time}"
        );
    }
    Ok(())
}

/// How many events, nodes, layers, edges, pairs, keys of nodes and keys of edges there are.
fn counts(store: &Store) -> [u32; 7] {
    [
        store.events(),
        store.nodes(),
        store.layers(),
        store.edges(),
        store.pairs(),
        store.node_keys(),
        store.edge_keys(),
    ]
}

/// Whether a node, a layer, a key of nodes and a key of edges have this name.
fn known(alloc: Global, store: &Store, text: &str) -> Result<[bool; 4], Fail> {
    let name = name(alloc, text)?;
    Ok([
        store.node_of(&name).is_some(),
        store.layer_of(&name).is_some(),
        store.node_key(&name).is_some(),
        store.edge_key(&name).is_some(),
    ])
}

fn refused<L: Ledger>(
    rt: &impl Abort,
    alloc: Global,
    store: &mut Store,
    steps: &mut Steps<L>,
) -> Result<(), Fail> {
    let events = [
        ("delete", 1, "a", "b", "l", "", "deletion"),
        ("node", 1, "a", "", "", "7", "accepted"),
        ("node", 2, "z", "", "", "x", "a number is kept"),
    ];
    outcomes_are(rt, alloc, store, events.as_slice(), steps)?;
    assert_eq!(rt; counts(store), [1, 1, 0, 0, 0, 1, 0]);
    assert_eq!(rt; known(alloc, store, "a")?, [true, false, false, false]);
    assert_eq!(rt; known(alloc, store, "z")?, [false, false, false, false]);
    assert_eq!(rt; known(alloc, store, "k")?, [false, false, true, false]);
    Ok(())
}

/// Edges from a to b in 64 layers, and what becomes of the last.
fn layered<L: Ledger>(
    alloc: Global,
    store: &mut Store,
    steps: &mut Steps<L>,
) -> Result<&'static str, Fail> {
    let mut last = "nothing";
    for i in 1..65_u32 {
        let layer = format!(in alloc; "layer{i}")?;
        let edge = edge(alloc, "a", "b", layer.as_str())?;
        last = outcome(store, i as i64, What::Add(edge, Props::new(alloc)), steps);
    }
    Ok(last)
}

/// The first two pairs that begin at a node, and those that end there.
fn pairs_at(store: &Store, node: u32) -> [Option<PairId>; 4] {
    if node >= store.nodes() {
        return [None, None, None, None];
    }
    let mut outward = store.out_pairs(NodeId(node));
    let mut inward = store.in_pairs(NodeId(node));
    [outward.next(), outward.next(), inward.next(), inward.next()]
}

/// Whether the edges of a pair are those of the numbers below `count`, each once.
fn has_edges(store: &Store, pair: u32, count: u32) -> bool {
    if pair >= store.pairs() {
        return false;
    }
    let mut edges = store.edges_of(PairId(pair));
    for i in 0..count {
        if edges.next() != Some(EdgeId(i)) {
            return false;
        }
    }
    edges.next().is_none()
}

fn one_pair<L: Ledger>(
    rt: &impl Abort,
    alloc: Global,
    store: &mut Store,
    steps: &mut Steps<L>,
) -> Result<(), Fail> {
    assert_eq!(rt; layered(alloc, store, steps)?, "accepted");
    let more = [
        ("add", 0, "a", "b", "layer64", "7", "accepted"),
        ("delete", 1, "a", "c", "layer65", "", "deletion"),
        ("add", 1, "a", "c", "layer65", "x", "a number is kept"),
        ("add", 1, "a", "c", "layer65", "7", "layers"),
    ];
    outcomes_are(rt, alloc, store, more.as_slice(), steps)?;
    assert_eq!(rt; counts(store), [65, 2, 64, 64, 1, 0, 1]);
    assert_eq!(rt;
        known(alloc, store, "layer65")?,
        [false, false, false, false]
    );
    assert_eq!(rt; pairs_at(store, 0), [Some(PairId(0)), None, None, None]);
    assert_eq!(rt; pairs_at(store, 1), [None, None, Some(PairId(0)), None]);
    assert!(rt; has_edges(store, 0, 64));
    Ok(())
}

/// The times of an edge's two updates, and which of them delete it.
fn two_updates<L: Ledger>(
    store: &Store,
    edge: u32,
    steps: &mut Steps<L>,
) -> Option<[(i64, bool); 2]> {
    if edge >= store.edges() {
        return None;
    }
    let history = store.edge_history(EdgeId(edge));
    if history.len() != 2 {
        return None;
    }
    let first = (history.time_at(0, steps), history.kind_at(0).is_deletion());
    let second = (history.time_at(1, steps), history.kind_at(1).is_deletion());
    Some([first, second])
}

fn deleted_late<L: Ledger>(
    rt: &impl Abort,
    alloc: Global,
    store: &mut Store,
    steps: &mut Steps<L>,
) -> Result<(), Fail> {
    let events = [
        ("add", 5, "b", "a", "mail", "7", "accepted"),
        ("delete", 3, "b", "a", "mail", "", "accepted"),
        ("node", 4, "a", "", "", "7", "accepted"),
    ];
    outcomes_are(rt, alloc, store, events.as_slice(), steps)?;
    assert_eq!(rt; counts(store), [3, 2, 1, 1, 1, 1, 1]);
    let updates = two_updates(store, 0, steps);
    assert_eq!(rt; updates, Some([(3, true), (5, false)]));
    Ok(())
}

/// What the first edge, the first pair and the second node have: numbers, and the length of a history.
fn numbers(store: &Store) -> Option<((NodeId, NodeId, u8), (NodeId, NodeId), u32)> {
    if store.edges() == 0 || store.pairs() == 0 || store.nodes() < 2 {
        return None;
    }
    let parts = store.edge_parts(EdgeId(0));
    let ends = store.pair_ends(PairId(0));
    Some((parts, ends, store.node_history(NodeId(1)).len()))
}

/// The first names of a node, a layer, a key of nodes and a key of edges.
fn first_names(store: &Store) -> [&str; 4] {
    if store.nodes() == 0
        || store.layers() == 0
        || store.node_keys() == 0
        || store.edge_keys() == 0
    {
        return ["", "", "", ""];
    }
    [
        store.node_name(NodeId(0)).as_str(),
        store.layer_name(0).as_str(),
        store.node_key_name(0).as_str(),
        store.edge_key_name(0).as_str(),
    ]
}

fn read(rt: &impl Abort, alloc: Global, store: &Store) -> Result<(), Fail> {
    let there = (NodeId(0), NodeId(1), 0);
    let ends = (NodeId(0), NodeId(1));
    assert_eq!(rt; numbers(store), Some((there, ends, 1)));
    assert_eq!(rt; first_names(store), ["b", "mail", "k", "k"]);
    assert_eq!(rt; store.pair_of(NodeId(0), NodeId(1)), Some(PairId(0)));
    assert_eq!(rt; store.pair_of(NodeId(1), NodeId(0)), None);
    let there = edge(alloc, "b", "a", "mail")?;
    assert_eq!(rt; store.edge_of(&there), Some(EdgeId(0)));
    let back = edge(alloc, "a", "b", "mail")?;
    assert_eq!(rt; store.edge_of(&back), None);
    assert!(rt; matches!(store.model(), Lasting::Persistent));
    Ok(())
}

fn taken_and_read<L: Ledger>(
    rt: &impl Abort,
    alloc: Global,
    store: &mut Store,
    steps: &mut Steps<L>,
) -> Result<(), Fail> {
    deleted_late(rt, alloc, store, steps)?;
    read(rt, alloc, store)
}

/// What is done with a new store.
#[derive(Clone, Copy)]
enum Case {
    /// Events that are refused leave nothing behind.
    Refused,
    /// One pair has 64 edges, each in a layer of its own.
    OnePair,
    /// A deletion comes late.
    LateDeletion,
}

fn played<L: Ledger>(
    rt: &impl Abort,
    alloc: Global,
    case: Case,
    store: &mut Store,
    steps: &mut Steps<L>,
) -> Result<(), Fail> {
    match case {
        Case::Refused => refused(rt, alloc, store, steps),
        Case::OnePair => one_pair(rt, alloc, store, steps),
        Case::LateDeletion => taken_and_read(rt, alloc, store, steps),
    }
}

// The store is given back by a call of its own, since a function that does so itself is proved slowly.
fn in_new_store<L: Ledger>(
    rt: &impl Abort,
    alloc: Global,
    model: Lasting,
    case: Case,
    steps: &mut Steps<L>,
) -> Result<(), Fail> {
    let mut store = Store::new(alloc, model, Bounds::whole());
    let outcome = played(rt, alloc, case, &mut store, steps);
    drop(store);
    outcome
}

fn all_rows<L: Ledger>(rt: &impl Abort, alloc: Global, blank: Blank) -> Result<(), Fail>
    requires name { blank.name ≡ L.name }
    requires parts { blank.parts ≡ L.parts }
    requires one { blank.parts ≡ 1 }
{
    let mut steps = Steps::<L>::new(blank);
    in_new_store(rt, alloc, Lasting::Event, Case::Refused, &mut steps)?;
    in_new_store(rt, alloc, Lasting::Event, Case::OnePair, &mut steps)?;
    in_new_store(
        rt,
        alloc,
        Lasting::Persistent,
        Case::LateDeletion,
        &mut steps,
    )
}

#[test]
fn events_one_after_another(rt: HostRuntime) -> Result<(), Fail> {
    all_rows::<Brand>(&rt, rt.alloc(), Blank::new(1))
}
