//! Why an event or a type is refused.
ghost use Rattle.std.specs.Prelude.{◌≡◌, ℕ, ◌+◌, ◌-◌, ◌^◌, ◌<◌, ◌≤◌, option_map, length, IsTrue};
ghost use Rattle.std.specs.List.{find};
ghost use Rattle.indexmap.specs.IndexSet.{insert_key};
ghost use Rattle.graph_model.specs.Limits.{most_events, most_nodes, most_layers, most_keys};
ghost use Rattle.graph_model.specs.Names.{same_name};
ghost use Rattle.graph_model.specs.Entity.{props_of};
ghost use Rattle.graph_model.specs.World.{allows};
ghost use Rattle.graph_model.specs.Accepting.{all_quantities};
ghost use Rattle.graph_store.specs.Refusals.{quantity_of, is_above};

use graph_model::{
    Event, MOST_EVENTS, MOST_KEYS, MOST_LAYERS, MOST_NODES, MOST_TYPES, Model, Name, ValueType,
    What,
};
use name_intern::NameTable;

/// What there are limits for, in the order in which they are looked at.
#[derive(Clone, Copy, Debug, PartialEq, Eq)]
pub enum Count {
    /// Accepted events, `MOST_EVENTS` at the most.
    Events,
    /// Nodes that events or types name, `MOST_NODES` at the most.
    Nodes,
    /// Layers, `MOST_LAYERS` at the most.
    Layers,
    /// Keys of nodes, `MOST_KEYS` at the most.
    NodeKeys,
    /// Keys of edges, `MOST_KEYS` at the most.
    EdgeKeys,
    /// Names of types, `MOST_TYPES` at the most.
    Types,
}

/// Why an event or a type of a node is refused, in the order in which it is judged.
#[derive(Drop)]
pub enum StoreRefusal {
    /// The event is a deletion, and the model has none.
    Deletion,
    /// A key keeps another type than its value has. It is the first such key by its bytes.
    KeyType { kept: ValueType, given: ValueType },
    /// The node has another type, which has this number.
    Retype { kept: u32 },
    /// There would be too many of these.
    Limit(Count),
    /// There is no memory.
    Memory,
}

/// How many events, nodes, layers, keys and names of types there are.
#[derive(Clone, Copy)]
pub struct Totals {
    pub events: u32,
    pub nodes: u32,
    pub layers: u32,
    pub node_keys: usize,
    pub edge_keys: usize,
    pub types: u32,
}

/// The first of which there are too many.
pub fn first_above(totals: Totals) -> Option<Count>
    ensures { option_map quantity_of result ≡ find (is_above totals) all_quantities }
{
    if totals.events > MOST_EVENTS {
        return Some(Count::Events);
    }
    if totals.nodes > MOST_NODES {
        return Some(Count::Nodes);
    }
    if totals.layers > MOST_LAYERS {
        return Some(Count::Layers);
    }
    if totals.node_keys > MOST_KEYS as usize {
        return Some(Count::NodeKeys);
    }
    if totals.edge_keys > MOST_KEYS as usize {
        return Some(Count::EdgeKeys);
    }
    if totals.types > MOST_TYPES {
        return Some(Count::Types);
    }
    None
}

/// Whether no limit is passed with an event, two nodes, a layer, and so many keys of nodes and of
/// edges more.
pub fn leaves_room(totals: Totals, keys: usize) -> bool
    requires node_keys { totals.node_keys ≤ most_keys }
    requires edge_keys { totals.edge_keys ≤ most_keys }
    ensures events { IsTrue result → totals.events < most_events }
    ensures nodes { IsTrue result → totals.nodes + 2 ≤ most_nodes }
    ensures layers { IsTrue result → totals.layers < most_layers }
    ensures node_keys { IsTrue result → totals.node_keys + keys ≤ most_keys }
    ensures edge_keys { IsTrue result → totals.edge_keys + keys ≤ most_keys }
{
    totals.events < MOST_EVENTS
        && totals.nodes < MOST_NODES - 1
        && totals.layers < MOST_LAYERS
        && keys <= MOST_KEYS as usize - totals.node_keys
        && keys <= MOST_KEYS as usize - totals.edge_keys
}

/// How many keys an event sets.
pub fn key_count(event: &Event) -> usize
    ensures { result ≡ length (props_of event.now) }
{
    match &event.what {
        What::Node(_, props) | What::Add(_, props) => props.len(),
        What::Delete(_) => 0,
    }
}

/// Whether a model has an event's kind.
pub fn is_allowed(model: Model, event: &Event) -> bool
    ensures { result ≡ allows model event.now }
{
    match (model, &event.what) {
        (Model::Event, What::Delete(_)) => false,
        _ => true,
    }
}

/// How many names there would be with one that is new or known.
pub fn count_with(names: &NameTable, name: &Name) -> u32
    requires { length names.now.names < 2 ^ 32 - 1 }
    ensures { result ≡ length (insert_key same_name names.now.names name.now) }
{
    let known = names.len();
    match names.find(name) {
        Some(_) => known,
        None => known + 1,
    }
}

/// How many names there would be with two that are new or known.
pub fn count_with_both(names: &NameTable, first: &Name, second: &Name) -> u32
    requires { length names.now.names < 2 ^ 32 - 2 }
    ensures { result
        ≡ length (insert_key same_name
        (insert_key same_name names.now.names first.now) second.now) }
{
    let known = count_with(names, first);
    if *first == *second {
        return known;
    }
    match names.find(second) {
        Some(_) => known,
        None => known + 1,
    }
}
