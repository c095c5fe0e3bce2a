//! Events of nodes and edges, taken with the keys of their properties.
ghost use Rattle.std.specs.Prelude.{◌≡◌, ℕ, List, ◌+◌, ◌-◌, ◌^◌, ◌<◌, ◌≤◌, true, is_some, position, length, vec_len, IfOk, OnOk, OnErr};
ghost use Rattle.indexmap.specs.IndexSet.{insert_key};
ghost use Rattle.graph_model.specs.declared.properties.Value.{Value as GraphValue};
ghost use Rattle.graph_model.specs.Limits.{most_layers};
ghost use Rattle.graph_model.specs.Names.{same_name};
ghost use Rattle.graph_model.specs.Searches.{digits};
ghost use Rattle.graph_store.specs.Telling.{updates_of_number};
ghost use Rattle.graph_store.specs.Histories.{updates_in};
ghost use Rattle.graph_store.specs.Keys.{type_in, with_keys, prop_at};
ghost use Rattle.graph_model.specs.Entity.{same_entity};
ghost use Rattle.graph_model.specs.declared.events.Entity.TheVariants.{Edge as EdgeNamed};
ghost use Rattle.graph_store.specs.EdgeParts.{parts_at};
ghost use Rattle.graph_store.specs.Contents.{edge_entities};
ghost use Rattle.graph_store.specs.FiledAs.{IsNumberOf, IsEdgeNumber};
ghost use Rattle.graph_store.specs.WithUpdate.{update_of, with_ends, with_end_histories, HasEdge, ArrivesNext, TakeUpdate};

use crate::edges::EdgeTable;
use crate::filing::{file_edge, file_node};
use crate::keys::KeyTable;
use crate::walks::{EdgeId, NodeId};
use graph_model::{EdgeName, Memory, Name, Props};
use name_intern::NameTable;
use std::alloc::Global;
use std::sync::ledger::Ledger;
use time_column::Steps;
use time_history::{History, KeyValues, Kind, Update};

/// When an event happens, its number in the order of arrival, and what it does.
#[derive(Clone, Copy)]
pub struct Arrival {
    pub time: i64,
    pub order: u32,
    pub number: u32,
    pub kind: Kind,
}

/// The number of the entity of an event that was accepted.
#[derive(Clone, Copy, Debug, PartialEq, Eq)]
pub enum Filed {
    Node(NodeId),
    Edge(EdgeId),
}

impl Arrival {
    /// The update that sets these values.
    fn update(self, props: KeyValues) -> Update
        ensures { result ≡ update_of self props }
    {
        Update {
            time: self.time,
            order: self.order,
            arrival: u64::from(self.number),
            kind: self.kind,
            props,
        }
    }
}

/// Files an update of a node, whose keys all have numbers.
fn file_numbered<L: Ledger>(
    alloc: Global,
    keys: &KeyTable,
    nodes: &mut NameTable,
    links: &mut EdgeTable,
    histories: &mut Vec<History>,
    name: Name,
    props: &Props,
    arrival: Arrival,
    steps: &mut Steps<L>,
) -> Result<u32, Memory>
    requires keys { length keys.now < 2 ^ 32 }
    requires known { (i : ℕ) → i < length props.now
        → is_some (type_in keys.now (prop_at props.now i).0) ≡ true }
    requires linked { links.old.nodes ≡ length nodes.old.names }
    requires lengths { vec_len histories.old ≡ length nodes.old.names }
    requires few { length (insert_key same_name nodes.old.names name) ≤ nodes.old.limit }
    requires fewer { length nodes.old.names < 2 ^ 32 - 1 }
    requires next { (values : List (ℕ × GraphValue)) (i : ℕ) → i < vec_len histories.old
        → ArrivesNext (update_of arrival values)
        (updates_of_number (updates_in histories.old.items) i) }
    requires early { arrival.number < 2 ^ 32 - 1 }
    ensures limit { nodes.new.limit ≡ nodes.old.limit }
    ensures edges { links.new.edges ≡ links.old.edges }
    ensures pairs { links.new.pairs ≡ links.old.pairs }
    ensures linked { links.new.nodes ≡ length nodes.new.names }
    ensures names { OnOk result (nodes.new.names ≡ insert_key same_name nodes.old.names name) }
    ensures number { IfOk result (IsNumberOf nodes.new.names name) }
    ensures taken { let found = position (same_name name) nodes.old.names in
        OnOk result (TakeUpdate keys.now props.now arrival found
        (updates_in histories.old.items) (updates_in histories.new.items)) }
    ensures err_names { OnErr result (nodes.new.names ≡ nodes.old.names) }
    ensures err_filed { OnErr result (updates_in histories.new.items
        ≡ updates_in histories.old.items) }
    ensures cost { steps.new ≤ steps.old + (digits arrival.number + 1) }
{
    let values = keys.number(alloc, props)?;
    file_node(
        alloc,
        nodes,
        links,
        histories,
        name,
        arrival.update(values),
        steps,
    )
}

/// Takes an update of a node, which is new or known. Its keys, which are new or known, get numbers.
/// It answers the node's number.
pub fn take_node<L: Ledger>(
    alloc: Global,
    keys: &mut KeyTable,
    nodes: &mut NameTable,
    links: &mut EdgeTable,
    histories: &mut Vec<History>,
    name: Name,
    props: &Props,
    arrival: Arrival,
    steps: &mut Steps<L>,
) -> Result<u32, Memory>
    requires keys { length (with_keys keys.old props.now) < 2 ^ 32 }
    requires linked { links.old.nodes ≡ length nodes.old.names }
    requires lengths { vec_len histories.old ≡ length nodes.old.names }
    requires few { length (insert_key same_name nodes.old.names name) ≤ nodes.old.limit }
    requires fewer { length nodes.old.names < 2 ^ 32 - 1 }
    requires next { (values : List (ℕ × GraphValue)) (i : ℕ) → i < vec_len histories.old
        → ArrivesNext (update_of arrival values)
        (updates_of_number (updates_in histories.old.items) i) }
    requires early { arrival.number < 2 ^ 32 - 1 }
    ensures limit { nodes.new.limit ≡ nodes.old.limit }
    ensures edges { links.new.edges ≡ links.old.edges }
    ensures pairs { links.new.pairs ≡ links.old.pairs }
    ensures linked { links.new.nodes ≡ length nodes.new.names }
    ensures keys { OnOk result (keys.new ≡ with_keys keys.old props.now) }
    ensures names { OnOk result (nodes.new.names ≡ insert_key same_name nodes.old.names name) }
    ensures number { IfOk result (IsNumberOf nodes.new.names name) }
    ensures taken { let found = position (same_name name) nodes.old.names in
        OnOk result (TakeUpdate (with_keys keys.old props.now) props.now arrival found
        (updates_in histories.old.items) (updates_in histories.new.items)) }
    ensures err_keys { OnErr result (keys.new ≡ keys.old) }
    ensures err_names { OnErr result (nodes.new.names ≡ nodes.old.names) }
    ensures err_filed { OnErr result (updates_in histories.new.items
        ≡ updates_in histories.old.items) }
    ensures cost { steps.new ≤ steps.old + (digits arrival.number + 1) }
{
    let known = keys.count();
    keys.add(props)?;
    match file_numbered(
        alloc, keys, nodes, links, histories, name, props, arrival, steps,
    ) {
        Ok(node) => Ok(node),
        Err(memory) => {
            keys.cut(known);
            Err(memory)
        }
    }
}

/// Files an event of an edge, whose keys all have numbers.
fn file_numbered_edge<L: Ledger>(
    alloc: Global,
    keys: &KeyTable,
    nodes: &mut NameTable,
    layers: &mut NameTable,
    links: &mut EdgeTable,
    node_histories: &mut Vec<History>,
    edge_histories: &mut Vec<History>,
    edge: EdgeName,
    props: &Props,
    arrival: Arrival,
    steps: &mut Steps<L>,
) -> Result<u32, Memory>
    requires keys { length keys.now < 2 ^ 32 }
    requires known { (i : ℕ) → i < length props.now
        → is_some (type_in keys.now (prop_at props.now i).0) ≡ true }
    requires linked { links.old.nodes ≡ length nodes.old.names }
    requires few { length (with_ends nodes.old.names edge) ≤ nodes.old.limit }
    requires fewer { length nodes.old.names < 2 ^ 32 - 2 }
    requires few_layers { length (insert_key same_name layers.old.names edge.layer)
        ≤ layers.old.limit }
    requires layer_limit { layers.old.limit ≡ most_layers }
    requires within { (e : ℕ) → e < length links.old.edges
        → ((parts_at links.old.edges e).src < length nodes.old.names)
        × ((parts_at links.old.edges e).dst < length nodes.old.names)
        × ((parts_at links.old.edges e).layer < length layers.old.names) }
    requires lengths { vec_len edge_histories.old ≡ length links.old.edges }
    requires few_edges { length links.old.edges < 2 ^ 32 - 1 }
    requires next { (values : List (ℕ × GraphValue)) (i : ℕ) → i < vec_len edge_histories.old
        → ArrivesNext (update_of arrival values)
        (updates_of_number (updates_in edge_histories.old.items) i) }
    requires early { arrival.number < 2 ^ 32 - 1 }
    ensures limit { nodes.new.limit ≡ nodes.old.limit }
    ensures layer_limit { layers.new.limit ≡ layers.old.limit }
    ensures linked { links.new.nodes ≡ length nodes.new.names }
    ensures names { OnOk result (nodes.new.names ≡ with_ends nodes.old.names edge) }
    ensures layers { OnOk result (layers.new.names
        ≡ insert_key same_name layers.old.names edge.layer) }
    ensures nodes_filed { OnOk result (updates_in node_histories.new.items
        ≡ with_end_histories nodes.old.names edge (updates_in node_histories.old.items)) }
    ensures edges { let found = position (same_entity (EdgeNamed edge))
        (edge_entities nodes.old.names layers.old.names links.old.edges) in
        OnOk result (HasEdge found nodes.new.names layers.new.names edge links.old links.new) }
    ensures number { IfOk result
        (IsEdgeNumber nodes.new.names layers.new.names links.new.edges edge) }
    ensures taken { let found = position (same_entity (EdgeNamed edge))
        (edge_entities nodes.old.names layers.old.names links.old.edges) in
        OnOk result (TakeUpdate keys.now props.now arrival found
        (updates_in edge_histories.old.items) (updates_in edge_histories.new.items)) }
    ensures err_names { OnErr result (nodes.new.names ≡ nodes.old.names) }
    ensures err_layers { OnErr result (layers.new.names ≡ layers.old.names) }
    ensures err_edges { OnErr result (links.new.edges ≡ links.old.edges) }
    ensures err_pairs { OnErr result (links.new.pairs ≡ links.old.pairs) }
    ensures err_nodes_filed { OnErr result (updates_in node_histories.new.items
        ≡ updates_in node_histories.old.items) }
    ensures err_filed { OnErr result (updates_in edge_histories.new.items
        ≡ updates_in edge_histories.old.items) }
    ensures cost { steps.new ≤ steps.old + (digits arrival.number + 1) }
{
    let values = keys.number(alloc, props)?;
    let update = arrival.update(values);
    file_edge(
        alloc,
        nodes,
        layers,
        links,
        node_histories,
        edge_histories,
        edge,
        update,
        steps,
    )
}

/// Takes an event of an edge, which is new or known. Its keys, which are new or known, get numbers.
/// It answers the edge's number.
pub fn take_edge<L: Ledger>(
    alloc: Global,
    keys: &mut KeyTable,
    nodes: &mut NameTable,
    layers: &mut NameTable,
    links: &mut EdgeTable,
    node_histories: &mut Vec<History>,
    edge_histories: &mut Vec<History>,
    edge: EdgeName,
    props: &Props,
    arrival: Arrival,
    steps: &mut Steps<L>,
) -> Result<u32, Memory>
    requires keys { length (with_keys keys.old props.now) < 2 ^ 32 }
    requires linked { links.old.nodes ≡ length nodes.old.names }
    requires few { length (with_ends nodes.old.names edge) ≤ nodes.old.limit }
    requires fewer { length nodes.old.names < 2 ^ 32 - 2 }
    requires few_layers { length (insert_key same_name layers.old.names edge.layer)
        ≤ layers.old.limit }
    requires layer_limit { layers.old.limit ≡ most_layers }
    requires within { (e : ℕ) → e < length links.old.edges
        → ((parts_at links.old.edges e).src < length nodes.old.names)
        × ((parts_at links.old.edges e).dst < length nodes.old.names)
        × ((parts_at links.old.edges e).layer < length layers.old.names) }
    requires lengths { vec_len edge_histories.old ≡ length links.old.edges }
    requires few_edges { length links.old.edges < 2 ^ 32 - 1 }
    requires next { (values : List (ℕ × GraphValue)) (i : ℕ) → i < vec_len edge_histories.old
        → ArrivesNext (update_of arrival values)
        (updates_of_number (updates_in edge_histories.old.items) i) }
    requires early { arrival.number < 2 ^ 32 - 1 }
    ensures limit { nodes.new.limit ≡ nodes.old.limit }
    ensures layer_limit { layers.new.limit ≡ layers.old.limit }
    ensures linked { links.new.nodes ≡ length nodes.new.names }
    ensures names { OnOk result (nodes.new.names ≡ with_ends nodes.old.names edge) }
    ensures layers { OnOk result (layers.new.names
        ≡ insert_key same_name layers.old.names edge.layer) }
    ensures nodes_filed { OnOk result (updates_in node_histories.new.items
        ≡ with_end_histories nodes.old.names edge (updates_in node_histories.old.items)) }
    ensures edges { let found = position (same_entity (EdgeNamed edge))
        (edge_entities nodes.old.names layers.old.names links.old.edges) in
        OnOk result (HasEdge found nodes.new.names layers.new.names edge links.old links.new) }
    ensures number { IfOk result
        (IsEdgeNumber nodes.new.names layers.new.names links.new.edges edge) }
    ensures taken { let found = position (same_entity (EdgeNamed edge))
        (edge_entities nodes.old.names layers.old.names links.old.edges) in
        OnOk result (TakeUpdate (with_keys keys.old props.now) props.now arrival found
        (updates_in edge_histories.old.items) (updates_in edge_histories.new.items)) }
    ensures err_names { OnErr result (nodes.new.names ≡ nodes.old.names) }
    ensures err_layers { OnErr result (layers.new.names ≡ layers.old.names) }
    ensures err_edges { OnErr result (links.new.edges ≡ links.old.edges) }
    ensures err_pairs { OnErr result (links.new.pairs ≡ links.old.pairs) }
    ensures err_nodes_filed { OnErr result (updates_in node_histories.new.items
        ≡ updates_in node_histories.old.items) }
    ensures err_filed { OnErr result (updates_in edge_histories.new.items
        ≡ updates_in edge_histories.old.items) }
    ensures cost { steps.new ≤ steps.old + (digits arrival.number + 1) }
    ensures keys { OnOk result (keys.new ≡ with_keys keys.old props.now) }
    ensures err_keys { OnErr result (keys.new ≡ keys.old) }
{
    let known = keys.count();
    keys.add(props)?;
    match file_numbered_edge(
        alloc,
        keys,
        nodes,
        layers,
        links,
        node_histories,
        edge_histories,
        edge,
        props,
        arrival,
        steps,
    ) {
        Ok(edge) => Ok(edge),
        Err(memory) => {
            keys.cut(known);
            Err(memory)
        }
    }
}
