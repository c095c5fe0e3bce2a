//! Updates, filed in the histories of numbered entities.
ghost use Rattle.std.specs.Prelude.{◌≡◌, ℕ, ◌+◌, ◌-◌, ◌^◌, ◌<◌, ◌≤◌, [], ◌∷◌, ◌++◌, false, position, length, map, vec_len, slice_set, IfOk, OnOk, OnErr};
ghost use Rattle.std.specs.List.{All, list_any};
ghost use Rattle.std.specs.Vec.{vec_capacity};
ghost use Rattle.indexmap.specs.IndexSet.{insert_key};
ghost use Rattle.graph_model.specs.Limits.{most_layers};
ghost use Rattle.graph_model.specs.Names.{same_name};
ghost use Rattle.graph_model.specs.Searches.{digits};
ghost use Rattle.time_history.specs.Kinds.{OfOneSort};
ghost use Rattle.time_history.specs.Updates.{placed};
ghost use Rattle.graph_store.specs.Telling.{updates_of_number};
ghost use Rattle.graph_store.specs.Histories.{updates_in};
ghost use Rattle.graph_store.specs.EdgeParts.{parts_at};
ghost use Rattle.graph_store.specs.Contents.{edge_entities};
ghost use Rattle.graph_model.specs.Entity.{same_entity};
ghost use Rattle.graph_model.specs.declared.events.Entity.TheVariants.{Edge as EdgeNamed};
ghost use Rattle.graph_store.specs.FiledAs.{IsNumberOf, IsEdgeNumber};
ghost use Rattle.graph_store.specs.WithUpdate.{with_update, with_ends, with_end_histories, HasEdge, ArrivesNext};

use crate::edges::EdgeTable;
use crate::naming::{number_of_edge, number_parts};
use graph_model::{EdgeName, Memory, Name};
use name_intern::NameTable;
use std::alloc::Global;
use std::sync::ledger::Ledger;
use time_column::Steps;
use time_history::{History, Update};

/// Places an update in the history of a number.
pub fn file_update<L: Ledger>(
    histories: &mut Vec<History>,
    number: u32,
    update: Update,
    steps: &mut Steps<L>,
) -> Result<(), Memory>
    requires within { number < vec_len histories.old }
    requires last { All (λ u. u.arrival < update.arrival)
        (updates_of_number (updates_in histories.old.items) number) }
    requires room { length (updates_of_number (updates_in histories.old.items) number)
        < 2 ^ 32 - 1 }
    requires kinds { OfOneSort
        (update ∷ updates_of_number (updates_in histories.old.items) number) }
    ensures ok { OnOk result (updates_in histories.new.items
        ≡ slice_set (updates_in histories.old.items) number
        (placed update (updates_of_number (updates_in histories.old.items) number))) }
    ensures err { OnErr result (updates_in histories.new.items ≡ updates_in histories.old.items) }
    ensures len { vec_len histories.new ≡ vec_len histories.old }
    ensures cost { steps.new ≤ steps.old
        + (digits (length (updates_of_number (updates_in histories.old.items) number)) + 1) }
{
    let history = &mut histories[number as usize];
    history.put(update, steps)
}

/// Begins the history of a new number with an update.
pub fn begin_history<L: Ledger>(
    alloc: Global,
    histories: &mut Vec<History>,
    update: Update,
    steps: &mut Steps<L>,
) -> Result<(), Memory>
    requires room { vec_len histories.old < vec_capacity histories.old }
    ensures ok { OnOk result (updates_in histories.new.items
        ≡ updates_in histories.old.items ++ (update ∷ []) ∷ []) }
    ensures err { OnErr result (updates_in histories.new.items ≡ updates_in histories.old.items) }
    ensures cost { steps.new ≤ steps.old + 1 }
{
    let mut history = History::new(alloc);
    history.put(update, steps)?;
    histories.push_reserved(history);
    Ok(())
}

/// Adds a new name, for which there is room.
pub fn add_name(names: &mut NameTable, name: Name) -> u32
    requires new { list_any (same_name name) names.old.names ≡ false }
    requires few { length names.old.names < names.old.limit }
    requires room { 0 < names.old.spare }
    ensures number { result ≡ length names.old.names }
    ensures limit { names.new.limit ≡ names.old.limit }
    ensures names { names.new.names ≡ names.old.names ++ name ∷ [] }
    ensures spare { names.old.spare ≤ names.new.spare + 1 }
{
    let number = names.len();
    let _ = names.intern(name);
    number
}

/// Makes room for so many nodes and edges more, but for what an edge has of its own.
pub fn reserve_nodes(
    nodes: &mut NameTable,
    links: &mut EdgeTable,
    histories: &mut Vec<History>,
    count: u32,
    edges: u32,
) -> Result<(), Memory>
    ensures limit { nodes.new.limit ≡ nodes.old.limit }
    ensures names { nodes.new.names ≡ nodes.old.names }
    ensures linked { links.new.nodes ≡ links.old.nodes }
    ensures edges { links.new.edges ≡ links.old.edges }
    ensures pairs { links.new.pairs ≡ links.old.pairs }
    ensures histories { histories.new.items ≡ histories.old.items }
    ensures len { vec_len histories.new ≡ vec_len histories.old }
    ensures name_room { OnOk result (count ≤ nodes.new.spare) }
    ensures node_room { OnOk result (count ≤ links.new.spare_nodes) }
    ensures edge_room { OnOk result (edges ≤ links.new.spare_edges) }
    ensures room { OnOk result (vec_len histories.new + count ≤ vec_capacity histories.new) }
{
    nodes.reserve(count)?;
    links.reserve(count, edges)?;
    histories.reserve(count as usize)
}

/// Makes room for an edge more, and for two nodes and a layer more.
fn reserve_edge(
    nodes: &mut NameTable,
    layers: &mut NameTable,
    links: &mut EdgeTable,
    node_histories: &mut Vec<History>,
    edge_histories: &mut Vec<History>,
) -> Result<(), Memory>
    ensures limit { nodes.new.limit ≡ nodes.old.limit }
    ensures names { nodes.new.names ≡ nodes.old.names }
    ensures layer_limit { layers.new.limit ≡ layers.old.limit }
    ensures layers { layers.new.names ≡ layers.old.names }
    ensures linked { links.new.nodes ≡ links.old.nodes }
    ensures edges { links.new.edges ≡ links.old.edges }
    ensures pairs { links.new.pairs ≡ links.old.pairs }
    ensures node_histories { node_histories.new.items ≡ node_histories.old.items }
    ensures node_len { vec_len node_histories.new ≡ vec_len node_histories.old }
    ensures edge_histories { edge_histories.new.items ≡ edge_histories.old.items }
    ensures edge_len { vec_len edge_histories.new ≡ vec_len edge_histories.old }
    ensures name_room { OnOk result (2 ≤ nodes.new.spare) }
    ensures layer_room { OnOk result (1 ≤ layers.new.spare) }
    ensures node_room { OnOk result (2 ≤ links.new.spare_nodes) }
    ensures edge_room { OnOk result (1 ≤ links.new.spare_edges) }
    ensures room { OnOk result (vec_len node_histories.new + 2 ≤ vec_capacity node_histories.new) }
    ensures own_room { OnOk result (vec_len edge_histories.new < vec_capacity edge_histories.new) }
{
    reserve_nodes(nodes, links, node_histories, 2, 1)?;
    layers.reserve(1)?;
    edge_histories.reserve(1)
}

/// Places an update of a node, which is new or known, in the history of the node. It answers the node's
/// number.
pub fn file_node<L: Ledger>(
    alloc: Global,
    nodes: &mut NameTable,
    links: &mut EdgeTable,
    histories: &mut Vec<History>,
    name: Name,
    update: Update,
    steps: &mut Steps<L>,
) -> Result<u32, Memory>
    requires linked { links.old.nodes ≡ length nodes.old.names }
    requires lengths { vec_len histories.old ≡ length nodes.old.names }
    requires few { length (insert_key same_name nodes.old.names name) ≤ nodes.old.limit }
    requires fewer { length nodes.old.names < 2 ^ 32 - 1 }
    requires next { (i : ℕ) → i < vec_len histories.old
        → ArrivesNext update (updates_of_number (updates_in histories.old.items) i) }
    requires early { update.arrival < 2 ^ 32 - 1 }
    ensures limit { nodes.new.limit ≡ nodes.old.limit }
    ensures edges { links.new.edges ≡ links.old.edges }
    ensures pairs { links.new.pairs ≡ links.old.pairs }
    ensures linked { links.new.nodes ≡ length nodes.new.names }
    ensures names { OnOk result (nodes.new.names ≡ insert_key same_name nodes.old.names name) }
    ensures number { IfOk result (IsNumberOf nodes.new.names name) }
    ensures filed { let found = position (same_name name) nodes.old.names in
        OnOk result (updates_in histories.new.items
        ≡ with_update found update (updates_in histories.old.items)) }
    ensures err_names { OnErr result (nodes.new.names ≡ nodes.old.names) }
    ensures err_filed { OnErr result (updates_in histories.new.items
        ≡ updates_in histories.old.items) }
    ensures cost { steps.new ≤ steps.old + (digits update.arrival + 1) }
{
    if let Some(node) = nodes.find(&name) {
        file_update(histories, node, update, steps)?;
        return Ok(node);
    }
    reserve_nodes(nodes, links, histories, 1, 0)?;
    begin_history(alloc, histories, update, steps)?;
    let node = add_name(nodes, name);
    links.add_node();
    Ok(node)
}

/// Places an update of an edge, which is new or known, in the history of the edge. A new edge names
/// its nodes and its layer, which are new or known. It answers the edge's number.
pub fn file_edge<L: Ledger>(
    alloc: Global,
    nodes: &mut NameTable,
    layers: &mut NameTable,
    links: &mut EdgeTable,
    node_histories: &mut Vec<History>,
    edge_histories: &mut Vec<History>,
    edge: EdgeName,
    update: Update,
    steps: &mut Steps<L>,
) -> Result<u32, Memory>
    requires linked { links.old.nodes ≡ length nodes.old.names }
    requires few { length (with_ends nodes.old.names edge) ≤ nodes.old.limit }
    requires fewer { length nodes.old.names < 2 ^ 32 - 2 }
    requires few_layers { length (insert_key same_name layers.old.names edge.layer)
        ≤ layers.old.limit }
    requires layer_limit { layers.old.limit ≡ most_layers }
    requires within { (e : ℕ) → e < length links.old.edges
        → ((parts_at links.old.edges e).src < length nodes.old.names)
        × ((parts_at links.old.edges e).dst < length nodes.old.names)
        × ((parts_at links.old.edges e).layer < length layers.old.names) }
    requires lengths { vec_len edge_histories.old ≡ length links.old.edges }
    requires few_edges { length links.old.edges < 2 ^ 32 - 1 }
    requires next { (i : ℕ) → i < vec_len edge_histories.old
        → ArrivesNext update (updates_of_number (updates_in edge_histories.old.items) i) }
    requires early { update.arrival < 2 ^ 32 - 1 }
    ensures limit { nodes.new.limit ≡ nodes.old.limit }
    ensures layer_limit { layers.new.limit ≡ layers.old.limit }
    ensures linked { links.new.nodes ≡ length nodes.new.names }
    ensures names { OnOk result (nodes.new.names ≡ with_ends nodes.old.names edge) }
    ensures layers { OnOk result (layers.new.names
        ≡ insert_key same_name layers.old.names edge.layer) }
    ensures nodes_filed { OnOk result (updates_in node_histories.new.items
        ≡ with_end_histories nodes.old.names edge (updates_in node_histories.old.items)) }
    ensures edges { let found = position (same_entity (EdgeNamed edge))
        (edge_entities nodes.old.names layers.old.names links.old.edges) in
        OnOk result (HasEdge found nodes.new.names layers.new.names edge links.old links.new) }
    ensures number { IfOk result
        (IsEdgeNumber nodes.new.names layers.new.names links.new.edges edge) }
    ensures filed { let found = position (same_entity (EdgeNamed edge))
        (edge_entities nodes.old.names layers.old.names links.old.edges) in
        OnOk result (updates_in edge_histories.new.items
        ≡ with_update found update (updates_in edge_histories.old.items)) }
    ensures err_names { OnErr result (nodes.new.names ≡ nodes.old.names) }
    ensures err_layers { OnErr result (layers.new.names ≡ layers.old.names) }
    ensures err_edges { OnErr result (links.new.edges ≡ links.old.edges) }
    ensures err_pairs { OnErr result (links.new.pairs ≡ links.old.pairs) }
    ensures err_nodes_filed { OnErr result (updates_in node_histories.new.items
        ≡ updates_in node_histories.old.items) }
    ensures err_filed { OnErr result (updates_in edge_histories.new.items
        ≡ updates_in edge_histories.old.items) }
    ensures cost { steps.new ≤ steps.old + (digits update.arrival + 1) }
{
    let _few = layers.len();
    if let Some(number) = number_of_edge(nodes, layers, links, &edge) {
        file_update(edge_histories, number, update, steps)?;
        return Ok(number);
    }
    reserve_edge(nodes, layers, links, node_histories, edge_histories)?;
    begin_history(alloc, edge_histories, update, steps)?;
    let parts = number_parts(alloc, nodes, layers, links, node_histories, edge);
    Ok(links.add(parts))
}
