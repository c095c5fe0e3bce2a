//! The numbers of edges by the names of their parts.
ghost use Rattle.std.specs.Prelude.{◌≡◌, ℕ, ◌+◌, ◌-◌, ◌^◌, ◌<◌, ◌≤◌, Some, length, position, vec_len};
ghost use Rattle.std.specs.Vec.{vec_capacity};
ghost use Rattle.indexmap.specs.IndexSet.{insert_key};
ghost use Rattle.graph_model.specs.Limits.{most_layers};
ghost use Rattle.graph_model.specs.Names.{same_name};
ghost use Rattle.graph_model.specs.Entity.{same_entity};
ghost use Rattle.graph_model.specs.declared.events.Entity.TheVariants.{Edge as EdgeNamed};
ghost use Rattle.graph_store.specs.EdgeParts.{parts_at};
ghost use Rattle.graph_store.specs.Histories.{updates_in};
ghost use Rattle.graph_store.specs.WithUpdate.{with_history, with_ends, with_end_histories};
ghost use Rattle.graph_store.specs.Contents.{edge_name, edge_entities};

use crate::edges::{EdgeParts, EdgeTable};
use crate::filing::add_name;
use graph_model::{EdgeName, Name};
use name_intern::NameTable;
use std::alloc::Global;
use time_history::History;

/// The number of an edge, if it is among the edges whose parts have these names.
pub fn number_of_edge(
    nodes: &NameTable,
    layers: &NameTable,
    links: &EdgeTable,
    edge: &EdgeName,
) -> Option<u32>
    requires few_layers { length layers.now.names ≤ most_layers }
    requires within { (e : ℕ) → e < length links.now.edges
        → ((parts_at links.now.edges e).src < length nodes.now.names)
        × ((parts_at links.now.edges e).dst < length nodes.now.names)
        × ((parts_at links.now.edges e).layer < length layers.now.names) }
    ensures { result ≡ position (same_entity (EdgeNamed edge.now))
        (edge_entities nodes.now.names layers.now.names links.now.edges) }
{
    let _node_count = nodes.len();
    let _layer_count = layers.len();
    let src = nodes.find(&edge.src)?;
    let dst = nodes.find(&edge.dst)?;
    let layer = layers.find(&edge.layer)?;
    let parts = EdgeParts {
        src,
        dst,
        layer: layer as u8,
    };
    links.find(parts)
}

/// The number of a name, which is new or known, and for which there is room.
pub fn number_name(names: &mut NameTable, name: Name) -> u32
    requires few { length (insert_key same_name names.old.names name) ≤ names.old.limit }
    requires room { 0 < names.old.spare }
    ensures names { names.new.names ≡ insert_key same_name names.old.names name }
    ensures number { position (same_name name) names.new.names ≡ Some result }
    ensures limit { names.new.limit ≡ names.old.limit }
    ensures spare { names.old.spare ≤ names.new.spare + 1 }
{
    if let Some(number) = names.find(&name) {
        return number;
    }
    add_name(names, name)
}

/// The number of a node, which is new or known, and for which there is room. A new one has an empty
/// history.
pub fn number_node(
    alloc: Global,
    nodes: &mut NameTable,
    links: &mut EdgeTable,
    histories: &mut Vec<History>,
    name: Name,
) -> u32
    requires linked { links.old.nodes ≡ length nodes.old.names }
    requires few { length (insert_key same_name nodes.old.names name) ≤ nodes.old.limit }
    requires fewer { length nodes.old.names < 2 ^ 32 - 1 }
    requires name_room { 0 < nodes.old.spare }
    requires node_room { 0 < links.old.spare_nodes }
    requires history_room { vec_len histories.old < vec_capacity histories.old }
    ensures names { nodes.new.names ≡ insert_key same_name nodes.old.names name }
    ensures number { position (same_name name) nodes.new.names ≡ Some result }
    ensures limit { nodes.new.limit ≡ nodes.old.limit }
    ensures linked { links.new.nodes ≡ length nodes.new.names }
    ensures edges { links.new.edges ≡ links.old.edges }
    ensures pairs { links.new.pairs ≡ links.old.pairs }
    ensures filed { updates_in histories.new.items
        ≡ with_history nodes.old.names name (updates_in histories.old.items) }
    ensures name_spare { nodes.old.spare ≤ nodes.new.spare + 1 }
    ensures node_spare { links.old.spare_nodes ≤ links.new.spare_nodes + 1 }
    ensures edge_spare { links.old.spare_edges ≤ links.new.spare_edges }
    ensures history_spare { vec_len histories.new + vec_capacity histories.old
        ≤ vec_len histories.old + 1 + vec_capacity histories.new }
{
    if let Some(number) = nodes.find(&name) {
        return number;
    }
    histories.push_reserved(History::new(alloc));
    links.add_node();
    number_name(nodes, name)
}

/// The numbers of an edge's parts, which are new or known, and for which there is room. A source is
/// numbered before a destination.
pub fn number_parts(
    alloc: Global,
    nodes: &mut NameTable,
    layers: &mut NameTable,
    links: &mut EdgeTable,
    histories: &mut Vec<History>,
    edge: EdgeName,
) -> EdgeParts
    requires linked { links.old.nodes ≡ length nodes.old.names }
    requires few { length (with_ends nodes.old.names edge) ≤ nodes.old.limit }
    requires fewer { length nodes.old.names < 2 ^ 32 - 2 }
    requires few_layers { length (insert_key same_name layers.old.names edge.layer)
        ≤ layers.old.limit }
    requires layer_limit { layers.old.limit ≡ most_layers }
    requires name_room { 1 < nodes.old.spare }
    requires layer_room { 0 < layers.old.spare }
    requires node_room { 1 < links.old.spare_nodes }
    requires history_room { vec_len histories.old + 1 < vec_capacity histories.old }
    ensures names { nodes.new.names ≡ with_ends nodes.old.names edge }
    ensures layers { layers.new.names ≡ insert_key same_name layers.old.names edge.layer }
    ensures limit { nodes.new.limit ≡ nodes.old.limit }
    ensures layer_limit { layers.new.limit ≡ layers.old.limit }
    ensures linked { links.new.nodes ≡ length nodes.new.names }
    ensures edges { links.new.edges ≡ links.old.edges }
    ensures pairs { links.new.pairs ≡ links.old.pairs }
    ensures filed { updates_in histories.new.items
        ≡ with_end_histories nodes.old.names edge (updates_in histories.old.items) }
    ensures parts { edge_name nodes.new.names layers.new.names result ≡ edge }
    ensures src { result.src < length nodes.new.names }
    ensures dst { result.dst < length nodes.new.names }
    ensures layer { result.layer < length layers.new.names }
    ensures edge_spare { links.old.spare_edges ≤ links.new.spare_edges }
{
    let EdgeName { src, dst, layer } = edge;
    let src_number = number_node(alloc, nodes, links, histories, src);
    let dst_number = number_node(alloc, nodes, links, histories, dst);
    let layer_number = number_name(layers, layer);
    let _few = layers.len();
    EdgeParts {
        src: src_number,
        dst: dst_number,
        layer: layer_number as u8,
    }
}
