//! The weak labels of the nodes of a view.
ghost use Rattle.std.specs.Prelude.{◌≡◌, ◌<◌, ◌≤◌, ◌+◌, ◌*◌, ◌^◌, ◌==◌, ℕ, Some, length, map, slice_get, slice_index_or, IfOk};
ghost use Rattle.std.specs.List.{All, IsDistinct};
ghost use Rattle.graph_model.specs.declared.events.Model.TheVariants.{Event as Instants};
ghost use Rattle.graph_model.specs.declared.queries.Ask.TheVariants.{Weak};
ghost use Rattle.graph_model.specs.Answer.{IsAnswer};
ghost use Rattle.graph_model.specs.Presence.{nodes as present_names};
ghost use Rattle.graph_store.specs.Contents.{name_at};
ghost use Rattle.view_trait.specs.Coverage.{Covers, edge_count_on, node_count_on};
ghost use Rattle.view_trait.specs.Meaning.{StepsWithin};
ghost use Rattle.present_links.specs.Links.{rising_links};
ghost use Rattle.walk_laws.specs.Labels.{AreLeastPlaces};
ghost use Rattle.walk_algorithms.specs.Parts.{ArePlaces, parts_by};
ghost use Rattle.walk_algorithms.specs.WalkRows.{part_row_of};

use disjoint_sets::DisjointSets;
use graph_model::Memory;
use graph_store::NodeId;
use present_links::{Links, NodeRows, links, present_nodes};
use std::alloc::Global;
use std::marker::Model;
use std::sync::ledger::Ledger;
use time_column::Steps;
use view_trait::{Roster, View};

/// A node, and its label: of the nodes to which walks lead from it either way, itself among them, the
/// one whose name is least by its bytes.
#[derive(Clone, Copy)]
pub struct Part {
    pub node: NodeId,
    pub label: NodeId,
}

/// Nodes with their labels. A contract sees them as a list.
#[derive(Drop)]
pub struct Parts {
    rows: Vec<Part>,
}

impl Model for Parts {
    ghost use Rattle.std.specs.Prelude.{List};
    ghost use Rattle.walk_algorithms.specs.declared.labels.Part.{Part};

    ghost Value = { List Part };

    ghost view = { λ p. p.rows.items };
}

impl Parts {
    /// How many nodes there are.
    pub fn len(&self) -> usize
        ensures { result ≡ length self.now }
    {
        self.rows.len()
    }

    /// The node in a place, with its label.
    pub fn item(&self, i: usize) -> &Part
        requires { i < length self.now }
        ensures { slice_get self.now i ≡ Some result.now }
    {
        &self.rows[i]
    }

    /// The nodes with their labels, side by side.
    pub fn as_slice(&self) -> &[Part]
        ensures { result.now ≡ self.now }
    {
        self.rows.as_slice()
    }
}

/// For the number of each node of a list its place there. It takes 4 bytes for each number below a
/// limit.
fn places_of(alloc: Global, limit: u32, nodes: &NodeRows) -> Result<Vec<u32>, Memory>
    requires known { All (λ n. n < limit) nodes.now }
    requires once { IsDistinct (λ (m n : ℕ). m == n) nodes.now }
    ensures { IfOk result (λ places. ArePlaces nodes.now limit places.items) }
{
    let mut places = vec![in alloc; 0; limit as usize]?;
    for i in 0..nodes.len() {
        places[nodes.item(i).0 as usize] = i as u32;
    }
    Ok(places)
}

/// The places of the present nodes, joined where a link leads from one to another. So the least place
/// of a set is that of the label of its nodes.
fn join_places<V: View>(
    alloc: Global,
    view: &V,
    links: &Links,
    nodes: &NodeRows,
    places: &[u32],
) -> Result<DisjointSets, Memory>
    requires links { links.now ≡ rising_links (V.contents view.now) (V.world view.now) }
    requires nodes { let name_of = name_at (V.contents view.now).nodes in
        map name_of nodes.now ≡ present_names (V.world view.now) }
    requires known { All (λ n. n < length (V.contents view.now).nodes) nodes.now }
    requires few { length nodes.now < 2 ^ 32 }
    requires places { ArePlaces nodes.now (length (V.contents view.now).nodes) places.now }
    ensures { IfOk result (λ sets. AreLeastPlaces (V.world view.now) sets) }
{
    let _indexed = view.store().nodes();
    let mut sets = DisjointSets::new(alloc, nodes.len() as u32)?;
    for i in 0..links.len() {
        let link = links.item(i);
        sets.join(places[link.src as usize], places[link.dst as usize]);
    }
    Ok(sets)
}

/// The nodes with those in the least places of their sets, in their order.
fn parts_of(alloc: Global, nodes: &NodeRows, sets: &mut DisjointSets) -> Result<Parts, Memory>
    requires each { length sets.old ≡ length nodes.now }
    requires few { length nodes.now < 2 ^ 32 }
    requires lower { (i : ℕ) → i < length nodes.now → slice_index_or sets.old i 0 ≤ i }
    ensures { IfOk result (λ parts. parts ≡ parts_by nodes.now sets.old) }
{
    let mut rows = Vec::with_capacity(alloc, nodes.len())?;
    for i in 0..nodes.len() {
        let least = sets.least(i as u32);
        rows.push(Part {
            node: nodes.item(i),
            label: nodes.item(least as usize),
        })?;
    }
    Ok(Parts { rows })
}

/// The present nodes with their labels, rising by the bytes of their names. The span of each node and
/// of each edge on the roster is asked once at most, and the labels are the same for every roster that
/// covers the view. The links are joined by a union-find over the places of the present nodes. It takes
/// memory for the links that the view shows and for the present nodes, and 4 bytes for each node of the
/// store.
pub fn weak_parts<V: View, L: Ledger>(
    alloc: Global,
    view: &V,
    roster: Roster<'_>,
    steps: &mut Steps<L>,
) -> Result<Parts, Memory>
    requires covers { Covers (V.contents view.now) (V.world view.now) roster }
    ensures rows { let row_of = part_row_of (V.contents view.now) in
        IfOk result (λ parts. IsAnswer (V.world view.now) Weak (map row_of parts)) }
    ensures known { let count = length (V.contents view.now).nodes in
        IfOk result (λ parts. All (λ p. (p.node.0 < count) × (p.label.0 < count)) parts) }
    ensures cost { let c = V.contents view.now in
        let of_nodes = node_count_on c roster.entry * (V.searches view.now).nodes in
        let of_edges = edge_count_on c roster.entry * (V.searches view.now).edges in
        (V.world view.now).model ≡ Instants
        → StepsWithin steps.old steps.new (of_nodes + of_edges) (length c.accepted) }
{
    let links = links(alloc, view, roster, steps)?;
    let nodes = present_nodes(alloc, view, &links, roster, steps)?;
    let places = places_of(alloc, view.store().nodes(), &nodes)?;
    let mut sets = join_places(alloc, view, &links, &nodes, places.as_slice())?;
    parts_of(alloc, &nodes, &mut sets)
}
